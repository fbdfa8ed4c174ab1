use escrow_num::{Amount, Decimal, Name, Seq, Text};

/// What a text asks of the server.
#[derive(Debug, Drop)]
pub enum Request {
    /// A statement of a database.
    Statement(Statement),
    /// `SHOW STATISTICS`: the totals of the session that asks. No database keeps them.
    Statistics,
}

/// A statement of a database, as its text says it: nothing in it is looked up or judged yet.
#[derive(Debug)]
pub enum Statement {
    /// `CREATE TABLE name (..)`
    Create(CreateText),
    /// `DROP TABLE name`, with the table's name.
    Drop(Name),
    /// `ALTER TABLE name ..`
    Alter(AlterText),
    /// `INSERT INTO name [(..)] VALUES (..)`
    Insert(InsertText),
    /// `UPDATE name SET .. WHERE ..`
    Update(UpdateText),
    /// `DELETE FROM name WHERE ..`
    Delete(RowText),
    /// `SELECT * FROM name [WHERE ..]`
    Select(SelectText),
    /// `SHOW TABLE name`, with the table's name.
    ShowTable(Name),
    /// `SHOW JOURNAL [name]`, with the name of a table if one is written.
    ShowJournal(Option<Name>),
    /// `SHOW BOUNDS name WHERE ..`
    ShowBounds(RowText),
    /// `COMMIT [WORK]`
    Commit,
    /// `ROLLBACK [WORK]`
    Rollback,
    /// `ROLLBACK [WORK] TO [SAVEPOINT] name`, with the savepoint's name.
    RollbackTo(Name),
    /// `SAVEPOINT name`, with the savepoint's name.
    Savepoint(Name),
}

// Written out, so that crates above need not prove again how its parts are dropped.
impl Drop for Statement {
    fn drop(self) {
        match self {
            Statement::Create(_) => {}
            Statement::Alter(_) => {}
            Statement::Insert(_) => {}
            Statement::Update(_) => {}
            Statement::Delete(_) | Statement::ShowBounds(_) => {}
            Statement::Select(_) => {}
            Statement::Drop(_) | Statement::ShowTable(_) | Statement::ShowJournal(_) => {}
            Statement::Commit | Statement::Rollback => {}
            Statement::RollbackTo(_) | Statement::Savepoint(_) => {}
        }
    }
}

/// The text of a CREATE TABLE.
#[derive(Debug, Drop)]
pub struct CreateText {
    /// The table's name.
    pub table: Name,
    /// The items in its parentheses, in order.
    pub items: Seq<Item>,
}

/// One item of a CREATE TABLE.
#[derive(Debug, Drop)]
pub enum Item {
    /// A column.
    Column(ColumnText),
    /// `[CONSTRAINT name] CHECK (..)`
    Check(CheckText),
    /// `PRIMARY KEY (name)`, with the name of the column that is the key.
    PrimaryKey(Name),
}

/// The text of a column.
#[derive(Debug, Drop)]
pub struct ColumnText {
    /// The column's name.
    pub name: Name,
    /// Its type.
    pub kind: TypeText,
    /// The marks after its type, in order.
    pub marks: Seq<ColumnMark>,
}

/// The text of an ALTER TABLE.
#[derive(Debug, Drop)]
pub struct AlterText {
    /// The table's name.
    pub table: Name,
    /// What it changes.
    pub change: TableChange,
}

/// What an ALTER TABLE changes of its table.
#[derive(Debug, Drop)]
pub enum TableChange {
    /// `ADD [CONSTRAINT name] CHECK (..)`
    Add(CheckText),
    /// `DROP CONSTRAINT name`, with the check's name.
    Drop(Name),
}

/// The type of a column, as written.
#[derive(Clone, Copy, Debug, PartialEq, Eq)]
pub enum TypeText {
    /// `INTEGER`
    Integer,
    /// `NUMBER`, or `NUMBER(p)` or `NUMBER(p, s)` with what is written in the parentheses.
    Number(Option<NumberSize>),
    /// `VARCHAR2(n)`, with the n that is written.
    Varchar2(Amount),
}

/// The numbers in the parentheses of a `NUMBER(p)` or `NUMBER(p, s)`, as written: neither is judged
/// yet.
#[derive(Clone, Copy, Debug, PartialEq, Eq)]
pub struct NumberSize {
    /// The p: how many digits a value may have in all.
    pub digits: Amount,
    /// The s, if it is written: how many of the digits are after the point.
    pub scale: Option<Amount>,
}

/// A mark that may follow a column's type.
#[derive(Debug, Drop)]
pub enum ColumnMark {
    /// `PRIMARY KEY`
    PrimaryKey,
    /// `RESERVABLE`
    Reservable,
    /// `NOT NULL`, which holds of every column anyway.
    NotNull,
    /// `[CONSTRAINT name] CHECK (..)`
    Check(CheckText),
}

/// The text of a CHECK.
#[derive(Debug, Drop)]
pub struct CheckText {
    /// The name after CONSTRAINT, if one is written.
    pub name: Option<Name>,
    /// The conditions in its parentheses, in order, with AND between two.
    pub conditions: Seq<Condition>,
}

/// A condition of a CHECK.
#[derive(Debug, Drop)]
pub struct Condition {
    /// The terms of the sum on its left, in order.
    pub sum: Seq<Term>,
    /// The test of that sum.
    pub test: Test,
}

/// What a condition asks of a sum.
#[derive(Debug, Drop)]
pub enum Test {
    /// `comparison sum`: the sum compares this way with another sum.
    Compare {
        /// How they are compared.
        comparison: Comparison,
        /// The terms of the sum on its right, in order.
        sum: Seq<Term>,
    },
    /// `BETWEEN low AND high`: the sum is at least the one number and at most the other.
    Between {
        /// The least number.
        low: Decimal,
        /// The greatest number.
        high: Decimal,
    },
}

/// A term of a sum. A minus before it makes its number negative.
#[derive(Clone, Copy, Debug, PartialEq, Eq)]
pub enum Term {
    /// A number by itself.
    Number(Decimal),
    /// A whole number times a column. A column by itself is taken once.
    Column {
        /// The whole number, written without a point.
        coefficient: Amount,
        /// The column.
        column: Name,
    },
}

/// A comparison of a condition.
#[derive(Clone, Copy, Debug, PartialEq, Eq)]
pub enum Comparison {
    /// `<`
    Below,
    /// `<=`
    AtMost,
    /// `>`
    Above,
    /// `>=`
    AtLeast,
    /// `=`
    Equal,
}

/// The text of an INSERT.
#[derive(Debug, Drop)]
pub struct InsertText {
    /// The table's name.
    pub table: Name,
    /// The columns that are named before VALUES, in order, if any are.
    pub columns: Option<Seq<Name>>,
    /// The literals, in order.
    pub values: Seq<Literal>,
}

/// The text of an UPDATE.
#[derive(Debug, Drop)]
pub struct UpdateText {
    /// The table's name.
    pub table: Name,
    /// The assignments after SET, in order.
    pub assigns: Seq<Assign>,
    /// The condition after WHERE.
    pub row: WhereText,
}

/// An assignment, `column = value`.
#[derive(Debug, PartialEq, Eq, Drop)]
pub struct Assign {
    /// The column that is assigned.
    pub column: Name,
    /// What is assigned to it.
    pub value: Assigned,
}

/// The right side of an assignment.
#[derive(Debug, PartialEq, Eq, Drop)]
pub enum Assigned {
    /// A literal.
    Literal(Literal),
    /// `source + change`. A minus makes the change negative.
    Change {
        /// The column that is changed.
        source: Name,
        /// What is added to it.
        change: Decimal,
    },
}

/// The text that names a row of a table, in a DELETE and a SHOW BOUNDS.
#[derive(Debug, PartialEq, Eq, Drop)]
pub struct RowText {
    /// The table's name.
    pub table: Name,
    /// The condition after WHERE.
    pub row: WhereText,
}

/// The text of a SELECT.
#[derive(Debug, PartialEq, Eq, Drop)]
pub struct SelectText {
    /// The table's name.
    pub table: Name,
    /// The condition after WHERE, if there is one.
    pub row: Option<WhereText>,
}

/// The condition of a WHERE, `column = literal`.
#[derive(Debug, PartialEq, Eq, Drop)]
pub struct WhereText {
    /// The column.
    pub column: Name,
    /// The literal that it is compared with.
    pub literal: Literal,
}

/// A literal, as written. It becomes a value once it is known to fit a column.
#[derive(Debug, PartialEq, Eq, Drop)]
pub enum Literal {
    /// A number, in millionths.
    Number(Decimal),
    /// A text.
    Text(Text),
}
