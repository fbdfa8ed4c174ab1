ghost use Rattle.std.specs.Prelude.{◌≡◌, ◌↔◌, IsTrue, IsOk, IfOk, false};
ghost use Rattle.escrow_statement.specs.Copies.{change_holds_memory, holds_memory, literal_holds_memory, row_holds_memory};

mod check;

use crate::statement::{
    AlterText, Assign, Assigned, ColumnMark, ColumnText, CreateText, InsertText, Item, Literal,
    RowText, SelectText, Statement, TableChange, UpdateText, WhereText,
};
use escrow_num::{Copied, Name, Seq, are_same, copy_all};
use std::alloc::{AllocError, Global};

impl Literal {
    /// Returns a copy of the literal. Only a text takes memory.
    fn copied(&self, alloc: Global) -> Result<Literal, AllocError>
        ensures same { IfOk result (λ l. l ≡ self.now) }
        ensures succeeds { literal_holds_memory self.now ≡ false → IsOk result }
    {
        match self {
            Literal::Number(number) => Ok(Literal::Number(*number)),
            Literal::Text(text) => Ok(Literal::Text(text.copy(alloc)?)),
        }
    }
}

impl Copied for Literal {
    fn copy(&self, alloc: Global) -> Result<Literal, AllocError> {
        self.copied(alloc)
    }

    fn is_same(&self, other: &Literal) -> bool {
        *self == *other
    }
}

impl Copied for ColumnMark {
    fn copy(&self, alloc: Global) -> Result<ColumnMark, AllocError> {
        match self {
            ColumnMark::PrimaryKey => Ok(ColumnMark::PrimaryKey),
            ColumnMark::Reservable => Ok(ColumnMark::Reservable),
            ColumnMark::NotNull => Ok(ColumnMark::NotNull),
            ColumnMark::Check(check) => Ok(ColumnMark::Check(check.copy(alloc)?)),
        }
    }

    fn is_same(&self, other: &ColumnMark) -> bool {
        match (self, other) {
            (ColumnMark::PrimaryKey, ColumnMark::PrimaryKey) => true,
            (ColumnMark::Reservable, ColumnMark::Reservable) => true,
            (ColumnMark::NotNull, ColumnMark::NotNull) => true,
            (ColumnMark::Check(a), ColumnMark::Check(b)) => a.is_same(b),
            _ => false,
        }
    }
}

impl Copied for ColumnText {
    fn copy(&self, alloc: Global) -> Result<ColumnText, AllocError> {
        Ok(ColumnText {
            name: self.name,
            kind: self.kind,
            marks: copy_all(alloc, self.marks.as_slice())?,
        })
    }

    fn is_same(&self, other: &ColumnText) -> bool {
        self.name == other.name
            && self.kind == other.kind
            && are_same(self.marks.as_slice(), other.marks.as_slice())
    }
}

impl Copied for Item {
    fn copy(&self, alloc: Global) -> Result<Item, AllocError> {
        match self {
            Item::Column(column) => Ok(Item::Column(column.copy(alloc)?)),
            Item::Check(check) => Ok(Item::Check(check.copy(alloc)?)),
            Item::PrimaryKey(column) => Ok(Item::PrimaryKey(*column)),
        }
    }

    fn is_same(&self, other: &Item) -> bool {
        match (self, other) {
            (Item::Column(a), Item::Column(b)) => a.is_same(b),
            (Item::Check(a), Item::Check(b)) => a.is_same(b),
            (Item::PrimaryKey(a), Item::PrimaryKey(b)) => *a == *b,
            _ => false,
        }
    }
}

impl Copied for CreateText {
    fn copy(&self, alloc: Global) -> Result<CreateText, AllocError> {
        Ok(CreateText {
            table: self.table,
            items: copy_all(alloc, self.items.as_slice())?,
        })
    }

    fn is_same(&self, other: &CreateText) -> bool {
        self.table == other.table && are_same(self.items.as_slice(), other.items.as_slice())
    }
}

impl TableChange {
    /// Returns a copy of the change. Only a CHECK takes memory.
    fn copy(&self, alloc: Global) -> Result<TableChange, AllocError>
        ensures same { IfOk result (λ t. t ≡ self.now) }
        ensures succeeds { change_holds_memory self.now ≡ false → IsOk result }
    {
        match self {
            TableChange::Add(check) => Ok(TableChange::Add(check.copy(alloc)?)),
            TableChange::Drop(check) => Ok(TableChange::Drop(*check)),
        }
    }

    /// Returns whether two changes are equal.
    fn is_same(&self, other: &TableChange) -> bool
        ensures { IsTrue result ↔ (self.now ≡ other.now) }
    {
        match (self, other) {
            (TableChange::Add(a), TableChange::Add(b)) => a.is_same(b),
            (TableChange::Drop(a), TableChange::Drop(b)) => *a == *b,
            _ => false,
        }
    }
}

impl AlterText {
    /// Returns a copy of the ALTER TABLE. Only a CHECK takes memory.
    fn copy(&self, alloc: Global) -> Result<AlterText, AllocError>
        ensures same { IfOk result (λ t. t ≡ self.now) }
        ensures succeeds { change_holds_memory self.now.change ≡ false → IsOk result }
    {
        Ok(AlterText {
            table: self.table,
            change: self.change.copy(alloc)?,
        })
    }

    /// Returns whether two ALTER TABLEs are equal.
    fn is_same(&self, other: &AlterText) -> bool
        ensures { IsTrue result ↔ (self.now ≡ other.now) }
    {
        self.table == other.table && self.change.is_same(&other.change)
    }
}

/// Returns a copy of the columns that an INSERT names, if it names any. Fails only if memory is
/// refused.
fn copy_columns(alloc: Global, columns: &Option<Seq<Name>>) -> Result<Option<Seq<Name>>, AllocError>
    ensures { IfOk result (λ copied. copied ≡ columns.now) }
{
    match columns {
        None => Ok(None),
        Some(names) => Ok(Some(copy_all(alloc, names.as_slice())?)),
    }
}

/// Returns whether two INSERTs name the same columns, in the same order, or both name none.
fn are_same_columns(columns: &Option<Seq<Name>>, others: &Option<Seq<Name>>) -> bool
    ensures { IsTrue result ↔ (columns.now ≡ others.now) }
{
    match (columns, others) {
        (None, None) => true,
        (Some(a), Some(b)) => are_same(a.as_slice(), b.as_slice()),
        _ => false,
    }
}

impl Copied for InsertText {
    fn copy(&self, alloc: Global) -> Result<InsertText, AllocError> {
        Ok(InsertText {
            table: self.table,
            columns: copy_columns(alloc, &self.columns)?,
            values: copy_all(alloc, self.values.as_slice())?,
        })
    }

    fn is_same(&self, other: &InsertText) -> bool {
        self.table == other.table
            && are_same_columns(&self.columns, &other.columns)
            && are_same(self.values.as_slice(), other.values.as_slice())
    }
}

impl Copied for Assigned {
    fn copy(&self, alloc: Global) -> Result<Assigned, AllocError> {
        match self {
            Assigned::Literal(literal) => Ok(Assigned::Literal(literal.copied(alloc)?)),
            Assigned::Change { source, change } => Ok(Assigned::Change {
                source: *source,
                change: *change,
            }),
        }
    }

    fn is_same(&self, other: &Assigned) -> bool {
        *self == *other
    }
}

impl Copied for Assign {
    fn copy(&self, alloc: Global) -> Result<Assign, AllocError> {
        Ok(Assign {
            column: self.column,
            value: self.value.copy(alloc)?,
        })
    }

    fn is_same(&self, other: &Assign) -> bool {
        *self == *other
    }
}

impl WhereText {
    /// Returns a copy of the condition. Only a text takes memory.
    fn copy(&self, alloc: Global) -> Result<WhereText, AllocError>
        ensures same { IfOk result (λ t. t ≡ self.now) }
        ensures succeeds { literal_holds_memory self.now.literal ≡ false → IsOk result }
    {
        Ok(WhereText {
            column: self.column,
            literal: self.literal.copied(alloc)?,
        })
    }
}

impl Copied for UpdateText {
    fn copy(&self, alloc: Global) -> Result<UpdateText, AllocError> {
        Ok(UpdateText {
            table: self.table,
            assigns: copy_all(alloc, self.assigns.as_slice())?,
            row: self.row.copy(alloc)?,
        })
    }

    fn is_same(&self, other: &UpdateText) -> bool {
        self.table == other.table
            && are_same(self.assigns.as_slice(), other.assigns.as_slice())
            && self.row == other.row
    }
}

impl RowText {
    /// Returns a copy of the row's text. Only a text in its WHERE takes memory.
    fn copy(&self, alloc: Global) -> Result<RowText, AllocError>
        ensures same { IfOk result (λ t. t ≡ self.now) }
        ensures succeeds { literal_holds_memory self.now.row.literal ≡ false → IsOk result }
    {
        Ok(RowText {
            table: self.table,
            row: self.row.copy(alloc)?,
        })
    }
}

impl SelectText {
    /// Returns a copy of the SELECT. Only a text in its WHERE takes memory.
    fn copy(&self, alloc: Global) -> Result<SelectText, AllocError>
        ensures same { IfOk result (λ t. t ≡ self.now) }
        ensures succeeds { row_holds_memory self.now.row ≡ false → IsOk result }
    {
        let row = match &self.row {
            None => None,
            Some(row) => Some(row.copy(alloc)?),
        };
        Ok(SelectText {
            table: self.table,
            row,
        })
    }
}

impl Statement {
    /// Returns a copy of the statement. Fails only if memory is refused. A statement without a list
    /// and without a text takes no memory.
    pub fn copy(&self, alloc: Global) -> Result<Statement, AllocError>
        ensures same { IfOk result (λ t. t ≡ self.now) }
        ensures succeeds { holds_memory self.now ≡ false → IsOk result }
    {
        match self {
            Statement::Create(text) => Ok(Statement::Create(text.copy(alloc)?)),
            Statement::Drop(table) => Ok(Statement::Drop(*table)),
            Statement::Alter(text) => Ok(Statement::Alter(text.copy(alloc)?)),
            Statement::Insert(text) => Ok(Statement::Insert(text.copy(alloc)?)),
            Statement::Update(text) => Ok(Statement::Update(text.copy(alloc)?)),
            Statement::Delete(text) => Ok(Statement::Delete(text.copy(alloc)?)),
            Statement::Select(text) => Ok(Statement::Select(text.copy(alloc)?)),
            Statement::ShowTable(table) => Ok(Statement::ShowTable(*table)),
            Statement::ShowJournal(table) => Ok(Statement::ShowJournal(*table)),
            Statement::ShowBounds(text) => Ok(Statement::ShowBounds(text.copy(alloc)?)),
            Statement::Commit => Ok(Statement::Commit),
            Statement::Rollback => Ok(Statement::Rollback),
            Statement::RollbackTo(savepoint) => Ok(Statement::RollbackTo(*savepoint)),
            Statement::Savepoint(savepoint) => Ok(Statement::Savepoint(*savepoint)),
        }
    }

    /// Returns whether two statements ask the same: they have the same names, numbers, texts and
    /// marks, in the same order.
    pub fn is_same(&self, other: &Statement) -> bool
        ensures { IsTrue result ↔ (self.now ≡ other.now) }
    {
        match (self, other) {
            (Statement::Create(a), Statement::Create(b)) => a.is_same(b),
            (Statement::Drop(a), Statement::Drop(b)) => *a == *b,
            (Statement::Alter(a), Statement::Alter(b)) => a.is_same(b),
            (Statement::Insert(a), Statement::Insert(b)) => a.is_same(b),
            (Statement::Update(a), Statement::Update(b)) => a.is_same(b),
            (Statement::Delete(a), Statement::Delete(b)) => *a == *b,
            (Statement::Select(a), Statement::Select(b)) => *a == *b,
            (Statement::ShowTable(a), Statement::ShowTable(b)) => *a == *b,
            (Statement::ShowJournal(a), Statement::ShowJournal(b)) => *a == *b,
            (Statement::ShowBounds(a), Statement::ShowBounds(b)) => *a == *b,
            (Statement::Commit, Statement::Commit) => true,
            (Statement::Rollback, Statement::Rollback) => true,
            (Statement::RollbackTo(a), Statement::RollbackTo(b)) => *a == *b,
            (Statement::Savepoint(a), Statement::Savepoint(b)) => *a == *b,
            _ => false,
        }
    }
}
