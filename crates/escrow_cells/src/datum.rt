use sqlite::types::ToSql;
use sqlite_value::value::ValueRef;

/// A value that a cell can hold.
#[derive(Clone, Copy, Debug)]
pub enum Datum<'a> {
    /// A whole number.
    Number(i64),
    /// A text.
    Text(&'a str),
}

impl<'a> ToSql<'a> for Datum<'a> {
    ghost use Rattle.escrow_cells.specs.Step.{kept};

    ghost to_sql = { kept };

    fn to_sql(self) -> ValueRef<'a> {
        match self {
            Datum::Number(number) => ValueRef::Int(number),
            Datum::Text(text) => ValueRef::Text(text.as_bytes()),
        }
    }
}
