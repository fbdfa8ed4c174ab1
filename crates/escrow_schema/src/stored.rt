use crate::table::TableDef;

/// A table of a store: its number there, and its definition.
#[derive(Debug, Drop)]
pub struct StoredTable {
    /// The number, 1 or more.
    pub id: i64,
    /// The definition.
    pub table: TableDef,
}
