use crate::stored::StoredTable;

/// A table of a store, with its number of rows.
#[derive(Debug, Drop)]
pub struct CountedTable {
    /// The table, with its number in the store.
    pub stored: StoredTable,
    /// How many rows it has.
    pub rows: usize,
}
