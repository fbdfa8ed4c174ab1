use crate::datum::Datum;

/// A step of a transaction: one statement that writes.
#[derive(Clone, Copy, Debug)]
pub enum Step<'a> {
    /// Inserts a new cell: the table's number, the row's key, the column's place from 1, and the
    /// value.
    InsertCell {
        table: i64,
        key: Datum<'a>,
        place: i64,
        value: Datum<'a>,
    },
    /// Sets the value of an existing cell. The hint is the rowid that it probably has in CELL, if
    /// one is known. A wrong hint costs time, and changes nothing.
    SetCell {
        table: i64,
        key: Datum<'a>,
        place: i64,
        value: Datum<'a>,
        hint: Option<i64>,
    },
    /// Deletes the cells of the row of a key.
    DeleteRow {
        table: i64,
        key: Datum<'a>,
    },
    /// Deletes the cells of a table.
    DeleteCells {
        table: i64,
    },
    /// Inserts a new table: its number, its name and the text that defines it.
    InsertTab {
        id: i64,
        name: &'a str,
        text: &'a str,
    },
    /// Deletes the name and the text of a table.
    DeleteTab {
        id: i64,
    },
}
