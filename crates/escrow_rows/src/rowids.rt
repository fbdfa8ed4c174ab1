//! The rowids of the cells of rows that were inserted.

use escrow_num::Value;
use indexmap::IndexMap;
use std::alloc::Global;
use std::hash::{BuildHasher, BuildHasherDefault, FoldHasher};

/// The most rows that are noted, as many as a table may have. One takes some 50 bytes.
const MAX_ROWS: usize = 65_536;

/// The rowids that the cells of rows probably have in CELL. SQLite numbers the cells of a new row
/// one after another, so an INSERT notes one number for its row. The hash of the row's table and key
/// finds it. Another row may have the same hash, so a rowid is a hint.
#[derive(Debug)]
pub(crate) struct Rowids {
    /// The number before the rowid of a row's first cell, by the row's hash.
    rows: Option<IndexMap<u64, i64>>,
}

// Written out, so that crates above need not prove again how its parts are dropped.
impl Drop for Rowids {
    fn drop(self) {
        let Rowids { rows: _ } = self;
    }
}

/// Returns the rowid that the cell at a place, from 0, probably has, by the number before the rowid
/// of its row's first cell.
pub(crate) fn rowid_at(before: Option<i64>, place: usize) -> Option<i64> {
    let behind = i64::try_from(place).ok()?.wrapping_add(1);
    Some(before?.wrapping_add(behind))
}

/// Returns the hash of a row.
fn hash_of(table: i64, key: &Value) -> u64 {
    let hasher: BuildHasherDefault<FoldHasher> = BuildHasherDefault::new();
    hasher.hash_one((table, key))
}

impl Rowids {
    /// Returns one that notes no row. Takes no memory.
    pub(crate) fn new() -> Self {
        Rowids { rows: None }
    }

    /// Returns the number before the rowid of a row's first cell, if it is noted.
    pub(crate) fn before(&self, table: i64, key: &Value) -> Option<i64> {
        let rows = self.rows.as_ref()?;
        rows.get(&hash_of(table, key)).copied()
    }

    /// Notes the number before the rowid of a new row's first cell. If there is no room, all other
    /// rows are forgotten first. If memory is refused, this one isn't noted.
    pub(crate) fn note(&mut self, alloc: Global, table: i64, key: &Value, before: i64) {
        let mut rows = match self.rows.take() {
            Some(rows) => rows,
            None => IndexMap::new(alloc),
        };
        if rows.len() >= MAX_ROWS {
            rows.clear();
        }
        let _ = rows.insert(hash_of(table, key), before);
        self.rows = Some(rows);
    }
}
