//! The rows of a database in SQLite. TAB has each table, with its canonical text. CELL has each
//! row, one cell for each column.
//!
//! Its main contract is that of each call of [`RowStore`] that writes. A store that is the image of
//! tables and rows becomes the image of the changed tables and rows, or is left as it was.
//!
//! Begin with [`RowStore`], then its calls, such as [`RowStore::insert`] and
//! [`RowStore::put_amounts`]. A [`RowTaker`] takes the rows of a table one at a time as they are
//! read.
#![tactic(auto)]

mod all_values;
mod amounts;
mod cell;
mod datum;
mod delete;
mod insert;
mod keyed_row;
pub mod laws;
mod listed;
mod migration;
mod plain;
mod read;
mod reader;
mod rowids;
mod span;
mod store;
mod tables;
mod taker;
mod unverified;
mod whole_row;

pub use amounts::NewAmounts;
pub use keyed_row::KeyedRow;
pub use listed::ListedTable;
pub use span::{Span, reservable_span};
pub use store::RowStore;
pub use taker::RowTaker;
pub use whole_row::made_row;
