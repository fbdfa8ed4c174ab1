//! The committed tables of a database: their definitions, and their rows in a store that SQLite
//! writes.
//!
//! Its main contract is that of each call of [`Tables`] that writes. It makes the named change to
//! the tables and rows, as plain lists, or leaves them as they were, even over a crash.
//!
//! Begin with [`Tables`], then its calls: [`Tables::insert`], [`Tables::set_plain`] and
//! [`Tables::delete`] write one row, and [`Tables::apply`] is COMMIT.
#![tactic(auto)]

mod apply;
mod changed_rows;
mod create;
mod judge;
mod judged;
mod read;
mod redefine;
mod tables;
mod verified;
mod whole;
mod write;

pub use judge::RowJudge;
pub use tables::Tables;
