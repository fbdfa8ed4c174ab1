//! The three tables of a store, in SQLite: how each statement changes their rows, a list of steps
//! in one transaction, and reads.
//!
//! Its main contract is that of [`run`]: a list of steps is done completely or not at all, even
//! over a crash. The same holds for [`run_if_found`] and [`run_unless_refused`], for [`create`],
//! which makes a store, and for [`migrate`], which migrates one of another format.
//!
//! Begin with [`Step`] and [`run`]. Then read [`row_cells`] and [`table_cells`], which read the
//! cells of a row and of a table.
#![tactic(auto)]

mod creation;
mod datum;
// Public, since the prover looks for a function that is passed as a value in the module that
// defines it.
pub mod failure;
mod formats;
mod new_cell;
mod numbered;
mod read;
mod recognise;
mod sink;
mod statement;
mod step;
mod transaction;

pub use creation::{create, migrate};
pub use datum::Datum;
pub use failure::failure_of;
pub use formats::{FORMAT, FORMAT_1, Format};
pub use numbered::are_numbered;
pub use read::{
    cell_tables, count_cells, count_keys, key_cells, metas, row_cells, span_cells, spans_cells,
    table_cells, tabs,
};
pub use recognise::is_store_schema;
pub use sink::Sink;
pub use step::Step;
pub use transaction::{run, run_if_found, run_unless_refused};
