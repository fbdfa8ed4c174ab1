//! Opens a store: reads it and finds out what it is. Makes an empty store from a database without
//! objects, and migrates a store of the previous format.
//!
//! Its main contract is that of [`open_store`]: what is opened is the store of the tables that it
//! returns, with rows that meet their checks, and is left as it is. Anything else is refused. A
//! database without objects becomes an empty store, in one transaction.
//!
//! Begin with [`open_store`]. [`migrate`] also turns a store in the previous format into one in the
//! known format, with the same tables and rows, in one transaction. [`verify`] reads a store again.
#![tactic(auto)]

mod bare;
mod cells;
mod format;
mod format_1;
pub mod laws;
mod migration;
mod open;
mod rows;
mod tables;
mod unverified;
mod whole;

pub use migration::migrate;
pub use open::{Opened, StoreFault, open_store};
pub use whole::verify;
