//! The open transactions of a database's sessions: a journal for each, and the next id.
//!
//! Its main contract is that of [`TxnTable`]: the journals together are one list of open
//! reservations, in order of grant.
//!
//! Begin with [`TxnTable`].
#![tactic(auto)]

mod journals;
mod merge;
mod table;

pub use table::TxnTable;
