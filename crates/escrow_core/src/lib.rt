//! The database: tables, committed rows and open reservations, and the step from one statement to
//! its reply and the next state.
//!
//! Its main contract is that of [`Database::step`]: the reply and the new state are those of the
//! machine's step. Or the statement fails, if it may fail, and the state is equal. The machine
//! keeps committed rows and a list of open reservations, and tries every choice of that list.
//!
//! Begin with [`Database`]. What contracts see of it is in specs/Database.antt.
#![tactic(auto)]

mod database;
pub mod laws;

pub use database::Database;
pub use escrow_machine::{
    CheckBounds, ColumnBounds, ColumnChange, Event, Heading, JournalEntry, Reply, Settled, Stop,
};
pub use escrow_num::Failure;
