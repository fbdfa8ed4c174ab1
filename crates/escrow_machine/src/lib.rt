//! The machine, which defines what a database does: a state of plain lists, the step from a
//! statement to its reply and the next state, and runs of steps. Nothing here stores a row. A
//! database must do what the machine says.
//!
//! Its main contract is its [`laws`], each the contract of a function that does nothing.
//!
//! Begin with `transition_of` in specs/Transition.antt, the table of statements, and `step` in
//! specs/Step.antt. Then read [`laws`] and [`Reply`].
#![tactic(auto)]

mod copies;
mod event;
pub mod laws;
mod reply;
mod settled;

pub use event::Event;
pub use reply::{CheckBounds, ColumnBounds, ColumnChange, Heading, JournalEntry, Reply};
pub use settled::{Settled, Stop};
