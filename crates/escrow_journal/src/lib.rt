//! The journal of one transaction: its open reservations in order of grant, and its savepoints.
//!
//! Its main contract is that of [`Journal::cut`]: going back to a savepoint removes exactly the
//! reservations and the savepoints that came after it.
//!
//! Begin with [`Journal`].
#![tactic(auto)]

mod journal;
pub mod laws;
mod lists;

pub use escrow_num::Reservation;
pub use journal::Journal;
