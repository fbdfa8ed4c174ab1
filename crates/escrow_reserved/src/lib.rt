//! What is open in a database: the journals of its sessions, and the sums of each row that they
//! reserve, kept together. It also makes what SHOW BOUNDS and SHOW JOURNAL show of these, and keeps
//! the amounts of rows that were read or inserted.
//!
//! Its main contract is that of [`Reserved`]: after any call, the place of a row counts exactly the
//! open reservations of the row. So [`Reserved::grant`] grants a reservation by the grant rule,
//! over every choice of them. Nothing here knows a store: the caller passes amounts, checks and
//! tables.
//!
//! Begin with [`Reserved`], then read [`Recent`].
#![tactic(auto)]

mod recent;
mod reserved;
mod shown_bounds;
mod shown_journal;
mod violation;

pub use recent::Recent;
pub use reserved::Reserved;
pub use shown_bounds::{free_bounds, row_bounds};
pub use shown_journal::journal_entry;
pub use violation::first_violation;
