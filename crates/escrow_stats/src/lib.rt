//! Totals over replies: how many statements of a session were served, and with which outcome.
//!
//! Its main contract is that of [`Tally::with`]: from the tally of a list of replies it computes
//! that of the list with one more. Each total is the number of replies that count in it, by the
//! kind of each ([`Kind::of`]). [`Tally::render`] returns the lines that show a tally, exact to the
//! byte.
//!
//! Begin with [`Tally`] and [`Kind`]. Then read [`Board`], which shows the totals of a growing
//! history to at most [`MAX_WATCHERS`] watchers and never makes them wait. A [`Watcher`] reads the
//! tally of a list of entries that begins with the list it read before. The list is a legal history
//! as long as the disk returned what was written ([`Watcher::read`]).
#![tactic(auto)]

mod board;
mod board_fault;
mod kind;
mod known;
pub mod laws;
mod lines;
mod shown;
mod tally;
mod watcher;

pub use board::{Board, MAX_WATCHERS};
pub use board_fault::BoardFault;
pub use kind::Kind;
pub use tally::Tally;
pub use watcher::Watcher;
