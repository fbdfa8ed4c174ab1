//! The book of a run: the rows that come and go, and the reservations that are granted, committed
//! and released. Nothing here runs. The laws say that every unit is accounted for: the amounts at
//! the end of a run are those at its start and the balance of its book.
//!
//! Its main contract is its [`laws`], each the contract of a function that does nothing.
//!
//! Begin with specs/Book.antt: `moves_of` and `book`. Then read [`laws`].
#![tactic(auto)]

pub mod laws;
