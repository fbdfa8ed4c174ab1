//! Workers: sessions of shared databases that are served at the same time, each on a thread of its
//! own.
//!
//! Its main contract is that of [`run_sessions`]: each worker answers its requests in order: all of
//! them, or only some first ones. Its pass gains exactly the receipts of the answers that were
//! served. [`run_fed`] promises the same for requests that come one by one.
//!
//! Begin with [`run_sessions`], then read [`laws`].
#![tactic(auto)]

mod channel;
mod fed;
mod feed;
mod filling;
pub mod laws;
mod rule;
mod run;
mod service;
mod slot;
mod source;
mod team;
mod worker;

pub use channel::MAX_WAITING;
pub use fed::run_fed;
pub use feed::{Cause, Done, Ended, Feed, Given, MAX_WORKERS, NotFed, NotRun};
pub use filling::fill;
pub use run::run_sessions;
