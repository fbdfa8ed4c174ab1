//! Databases that threads share, each under its own lock. Threads serve statements with passes, and
//! a close compares the passes with the histories.
//!
//! Its main contract is that of [`Shared::close`]: it returns a legal run of the machine for each
//! database, from its state at the beginning to its state now. The run has each call of each
//! session once, in the session's order. This holds as long as the disk returned what was written.
//! If the close can't return such runs, it returns a true cause.
//!
//! Begin with [`Shared::make`], which puts databases under locks and makes the passes. Then read
//! [`Shared::call`], [`Shared::drain`] and [`Shared::close`]. [`Shared::make_watched`] also makes
//! watchers, which read totals while calls are served.
#![tactic(auto)]

mod close;
mod commit_queue;
mod gate;
pub mod laws;
mod make;
mod opening;
mod part;
mod pass;
mod shard;
mod shared;
mod under_lock;
mod watched;

pub use close::{Audit, Cause, Closed, Mismatch};
pub use gate::{Gate, NoGate};
pub use make::{MakeFault, Unshared};
pub use opening::Opening;
pub use part::Part;
pub use pass::{Answer, Pass, Receipt};
pub use shared::{MAX_DATABASES, Shared};
pub use under_lock::{Locked, UnderLock};
pub use watched::Watched;
