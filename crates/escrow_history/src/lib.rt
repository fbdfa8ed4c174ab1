//! A database with the transcript of what it served: a base, which the database held when the
//! transcript began, and an entry for each statement since.
//!
//! Its main contract is that of [`Audited`]: as long as the disk has returned what was written, the
//! transcript is a legal run of the machine, from its base to the state of the database.
//!
//! Begin with [`Audited::serve`], which serves a statement and adds its entry. [`Audited::drain`]
//! hands out the transcript and begins the next one.
#![tactic(auto)]

mod audited;
mod committed;
pub mod laws;
mod served;

pub use audited::Audited;
pub use committed::Committed;
pub use escrow_transcript::{Base, Entry, Image, Transcript};
pub use served::{Served, Unserved};
