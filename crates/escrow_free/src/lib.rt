//! Serves scripts phase by phase. The sessions of a phase run at the same time.
//!
//! Its main contract is that of [`serve_free`]: the output is what the script's lines write
//! according to the histories that are handed back. Each history is one legal run of the machine.
//! [`serve_free_watched`] has the same contract.
//!
//! Begin with [`serve_free`]. The meaning of its output is in specs/FreeOutput.antt.
#![tactic(auto)]

mod audience;
mod dealing;
mod drains;
mod fault;
mod marks;
mod outbox;
mod parting;
mod phase;
mod plan;
mod printing;
mod reading;
mod serve;
mod stage;

pub use audience::Audience;
pub use fault::FreeFault;
pub use serve::{serve_free, serve_free_watched};
