//! Serves scripts line after line.
//!
//! Its main contract is that of [`serve_script`] and [`serve_lines`]: their output, and the states
//! of the databases afterwards, are those of the lines, served one after another by the machine.
//! They read on only when each complete line that came is answered. A script has a limit. Lines that
//! are served until their client sends no more have a limit that is never reached.
//!
//! Begin with [`serve_script`]. The meaning of its output is in specs/Output.antt, and when a client
//! is answered in specs/Answered.antt.
#![tactic(auto)]

mod alone;
mod batch;
mod part;
mod serve;
mod task;
mod totals;
mod waiting;

pub use serve::{serve_lines, serve_script};
