//! The lines of a script and the writing of replies, whatever databases serve them.
//!
//! Its main contract is that of [`Script::next_line`], which takes the lines from a [`Client`] one
//! after another. [`classify`] says what each line is.
//!
//! Begin with [`Client`], [`Script`] and [`Line`]. [`gather`] collects replies and
//! [`write_gathered`] sends them; [`out_of_memory`] does so if memory is refused.
#![tactic(auto)]

mod client;
mod fault;
pub mod laws;
mod limits;
mod line;
mod names;
mod script;
mod unread;
mod written;

pub use client::{Client, Duplex};
pub use fault::{ReadFault, ServeFault, WriteFault, fault_refusal};
pub use limits::{Limit, MAX_DATABASES, MAX_LINE, MAX_READS, MAX_SCRIPT, MAX_STREAM};
pub use line::{Line, classify};
pub use names::database_name;
pub use script::Script;
pub use written::{MOST_GATHERED, gather, out_of_memory, send_whole, write_gathered, write_whole};
