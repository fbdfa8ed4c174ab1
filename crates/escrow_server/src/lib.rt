//! The program: its arguments, the files of its stores, and how it serves a script.
//!
//! Its main contracts are those of [`run_in_turn`] and [`run_at_once`]: in memory they serve the
//! script as the words of the command line ask, and return the exit status. Over files they only say
//! how it ended. The first serves one line after another, by [`serve_lines`] or [`serve_script`],
//! and waits for no thread. The second serves the sessions of a phase at the same time, by
//! [`serve_free`].
//!
//! Begin with [`read_line`], which reads these words, and [`run_in_turn`]. Then read [`Screen`],
//! which shows the progress of a script.
#![tactic(auto)]

mod args;
mod databases;
mod drawing;
mod fault;
mod free;
mod monitor;
mod opened;
mod program;
mod screen;
mod site;
mod stores;

pub use args::{ArgFault, Args, Mode, read_args};
pub use escrow_free::{FreeFault, serve_free};
pub use escrow_script::{
    Client, Duplex, MAX_DATABASES, MAX_LINE, MAX_READS, MAX_SCRIPT, MAX_STREAM, ReadFault,
    ServeFault, WriteFault,
};
pub use escrow_serve::{serve_lines, serve_script};
pub use monitor::Monitor;
pub use program::{read_line, run_at_once, run_in_turn};
pub use screen::{NO_SCREEN, NoScreen, Screen, Terminal};
pub use site::{Outlook, Site};
pub use stores::{CloseFault, InFiles, InMemory, OpenFault, OpenStore, Opened};
