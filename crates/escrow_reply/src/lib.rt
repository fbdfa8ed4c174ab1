//! The text of replies.
//!
//! Its main contract is that of [`render`]: it returns the lines of a reply to the byte, each after
//! the database and the session that it is for. [`render_whole`] does so for a reply to a whole
//! database.
//!
//! Begin with [`render`]. If a reply is short and there is room for its line, [`push_short`] adds
//! it without taking memory. The words of each reply are in specs/Text.antt.
#![tactic(auto)]

mod bounds;
mod journal;
pub mod laws;
mod line;
mod lines;
mod push;
mod short;
mod values;
mod words;

pub use lines::{render, render_lines, render_whole};
pub use short::{MAX_FRONT, MAX_SHORT, is_short, push_short, push_short_line, push_short_whole};
