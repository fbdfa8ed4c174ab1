//! Transcripts: what a database held at the beginning, then an entry for each statement that was
//! served; and when such a list is legal. Nothing here stores a row or serves a statement. A layer
//! above keeps a history beside a database, with a legal transcript.
//!
//! Its main contract is the law [`laws::legals_join`]: two legal transcripts, of which the second
//! begins where the first ends, are one.
//!
//! Begin with [`Transcript`], then read [`laws`].
#![tactic(auto)]

mod base;
mod entry;
mod image;
pub mod laws;
mod transcript;

pub use base::Base;
pub use entry::Entry;
pub use image::Image;
pub use transcript::Transcript;
