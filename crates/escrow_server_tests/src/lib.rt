//! Tests of what the program can't be made to show from outside. They use readers, writers, screens
//! and gates of their own, files that change between two calls, and calls that no script makes.
//! They are a crate of their own, so that the server isn't proved again with them.
//!
//! Begin with `tests.rt`, which lists the files.
#![tactic(auto)]

#[cfg(test)]
mod tests;
