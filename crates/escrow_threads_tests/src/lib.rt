//! Tests of histories, of databases that threads share, and of the workers that serve them. They
//! test what is called, handed out and put together at a close, by one thread and by several.
//!
//! Begin with `tests.rt`, which lists the files.
#![tactic(auto)]

#[cfg(test)]
mod tests;
