//! Tests of the crates without a store, through their public calls, for what no clause says and no
//! scenario shows. They are a crate of their own because a crate with tests is proved twice.
//!
//! Begin with `tests.rt`, which lists the files.
#![tactic(auto)]

#[cfg(test)]
mod tests;
