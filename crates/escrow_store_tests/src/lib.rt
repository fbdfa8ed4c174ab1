//! Tests of stores: the cells in them, in memory and in a file, the databases over them, and their
//! opening.
//!
//! Begin with `tests.rt`, which lists the files.
#![tactic(auto)]

#[cfg(test)]
mod tests;
