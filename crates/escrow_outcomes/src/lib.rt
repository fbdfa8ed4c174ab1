//! What a script writes and leaves, as laws above the script theorem. Nothing here runs. They say
//! that the output of lines is determined unless something fails, that databases don't disturb each
//! other, that every unit is accounted for by the lines and their replies, and that what a crash
//! leaves is a store.
//!
//! Its main contract is its [`laws`], each the contract of a function that does nothing.
//!
//! Begin with specs/Laws.antt.
#![tactic(auto)]

pub mod laws;
