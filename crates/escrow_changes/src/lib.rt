//! What statements change, row by row and table by table. Nothing here runs. For SELECT, DELETE,
//! DROP TABLE, ALTER TABLE and an UPDATE of plain columns a law says what the machine's step
//! changes, and that nothing else changes.
//!
//! Its main contract is its [`laws`], each the contract of a function that does nothing.
//!
//! Begin with specs/Changes.antt.
#![tactic(auto)]

pub mod laws;
