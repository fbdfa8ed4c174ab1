//! The protocol by which transactions of an ordinary PostgreSQL reserve: PostgreSQL's rows and
//! journals, the owner's server, which is the machine of `escrow_machine`, and for each event the
//! rule under which it may come. Nothing here runs. What the laws say holds of each state that
//! events lead to, as long as each comes under its rule.
//!
//! Its main contract is its [`laws`], each the contract of a function that does nothing.
//!
//! Begin with specs/Protocol.antt, the state, and `May` and `after` in specs/Step.antt, the rules.
//! Then read [`laws`].
#![tactic(auto)]

pub mod laws;
