//! Ends the transactions of sessions: one ([`one`]), several in one write ([`together`]), or those
//! of a plan ([`plan`]), whose COMMITs that follow each other are written together ([`part`]).

mod one;
mod part;
mod plan;
mod together;
