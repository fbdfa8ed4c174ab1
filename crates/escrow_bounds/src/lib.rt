//! Worst-case sums for each row and check, kept between calls. What a row's open reservations can
//! do to its checks is looked up, without a walk over the reservations.
//!
//! Its main contract is that of [`Bounds::verdict`] and [`Bounds::verdict_at`]: the verdict on a
//! new reservation is that of the grant rule. It is taken over every choice of the reservations
//! that the row's place counts.
//!
//! Begin with [`Bounds`], then read [`laws`].
#![tactic(auto)]

mod bounds;
mod changes;
pub mod laws;
mod lists;
mod place;
mod sums;
mod verdict;

pub use bounds::{Addition, Bounds};
pub use changes::deltas;
pub use place::commit_amounts;
pub use verdict::Verdict;
