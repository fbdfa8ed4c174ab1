//! Linear checks: what a condition demands of a row's amounts, the least and the greatest value of
//! a check's form over every choice of open reservations, and the grant rule.
//!
//! Its main contract is that of [`normalise`], with the law [`laws::checks_mean_their_texts`]: a
//! row meets the checks exactly if its amounts, in millionths, meet the conditions as they are
//! written.
//!
//! Begin with [`Check`] and its [`Check::violation`], then read [`laws`].
#![tactic(auto)]

mod check;
mod coefficients;
mod condition;
mod fault;
pub mod laws;
mod sparse;
mod spread;

pub use check::Check;
pub use coefficients::Coefficients;
pub use condition::{MAX_CHECKS, MAX_COEFFICIENT, is_written_name, normalise, normalise_behind};
pub use fault::CheckFault;
pub use sparse::Sparse;
pub use spread::Spread;
