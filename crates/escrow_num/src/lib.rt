//! The types that every layer above shares: whole amounts, wide sums, numbers with a scale, spans,
//! names, values, rows, reservations and refusals. [`Seq`] and [`Text`] hold the lists and the
//! texts of the layers above.
//!
//! Its main contract is that of [`Span::first_broken`]: it returns the first limit of a span that
//! values leave, the low one first. It returns `None` exactly if each value between the two
//! extremes is allowed.
//!
//! Begin with [`Span`], then read [`Reservation`] and [`Refusal`].
#![tactic(auto)]

mod amount;
mod changes;
mod copied;
mod decimal;
mod digits;
mod failure;
pub mod laws;
mod name;
mod refusal;
mod reservation;
mod row;
mod scale;
mod scaled;
mod seq;
mod session;
mod span;
mod text;
mod value;
mod wide;

pub use amount::Amount;
pub use changes::Changes;
pub use copied::{Copied, are_same, copy_all};
pub use decimal::Decimal;
pub use failure::Failure;
pub use name::Name;
pub use refusal::{Refusal, Violation};
pub use reservation::{Reservation, Savepoint};
pub use row::Row;
pub use scale::Scale;
pub use scaled::Scaled;
pub use seq::Seq;
pub use session::{End, Session};
pub use span::{Side, Span};
pub use text::Text;
pub use value::{RowName, Value};
pub use wide::Wide;
