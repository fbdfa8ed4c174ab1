//! The tests.

mod crashes;
mod databases;
mod opened;
mod plans;
mod refusals;
mod rows;
