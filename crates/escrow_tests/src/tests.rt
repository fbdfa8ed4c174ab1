//! The tests.

mod bounds;
mod num;
mod schema;
mod sql;
mod txn;
