//! The tests.

mod closes;
mod concert;
mod databases;
mod gates;
mod histories;
mod kinds;
mod results;
mod sharing;
mod watching;
mod workers;
