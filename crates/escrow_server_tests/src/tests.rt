//! The tests.
mod drawn;
mod ends;
mod free;
mod program;
mod put_back;
mod runs;
mod streams;
mod strict;
mod texts;
