//! Results whose outcome a test knows. Any other outcome ends the test.
use std::process::Abort;

/// Returns the value. An error ends the test, naming what was expected.
pub fn made<R: Abort, T, E>(rt: &R, outcome: Result<T, E>, what: &str) -> T {
    match outcome {
        Ok(value) => value,
        Err(_) => rt.panic(what),
    }
}

/// Returns the error. Success ends the test, naming what was expected.
pub fn refused<R: Abort, T, E>(rt: &R, outcome: Result<T, E>, what: &str) -> E {
    match outcome {
        Ok(_) => rt.panic(what),
        Err(error) => error,
    }
}

/// Adds an item. If memory is refused, the test ends.
pub fn push<R: Abort, T>(rt: &R, items: &mut Vec<T>, item: T) {
    made(rt, items.push(item), "memory");
}
