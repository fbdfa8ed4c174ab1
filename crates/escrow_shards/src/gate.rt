use escrow_num::Session;
use std::sync::Wait;

/// Hooks before and inside a call, by which a test fixes the order of calls. `n` is one more than
/// the number of receipts of the pass.
pub trait Gate {
    /// Called before a call, by the test itself. A call never calls it.
    fn before<R: Wait>(&self, rt: &R, database: usize, session: Session, n: u64);

    /// Called inside a call, while its lock is held, before the statement is served.
    fn inside<R: Wait>(&self, rt: &R, database: usize, session: Session, n: u64);

    /// Returns whether the gate does nothing. If so, another call may serve a COMMIT that waits,
    /// together with its own.
    fn is_idle(&self) -> bool {
        false
    }
}

/// A gate that does nothing.
#[derive(Clone, Copy, Debug)]
pub struct NoGate;

impl Gate for NoGate {
    fn before<R: Wait>(&self, _: &R, _: usize, _: Session, _: u64) {}

    fn inside<R: Wait>(&self, _: &R, _: usize, _: Session, _: u64) {}

    fn is_idle(&self) -> bool {
        true
    }
}
