//! Laws of workers. Each is the contract of a function that does nothing.
ghost use Rattle.escrow_sessions.specs.Laws.{Limits, ReceiptsAreServed};

/// The limits of this layer: 64 workers, and 16 requests that wait for each.
pub fn limits()
    ensures { Limits }
{}

/// The receipts that a pass gains are exactly those of the statements that were served, each with
/// its reply, in the order of their requests.
pub fn receipts_are_served()
    ensures { ReceiptsAreServed }
{}
