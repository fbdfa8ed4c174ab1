//! Laws of the text of replies. Each is the contract of a function that does nothing.
ghost use Rattle.escrow_reply.specs.Laws.{Limits};

/// The room of a short reply. Its line takes at most 256 bytes, and the name in front of it 16.
pub fn limits()
    ensures { Limits }
{}
