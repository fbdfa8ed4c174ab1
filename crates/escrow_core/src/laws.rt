//! Laws of the database. Each is the contract of a function that does nothing.
ghost use Rattle.escrow_core.specs.Laws.{Limits};

/// The limits of a database, as numbers: 64 COMMITs that are held back, 1,024 reservations that are
/// written together, 32,768 rows whose amounts are kept, and changes of 4 columns that are kept in
/// place.
pub fn limits()
    ensures { Limits }
{}
