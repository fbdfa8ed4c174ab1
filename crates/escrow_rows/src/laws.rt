//! Laws of the rows that a store holds. Each is the contract of a function that does nothing.
ghost use Rattle.escrow_rows.specs.Laws.{TheRowsOfAnImage};

/// The rows that a database holds are those whose image it is.
pub fn rows_of_an_image()
    ensures { TheRowsOfAnImage }
{}
