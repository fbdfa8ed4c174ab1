//! Takers, which take the rows of a table as they are read.
ghost use Rattle.std.specs.Prelude.{◌≡◌, Bool, List, [], ◌∷◌, ◌++◌, IsTrue, OnOk};
ghost use Rattle.escrow_rows.specs.declared.keyed_row.KeyedRow.{KeyedRow as Keyed};

use crate::keyed_row::KeyedRow;
use escrow_num::Failure;

/// Takes rows, one after another.
pub trait RowTaker: Drop {
    // Whether a taker that began as the first of these is the second one after it has taken these
    // rows.
    ghost has_taken: { Self → Self → List Keyed → Type 0 };

    // Whether a taker wants no more rows.
    ghost is_enough: { Self → Bool };

    /// Takes one more row.
    fn take(&mut self, row: KeyedRow) -> Result<(), Failure>
        ensures { OnOk result ((first : Self) (rows : List Keyed) → has_taken first self.old rows
            → has_taken first self.new (rows ++ row ∷ [])) };

    /// Returns whether no further row changes it. A read stops once it is done.
    fn is_done(&self) -> bool
        ensures enough { result ≡ is_enough self.now }
        ensures done { IsTrue result → (first : Self) (rows more : List Keyed) → has_taken first self.now rows
            → has_taken first self.now (rows ++ more) };
}
