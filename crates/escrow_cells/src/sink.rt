//! Sinks, which take rows as they are read.
ghost use Rattle.std.specs.Prelude.{List, [], ◌∷◌, ◌++◌, IsTrue, OnOk};
ghost use Rattle.sqlite_value.specs.Order.{Row as Cells};

use escrow_num::Failure;
use sqlite::Row;

/// Takes rows, one after another.
pub trait Sink {
    // Whether a sink that began as the first of these is the second one after it has taken these
    // rows.
    ghost has_taken: { Self → Self → List Cells → Type 0 };

    /// Takes one more row.
    fn take(&mut self, row: &Row) -> Result<(), Failure>
        ensures { OnOk result ((first : Self) (rows : List Cells) → has_taken first self.old rows
            → has_taken first self.new (rows ++ row.now ∷ [])) };

    /// Returns whether no further row changes it. A read stops once it is done.
    fn is_done(&self) -> bool
        ensures { IsTrue result → (first : Self) (rows more : List Cells) → has_taken first self.now rows
            → has_taken first self.now (rows ++ more) }
    {
        false
    }
}

/// Counts the rows that it takes.
#[derive(Debug, Drop)]
pub(crate) struct Counter {
    pub(crate) rows: usize,
}

impl Sink for Counter {
    ghost use Rattle.std.specs.Prelude.{◌≡◌, length};

    ghost has_taken = { λ _ counter rows. counter.rows ≡ length rows };

    fn take(&mut self, _: &Row) -> Result<(), Failure> {
        let Some(more) = self.rows.checked_add(1) else {
            return Err(Failure::Store);
        };
        self.rows = more;
        Ok(())
    }
}
