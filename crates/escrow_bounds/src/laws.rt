//! Laws of places. Each is the contract of a function that does nothing. Those on calls are stated
//! by the clauses that the calls promise. So after any list of calls, each place counts exactly the
//! open reservations of its row.

ghost use Rattle.escrow_bounds.specs.Laws.{SameGrantRule, SameExtremes, NothingCounts, ReserveCounts, AddCounts, RemoveCounts, ReleaseCounts, AdoptCounts, DropCheckCounts, PartsCount};

/// The grant rule over all open reservations gives the same as over those of the row, which its
/// place counts.
pub fn same_grant_rule()
    ensures { SameGrantRule }
{}

/// The extremes of a form over all open reservations are the same as over those of the row.
pub fn same_extremes()
    ensures { SameExtremes }
{}

/// With no places, nothing is counted.
pub fn nothing_counts()
    ensures { NothingCounts }
{}

/// `Bounds::make`, and so `Bounds::reserve`, doesn't change what is counted.
pub fn reserve_counts()
    ensures { ReserveCounts }
{}

/// After `Bounds::add_at` one reservation more is counted. Its place among the others doesn't
/// matter.
pub fn add_counts()
    ensures { AddCounts }
{}

/// After `Bounds::remove_at` one reservation less is counted, whichever it was.
pub fn remove_counts()
    ensures { RemoveCounts }
{}

/// `Bounds::release_at` doesn't change what is counted.
pub fn release_counts()
    ensures { ReleaseCounts }
{}

/// `Bounds::adopt` doesn't change what is counted, over the checks that `Bounds::prepare` was
/// given.
pub fn adopt_counts()
    ensures { AdoptCounts }
{}

/// `Bounds::drop_check` doesn't change what is counted.
pub fn drop_check_counts()
    ensures { DropCheckCounts }
{}

/// The order in which reservations are counted doesn't matter: those that pass a test may come
/// first.
pub fn parts_count()
    ensures { PartsCount }
{}
