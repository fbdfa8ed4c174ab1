//! Laws of tallies. Each is the contract of a function that does nothing.

ghost use Rattle.escrow_stats.specs.Laws.{Limits, NothingIsZero, OneMoreIsWithOne, ListsAdd, SessionsAdd, PartsAreWithin};

/// The history of a database has at most 8 watchers.
pub fn limits()
    ensures { Limits }
{}

/// The tally of no replies is zero throughout.
pub fn nothing_is_zero()
    ensures { NothingIsZero }
{}

/// One more reply adds one of its kind to the list's tally, as long as 64 bits hold their number.
pub fn one_more_is_with_one()
    ensures { OneMoreIsWithOne }
{}

/// The tally of two lists, one after another, is the sum of their tallies, total by total.
pub fn lists_add()
    ensures { ListsAdd }
{}

/// The totals of a history are the sum of its sessions' totals, total by total.
pub fn sessions_add()
    ensures { SessionsAdd }
{}

/// A reply counts in at most one total besides `served`, and only if it counts there. So the sum of
/// all others is at most `served`, which is at most the number of replies.
pub fn parts_are_within()
    ensures { PartsAreWithin }
{}
