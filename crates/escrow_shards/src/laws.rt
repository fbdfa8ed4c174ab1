//! Laws of databases that threads share. Each is the contract of a function that does nothing.
ghost use Rattle.escrow_shards.specs.Laws.{Limits, NewPassesAreAll, PassesHavePlaces, IsAlwaysClean, CloseHasNoPremise};

use sqlite::Alter;

/// At most 16 databases are shared together.
pub fn limits()
    ensures { Limits }
{}

/// The passes that are made are one for each session of each database, and no others. If they are
/// handed back as they were given, the close finds each pass exactly once.
pub fn new_passes_are_all()
    ensures { NewPassesAreAll }
{}

/// The place of a pass follows from its database and its session: the passes of the first database
/// come first, in order of session.
pub fn passes_have_places()
    ensures { PassesHavePlaces }
{}

/// If the disk of a store always returns what was written, as memory does, a close has no premise:
/// the history of each database is one run of the machine.
pub fn close_has_no_premise<S: Alter>()
    requires { IsAlwaysClean S.Store }
    ensures { CloseHasNoPremise S.Store }
{}
