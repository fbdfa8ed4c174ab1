//! Laws of the book of a run. Each is the contract of a function that does nothing.

ghost use Rattle.escrow_accounts.specs.Laws.{UnitsAreAccountedFor, NoMoveIsLeftOut, ReservationsEndOnce, ChangesAreAppliedOnce, RepliesTellTheBook, TranscriptsAreAccountedFor, EachMoveComes};

/// Every unit is accounted for. After any run from a valid state, the amounts in a column, of the
/// rows of a table or of any other rows, are those at the start, plus those of inserted rows, less
/// those of deleted rows, plus the changes of committed reservations.
pub fn units_are_accounted_for()
    ensures { UnitsAreAccountedFor }
{}

/// The sum needs each move of the book: if it holds without one, that move adds nothing.
pub fn no_move_is_left_out()
    ensures { NoMoveIsLeftOut }
{}

/// A reservation that is open or granted has one end: it is committed, or it is released, or it is
/// still open at the end of the run.
pub fn reservations_end_once()
    ensures { ReservationsEndOnce }
{}

/// A reservation's change is applied once or never. Without a restart, at most one reservation of
/// an id is committed, released, or open at the end of the run.
pub fn changes_are_applied_once()
    ensures { ChangesAreAppliedOnce }
{}

/// The replies give the ids of the granted reservations, and count the committed ones.
pub fn replies_tell_the_book()
    ensures { RepliesTellTheBook }
{}

/// The entries of a transcript from a valid state are accounted for, in units and in reservations:
/// those of a legal one, and all those of a database that a close finds to be one run.
pub fn transcripts_are_accounted_for()
    ensures { TranscriptsAreAccountedFor }
{}

/// There is a run from the empty database with a move of each kind.
pub fn each_move_comes()
    ensures { EachMoveComes }
{}
