//! Laws of journals. Each is the contract of a function that does nothing.

ghost use Rattle.escrow_journal.specs.Laws.{GoingBackAtOnceDropsNothing, GoingBackUndoesWhatCame, GoingBackDropsLaterSavepoints, GoingBackAgainDropsNothing, NothingIsLost, TheLastOfANameStands, ANameTakesOnePlace, LimitsOfASession};

/// Going back to a savepoint right after it was made drops nothing, and leaves the journal as it is.
pub fn going_back_at_once_drops_nothing()
    ensures { GoingBackAtOnceDropsNothing }
{}

/// Going back to a savepoint drops exactly the reservations that were added after it was made, and
/// leaves the journal as it was then.
pub fn going_back_undoes_what_came()
    ensures { GoingBackUndoesWhatCame }
{}

/// Going back to a savepoint drops a savepoint of another name that was made after it.
pub fn going_back_drops_later_savepoints()
    ensures { GoingBackDropsLaterSavepoints }
{}

/// After going back to a savepoint, the savepoint still exists, and nothing comes after it.
pub fn going_back_again_drops_nothing()
    ensures { GoingBackAgainDropsNothing }
{}

/// The reservations that going back leaves and those that it drops are together the reservations of
/// the journal, each once and in order.
pub fn nothing_is_lost()
    ensures { NothingIsLost }
{}

/// Of two savepoints of one name only the second exists, and nothing shows that there was a first.
pub fn the_last_of_a_name_stands()
    ensures { TheLastOfANameStands }
{}

/// A savepoint whose name already exists takes no further place.
pub fn a_name_takes_one_place()
    ensures { ANameTakesOnePlace }
{}

/// A session has at most 256 open reservations and at most 64 savepoints.
pub fn limits_of_a_session()
    ensures { LimitsOfASession }
{}
