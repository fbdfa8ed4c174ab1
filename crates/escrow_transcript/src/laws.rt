//! Laws of transcripts. Each is the contract of a function that does nothing.

ghost use Rattle.escrow_transcript.specs.Laws.{Limits, ImagesAreWhole, NothingIsLegal, OneMoreIsLegal, LegalsJoin, LegalsPart, NumbersTellPlaces, LegalsAreRuns, EndsAreValid, CallsTellAll};

/// A transcript has at most 65,536 entries, and the greatest number of an entry is
/// 999,999,999,999,999.
pub fn limits()
    ensures { Limits }
{}

/// A state in which nothing is open is the state that its image starts: the image loses nothing.
pub fn images_are_whole()
    ensures { ImagesAreWhole }
{}

/// A transcript without entries is legal.
pub fn nothing_is_legal()
    ensures { NothingIsLegal }
{}

/// A legal transcript stays legal with one more entry, if this is the machine's step from the state
/// where the transcript ends, and has the next number.
pub fn one_more_is_legal()
    ensures { OneMoreIsLegal }
{}

/// Two legal transcripts join into one, if the second begins at the state and the number where the
/// first ends.
pub fn legals_join()
    ensures { LegalsJoin }
{}

/// Wherever a legal transcript is cut, its front is legal, and the rest is the machine's steps from
/// the state where the front ends.
pub fn legals_part()
    ensures { LegalsPart }
{}

/// An entry's number gives its place.
pub fn numbers_tell_places()
    ensures { NumbersTellPlaces }
{}

/// The entries of a legal transcript are a run of the machine, so what holds for runs holds for
/// transcripts.
pub fn legals_are_runs()
    ensures { LegalsAreRuns }
{}

/// If a legal transcript begins in a valid state, it ends in one. In a valid state each committed
/// row meets each check of its table.
pub fn ends_are_valid()
    ensures { EndsAreValid }
{}

/// The calls of a legal transcript, who asked what, determine the rest: its replies, its numbers
/// and the state where it ends.
pub fn calls_tell_all()
    ensures { CallsTellAll }
{}
