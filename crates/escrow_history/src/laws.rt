//! Laws of histories. Each is the contract of a function that does nothing.
ghost use Rattle.escrow_history.specs.Laws.{EntriesAreAnswers};

/// No entry of a legal transcript has the reply 51, 52 or 60: a statement that isn't served has no
/// entry.
pub fn entries_are_answers()
    ensures { EntriesAreAnswers }
{}
