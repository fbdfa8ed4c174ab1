//! Laws of the definitions. Each is the contract of a function that does nothing.

ghost use Rattle.escrow_sql.specs.Laws.{EachIsAnsweredOnce, EachIsLexedOnce, FactoringKeepsSentences, Limits, NumbersAreReadAsSpelled};

/// Each text has tokens or the column of a fault, and never two answers.
pub fn each_is_lexed_once()
    ensures { EachIsLexedOnce }
{}

/// A number of a statement, with a point or without one, means the millionths that `Decimal::read`
/// reads from its text. If that reads none, the text's fault is at its first digit.
pub fn numbers_are_read_as_spelled()
    ensures { NumbersAreReadAsSpelled }
{}

/// A text asks one thing, since the grammar is unambiguous, or it has its fault at one column. It
/// never has both.
pub fn each_is_answered_once()
    ensures { EachIsAnsweredOnce }
{}

/// The parser reads a grammar in which SHOW occurs once, before its alternatives. This grammar has
/// the sentences of the grammar of requests, with the same meanings, and its first faults are the
/// same.
pub fn factoring_keeps_sentences()
    ensures { FactoringKeepsSentences }
{}

/// A text has at most 65,536 bytes.
pub fn limits()
    ensures { Limits }
{}
