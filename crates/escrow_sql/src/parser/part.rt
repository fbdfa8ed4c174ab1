ghost use Rattle.std.specs.Prelude.{◌≡◌, ◌++◌, false};
ghost use Rattle.escrow_sql.specs.Grammar.{Grammar, many};
ghost use Rattle.escrow_sql.specs.Predictive.{run, starts, first, may_be_empty};
ghost use Rattle.escrow_sql.specs.Cursor.{Advances, bare};
ghost use Rattle.escrow_sql.specs.Statement.{separated, list, in_parentheses};

use crate::cursor::Cursor;
use crate::halt::Halt;
use crate::token::{Kind, Symbol};
use escrow_num::Seq;
use std::alloc::Global;

/// An item of a list in a statement.
pub(crate) trait Part: Drop {
    ghost grammar: { Grammar Self };

    /// Reads one.
    fn read(alloc: Global, cursor: &mut Cursor) -> Result<Self, Halt>
        ensures { Advances cursor.new.tokens.now result (run grammar cursor.old.tokens.now) };
}

/// A part that a statement may repeat any number of times, with nothing in between. It is never
/// empty.
pub(crate) trait Repeated: Part {
    /// Returns whether one comes next.
    fn is_next(cursor: &Cursor) -> bool
        ensures { result ≡ starts (first Self.grammar) cursor.now.tokens.now };

    ghost not_empty: { may_be_empty Self.Part.grammar ≡ false };
}

/// Reads one or more parts, with a separator between two: a token of the class of `separator`.
pub(crate) fn read_separated<P: Part>(
    alloc: Global,
    cursor: &mut Cursor,
    separator: &Kind,
) -> Result<Seq<P>, Halt>
    ensures { Advances cursor.new.tokens.now result
        (run (separated (bare separator.now) P.grammar) cursor.old.tokens.now) }
{
    let mut parts = Seq::new(alloc);
    'parts: loop {
        let part = P::read(alloc, cursor)?;
        parts.push(part)?;
        if !cursor.takes(separator) {
            return Ok(parts);
        }
    }
}

/// Reads one or more parts, with a comma between two.
pub(crate) fn read_list<P: Part>(alloc: Global, cursor: &mut Cursor) -> Result<Seq<P>, Halt>
    ensures { Advances cursor.new.tokens.now result (run (list P.grammar) cursor.old.tokens.now) }
{
    read_separated(alloc, cursor, &Kind::Symbol(Symbol::Comma))
}

/// Reads one or more parts in parentheses, with a comma between two.
pub(crate) fn read_listed<P: Part>(alloc: Global, cursor: &mut Cursor) -> Result<Seq<P>, Halt>
    ensures { Advances cursor.new.tokens.now result (run (in_parentheses (list P.grammar)) cursor.old.tokens.now) }
{
    cursor.symbol(Symbol::Open)?;
    let parts = read_list(alloc, cursor)?;
    cursor.symbol(Symbol::Close)?;
    Ok(parts)
}

/// Reads parts as long as one comes next, and adds them to those that are given.
pub(crate) fn read_more<P: Repeated>(
    alloc: Global,
    cursor: &mut Cursor,
    mut parts: Seq<P>,
) -> Result<Seq<P>, Halt>
    ensures { Advances cursor.new.tokens.now result (run (many P.grammar (λ xs. parts ++ xs)) cursor.old.tokens.now) }
{
    'parts: while P::is_next(cursor) {
        let part = P::read(alloc, cursor)?;
        parts.push(part)?;
    }
    Ok(parts)
}

/// Reads parts as long as one comes next.
pub(crate) fn read_all<P: Repeated>(alloc: Global, cursor: &mut Cursor) -> Result<Seq<P>, Halt>
    ensures { Advances cursor.new.tokens.now result (run (many P.grammar (λ xs. xs)) cursor.old.tokens.now) }
{
    read_more(alloc, cursor, Seq::new(alloc))
}
