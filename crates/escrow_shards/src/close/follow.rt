//! Whether the parts of a database are all there, in order.
ghost use Rattle.std.specs.Prelude.{◌≡◌, ◌↔◌, IsTrue};
ghost use Rattle.std.specs.List.{AllByRecursion};
ghost use Rattle.escrow_shards.specs.Closed.{Follow};
ghost use Rattle.escrow_shards.specs.Part.{IsSound, parts_of};

use crate::part::Part;
use escrow_transcript::Base;
use sqlite::Alter;

/// Returns whether the parts of a database are all there, in order: `count` of them, from a first
/// base to a last one.
pub(crate) fn parts_follow<'a, S: Alter>(
    database: usize,
    first: &'a Base,
    parts: &'a [Part<S>],
    count: u64,
    last: &Base,
) -> bool
    ensures whole { IsTrue result ↔ Follow 0 first.now (parts_of database parts.now) count last.now }
    ensures sound { IsTrue result → AllByRecursion (IsSound S.Store) (parts_of database parts.now) }
{
    let mut number = 0;
    let mut base = first;
    for part in parts {
        if !part.is_of(database) {
            continue;
        }
        if !part.is_next(number, base) {
            return false;
        }
        number = part.number();
        base = part.end();
    }
    number == count && base.is_same(last)
}
