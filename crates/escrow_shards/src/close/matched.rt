//! Whether the receipts of a session are exactly its entries.
ghost use Rattle.std.specs.Prelude.{◌≡◌, ◌↔◌, ◌≤◌, ◌==◌, ◌++◌, List, length, drop, IfSome, IfNone, IsTrue};
ghost use Rattle.escrow_shards.specs.declared.pass.Receipt.{Receipt as Kept};
ghost use Rattle.escrow_shards.specs.Part.{parts_of, entries_of};
ghost use Rattle.escrow_shards.specs.Receipts.{receipts_of};

use crate::part::Part;
use crate::pass::{Receipt, is_receipt_of};
use escrow_num::Session;
use escrow_transcript::Entry;
use sqlite::Alter;

/// Returns whether an entry is of a session.
fn is_of(entry: &Entry, session: Session) -> bool
    ensures { result ≡ (entry.now.session == session) }
{
    entry.session.get() == session.get()
}

/// Tests whether the receipts from a place on begin with those of a session's entries. If they do,
/// returns the place after these.
pub(crate) fn matched(
    session: Session,
    receipts: &[Receipt],
    from: usize,
    entries: &[Entry],
) -> Option<usize>
    requires { from ≤ length receipts.now }
    ensures some { IfSome result
        (λ end. (end ≤ length receipts.now)
        × (drop from receipts.now ≡ receipts_of session entries.now ++ drop end receipts.now)) }
    ensures none { IfNone result ((rest : List Kept) → drop from receipts.now ≡ receipts_of session entries.now ++ rest
        → ⊥) }
{
    let mut next = from;
    for entry in entries {
        if !is_of(entry, session) {
            continue;
        }
        if next >= receipts.len() {
            return None;
        }
        if !is_receipt_of(&receipts[next], entry) {
            return None;
        }
        next += 1;
    }
    Some(next)
}

/// Tests whether receipts begin with those of a session's entries in the parts of a database. If
/// they do, returns the place after these.
fn matched_parts<S: Alter>(
    database: usize,
    session: Session,
    receipts: &[Receipt],
    parts: &[Part<S>],
) -> Option<usize>
    ensures some { IfSome result
        (λ end. (end ≤ length receipts.now)
        × (receipts.now ≡ receipts_of session (entries_of (parts_of database parts.now)) ++ drop end receipts.now)) }
    ensures none { IfNone result ((rest : List Kept)
        → receipts.now ≡ receipts_of session (entries_of (parts_of database parts.now)) ++ rest → ⊥) }
{
    let mut next = 0;
    for part in parts {
        if !part.is_of(database) {
            continue;
        }
        next = matched(session, receipts, next, part.entries())?;
    }
    Some(next)
}

/// Returns whether receipts are exactly those of a session's entries: in the parts of a database,
/// and then in a last transcript.
pub(crate) fn all_matched<S: Alter>(
    database: usize,
    session: Session,
    receipts: &[Receipt],
    parts: &[Part<S>],
    last: &[Entry],
) -> bool
    ensures { IsTrue result ↔ (receipts.now
        ≡ receipts_of session (entries_of (parts_of database parts.now) ++ last.now)) }
{
    let Some(next) = matched_parts(database, session, receipts, parts) else {
        return false;
    };
    let Some(end) = matched(session, receipts, next, last) else {
        return false;
    };
    end >= receipts.len()
}
