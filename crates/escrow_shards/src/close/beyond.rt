//! Entries of sessions that have no pass.
ghost use Rattle.std.specs.Prelude.{◌≡◌, ◌<◌, ◌++◌, [], IfSome, IfNone};
ghost use Rattle.std.specs.List.{AllByRecursion};
ghost use Rattle.escrow_shards.specs.Part.{parts_of, entries_of};
ghost use Rattle.escrow_shards.specs.Receipts.{receipts_of};
ghost use Rattle.escrow_shards.specs.Found.{IsOfNoPass};
ghost use Rattle.escrow_shards.specs.Whole.{AreOfSessions, IsOfSessions};

use crate::close::{Cause, Closed};
use crate::part::Part;
use escrow_num::Session;
use escrow_transcript::Entry;
use sqlite::Alter;

/// Returns the session of the first entry that belongs to none of the first `sessions` sessions.
fn beyond(sessions: u16, entries: &[Entry]) -> Option<Session>
    ensures none { IfNone result (AllByRecursion (IsOfSessions sessions) entries.now) }
    ensures some { IfSome result (λ k. (sessions < k) × (receipts_of k entries.now ≡ [] → ⊥)) }
{
    for entry in entries {
        let session = entry.session;
        if session.get() > sessions {
            return Some(session);
        }
    }
    None
}

/// Returns what [`beyond`] does, for the entries in the parts of a database.
fn beyond_in_parts<S: Alter>(database: usize, sessions: u16, parts: &[Part<S>]) -> Option<Session>
    ensures none { IfNone result (AllByRecursion (IsOfSessions sessions) (entries_of (parts_of database parts.now))) }
    ensures some { IfSome result
        (λ k. (sessions < k) × (receipts_of k (entries_of (parts_of database parts.now)) ≡ [] → ⊥)) }
{
    for part in parts {
        if !part.is_of(database) {
            continue;
        }
        if let Some(session) = beyond(sessions, part.entries()) {
            return Some(session);
        }
    }
    None
}

/// Returns what [`beyond`] does, for the entries in the parts of a database and then in a last
/// transcript.
pub(crate) fn beyond_in_all<S: Alter>(
    database: usize,
    sessions: u16,
    parts: &[Part<S>],
    last: &[Entry],
) -> Option<Session>
    ensures none { IfNone result
        (AllByRecursion (IsOfSessions sessions) (entries_of (parts_of database parts.now) ++ last.now)) }
    ensures some { IfSome result
        (λ k. (sessions < k) × (receipts_of k (entries_of (parts_of database parts.now) ++ last.now) ≡ [] → ⊥)) }
{
    if let Some(session) = beyond_in_parts(database, sessions, parts) {
        return Some(session);
    }
    beyond(sessions, last)
}

/// Finds the first database with an entry that belongs to none of the first `sessions` sessions.
/// Returns it with the session of that entry, as a cause.
pub(crate) fn lacks_pass<S: Alter>(
    closed: &[Closed<S>],
    sessions: u16,
    parts: &[Part<S>],
) -> Option<Cause>
    ensures none { IfNone result (AreOfSessions sessions parts.now closed.now) }
    ensures some { IfSome result (λ cause. IsOfNoPass sessions parts.now closed.now cause) }
{
    for database in 0..closed.len() {
        if let Some(session) = closed[database].session_beyond(database, sessions, parts) {
            return Some(Cause::Receipts { database, session });
        }
    }
    None
}
