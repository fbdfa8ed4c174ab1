//! What a close returns, and the databases out of their locks. The modules below have what it looks
//! for: `findings` calls the others.
mod beyond;
pub(crate) mod findings;
mod follow;
mod matched;
mod passes;
pub(crate) mod room;

ghost use Rattle.std.specs.Prelude.{◌≡◌, ◌≤◌, map, vec_len};
ghost use Rattle.escrow_shards.specs.declared.shared.TheConstants.{MAX_DATABASES};
ghost use Rattle.escrow_shards.specs.Closed.{opening_of};

use crate::close::beyond::beyond_in_all;
use crate::close::follow::parts_follow;
use crate::close::matched::all_matched;
use crate::close::room::Room;
use crate::opening::Opening;
use crate::part::Part;
use crate::pass::Pass;
use crate::shard::Shard;
use crate::under_lock::UnderLock;
use escrow_core::Database;
use escrow_history::Audited;
use escrow_num::Session;
use escrow_transcript::{Base, Entry, Transcript};
use sqlite::Alter;
use std::marker::Model;

/// What a close returns if everything fits together.
#[derive(Drop)]
pub struct Audit<S: Alter> {
    /// The databases with their last transcripts, in order.
    pub closed: Vec<Closed<S>>,
    /// The parts, as they were handed in.
    pub parts: Vec<Part<S>>,
}

/// What a close returns if something doesn't fit: everything that it was given, with the cause.
#[derive(Drop)]
pub struct Mismatch<S: Alter> {
    /// The databases out of their locks, with their last transcripts, in order.
    pub closed: Vec<Closed<S>>,
    /// The passes, as they were handed in.
    pub passes: Vec<Pass>,
    /// The parts, as they were handed in.
    pub parts: Vec<Part<S>>,
    /// The first cause that was found.
    pub cause: Cause,
}

/// Why histories, parts and passes don't fit together. Databases are counted from 0.
#[derive(Clone, Copy, Debug, PartialEq, Eq)]
pub enum Cause {
    /// Not each pass was handed in once.
    Passes,
    /// Not all parts of a database were handed in, in order.
    Parts {
        /// The database.
        database: usize,
    },
    /// The receipts of a session of a database aren't exactly its entries. The session may have
    /// entries and no pass.
    Receipts {
        /// The database.
        database: usize,
        /// The session.
        session: Session,
    },
    /// Memory was refused. This never happens, since a close takes no memory.
    Memory,
}

/// A database that came out of its lock, with its last transcript: what was served since its last
/// part was handed out.
#[derive(Drop)]
pub struct Closed<S: Alter> {
    opening: Opening<S>,
    audited: Audited<S>,
    parts: u64,
}

impl<S: Alter> Model for Closed<S> {
    ghost use Rattle.escrow_shards.specs.Closed.{Closed, closed_code};

    ghost Value = { Closed S };

    ghost coded = { closed_code S.code };

    ghost view = { λ c. record { opening = c.opening; history = c.audited; parts = c.parts } };
}

impl<S: Alter> Closed<S> {
    ghost use Rattle.std.specs.Prelude.{◌≡◌, ◌↔◌, ◌<◌, [], IfSome, IfNone, IsTrue};
    ghost use Rattle.std.specs.List.{AllByRecursion};
    ghost use Rattle.escrow_history.specs.Audited.{IsKept};
    ghost use Rattle.escrow_shards.specs.Opening.{IsOpening};
    ghost use Rattle.escrow_shards.specs.Part.{IsSound, parts_of};
    ghost use Rattle.escrow_shards.specs.Closed.{HasAllParts, all_entries};
    ghost use Rattle.escrow_shards.specs.Receipts.{receipts_of};
    ghost use Rattle.escrow_shards.specs.Whole.{IsOfSessions};

    /// Returns a database that came out of its lock, after this many parts were handed out.
    pub(crate) fn new(opening: Opening<S>, audited: Audited<S>, parts: u64) -> Self
        ensures { result ≡ record { opening = opening; history = audited; parts = parts } }
    {
        Closed {
            opening,
            audited,
            parts,
        }
    }

    /// Returns the opening, where the history of the database begins.
    pub fn opening(&self) -> &Opening<S>
        ensures { result.now ≡ self.now.opening }
    {
        &self.opening
    }

    /// Returns the base where its last transcript begins. If the disk returned what was written,
    /// that transcript is legal, up to the state of the database.
    pub fn base(&self) -> &Base
        ensures base { result.now ≡ self.now.history.base }
        ensures kept { IsKept S.Store self.now.history }
    {
        self.audited.base()
    }

    /// Returns the entries of its last transcript, in order.
    pub fn entries(&self) -> &[Entry]
        ensures { result.now ≡ self.now.history.entries }
    {
        self.audited.entries()
    }

    /// Returns the database and its last transcript.
    pub fn into_parts(self) -> (Database<S>, Transcript)
        ensures store { result.0.store ≡ self.history.store }
        ensures state { result.0.state ≡ self.history.state }
        ensures base { result.1.base ≡ self.history.base }
        ensures entries { result.1.entries ≡ self.history.entries }
    {
        self.audited.into_parts()
    }

    /// Returns whether all parts of its history are there, in order.
    pub(crate) fn has_all_parts(&self, database: usize, parts: &[Part<S>]) -> bool
        ensures whole { IsTrue result ↔ HasAllParts database parts.now self.now }
        ensures sound { IsTrue result → AllByRecursion (IsSound S.Store) (parts_of database parts.now) }
        ensures begun { IsOpening S.Store self.now.opening }
        ensures kept { IsKept S.Store self.now.history }
    {
        parts_follow(
            database,
            self.opening.base(),
            parts,
            self.parts,
            self.audited.base(),
        )
    }

    /// Returns whether the receipts of a pass are exactly the entries of its session, in order.
    pub(crate) fn matches(&self, parts: &[Part<S>], pass: &Pass) -> bool
        ensures { IsTrue result ↔ (pass.now.receipts
            ≡ receipts_of pass.now.session (all_entries pass.now.database parts.now self.now)) }
    {
        all_matched(
            pass.database(),
            pass.session(),
            pass.receipts(),
            parts,
            self.audited.entries(),
        )
    }

    /// Returns the session of the first entry that belongs to none of the first `sessions`
    /// sessions.
    pub(crate) fn session_beyond(
        &self,
        database: usize,
        sessions: u16,
        parts: &[Part<S>],
    ) -> Option<Session>
        ensures none { IfNone result
            (AllByRecursion (IsOfSessions sessions) (all_entries database parts.now self.now)) }
        ensures some { IfSome result
            (λ k. (sessions < k) × (receipts_of k (all_entries database parts.now self.now) ≡ [] → ⊥)) }
    {
        beyond_in_all(database, sessions, parts, self.audited.entries())
    }
}

/// Takes databases out of their locks, into room that was taken for them.
pub(crate) fn out_of_locks<S: Alter + Drop, L: UnderLock<S> + Drop>(
    shards: Vec<Shard<S, L>>,
    room: Room<S>,
) -> Vec<Closed<S>>
    requires { vec_len shards ≤ MAX_DATABASES }
    ensures { map opening_of result.items ≡ shards.items }
{
    let mut closed = room.closed;
    for shard in shards {
        closed.push_reserved(shard.close());
    }
    closed
}
