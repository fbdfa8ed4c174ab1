ghost use Rattle.std.specs.Prelude.{◌≡◌, ◌+◌, ◌<◌, ◌++◌, ◌∷◌, [], true, None, IfOk, IfErr, IfNone, IfSome, OnOk, OnErr};
ghost use Rattle.std.specs.Vec.{vec_len, vec_capacity};
ghost use Rattle.escrow_history.specs.Calls.{IsAnswer};
ghost use Rattle.escrow_history.specs.Inside.{IsNoAnswer, IsNotKept};
ghost use Rattle.escrow_machine.specs.Reply.{failure_of, holds_memory};

use crate::committed::{Committed, ask_commits, enter_all};
use crate::served::{Served, Unserved};
use escrow_core::Database;
use escrow_machine::Reply;
use escrow_num::{Failure, Refusal, Seq, Session};
use escrow_statement::Statement;
use escrow_transcript::{Base, Entry, Transcript};
use sqlite::Alter;
use std::alloc::{AllocError, Global};
use std::marker::Model;
use std::mem::replace;

/// A database with its transcript: where it began, and an entry for each statement that was served
/// since. As long as the disk has returned what was written, the transcript is legal, from its base
/// to the state of the database.
pub struct Audited<S: Alter> {
    database: Database<S>,
    base: Base,
    entries: Vec<Entry>,
}

// Written out, so that crates above need not prove again how its parts are dropped.
impl<S: Alter + Drop> Drop for Audited<S> {
    fn drop(self) {
        let Audited {
            database: _,
            base: _,
            entries: _,
        } = self;
    }
}

impl<S: Alter> Model for Audited<S> {
    ghost use Rattle.escrow_history.specs.Audited.{Audited, IsKept, audited_code};
    ghost use Rattle.escrow_history.specs.Inside.{audited_of};

    ghost Value = { Audited S };

    ghost coded = { audited_code S.code };

    ghost view = { λ a. audited_of a.database a.base a.entries };

    ghost invariant = { λ a. IsKept S.Store (audited_of a.database a.base a.entries) };
}

impl<S: Alter> Audited<S> {
    ghost use Rattle.std.specs.Prelude.{◌≡◌, ◌↔◌, ◌+◌, ◌≤◌, ◌<◌, [], true, false, length, IfOk, IfErr, IsErrOf, IsOk, IsTrue, MatchResult, OnOk, OnErr};
    ghost use Rattle.sqlite.specs.Held.{state};
    ghost use Rattle.sqlite.specs.State.{HasCleanDisk};
    ghost use Rattle.escrow_machine.specs.State.{has_open};
    ghost use Rattle.escrow_machine.specs.Valid.{IsValid};
    ghost use Rattle.escrow_transcript.specs.declared.transcript.TheConstants.Transcript.{MAX_ENTRIES, MAX_NUMBER};
    ghost use Rattle.escrow_transcript.specs.Image.{started};
    ghost use Rattle.escrow_transcript.specs.Legal.{IsLegal};
    ghost use Rattle.escrow_machine.specs.Step.{may_fail};
    ghost use Rattle.escrow_history.specs.Calls.{Appends, Stays, IsApart, NeedsAnEntry, IsNoRoom, IsNotBegun, IsNotDrained};
    ghost use Rattle.escrow_history.specs.Commits.{commits_of, Commits};
    ghost use Rattle.escrow_history.specs.Audited.{IsKept};

    /// Makes a transcript for a database. It begins at what the database holds, and at the first
    /// number.
    ///
    /// # Errors
    ///
    /// Fails with [`Refusal::TransactionOpen`] exactly if something is open. Otherwise fails with
    /// [`Refusal::Memory`] or [`Refusal::Store`]. The database is returned with the error.
    pub fn make(alloc: Global, mut database: Database<S>) -> Result<Self, (Database<S>, Refusal)>
        ensures state { IfOk result (λ a. a.state ≡ database.state) }
        ensures begins { IfOk result (λ a. (a.entries ≡ []) × (a.base.before ≡ 0)) }
        ensures base { IfOk result (λ a. HasCleanDisk (state S.Store a.store) → a.state ≡ started a.base.image) }
        ensures clean { IfOk result
            (λ a. HasCleanDisk (state S.Store a.store) → HasCleanDisk (state S.Store database.store)) }
        ensures closed { OnOk result (has_open database.state ≡ false) }
        ensures back { IfErr result (λ f. f.0.state ≡ database.state) }
        ensures open { IfErr result (λ f. (f.1 ≡ Refusal.TransactionOpen) ↔ (has_open database.state ≡ true)) }
        ensures only { IfErr result (λ f. IsNotBegun f.1) }
    {
        if database.has_open() {
            return Err((database, Refusal::TransactionOpen));
        }
        match database.image(alloc) {
            Ok(image) => Ok(Audited::begin(alloc, database, Base { image, before: 0 })),
            Err(failure) => Err((database, Refusal::from(failure))),
        }
    }

    /// Makes a transcript for a database that begins at a base. The base must be what the database
    /// holds. Takes no memory, and makes no store call.
    pub fn begin(alloc: Global, database: Database<S>, base: Base) -> Self
        requires started { HasCleanDisk (state S.Store database.store) → database.state ≡ started base.image }
        requires numbers { base.before + MAX_ENTRIES ≤ MAX_NUMBER }
        ensures store { result.store ≡ database.store }
        ensures state { result.state ≡ database.state }
        ensures base { result.base ≡ base }
        ensures entries { result.entries ≡ [] }
    {
        Audited {
            database,
            base,
            entries: Vec::new(alloc),
        }
    }

    /// Returns the base where the transcript began. Its contract also states what always holds of a
    /// database and its transcript.
    pub fn base(&self) -> &Base
        ensures base { result.now ≡ self.now.base }
        ensures kept { IsKept S.Store self.now }
        ensures valid { HasCleanDisk (state S.Store self.now.store) → IsValid self.now.state }
    {
        // The contract of `next_id` says that the state is valid.
        prove!(self.database.next_id() != Some(0));
        &self.base
    }

    /// Returns the entries of the transcript, in order.
    pub fn entries(&self) -> &[Entry]
        ensures entries { result.now ≡ self.now.entries }
        ensures kept { IsKept S.Store self.now }
    {
        &self.entries
    }

    /// Returns the database and its transcript. Takes no memory, and makes no store call.
    pub fn into_parts(self) -> (Database<S>, Transcript)
        ensures store { result.0.store ≡ self.store }
        ensures state { result.0.state ≡ self.state }
        ensures base { result.1.base ≡ self.base }
        ensures entries { result.1.entries ≡ self.entries }
        ensures kept { IsKept S.Store self }
        ensures valid { HasCleanDisk (state S.Store self.store) → IsValid self.state }
    {
        // The contract of `next_id` says that the state is valid.
        prove!(self.database.next_id() != Some(0));
        let Audited {
            database,
            base,
            entries,
        } = self;
        let transcript = Transcript {
            base,
            entries: Seq::from_vec(entries),
        };
        (database, transcript)
    }

    /// Returns for how many more entries room was taken: 0 to 65,536. This many statements are
    /// served if they need nothing but room for an entry, as ROLLBACK, ROLLBACK TO, and COMMIT of a
    /// session that holds no reservation. Others may fail, since they need more.
    pub fn room(&self) -> u32
        ensures { result ≡ self.now.room }
    {
        let most = self.entries.capacity().min(Transcript::MAX_ENTRIES);
        (most - self.entries.len()) as u32
    }

    /// Takes room for this many entries, besides those that the transcript has. Each new entry uses
    /// at most one of them. When the transcript is handed out, the rest of the room may go with it.
    ///
    /// # Errors
    ///
    /// Fails with [`Refusal::TranscriptFull`] exactly if the transcript may not have so many more.
    /// Fails with [`Refusal::Memory`] if memory is refused. After an error nothing has changed.
    pub fn make_room(&mut self, count: u32) -> Result<(), Refusal>
        ensures store { self.new.store ≡ self.old.store }
        ensures state { self.new.state ≡ self.old.state }
        ensures base { self.new.base ≡ self.old.base }
        ensures entries { self.new.entries ≡ self.old.entries }
        ensures room { OnOk result (count ≤ self.new.room) }
        ensures keeps { self.old.room ≤ self.new.room }
        ensures full { IsErrOf result Refusal.TranscriptFull ↔ (MAX_ENTRIES < length self.old.entries + count) }
        ensures only { IfErr result IsNoRoom }
    {
        let count = count as usize;
        if Transcript::MAX_ENTRIES - self.entries.len() < count {
            return Err(Refusal::TranscriptFull);
        }
        self.entries.reserve(count)?;
        Ok(())
    }

    /// Serves one statement of a session, and adds its entry to the transcript. Takes room for the
    /// entry and copies the statement before it asks the database.
    ///
    /// # Errors
    ///
    /// Fails with [`Unserved::Full`] exactly if the transcript has as many entries as it may have;
    /// this is tested first. Fails with [`Unserved::Failed`] if memory is refused, or by the store.
    /// After an error nothing has changed. ROLLBACK, ROLLBACK TO, and COMMIT of a session that
    /// holds no reservation are never refused by the store. If room was taken
    /// ([`Audited::make_room`]), they are always served.
    pub fn serve(
        &mut self,
        alloc: Global,
        session: Session,
        statement: &Statement,
    ) -> Result<Served, Unserved>
        ensures served { IfOk result (λ r. Appends S.Store self.old session statement.now r.number r.reply self.new) }
        ensures named { IfOk result (λ r. r.session ≡ session) }
        ensures kept { IfOk result (λ r. r.kept ≡ r.reply) }
        ensures unserved { OnErr result (Stays S.Store self.old self.new) }
        ensures full { IsErrOf result Unserved.Full ↔ (length self.old.entries ≡ MAX_ENTRIES) }

        // The store refuses only what asks it.
        ensures apart { IsApart self.old.state session statement.now
            → ¬ (IsErrOf result (Unserved.Failed Failure.Store)) }
        ensures cause { HasCleanDisk (state S.Store self.new.store) → IsErrOf result (Unserved.Failed Failure.Store)
            → IsTrue (may_fail self.old.state session statement.now Failure.Store) }
        ensures promised { 0 < self.old.room → NeedsAnEntry self.old.state session statement.now → IsOk result }
        ensures room { MatchResult result (λ _. self.old.room ≤ self.new.room + 1)
            (λ _. self.old.room ≤ self.new.room) }
        ensures clean { HasCleanDisk (state S.Store self.new.store) → HasCleanDisk (state S.Store self.old.store) }
    {
        if self.entries.len() == Transcript::MAX_ENTRIES {
            return Err(Unserved::Full);
        }
        self.entries.reserve(1)?;
        let asked = statement.copy(alloc)?;
        let reply = self.database.step(alloc, session, statement);
        let Answered {
            asked,
            reply,
            told,
            kept,
        } = with_copies(alloc, asked, reply)?;
        let number = self.base.before + self.entries.len() as u64 + 1;
        let entry = Entry {
            number,
            session,
            statement: asked,
            reply,
        };
        keep(&mut self.entries, entry);
        Ok(Served {
            number,
            session,
            reply: told,
            kept,
        })
    }

    /// Serves COMMITs of sessions, one after another, as one write of the store if it can. Each
    /// that is served adds its entry to the transcript. Returns for each session whether its COMMIT
    /// was served. One that wasn't left the state as it was, and its session held a reservation.
    /// Takes room for the entries before it asks the database. Each new entry uses at most one place
    /// of the room.
    ///
    /// # Errors
    ///
    /// Fails with [`Unserved::Full`] exactly if the transcript may not have so many more entries;
    /// this is tested first. Fails with [`Unserved::Failed`] if memory is refused. After an error
    /// no COMMIT was served.
    pub fn commit_all(
        &mut self,
        alloc: Global,
        sessions: &[Session],
    ) -> Result<Vec<Result<Committed, Failure>>, Unserved>
        ensures served { IfOk result (λ outcomes. Commits S.Store self.old sessions.now outcomes.items self.new) }
        ensures unserved { OnErr result (Stays S.Store self.old self.new) }
        ensures full { IsErrOf result Unserved.Full ↔ (MAX_ENTRIES < length self.old.entries + length sessions.now) }
        ensures apart { ¬ (IsErrOf result (Unserved.Failed Failure.Store)) }
        ensures room { MatchResult result
            (λ outcomes. self.old.room ≤ self.new.room + length (commits_of sessions.now outcomes.items))
            (λ _. self.old.room ≤ self.new.room) }
        ensures clean { HasCleanDisk (state S.Store self.new.store) → HasCleanDisk (state S.Store self.old.store) }
    {
        if Transcript::MAX_ENTRIES - self.entries.len() < sessions.len() {
            return Err(Unserved::Full);
        }
        self.entries.reserve(sessions.len())?;
        let events = ask_commits(alloc, sessions)?;
        let mut replies = Vec::with_capacity(alloc, sessions.len())?;
        let mut outcomes = Vec::with_capacity(alloc, sessions.len())?;
        self.database.run_into(alloc, &events, &mut replies);
        enter_all(
            &mut self.entries,
            self.base.before,
            sessions,
            &replies,
            &mut outcomes,
        );
        Ok(outcomes)
    }

    /// Hands out the transcript, with the base where it ends. A new transcript begins there.
    ///
    /// # Errors
    ///
    /// Fails with [`Refusal::TransactionOpen`] exactly if something is open. Otherwise fails with
    /// [`Refusal::TranscriptFull`] if a further transcript could have a number past the greatest,
    /// then with [`Refusal::Memory`] or [`Refusal::Store`]. After an error nothing has changed.
    pub fn drain(&mut self, alloc: Global) -> Result<(Transcript, Base), Refusal>
        ensures whole { IfOk result (λ r. (r.0.base ≡ self.old.base) × (r.0.entries ≡ self.old.entries)) }
        ensures end { IfOk result (λ r. r.1.before ≡ self.old.base.before + length self.old.entries) }
        ensures legal { IfOk result
            (λ r. HasCleanDisk (state S.Store self.new.store) → IsLegal r.0.base r.0.entries (started r.1.image)) }
        ensures begun { IfOk result (λ r. (self.new.base ≡ r.1) × (self.new.entries ≡ [])) }
        ensures state { self.new.state ≡ self.old.state }
        ensures stands { IfOk result
            (λ r. HasCleanDisk (state S.Store self.new.store) → self.new.state ≡ started r.1.image) }
        ensures refused { OnErr result (Stays S.Store self.old self.new) }
        ensures open { IsErrOf result Refusal.TransactionOpen ↔ (has_open self.old.state ≡ true) }
        ensures only { IfErr result IsNotDrained }
        ensures full { IsErrOf result Refusal.TranscriptFull
            → MAX_NUMBER < self.old.base.before + length self.old.entries + MAX_ENTRIES }
        ensures clean { HasCleanDisk (state S.Store self.new.store) → HasCleanDisk (state S.Store self.old.store) }
    {
        if self.database.has_open() {
            return Err(Refusal::TransactionOpen);
        }
        let before = self.base.before + self.entries.len() as u64;
        if before > Transcript::MAX_NUMBER - Transcript::MAX_ENTRIES as u64 {
            return Err(Refusal::TranscriptFull);
        }
        let image = self.database.image(alloc)?;
        let end = Base { image, before };
        let begun = end.copy(alloc)?;
        let base = replace(&mut self.base, begun);
        let entries = replace(&mut self.entries, Vec::new(alloc));
        let transcript = Transcript {
            base,
            entries: Seq::from_vec(entries),
        };
        Ok((transcript, end))
    }
}

/// A statement and its reply, with two copies of the reply.
struct Answered {
    asked: Statement,
    reply: Reply,
    told: Reply,
    kept: Reply,
}

/// Returns a statement and its reply, with two copies of the reply. If the reply is no answer,
/// fails with the failure that it reports. Memory can be refused only if the reply holds memory.
fn with_copies(alloc: Global, asked: Statement, reply: Reply) -> Result<Answered, Failure>
    ensures same { IfOk result (λ a. (a.asked ≡ asked) × (a.reply ≡ reply)) }
    ensures copies { IfOk result (λ a. (a.told ≡ reply) × (a.kept ≡ reply)) }
    ensures succeeds { OnOk result (failure_of reply ≡ None) }
    ensures answers { OnOk result (IsAnswer reply) }
    ensures fails { IfErr result (IsNotKept reply) }
{
    if let Some(failure) = failure_in(&reply) {
        return Err(failure);
    }
    let (told, kept) = two_copies(alloc, &reply)?;
    Ok(Answered {
        asked,
        reply,
        told,
        kept,
    })
}

/// Returns why a reply of a database is no answer, or `None` if it is one. The machine replies to
/// no statement that a transcript is full. Only a store that lies could cause this reply, and it
/// counts as the store's failure.
fn failure_in(reply: &Reply) -> Option<Failure>
    ensures succeeds { IfNone result (failure_of reply.now ≡ None) }
    ensures answers { IfNone result (IsAnswer reply.now) }
    ensures fails { IfSome result (IsNoAnswer reply.now) }
{
    if reply.is_same(&Reply::Refused(Refusal::TranscriptFull)) {
        return Some(Failure::Store);
    }
    reply.failure()
}

/// Returns two copies of a reply. Only the reply to a query takes memory.
fn two_copies(alloc: Global, reply: &Reply) -> Result<(Reply, Reply), AllocError>
    ensures copies { IfOk result (λ r. (r.0 ≡ reply.now) × (r.1 ≡ reply.now)) }
    ensures holds { OnErr result (holds_memory reply.now ≡ true) }
{
    Ok((reply.copy(alloc)?, reply.copy(alloc)?))
}

/// Adds an entry, for which there must be room.
pub(crate) fn keep(entries: &mut Vec<Entry>, entry: Entry)
    requires { vec_len entries.old < vec_capacity entries.old }
    ensures items { entries.new.items ≡ entries.old.items ++ entry ∷ [] }
    ensures room { (vec_len entries.new ≡ vec_len entries.old + 1)
        × (vec_capacity entries.new ≡ vec_capacity entries.old) }
{
    entries.push_reserved(entry);
}
