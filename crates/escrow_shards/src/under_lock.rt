//! What is under the lock of a database.
use crate::close::Closed;
use crate::opening::Opening;
use crate::part::Part;
use escrow_history::{Audited, Committed, Served, Unserved};
use escrow_num::{Failure, Refusal, Session};
use escrow_statement::Statement;
use escrow_transcript::Transcript;
use sqlite::Alter;
use std::alloc::Global;
use std::sync::Wait;

/// What is under the lock of a database: the database with its transcript ([`Locked`]), and a board
/// beside it if it is watched ([`Watched`]).
///
/// [`Watched`]: crate::Watched
pub trait UnderLock<S: Alter> {
    ghost use Rattle.std.specs.Prelude.{◌≡◌, ◌↔◌, ◌⊎◌, ℕ, ◌+◌, ◌<◌, ◌≤◌, [], None, true, length, IfOk, IfErr, IsErrOf, IsOk, IsTrue, MatchResult, OnErr};
    ghost use Rattle.sqlite.specs.Held.{state};
    ghost use Rattle.sqlite.specs.State.{HasCleanDisk};
    ghost use Rattle.escrow_history.specs.Audited.{Audited};
    ghost use Rattle.escrow_history.specs.Calls.{Appends, Stays, IsAnswer, IsApart, NeedsAnEntry, IsNotDrained};
    ghost use Rattle.escrow_history.specs.Commits.{commits_of, Commits};
    ghost use Rattle.escrow_machine.specs.Reply.{failure_of};
    ghost use Rattle.escrow_machine.specs.State.{has_open};
    ghost use Rattle.escrow_machine.specs.Step.{may_fail};
    ghost use Rattle.escrow_transcript.specs.declared.transcript.TheConstants.Transcript.{MAX_ENTRIES, MAX_NUMBER};

    // the database with its transcript
    ghost history: { Self → Audited S };

    // how many parts of its history were handed out
    ghost parts: { Self → ℕ };

    /// Serves one statement of a session, and adds its entry to the transcript. May wait.
    fn serve_locked<R: Wait>(
        &mut self,
        rt: &R,
        alloc: Global,
        session: Session,
        statement: &Statement,
    ) -> Result<Served, Unserved>
        ensures served { IfOk result
            (λ r. Appends S.Store (history self.old) session statement.now r.number r.reply (history self.new)) }
        ensures named { IfOk result (λ r. r.session ≡ session) }
        ensures unserved { OnErr result (Stays S.Store (history self.old) (history self.new)) }
        ensures full { IsErrOf result Unserved.Full ↔ (length (history self.old).entries ≡ MAX_ENTRIES) }
        ensures apart { IsApart (history self.old).state session statement.now
            → ¬ (IsErrOf result (Unserved.Failed Failure.Store)) }
        ensures cause { HasCleanDisk (state S.Store (history self.new).store)
            → IsErrOf result (Unserved.Failed Failure.Store)
            → IsTrue (may_fail (history self.old).state session statement.now Failure.Store) }
        ensures promised { 0 < (history self.old).room → NeedsAnEntry (history self.old).state session statement.now
            → IsOk result }
        ensures room { MatchResult result (λ _. (history self.old).room ≤ (history self.new).room + 1)
            (λ _. (history self.old).room ≤ (history self.new).room) }
        ensures counts { parts self.new ≡ parts self.old }
        ensures kept { IfOk result (λ r. r.kept ≡ r.reply) }
        ensures succeeds { IfOk result (λ r. failure_of r.reply ≡ None) }
        ensures answers { IfOk result (λ r. IsAnswer r.reply) };

    /// Serves COMMITs of sessions together, and adds the entries of those that are served. Returns
    /// for each session whether its COMMIT was. May wait.
    fn commit_locked<R: Wait>(
        &mut self,
        rt: &R,
        alloc: Global,
        sessions: &[Session],
    ) -> Result<Vec<Result<Committed, Failure>>, Unserved>
        ensures served { IfOk result
            (λ outcomes. Commits S.Store (history self.old) sessions.now outcomes.items (history self.new)) }
        ensures unserved { OnErr result (Stays S.Store (history self.old) (history self.new)) }
        ensures full { IsErrOf result Unserved.Full
            ↔ (MAX_ENTRIES < length (history self.old).entries + length sessions.now) }
        ensures apart { ¬ (IsErrOf result (Unserved.Failed Failure.Store)) }
        ensures room { MatchResult result
            (λ outcomes. (history self.old).room
            ≤ (history self.new).room + length (commits_of sessions.now outcomes.items))
            (λ _. (history self.old).room ≤ (history self.new).room) }
        ensures counts { parts self.new ≡ parts self.old }
        ensures each { IfOk result (λ outcomes. length outcomes.items ≡ length sessions.now) };

    /// Hands out the next part of the history of a database. Fails as [`Locked::drain`] does.
    fn drain_locked(&mut self, alloc: Global, database: usize) -> Result<Part<S>, Refusal>
        ensures part { IfOk result (λ p. p.database ≡ database) }
        ensures number { IfOk result (λ p. (p.number ≡ parts self.old + 1) × (parts self.new ≡ p.number)) }
        ensures entries { IfOk result
            (λ p. (p.base ≡ (history self.old).base) × (p.entries ≡ (history self.old).entries)) }
        ensures begun { IfOk result (λ p. ((history self.new).base ≡ p.end) × ((history self.new).entries ≡ [])) }
        ensures undrained { OnErr result (Stays S.Store (history self.old) (history self.new)
            × (parts self.new ≡ parts self.old)) }
        ensures only { IfErr result IsNotDrained }
        ensures last { MAX_NUMBER ≤ parts self.old → IsErrOf result Refusal.TranscriptFull }
        ensures open { parts self.old < MAX_NUMBER
            → (IsErrOf result Refusal.TransactionOpen ↔ (has_open (history self.old).state ≡ true)) }
        ensures full { IsErrOf result Refusal.TranscriptFull → (MAX_NUMBER ≤ parts self.old)
            ⊎ (MAX_NUMBER < (history self.old).base.before + length (history self.old).entries + MAX_ENTRIES) };

    /// Returns the database and its transcript out of their lock.
    fn into_locked(self) -> Locked<S>
        ensures { (result.audited ≡ history self) × (result.parts ≡ parts self) };
}

/// A database with its transcript, and the number of parts of its history
/// that were handed out. Whenever the lock is taken, the transcript is legal up to the state found,
/// as long as the disk returned what was written.
#[derive(Drop)]
pub struct Locked<S: Alter> {
    pub(crate) audited: Audited<S>,
    parts: u64,
}

impl<S: Alter> Locked<S> {
    ghost use Rattle.std.specs.Prelude.{◌≡◌, ◌↔◌, ◌⊎◌, ◌+◌, ◌<◌, ◌≤◌, [], length, true, IfOk, IfErr, IsErrOf, IsOk, IsTrue, MatchResult, OnErr};
    ghost use Rattle.sqlite.specs.Held.{state};
    ghost use Rattle.sqlite.specs.State.{HasCleanDisk};
    ghost use Rattle.escrow_machine.specs.State.{has_open};
    ghost use Rattle.escrow_machine.specs.Step.{may_fail};
    ghost use Rattle.escrow_transcript.specs.declared.transcript.TheConstants.Transcript.{MAX_ENTRIES, MAX_NUMBER};
    ghost use Rattle.escrow_history.specs.Calls.{Appends, Stays, IsApart, NeedsAnEntry, IsNotDrained};
    ghost use Rattle.escrow_history.specs.Commits.{commits_of, Commits};

    /// Returns a database with its transcript, before any part was handed out.
    pub(crate) fn new(audited: Audited<S>) -> Self
        ensures { result ≡ record { audited = audited; parts = 0 } }
    {
        Locked { audited, parts: 0 }
    }

    /// Serves one statement of a session, and adds its entry to the transcript.
    pub(crate) fn serve(
        &mut self,
        alloc: Global,
        session: Session,
        statement: &Statement,
    ) -> Result<Served, Unserved>
        ensures served { IfOk result
            (λ r. Appends S.Store self.old.audited session statement.now r.number r.reply self.new.audited) }
        ensures named { IfOk result (λ r. r.session ≡ session) }
        ensures kept { IfOk result (λ r. r.kept ≡ r.reply) }
        ensures unserved { OnErr result (Stays S.Store self.old.audited self.new.audited) }
        ensures full { IsErrOf result Unserved.Full ↔ (length self.old.audited.entries ≡ MAX_ENTRIES) }
        ensures apart { IsApart self.old.audited.state session statement.now
            → ¬ (IsErrOf result (Unserved.Failed Failure.Store)) }
        ensures cause { HasCleanDisk (state S.Store self.new.audited.store)
            → IsErrOf result (Unserved.Failed Failure.Store)
            → IsTrue (may_fail self.old.audited.state session statement.now Failure.Store) }
        ensures promised { 0 < self.old.audited.room → NeedsAnEntry self.old.audited.state session statement.now
            → IsOk result }
        ensures room { MatchResult result (λ _. self.old.audited.room ≤ self.new.audited.room + 1)
            (λ _. self.old.audited.room ≤ self.new.audited.room) }
        ensures parts { self.new.parts ≡ self.old.parts }
        ensures clean { HasCleanDisk (state S.Store self.new.audited.store)
            → HasCleanDisk (state S.Store self.old.audited.store) }
    {
        self.audited.serve(alloc, session, statement)
    }

    /// Serves COMMITs of sessions together, and adds the entries of those that are served to the transcript.
    pub(crate) fn commit_all(
        &mut self,
        alloc: Global,
        sessions: &[Session],
    ) -> Result<Vec<Result<Committed, Failure>>, Unserved>
        ensures served { IfOk result
            (λ outcomes. Commits S.Store self.old.audited sessions.now outcomes.items self.new.audited) }
        ensures unserved { OnErr result (Stays S.Store self.old.audited self.new.audited) }
        ensures full { IsErrOf result Unserved.Full
            ↔ (MAX_ENTRIES < length self.old.audited.entries + length sessions.now) }
        ensures apart { ¬ (IsErrOf result (Unserved.Failed Failure.Store)) }
        ensures room { MatchResult result
            (λ outcomes. self.old.audited.room
            ≤ self.new.audited.room + length (commits_of sessions.now outcomes.items))
            (λ _. self.old.audited.room ≤ self.new.audited.room) }
        ensures parts { self.new.parts ≡ self.old.parts }
        ensures clean { HasCleanDisk (state S.Store self.new.audited.store)
            → HasCleanDisk (state S.Store self.old.audited.store) }
    {
        self.audited.commit_all(alloc, sessions)
    }

    /// Hands out the next part of the history: the transcript. A new transcript begins where the
    /// part ends.
    ///
    /// # Errors
    ///
    /// Fails with [`Refusal::TranscriptFull`] if the last part has the greatest number. Otherwise
    /// fails as [`Audited::drain`] does: with [`Refusal::TransactionOpen`] exactly if something is
    /// open. After an error nothing has changed.
    pub(crate) fn drain(&mut self, alloc: Global, database: usize) -> Result<Part<S>, Refusal>
        ensures part { IfOk result
            (λ p. (p.database ≡ database)
            × ((p.number ≡ self.old.parts + 1)
            × ((p.base ≡ self.old.audited.base) × (p.entries ≡ self.old.audited.entries)))) }
        ensures begun { IfOk result
            (λ p. (self.new.audited.base ≡ p.end) × ((self.new.audited.entries ≡ []) × (self.new.parts ≡ p.number))) }
        ensures counts { IfOk result
            (λ p. p.end.before ≡ self.old.audited.base.before + length self.old.audited.entries) }
        ensures state { self.new.audited.state ≡ self.old.audited.state }
        ensures refused { OnErr result (Stays S.Store self.old.audited self.new.audited
            × (self.new.parts ≡ self.old.parts)) }
        ensures only { IfErr result IsNotDrained }
        ensures last { MAX_NUMBER ≤ self.old.parts → IsErrOf result Refusal.TranscriptFull }
        ensures open { self.old.parts < MAX_NUMBER
            → (IsErrOf result Refusal.TransactionOpen ↔ (has_open self.old.audited.state ≡ true)) }
        ensures full { IsErrOf result Refusal.TranscriptFull → (MAX_NUMBER ≤ self.old.parts)
            ⊎ (MAX_NUMBER < self.old.audited.base.before + length self.old.audited.entries + MAX_ENTRIES) }
        ensures clean { HasCleanDisk (state S.Store self.new.audited.store)
            → HasCleanDisk (state S.Store self.old.audited.store) }
    {
        if self.parts >= Transcript::MAX_NUMBER {
            return Err(Refusal::TranscriptFull);
        }
        let (transcript, end) = self.audited.drain(alloc)?;
        self.parts += 1;
        Ok(Part::new(database, self.parts, transcript, end, &self.audited))
    }

    /// Returns the database out of its lock.
    pub(crate) fn close(self, opening: Opening<S>) -> Closed<S>
        ensures { result ≡ record { opening = opening; history = self.audited; parts = self.parts } }
    {
        Closed::new(opening, self.audited, self.parts)
    }
}

impl<S: Alter> UnderLock<S> for Locked<S> {
    ghost history = { λ locked. locked.audited };

    ghost parts = { λ locked. locked.parts };

    fn serve_locked<R: Wait>(
        &mut self,
        _rt: &R,
        alloc: Global,
        session: Session,
        statement: &Statement,
    ) -> Result<Served, Unserved> {
        self.serve(alloc, session, statement)
    }

    fn commit_locked<R: Wait>(
        &mut self,
        _rt: &R,
        alloc: Global,
        sessions: &[Session],
    ) -> Result<Vec<Result<Committed, Failure>>, Unserved> {
        self.commit_all(alloc, sessions)
    }

    fn drain_locked(&mut self, alloc: Global, database: usize) -> Result<Part<S>, Refusal> {
        self.drain(alloc, database)
    }

    fn into_locked(self) -> Locked<S> {
        self
    }
}
