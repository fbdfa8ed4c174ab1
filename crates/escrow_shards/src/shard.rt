ghost use Rattle.std.specs.Prelude.{◌≡◌, None, Err, IfOk, IfErr, IsOkAnd};
ghost use Rattle.escrow_machine.specs.Reply.{failure_of};
ghost use Rattle.escrow_history.specs.Calls.{IsAnswer};

use crate::close::Closed;
use crate::commit_queue::{CommitQueue, Turn};
use crate::gate::Gate;
use crate::opening::Opening;
use crate::part::Part;
use crate::under_lock::UnderLock;
use escrow_history::{Committed, Served, Unserved};
use escrow_machine::Reply;
use escrow_num::{Failure, Refusal, Session};
use escrow_statement::Statement;
use sqlite::Alter;
use std::alloc::Global;
use std::marker::Model;
use std::sync::{Condvar, Mutex, MutexGuard, Wait};

/// A call of a session, as its gate sees it: `n` is one more than the number of receipts of the
/// pass.
#[derive(Drop)]
pub(crate) struct Call<'a> {
    pub(crate) database: usize,
    pub(crate) session: Session,
    pub(crate) n: u64,
    pub(crate) statement: &'a Statement,
}

/// A database under its lock, with its opening beside it. Contracts see only the opening.
#[derive(Drop)]
pub(crate) struct Shard<S: Alter, L> {
    lock: Mutex<L>,
    // The COMMITs that wait while another one is served. This lock is held only for moments, and
    // nobody asks for the lock above while holding it.
    queue: Mutex<CommitQueue>,
    // Wakes the calls that wait, once their COMMITs have an outcome or one of them leads.
    told: Condvar,
    opening: Opening<S>,
}

impl<S: Alter, L> Model for Shard<S, L> {
    ghost use Rattle.escrow_shards.specs.Opening.{Opening, opening_code};

    ghost Value = { Opening S };

    ghost coded = { opening_code S.code };

    ghost view = { λ s. s.opening };
}

impl<S: Alter, L: UnderLock<S>> Shard<S, L> {
    ghost use Rattle.std.specs.Prelude.{◌≡◌, None, IfNone, IfOk, IfErr, IfSome};
    ghost use Rattle.std.specs.Sync.Mutex.{mutex_guard_value};
    ghost use Rattle.escrow_machine.specs.Reply.{failure_of};
    ghost use Rattle.escrow_history.specs.Calls.{IsAnswer, IsNotDrained, Stays};
    ghost use Rattle.escrow_shards.specs.CommitPlaces.{IsTurnOf};
    ghost use Rattle.escrow_shards.specs.CommitQueue.{AreTogether};

    /// Puts a database under its lock.
    pub(crate) fn new(locked: L, opening: Opening<S>) -> Self
        ensures { result ≡ opening }
    {
        Shard {
            lock: Mutex::new(locked),
            queue: Mutex::new(CommitQueue::new()),
            told: Condvar::new(),
            opening,
        }
    }

    /// Serves the statement of a call under the lock. May wait.
    pub(crate) fn serve<R: Wait, G: Gate>(
        &self,
        rt: &R,
        alloc: Global,
        gate: &G,
        call: &Call<'_>,
    ) -> Result<Served, Unserved>
        ensures named { IfOk result (λ r. r.session ≡ call.now.session) }
        ensures kept { IfOk result (λ r. r.kept ≡ r.reply) }
        ensures succeeds { IfOk result (λ r. failure_of r.reply ≡ None) }
        ensures answers { IfOk result (λ r. IsAnswer r.reply) }
    {
        if gate.is_idle() {
            if let Statement::Commit = call.statement {
                return self.commit(rt, alloc, call.session);
            }
        }
        let mut locked = self.lock.lock(rt);
        gate.inside(rt, call.database, call.session, call.n);
        locked.serve_locked(rt, alloc, call.session, call.statement)
    }

    /// Hands out the next part of the history under the lock. May wait.
    pub(crate) fn drain<R: Wait>(
        &self,
        rt: &R,
        alloc: Global,
        database: usize,
    ) -> Result<Part<S>, Refusal>
        ensures part { IfOk result (λ p. p.database ≡ database) }
        ensures only { IfErr result IsNotDrained }
    {
        self.lock.lock(rt).drain_locked(alloc, database)
    }

    /// Returns the database out of its lock.
    pub(crate) fn close(self) -> Closed<S>
        ensures { result.opening ≡ self }
    {
        self.lock.into_inner().into_locked().close(self.opening)
    }

    /// Serves the COMMIT of a session. If another call is serving one, this call waits, and that
    /// call or the next serves the COMMIT together with its own. May wait.
    fn commit<R: Wait>(&self, rt: &R, alloc: Global, session: Session) -> Result<Served, Unserved>
        ensures named { IfOk result (λ r. r.session ≡ session) }
        ensures kept { IfOk result (λ r. r.kept ≡ r.reply) }
        ensures succeeds { IfOk result (λ r. failure_of r.reply ≡ None) }
        ensures answers { IfOk result (λ r. IsAnswer r.reply) }
    {
        match self.turn(rt, session) {
            Turn::Leads => self.lead(rt, alloc, session),
            Turn::Answered(outcome) => served(outcome),
            Turn::Waits | Turn::Alone => self.commit_alone(rt, alloc, session),
        }
    }

    /// Enters the COMMIT of a session, and waits until this call leads or the COMMIT was served.
    fn turn<R: Wait>(&self, rt: &R, session: Session) -> Turn
        ensures { IsTurnOf session result }
    {
        let mut queue = self.queue.lock(rt);
        let turn = queue.ask(session);
        if !matches!(turn, Turn::Waits) {
            return turn;
        }
        let mut queue = self
            .told
            .wait_while(rt, queue, |queue| queue.waits(session));
        queue.take(session)
    }

    /// Serves the COMMIT of a session, together with those that wait. Then makes another call lead,
    /// if one waits.
    fn lead<R: Wait>(&self, rt: &R, alloc: Global, session: Session) -> Result<Served, Unserved>
        ensures named { IfOk result (λ r. r.session ≡ session) }
        ensures kept { IfOk result (λ r. r.kept ≡ r.reply) }
        ensures succeeds { IfOk result (λ r. failure_of r.reply ≡ None) }
        ensures answers { IfOk result (λ r. IsAnswer r.reply) }
    {
        let mut locked = self.lock.lock(rt);
        let answer = self.commit_with_those(rt, alloc, &mut *locked, session);
        drop(locked);
        self.queue.lock(rt).pass_on(session);
        self.told.notify_all();
        answer
    }

    /// Serves the COMMIT of a session under the lock, as any other statement.
    fn commit_alone<R: Wait>(
        &self,
        rt: &R,
        alloc: Global,
        session: Session,
    ) -> Result<Served, Unserved>
        ensures named { IfOk result (λ r. r.session ≡ session) }
        ensures kept { IfOk result (λ r. r.kept ≡ r.reply) }
        ensures succeeds { IfOk result (λ r. failure_of r.reply ≡ None) }
        ensures answers { IfOk result (λ r. IsAnswer r.reply) }
    {
        let mut locked = self.lock.lock(rt);
        locked.serve_locked(rt, alloc, session, &Statement::Commit)
    }

    /// Serves the COMMIT of a session under the lock, together with those that wait if possible.
    fn commit_with_those<R: Wait>(
        &self,
        rt: &R,
        alloc: Global,
        locked: &mut L,
        session: Session,
    ) -> Result<Served, Unserved>
        ensures named { IfOk result (λ r. r.session ≡ session) }
        ensures kept { IfOk result (λ r. r.kept ≡ r.reply) }
        ensures succeeds { IfOk result (λ r. failure_of r.reply ≡ None) }
        ensures answers { IfOk result (λ r. IsAnswer r.reply) }
    {
        let queue = self.queue.lock(rt);
        match self.commit_together(rt, alloc, locked, queue, session) {
            Some(outcome) => served(outcome),
            None => locked.serve_locked(rt, alloc, session, &Statement::Commit),
        }
    }

    /// Serves the COMMIT of a session together with just those that wait in the queue, and leaves
    /// their outcomes in their places. Lets the queue go while it serves. Returns the outcome of
    /// the session's own. Returns `None` if none waits, or if they can't be served together because
    /// memory or room in the transcript is refused. Then none was served.
    fn commit_together<R: Wait>(
        &self,
        rt: &R,
        alloc: Global,
        locked: &mut L,
        queue: MutexGuard<'_, CommitQueue>,
        session: Session,
    ) -> Option<Result<Committed, Failure>>
        ensures together { IfSome result (λ own. AreTogether S.Store
            (L.history locked.old) session (mutex_guard_value queue.entry) own (L.history locked.new)) }
        ensures none { IfNone result (Stays S.Store (L.history locked.old) (L.history locked.new)) }
        ensures named { IfSome result (λ own. IfOk own (λ c. c.session ≡ session)) }
    {
        let sessions = queue.those_with(alloc, session)?;
        drop(queue);
        let Ok(outcomes) = locked.commit_locked(rt, alloc, &sessions) else {
            return None;
        };
        let Some((own, others)) = outcomes.split_first() else {
            unreachable!();
        };
        self.queue.lock(rt).answer(&sessions[1..], others);
        Some(*own)
    }
}

/// Returns the answer to a COMMIT, by its outcome.
fn served(outcome: Result<Committed, Failure>) -> Result<Served, Unserved>
    ensures served { IfOk outcome
        (λ c. IsOkAnd result (λ r. (r.number ≡ c.number) × (r.reply ≡ Reply.Committed c.count))) }
    ensures failed { IfErr outcome (λ f. result ≡ Err (Unserved.Failed f)) }
    ensures named { IfOk result (λ r. IsOkAnd outcome (λ c. r.session ≡ c.session)) }
    ensures kept { IfOk result (λ r. r.kept ≡ r.reply) }
    ensures succeeds { IfOk result (λ r. failure_of r.reply ≡ None) }
    ensures answers { IfOk result (λ r. IsAnswer r.reply) }
{
    let Committed {
        number,
        session,
        count,
    } = outcome?;
    Ok(Served {
        number,
        session,
        reply: Reply::Committed { count },
        kept: Reply::Committed { count },
    })
}
