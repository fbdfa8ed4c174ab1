ghost use Rattle.std.specs.Prelude.{◌≡◌, ◌<◌, ◌+◌, length, false, not, slice_set};
ghost use Rattle.std.specs.List.{AllByRecursion, list_any};
ghost use Rattle.std.specs.Vec.{vec_len, vec_capacity};
ghost use Rattle.escrow_num.specs.Refusal.{refusal_for};
ghost use Rattle.escrow_schema.specs.Plan.{is_literal};
ghost use Rattle.escrow_core.specs.Beside.{is_passing};

use crate::database::Database;
use crate::database::held::HeldBack;
use escrow_machine::{Event, Reply};
use escrow_num::{End, Failure, Refusal, Session};
use escrow_statement::{Assign, Assigned, Statement};
use sqlite::Alter;
use std::alloc::Global;

impl<S: Alter> Database<S> {
    ghost use Rattle.std.specs.Prelude.{IfSome, IfNone, IsTrue};
    ghost use Rattle.sqlite.specs.Held.{state};
    ghost use Rattle.sqlite.specs.State.{HasCleanDisk, Survives};
    ghost use Rattle.escrow_journal.specs.Reservations.{own};
    ghost use Rattle.escrow_machine.specs.Held.{IsServedBeside, holds};
    ghost use Rattle.escrow_core.specs.Database.{IsKept};
    ghost use Rattle.escrow_rows.specs.Answers.{IsUsable};
    ghost use Rattle.escrow_core.specs.Beside.{AreAllSettled, Joins};
    ghost use Rattle.escrow_core.specs.Serves.{AreHeldOf};

    /// Serves an event while COMMITs are held back, or holds it back as well. `place` is where its
    /// reply goes. Returns the reply. Returns `None` if the COMMITs must be written first, and then
    /// nothing has changed.
    pub(crate) fn serve_beside(
        &mut self,
        alloc: Global,
        event: &Event,
        are_shared: bool,
        held: &mut HeldBack,
        place: usize,
    ) -> Option<Reply>
        ensures joins { IfSome result
            (λ reply. Joins (HasCleanDisk (state S.Store self.new.store)) event.now place held.old self.old.state reply
            held.new self.new.state) }
        ensures refused { IfNone result ((self.new.state ≡ self.old.state) × (held.new ≡ held.old)) }
        ensures usable { IsUsable (state S.Store self.new.store) → IsUsable (state S.Store self.old.store) }
        ensures survives { Survives (state S.Store self.old.store) (state S.Store self.new.store)
            (λ trees. IsTrue (state S.Store self.old.store).is_open × AreHeldOf self.old.state trees) }
    {
        let Event::Statement { session, statement } = event else {
            return None;
        };
        if !are_shared {
            return None;
        }
        if held.names(*session) {
            return None;
        }
        let count = self.count_open(*session);
        if count > 0 && matches!(statement, Statement::Commit) {
            held.push(*session, place)?;
            return Some(Reply::Committed { count });
        }
        if held.plan().is_empty() {
            return None;
        }
        self.pass(alloc, *session, statement)
    }

    /// Counts the open reservations of a session.
    fn count_open(&self, session: Session) -> u32
        ensures count { result ≡ length (own session self.now.state.reservations) }
        ensures kept { IsKept S.Store self.now }
    {
        self.reserved.txns().reservations(session).len() as u32
    }

    /// Serves a statement that commutes with the COMMITs of other sessions. Returns `None` if the
    /// statement isn't known to, or is refused, and then nothing has changed.
    fn pass(&mut self, alloc: Global, session: Session, statement: &Statement) -> Option<Reply>
        requires { statement.now ≡ Statement.Commit → holds self.old.state session ≡ false }
        ensures beside { HasCleanDisk (state S.Store self.new.store)
            → IfSome result (λ reply. IsServedBeside session statement.now reply self.old.state self.new.state) }
        ensures refused { IfNone result (self.new.state ≡ self.old.state) }
        ensures usable { IsUsable (state S.Store self.new.store) → IsUsable (state S.Store self.old.store) }
        ensures survives { Survives (state S.Store self.old.store) (state S.Store self.new.store)
            (λ trees. IsTrue (state S.Store self.old.store).is_open × AreHeldOf self.old.state trees) }
    {
        if !may_pass(statement) {
            return None;
        }
        match self.step(alloc, session, statement) {
            Reply::Refused(_) => None,
            reply => Some(reply),
        }
    }

    /// Writes the COMMITs of a plan, whose replies are at `places`. If one fails, its reply becomes
    /// the refusal, and the later ones are still written.
    pub(crate) fn settle_all(
        &mut self,
        alloc: Global,
        plan: &[(Session, End)],
        places: &[usize],
        replies: &mut Vec<Reply>,
    )
        requires pairs { length plan.now ≡ length places.now }
        requires places { AllByRecursion (λ place. place < vec_len replies.old) places.now }
        ensures settled { AreAllSettled (state S.Store self.old.store)
            (state S.Store self.new.store) plan.now places.now self.old.state replies.old.items self.new.state
            replies.new.items }
        ensures usable { IsUsable (state S.Store self.new.store) → IsUsable (state S.Store self.old.store) }
        ensures len { vec_len replies.new ≡ vec_len replies.old }
        ensures capacity { vec_capacity replies.new ≡ vec_capacity replies.old }
    {
        let mut done = 0;
        while let Err(stop) = self.settle(alloc, &plan[done..]) {
            // A stop is at a place of the plan as long as the disk returns what was written.
            let Some(place) = places[done..].get(stop.place) else {
                return;
            };
            refuse(replies, *place, stop.cause);
            done += stop.place + 1;
        }
    }
}

/// Returns whether a statement commutes with the COMMITs of other sessions unless it is refused.
/// Such a statement depends only on what its own session has open, or is an UPDATE that changes an
/// amount.
fn may_pass(statement: &Statement) -> bool
    ensures { result ≡ is_passing statement.now }
{
    match statement {
        Statement::Update(text) => has_change(text.assigns.as_slice()),
        Statement::Commit
        | Statement::Rollback
        | Statement::RollbackTo(_)
        | Statement::Savepoint(_) => true,
        _ => false,
    }
}

/// Returns whether one of the assignments adds to its column.
fn has_change(assigns: &[Assign]) -> bool
    ensures { result ≡ list_any (λ assign. not (is_literal assign.value)) assigns.now }
{
    assigns.iter().any(|assign| is_change(assign))
}

/// Returns whether an assignment adds to its column.
fn is_change(assign: &Assign) -> bool
    ensures { result ≡ not (is_literal assign.now.value) }
{
    matches!(assign.value, Assigned::Change { .. })
}

/// Replaces a reply by a refusal.
fn refuse(replies: &mut Vec<Reply>, place: usize, cause: Failure)
    requires { place < vec_len replies.old }
    ensures items { replies.new.items ≡ slice_set replies.old.items place (Reply.Refused (refusal_for cause)) }
    ensures len { vec_len replies.new ≡ vec_len replies.old }
    ensures capacity { vec_capacity replies.new ≡ vec_capacity replies.old }
{
    replies[place] = Reply::Refused(Refusal::from(cause));
}
