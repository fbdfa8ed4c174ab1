ghost use Rattle.std.specs.Prelude.{◌≡◌, length};
ghost use Rattle.escrow_journal.specs.Reservations.{own};

use crate::database::{Answer, Database};
use escrow_machine::Reply;
use escrow_num::{End, Failure, Session};
use escrow_statement::Statement;
use sqlite::Alter;
use std::alloc::Global;

impl<S: Alter> Database<S> {
    ghost use Rattle.std.specs.Prelude.{◌<◌, [], ◌∷◌, IfOk, IfErr, IsTrue, OnOk, OnErr};
    ghost use Rattle.sqlite.specs.Held.{state};
    ghost use Rattle.sqlite.specs.State.{HasCleanDisk, Survives};
    ghost use Rattle.escrow_rows.specs.Answers.{IsUsable};
    ghost use Rattle.escrow_journal.specs.Reservations.{others};
    ghost use Rattle.escrow_num.specs.Refusal.{refusal_for};
    ghost use Rattle.escrow_core.specs.Left.{Lasts};
    ghost use Rattle.escrow_core.specs.Serves.{AreHeldOf, Serves};
    ghost use Rattle.escrow_core.specs.Serving.{Answers, AreAfterEnd};
    ghost use Rattle.escrow_machine.specs.Settle.{after_end, committed_by};
    ghost use Rattle.escrow_machine.specs.Transition.{after_rollback};

    /// COMMIT: ends the session's transaction, and replies how many reservations it held.
    pub(crate) fn commit(&mut self, alloc: Global, session: Session) -> Answer
        ensures { Answers S.Store session Statement.Commit self.old result self.new }
    {
        let count = self.end_by_commit(alloc, session)?;
        Ok(Reply::Committed { count })
    }

    /// Ends a session's transaction. Returns how many reservations it held. Only a COMMIT of one or
    /// more can fail.
    pub(crate) fn finish(
        &mut self,
        alloc: Global,
        session: Session,
        end: End,
    ) -> Result<u32, Failure>
        ensures done { HasCleanDisk (state S.Store self.new.store)
            → OnOk result (self.new.state ≡ after_end self.old.state session end) }
        ensures failed { OnErr result (self.new.state ≡ self.old.state) }
        ensures count { IfOk result (λ count. count ≡ length (own session self.old.state.reservations)) }
        ensures left { OnOk result (self.new.state.reservations ≡ others session self.old.state.reservations) }
        ensures commit { OnErr result (end ≡ End.Commit) }
        ensures held { OnErr result (0 < length (own session self.old.state.reservations)) }
        ensures stays { HasCleanDisk (state S.Store self.new.store)
            → OnOk result (IsTrue (state S.Store self.old.store).is_open
            → IsTrue (state S.Store self.new.store).is_open) }
        ensures usable { IsUsable (state S.Store self.new.store) → IsUsable (state S.Store self.old.store) }
        ensures crash { Survives (state S.Store self.old.store) (state S.Store self.new.store)
            (λ trees. IsTrue (state S.Store self.old.store).is_open × AreAfterEnd self.old.state session end trees) }
        ensures durable { OnOk result
            (Lasts (state S.Store self.old.store) (state S.Store self.new.store)
            (committed_by ((session, end) ∷ []) self.old.state.reservations ≡ []) (AreHeldOf self.new.state)) }
    {
        match end {
            End::Commit => self.end_by_commit(alloc, session),
            End::Rollback => Ok(self.rollback(session)),
        }
    }

    /// Ends a session's transaction by COMMIT, in one write ([`Database::commit_all`]). Returns how
    /// many reservations it held. If there are none, the store isn't asked.
    fn end_by_commit(&mut self, alloc: Global, session: Session) -> Result<u32, Failure>
        ensures done { IfOk result
            (λ count. Serves S.Store session Statement.Commit self.old (Reply.Committed count) self.new) }
        ensures failed { IfErr result
            (λ f. Serves S.Store session Statement.Commit self.old (Reply.Refused (refusal_for f)) self.new) }
        ensures count { IfOk result (λ count. count ≡ length (own session self.old.state.reservations)) }
        ensures left { OnOk result (self.new.state.reservations ≡ others session self.old.state.reservations) }
        ensures held { OnErr result (0 < length (own session self.old.state.reservations)) }
        ensures stays { HasCleanDisk (state S.Store self.new.store)
            → OnOk result (IsTrue (state S.Store self.old.store).is_open
            → IsTrue (state S.Store self.new.store).is_open) }
    {
        if self.reserved.txns().reservations(session).is_empty() {
            return Ok(self.reserved.end(session, End::Rollback));
        }
        self.commit_all(alloc, &[(session, End::Commit)])
    }

    /// ROLLBACK: drops the open reservations and the savepoints of a session. Returns how many
    /// reservations there were. Takes no memory, and makes no store call.
    pub fn rollback(&mut self, session: Session) -> u32
        ensures count { result ≡ length (own session self.old.state.reservations) }
        ensures state { self.new.state ≡ after_rollback self.old.state session }
        ensures store { self.new.store ≡ self.old.store }
    {
        self.reserved.end(session, End::Rollback)
    }
}
