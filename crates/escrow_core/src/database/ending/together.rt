use crate::database::Database;
use escrow_num::{End, Failure, Session};
use sqlite::Alter;
use std::alloc::Global;

impl<S: Alter> Database<S> {
    ghost use Rattle.std.specs.Prelude.{◌≡◌, ◌+◌, IfOk, IsTrue, OnOk, OnErr, length};
    ghost use Rattle.sqlite.specs.Held.{state};
    ghost use Rattle.sqlite.specs.State.{HasCleanDisk, Survives};
    ghost use Rattle.sqlite_trees.specs.Tree.{Trees};
    ghost use Rattle.escrow_rows.specs.Answers.{IsUsable};
    ghost use Rattle.escrow_core.specs.Ends.{AreCommits, left_after};
    ghost use Rattle.escrow_core.specs.Serves.{AreHeldOf};
    ghost use Rattle.escrow_core.specs.Serving.{OnlyReads};
    ghost use Rattle.escrow_machine.specs.Settle.{after_ends};

    /// Commits the transactions of sessions, each named once. Applies their open reservations to
    /// the committed rows, in one write, and ends the transactions if the write succeeds. Returns
    /// how many reservations there were. After an error nothing has changed.
    ///
    /// No row is read: the places of the rows have their amounts. No check is tested: each
    /// reservation was granted over every choice of the open ones.
    pub(crate) fn commit_all(
        &mut self,
        alloc: Global,
        plan: &[(Session, End)],
    ) -> Result<u32, Failure>
        requires { AreCommits plan.now }
        ensures done { HasCleanDisk (state S.Store self.new.store)
            → OnOk result (self.new.state ≡ after_ends self.old.state plan.now) }
        ensures failed { OnErr result (self.new.state ≡ self.old.state) }
        ensures count { IfOk result
            (λ count. count + length self.new.state.reservations ≡ length self.old.state.reservations) }
        ensures left { OnOk result (self.new.state.reservations ≡ left_after plan.now self.old.state.reservations) }
        ensures open { HasCleanDisk (state S.Store self.new.store)
            → OnOk result (IsTrue (state S.Store self.new.store).is_open) }
        ensures durable { HasCleanDisk (state S.Store self.new.store)
            → OnOk result ((trees : Trees) → (state S.Store self.new.store).may_leave trees
            → AreHeldOf self.new.state trees) }
        ensures usable { IsUsable (state S.Store self.new.store) → IsUsable (state S.Store self.old.store) }
        ensures crash { Survives (state S.Store self.old.store) (state S.Store self.new.store)
            (λ trees. IsTrue (state S.Store self.old.store).is_open
            × AreHeldOf (after_ends self.old.state plan.now) trees) }
    {
        let reservations = self.reserved.all_of(alloc, plan)?;
        let amounts = self.reserved.amounts_of(alloc, &reservations)?;
        let written = self.tables.apply(alloc, &reservations, &amounts);
        drop(amounts);
        match written {
            Ok(()) => {
                self.recent.commit(&reservations);
                drop(reservations);
                Ok(self.reserved.end_all(plan))
            }
            Err(failure) => Err(failure),
        }
    }

    /// Returns whether the store still answers. It doesn't once a fault has shut it. Looks for a
    /// row that a session reserved.
    pub(crate) fn store_answers(&mut self, session: Session) -> bool
        ensures reads { OnlyReads S.Store self.old self.new }
        ensures open { HasCleanDisk (state S.Store self.new.store) → IsTrue result
            → IsTrue (state S.Store self.new.store).is_open }
    {
        match self.reserved.txns().reservations(session).first() {
            Some(reservation) => self.tables.answers(&reservation.row),
            None => false,
        }
    }
}
