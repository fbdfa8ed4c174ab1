use crate::database::Database;
use escrow_num::Refusal;
use sqlite::Alter;
use std::alloc::Global;

impl<S: Alter> Database<S> {
    ghost use Rattle.std.specs.Prelude.{◌≡◌, ◌⊎◌, IfErr, OnOk, OnErr, IsTrue};
    ghost use Rattle.sqlite.specs.Held.{state};
    ghost use Rattle.sqlite.specs.State.{HasCleanDisk, Survives};
    ghost use Rattle.escrow_rows.specs.Answers.{IsUsable};
    ghost use Rattle.escrow_machine.specs.declared.event.Event.TheVariants as event;
    ghost use Rattle.escrow_machine.specs.Reply.{restart_reply};
    ghost use Rattle.escrow_machine.specs.State.{opened};
    ghost use Rattle.escrow_machine.specs.Step.{IsServed};

    /// Restarts the database: verifies its store, then drops all reservations and savepoints, and
    /// sets the next id to 1. Catalog and rows stay as they are. Fails with 51 if memory is
    /// refused, and with 60 if the store refuses or no longer holds the tables. After an error
    /// nothing has changed.
    pub fn restart(&mut self, alloc: Global) -> Result<(), Refusal>
        ensures event { HasCleanDisk (state S.Store self.new.store)
            → IsServed self.old.state event.Restart (restart_reply result) self.new.state }
        ensures open { HasCleanDisk (state S.Store self.new.store)
            → OnOk result (IsTrue (state S.Store self.new.store).is_open) }
        ensures usable { IsUsable (state S.Store self.new.store) → IsUsable (state S.Store self.old.store) }

        // Whatever the store is like, either nothing is open after the call, or all that was.
        // Catalog and rows stay as they are.
        ensures done { OnOk result (self.new.state ≡ opened self.old.state.catalog self.old.state.rows) }
        ensures refused { OnErr result (self.new.state ≡ self.old.state) }
        ensures only { IfErr result (λ e. (e ≡ Refusal.Memory) ⊎ (e ≡ Refusal.Store)) }

        // The store isn't written: a crash leaves what it might have left before.
        ensures crash { Survives (state S.Store self.old.store) (state S.Store self.new.store) (λ _. ⊥) }
    {
        self.tables.verify(alloc)?;
        self.reserved.clear();
        self.recent.clear();
        Ok(())
    }
}
