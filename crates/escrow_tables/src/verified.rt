use crate::tables::Tables;
use escrow_num::{Failure, Refusal};
use escrow_recover::verify;
use sqlite::Alter;
use std::alloc::Global;

impl<S: Alter> Tables<S> {
    ghost use Rattle.std.specs.Prelude.{IsTrue, OnOk};
    ghost use Rattle.std.specs.List.{AllByRecursion};
    ghost use Rattle.sqlite.specs.Held.{state};
    ghost use Rattle.sqlite.specs.State.{HasCleanDisk};
    ghost use Rattle.escrow_schema.specs.Rows.{MeetsChecks};
    ghost use Rattle.escrow_tables.specs.Calls.{Reads};

    /// Reads and tests everything that is stored, once more. Afterwards each row is known to meet
    /// the checks of its table. If the store is no longer a store, or has another format, somebody
    /// else has changed it.
    ///
    /// # Errors
    ///
    /// Fails with [`Failure::Memory`] if memory is refused. Fails with [`Failure::Store`] if the
    /// store refuses a call or holds anything else.
    pub fn verify(&mut self, alloc: Global) -> Result<(), Failure>
        ensures meet { HasCleanDisk (state S.Store self.new.store)
            → OnOk result (AllByRecursion (MeetsChecks self.new.catalog) self.new.rows) }
        ensures reads { Reads S.Store self.old self.new }
        ensures open { HasCleanDisk (state S.Store self.new.store)
            → OnOk result (IsTrue (state S.Store self.new.store).is_open) }
    {
        match verify(alloc, &mut self.store) {
            Ok(_) => Ok(()),
            Err(Refusal::Memory) => Err(Failure::Memory),
            Err(_) => Err(Failure::Store),
        }
    }
}
