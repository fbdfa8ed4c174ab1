use crate::store::RowStore;
use escrow_num::Failure;
use sqlite::Alter;

impl<S: Alter> RowStore<S> {
    ghost use Rattle.std.specs.Prelude.{is_ok};
    ghost use Rattle.sqlite.specs.Held.{state};
    ghost use Rattle.escrow_cells.specs.Calls.{Transacts};
    ghost use Rattle.escrow_rows.specs.Changes.{Migrates};

    /// Migrates a store in any format to the known one. Its tables and rows stay. Takes no memory
    /// of its own.
    pub fn migrate(&mut self) -> Result<(), Failure>
        ensures { Transacts (state S.Store self.old) (state S.Store self.new) (is_ok result) Migrates }
    {
        escrow_cells::migrate(&mut self.conn)
    }
}
