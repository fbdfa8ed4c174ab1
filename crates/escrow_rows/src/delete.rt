use crate::datum::datum;
use crate::store::RowStore;
use escrow_cells::{Step, run_if_found};
use escrow_num::{Failure, Value};
use escrow_schema::StoredTable;
use sqlite::Alter;

impl<S: Alter> RowStore<S> {
    ghost use Rattle.std.specs.Prelude.{◌≡◌, false, IsTrue, Ok};
    ghost use Rattle.sqlite.specs.Held.{state};
    ghost use Rattle.sqlite.specs.State.{HasCleanDisk};
    ghost use Rattle.escrow_cells.specs.Calls.{Transacts, was_done};
    ghost use Rattle.escrow_rows.specs.Answers.{Tells};
    ghost use Rattle.escrow_rows.specs.Changes.{Deletes, is_there};

    /// Deletes the row of a key of a table, if it exists. Returns whether it did. Takes no memory
    /// of its own.
    pub fn delete(&mut self, table: &StoredTable, key: &Value) -> Result<bool, Failure>
        ensures writes { Transacts (state S.Store self.old) (state S.Store self.new) (was_done result)
            (Deletes table.now key.now) }
        ensures none { HasCleanDisk (state S.Store self.new) → result ≡ Ok false
            → IsTrue (state S.Store self.old).is_open
            × Tells table.now (is_there table.now key.now) (state S.Store self.old).now false }
    {
        run_if_found(
            &mut self.conn,
            &Step::DeleteRow {
                table: table.id,
                key: datum(key),
            },
            &[],
        )
    }
}
