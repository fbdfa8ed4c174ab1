//! The values of each row of a table.
ghost use Rattle.std.specs.Prelude.{◌≡◌, false, map};

use crate::keyed_row::KeyedRow;
use crate::store::RowStore;
use crate::taker::RowTaker;
use escrow_num::{Failure, Seq, Value};
use escrow_schema::StoredTable;
use sqlite::Alter;
use std::alloc::Global;

impl<S: Alter> RowStore<S> {
    ghost use Rattle.std.specs.Prelude.{◌≡◌, IsTrue, IfOk};
    ghost use Rattle.sqlite.specs.Held.{state};
    ghost use Rattle.sqlite.specs.State.{HasCleanDisk};
    ghost use Rattle.escrow_schema.specs.Definition.{IsTable};
    ghost use Rattle.escrow_rows.specs.Answers.{OnlyReads, TellsAllValues};

    /// Returns the values of each row of a table, in column order; the rows are in order of key.
    /// Reads one cell at a time.
    pub fn all_values(
        &mut self,
        alloc: Global,
        table: &StoredTable,
    ) -> Result<Seq<Seq<Value>>, Failure>
        requires { IsTable table.now.table }
        ensures told { HasCleanDisk (state S.Store self.new)
            → IfOk result (λ rows. IsTrue (state S.Store self.new).is_open
            × TellsAllValues table.now (state S.Store self.old).now rows) }
        ensures only_reads { OnlyReads (state S.Store self.old) (state S.Store self.new) }
    {
        match self.read_rows(alloc, table, Seq::new(alloc))? {
            Some(rows) => Ok(rows),
            None => Err(Failure::Store),
        }
    }
}

/// A list of the rows' values takes those of each further row.
impl RowTaker for Seq<Seq<Value>> {
    ghost has_taken = { λ _ rows taken. rows ≡ map (λ row. row.values) taken };

    ghost is_enough = { λ _. false };

    fn take(&mut self, row: KeyedRow) -> Result<(), Failure> {
        Ok(self.push(row.values)?)
    }

    fn is_done(&self) -> bool {
        false
    }
}
