//! Reads of whole rows.
ghost use Rattle.std.specs.Prelude.{◌≡◌, Some, IfOk, OnOk};
ghost use Rattle.escrow_schema.specs.Definition.{IsTable};
ghost use Rattle.escrow_schema.specs.Fit.{IsRowOf, row_with};
ghost use Rattle.escrow_rows.specs.Whole.{rows_with};

use crate::store::RowStore;
use escrow_num::{Failure, Row, Seq, Value};
use escrow_schema::{StoredTable, TableDef, row_of};
use sqlite::Alter;
use std::alloc::Global;

impl<S: Alter> RowStore<S> {
    ghost use Rattle.std.specs.Prelude.{◌≡◌, IsTrue, IfOk};
    ghost use Rattle.sqlite.specs.Held.{state};
    ghost use Rattle.sqlite.specs.State.{HasCleanDisk};
    ghost use Rattle.escrow_schema.specs.Definition.{IsTable};
    ghost use Rattle.escrow_rows.specs.Answers.{OnlyReads, TellsRow, TellsRows};

    /// Returns the row of a key of a table, or `None` if no row has the key.
    pub fn row(
        &mut self,
        alloc: Global,
        table: &StoredTable,
        key: &Value,
    ) -> Result<Option<Row>, Failure>
        requires { IsTable table.now.table }
        ensures told { HasCleanDisk (state S.Store self.new)
            → IfOk result (λ found. IsTrue (state S.Store self.new).is_open
            × TellsRow table.now key.now (state S.Store self.old).now found) }
        ensures only_reads { OnlyReads (state S.Store self.old) (state S.Store self.new) }
    {
        let Some(values) = self.values(alloc, table, key)? else {
            return Ok(None);
        };
        let row = made_row(alloc, &table.table, values.as_slice())?;
        Ok(Some(row))
    }

    /// Returns the rows of a table, in order of key.
    pub fn rows(&mut self, alloc: Global, table: &StoredTable) -> Result<Seq<Row>, Failure>
        requires { IsTable table.now.table }
        ensures told { HasCleanDisk (state S.Store self.new)
            → IfOk result (λ rows. IsTrue (state S.Store self.new).is_open
            × TellsRows table.now (state S.Store self.old).now rows) }
        ensures only_reads { OnlyReads (state S.Store self.old) (state S.Store self.new) }
    {
        let all = self.all_values(alloc, table)?;
        made_rows(alloc, &table.table, all.as_slice())
    }
}

/// Returns the rows that values make. Fails if values make no row of the table.
fn made_rows(alloc: Global, table: &TableDef, all: &[Seq<Value>]) -> Result<Seq<Row>, Failure>
    requires { IsTable table.now }
    ensures { IfOk result (λ rows. rows ≡ rows_with table.now all.now) }
{
    let mut rows = Vec::with_capacity(alloc, all.len())?;
    for values in all {
        rows.push(made_row(alloc, table, values.as_slice())?)?;
    }
    Ok(Seq::from_vec(rows))
}

/// Returns the row that values make. Fails if they make no row of the table.
pub fn made_row(alloc: Global, table: &TableDef, values: &[Value]) -> Result<Row, Failure>
    requires { IsTable table.now }
    ensures made { IfOk result (λ row. row_with table.now values.now ≡ Some row) }
    ensures fits { IfOk result (λ row. IsRowOf table.now row) }
{
    row_of(alloc, table, values)?.ok_or(Failure::Store)
}
