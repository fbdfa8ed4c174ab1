ghost use Rattle.std.specs.Prelude.{pos, IfOk};
ghost use Rattle.escrow_rows.specs.Image.{cells_from};
ghost use Rattle.escrow_rows.specs.Steps.{PutsCells};

use crate::datum::datum;
use crate::store::RowStore;
use escrow_cells::{Step, run_unless_refused};
use escrow_num::{Failure, Row, Value};
use escrow_schema::{StoredTable, values_of};
use sqlite::Alter;
use std::alloc::{AllocError, Global};

impl<S: Alter> RowStore<S> {
    ghost use Rattle.std.specs.Prelude.{◌≡◌};
    ghost use Rattle.sqlite.specs.Held.{state};
    ghost use Rattle.escrow_schema.specs.Fit.{IsRowOf};
    ghost use Rattle.escrow_cells.specs.Calls.{Transacts, was_done};
    ghost use Rattle.escrow_rows.specs.Changes.{Inserts};

    /// Inserts a row of a table, unless SQLite finds that this breaks a constraint: another row has
    /// its key, or somebody else has added a constraint to the store. Returns whether the row is
    /// inserted.
    pub fn insert(&mut self, alloc: Global, table: &StoredTable, row: &Row) -> Result<bool, Failure>
        requires { IsRowOf table.now.table row.now }
        ensures { Transacts (state S.Store self.old) (state S.Store self.new) (was_done result)
            (Inserts table.now row.now) }
    {
        let is_inserted = self.insert_cells(alloc, table, row)?;
        if is_inserted {
            self.note_rowids(alloc, table, &row.name.key);
        }
        Ok(is_inserted)
    }

    /// Inserts the cells of a row as [`RowStore::insert`] does.
    fn insert_cells(
        &mut self,
        alloc: Global,
        table: &StoredTable,
        row: &Row,
    ) -> Result<bool, Failure>
        requires { IsRowOf table.now.table row.now }
        ensures { Transacts (state S.Store self.old) (state S.Store self.new) (was_done result)
            (Inserts table.now row.now) }
    {
        let values = values_of(alloc, &table.table, row)?;
        let steps = cell_steps(alloc, table.id, &row.name.key, values.as_slice())?;
        run_unless_refused(&mut self.conn, steps.as_slice())
    }

    /// Notes the rowids of the cells of the row of a key, which were inserted last.
    fn note_rowids(&mut self, alloc: Global, table: &StoredTable, key: &Value)
        ensures { self.new ≡ self.old }
    {
        if let Ok(cells) = i64::try_from(table.table.columns.len()) {
            let before = self.conn.last_insert_rowid().wrapping_sub(cells);
            self.rowids.note(alloc, table.id, key, before);
        }
    }
}

/// Returns the steps that insert a cell for each value, by its place from 1.
fn cell_steps<'a>(
    alloc: Global,
    table: i64,
    key: &'a Value,
    values: &'a [Value],
) -> Result<Vec<Step<'a>>, AllocError>
    ensures { IfOk result (λ steps. PutsCells (cells_from table key.now (pos 1) values.now) steps.items) }
{
    let mut steps = Vec::with_capacity(alloc, values.len())?;
    for (i, value) in values.iter().enumerate() {
        steps.push(Step::InsertCell {
            table,
            key: datum(key),
            place: i as i64 + 1,
            value: datum(value),
        })?;
    }
    Ok(steps)
}
