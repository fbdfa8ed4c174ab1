ghost use Rattle.std.specs.Prelude.{◌≡◌, ◌++◌, [], ◌∷◌, map, IfOk, OnOk};
ghost use Rattle.escrow_rows.specs.declared.listed.ListedTable.{ListedTable as Listed};
ghost use Rattle.escrow_rows.specs.Listing.{listed_row};

use crate::listed::ListedTable;
use crate::store::RowStore;
use escrow_cells::{Step, count_keys, failure_of, run, tabs};
use escrow_num::{Failure, Text};
use escrow_schema::{StoredTable, TableDef, print_table};
use sqlite::{Alter, Row};
use std::alloc::Global;

impl<S: Alter> RowStore<S> {
    ghost use Rattle.std.specs.Prelude.{IsTrue, is_ok};
    ghost use Rattle.sqlite.specs.Held.{state};
    ghost use Rattle.sqlite.specs.State.{HasCleanDisk};
    ghost use Rattle.escrow_schema.specs.Definition.{IsTable};
    ghost use Rattle.escrow_cells.specs.Calls.{OnlyReads, Transacts};
    ghost use Rattle.escrow_rows.specs.Answers.{TellsCount, TellsTables};
    ghost use Rattle.escrow_rows.specs.Changes.{Creates, Drops, Redefines};

    /// Inserts a new table, without rows.
    pub fn create_table(&mut self, alloc: Global, table: &StoredTable) -> Result<(), Failure>
        requires { IsTable table.now.table }
        ensures { Transacts (state S.Store self.old) (state S.Store self.new) (is_ok result) (Creates table.now) }
    {
        let text = print_table(alloc, &table.table)?;
        run(
            &mut self.conn,
            &[Step::InsertTab {
                id: table.id,
                name: table.table.name.as_str(),
                text: text.as_str(),
            }],
        )
    }

    /// Replaces a table's definition with one that differs only in its checks. The rows stay,
    /// whether they meet the checks or not.
    pub fn redefine(
        &mut self,
        alloc: Global,
        table: &StoredTable,
        altered: &TableDef,
    ) -> Result<(), Failure>
        requires defined { IsTable altered.now }
        requires alike { altered.now ≡ record table.now.table { checks = altered.now.checks } }
        ensures { Transacts (state S.Store self.old) (state S.Store self.new) (is_ok result)
            (Redefines table.now altered.now.checks) }
    {
        let id = table.id;
        let text = print_table(alloc, altered)?;
        run(
            &mut self.conn,
            &[
                Step::DeleteTab { id },
                Step::InsertTab {
                    id,
                    name: altered.name.as_str(),
                    text: text.as_str(),
                },
            ],
        )
    }

    /// Deletes a table and its rows. Takes no memory of its own.
    pub fn drop_table(&mut self, table: &StoredTable) -> Result<(), Failure>
        ensures { Transacts (state S.Store self.old) (state S.Store self.new) (is_ok result) (Drops table.now) }
    {
        run(
            &mut self.conn,
            &[
                Step::DeleteCells { table: table.id },
                Step::DeleteTab { id: table.id },
            ],
        )
    }

    /// Returns the tables, in order of number.
    pub fn tables(&mut self, alloc: Global) -> Result<Vec<ListedTable>, Failure>
        ensures told { HasCleanDisk (state S.Store self.new)
            → IfOk result (λ listed. IsTrue (state S.Store self.new).is_open
            × TellsTables (state S.Store self.old).now listed.items) }
        ensures only_reads { OnlyReads (state S.Store self.old) (state S.Store self.new) }
    {
        let rows = tabs(&mut self.conn)?;
        listed_tables(alloc, rows.as_slice())
    }

    /// Returns how many rows a table has. Each has one cell at the first place. Takes no memory of
    /// its own.
    pub fn count(&mut self, table: &StoredTable) -> Result<usize, Failure>
        ensures told { HasCleanDisk (state S.Store self.new)
            → IfOk result (λ n. IsTrue (state S.Store self.new).is_open
            × TellsCount table.now (state S.Store self.old).now n) }
        ensures only_reads { OnlyReads (state S.Store self.old) (state S.Store self.new) }
    {
        count_keys(&mut self.conn, table.id, 1)
    }
}

/// Returns the tables that rows of TAB list.
fn listed_tables(alloc: Global, rows: &[Row]) -> Result<Vec<ListedTable>, Failure>
    ensures { IfOk result (λ tables. rows.now ≡ map listed_row tables.items) }
{
    let mut tables = Vec::new(alloc);
    for row in rows {
        push_table(&mut tables, row)?;
    }
    Ok(tables)
}

/// Adds the table that a row of TAB lists.
fn push_table(tables: &mut Vec<ListedTable>, row: &Row) -> Result<(), Failure>
    ensures { OnOk result ((t : Listed) × (row.now ≡ listed_row t) × (tables.new.items ≡ tables.old.items ++ t ∷ [])) }
{
    let table = listed_table(row)?;
    Ok(tables.push(table)?)
}

/// Returns the table that a row of TAB lists.
fn listed_table(row: &Row) -> Result<ListedTable, Failure>
    ensures { IfOk result (λ t. row.now ≡ listed_row t) }
{
    if row.column_count() != 3 {
        return Err(Failure::Store);
    }
    let id: i64 = row.get(0).map_err(failure_of)?;
    let name: String = row.get(1).map_err(failure_of)?;
    let text: String = row.get(2).map_err(failure_of)?;
    Ok(ListedTable {
        id,
        name: Text::from_string(name),
        text: Text::from_string(text),
    })
}
