//! SQLite's own numbers of the rows of a store.
ghost use Rattle.std.specs.Prelude.{◌≡◌, ◌↔◌, false, true, None, [], List, IsTrue, IfOk, OnOk};
ghost use Rattle.sqlite_value.specs.Order.{Row as Cells};
ghost use Rattle.sqlite_value.specs.Value.{owned};
ghost use Rattle.sqlite.specs.Held.{state};
ghost use Rattle.sqlite.specs.State.{HasCleanDisk, Shown};
ghost use Rattle.escrow_cells.specs.Numbered.{is_above, with_number, with_numbers};
ghost use Rattle.escrow_cells.specs.Query.{IsSelecting};
ghost use Rattle.escrow_cells.specs.Read.{LeavesIdle};
ghost use Rattle.escrow_cells.specs.Store.{HasTables, NumbersDiffer, AreAllNumbered};
ghost use Rattle.escrow_cells.specs.Tables.{meta_tree, tab_tree, cell_tree};

use crate::failure::failure_of;
use crate::read::read_each;
use crate::sink::Sink;
use escrow_num::Failure;
use sqlite::{Alter, Connection, Row};
use sqlite_value::value::ValueRef;

/// Tests that the first values of rows are whole numbers that rise.
#[derive(Debug, Drop)]
pub(crate) struct Numbers {
    /// The last number.
    last: Option<i64>,
    /// Whether all values so far are whole numbers that rise.
    rise: bool,
}

impl Numbers {
    /// Adds one more value.
    fn add(&mut self, value: ValueRef<'_>)
        ensures { self.new ≡ with_number self.old (owned value.entry) }
    {
        let ValueRef::Int(number) = value else {
            self.rise = false;
            return;
        };
        self.rise = self.rise && is_above(self.last, number);
        self.last = Some(number);
    }
}

fn is_above(last: Option<i64>, number: i64) -> bool
    ensures { result ≡ is_above last number }
{
    match last {
        None => true,
        Some(last) => last < number,
    }
}

impl Sink for Numbers {
    ghost use Rattle.std.specs.Prelude.{◌≡◌};
    ghost use Rattle.escrow_cells.specs.Numbered.{with_numbers};

    ghost has_taken = { λ first numbers rows. numbers ≡ with_numbers first rows };

    fn take(&mut self, row: &Row) -> Result<(), Failure> {
        self.add(row.get_ref(0).map_err(failure_of)?);
        Ok(())
    }
}

/// Returns whether SQLite's own numbers of the rows of META, TAB and CELL are whole, and no number
/// occurs twice in one of them.
pub fn are_numbered<S: Alter>(conn: &mut Connection<S>) -> Result<bool, Failure>
    ensures numbered { HasCleanDisk (state S.Store conn.new)
        → IfOk result (λ are. HasTables (state S.Store conn.old).now.schema
        → (IsTrue are ↔ AreAllNumbered (state S.Store conn.old).now)) }
    ensures leaves_idle { conn.old.in_transaction ≡ false → LeavesIdle S.Store conn.old conn.new }
    ensures is_open { HasCleanDisk (state S.Store conn.new) → OnOk result (IsTrue (state S.Store conn.new).is_open) }
{
    if !conn.is_autocommit() {
        return Err(Failure::Store);
    }
    let metas = are_metas_numbered(conn)?;
    let tabs = are_tabs_numbered(conn)?;
    let cells = are_cells_numbered(conn)?;
    Ok(metas && tabs && cells)
}

fn are_metas_numbered<S: Alter>(conn: &mut Connection<S>) -> Result<bool, Failure>
    ensures numbered { HasCleanDisk (state S.Store conn.new)
        → IfOk result (λ are. HasTables (state S.Store conn.old).now.schema
        → (IsTrue are ↔ NumbersDiffer ((state S.Store conn.old).now.trees meta_tree))) }
    ensures leaves_idle { conn.old.in_transaction ≡ false → LeavesIdle S.Store conn.old conn.new }
    ensures is_open { HasCleanDisk (state S.Store conn.new) → OnOk result (IsTrue (state S.Store conn.new).is_open) }
{
    numbers_rise(conn, "SELECT rowid FROM META ORDER BY rowid")
}

fn are_tabs_numbered<S: Alter>(conn: &mut Connection<S>) -> Result<bool, Failure>
    ensures numbered { HasCleanDisk (state S.Store conn.new)
        → IfOk result (λ are. HasTables (state S.Store conn.old).now.schema
        → (IsTrue are ↔ NumbersDiffer ((state S.Store conn.old).now.trees tab_tree))) }
    ensures leaves_idle { conn.old.in_transaction ≡ false → LeavesIdle S.Store conn.old conn.new }
    ensures is_open { HasCleanDisk (state S.Store conn.new) → OnOk result (IsTrue (state S.Store conn.new).is_open) }
{
    numbers_rise(conn, "SELECT rowid FROM TAB ORDER BY rowid")
}

fn are_cells_numbered<S: Alter>(conn: &mut Connection<S>) -> Result<bool, Failure>
    ensures numbered { HasCleanDisk (state S.Store conn.new)
        → IfOk result (λ are. HasTables (state S.Store conn.old).now.schema
        → (IsTrue are ↔ NumbersDiffer ((state S.Store conn.old).now.trees cell_tree))) }
    ensures leaves_idle { conn.old.in_transaction ≡ false → LeavesIdle S.Store conn.old conn.new }
    ensures is_open { HasCleanDisk (state S.Store conn.new) → OnOk result (IsTrue (state S.Store conn.new).is_open) }
{
    numbers_rise(conn, "SELECT rowid FROM CELL ORDER BY rowid")
}

/// Returns whether the first values in the rows of a query are whole numbers that rise.
fn numbers_rise<S: Alter>(conn: &mut Connection<S>, sql: &str) -> Result<bool, Failure>
    requires { IsSelecting sql.now }
    ensures rise { HasCleanDisk (state S.Store conn.new)
        → IfOk result (λ rise. HasTables (state S.Store conn.old).now.schema → (rows : List Cells)
        × Shown sql.now [] (state S.Store conn.old) (state S.Store conn.new) rows
        × (rise ≡ (with_numbers (record { last = None; rise = true }) rows).rise)) }
    ensures leaves_idle { conn.old.in_transaction ≡ false → LeavesIdle S.Store conn.old conn.new }
    ensures is_open { HasCleanDisk (state S.Store conn.new) → OnOk result (IsTrue (state S.Store conn.new).is_open) }
{
    let mut numbers = Numbers {
        last: None,
        rise: true,
    };
    read_each(conn, sql, &[], &mut numbers)?;
    Ok(numbers.rise)
}
