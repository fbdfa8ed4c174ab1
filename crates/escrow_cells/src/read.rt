//! Reads. No call changes anything, and each refuses a connection that is inside a transaction.
ghost use Rattle.std.specs.Prelude.{◌≡◌, false, ◌&&◌, length, filter, IsPermutation, IsTrue, IfOk, OnOk};
ghost use Rattle.sqlite_value.specs.declared.value.Value.TheVariants.{Int};
ghost use Rattle.sqlite_value.specs.Order.{column};
ghost use Rattle.sqlite.specs.Held.{state};
ghost use Rattle.sqlite.specs.State.{HasCleanDisk, Shown};
ghost use Rattle.sqlite.specs.Values.{bound};
ghost use Rattle.escrow_cells.specs.Step.{kept, same, is_in, is_at};
ghost use Rattle.escrow_cells.specs.Store.{HasTables, IsStore, cells, metas, tabs};
ghost use Rattle.escrow_cells.specs.Read.{AreOfRow, AreOfTable, AreKeys, AreTablesOfCells, AreTabs, LeavesIdle, Takes};
ghost use Rattle.escrow_cells.specs.Span.{AreOfSpan, AreOfSpans};
ghost use Rattle.escrow_cells.specs.Query.{IsReading, IsSelecting};

use crate::datum::Datum;
use crate::failure::failure_of;
use crate::sink::{Counter, Sink};
use escrow_num::Failure;
use sqlite::types::{ToSql, ValueRef};
use sqlite::{Alter, Connection, Row, params};

/// Returns all rows of a query.
fn read_all<S: Alter>(
    conn: &mut Connection<S>,
    sql: &str,
    params: &[ValueRef<'_>],
) -> Result<Vec<Row>, Failure>
    requires { IsReading sql.now }
    ensures shown { HasCleanDisk (state S.Store conn.new)
        → IfOk result (λ rows. Shown sql.now (bound params.now) (state S.Store conn.old)
        (state S.Store conn.new) rows.items) }
    ensures leaves_idle { conn.old.in_transaction ≡ false → LeavesIdle S.Store conn.old conn.new }
    ensures is_open { HasCleanDisk (state S.Store conn.new) → OnOk result (IsTrue (state S.Store conn.new).is_open) }
{
    if !conn.is_autocommit() {
        return Err(Failure::Store);
    }
    match conn.query_all(sql, params) {
        Ok(rows) => Ok(rows),
        Err(error) => Err(failure_of(error)),
    }
}

/// Gives each row of a query to a sink as it is read, until the sink is done.
pub(crate) fn read_each<S: Alter, K: Sink>(
    conn: &mut Connection<S>,
    sql: &str,
    params: &[ValueRef<'_>],
    sink: &mut K,
) -> Result<(), Failure>
    requires { IsSelecting sql.now }
    ensures taken { HasCleanDisk (state S.Store conn.new)
        → OnOk result (HasTables (state S.Store conn.old).now.schema
        → Takes K.has_taken (Shown sql.now (bound params.now) (state S.Store conn.old) (state S.Store conn.new))
        sink.old sink.new) }
    ensures leaves_idle { conn.old.in_transaction ≡ false → LeavesIdle S.Store conn.old conn.new }
    ensures is_open { HasCleanDisk (state S.Store conn.new) → OnOk result (IsTrue (state S.Store conn.new).is_open) }
{
    if !conn.is_autocommit() {
        return Err(Failure::Store);
    }
    let mut rows = match conn.query(sql, params) {
        Ok(rows) => rows,
        Err(error) => return Err(failure_of(error)),
    };
    'rows: for _ in 0..u64::MAX {
        let next = match rows.next() {
            Ok(next) => next,
            Err(error) => return Err(failure_of(error)),
        };
        let Some(row) = next else {
            return Ok(());
        };
        sink.take(row)?;
        if sink.is_done() {
            return Ok(());
        }
    }
    Err(Failure::Store)
}

/// Gives the rows of META to a sink, in any order. Each has its K and its V.
pub fn metas<S: Alter, K: Sink>(conn: &mut Connection<S>, sink: &mut K) -> Result<(), Failure>
    ensures rows { HasCleanDisk (state S.Store conn.new)
        → OnOk result (HasTables (state S.Store conn.old).now.schema
        → Takes K.has_taken (IsPermutation (metas (state S.Store conn.old).now)) sink.old sink.new) }
    ensures leaves_idle { conn.old.in_transaction ≡ false → LeavesIdle S.Store conn.old conn.new }
    ensures is_open { HasCleanDisk (state S.Store conn.new) → OnOk result (IsTrue (state S.Store conn.new).is_open) }
{
    read_each(conn, "SELECT K, V FROM META", &[], sink)
}

/// Returns the rows of TAB, in order of ID. Each has its ID, its NAME and its DDL.
pub fn tabs<S: Alter>(conn: &mut Connection<S>) -> Result<Vec<Row>, Failure>
    ensures rows { HasCleanDisk (state S.Store conn.new)
        → IfOk result (λ rows. IsStore (state S.Store conn.old).now
        → AreTabs (tabs (state S.Store conn.old).now) rows.items) }
    ensures leaves_idle { conn.old.in_transaction ≡ false → LeavesIdle S.Store conn.old conn.new }
    ensures is_open { HasCleanDisk (state S.Store conn.new) → OnOk result (IsTrue (state S.Store conn.new).is_open) }
{
    read_all(conn, "SELECT ID, NAME, DDL FROM TAB ORDER BY ID", &[])
}

/// Returns the cells of the row of a key, in order of place. Each has its place and its value.
pub fn row_cells<S: Alter>(
    conn: &mut Connection<S>,
    table: i64,
    key: Datum<'_>,
) -> Result<Vec<Row>, Failure>
    ensures rows { HasCleanDisk (state S.Store conn.new)
        → IfOk result (λ rows. IsStore (state S.Store conn.old).now
        → AreOfRow (Int table) (kept key.entry) (cells (state S.Store conn.old).now) rows.items) }
    ensures leaves_idle { conn.old.in_transaction ≡ false → LeavesIdle S.Store conn.old conn.new }
    ensures is_open { HasCleanDisk (state S.Store conn.new) → OnOk result (IsTrue (state S.Store conn.new).is_open) }
{
    read_all(
        conn,
        "SELECT C, V FROM CELL WHERE TAB = ?1 AND K = ?2 ORDER BY C",
        params![table, key],
    )
}

/// Returns the cells of the row of a key from one place to another, in order of place. Each has its
/// place and its value.
pub fn span_cells<S: Alter>(
    conn: &mut Connection<S>,
    table: i64,
    key: Datum<'_>,
    first: i64,
    last: i64,
) -> Result<Vec<Row>, Failure>
    ensures rows { HasCleanDisk (state S.Store conn.new)
        → IfOk result (λ rows. IsStore (state S.Store conn.old).now
        → AreOfSpan first last (Int table) (kept key.entry) (cells (state S.Store conn.old).now) rows.items) }
    ensures leaves_idle { conn.old.in_transaction ≡ false → LeavesIdle S.Store conn.old conn.new }
    ensures is_open { HasCleanDisk (state S.Store conn.new) → OnOk result (IsTrue (state S.Store conn.new).is_open) }
{
    read_all(
        conn,
        "SELECT C, V FROM CELL WHERE TAB = ?1 AND K = ?2 AND C >= ?3 AND C <= ?4 ORDER BY C",
        params![table, key, first, last],
    )
}

/// Gives the cells of a table to a sink, in order of key and place, until the sink is done. Each
/// has its key, its place and its value.
pub fn table_cells<S: Alter, K: Sink>(
    conn: &mut Connection<S>,
    table: i64,
    sink: &mut K,
) -> Result<(), Failure>
    ensures rows { HasCleanDisk (state S.Store conn.new)
        → OnOk result (IsStore (state S.Store conn.old).now
        → Takes K.has_taken (AreOfTable (Int table) (cells (state S.Store conn.old).now)) sink.old sink.new) }
    ensures leaves_idle { conn.old.in_transaction ≡ false → LeavesIdle S.Store conn.old conn.new }
    ensures is_open { HasCleanDisk (state S.Store conn.new) → OnOk result (IsTrue (state S.Store conn.new).is_open) }
{
    read_each(
        conn,
        "SELECT K, C, V FROM CELL WHERE TAB = ?1 ORDER BY K, C",
        params![table],
        sink,
    )
}

/// Gives the cells of a table from one place to another to a sink, in order of key and place, until
/// the sink is done. Each has its key, its place and its value.
///
/// The index alone tells which cells these are, and no other cell is read. Whole rows are cheaper to
/// read by [`table_cells`].
pub fn spans_cells<S: Alter, K: Sink>(
    conn: &mut Connection<S>,
    table: i64,
    first: i64,
    last: i64,
    sink: &mut K,
) -> Result<(), Failure>
    ensures rows { HasCleanDisk (state S.Store conn.new)
        → OnOk result (IsStore (state S.Store conn.old).now
        → Takes K.has_taken (AreOfSpans first last (Int table) (cells (state S.Store conn.old).now)) sink.old
        sink.new) }
    ensures leaves_idle { conn.old.in_transaction ≡ false → LeavesIdle S.Store conn.old conn.new }
    ensures is_open { HasCleanDisk (state S.Store conn.new) → OnOk result (IsTrue (state S.Store conn.new).is_open) }
{
    read_each(
        conn,
        "SELECT a.K, a.C, b.V FROM CELL a JOIN CELL b ON b.rowid = a.rowid WHERE a.TAB = ?1 AND a.C <= ?3 AND a.C >= ?2 ORDER BY a.K, a.C",
        params![table, first, last],
        sink,
    )
}

/// Gives the keys of a table's cells at one place to a sink, in any order.
pub fn key_cells<S: Alter, K: Sink>(
    conn: &mut Connection<S>,
    table: i64,
    place: i64,
    sink: &mut K,
) -> Result<(), Failure>
    ensures rows { HasCleanDisk (state S.Store conn.new)
        → OnOk result (IsStore (state S.Store conn.old).now
        → Takes K.has_taken (AreKeys (Int table) (Int place) (cells (state S.Store conn.old).now)) sink.old sink.new) }
    ensures leaves_idle { conn.old.in_transaction ≡ false → LeavesIdle S.Store conn.old conn.new }
    ensures is_open { HasCleanDisk (state S.Store conn.new) → OnOk result (IsTrue (state S.Store conn.new).is_open) }
{
    read_each(
        conn,
        "SELECT K FROM CELL WHERE TAB = ?1 AND C = ?2",
        params![table, place],
        sink,
    )
}

/// Returns how many cells of a table are at one place.
pub fn count_keys<S: Alter>(
    conn: &mut Connection<S>,
    table: i64,
    place: i64,
) -> Result<usize, Failure>
    ensures count { HasCleanDisk (state S.Store conn.new)
        → IfOk result (λ n. IsStore (state S.Store conn.old).now
        → n ≡ length (filter (λ c. is_in (Int table) c && same (column c 2) (Int place))
        (cells (state S.Store conn.old).now))) }
    ensures leaves_idle { conn.old.in_transaction ≡ false → LeavesIdle S.Store conn.old conn.new }
    ensures is_open { HasCleanDisk (state S.Store conn.new) → OnOk result (IsTrue (state S.Store conn.new).is_open) }
{
    let mut counter = Counter { rows: 0 };
    key_cells(conn, table, place, &mut counter)?;
    Ok(counter.rows)
}

/// Returns how many cells are at a place of the row of a key: one or none.
pub fn count_cells<S: Alter>(
    conn: &mut Connection<S>,
    table: i64,
    key: Datum<'_>,
    place: i64,
) -> Result<usize, Failure>
    ensures count { HasCleanDisk (state S.Store conn.new)
        → IfOk result (λ n. IsStore (state S.Store conn.old).now
        → n ≡ length (filter (is_at (Int table) (kept key.entry) (Int place)) (cells (state S.Store conn.old).now))) }
    ensures leaves_idle { conn.old.in_transaction ≡ false → LeavesIdle S.Store conn.old conn.new }
    ensures is_open { HasCleanDisk (state S.Store conn.new) → OnOk result (IsTrue (state S.Store conn.new).is_open) }
{
    let mut counter = Counter { rows: 0 };
    read_each(
        conn,
        "SELECT C FROM CELL WHERE TAB = ?1 AND K = ?2 AND C = ?3",
        params![table, key, place],
        &mut counter,
    )?;
    Ok(counter.rows)
}

/// Gives the table of each cell to a sink, in any order.
pub fn cell_tables<S: Alter, K: Sink>(conn: &mut Connection<S>, sink: &mut K) -> Result<(), Failure>
    ensures rows { HasCleanDisk (state S.Store conn.new)
        → OnOk result (HasTables (state S.Store conn.old).now.schema
        → Takes K.has_taken (AreTablesOfCells (cells (state S.Store conn.old).now)) sink.old sink.new) }
    ensures leaves_idle { conn.old.in_transaction ≡ false → LeavesIdle S.Store conn.old conn.new }
    ensures is_open { HasCleanDisk (state S.Store conn.new) → OnOk result (IsTrue (state S.Store conn.new).is_open) }
{
    read_each(conn, "SELECT TAB FROM CELL", &[], sink)
}
