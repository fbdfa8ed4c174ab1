//! The statements that write, each inside a transaction.
ghost use Rattle.std.specs.Prelude.{◌≡◌, [], ◌∷◌, true, false, nat_lt, is_ok, Ok, Some, None, IfOk, IsTrue};
ghost use Rattle.std.specs.List.{list_any};
ghost use Rattle.sqlite_value.specs.declared.value.Value.TheVariants.{Int};
ghost use Rattle.sqlite.specs.Held.{state};
ghost use Rattle.sqlite.specs.State.{HasCleanDisk, Executes};
ghost use Rattle.sqlite.specs.Values.{bound};
ghost use Rattle.escrow_cells.specs.declared.step.Step.TheVariants as step;
ghost use Rattle.escrow_cells.specs.Inside.{ActsBy, IsPending, Wrote};
ghost use Rattle.escrow_cells.specs.NewCell.{step_of};
ghost use Rattle.escrow_cells.specs.Step.{kept, is_of, is_at, finds};
ghost use Rattle.escrow_cells.specs.Store.{IsStore, cells};

use crate::datum::Datum;
use crate::new_cell::NewCell;
use crate::step::Step;
use sqlite::types::{ToSql, ValueRef};
use sqlite::{Alter, Error, Transaction, params};

/// Executes a statement that writes. Returns how many rows it inserted, changed or deleted.
fn change<S: Alter>(
    tx: &mut Transaction<'_, S>,
    sql: &str,
    params: &[ValueRef<'_>],
) -> Result<usize, Error>
    ensures same_reference { tx.new.conn.ghost_name ≡ tx.old.conn.ghost_name }
    ensures wrote { Wrote sql.now (bound params.now) (state S.Store tx.old.conn.now) (state S.Store tx.new.conn.now)
        (is_ok result) }
    ensures counted { HasCleanDisk (state S.Store tx.new.conn.now)
        → IsTrue (state S.Store tx.old.conn.now).in_transaction
        → IfOk result (λ n. Executes sql.now (bound params.now) (state S.Store tx.old.conn.now)
        (state S.Store tx.new.conn.now) (Ok n)) }
{
    let rows = tx.execute(sql, params)?;
    Ok(rows)
}

/// Executes a statement that writes.
pub(crate) fn write<S: Alter>(
    tx: &mut Transaction<'_, S>,
    sql: &str,
    params: &[ValueRef<'_>],
) -> Result<(), Error>
    ensures same_reference { tx.new.conn.ghost_name ≡ tx.old.conn.ghost_name }
    ensures wrote { Wrote sql.now (bound params.now) (state S.Store tx.old.conn.now) (state S.Store tx.new.conn.now)
        (is_ok result) }
{
    change(tx, sql, params)?;
    Ok(())
}

/// Inserts a new cell.
fn insert_cell<S: Alter>(tx: &mut Transaction<'_, S>, cell: &NewCell<'_>) -> Result<(), Error>
    ensures same_reference { tx.new.conn.ghost_name ≡ tx.old.conn.ghost_name }
    ensures acts { ActsBy (state S.Store tx.old.conn.now) (state S.Store tx.new.conn.now) (is_ok result)
        (step_of cell.now ∷ []) }
{
    write(
        tx,
        "INSERT INTO CELL VALUES (?1, ?2, ?3, ?4)",
        params![cell.table, cell.key, cell.place, cell.value],
    )
}

/// Inserts two new cells.
fn insert_two<S: Alter>(
    tx: &mut Transaction<'_, S>,
    a: &NewCell<'_>,
    b: &NewCell<'_>,
) -> Result<(), Error>
    ensures same_reference { tx.new.conn.ghost_name ≡ tx.old.conn.ghost_name }
    ensures acts { ActsBy (state S.Store tx.old.conn.now) (state S.Store tx.new.conn.now) (is_ok result)
        (step_of a.now ∷ step_of b.now ∷ []) }
{
    write(
        tx,
        "INSERT INTO CELL VALUES (?1, ?2, ?3, ?4), (?5, ?6, ?7, ?8)",
        params![
            a.table, a.key, a.place, a.value, b.table, b.key, b.place, b.value
        ],
    )
}

/// Inserts three new cells.
fn insert_three<S: Alter>(
    tx: &mut Transaction<'_, S>,
    a: &NewCell<'_>,
    b: &NewCell<'_>,
    c: &NewCell<'_>,
) -> Result<(), Error>
    ensures same_reference { tx.new.conn.ghost_name ≡ tx.old.conn.ghost_name }
    ensures acts { ActsBy (state S.Store tx.old.conn.now) (state S.Store tx.new.conn.now) (is_ok result)
        (step_of a.now ∷ step_of b.now ∷ step_of c.now ∷ []) }
{
    write(
        tx,
        "INSERT INTO CELL VALUES (?1, ?2, ?3, ?4), (?5, ?6, ?7, ?8), (?9, ?10, ?11, ?12)",
        params![
            a.table, a.key, a.place, a.value, b.table, b.key, b.place, b.value, c.table, c.key,
            c.place, c.value
        ],
    )
}

/// Inserts four new cells.
fn insert_four<S: Alter>(
    tx: &mut Transaction<'_, S>,
    a: &NewCell<'_>,
    b: &NewCell<'_>,
    c: &NewCell<'_>,
    d: &NewCell<'_>,
) -> Result<(), Error>
    ensures same_reference { tx.new.conn.ghost_name ≡ tx.old.conn.ghost_name }
    ensures acts { ActsBy (state S.Store tx.old.conn.now) (state S.Store tx.new.conn.now) (is_ok result)
        (step_of a.now ∷ step_of b.now ∷ step_of c.now ∷ step_of d.now ∷ []) }
{
    write(
        tx,
        "INSERT INTO CELL VALUES (?1, ?2, ?3, ?4), (?5, ?6, ?7, ?8), (?9, ?10, ?11, ?12), (?13, ?14, ?15, ?16)",
        params![
            a.table, a.key, a.place, a.value, b.table, b.key, b.place, b.value, c.table, c.key,
            c.place, c.value, d.table, d.key, d.place, d.value
        ],
    )
}

/// Sets the value of an existing cell. Returns how many such cells there are: one or none.
fn set_cell<S: Alter>(
    tx: &mut Transaction<'_, S>,
    table: i64,
    key: Datum<'_>,
    place: i64,
    value: Datum<'_>,
) -> Result<usize, Error>
    ensures same_reference { tx.new.conn.ghost_name ≡ tx.old.conn.ghost_name }
    ensures acts { ActsBy (state S.Store tx.old.conn.now) (state S.Store tx.new.conn.now) (is_ok result)
        (step.SetCell table key.entry place value.entry None ∷ []) }
    ensures found { HasCleanDisk (state S.Store tx.new.conn.now) → IsTrue (state S.Store tx.old.conn.now).in_transaction
        → IfOk result (λ n. IsStore (state S.Store tx.old.conn.now).now
        → nat_lt 0 n ≡ list_any (is_at (Int table) (kept key.entry) (Int place))
        (cells (state S.Store tx.old.conn.now).now)) }
{
    change(
        tx,
        "UPDATE CELL SET V = ?4 WHERE TAB = ?1 AND K = ?2 AND C = ?3",
        params![table, key, place, value],
    )
}

/// Sets the value of an existing cell, if the row of CELL with this rowid is that cell. Returns
/// whether it is.
fn set_cell_at<S: Alter>(
    tx: &mut Transaction<'_, S>,
    rowid: i64,
    table: i64,
    key: Datum<'_>,
    place: i64,
    value: Datum<'_>,
) -> Result<bool, Error>
    ensures same_reference { tx.new.conn.ghost_name ≡ tx.old.conn.ghost_name }
    ensures set { result ≡ Ok true
        → ActsBy (state S.Store tx.old.conn.now) (state S.Store tx.new.conn.now) true
        (step.SetCell table key.entry place value.entry (Some rowid) ∷ []) }
    ensures left { result ≡ Ok false → ActsBy (state S.Store tx.old.conn.now) (state S.Store tx.new.conn.now) true [] }
    ensures pending { IsPending (state S.Store tx.old.conn.now) (state S.Store tx.new.conn.now) }
{
    let found = change(
        tx,
        "UPDATE CELL SET V = ?4 WHERE rowid = ?5 AND TAB = ?1 AND K = ?2 AND C = ?3",
        params![table, key, place, value, rowid],
    )?;
    Ok(found > 0)
}

/// Sets the value of an existing cell, which is looked for first in the row of CELL with a rowid,
/// if one is given.
fn set_cell_hinted<S: Alter>(
    tx: &mut Transaction<'_, S>,
    hint: Option<i64>,
    table: i64,
    key: Datum<'_>,
    place: i64,
    value: Datum<'_>,
) -> Result<(), Error>
    ensures same_reference { tx.new.conn.ghost_name ≡ tx.old.conn.ghost_name }
    ensures acts { ActsBy (state S.Store tx.old.conn.now) (state S.Store tx.new.conn.now) (is_ok result)
        (step.SetCell table key.entry place value.entry hint ∷ []) }
{
    if let Some(rowid) = hint {
        if set_cell_at(tx, rowid, table, key, place, value)? {
            return Ok(());
        }
    }
    set_cell(tx, table, key, place, value)?;
    Ok(())
}

/// Deletes the cells of the row of a key. Returns how many there were.
fn delete_row<S: Alter>(
    tx: &mut Transaction<'_, S>,
    table: i64,
    key: Datum<'_>,
) -> Result<usize, Error>
    ensures same_reference { tx.new.conn.ghost_name ≡ tx.old.conn.ghost_name }
    ensures acts { ActsBy (state S.Store tx.old.conn.now) (state S.Store tx.new.conn.now) (is_ok result)
        (step.DeleteRow table key.entry ∷ []) }
    ensures found { HasCleanDisk (state S.Store tx.new.conn.now) → IsTrue (state S.Store tx.old.conn.now).in_transaction
        → IfOk result (λ n. IsStore (state S.Store tx.old.conn.now).now
        → nat_lt 0 n ≡ list_any (is_of (Int table) (kept key.entry)) (cells (state S.Store tx.old.conn.now).now)) }
{
    change(
        tx,
        "DELETE FROM CELL WHERE TAB = ?1 AND K = ?2",
        params![table, key],
    )
}

/// Deletes the cells of a table.
fn delete_cells<S: Alter>(tx: &mut Transaction<'_, S>, table: i64) -> Result<(), Error>
    ensures same_reference { tx.new.conn.ghost_name ≡ tx.old.conn.ghost_name }
    ensures acts { ActsBy (state S.Store tx.old.conn.now) (state S.Store tx.new.conn.now) (is_ok result)
        (step.DeleteCells table ∷ []) }
{
    write(tx, "DELETE FROM CELL WHERE TAB = ?1", params![table])
}

/// Inserts a new table.
fn insert_tab<S: Alter>(
    tx: &mut Transaction<'_, S>,
    id: i64,
    name: &str,
    text: &str,
) -> Result<(), Error>
    ensures same_reference { tx.new.conn.ghost_name ≡ tx.old.conn.ghost_name }
    ensures acts { ActsBy (state S.Store tx.old.conn.now) (state S.Store tx.new.conn.now) (is_ok result)
        (step.InsertTab id name.entry text.entry ∷ []) }
{
    write(
        tx,
        "INSERT INTO TAB VALUES (?1, ?2, ?3)",
        params![id, name, text],
    )
}

/// Deletes the name and the text of a table.
fn delete_tab<S: Alter>(tx: &mut Transaction<'_, S>, id: i64) -> Result<(), Error>
    ensures same_reference { tx.new.conn.ghost_name ≡ tx.old.conn.ghost_name }
    ensures acts { ActsBy (state S.Store tx.old.conn.now) (state S.Store tx.new.conn.now) (is_ok result)
        (step.DeleteTab id ∷ []) }
{
    write(tx, "DELETE FROM TAB WHERE ID = ?1", params![id])
}

/// Does one step.
fn do_step<S: Alter>(tx: &mut Transaction<'_, S>, step: &Step<'_>) -> Result<(), Error>
    ensures same_reference { tx.new.conn.ghost_name ≡ tx.old.conn.ghost_name }
    ensures acts { ActsBy (state S.Store tx.old.conn.now) (state S.Store tx.new.conn.now) (is_ok result)
        (step.now ∷ []) }
{
    match *step {
        Step::InsertCell {
            table,
            key,
            place,
            value,
        } => insert_cell(
            tx,
            &NewCell {
                table,
                key,
                place,
                value,
            },
        ),
        Step::SetCell {
            table,
            key,
            place,
            value,
            hint,
        } => set_cell_hinted(tx, hint, table, key, place, value),
        Step::DeleteRow { table, key } => {
            delete_row(tx, table, key)?;
            Ok(())
        }
        Step::DeleteCells { table } => delete_cells(tx, table),
        Step::InsertTab { id, name, text } => insert_tab(tx, id, name, text),
        Step::DeleteTab { id } => delete_tab(tx, id),
    }
}

/// Does one step. Returns whether it found a cell, if it goes by a key.
pub(crate) fn do_finding<S: Alter>(
    tx: &mut Transaction<'_, S>,
    step: &Step<'_>,
) -> Result<bool, Error>
    ensures same_reference { tx.new.conn.ghost_name ≡ tx.old.conn.ghost_name }
    ensures acts { ActsBy (state S.Store tx.old.conn.now) (state S.Store tx.new.conn.now) (is_ok result)
        (step.now ∷ []) }
    ensures found { HasCleanDisk (state S.Store tx.new.conn.now) → IsTrue (state S.Store tx.old.conn.now).in_transaction
        → IfOk result (λ found. IsStore (state S.Store tx.old.conn.now).now
        → found ≡ finds step.now (cells (state S.Store tx.old.conn.now).now)) }
{
    match *step {
        Step::SetCell {
            table,
            key,
            place,
            value,
            hint: _,
        } => {
            let found = set_cell(tx, table, key, place, value)?;
            Ok(found > 0)
        }
        Step::DeleteRow { table, key } => {
            let found = delete_row(tx, table, key)?;
            Ok(found > 0)
        }
        _ => {
            do_step(tx, step)?;
            Ok(true)
        }
    }
}

/// The most new cells that one statement inserts.
pub(crate) const TOGETHER: usize = 4;

/// Does steps, one after another. If they are few and all insert cells, they are one statement.
pub(crate) fn do_steps<S: Alter>(
    tx: &mut Transaction<'_, S>,
    steps: &[Step<'_>],
) -> Result<(), Error>
    ensures same_reference { tx.new.conn.ghost_name ≡ tx.old.conn.ghost_name }
    ensures acts { ActsBy (state S.Store tx.old.conn.now) (state S.Store tx.new.conn.now) (is_ok result) steps.now }
{
    if let [a, b] = steps {
        if let (Some(a), Some(b)) = (NewCell::of(a), NewCell::of(b)) {
            return insert_two(tx, &a, &b);
        }
    }
    if let [a, b, c] = steps {
        if let (Some(a), Some(b), Some(c)) = (NewCell::of(a), NewCell::of(b), NewCell::of(c)) {
            return insert_three(tx, &a, &b, &c);
        }
    }
    if let [a, b, c, d] = steps {
        if let (Some(a), Some(b), Some(c), Some(d)) = (
            NewCell::of(a),
            NewCell::of(b),
            NewCell::of(c),
            NewCell::of(d),
        ) {
            return insert_four(tx, &a, &b, &c, &d);
        }
    }
    do_each(tx, steps)
}

/// Does steps, each as its own statement.
fn do_each<S: Alter>(tx: &mut Transaction<'_, S>, steps: &[Step<'_>]) -> Result<(), Error>
    ensures same_reference { tx.new.conn.ghost_name ≡ tx.old.conn.ghost_name }
    ensures acts { ActsBy (state S.Store tx.old.conn.now) (state S.Store tx.new.conn.now) (is_ok result) steps.now }
{
    for step in steps {
        do_step(tx, step)?;
    }
    Ok(())
}
