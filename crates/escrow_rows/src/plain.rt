ghost use Rattle.std.specs.Prelude.{◌≡◌, IfOk, drop, option_map};
ghost use Rattle.std.specs.List.{AllByRecursion};
ghost use Rattle.escrow_cells.specs.Step.{kept};
ghost use Rattle.escrow_rows.specs.Image.{stored};
ghost use Rattle.escrow_rows.specs.Inside.{Change, SetsCellOf, first_new, plain_on};

use crate::cell::push_cell;
use crate::datum::datum;
use crate::store::RowStore;
use escrow_cells::{Datum, Step, run_if_found};
use escrow_num::{Failure, Value};
use escrow_schema::StoredTable;
use sqlite::Alter;
use std::alloc::{AllocError, Global};

impl<S: Alter> RowStore<S> {
    ghost use Rattle.std.specs.Prelude.{◌≡◌, false, IsTrue, Ok};
    ghost use Rattle.sqlite.specs.Held.{state};
    ghost use Rattle.sqlite.specs.State.{HasCleanDisk};
    ghost use Rattle.escrow_cells.specs.Calls.{Transacts, was_done};
    ghost use Rattle.escrow_rows.specs.Answers.{Tells};
    ghost use Rattle.escrow_rows.specs.Changes.{SetsPlain, is_there};

    /// Replaces plain values of the row of a key, if the row exists. For each column that is
    /// neither RESERVABLE nor the key, in column order, there is a new value, or `None` if the
    /// value stays. Returns whether the row exists. Fails if no value is new; the store isn't asked
    /// then.
    pub fn set_plain(
        &mut self,
        alloc: Global,
        table: &StoredTable,
        key: &Value,
        values: &[Option<Value>],
    ) -> Result<bool, Failure>
        ensures writes { Transacts (state S.Store self.old) (state S.Store self.new) (was_done result)
            (SetsPlain table.now key.now values.now) }
        ensures none { HasCleanDisk (state S.Store self.new) → result ≡ Ok false
            → IsTrue (state S.Store self.old).is_open
            × Tells table.now (is_there table.now key.now) (state S.Store self.old).now false }
    {
        let steps = plain_steps(alloc, table, key, values)?;
        let Some((first, rest)) = steps.as_slice().split_first() else {
            return Err(Failure::Store);
        };
        run_if_found(&mut self.conn, first, rest)
    }
}

/// Returns the steps that replace plain values of a row.
fn plain_steps<'a>(
    alloc: Global,
    table: &StoredTable,
    key: &'a Value,
    values: &'a [Option<Value>],
) -> Result<Vec<Step<'a>>, AllocError>
    ensures change { IfOk result (λ steps. Change steps.items (plain_on table.now key.now values.now)) }
    ensures sets { IfOk result (λ steps. AllByRecursion (SetsCellOf table.now key.now) steps.items) }
{
    let mut steps = Vec::new(alloc);
    let mut at = 0;
    for (i, column) in table.table.columns.as_slice().iter().enumerate() {
        if !column.reservable && i != table.table.key {
            push_cell(
                &mut steps,
                table.id,
                datum(key),
                i,
                plain_at(values, at),
                None,
            )?;
            at += 1;
        }
    }
    Ok(steps)
}

/// Returns the new value at a place, if there is one.
fn plain_at(values: &[Option<Value>], at: usize) -> Option<Datum<'_>>
    ensures { option_map kept result ≡ option_map stored (first_new (drop at values.now)) }
{
    match values.get(at) {
        Some(Some(value)) => Some(datum(value)),
        _ => None,
    }
}
