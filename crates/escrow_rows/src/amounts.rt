ghost use Rattle.std.specs.Prelude.{◌≡◌, IfOk, OnOk, is_ok, drop, fold, option_map};
ghost use Rattle.sqlite.specs.Held.{state};
ghost use Rattle.escrow_num.specs.declared.value.Value.TheVariants.{Number};
ghost use Rattle.escrow_cells.specs.Calls.{Transacts};
ghost use Rattle.escrow_cells.specs.Step.{Contents, done, kept};
ghost use Rattle.escrow_rows.specs.Changes.{PutsAmounts};
ghost use Rattle.escrow_rows.specs.Image.{stored};
ghost use Rattle.escrow_rows.specs.Inside.{all_on, amounts_on, first_new, on_cells};

use crate::cell::push_cell;
use crate::datum::datum;
use crate::rowids::{Rowids, rowid_at};
use crate::store::RowStore;
use escrow_cells::{Datum, Step, run};
use escrow_num::{Amount, Changes, Failure, Value};
use escrow_schema::StoredTable;
use sqlite::Alter;
use std::alloc::{AllocError, Global};

/// New amounts of the row of a key.
#[derive(Debug, Drop)]
pub struct NewAmounts<'a> {
    /// The row's table.
    pub table: &'a StoredTable,
    /// Its key.
    pub key: &'a Value,
    /// For each RESERVABLE column, in column order, its new amount, or `None` if it stays.
    pub amounts: Changes,
}

impl<S: Alter> RowStore<S> {
    /// Writes new amounts into rows, in one transaction.
    pub fn put_amounts(&mut self, alloc: Global, news: &[NewAmounts<'_>]) -> Result<(), Failure>
        ensures { Transacts (state S.Store self.old) (state S.Store self.new) (is_ok result) (PutsAmounts news.now) }
    {
        let steps = all_steps(alloc, &self.rowids, news)?;
        run(&mut self.conn, steps.as_slice())
    }
}

/// Returns the steps that write new amounts.
fn all_steps<'a>(
    alloc: Global,
    rowids: &Rowids,
    news: &[NewAmounts<'a>],
) -> Result<Vec<Step<'a>>, AllocError>
    ensures { IfOk result (λ steps. (c : Contents) → fold done c steps.items ≡ all_on news.now c) }
{
    let mut steps = Vec::with_capacity(alloc, news.len())?;
    for new in news {
        push_steps(&mut steps, rowids.before(new.table.id, new.key), new)?;
    }
    Ok(steps)
}

/// Adds the steps that write new amounts into one row.
fn push_steps<'a>(
    steps: &mut Vec<Step<'a>>,
    before: Option<i64>,
    new: &NewAmounts<'a>,
) -> Result<(), AllocError>
    ensures { OnOk result ((c : Contents)
        → fold done c steps.new.items ≡ on_cells (amounts_on new.now) (fold done c steps.old.items)) }
{
    let mut at = 0;
    for (i, column) in new.table.table.columns.as_slice().iter().enumerate() {
        if column.reservable {
            push_cell(
                steps,
                new.table.id,
                datum(new.key),
                i,
                amount_at(new.amounts.as_slice(), at),
                rowid_at(before, i),
            )?;
            at += 1;
        }
    }
    Ok(())
}

/// Returns the new amount at a place, if there is one.
fn amount_at(amounts: &[Option<Amount>], at: usize) -> Option<Datum<'static>>
    ensures { option_map kept result ≡ option_map stored (option_map Number (first_new (drop at amounts.now))) }
{
    match amounts.get(at) {
        Some(Some(amount)) => Some(Datum::Number(amount.get())),
        _ => None,
    }
}
