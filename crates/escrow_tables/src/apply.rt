ghost use Rattle.std.specs.Prelude.{◌≡◌, ◌<◌, ◌+ℤ◌, List, ◌∷◌, map, length, is_ok, IfOk, IfSome, OnOk};
ghost use Rattle.std.specs.List.{AllByRecursion};
ghost use Rattle.sqlite.specs.Held.{state};
ghost use Rattle.sqlite.specs.State.{HasCleanDisk};
ghost use Rattle.escrow_num.specs.Reservation.{deltas};
ghost use Rattle.escrow_num.specs.declared.row.Row.{Row};
ghost use Rattle.escrow_checks.specs.Form.{changed, all_changed};
ghost use Rattle.escrow_schema.specs.Rows.{applied, replaced};
ghost use Rattle.escrow_rows.specs.Changes.{Stands};
ghost use Rattle.escrow_tables.specs.Calls.{AreGiven, Writes};
ghost use Rattle.escrow_tables.specs.Inside.{stored_of};
ghost use Rattle.escrow_tables.specs.Puts.{ArePuts, TellsPut, row_put};
ghost use Rattle.escrow_tables.specs.RowChanges.{added_by, row_of};
ghost use Rattle.escrow_tables.specs.declared.changed_rows.RowChange.{RowChange as Change};

use crate::changed_rows::{RowChange, put_in_order, row_changes};
use crate::tables::Tables;
use escrow_num::{Amount, Changes, Failure, Reservation, Seq};
use escrow_rows::NewAmounts;
use escrow_schema::{CountedTable, find_by_name};
use sqlite::Alter;
use std::alloc::{AllocError, Global};
use std::snapshot::Snapshot;

impl<S: Alter> Tables<S> {
    /// COMMIT: adds the changes of reservations to the amounts of their rows, in one transaction.
    /// The caller also gives the amounts that each reservation's row has, so no row is read. Each
    /// amount that changes is written once.
    pub fn apply(
        &mut self,
        alloc: Global,
        reservations: &[&Reservation],
        before: &[&[Amount]],
    ) -> Result<(), Failure>
        requires many { length before.now ≡ length reservations.now }
        requires given { HasCleanDisk (state S.Store self.old.store)
            → AreGiven self.old.rows (map (λ r. r.now) reservations.now) (map (λ amounts. amounts.now) before.now) }
        ensures { Writes S.Store self.old self.new (is_ok result) self.old.catalog
            (applied self.old.rows (map (λ r. r.now) reservations.now)) }
    {
        let news = news_by(alloc, self.catalog.tables(), reservations, before)?;
        self.store.put_amounts(alloc, news.as_slice())?;
        self.last = Snapshot::of(&self.store);
        Ok(())
    }
}

/// Returns the new amounts of each row that has one of the reservations. The caller also gives the
/// amounts that each reservation's row has. The reservations of a row are brought together first,
/// so that each is looked at once.
fn news_by<'a>(
    alloc: Global,
    tables: &'a [CountedTable],
    reservations: &'a [&Reservation],
    before: &'a [&[Amount]],
) -> Result<Vec<NewAmounts<'a>>, Failure>
    requires { length before.now ≡ length reservations.now }
    ensures puts { IfOk result (λ news. ArePuts (stored_of tables.now) (map (λ r. r.now) reservations.now) news.items) }
    ensures told { IfOk result
        (λ news. (rows : List Row)
        → AreGiven rows (map (λ r. r.now) reservations.now) (map (λ amounts. amounts.now) before.now)
        → AllByRecursion (TellsPut rows (map (λ r. r.now) reservations.now)) news.items) }
{
    let mut changes = row_changes(alloc, reservations, before)?;
    put_in_order(&mut changes)?;
    let mut news = Vec::new(alloc);
    for of_row in changes.chunk_by(|a, b| a.reservation.row.is_same(&b.reservation.row)) {
        news.push(new_of(alloc, tables, of_row)?)?;
    }
    Ok(news)
}

/// Returns the new amounts that changes of one row give to it. If its table isn't there, or a sum is
/// no amount, somebody else has changed the store.
fn new_of<'a>(
    alloc: Global,
    tables: &'a [CountedTable],
    changes: &[RowChange<'a>],
) -> Result<NewAmounts<'a>, Failure>
    requires { 0 < length changes.now }
    ensures stands { IfOk result (λ new. Stands (stored_of tables.now) new.table.now) }
    ensures row { IfOk result
        (λ new. (first : Change) (others : List Change) → changes.now ≡ first ∷ others → row_put new ≡ row_of first) }
    ensures amounts { IfOk result (λ new. (first : Change) (others : List Change) → changes.now ≡ first ∷ others
        → replaced new.amounts first.before.now ≡ all_changed first.before.now (map added_by changes.now)) }
{
    let RowChange {
        reservation,
        before,
    } = changes[0];
    let name = &reservation.row;
    let Some(counted) = find_by_name(tables, name.table) else {
        return Err(Failure::Store);
    };
    Ok(NewAmounts {
        table: &counted.stored,
        key: &name.key,
        amounts: new_amounts(alloc, before, changes)?,
    })
}

/// Returns the new amounts that changes give to a row that has these amounts; `None` for an amount
/// that stays.
fn new_amounts(
    alloc: Global,
    before: &[Amount],
    changes: &[RowChange<'_>],
) -> Result<Changes, Failure>
    ensures { IfOk result (λ news. replaced news before.now ≡ all_changed before.now (map added_by changes.now)) }
{
    let mut after = copied(alloc, before)?;
    for change in changes {
        add_changes(&mut after, change.reservation.changes.as_slice())?;
    }
    Ok(differing(alloc, before, after.as_slice())?)
}

/// Returns a copy of amounts.
fn copied(alloc: Global, amounts: &[Amount]) -> Result<Seq<Amount>, AllocError>
    ensures { IfOk result (λ copy. copy ≡ amounts.now) }
{
    let mut copy = Vec::with_capacity(alloc, amounts.len())?;
    copy.extend_from_slice(amounts)?;
    Ok(Seq::from_vec(copy))
}

/// Adds changes to amounts, column by column. Fails if a sum is no amount.
fn add_changes(amounts: &mut Seq<Amount>, changes: &[Option<Amount>]) -> Result<(), Failure>
    ensures { OnOk result (amounts.new ≡ changed amounts.old (deltas changes.now)) }
{
    for (i, change) in changes.iter().enumerate() {
        if i < amounts.len() {
            let Some(sum) = sum(amounts.as_slice()[i], change.unwrap_or(Amount::ZERO)) else {
                return Err(Failure::Store);
            };
            amounts.set(i, sum);
        }
    }
    Ok(())
}

/// Returns the sum of two amounts, if it is an amount.
fn sum(a: Amount, b: Amount) -> Option<Amount>
    ensures { IfSome result (λ sum. sum ≡ a +ℤ b) }
{
    Amount::new(a.get() + b.get())
}

/// Returns the amounts that differ from those before; `None` for an amount that is the same.
fn differing(alloc: Global, before: &[Amount], after: &[Amount]) -> Result<Changes, AllocError>
    ensures { IfOk result (λ news. length before.now ≡ length after.now → replaced news before.now ≡ after.now) }
{
    let mut news = Changes::new(alloc);
    for (old, new) in before.iter().zip(after) {
        news.push(if old == new { None } else { Some(*new) })?;
    }
    Ok(news)
}
