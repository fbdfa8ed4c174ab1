ghost use Rattle.std.specs.Prelude.{◌≡◌, ℤ, List, [], ◌∷◌, ◌++◌, ◌+◌, ◌<◌, ◌≤◌, IfOk, OnOk, Some, length, take, drop, pos, slice_get, slice_index_or};
ghost use Rattle.std.specs.List.{AllByRecursion};
ghost use Rattle.escrow_checks.specs.Extremes.{least, greatest};
ghost use Rattle.escrow_checks.specs.Form.{IsCovered};
ghost use Rattle.escrow_checks.specs.Grant.{broken};
ghost use Rattle.escrow_checks.specs.declared.coefficients.TheConstants.Coefficients.{MAX_LEN};
ghost use Rattle.escrow_checks.specs.declared.spread.TheConstants.Spread.{MAX_OPEN};
ghost use Rattle.escrow_bounds.specs.Altered.{IsWithout};
ghost use Rattle.escrow_bounds.specs.Columns.{unit_form};
ghost use Rattle.escrow_bounds.specs.Counts.{Counts, IsNew, TakesIn, GivesBack};
ghost use Rattle.escrow_bounds.specs.Held.{of_row};
ghost use Rattle.escrow_bounds.specs.Place.{Tracked, checks_of};
ghost use Rattle.escrow_bounds.specs.Moved.{moved, all_moved, amounts_after_all};
ghost use Rattle.escrow_bounds.specs.Recounting.{CanRecount, IsRecounted};

use crate::changes::deltas;
use crate::sums::{
    Counting, Sum, all_spreads, all_sums, all_values, column_check, first_violation, recount,
    recount_columns, revalue,
};
use escrow_checks::{Check, Sparse, Spread};
use escrow_num::{Amount, End, Reservation, RowName, Seq, Violation, Wide};
use std::alloc::{AllocError, Global};
use std::marker::Model;
use std::sync::Arc;

/// What is kept of a row: its committed amounts, the number of its open reservations, and their
/// spread under each check and each RESERVABLE column. It also keeps the value of each check's form
/// at the amounts. The checks are in a list, which all rows of the table share.
#[derive(Debug)]
pub struct Place {
    amounts: Vec<Amount>,
    count: usize,
    list: Arc<Seq<Check>>,
    sums: Vec<Sum>,
    values: Vec<Wide>,
    columns: Vec<Spread>,
}

// Written out, so that crates above need not prove again how its parts are dropped.
impl Drop for Place {
    fn drop(self) {
        let Place {
            amounts: _,
            count: _,
            list: _,
            sums: _,
            values: _,
            columns: _,
        } = self;
    }
}

impl Model for Place {
    ghost use Rattle.std.specs.Prelude.{◌≡◌, ◌≤◌, length, map};
    ghost use Rattle.std.specs.List.{AllByRecursion};
    ghost use Rattle.escrow_checks.specs.Contribution.{IsContribution};
    ghost use Rattle.escrow_checks.specs.Form.{form};
    ghost use Rattle.escrow_checks.specs.declared.check.Check.{Check};
    ghost use Rattle.escrow_checks.specs.declared.coefficients.TheConstants.Coefficients.{MAX_LEN};
    ghost use Rattle.escrow_bounds.specs.Inside.{place_of, IsPlace};
    ghost use Rattle.escrow_bounds.specs.Listed.{AreListed};
    ghost use Rattle.escrow_bounds.specs.Place.{Place, checks_of};

    ghost Value = { Place };

    ghost view = { λ p. place_of p };

    ghost invariant = { λ p. IsPlace (place_of p)
        × (p.values.items ≡ map (λ (check : Check). form check.coeffs p.amounts.items) (checks_of (place_of p).checks))
        × AllByRecursion IsContribution p.values.items
        × AreListed p.list.value p.sums.items
        × (length p.amounts.items ≤ MAX_LEN) };
}

impl Place {
    /// Returns the place of a row that has no open reservation, over all checks of a list.
    pub(crate) fn new(
        alloc: Global,
        amounts: &[Amount],
        list: Arc<Seq<Check>>,
    ) -> Result<Place, AllocError>
        requires covered { AllByRecursion (λ check. IsCovered check.coeffs amounts.now) list.value }
        requires few { length amounts.now ≤ MAX_LEN }
        ensures { IfOk result (λ place. IsNew amounts.now list.value place) }
    {
        Ok(Place {
            amounts: Vec::from_slice(alloc, amounts)?,
            count: 0,
            sums: all_sums(alloc, list.as_slice())?,
            values: all_values(alloc, list.as_slice(), amounts)?,
            columns: all_spreads(alloc, amounts.len())?,
            list,
        })
    }

    /// Returns the committed amounts.
    pub(crate) fn amounts(&self) -> &[Amount]
        ensures { result.now ≡ self.now.amounts }
    {
        &self.amounts
    }

    /// Returns how many reservations are counted.
    pub(crate) fn count(&self) -> usize
        ensures { result ≡ self.now.count }
    {
        self.count
    }

    /// Returns the least and the greatest value of the form of the check at an index.
    pub(crate) fn worst(&self, check: usize) -> (Wide, Wide)
        requires { check < length self.now.checks }
        ensures { (form : Tracked) (reservations : List (List ℤ)) → slice_get self.now.checks check ≡ Some form
            → Counts self.now reservations
            → (result.0 ≡ least form.check.coeffs self.now.amounts reservations)
            × (result.1 ≡ greatest form.check.coeffs self.now.amounts reservations) }
    {
        let sum = &self.sums[check];
        let form = &self.list.as_slice()[sum.check];
        form.extremes(&self.amounts, &sum.spread)
    }

    /// Returns the least and the greatest value of a column.
    pub(crate) fn inf_sup(&self, column: usize) -> (Wide, Wide)
        requires { column < length self.now.amounts }
        ensures { (reservations : List (List ℤ)) → Counts self.now reservations
            → (result.0 ≡ least (unit_form (length self.now.amounts) column) self.now.amounts reservations)
            × (result.1 ≡ greatest (unit_form (length self.now.amounts) column) self.now.amounts reservations) }
    {
        let spread = &self.columns[column];
        column_check(self.amounts.len(), column).extremes(&self.amounts, spread)
    }

    /// Returns what changes would break of the first check that they can break, if any.
    pub(crate) fn verdict(&self, changes: &[Amount]) -> Option<Violation>
        ensures { (reservations : List (List ℤ)) → Counts self.now reservations
            → result ≡ broken (checks_of self.now.checks) self.now.amounts changes.now reservations }
    {
        first_violation(self.list.as_slice(), &self.sums, &self.values, changes)
    }

    /// Returns what the counted reservations could break of the first check that they can break, if
    /// any, among some consecutive checks.
    pub(crate) fn violation(&self, first: usize, count: usize) -> Option<Violation>
        requires { first + count ≤ length self.now.checks }
        ensures { (reservations : List (List ℤ)) → Counts self.now reservations
            → result ≡ broken (take count (drop first (checks_of self.now.checks))) self.now.amounts [] reservations }
    {
        first_violation(
            self.list.as_slice(),
            &self.sums[first..first + count],
            &self.values[first..first + count],
            &[],
        )
    }

    /// Removes the check at an index. If there is none, nothing changes.
    pub(crate) fn drop_check(&mut self, index: usize)
        ensures { IsWithout index self.old self.new }
    {
        if index < self.sums.len() {
            self.sums.remove(index);
            self.values.remove(index);
        }
    }

    /// Counts one more reservation.
    pub(crate) fn take_in(&mut self, changes: &[Amount])
        requires { self.old.count < MAX_OPEN }
        ensures { TakesIn changes.now self.old self.new }
    {
        self.recount(changes, Counting::In);
    }

    /// Removes one of its reservations from the count. If it is committed, its changes are added to
    /// the committed amounts.
    pub(crate) fn give_back(&mut self, changes: &[Amount], end: End)
        requires { (before after : List (List ℤ)) × Counts self.old (before ++ changes.now ∷ after) }
        ensures { GivesBack end changes.now self.old self.new }
    {
        self.recount(changes, Counting::Out);
        match end {
            End::Commit => self.commit(changes),
            End::Rollback => {}
        }
    }

    /// Counts one more reservation, or removes one from the count.
    fn recount(&mut self, changes: &[Amount], counting: Counting)
        requires { CanRecount counting changes.now self.old }
        ensures { IsRecounted counting changes.now self.old self.new }
    {
        let changes = Sparse::of(changes);
        recount(self.list.as_slice(), &mut self.sums, &changes, counting);
        recount_columns(&mut self.columns, &changes, counting);
        self.count = counting.number(self.count);
    }

    /// Adds changes to the committed amounts.
    fn commit(&mut self, changes: &[Amount])
        ensures { self.new ≡ record self.old { amounts = all_moved self.old.amounts changes.now } }
    {
        move_all(&mut self.amounts, changes);
        revalue(
            &mut self.values,
            self.list.as_slice(),
            &self.sums,
            &self.amounts,
        );
    }
}

/// Adds to the amounts of a row the changes of its reservations, as their COMMITs do, one after
/// another. Reservations of other rows add nothing.
pub fn commit_amounts(amounts: &mut [Amount], row: &RowName, reservations: &[Reservation])
    requires { AllByRecursion (λ r. length r.changes ≤ MAX_LEN) reservations.now }
    ensures { amounts.new ≡ amounts_after_all End.Commit amounts.old (of_row row.now reservations.now) }
{
    for r in reservations {
        if row.is_same(&r.row) {
            let changes = deltas(r.changes.as_slice());
            move_all(amounts, &changes[..r.changes.len()]);
        }
    }
}

/// Adds changes to amounts, column by column. If a sum would be no amount, the amount stays as it
/// is.
fn move_all(amounts: &mut [Amount], changes: &[Amount])
    ensures { amounts.new ≡ all_moved amounts.old changes.now }
{
    for (i, amount) in amounts.iter_mut().enumerate() {
        *amount = moved(*amount, change_at(changes, i));
    }
}

/// Returns the change of the column at an index, or zero if it isn't listed.
fn change_at(changes: &[Amount], index: usize) -> Amount
    ensures { result ≡ slice_index_or changes.now index (pos 0) }
{
    changes.get(index).copied().unwrap_or(Amount::ZERO)
}

/// Returns an amount with a change added, or the amount alone if the sum would be no amount.
fn moved(amount: Amount, change: Amount) -> Amount
    ensures { result ≡ moved amount change }
{
    Amount::new(amount.get() + change.get()).unwrap_or(amount)
}
