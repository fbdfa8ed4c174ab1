//! Places whose table's checks are altered.
ghost use Rattle.std.specs.Prelude.{◌≡◌, ℕ, List, [], ◌∷◌, ◌++◌, ◌<◌, ◌≤◌, IfOk, IfErr, OnOk, IsSome, Some, true, false, length, map, bytes_eq, option_map};
ghost use Rattle.std.specs.List.{AllByRecursion};
ghost use Rattle.escrow_num.specs.declared.reservation.Reservation.{Reservation};
ghost use Rattle.escrow_num.specs.declared.refusal.Refusal.{Refusal};
ghost use Rattle.escrow_num.specs.declared.value.RowName.{RowName};
ghost use Rattle.escrow_checks.specs.Form.{IsCovered};
ghost use Rattle.escrow_checks.specs.declared.coefficients.TheConstants.Coefficients.{MAX_LEN};
ghost use Rattle.escrow_checks.specs.declared.spread.TheConstants.Spread.{MAX_OPEN};
ghost use Rattle.escrow_bounds.specs.Altered.{TableGoes, IsWithout, ArePrepared, Adopts};
ghost use Rattle.escrow_bounds.specs.Filling.{AreFilled};
ghost use Rattle.escrow_bounds.specs.Held.{of_row, CountsAll, AllCount};
ghost use Rattle.escrow_bounds.specs.Place.{Place};
ghost use Rattle.escrow_bounds.specs.Bounds.{place_at, OthersStay};

use super::{Addition, Bounds};
use crate::changes::deltas;
use crate::place::Place;
use escrow_checks::Check;
use escrow_num::{Name, Refusal, Reservation, RowName};
use std::alloc::AllocError;

impl Bounds {
    /// Makes places for a table's reserved rows over all checks that the table will have, beside
    /// the current places. They count the open reservations, which are given: of each row at most
    /// 16,384, each with at most 10 changes. Fails only if memory is refused (51).
    pub fn prepare(
        &self,
        table: Name,
        checks: &[Check],
        reservations: &[&Reservation],
    ) -> Result<Addition, Refusal>
        requires counted { CountsAll self.now (map (λ r. r.now) reservations.now) }
        requires counting { AllCount self.now }
        requires short { AllByRecursion (λ r. length r.now.changes ≤ MAX_LEN) reservations.now }
        requires many { (row : RowName) → length (of_row row (map (λ r. r.now) reservations.now)) ≤ MAX_OPEN }
        requires few { (row : RowName) (place : Place) → bytes_eq row.table table ≡ true
            → place_at self.now row ≡ Some place
            → length place.amounts ≤ MAX_LEN }
        requires covered { (row : RowName) (place : Place) → bytes_eq row.table table ≡ true
            → place_at self.now row ≡ Some place
            → AllByRecursion (λ check. IsCovered check.coeffs place.amounts) checks.now }
        ensures prepared { IfOk result
            (λ addition. ArePrepared table checks.now (map (λ r. r.now) reservations.now) self.now addition) }
        ensures only { IfErr result (λ e. e ≡ Refusal.Memory) }
    {
        let mut filled = Bounds::new(*self.places.allocator());
        for r in reservations {
            filled.take_over(self, table, checks, r)?;
        }
        Ok(Addition::new(filled))
    }

    /// Replaces places by those that an addition has for their rows. Takes no memory.
    pub fn adopt(&mut self, mut addition: Addition)
        ensures { Adopts addition self.old self.new }
    {
        while let Some((row, place)) = addition.pop() {
            self.put(&row, place);
        }
    }

    /// Removes the check at an index from each place of a table. A place without such a check stays
    /// as it is. Takes no memory.
    pub fn drop_check(&mut self, table: Name, index: usize)
        ensures { TableGoes table (λ row. IsWithout index) self.old self.new }
    {
        for i in 0..self.places.len() {
            let (row, place) = self.places.pair_mut(i);
            drop_check_of(row, place, table, index);
        }
    }

    /// Counts a reservation, if it is of a table, in the place of its row. If the row has no place
    /// yet, one is made over the checks, with the amounts that the row's place among other places
    /// has.
    fn take_over(
        &mut self,
        placed: &Bounds,
        table: Name,
        checks: &[Check],
        r: &Reservation,
    ) -> Result<(), AllocError>
        requires placed { IsSome (place_at placed.now r.now.row) }
        requires few { (row : RowName) (place : Place) → bytes_eq row.table table ≡ true
            → place_at placed.now row ≡ Some place
            → length place.amounts ≤ MAX_LEN }
        requires covered { (row : RowName) (place : Place) → bytes_eq row.table table ≡ true
            → place_at placed.now row ≡ Some place
            → AllByRecursion (λ check. IsCovered check.coeffs place.amounts) checks.now }
        requires short { length r.now.changes ≤ MAX_LEN }
        requires room { (place : Place) → place_at self.old r.now.row ≡ Some place → place.count < MAX_OPEN }
        ensures { OnOk result ((held : List Reservation) → AreFilled table checks.now held placed.now self.old
            → AreFilled table checks.now (held ++ r.now ∷ []) placed.now self.new) }
    {
        if r.row.table != table {
            return Ok(());
        }
        self.reserve(&r.row, placed.place(&r.row).amounts(), checks)?;
        let changes = deltas(r.changes.as_slice());
        self.add(&r.row, &changes[..r.changes.len()]);
        Ok(())
    }

    /// Replaces a row's place. If the row has none, the new place is dropped.
    fn put(&mut self, row: &RowName, place: Place)
        ensures own { place_at self.new row.now ≡ option_map (λ _. place) (place_at self.old row.now) }
        ensures others { OthersStay row.now self.old self.new }
    {
        if let Some(old) = self.places.get_mut(row) {
            *old = place;
        }
    }
}

/// Removes the check at an index from a row's place, if the row is of a table.
fn drop_check_of(row: &RowName, place: &mut Place, table: Name, index: usize)
    ensures own { bytes_eq row.now.table table ≡ true → IsWithout index place.old place.new }
    ensures others { bytes_eq row.now.table table ≡ false → place.new ≡ place.old }
{
    if row.table == table {
        place.drop_check(index);
    }
}
