ghost use Rattle.std.specs.Prelude.{◌≡◌, ℤ, List, [], ◌∷◌, ◌++◌, ◌<◌, ◌≤◌, true, false, IfOk, IfSome, OnOk, OnErr, IsSome, Some, None, is_some, length, option_copied, option_map, slice_get, bytes_eq, nat_le};
ghost use Rattle.std.specs.List.{AllByRecursion, list_any};
ghost use Rattle.escrow_num.specs.declared.reservation.Reservation.{Reservation};
ghost use Rattle.escrow_num.specs.declared.value.RowName.{RowName};
ghost use Rattle.escrow_checks.specs.Extremes.{least, greatest};
ghost use Rattle.escrow_checks.specs.Form.{IsCovered};
ghost use Rattle.escrow_checks.specs.Grant.{broken};
ghost use Rattle.escrow_checks.specs.declared.coefficients.TheConstants.Coefficients.{MAX_LEN};
ghost use Rattle.escrow_checks.specs.declared.spread.TheConstants.Spread.{MAX_OPEN};
ghost use Rattle.escrow_bounds.specs.At.{IsAt};
ghost use Rattle.escrow_bounds.specs.Columns.{unit_form};
ghost use Rattle.escrow_bounds.specs.Counts.{Counts, is_counting, IsNew, TakesIn, GivesBack};
ghost use Rattle.escrow_bounds.specs.Ended.{AreEnded};
ghost use Rattle.escrow_bounds.specs.Held.{CountsAll, AllCount};
ghost use Rattle.escrow_bounds.specs.Place.{Place, Tracked, checks_of};
ghost use Rattle.escrow_bounds.specs.Bounds.{place_at, OthersStay, Becomes};
ghost use Rattle.escrow_bounds.specs.Verdict.{verdict_of};

mod addition;
mod altered;

use crate::changes::deltas;
use crate::lists::Lists;
use crate::place::Place;
use crate::verdict::Verdict;
pub use addition::Addition;
use escrow_checks::{Check, Spread};
use escrow_num::{Amount, End, Name, Reservation, RowName, Violation, Wide};
use indexmap::IndexMap;
use std::alloc::{AllocError, Global};
use std::marker::Model;

/// Places of rows. A place keeps a row's committed amounts, the number of its open reservations,
/// and their worst-case sums under each check and each RESERVABLE column. It keeps no list.
///
/// A place counts a list of reservations, in any order, if its sums and its number are those of the
/// list. A row without an open reservation needs no place. Only [`Bounds::reserve`],
/// [`Bounds::make`] and [`Bounds::prepare`] take memory.
#[derive(Debug)]
pub struct Bounds {
    places: IndexMap<RowName, Place>,
    /// The checks of tables, which their places share.
    lists: Lists,
}

// Written out, so that crates above need not prove again how its parts are dropped.
impl Drop for Bounds {
    fn drop(self) {
        let Bounds {
            places: _,
            lists: _,
        } = self;
    }
}

impl Model for Bounds {
    ghost use Rattle.escrow_bounds.specs.Bounds.{Bounds};

    ghost Value = { Bounds };

    ghost view = { λ b. b.places.entries };
}

impl Bounds {
    /// Returns an empty list of places. Takes no memory.
    pub fn new(alloc: Global) -> Self
        ensures { result ≡ [] }
    {
        Bounds {
            places: IndexMap::new(alloc),
            lists: Lists::new(alloc),
        }
    }

    /// Makes a place for a row, with its committed amounts and the checks of its table; the place
    /// counts nothing. If the row has a place, it stays as it is. There must be an amount for each
    /// RESERVABLE column, at most 10, and no check may have more coefficients. Fails only if memory
    /// is refused, and then all places are unchanged.
    pub fn reserve(
        &mut self,
        row: &RowName,
        amounts: &[Amount],
        checks: &[Check],
    ) -> Result<(), AllocError>
        requires covered { AllByRecursion (λ check. IsCovered check.coeffs amounts.now) checks.now }
        requires few { length amounts.now ≤ MAX_LEN }
        ensures found { OnOk result (IsSome (place_at self.old row.now) → self.new ≡ self.old) }
        ensures made { OnOk result (place_at self.old row.now ≡ None
            → (place : Place) × (place_at self.new row.now ≡ Some place) × IsNew amounts.now checks.now place) }
        ensures others { OthersStay row.now self.old self.new }
        ensures err { OnErr result (self.new ≡ self.old) }
    {
        if self.has_place(row) {
            return Ok(());
        }
        self.make(row, amounts, checks)?;
        Ok(())
    }

    /// Makes a place for a row that has none, as [`Bounds::reserve`] does. Returns its index among
    /// all places.
    pub fn make(
        &mut self,
        row: &RowName,
        amounts: &[Amount],
        checks: &[Check],
    ) -> Result<usize, AllocError>
        requires covered { AllByRecursion (λ check. IsCovered check.coeffs amounts.now) checks.now }
        requires few { length amounts.now ≤ MAX_LEN }
        requires new { place_at self.old row.now ≡ None }
        ensures at { IfOk result (λ index. IsAt self.new row.now index) }
        ensures made { OnOk result ((place : Place) × (place_at self.new row.now ≡ Some place)
            × IsNew amounts.now checks.now place) }
        ensures others { OthersStay row.now self.old self.new }
        ensures err { OnErr result (self.new ≡ self.old) }
    {
        let alloc = *self.places.allocator();
        let list = self.lists.share(row.table, checks)?;
        let place = Place::new(alloc, amounts, list)?;
        let (index, _) = self.places.insert_full(row.copy(alloc)?, place)?;
        Ok(index)
    }

    /// Returns the index of a row's place, if it has one. The index is valid until a place is made
    /// or dropped.
    pub fn find(&self, row: &RowName) -> Option<usize>
        ensures found { is_some result ≡ is_some (place_at self.now row.now) }
        ensures at { IfSome result (λ index. IsAt self.now row.now index) }
    {
        self.places.get_index_of(row)
    }

    /// Drops the place of a row, if it has one that counts nothing.
    pub fn release(&mut self, row: &RowName)
        ensures empty { is_counting (place_at self.old row.now) ≡ false → place_at self.new row.now ≡ None }
        ensures counting { is_counting (place_at self.old row.now) ≡ true → self.new ≡ self.old }
        ensures others { OthersStay row.now self.old self.new }
    {
        if let Some(index) = self.find(row) {
            self.release_at(index);
        }
    }

    /// Drops the place at an index, if it counts nothing.
    pub fn release_at(&mut self, index: usize)
        ensures empty { (row : RowName) → IsAt self.old row index → is_counting (place_at self.old row) ≡ false
            → place_at self.new row ≡ None }
        ensures counting { (row : RowName) → IsAt self.old row index → is_counting (place_at self.old row) ≡ true
            → self.new ≡ self.old }
        ensures others { (row : RowName) → IsAt self.old row index → OthersStay row self.old self.new }
    {
        if !self.is_counting_at(index) {
            self.places.swap_remove_index(index);
        }
    }

    /// Returns whether the place at an index counts a reservation.
    fn is_counting_at(&self, index: usize) -> bool
        ensures { (row : RowName) → IsAt self.now row index → result ≡ is_counting (place_at self.now row) }
    {
        match self.places.get_index(index) {
            Some((_, place)) => place.count() != 0,
            None => false,
        }
    }

    /// Drops all places, whatever they count.
    pub fn clear(&mut self)
        ensures { self.new ≡ [] }
    {
        self.places.clear();
    }

    /// Returns whether a row has a place.
    pub fn has_place(&self, row: &RowName) -> bool
        ensures { result ≡ is_some (place_at self.now row.now) }
    {
        self.places.contains_key(row)
    }

    /// Returns whether a row has a place that counts a reservation.
    pub fn is_reserved(&self, row: &RowName) -> bool
        ensures { result ≡ is_counting (place_at self.now row.now) }
    {
        match self.places.get(row) {
            Some(place) => place.count() != 0,
            None => false,
        }
    }

    /// Returns whether a row of a table has a place.
    pub fn has_place_in(&self, table: Name) -> bool
        ensures { result ≡ list_any (λ p. bytes_eq p.0.table table) self.now }
    {
        self.places.keys().any(|row| row.table == table)
    }

    /// Returns the committed amounts of a row that has a place.
    pub fn amounts(&self, row: &RowName) -> Option<&[Amount]>
        ensures { option_copied result ≡ option_map (λ place. place.amounts) (place_at self.now row.now) }
    {
        match self.places.get(row) {
            Some(place) => Some(place.amounts()),
            None => None,
        }
    }

    /// Returns the least and the greatest value of a check's form, over every choice of the
    /// reservations that the row's place counts. `check` is its index among the checks of the
    /// place.
    pub fn worst(&self, row: &RowName, check: usize) -> (Wide, Wide)
        requires placed { IsSome (place_at self.now row.now) }
        requires check { (place : Place) → place_at self.now row.now ≡ Some place → check < length place.checks }
        ensures { (place : Place) (form : Tracked) (reservations : List (List ℤ))
            → place_at self.now row.now ≡ Some place → slice_get place.checks check ≡ Some form
            → Counts place reservations
            → (result.0 ≡ least form.check.coeffs place.amounts reservations)
            × (result.1 ≡ greatest form.check.coeffs place.amounts reservations) }
    {
        self.place(row).worst(check)
    }

    /// Returns O'Neil's `inf` and `sup` (1986) of a column: its least and its greatest value, over
    /// every choice of the reservations that the row's place counts.
    pub fn inf_sup(&self, row: &RowName, column: usize) -> (Wide, Wide)
        requires placed { IsSome (place_at self.now row.now) }
        requires column { (place : Place) → place_at self.now row.now ≡ Some place → column < length place.amounts }
        ensures { (place : Place) (reservations : List (List ℤ))
            → place_at self.now row.now ≡ Some place → Counts place reservations
            → (result.0 ≡ least (unit_form (length place.amounts) column) place.amounts reservations)
            × (result.1 ≡ greatest (unit_form (length place.amounts) column) place.amounts reservations) }
    {
        self.place(row).inf_sup(column)
    }

    /// Applies the grant rule: returns whether changes of a row that has a place are granted, over
    /// every choice of the reservations that the place counts with these changes. If not, it
    /// returns the first check, in the table's order, that they can break, its low side before its
    /// high side.
    pub fn verdict(&self, row: &RowName, changes: &[Amount]) -> Verdict
        requires { IsSome (place_at self.now row.now) }
        ensures { (place : Place) (reservations : List (List ℤ)) → place_at self.now row.now ≡ Some place
            → Counts place reservations
            → result ≡ verdict_of (broken (checks_of place.checks) place.amounts changes.now reservations) }
    {
        Verdict::of(self.place(row).verdict(changes))
    }

    /// Applies the grant rule at the place at an index: returns what changes of its row would break
    /// of the first check, in the table's order, that they can break. The choices are those of the
    /// reservations that the place counts with these changes. Returns `None` if the changes are
    /// granted.
    pub fn verdict_at(&self, index: usize, changes: &[Amount]) -> Option<Violation>
        requires { (row : RowName) × IsAt self.now row index }
        ensures { (row : RowName) (place : Place) (reservations : List (List ℤ)) → IsAt self.now row index
            → place_at self.now row ≡ Some place → Counts place reservations
            → result ≡ broken (checks_of place.checks) place.amounts changes.now reservations }
    {
        let (_, place) = self.places.get_index(index).unwrap();
        place.verdict(changes)
    }

    /// Returns whether the place at an index counts as many reservations as a row may have,
    /// [`Spread::MAX_OPEN`].
    pub fn is_full_at(&self, index: usize) -> bool
        requires { (row : RowName) × IsAt self.now row index }
        ensures { (row : RowName) (place : Place) → IsAt self.now row index → place_at self.now row ≡ Some place
            → result ≡ nat_le MAX_OPEN place.count }
    {
        let (_, place) = self.places.get_index(index).unwrap();
        place.count() >= Spread::MAX_OPEN
    }

    /// Counts a new reservation of a row. Its place must count fewer than 16,384.
    pub fn add(&mut self, row: &RowName, changes: &[Amount])
        requires placed { IsSome (place_at self.old row.now) }
        requires room { (place : Place) → place_at self.old row.now ≡ Some place → place.count < MAX_OPEN }
        ensures takes { Becomes (TakesIn changes.now) (place_at self.old row.now) (place_at self.new row.now) }
        ensures others { OthersStay row.now self.old self.new }
    {
        if let Some(index) = self.find(row) {
            self.add_at(index, changes);
        }
    }

    /// Counts a new reservation of the row whose place is at an index. The place must count fewer
    /// than 16,384.
    pub fn add_at(&mut self, index: usize, changes: &[Amount])
        requires placed { (row : RowName) × IsAt self.old row index }
        requires room { (row : RowName) (place : Place) → IsAt self.old row index → place_at self.old row ≡ Some place
            → place.count < MAX_OPEN }
        ensures takes { (row : RowName) → IsAt self.old row index
            → Becomes (TakesIn changes.now) (place_at self.old row) (place_at self.new row) }
        ensures others { (row : RowName) → IsAt self.old row index → OthersStay row self.old self.new }
    {
        let (_, place) = self.places.pair_mut(index);
        place.take_in(changes);
    }

    /// Removes a reservation whose transaction has ended from the count. The row's place must count
    /// it, and stays. A commit adds its changes to the committed amounts, as [`Bounds::remove_at`]
    /// does.
    pub fn remove(&mut self, row: &RowName, changes: &[Amount], end: End)
        requires { (place : Place) × (before after : List (List ℤ))
            × (place_at self.old row.now ≡ Some place) × Counts place (before ++ changes.now ∷ after) }
        ensures gives { Becomes (GivesBack end changes.now) (place_at self.old row.now) (place_at self.new row.now) }
        ensures others { OthersStay row.now self.old self.new }
    {
        if let Some(index) = self.find(row) {
            self.remove_at(index, changes, end);
        }
    }

    /// Removes a reservation whose transaction has ended from the count. The place at an index must
    /// count it, and stays there. A commit adds its changes to the committed amounts. If a sum
    /// would be no amount, that amount stays as it is.
    pub fn remove_at(&mut self, index: usize, changes: &[Amount], end: End)
        requires { (row : RowName) × (place : Place) × (before after : List (List ℤ))
            × IsAt self.old row index × (place_at self.old row ≡ Some place)
            × Counts place (before ++ changes.now ∷ after) }
        ensures at { (row : RowName) → IsAt self.old row index → IsAt self.new row index }
        ensures gives { (row : RowName) → IsAt self.old row index
            → Becomes (GivesBack end changes.now) (place_at self.old row) (place_at self.new row) }
        ensures others { (row : RowName) → IsAt self.old row index → OthersStay row self.old self.new }
    {
        let (_, place) = self.places.pair_mut(index);
        place.give_back(changes, end);
    }

    /// Removes reservations whose transaction has ended from the count, one after another. The
    /// places must count them. Drops each place that counts nothing any more.
    pub fn remove_all(&mut self, reservations: &[Reservation], end: End)
        requires counted { (rest : List Reservation) × CountsAll self.old (reservations.now ++ rest) }
        requires short { AllByRecursion (λ r. length r.changes ≤ MAX_LEN) reservations.now }
        ensures counts { (rest : List Reservation) → CountsAll self.old (reservations.now ++ rest)
            → CountsAll self.new rest }
        ensures ends { AreEnded end reservations.now self.old self.new }
        ensures counting { AllCount self.old → AllCount self.new }
    {
        for r in reservations {
            self.remove_one(r, end);
        }
    }

    /// Removes a reservation whose transaction has ended from the count, and drops its place if it
    /// counts nothing any more.
    fn remove_one(&mut self, r: &Reservation, end: End)
        requires counted { (rest : List Reservation) × CountsAll self.old (r.now ∷ rest) }
        requires short { length r.now.changes ≤ MAX_LEN }
        ensures counts { (rest : List Reservation) → CountsAll self.old (r.now ∷ rest) → CountsAll self.new rest }
        ensures ends { AreEnded end (r.now ∷ []) self.old self.new }
        ensures counting { AllCount self.old → AllCount self.new }
    {
        let index = self.find(&r.row).unwrap();
        let amounts = deltas(r.changes.as_slice());
        self.remove_at(index, &amounts[..r.changes.len()], end);
        self.release_at(index);
    }

    /// Returns the place of a row.
    fn place(&self, row: &RowName) -> &Place
        requires { IsSome (place_at self.now row.now) }
        ensures { Some result.now ≡ place_at self.now row.now }
    {
        self.places.get(row).unwrap()
    }
}
