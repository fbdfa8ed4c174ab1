ghost use Rattle.std.specs.Prelude.{◌≡◌, ℤ, List, [], ◌+◌, ◌≤◌, ◌++◌, IsSome, IfNone, Some, is_some, length, take, drop, option_to_list};
ghost use Rattle.escrow_checks.specs.Grant.{broken};
ghost use Rattle.escrow_bounds.specs.Counts.{Counts};
ghost use Rattle.escrow_bounds.specs.Place.{Place, checks_of};
ghost use Rattle.escrow_bounds.specs.Bounds.{place_at};

use super::Bounds;
use crate::place::Place;
use escrow_num::{RowName, Violation};
use std::marker::Model;

/// Places of a table's reserved rows over the checks that the table will have, beside the current
/// places. [`Bounds::prepare`] makes an addition, and [`Bounds::adopt`] puts it to use.
#[derive(Debug)]
pub struct Addition {
    bounds: Bounds,
}

// Written out, so that crates above need not prove again how its parts are dropped.
impl Drop for Addition {
    fn drop(self) {
        let Addition { bounds: _ } = self;
    }
}

impl Model for Addition {
    ghost use Rattle.escrow_bounds.specs.Bounds.{Bounds};

    ghost Value = { Bounds };

    ghost view = { λ a. a.bounds };
}

impl Addition {
    /// Returns the addition with these places.
    pub(super) fn new(bounds: Bounds) -> Addition
        ensures { result ≡ bounds }
    {
        Addition { bounds }
    }

    /// Returns whether a row has a place here, which means that it is of the table and has an open
    /// reservation.
    pub fn has_place(&self, row: &RowName) -> bool
        ensures { result ≡ is_some (place_at self.now row.now) }
    {
        self.bounds.has_place(row)
    }

    /// Returns what a row's open reservations, any choice of them, could break of some consecutive
    /// checks: of the first check, in the table's order, that they can break. Returns `None` if
    /// there is none. `first` is the index of the first of these checks among those of the table,
    /// and `count` is their number.
    pub fn violation(&self, row: &RowName, first: usize, count: usize) -> Option<Violation>
        requires placed { IsSome (place_at self.now row.now) }
        requires checks { (place : Place) → place_at self.now row.now ≡ Some place
            → first + count ≤ length place.checks }
        ensures { (place : Place) (reservations : List (List ℤ)) → place_at self.now row.now ≡ Some place
            → Counts place reservations
            → result ≡ broken (take count (drop first (checks_of place.checks))) place.amounts [] reservations }
    {
        self.bounds.place(row).violation(first, count)
    }

    /// Removes the last place and returns it.
    pub(super) fn pop(&mut self) -> Option<(RowName, Place)>
        ensures last { self.old ≡ self.new ++ option_to_list result }
        ensures none { IfNone result (self.old ≡ []) }
    {
        self.bounds.places.pop()
    }
}
