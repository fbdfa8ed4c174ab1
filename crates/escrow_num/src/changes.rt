ghost use Rattle.std.specs.Prelude.{◌≡◌, ◌<◌, length, [], ◌∷◌, ◌++◌, IsOk, OnOk, OnErr};

use crate::amount::Amount;
use smallvec::SmallVec;
use std::alloc::{AllocError, Global};
use std::marker::Model;

/// The change of each RESERVABLE column of a table, in column order. A column that the UPDATE
/// doesn't assign has `None`, which differs from a change of zero. Few columns of a table are
/// RESERVABLE, so the changes of most reservations are held in place and take no memory.
#[derive(Debug)]
pub struct Changes {
    items: SmallVec<Option<Amount>, { Changes::IN_PLACE }>,
}

// Written out, so that crates above need not prove again how its parts are dropped.
impl Drop for Changes {
    fn drop(self) {
        let Changes { items: _ } = self;
    }
}

impl Model for Changes {
    ghost use Rattle.std.specs.Prelude.{List, Option, ℤ, ◌≤◌};
    ghost use Rattle.escrow_num.specs.declared.changes.TheConstants.Changes.{IN_PLACE};

    ghost Value = { List (Option ℤ) };

    ghost view = { λ c. c.items.items };

    ghost invariant = { λ c. IN_PLACE ≤ c.items.capacity };
}

impl Changes {
    /// How many changes are held in place.
    pub const IN_PLACE: usize = 4;

    /// Returns an empty list of changes. Takes no memory.
    pub fn new(alloc: Global) -> Self
        ensures { result ≡ [] }
    {
        Changes {
            items: SmallVec::new(alloc),
        }
    }

    /// Returns the changes, in order.
    pub fn as_slice(&self) -> &[Option<Amount>]
        ensures { result.now ≡ self.now }
    {
        self.items.as_slice()
    }

    /// Returns the number of changes.
    pub fn len(&self) -> usize
        ensures { result ≡ length self.now }
    {
        self.items.len()
    }

    /// Adds the change of the next column. If memory is refused, the changes stay as they are.
    pub fn push(&mut self, change: Option<Amount>) -> Result<(), AllocError>
        ensures ok { OnOk result (self.new ≡ self.old ++ change ∷ []) }
        ensures err { OnErr result (self.new ≡ self.old) }
        ensures in_place { length self.old < Changes.IN_PLACE → IsOk result }
    {
        Ok(self.items.push(change)?)
    }
}
