//! The amounts of rows that were read or inserted.

ghost use Rattle.std.specs.Prelude.{◌≡◌, [], ◌∷◌, map};
ghost use Rattle.std.specs.List.{AllByRecursion};
ghost use Rattle.escrow_bounds.specs.Held.{of_row};
ghost use Rattle.escrow_bounds.specs.Moved.{amounts_after_all};
ghost use Rattle.escrow_machine.specs.Walked.{IsShort};

use escrow_bounds::commit_amounts;
use escrow_num::{Amount, End, Name, Reservation, RowName};
use indexmap::IndexMap;
use std::alloc::{AllocError, Global};
use std::marker::Model;
use std::slice;

/// The amounts of a row as they were read, one for each RESERVABLE column in column order, and with
/// what was committed to them since.
#[derive(Debug)]
struct ReadAmounts {
    items: Vec<Amount>,
}

// Written out, so that crates above need not prove again how its parts are dropped.
impl Drop for ReadAmounts {
    fn drop(self) {
        let ReadAmounts { items: _ } = self;
    }
}

impl Model for ReadAmounts {
    ghost use Rattle.std.specs.Prelude.{ℤ, List};

    ghost Value = { List ℤ };

    ghost view = { λ a. a.items.items };
}

impl ReadAmounts {
    ghost use Rattle.std.specs.Prelude.{[], ◌∷◌, IfOk};

    /// Returns a copy of amounts. Fails only if memory is refused.
    fn copied(alloc: Global, amounts: &[Amount]) -> Result<Self, AllocError>
        ensures { IfOk result (λ copy. copy ≡ amounts.now) }
    {
        Ok(ReadAmounts {
            items: Vec::from_slice(alloc, amounts)?,
        })
    }

    /// Returns the amounts, in order.
    fn as_slice(&self) -> &[Amount]
        ensures { result.now ≡ self.now }
    {
        &self.items
    }

    /// Adds the changes of a committed reservation, if it is of the row of this name. One of
    /// another row adds nothing.
    fn commit(&mut self, name: &RowName, r: &Reservation)
        requires { IsShort r.now }
        ensures { self.new ≡ amounts_after_all End.Commit self.old (of_row name.now (r.now ∷ [])) }
    {
        commit_to(&mut self.items, name, r);
    }
}

/// Adds the changes of a reservation to the amounts of a row. One of another row adds nothing.
fn commit_to(amounts: &mut [Amount], name: &RowName, r: &Reservation)
    requires { IsShort r.now }
    ensures { amounts.new ≡ amounts_after_all End.Commit amounts.old (of_row name.now (r.now ∷ [])) }
{
    commit_amounts(amounts, name, slice::from_ref(r));
}

/// The amounts of rows that were read or inserted, each with what was committed to it since. So a
/// row is read at most once, however often an UPDATE of it is refused, or it is reserved and
/// committed.
///
/// The caller must forget a row before it deletes it, and the rows of a table before it drops it.
/// At most [`Recent::MAX_ROWS`] rows are kept. If there is no room for another one, a kept row is
/// forgotten: each place has its turn.
#[derive(Debug)]
pub struct Recent {
    rows: IndexMap<RowName, ReadAmounts>,
    /// The place of the row that was added or committed last, which is tried first.
    last: usize,
    /// The place whose row is forgotten next.
    turn: usize,
}

// Written out, so that crates above need not prove again how its parts are dropped.
impl Drop for Recent {
    fn drop(self) {
        let Recent {
            rows: _,
            last: _,
            turn: _,
        } = self;
    }
}

impl Model for Recent {
    ghost use Rattle.escrow_reserved.specs.Read.{AreFew, ReadRows};

    ghost Value = { ReadRows };

    ghost view = { λ r. r.rows.entries };

    ghost invariant = { λ r. AreFew r.rows.entries };
}

impl Recent {
    ghost use Rattle.std.specs.Prelude.{◌⊎◌, ◌<◌, ◌≤◌, [], ◌∷◌, None, Some, IfNone, IfSome, true, false, bytes_eq, nat_eq, not, OnOk, length, option_copied, option_map};
    ghost use Rattle.escrow_num.specs.declared.value.RowName.{RowName};
    ghost use Rattle.escrow_num.specs.Order.{same_row};
    ghost use Rattle.escrow_reserved.specs.Read.{IsKeptAt, IsLeft, committed_to, read_at};
    ghost use Rattle.escrow_reserved.specs.declared.recent.TheConstants.Recent.{MAX_ROWS};

    /// The most rows that are kept: half of those that a table may have. A row with a number as its key and one
    /// RESERVABLE column takes some 150 bytes, and each further column 8.
    pub const MAX_ROWS: usize = 32_768;

    /// Returns one that keeps no row. Takes no memory.
    pub fn new(alloc: Global) -> Self
        ensures { result ≡ [] }
    {
        Recent {
            rows: IndexMap::new(alloc),
            last: 0,
            turn: 0,
        }
    }

    /// Returns the number of rows that are kept.
    pub fn len(&self) -> usize
        ensures value { result ≡ length self.now }
        ensures few { result ≤ MAX_ROWS }
    {
        self.rows.len()
    }

    /// Returns whether no row is kept.
    pub fn is_empty(&self) -> bool
        ensures { result ≡ nat_eq (length self.now) 0 }
    {
        self.len() == 0
    }

    /// Returns the amounts of the row of a name, if they are kept.
    pub fn amounts(&self, name: &RowName) -> Option<&[Amount]>
        ensures { option_copied result ≡ read_at self.now name.now }
    {
        let place = self.find(name)?;
        let (_, amounts) = self.rows.get_index(place).unwrap();
        Some(amounts.as_slice())
    }

    /// Returns the place of the row of a name, if it is kept.
    fn find(&self, name: &RowName) -> Option<usize>
        ensures none { IfNone result (read_at self.now name.now ≡ None) }
        ensures at { IfSome result (λ place. IsKeptAt self.now name.now place) }
        ensures within { IfSome result (λ place. place < length self.now) }
    {
        if let Some(place) = self.find_last(name) {
            return Some(place);
        }
        self.rows.get_index_of(name)
    }

    /// Returns the place that is tried first, if the row of a name is there. A row that is used
    /// again and again is found like this without a hash.
    fn find_last(&self, name: &RowName) -> Option<usize>
        ensures at { IfSome result (λ place. IsKeptAt self.now name.now place) }
        ensures within { IfSome result (λ place. place < length self.now) }
    {
        let (row, _) = self.rows.get_index(self.last)?;
        if row == name { Some(self.last) } else { None }
    }

    /// Keeps the amounts of a row. If there is no room, another row is forgotten first. Fails only if
    /// memory is refused, and then the amounts aren't kept.
    pub fn remember(&mut self, name: &RowName, amounts: &[Amount]) -> Result<(), AllocError>
        ensures kept { OnOk result (read_at self.new name.now ≡ Some amounts.now) }
        ensures others { length self.old < MAX_ROWS → (other : RowName) → same_row name.now other ≡ false
            → read_at self.new other ≡ read_at self.old other }
        ensures only { (other : RowName) → IsLeft self.old self.new other
            ⊎ ((same_row name.now other ≡ true) × (read_at self.new other ≡ Some amounts.now)) }
    {
        let alloc = *self.rows.allocator();
        let amounts = ReadAmounts::copied(alloc, amounts)?;
        let name = name.copy(alloc)?;
        self.make_room();
        let (place, _) = self.rows.insert_full(name, amounts)?;
        self.last = place;
        Ok(())
    }

    /// Forgets the row whose turn it is, if there is no room for another one.
    fn make_room(&mut self)
        ensures room { length self.new < MAX_ROWS }
        ensures roomy { length self.old < MAX_ROWS → self.new ≡ self.old }
        ensures only { (other : RowName) → IsLeft self.old self.new other }
    {
        if self.rows.len() < Recent::MAX_ROWS {
            return;
        }
        let place = self.next();
        self.rows.swap_remove_index(place);
        self.turn = place + 1;
    }

    /// Returns the place whose turn it is.
    fn next(&self) -> usize
        requires { 0 < length self.now }
        ensures { result < length self.now }
    {
        if self.turn < self.rows.len() {
            return self.turn;
        }
        0
    }

    /// Adds the changes of committed reservations to the amounts of their rows, if these are kept.
    /// Each reservation must change at most 10 columns. Takes no memory.
    pub fn commit(&mut self, reservations: &[&Reservation])
        requires { AllByRecursion IsShort (map (λ r. r.now) reservations.now) }
        ensures { (name : RowName)
            → read_at self.new name ≡ option_map (committed_to name (map (λ r. r.now) reservations.now))
            (read_at self.old name) }
    {
        for r in reservations {
            self.commit_one(r);
        }
    }

    /// Adds the changes of a committed reservation to the amounts of its row, if these are kept.
    fn commit_one(&mut self, r: &Reservation)
        requires { IsShort r.now }
        ensures own { read_at self.new r.now.row
            ≡ option_map (committed_to r.now.row (r.now ∷ [])) (read_at self.old r.now.row) }
        ensures others { (other : RowName) → same_row r.now.row other ≡ false
            → read_at self.new other ≡ read_at self.old other }
    {
        if let Some(place) = self.find(&r.row) {
            self.last = place;
            let (_, amounts) = self.rows.pair_mut(place);
            amounts.commit(&r.row, r);
        }
    }

    /// Forgets the row of a name.
    pub fn forget(&mut self, name: &RowName)
        ensures gone { read_at self.new name.now ≡ None }
        ensures others { (other : RowName) → same_row name.now other ≡ false
            → read_at self.new other ≡ read_at self.old other }
    {
        self.rows.swap_remove(name);
    }

    /// Forgets the rows of a table.
    pub fn forget_table(&mut self, table: Name)
        ensures gone { (name : RowName) → bytes_eq name.table table ≡ true → read_at self.new name ≡ None }
        ensures others { (name : RowName) → bytes_eq name.table table ≡ false
            → read_at self.new name ≡ read_at self.old name }
    {
        self.rows.retain(
            |name: &RowName, amounts: &mut ReadAmounts| -> bool
                ensures { (result ≡ not (bytes_eq name.now.table table)) × (amounts.new ≡ amounts.old) }
            { name.table != table },
        );
    }

    /// Forgets all rows.
    pub fn clear(&mut self)
        ensures { self.new ≡ [] }
    {
        self.rows.clear();
    }
}
