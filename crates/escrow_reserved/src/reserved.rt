ghost use Rattle.std.specs.Prelude.{◌≡◌, ◌++◌, ℕ, ℤ, true, Option, Some, None, OnOk, is_some, List, length, map, option_map};
ghost use Rattle.std.specs.List.{AllByRecursion};
ghost use Rattle.escrow_num.specs.declared.reservation.Reservation.{Reservation as Held};
ghost use Rattle.escrow_num.specs.declared.session.End.TheVariants.{Rollback};
ghost use Rattle.escrow_num.specs.Session.{IsSession};
ghost use Rattle.escrow_num.specs.declared.value.RowName.{RowName as Row};
ghost use Rattle.escrow_checks.specs.declared.check.Check.{Check as Form};
ghost use Rattle.escrow_bounds.specs.Altered.{TableGoes, IsOver, IsWithout, ArePrepared};
ghost use Rattle.escrow_bounds.specs.Ended.{AreEnded};
ghost use Rattle.escrow_bounds.specs.Held.{of_row, AllCount, CountsAll};
ghost use Rattle.escrow_bounds.specs.Bounds.{place_at, OthersStay};
ghost use Rattle.escrow_journal.specs.Open.{open_after_rollback_to};
ghost use Rattle.escrow_journal.specs.Reservations.{own};
ghost use Rattle.escrow_machine.specs.Walked.{IsShort};

use crate::violation::first_violation;
use escrow_bounds::{Addition, Bounds, deltas};
use escrow_checks::Check;
use escrow_num::{Amount, Changes, End, Name, Refusal, Reservation, RowName, Session};
use escrow_txn::TxnTable;
use std::alloc::{AllocError, Global};
use std::marker::Model;

/// What is open in a database: the transactions of its sessions, and a place for each row that they
/// reserve. A place has the row's committed amounts and the sums of its reservations. After any
/// call, each place counts exactly the open reservations of its row.
///
/// Each call preserves that exactly the reserved rows have a place (`ArePlaced`), and some calls
/// require it.
#[derive(Debug)]
pub struct Reserved {
    txns: TxnTable,
    bounds: Bounds,
}

// Written out, so that crates above need not prove again how its parts are dropped.
impl Drop for Reserved {
    fn drop(self) {
        let Reserved { txns: _, bounds: _ } = self;
    }
}

impl Model for Reserved {
    ghost use Rattle.escrow_reserved.specs.Reserved.{Reserved, AreCounted};

    ghost Value = { Reserved };

    ghost view = { λ r. record { txns = r.txns; places = r.bounds } };

    ghost invariant = { λ r. AreCounted (record { txns = r.txns; places = r.bounds }) };
}

impl Reserved {
    ghost use Rattle.std.specs.Prelude.{◌⊎◌, ◌+◌, ◌^◌, ◌<◌, ◌≤◌, IfOk, IfErr, IfSome, IsSome, OnErr, Err, bytes_eq, flat_map};
    ghost use Rattle.std.specs.List.{list_any};
    ghost use Rattle.escrow_num.specs.Order.{same_row};
    ghost use Rattle.escrow_num.specs.Reservation.{deltas};
    ghost use Rattle.escrow_checks.specs.Form.{IsCovered};
    ghost use Rattle.escrow_checks.specs.declared.coefficients.TheConstants.Coefficients.{MAX_LEN};
    ghost use Rattle.escrow_checks.specs.declared.spread.TheConstants.Spread.{MAX_OPEN};
    ghost use Rattle.escrow_bounds.specs.At.{IsAt};
    ghost use Rattle.escrow_bounds.specs.Counts.{IsNew, TakesIn};
    ghost use Rattle.escrow_bounds.specs.Place.{Place};
    ghost use Rattle.escrow_bounds.specs.Bounds.{Becomes};
    ghost use Rattle.escrow_journal.specs.Open.{open_after_end, grant_refusal, open_after_grant, released, open_after_savepoint, savepoint_refusal};
    ghost use Rattle.escrow_reserved.specs.Ends.{AreAllEnded, all_ended};
    ghost use Rattle.escrow_reserved.specs.Reserved.{AreAmounts, AreCounted, ArePlaced, Releases, nothing, reason_against, reason_by};

    /// Returns one in which nothing is open and the next id is 1. Fails only if memory is refused.
    pub fn new(alloc: Global) -> Result<Self, AllocError>
        ensures { IfOk result (λ r. r ≡ nothing) }
    {
        Ok(Reserved {
            txns: TxnTable::new(alloc)?,
            bounds: Bounds::new(alloc),
        })
    }

    /// Returns the open transactions of all sessions, with the next id.
    pub fn txns(&self) -> &TxnTable
        ensures { result.now ≡ self.now.txns }
    {
        &self.txns
    }

    /// Returns the places of the reserved rows. Each counts exactly the open reservations of its
    /// row.
    pub fn bounds(&self) -> &Bounds
        ensures places { result.now ≡ self.now.places }
        ensures counted { AreCounted self.now }
    {
        &self.bounds
    }

    /// Returns whether an open reservation, of any session, is of a row.
    pub fn is_reserved(&self, row: &RowName) -> bool
        ensures { result ≡ list_any (λ r. same_row r.row row.now) self.now.txns.reservations }
    {
        self.bounds.is_reserved(row)
    }

    /// Returns the index of a row's place, for [`Reserved::grant`]. A row without an open
    /// reservation has none.
    pub fn find(&self, row: &RowName) -> Option<usize>
        requires { ArePlaced self.now.txns.reservations self.now.places }
        ensures found { is_some result ≡ list_any (λ r. same_row r.row row.now) self.now.txns.reservations }
        ensures at { IfSome result (λ at. IsAt self.now.places row.now at) }
    {
        self.bounds.find(row)
    }

    /// Returns whether an open reservation, of any session, is of a row of a table.
    pub fn is_table_reserved(&self, table: Name) -> bool
        requires { ArePlaced self.now.txns.reservations self.now.places }
        ensures { result ≡ list_any (λ r. bytes_eq r.row.table table) self.now.txns.reservations }
    {
        self.bounds.has_place_in(table)
    }

    /// Returns the open reservations of the sessions of a plan, session by session, those of each
    /// in order of grant. The row of each reservation has a place, and each changes at most 10
    /// columns. Fails only if memory is refused.
    pub fn all_of(
        &self,
        alloc: Global,
        plan: &[(Session, End)],
    ) -> Result<Vec<&Reservation>, AllocError>
        ensures all { IfOk result
            (λ all. map (λ r. r.now) all.items ≡ flat_map (λ entry. own entry.0 self.now.txns.reservations) plan.now) }
        ensures placed { IfOk result
            (λ all. AllByRecursion (λ r. IsSome (place_at self.now.places r.row)) (map (λ r. r.now) all.items)) }
        ensures short { IfOk result (λ all. AllByRecursion IsShort (map (λ r. r.now) all.items)) }
    {
        let mut all = Vec::new(alloc);
        for (session, _) in plan {
            push_all(&mut all, self.txns.reservations(*session))?;
        }
        Ok(all)
    }

    /// Returns the committed amounts of the row of each reservation, in their order. Each row must
    /// have a place. Fails only if memory is refused.
    pub fn amounts_of(
        &self,
        alloc: Global,
        reservations: &[&Reservation],
    ) -> Result<Vec<&[Amount]>, AllocError>
        requires { AllByRecursion (λ r. IsSome (place_at self.now.places r.row)) (map (λ r. r.now) reservations.now) }
        ensures { IfOk result (λ all.
            AreAmounts self.now.places (map (λ r. r.now) reservations.now) (map (λ amounts. amounts.now) all.items)) }
    {
        let mut all = Vec::with_capacity(alloc, reservations.len())?;
        for r in reservations {
            all.push(self.amounts_at(&r.row))?;
        }
        Ok(all)
    }

    /// Returns the committed amounts of a row that has a place.
    fn amounts_at(&self, row: &RowName) -> &[Amount]
        requires { IsSome (place_at self.now.places row.now) }
        ensures { Some result.now ≡ option_map (λ place. place.amounts) (place_at self.now.places row.now) }
    {
        self.bounds.amounts(row).unwrap()
    }

    /// Grants a session the first open reservation of a row, and returns its id, the next one. The
    /// row gets a place, which counts the reservation. `amounts` are the row's committed amounts,
    /// at most 10, and `checks` those of its table. `changes` has one, or none, for each RESERVABLE
    /// column.
    ///
    /// Fails if the session holds 256 reservations, no id is left, or the changes would break a
    /// check. The first of these reasons is the error, however little memory there is. Otherwise it
    /// fails only if memory is refused. After an error no id was taken, and each row has the place
    /// that it had.
    pub fn grant_first(
        &mut self,
        session: Session,
        row: RowName,
        amounts: &[Amount],
        checks: &[Check],
        changes: Changes,
    ) -> Result<u64, Refusal>
        requires covered { AllByRecursion (λ check. IsCovered check.coeffs amounts.now) checks.now }
        requires few { length amounts.now ≤ MAX_LEN }
        requires new { place_at self.old.places row ≡ None }
        requires short { length changes ≤ MAX_LEN }
        ensures id { IfOk result (λ id. id ≡ self.old.txns.next_id) }
        ensures free { OnOk result
            (reason_by session checks.now amounts.now (deltas changes)
            (of_row row self.old.txns.reservations) self.old.txns ≡ None) }
        ensures granted { OnOk result (self.new.txns ≡ open_after_grant session row changes self.old.txns) }
        ensures made { OnOk result ((place : Place) × IsNew amounts.now checks.now place
            × Becomes (TakesIn (deltas changes)) (Some place) (place_at self.new.places row)) }
        ensures others { OthersStay row self.old.places self.new.places }
        ensures against { IfSome (reason_by session checks.now amounts.now (deltas changes)
            (of_row row self.old.txns.reservations) self.old.txns) (λ e. result ≡ Err e) }
        ensures only { IfErr result
            (λ e. (reason_by session checks.now amounts.now (deltas changes)
            (of_row row self.old.txns.reservations) self.old.txns ≡ Some e) ⊎ (e ≡ Refusal.Memory)) }
        ensures refused { OnErr result (self.new.txns ≡ self.old.txns) }
        ensures same { OnErr result ((other : Row) → place_at self.new.places other ≡ place_at self.old.places other) }
        ensures within { IsSession session }
    {
        let added = deltas(changes.as_slice());
        let added = &added[..changes.len()];
        if let Some(refusal) = self.refusal_of_first(session, amounts, checks, added) {
            return Err(refusal);
        }
        let at = self.bounds.make(&row, amounts, checks)?;
        Ok(self.hold(session, row, at, changes, added)?)
    }

    /// Returns why a session can't get the first open reservation of a row, if it can't, memory
    /// aside. The changes are judged by the row's committed amounts and the checks of its table.
    fn refusal_of_first(
        &self,
        session: Session,
        amounts: &[Amount],
        checks: &[Check],
        changes: &[Amount],
    ) -> Option<Refusal>
        requires { AllByRecursion (λ check. IsCovered check.coeffs amounts.now) checks.now }
        ensures reason { (row : Row) → place_at self.now.places row ≡ None
            → result ≡ reason_by session checks.now amounts.now changes.now
            (of_row row self.now.txns.reservations) self.now.txns }
        ensures within { IsSession session }
    {
        if let Some(refusal) = self.txns.grant_refusal(session) {
            return Some(refusal);
        }
        first_violation(checks, amounts, changes).map(Refusal::Check)
    }

    /// Grants a session one more reservation of a row that has open ones, and returns its id, the
    /// next one. The row's place, whose index is `at` ([`Reserved::find`]), counts the reservation.
    /// `changes` are as for [`Reserved::grant_first`].
    ///
    /// Fails if [`Spread::MAX_OPEN`](escrow_checks::Spread::MAX_OPEN) open reservations are of the
    /// row, the session holds 256, no id is left, or some choice of the open reservations with this
    /// one would break a check. The first of these reasons is the error, however little memory there
    /// is. Otherwise it fails only if memory is refused. After an error nothing has changed.
    pub fn grant(
        &mut self,
        session: Session,
        row: RowName,
        at: usize,
        changes: Changes,
    ) -> Result<u64, Refusal>
        requires reserved { list_any (λ r. same_row r.row row) self.old.txns.reservations ≡ true }
        requires placed { IsSome (place_at self.old.places row) }
        requires at { IsAt self.old.places row at }
        requires short { length changes ≤ MAX_LEN }
        ensures id { IfOk result (λ id. id ≡ self.old.txns.next_id) }
        ensures free { OnOk result ((place : Place) → place_at self.old.places row ≡ Some place
            → reason_against session place row changes self.old.txns ≡ None) }
        ensures granted { OnOk result (self.new.txns ≡ open_after_grant session row changes self.old.txns) }
        ensures takes { OnOk result
            (Becomes (TakesIn (deltas changes)) (place_at self.old.places row) (place_at self.new.places row)) }
        ensures others { OthersStay row self.old.places self.new.places }
        ensures against { (place : Place) → place_at self.old.places row ≡ Some place
            → IfSome (reason_against session place row changes self.old.txns) (λ e. result ≡ Err e) }
        ensures only { IfErr result
            (λ e. (place : Place) → place_at self.old.places row ≡ Some place
            → (reason_against session place row changes self.old.txns ≡ Some e) ⊎ (e ≡ Refusal.Memory)) }
        ensures unchanged { OnErr result (self.new ≡ self.old) }
        ensures within { IsSession session }
    {
        let added = deltas(changes.as_slice());
        let added = &added[..changes.len()];
        if let Some(refusal) = self.refusal(session, at, added) {
            return Err(refusal);
        }
        Ok(self.hold(session, row, at, changes, added)?)
    }

    /// Returns why a session can't get changes of the row whose place is at an index, if it can't,
    /// memory aside.
    fn refusal(&self, session: Session, at: usize, changes: &[Amount]) -> Option<Refusal>
        requires { (row : Row) × IsAt self.now.places row at }
        ensures reason { (row : Row) (place : Place) (asked : List (Option ℤ)) → IsAt self.now.places row at
            → place_at self.now.places row ≡ Some place → changes.now ≡ deltas asked
            → result ≡ reason_against session place row asked self.now.txns }
        ensures within { IsSession session }
    {
        let refusal = self.txns.grant_refusal(session);
        if self.bounds.is_full_at(at) {
            return Some(Refusal::TooManyReservations);
        }
        if refusal.is_some() {
            return refusal;
        }
        self.bounds.verdict_at(at, changes).map(Refusal::Check)
    }

    /// Adds a reservation of changes of a row that only memory can refuse. It is the last of its
    /// session, with the next id. The row's place, which is at an index, counts what the changes
    /// add. Returns the id. Fails only if memory is refused. After an error no id was taken, and
    /// nothing has changed, except that the place is dropped if it counts nothing.
    fn hold(
        &mut self,
        session: Session,
        row: RowName,
        at: usize,
        changes: Changes,
        added: &[Amount],
    ) -> Result<u64, AllocError>
        requires free { grant_refusal session self.old.txns ≡ None }
        requires placed { IsSome (place_at self.old.places row) }
        requires at { IsAt self.old.places row at }
        requires short { length changes ≤ MAX_LEN }
        requires added { added.now ≡ deltas changes }
        requires room { length (of_row row self.old.txns.reservations) < MAX_OPEN }
        ensures id { IfOk result (λ id. id ≡ self.old.txns.next_id) }
        ensures granted { OnOk result (self.new.txns ≡ open_after_grant session row changes self.old.txns) }
        ensures takes { OnOk result
            (Becomes (TakesIn (deltas changes)) (place_at self.old.places row) (place_at self.new.places row)) }
        ensures others { OthersStay row self.old.places self.new.places }
        ensures refused { OnErr result (self.new.txns ≡ self.old.txns) }
        ensures releases { OnErr result (Releases self.old.txns.reservations row self.old.places self.new.places) }
    {
        match self.txns.grant(session, row, changes) {
            Ok(id) => {
                self.bounds.add_at(at, added);
                Ok(id)
            }
            Err(_) => {
                self.bounds.release_at(at);
                Err(AllocError)
            }
        }
    }

    /// Ends a session's transaction, and returns how many reservations it held. A commit adds its
    /// changes to the amounts of the places. A place that counts nothing any more is dropped. Takes
    /// no memory.
    pub fn end(&mut self, session: Session, end: End) -> u32
        ensures count { result ≡ length (own session self.old.txns.reservations) }
        ensures txns { self.new.txns ≡ open_after_end session self.old.txns }
        ensures places { AreEnded end (own session self.old.txns.reservations) self.old.places self.new.places }
        ensures placed { ArePlaced self.old.txns.reservations self.old.places
            → ArePlaced self.new.txns.reservations self.new.places }
    {
        let reservations = self.txns.reservations(session);
        let count = reservations.len() as u32;
        self.bounds.remove_all(reservations, end);
        self.txns.take_all(session);
        count
    }

    /// Ends the transactions of the sessions of a plan, one after another, and returns how many
    /// reservations they held. A session that is named again has nothing left to end. Takes no memory.
    pub fn end_all(&mut self, plan: &[(Session, End)]) -> u32
        requires { length self.old.txns.reservations < 2 ^ 32 }
        ensures count { result + length self.new.txns.reservations ≡ length self.old.txns.reservations }
        ensures txns { self.new.txns ≡ all_ended plan.now self.old.txns }
        ensures places { AreAllEnded plan.now self.old.txns self.old.places self.new.places }
        ensures placed { ArePlaced self.old.txns.reservations self.old.places
            → ArePlaced self.new.txns.reservations self.new.places }
    {
        let mut count = 0;
        for (session, end) in plan {
            count += self.end(*session, *end);
        }
        count
    }

    /// Takes a session back to its savepoint of a name, and returns how many reservations were
    /// dropped. Returns `None` exactly if there is no such savepoint, and then nothing changes.
    /// Takes no memory.
    pub fn cut(&mut self, session: Session, name: Name) -> Option<u32>
        ensures count { result ≡ released session name self.old.txns }
        ensures txns { self.new.txns ≡ open_after_rollback_to session name self.old.txns }
        ensures places { (ended : List Held) × AreEnded Rollback ended self.old.places self.new.places }
        ensures placed { ArePlaced self.old.txns.reservations self.old.places
            → ArePlaced self.new.txns.reservations self.new.places }
    {
        release_after(&self.txns, &mut self.bounds, session, name);
        self.txns.cut(session, name)
    }

    /// Makes a savepoint of a session. An earlier one of its name is removed. Fails if the session
    /// has 64 of other names, however little memory there is. Otherwise it fails only if memory is
    /// refused. After an error nothing has changed.
    pub fn mark(&mut self, session: Session, name: Name) -> Result<(), Refusal>
        ensures saved { OnOk result
            (self.new ≡ record self.old { txns = open_after_savepoint session name self.old.txns }) }
        ensures unchanged { OnErr result (self.new ≡ self.old) }
        ensures refused { IfSome (savepoint_refusal session name self.old.txns) (λ e. result ≡ Err e) }
        ensures only { IfErr result
            (λ e. (savepoint_refusal session name self.old.txns ≡ Some e) ⊎ (e ≡ Refusal.Memory)) }
        ensures within { IsSession session }
    {
        self.txns.mark(session, name)
    }

    /// Makes new places for a table's reserved rows, over all the checks that the table will have.
    /// The current places stay as they are. No check may have more coefficients than such a row has
    /// amounts. Fails only if memory is refused.
    pub fn prepare(&self, alloc: Global, table: Name, checks: &[Check]) -> Result<Addition, Refusal>
        requires placed { ArePlaced self.now.txns.reservations self.now.places }
        requires many { (row : Row) → length (of_row row self.now.txns.reservations) ≤ MAX_OPEN }
        requires few { (row : Row) (place : Place) → bytes_eq row.table table ≡ true
            → place_at self.now.places row ≡ Some place
            → length place.amounts ≤ MAX_LEN }
        requires covered { (row : Row) (place : Place) → bytes_eq row.table table ≡ true
            → place_at self.now.places row ≡ Some place
            → AllByRecursion (λ check. IsCovered check.coeffs place.amounts) checks.now }
        ensures prepared { IfOk result
            (λ addition. ArePrepared table checks.now self.now.txns.reservations self.now.places addition) }
        ensures only { IfErr result (λ e. e ≡ Refusal.Memory) }
    {
        let reservations = self.txns.all_in_order(alloc)?;
        self.bounds.prepare(table, checks, &reservations)
    }

    /// Replaces the places of a table's rows by those that [`Reserved::prepare`] made. Nothing that
    /// is open may have changed since. Takes no memory.
    pub fn adopt(&mut self, addition: Addition)
        requires placed { ArePlaced self.old.txns.reservations self.old.places }
        requires prepared { (table : List ℕ) × (checks : List Form)
            × ArePrepared table checks self.old.txns.reservations self.old.places addition }
        ensures txns { self.new.txns ≡ self.old.txns }
        ensures places { (table : List ℕ) (checks : List Form)
            → ArePrepared table checks self.old.txns.reservations self.old.places addition
            → TableGoes table (λ row.
            IsOver checks (of_row row self.old.txns.reservations)) self.old.places self.new.places }
    {
        self.bounds.adopt(addition);
    }

    /// Removes the check at an index from the place of each row of a table. Takes no memory.
    pub fn drop_check(&mut self, table: Name, index: usize)
        requires placed { ArePlaced self.old.txns.reservations self.old.places }
        ensures txns { self.new.txns ≡ self.old.txns }
        ensures places { TableGoes table (λ row. IsWithout index) self.old.places self.new.places }
    {
        self.bounds.drop_check(table, index);
    }

    /// Drops all that is open, of all sessions, and sets the next id to 1. Takes no memory.
    pub fn clear(&mut self)
        ensures { self.new ≡ nothing }
    {
        self.txns.clear();
        self.bounds.clear();
    }
}

/// Adds references to reservations after others.
fn push_all<'a>(
    all: &mut Vec<&'a Reservation>,
    reservations: &'a [Reservation],
) -> Result<(), AllocError>
    ensures { OnOk result (map (λ r. r.now) all.new.items ≡ map (λ r. r.now) all.old.items ++ reservations.now) }
{
    for r in reservations {
        all.push(r)?;
    }
    Ok(())
}

/// Removes the reservations of a session that came after its savepoint of a name, if there is one,
/// from the count.
fn release_after(txns: &TxnTable, bounds: &mut Bounds, session: Session, name: Name)
    requires counts { CountsAll bounds.old txns.now.reservations }
    requires short { AllByRecursion IsShort txns.now.reservations }
    ensures counts { CountsAll bounds.new (open_after_rollback_to session name txns.now).reservations }
    ensures places { (ended : List Held) × AreEnded Rollback ended bounds.old bounds.new }
    ensures counting { AllCount bounds.old → AllCount bounds.new }
{
    if let Some(later) = txns.after(session, name) {
        bounds.remove_all(later, End::Rollback);
    }
}
