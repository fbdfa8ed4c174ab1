//! The journals of the sessions.
ghost use Rattle.std.specs.Prelude.{◌≡◌, ◌⊎◌, ℕ, IfSome, ◌∷◌, ◌++◌, ◌+◌, ◌≤◌, IfOk, IfErr, IsErrOf, OnOk, OnErr, Some, None, Err, IsTrue, length, map, flat_map, option_copied, option_map, unwrap_or};
ghost use Rattle.std.specs.List.{AllByRecursion, list_any};
ghost use Rattle.std.specs.Ordering.{nat_cmp};
ghost use Rattle.std.specs.BTreeMap.{IsOrdered, get, values};
ghost use Rattle.escrow_num.specs.Session.{IsSession};
ghost use Rattle.escrow_num.specs.declared.session.TheConstants.Session.{MAX};
ghost use Rattle.escrow_journal.specs.Journal.{Journal as Log, IsJournal, empty_journal, is_full, is_full_beside, pushed, marked, later, cut_journal};
ghost use Rattle.escrow_journal.specs.Reservations.{reservation_before};
ghost use Rattle.escrow_txn.specs.Joined.{holds_any};
ghost use Rattle.escrow_txn.specs.Sessions.{AreEmpty, AreSessions, Puts, journal_at, other_at, with_journal};
ghost use Rattle.escrow_txn.specs.declared.journals.TheConstants.{KEPT};

use escrow_journal::Journal;
use escrow_num::{Name, Refusal, Reservation, Session};
use smallvec::SmallVec;
use std::alloc::{AllocError, Global};
use std::collections::BTreeMap;
use std::marker::Model;

/// How many sessions keep their journals while these are empty.
const KEPT: u16 = 64;

/// The journals of a database's sessions. The first sessions keep theirs, so that what they ask
/// needs no search. Another session has one only while it holds something. Contracts see a journal
/// for each session that there may be, in order of their numbers.
#[derive(Debug)]
pub(crate) struct Journals {
    first: Vec<Journal>,
    others: BTreeMap<u16, Journal>,
}

// Written out, so that crates above need not prove again how its parts are dropped.
impl Drop for Journals {
    fn drop(self) {
        let Journals {
            first: _,
            others: _,
        } = self;
    }
}

impl Model for Journals {
    ghost use Rattle.std.specs.Prelude.{List};
    ghost use Rattle.escrow_journal.specs.Journal.{Journal};
    ghost use Rattle.escrow_txn.specs.Fields.{journals_of};
    ghost use Rattle.escrow_txn.specs.Sessions.{AreKept};

    ghost Value = { List Journal };

    ghost view = { λ j. journals_of j };

    ghost invariant = { λ j. AreKept j.first.items j.others };
}

impl Journals {
    /// Returns the journals of sessions that hold nothing. Fails only if memory is refused.
    pub(crate) fn new(alloc: Global) -> Result<Self, AllocError>
        ensures { IfOk result (AreEmpty MAX) }
    {
        Ok(Journals {
            first: empty_journals(alloc)?,
            others: BTreeMap::new(alloc),
        })
    }

    /// Returns the journal of a session. A session without one holds nothing.
    pub(crate) fn get(&self, session: Session) -> Option<&Journal>
        ensures found { unwrap_or (option_copied result) (empty_journal session) ≡ journal_at self.now session }
        ensures within { IsSession session }
        ensures valid { AreSessions self.now }
    {
        let place = place_of(session);
        if place < self.first.len() {
            Some(&self.first[place])
        } else {
            self.others.get(&session.get())
        }
    }

    /// Adds a reservation to the journal of its session, as [`Journal::push`] does.
    pub(crate) fn push(&mut self, r: Reservation) -> Result<(), Refusal>
        requires { AllByRecursion
            (λ earlier. IsTrue (reservation_before earlier r)) (journal_at self.old r.session).reservations }
        ensures pushed { OnOk result
            (self.new ≡ with_journal self.old r.session (pushed r (journal_at self.old r.session))) }
        ensures unchanged { OnErr result (self.new ≡ self.old) }
        ensures only { IfErr result (λ e. (e ≡ Refusal.TooManyReservations) ⊎ (e ≡ Refusal.Memory)) }
        ensures room { IsErrOf result Refusal.TooManyReservations → IsTrue (is_full (journal_at self.old r.session)) }
        ensures valid { AreSessions self.new }
    {
        let place = place_of(r.session);
        if place < self.first.len() {
            self.first[place].push(r)
        } else {
            push_other(&mut self.others, *self.first.allocator(), r)
        }
    }

    /// Makes a savepoint in the journal of a session, as [`Journal::mark`] does.
    pub(crate) fn mark(&mut self, session: Session, name: Name, id: u64) -> Result<(), Refusal>
        ensures marked { OnOk result
            (self.new ≡ with_journal self.old session (marked name id (journal_at self.old session))) }
        ensures unchanged { OnErr result (self.new ≡ self.old) }
        ensures refused { IsTrue (is_full_beside name (journal_at self.old session))
            → result ≡ Err Refusal.TooManySavepoints }
        ensures only { IfErr result (λ e. (e ≡ Refusal.TooManySavepoints) ⊎ (e ≡ Refusal.Memory)) }
        ensures room { IsErrOf result Refusal.TooManySavepoints
            → IsTrue (is_full_beside name (journal_at self.old session)) }
        ensures within { IsSession session }
        ensures valid { AreSessions self.new }
    {
        let place = place_of(session);
        if place < self.first.len() {
            self.first[place].mark(name, id)
        } else {
            mark_other(&mut self.others, *self.first.allocator(), session, name, id)
        }
    }

    /// Takes the journal of a session back to a savepoint, as [`Journal::cut`] does. Takes no memory.
    pub(crate) fn cut(&mut self, session: Session, name: Name) -> Option<u32>
        ensures count { result ≡ option_map length (later name (journal_at self.old session)) }
        ensures cut { self.new ≡ with_journal self.old session (cut_journal name (journal_at self.old session)) }
        ensures within { IsSession session }
        ensures valid { AreSessions self.new }
    {
        let place = place_of(session);
        if place < self.first.len() {
            self.first[place].cut(name)
        } else {
            cut_other(&mut self.others, session, name)
        }
    }

    /// Empties the journal of a session, and returns its reservations. Takes no memory.
    pub(crate) fn take_all(&mut self, session: Session) -> SmallVec<Reservation, 4>
        ensures all { result.items ≡ (journal_at self.old session).reservations }
        ensures none { self.new ≡ with_journal self.old session (empty_journal session) }
        ensures within { IsSession session }
        ensures valid { AreSessions self.new }
    {
        let place = place_of(session);
        if place < self.first.len() {
            self.first[place].take_all()
        } else {
            take_other(&mut self.others, *self.first.allocator(), session)
        }
    }

    /// Empties all journals. Takes no memory.
    pub(crate) fn clear(&mut self)
        ensures { AreEmpty MAX self.new }
    {
        empty_all(&mut self.first);
        self.others.clear();
    }

    /// Returns whether a session holds anything.
    pub(crate) fn hold_any(&self) -> bool
        ensures { result ≡ list_any holds_any self.now }
    {
        any_holds(&self.first) || any_other_holds(&self.others)
    }

    /// Returns the journals of all sessions that hold anything, and some that hold nothing, in order
    /// of their sessions. Fails only if memory is refused.
    pub(crate) fn all(&self, alloc: Global) -> Result<Vec<&Journal>, AllocError>
        ensures reservations { IfOk result
            (λ all. flat_map (λ log. log.reservations) (map (λ log. log.now) all.items) ≡ flat_map
            (λ log. log.reservations) self.now) }
        ensures valid { IfOk result (λ all. AllByRecursion IsJournal (map (λ log. log.now) all.items)) }
    {
        let mut all = references(alloc, &self.first)?;
        all.extend_from_slice(&other_references(alloc, &self.others)?)?;
        Ok(all)
    }
}

/// Returns the place of a session's journal among all.
fn place_of(session: Session) -> usize
    ensures place { result + 1 ≡ session }
    ensures within { IsSession session }
{
    usize::from(session.get()) - 1
}

/// Adds a reservation to the journal of its session. A session without one gets it.
fn push_other(
    others: &mut BTreeMap<u16, Journal>,
    alloc: Global,
    r: Reservation,
) -> Result<(), Refusal>
    requires own { (session : ℕ) (journal : Log) → get nat_cmp others.old session ≡ Some journal
        → journal.session ≡ session }
    requires above { AllByRecursion
        (λ earlier. IsTrue (reservation_before earlier r)) (other_at others.old r.session).reservations }
    ensures pushed { OnOk result
        (Puts r.session (Some (pushed r (other_at others.old r.session))) others.old others.new) }
    ensures valid { OnOk result (IsJournal (pushed r (other_at others.old r.session))) }
    ensures unchanged { OnErr result ((session : ℕ) → get nat_cmp others.new session ≡ get nat_cmp others.old session) }
    ensures only { IfErr result (λ e. (e ≡ Refusal.TooManyReservations) ⊎ (e ≡ Refusal.Memory)) }
    ensures room { IsErrOf result Refusal.TooManyReservations → IsTrue (is_full (other_at others.old r.session)) }
{
    let session = r.session;
    if let Some(journal) = others.get_mut(&session.get()) {
        return journal.push(r);
    }
    let mut journal = Journal::new(alloc, session);
    journal.push(r)?;
    insert(others, session, journal)
}

/// Makes a savepoint in the journal of a session. A session without one gets it.
fn mark_other(
    others: &mut BTreeMap<u16, Journal>,
    alloc: Global,
    session: Session,
    name: Name,
    id: u64,
) -> Result<(), Refusal>
    requires { (number : ℕ) (journal : Log) → get nat_cmp others.old number ≡ Some journal → journal.session ≡ number }
    ensures marked { OnOk result
        (Puts session (Some (marked name id (other_at others.old session))) others.old others.new) }
    ensures valid { OnOk result (IsJournal (marked name id (other_at others.old session))) }
    ensures unchanged { OnErr result ((number : ℕ) → get nat_cmp others.new number ≡ get nat_cmp others.old number) }
    ensures refused { IsTrue (is_full_beside name (other_at others.old session))
        → result ≡ Err Refusal.TooManySavepoints }
    ensures only { IfErr result (λ e. (e ≡ Refusal.TooManySavepoints) ⊎ (e ≡ Refusal.Memory)) }
    ensures room { IsErrOf result Refusal.TooManySavepoints
        → IsTrue (is_full_beside name (other_at others.old session)) }
{
    if let Some(journal) = others.get_mut(&session.get()) {
        return journal.mark(name, id);
    }
    let mut journal = Journal::new(alloc, session);
    journal.mark(name, id)?;
    insert(others, session, journal)
}

/// Takes the journal of a session, if it has one, back to a savepoint.
fn cut_other(others: &mut BTreeMap<u16, Journal>, session: Session, name: Name) -> Option<u32>
    ensures count { result ≡ option_map length (later name (other_at others.old session)) }
    ensures cut { Puts session (option_map (cut_journal name) (get nat_cmp others.old session)) others.old others.new }
    ensures valid { IfSome (get nat_cmp others.old session) (λ journal. IsJournal (cut_journal name journal)) }
{
    match others.get_mut(&session.get()) {
        Some(journal) => journal.cut(name),
        None => None,
    }
}

/// Drops the journal of a session, if it has one, and returns its reservations.
fn take_other(
    others: &mut BTreeMap<u16, Journal>,
    alloc: Global,
    session: Session,
) -> SmallVec<Reservation, 4>
    ensures all { result.items ≡ (other_at others.old session).reservations }
    ensures none { Puts session None others.old others.new }
{
    match others.remove(&session.get()) {
        Some(mut journal) => journal.take_all(),
        None => SmallVec::new(alloc),
    }
}

/// Gives a session a journal. If memory is refused, nothing changes.
fn insert(
    others: &mut BTreeMap<u16, Journal>,
    session: Session,
    journal: Journal,
) -> Result<(), Refusal>
    ensures put { OnOk result (Puts session (Some journal) others.old others.new) }
    ensures unchanged { OnErr result ((number : ℕ) → get nat_cmp others.new number ≡ get nat_cmp others.old number) }
    ensures only { IfErr result (λ e. e ≡ Refusal.Memory) }
{
    match others.insert(session.get(), journal) {
        Ok(_) => Ok(()),
        Err(_) => Err(Refusal::Memory),
    }
}

/// Returns whether a journal holds a reservation or a savepoint.
pub(crate) fn holds_any(journal: &Journal) -> bool
    ensures { result ≡ holds_any journal.now }
{
    !journal.all().is_empty() || !journal.savepoints().is_empty()
}

/// Returns whether one of the journals holds a reservation or a savepoint.
fn any_holds(journals: &[Journal]) -> bool
    ensures { result ≡ list_any holds_any journals.now }
{
    journals.iter().any(|journal| holds_any(journal))
}

/// Returns whether one of the journals holds a reservation or a savepoint.
fn any_other_holds(others: &BTreeMap<u16, Journal>) -> bool
    ensures any { result ≡ list_any holds_any (values others.now) }
    ensures ordered { IsOrdered nat_cmp others.now }
{
    others.values().any(|journal| holds_any(journal))
}

/// Returns a reference to each of the journals.
fn references(alloc: Global, journals: &[Journal]) -> Result<Vec<&Journal>, AllocError>
    ensures { IfOk result (λ all. map (λ log. log.now) all.items ≡ journals.now) }
{
    journals.iter().collect(alloc)
}

/// Returns a reference to each of the journals, in order of their sessions.
fn other_references(
    alloc: Global,
    others: &BTreeMap<u16, Journal>,
) -> Result<Vec<&Journal>, AllocError>
    ensures all { IfOk result (λ all. map (λ log. log.now) all.items ≡ values others.now) }
    ensures ordered { IsOrdered nat_cmp others.now }
{
    others.values().collect(alloc)
}

/// Returns an empty journal for each session that keeps one, in order of their numbers.
fn empty_journals(alloc: Global) -> Result<Vec<Journal>, AllocError>
    ensures { IfOk result (λ journals. AreEmpty KEPT journals.items) }
{
    let mut journals = Vec::with_capacity(alloc, usize::from(KEPT))?;
    for below in 0..KEPT {
        if let Some(session) = Session::new(below + 1) {
            journals.push(Journal::new(alloc, session))?;
        }
    }
    Ok(journals)
}

/// Empties the journals. Takes no memory.
fn empty_all(journals: &mut Vec<Journal>)
    ensures { journals.new.items ≡ map (λ log. empty_journal log.session) journals.old.items }
{
    for journal in journals.iter_mut() {
        journal.take_all();
    }
}
