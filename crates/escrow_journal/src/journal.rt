use crate::lists::{count_others, first_from, make_room, place_of_name};
use escrow_num::{Name, Refusal, Reservation, Savepoint, Session};
use smallvec::SmallVec;
use std::alloc::Global;
use std::marker::Model;
use std::mem;

/// The journal of a session: its open reservations in order of grant, and its savepoints in the
/// order in which they were made. The first four of each are held in place; only more take memory.
#[derive(Debug)]
pub struct Journal {
    session: Session,
    reservations: SmallVec<Reservation, 4>,
    savepoints: SmallVec<Savepoint, 4>,
}

// Written out, so that crates above need not prove again how its parts are dropped.
impl Drop for Journal {
    fn drop(self) {
        let Journal {
            session: _,
            reservations: _,
            savepoints: _,
        } = self;
    }
}

impl Model for Journal {
    ghost use Rattle.escrow_journal.specs.Journal.{Journal, IsJournal};
    ghost use Rattle.escrow_journal.specs.Inside.{journal_of};

    ghost Value = { Journal };

    ghost view = { λ j. journal_of j };

    ghost invariant = { λ j. IsJournal (journal_of j) };
}

impl Journal {
    ghost use Rattle.std.specs.Prelude.{◌≡◌, ◌⊎◌, IsTrue, IfErr, IsOk, IsSome, IsErrOf, OnOk, OnErr, Err, length, option_copied, option_map};
    ghost use Rattle.std.specs.List.{AllByRecursion};
    ghost use Rattle.escrow_journal.specs.Inside.{IsLeft};
    ghost use Rattle.escrow_journal.specs.Journal.{IsJournal, empty_journal, is_full, is_full_beside, pushed, marked, later, cut_journal};
    ghost use Rattle.escrow_journal.specs.Reservations.{reservation_before};
    ghost use Rattle.escrow_journal.specs.Savepoints.{savepoint_of};

    /// The most open reservations of a session.
    pub const MAX_RESERVATIONS: usize = 256;

    /// The most savepoints of a session.
    pub const MAX_SAVEPOINTS: usize = 64;

    /// Returns an empty journal of a session. Takes no memory.
    pub fn new(alloc: Global, session: Session) -> Self
        ensures { result ≡ empty_journal session }
    {
        Journal {
            session,
            reservations: SmallVec::new(alloc),
            savepoints: SmallVec::new(alloc),
        }
    }

    /// Returns the session whose journal it is. All that it holds is of this session, and ids rise
    /// in it.
    pub fn session(&self) -> Session
        ensures value { result ≡ self.now.session }
        ensures valid { IsJournal self.now }
    {
        self.session
    }

    /// Returns the open reservations, in order of grant.
    pub fn all(&self) -> &[Reservation]
        ensures { result.now ≡ self.now.reservations }
    {
        self.reservations.as_slice()
    }

    /// Returns the savepoints, in the order in which they were made.
    pub fn savepoints(&self) -> &[Savepoint]
        ensures { result.now ≡ self.now.savepoints }
    {
        self.savepoints.as_slice()
    }

    /// Adds a reservation of the session. Its id must be above those that the journal holds. Fails
    /// for their number exactly if the journal holds [`Journal::MAX_RESERVATIONS`], however little
    /// memory there is. Otherwise it fails only if memory is refused. After an error the journal is
    /// unchanged.
    pub fn push(&mut self, r: Reservation) -> Result<(), Refusal>
        requires own { r.session ≡ self.old.session }
        requires above { AllByRecursion (λ earlier. IsTrue (reservation_before earlier r)) self.old.reservations }
        ensures pushed { OnOk result (self.new ≡ pushed r self.old) }
        ensures unchanged { OnErr result (self.new ≡ self.old) }
        ensures refused { IsTrue (is_full self.old) → result ≡ Err Refusal.TooManyReservations }
        ensures only { IfErr result (λ e. (e ≡ Refusal.TooManyReservations) ⊎ (e ≡ Refusal.Memory)) }
        ensures room { IsErrOf result Refusal.TooManyReservations → IsTrue (is_full self.old) }
        ensures valid { IsJournal self.new }
    {
        if self.reservations.len() >= Self::MAX_RESERVATIONS {
            return Err(Refusal::TooManyReservations);
        }
        self.reservations.push(r)?;
        Ok(())
    }

    /// Makes a savepoint of a name, with the id that the next reservation takes. An earlier one of
    /// the same name is removed (Oracle's rule): it doesn't count, and the new one uses its place.
    /// Takes memory only if there is none of that name. Fails for their number exactly if there are
    /// [`Journal::MAX_SAVEPOINTS`] of other names. After an error the journal is unchanged.
    pub fn mark(&mut self, name: Name, id: u64) -> Result<(), Refusal>
        ensures marked { OnOk result (self.new ≡ marked name id self.old) }
        ensures unchanged { OnErr result (self.new ≡ self.old) }
        ensures refused { IsTrue (is_full_beside name self.old) → result ≡ Err Refusal.TooManySavepoints }
        ensures only { IfErr result (λ e. (e ≡ Refusal.TooManySavepoints) ⊎ (e ≡ Refusal.Memory)) }
        ensures room { IsErrOf result Refusal.TooManySavepoints → IsTrue (is_full_beside name self.old) }
        ensures again { IsSome (savepoint_of self.old.session name self.old.savepoints) → IsOk result }
        ensures valid { IsJournal self.new }
    {
        if count_others(&self.savepoints, name) >= Self::MAX_SAVEPOINTS {
            return Err(Refusal::TooManySavepoints);
        }
        if make_room(&mut self.savepoints, name).is_err() {
            return Err(Refusal::Memory);
        }
        self.savepoints.push_reserved(Savepoint {
            session: self.session,
            name,
            id,
        });
        Ok(())
    }

    /// Returns the reservations after the savepoint of a name, in order of grant: those that
    /// [`Journal::cut`] would remove. Returns `None` exactly if there is no such savepoint.
    pub fn after(&self, name: Name) -> Option<&[Reservation]>
        ensures { option_copied result ≡ later name self.now }
    {
        let (_, first) = self.left(name)?;
        Some(&self.reservations[first..])
    }

    /// Goes back to the savepoint of a name: removes exactly the reservations after it and the
    /// savepoints that were made after it. The savepoint itself stays. Returns how many
    /// reservations were removed. Returns `None` exactly if there is no such savepoint, and then
    /// the journal is unchanged. Takes no memory.
    pub fn cut(&mut self, name: Name) -> Option<u32>
        ensures count { result ≡ option_map length (later name self.old) }
        ensures cut { self.new ≡ cut_journal name self.old }
        ensures valid { IsJournal self.new }
    {
        let (marks, first) = self.left(name)?;
        let count = self.reservations.len() - first;
        self.reservations.truncate(first);
        self.savepoints.truncate(marks);
        Some(count as u32)
    }

    /// Returns how many savepoints and how many reservations remain if the journal goes back to the
    /// savepoint of a name: the first ones. Returns `None` exactly if there is no such savepoint.
    fn left(&self, name: Name) -> Option<(usize, usize)>
        ensures { IsLeft name self.now result }
    {
        let place = place_of_name(&self.savepoints, name)?;
        let savepoint = self.savepoints[place];
        Some((place + 1, first_from(&self.reservations, savepoint.id)))
    }

    /// Returns all reservations, in order of grant, and empties the journal. Takes no memory.
    pub fn take_all(&mut self) -> SmallVec<Reservation, 4>
        ensures all { result.items ≡ self.old.reservations }
        ensures none { self.new ≡ empty_journal self.old.session }
        ensures valid { IsJournal self.new }
    {
        let blank = SmallVec::new(*self.reservations.allocator());
        self.savepoints.clear();
        mem::replace(&mut self.reservations, blank)
    }
}
