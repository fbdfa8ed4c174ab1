ghost use Rattle.escrow_num.specs.Session.{IsSession};
ghost use Rattle.escrow_journal.specs.Journal.{IsJournal};

use crate::journals::{Journals, holds_any};
use crate::merge::merged;
use escrow_journal::Journal;
use escrow_num::{Changes, Name, Refusal, Reservation, RowName, Session};
use smallvec::SmallVec;
use std::alloc::{AllocError, Global};
use std::marker::Model;

/// The open transactions of a database: the journals of its sessions, and the id that the next
/// reservation takes. Contracts see the journals as one list of reservations in order of grant, and
/// one list of savepoints.
#[derive(Debug)]
pub struct TxnTable {
    journals: Journals,
    next_id: u64,
}

// Written out, so that crates above need not prove again how its parts are dropped.
impl Drop for TxnTable {
    fn drop(self) {
        let TxnTable {
            journals: _,
            next_id: _,
        } = self;
    }
}

impl Model for TxnTable {
    ghost use Rattle.escrow_txn.specs.Inside.{open_of};
    ghost use Rattle.escrow_txn.specs.Joined.{AreJournals};
    ghost use Rattle.escrow_journal.specs.Open.{Open};

    ghost Value = { Open };

    ghost view = { λ t. open_of t };

    ghost invariant = { λ t. AreJournals t.journals t.next_id };
}

impl TxnTable {
    ghost use Rattle.std.specs.Prelude.{◌≡◌, ◌≤◌, ◌⊎◌, [], IfOk, IfErr, IfSome, IsErrOf, OnOk, OnErr, Err, Some, None, length, map, option_copied, option_map, unwrap_or};
    ghost use Rattle.escrow_journal.specs.Reservations.{own, own_savepoints};
    ghost use Rattle.escrow_journal.specs.Savepoints.{savepoint_of, after};
    ghost use Rattle.escrow_journal.specs.Open.{nothing_open, is_open, has_open, id_left, grant_refusal, open_after_grant, savepoint_refusal, open_after_savepoint, released, open_after_rollback_to, open_after_end};

    /// Returns a table in which nothing is open and the next id is 1. Fails only if memory is
    /// refused.
    pub fn new(alloc: Global) -> Result<Self, AllocError>
        ensures { IfOk result (λ t. t ≡ nothing_open) }
    {
        Ok(TxnTable {
            journals: Journals::new(alloc)?,
            next_id: 1,
        })
    }

    /// Returns whether a session's transaction is open: it holds a reservation or a savepoint.
    pub fn is_open(&self, session: Session) -> bool
        ensures { result ≡ is_open session self.now }
    {
        match self.journal(session) {
            Some(journal) => holds_any(journal),
            None => false,
        }
    }

    /// Returns whether anything is open: a reservation or a savepoint of any session.
    pub fn has_open(&self) -> bool
        ensures { result ≡ has_open self.now }
    {
        self.journals.hold_any()
    }

    /// Returns the journal of a session, which holds all that is open in this session. Returns
    /// `None` only if nothing is.
    pub fn journal(&self, session: Session) -> Option<&Journal>
        ensures session { IfSome result (λ journal. journal.now.session ≡ session) }
        ensures reservations { unwrap_or (option_map (λ journal. journal.now.reservations) result) []
            ≡ own session self.now.reservations }
        ensures savepoints { unwrap_or (option_map (λ journal. journal.now.savepoints) result) []
            ≡ own_savepoints session self.now.savepoints }
        ensures valid { IfSome result (λ journal. IsJournal journal.now) }
        ensures within { IsSession session }
    {
        self.journals.get(session)
    }

    /// Returns the open reservations of a session, in order of grant.
    pub fn reservations(&self, session: Session) -> &[Reservation]
        ensures all { result.now ≡ own session self.now.reservations }
        ensures few { length result.now ≤ Journal.MAX_RESERVATIONS }
        ensures within { IsSession session }
    {
        match self.journal(session) {
            Some(journal) => journal.all(),
            None => &[],
        }
    }

    /// Returns the id that the next reservation takes, or `None` if there are no more ids.
    pub fn next_id(&self) -> Option<u64>
        ensures { result ≡ id_left self.now.next_id }
    {
        if self.next_id <= Reservation::MAX_ID {
            Some(self.next_id)
        } else {
            None
        }
    }

    /// Returns why a session can't get a reservation, memory aside: it holds as many as it may, or
    /// there are no more ids.
    pub fn grant_refusal(&self, session: Session) -> Option<Refusal>
        ensures refusal { result ≡ grant_refusal session self.now }
        ensures within { IsSession session }
    {
        if self.reservations(session).len() >= Journal::MAX_RESERVATIONS {
            return Some(Refusal::TooManyReservations);
        }
        if self.next_id > Reservation::MAX_ID {
            return Some(Refusal::NoMoreIds);
        }
        None
    }

    /// Grants a session a reservation of changes of a row. The reservation takes the next id, and
    /// is the last of the open ones. Returns its id. Fails if the session holds as many as it may,
    /// or else if there are no more ids, however little memory there is. Otherwise it fails only if
    /// memory is refused. After an error nothing has changed, and no id was taken.
    pub fn grant(
        &mut self,
        session: Session,
        row: RowName,
        changes: Changes,
    ) -> Result<u64, Refusal>
        ensures id { IfOk result (λ id. id ≡ self.old.next_id) }
        ensures granted { OnOk result (self.new ≡ open_after_grant session row changes self.old) }
        ensures unchanged { OnErr result (self.new ≡ self.old) }
        ensures refused { IfSome (grant_refusal session self.old) (λ e. result ≡ Err e) }
        ensures only { IfErr result (λ e. (grant_refusal session self.old ≡ Some e) ⊎ (e ≡ Refusal.Memory)) }
    {
        if let Some(refusal) = self.grant_refusal(session) {
            return Err(refusal);
        }
        let id = self.next_id;
        let reservation = Reservation {
            id,
            session,
            row,
            changes,
        };
        self.journals.push(reservation)?;
        self.next_id += 1;
        Ok(id)
    }

    /// Makes a savepoint of a session. An earlier one of that name is removed (Oracle's rule), and
    /// doesn't count. Takes memory only if no other refusal applies. After an error nothing has
    /// changed.
    pub fn mark(&mut self, session: Session, name: Name) -> Result<(), Refusal>
        ensures saved { OnOk result (self.new ≡ open_after_savepoint session name self.old) }
        ensures unchanged { OnErr result (self.new ≡ self.old) }
        ensures refused { IfSome (savepoint_refusal session name self.old) (λ e. result ≡ Err e) }
        ensures only { IfErr result (λ e. (savepoint_refusal session name self.old ≡ Some e) ⊎ (e ≡ Refusal.Memory)) }
        ensures within { IsSession session }
    {
        let id = self.next_id;
        self.journals.mark(session, name, id)
    }

    /// Takes a session back to its savepoint of a name: drops what it reserved after it, and the
    /// savepoints that it made after it. Returns how many reservations were dropped. Returns `None`
    /// exactly if there is no such savepoint, and then nothing changes. Takes no memory.
    pub fn cut(&mut self, session: Session, name: Name) -> Option<u32>
        ensures count { result ≡ released session name self.old }
        ensures cut { self.new ≡ open_after_rollback_to session name self.old }
    {
        self.journals.cut(session, name)
    }

    /// Returns the reservations of a session after its savepoint of a name, in order of grant:
    /// those that [`TxnTable::cut`] would drop. Returns `None` exactly if there is no such
    /// savepoint.
    pub fn after(&self, session: Session, name: Name) -> Option<&[Reservation]>
        ensures { option_copied result ≡ option_map
            (λ p. after p self.now.reservations) (savepoint_of session name self.now.savepoints) }
    {
        self.journals.get(session)?.after(name)
    }

    /// Ends a session's transaction: returns its reservations, in order of grant, and leaves it
    /// without reservations and savepoints. Takes no memory.
    pub fn take_all(&mut self, session: Session) -> SmallVec<Reservation, 4>
        ensures all { result.items ≡ own session self.old.reservations }
        ensures ended { self.new ≡ open_after_end session self.old }
    {
        self.journals.take_all(session)
    }

    /// Drops all reservations and savepoints, and sets the next id to 1. Takes no memory.
    pub fn clear(&mut self)
        ensures { self.new ≡ nothing_open }
    {
        self.journals.clear();
        self.next_id = 1;
    }

    /// Returns the open reservations of all sessions, in order of id, which is the order of grant.
    /// Fails only if memory is refused.
    pub fn all_in_order(&self, alloc: Global) -> Result<Vec<&Reservation>, AllocError>
        ensures { IfOk result (λ all. map (λ r. r.now) all.items ≡ self.now.reservations) }
    {
        merged(alloc, &self.journals.all(alloc)?)
    }
}
