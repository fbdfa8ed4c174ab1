ghost use Rattle.std.specs.Prelude.{◌≡◌, length};

use escrow_history::Committed;
use escrow_num::{Failure, Session};
use std::alloc::{AllocError, Global};
use std::marker::Model;

/// The COMMITs that wait while another one of their database is served, each in the place of its
/// session; and whether a call leads. The call that leads takes the lock, then serves its own
/// COMMIT together with those that wait. It leaves each outcome in its place. Then it lets a call
/// lead that came meanwhile.
#[derive(Drop)]
pub(crate) struct CommitQueue {
    places: [CommitState; CommitQueue::COUNT],
    // How many COMMITs wait. If none does, a COMMIT need not look into the places.
    count: usize,
    is_led: bool,
}

/// The place of a session.
#[derive(Clone, Copy)]
pub(crate) enum CommitState {
    /// No COMMIT of the session waits.
    Free,
    /// Its COMMIT waits.
    Asked,
    /// The call that asked for its COMMIT leads from now on, and has yet to notice.
    Leads,
    /// Its COMMIT was served, or wasn't, and the call that asked for it has yet to take the
    /// outcome.
    Answered(Result<Committed, Failure>),
}

/// What happens to a COMMIT after it was asked for.
#[derive(Clone, Copy)]
pub(crate) enum Turn {
    /// The call leads.
    Leads,
    /// It waits for the call that leads.
    Waits,
    /// Another call is in its place. This may be one with a pass of the same session of other
    /// databases.
    Alone,
    /// It was served, or wasn't.
    Answered(Result<Committed, Failure>),
}

impl Model for CommitQueue {
    ghost use Rattle.escrow_shards.specs.CommitPlaces.{AreInPlaces};
    ghost use Rattle.escrow_shards.specs.CommitQueue.{Queue};

    ghost Value = { Queue };

    ghost view = { λ w. record { places = w.places; is_led = w.is_led } };

    ghost invariant = { λ w. AreInPlaces (record { places = w.places; is_led = w.is_led }) w.count };
}

impl CommitQueue {
    ghost use Rattle.std.specs.Prelude.{◌≡◌, ◌≢◌, ◌⊎◌, ◌∷◌, ◌↔◌, ◌<◌, ◌≤◌, false, length, replicate, true, IfNone, IfOk, IfSome, IsTrue, vec_len};
    ghost use Rattle.escrow_num.specs.declared.session.TheConstants.Session.{MAX_SHARED};
    ghost use Rattle.escrow_history.specs.Commits.{NameTheirs};
    ghost use Rattle.escrow_shards.specs.declared.commit_queue.TheConstants.CommitQueue.{COUNT};
    ghost use Rattle.escrow_shards.specs.CommitPlaces.{answered, turn_in, with_place, IsPlaceOf, IsTurnOf, NoneWaitsIn};
    ghost use Rattle.escrow_shards.specs.CommitQueue.{asking, at, EndsLead, HandsOnLead, NoneWaits};

    /// The number of places: one for each session of a database that threads share.
    pub const COUNT: usize = Session::MAX_SHARED as usize;

    /// Returns places in which no COMMIT waits. No call leads.
    pub(crate) fn new() -> Self
        ensures { result ≡ record { places = replicate COUNT CommitState.Free; is_led = false } }
    {
        CommitQueue {
            places: [CommitState::Free; Self::COUNT],
            count: 0,
            is_led: false,
        }
    }

    /// Enters the COMMIT of a session: its call leads if none does, or else waits. It neither leads
    /// nor waits if another call is in the session's place, or if the session has none.
    pub(crate) fn ask(&mut self, session: Session) -> Turn
        ensures turn { (result ≡ Turn.Leads) ⊎ (result ≡ Turn.Waits) ⊎ (result ≡ Turn.Alone) }
        ensures waits { result ≡ Turn.Waits → (at self.old session ≡ CommitState.Free)
            × (self.new ≡ with_place self.old session CommitState.Asked) }
        ensures same { (result ≡ Turn.Leads) ⊎ (result ≡ Turn.Alone) → self.new.places ≡ self.old.places }
        ensures leads { (result ≡ Turn.Leads) ↔ (self.old.is_led ≡ false) }
        ensures led { self.new.is_led ≡ true }
        ensures alone { result ≡ Turn.Alone → (at self.old session ≢ CommitState.Free) ⊎ (MAX_SHARED < session) }
    {
        let place = usize::from(session.get()) - 1;
        if !self.is_led {
            self.is_led = true;
            return Turn::Leads;
        }
        if place >= Self::COUNT || !matches!(self.places[place], CommitState::Free) {
            return Turn::Alone;
        }
        self.put(session, CommitState::Asked);
        Turn::Waits
    }

    /// Returns whether the COMMIT of a session waits.
    pub(crate) fn waits(&self, session: Session) -> bool
        ensures { IsTrue result ↔ (at self.now session ≡ CommitState.Asked) }
    {
        let place = usize::from(session.get()) - 1;
        place < Self::COUNT && matches!(self.places[place], CommitState::Asked)
    }

    /// Takes the outcome of a session's COMMIT out of its place.
    pub(crate) fn take(&mut self, session: Session) -> Turn
        ensures turn { result ≡ turn_in (at self.old session) }
        ensures named { IsTurnOf session result }
        ensures free { self.new ≡ with_place self.old session CommitState.Free }
    {
        match self.put(session, CommitState::Free) {
            CommitState::Answered(outcome) => Turn::Answered(outcome),
            CommitState::Leads => Turn::Leads,
            CommitState::Free | CommitState::Asked => Turn::Alone,
        }
    }

    /// Returns a session, and then those whose COMMITs wait. Returns `None` if none waits or memory
    /// is refused.
    pub(crate) fn those_with(&self, alloc: Global, first: Session) -> Option<Vec<Session>>
        ensures some { IfSome result (λ sessions. 2 ≤ vec_len sessions) }
        ensures sessions { IfSome result (λ sessions. sessions.items ≡ first ∷ asking 0 self.now.places) }
    {
        if self.count == 0 {
            return None;
        }
        self.with_those(alloc, first).ok()
    }

    /// Returns a session, and then those whose COMMITs wait. Fails only if memory is refused.
    fn with_those(&self, alloc: Global, first: Session) -> Result<Vec<Session>, AllocError>
        ensures { IfOk result (λ sessions. sessions.items ≡ first ∷ asking 0 self.now.places) }
    {
        let mut sessions = Vec::with_capacity(alloc, self.count.saturating_add(1))?;
        sessions.push(first)?;
        for before in 0..Session::MAX_SHARED {
            let Some(session) = Session::new(before + 1) else {
                unreachable!();
            };
            if self.waits(session) {
                sessions.push(session)?;
            }
        }
        Ok(sessions)
    }

    /// Leaves the outcomes of sessions' COMMITs in their places, one for each session.
    pub(crate) fn answer(&mut self, sessions: &[Session], outcomes: &[Result<Committed, Failure>])
        requires each { length outcomes.now ≡ length sessions.now }
        requires named { NameTheirs sessions.now outcomes.now }
        ensures { self.new ≡ answered sessions.now outcomes.now self.old }
    {
        for (session, outcome) in sessions.iter().zip(outcomes) {
            self.put(*session, CommitState::Answered(*outcome));
        }
    }

    /// Ends the lead of a call. The next session after its own whose COMMIT waits leads, or none
    /// does.
    pub(crate) fn pass_on(&mut self, from: Session)
        ensures lead { EndsLead self.old self.new ⊎ HandsOnLead self.old self.new }
    {
        let next = self.next_after(from);
        self.is_led = next.is_some();
        if let Some(session) = next {
            self.put(session, CommitState::Leads);
        }
    }

    /// Returns the next session after a session whose COMMIT waits. After the last one comes the
    /// first one.
    fn next_after(&self, session: Session) -> Option<Session>
        ensures waits { IfSome result (λ next. at self.now next ≡ CommitState.Asked) }
        ensures none { IfNone result (NoneWaits self.now) }
    {
        if self.count == 0 {
            return None;
        }
        match self.first_waiting(session.get(), Session::MAX_SHARED) {
            Some(next) => Some(next),
            None => self.first_waiting(0, session.get().min(Session::MAX_SHARED)),
        }
    }

    /// Returns the first session whose COMMIT waits, of those that come after the number `before`,
    /// up to the number `last`.
    fn first_waiting(&self, before: u16, last: u16) -> Option<Session>
        requires shared { last ≤ MAX_SHARED }
        ensures waits { IfSome result (λ next. at self.now next ≡ CommitState.Asked) }
        ensures none { IfNone result (NoneWaitsIn before last self.now.places) }
    {
        for before in before..last {
            let Some(session) = Session::new(before + 1) else {
                unreachable!();
            };
            if self.waits(session) {
                return Some(session);
            }
        }
        None
    }

    /// Puts another state into the place of a session. Returns the one that was there. If the
    /// session has no place, nothing changes, and the state returned is `Free`.
    fn put(&mut self, session: Session, new: CommitState) -> CommitState
        requires named { IsPlaceOf session new }
        requires led { new ≡ CommitState.Asked → self.old.is_led ≡ true }
        ensures found { result ≡ at self.old session }
        ensures named { IsPlaceOf session result }
        ensures put { self.new ≡ with_place self.old session new }
    {
        let place = usize::from(session.get()) - 1;
        let Some(found) = self.places.get(place) else {
            return CommitState::Free;
        };
        let found = *found;
        self.places[place] = new;
        if let CommitState::Asked = &found {
            self.count -= 1;
        }
        if let CommitState::Asked = &new {
            self.count += 1;
        }
        found
    }
}
