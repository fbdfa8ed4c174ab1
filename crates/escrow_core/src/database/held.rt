ghost use Rattle.std.specs.Prelude.{◌≡◌, ◌==◌, ◌<◌, length};
ghost use Rattle.std.specs.List.{list_any};

use escrow_num::{End, Session};
use std::marker::Model;

/// COMMITs that are held back, in the order in which they were asked: the plan that writes them,
/// and the places of their replies.
#[derive(Drop)]
pub(crate) struct HeldBack {
    plan: [(Session, End); HeldBack::MAX],
    places: [usize; HeldBack::MAX],
    count: usize,
}

impl Model for HeldBack {
    ghost use Rattle.escrow_core.specs.Beside.{HeldBack};
    ghost use Rattle.escrow_core.specs.declared.database.held.TheConstants.HeldBack.{MAX};
    ghost use Rattle.std.specs.Prelude.{◌≡◌, ◌≤◌, length, take};

    ghost Value = { HeldBack };

    ghost view = { λ h. record { plan = take h.count h.plan; places = take h.count h.places } };

    ghost invariant = { λ h. (h.count ≤ MAX) × (length h.plan ≡ MAX) × (length h.places ≡ MAX) };
}

impl HeldBack {
    ghost use Rattle.std.specs.Prelude.{OnSome, IfNone};
    ghost use Rattle.escrow_core.specs.Beside.{none_held, with_held};
    ghost use Rattle.escrow_core.specs.declared.database.held.TheConstants.HeldBack.{MAX};

    /// The most COMMITs that are held back.
    pub const MAX: usize = 64;

    /// Returns a list that holds nothing back.
    pub fn new() -> Self
        ensures { result ≡ none_held }
    {
        HeldBack {
            plan: [(Session::FIRST, End::Commit); Self::MAX],
            places: [0; Self::MAX],
            count: 0,
        }
    }

    /// Returns the plan that writes the COMMITs.
    pub fn plan(&self) -> &[(Session, End)]
        ensures { result.now ≡ self.now.plan }
    {
        &self.plan[..self.count]
    }

    /// Returns the places of the replies.
    pub fn places(&self) -> &[usize]
        ensures value { result.now ≡ self.now.places }
        ensures pairs { length self.now.plan ≡ length self.now.places }
    {
        &self.places[..self.count]
    }

    /// Returns whether the COMMIT of a session is held back.
    pub fn names(&self, session: Session) -> bool
        ensures { result ≡ list_any (λ entry. entry.0 == session) self.now.plan }
    {
        self.plan().iter().any(|(other, _)| *other == session)
    }

    /// Holds back the COMMIT of a session. `place` is where its reply goes. Returns `None` if there
    /// is no room, and then nothing changes.
    pub fn push(&mut self, session: Session, place: usize) -> Option<()>
        ensures held { OnSome result (self.new ≡ with_held self.old session place) }
        ensures full { IfNone result (length self.old.plan ≡ MAX) }
        ensures same { IfNone result (self.new ≡ self.old) }
    {
        if self.count == Self::MAX {
            return None;
        }
        self.plan[self.count] = (session, End::Commit);
        self.places[self.count] = place;
        self.count += 1;
        Some(())
    }

    /// Forgets the COMMITs, after they were written.
    pub fn clear(&mut self)
        ensures { self.new ≡ none_held }
    {
        self.count = 0;
    }
}
