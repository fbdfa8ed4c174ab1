ghost use Rattle.std.specs.Prelude.{◌≡◌, ◌-◌, ◌<◌, ◌≤◌, vec_capacity};
ghost use Rattle.escrow_num.specs.Session.{IsSession};
ghost use Rattle.escrow_serve.specs.declared.totals.TheConstants.{SESSIONS};

use escrow_core::Reply;
use escrow_num::Session;
use escrow_stats::Tally;
use std::alloc::{AllocError, Global};

/// The most sessions that a database may have.
const SESSIONS: usize = Session::MAX as usize;

/// The totals of each session of a database, since a script began or the database was last
/// restarted. There is room for those of all sessions, so counting takes no memory. No part of that
/// room is touched before it is needed, so the system gives it only as much as the greatest session
/// takes that got a reply.
#[derive(Drop)]
pub(crate) struct Totals {
    /// The totals of session 1 come first. The sessions after the last one here got no reply.
    tallies: Vec<Tally>,
    ghost room: { SESSIONS ≤ vec_capacity tallies },
}

impl Totals {
    ghost use Rattle.std.specs.Prelude.{◌≡◌, ◌+◌, ◌^◌, ◌<◌, ◌∷◌, ◌++◌, [], ℕ, List, IfOk, vec_len};
    ghost use Rattle.std.specs.List.{AllByRecursion};
    ghost use Rattle.escrow_machine.specs.declared.reply.Reply.{Reply};
    ghost use Rattle.escrow_stats.specs.Tally.{tally_of};
    ghost use Rattle.escrow_serve.specs.Output.{replies_to};
    ghost use Rattle.escrow_serve.specs.Totals.{AreNone, AreTotals};

    /// Returns the totals of a database whose sessions got no reply yet.
    pub(crate) fn new(alloc: Global) -> Result<Self, AllocError>
        ensures { IfOk result AreNone }
    {
        Ok(Totals {
            tallies: Vec::with_capacity(alloc, SESSIONS)?,
        })
    }

    /// Returns the totals of this many databases whose sessions got no reply yet.
    pub(crate) fn of_databases(alloc: Global, databases: usize) -> Result<Vec<Totals>, AllocError>
        ensures none { IfOk result (λ totals. AllByRecursion AreNone totals.items) }
        ensures len { IfOk result (λ totals. vec_len totals ≡ databases) }
    {
        let mut totals = Vec::with_capacity(alloc, databases)?;
        while totals.len() < databases {
            totals.push_reserved(Totals::new(alloc)?);
        }
        Ok(totals)
    }

    /// Forgets what each session got.
    pub(crate) fn clear(&mut self)
        ensures { AreNone self.new }
    {
        self.tallies.clear();
    }

    /// Returns the totals of a session.
    pub(crate) fn of(&self, session: Session) -> Tally
        ensures { (answered : List (ℕ × Reply)) (most : ℕ) → AreTotals self.now answered most
            → result ≡ tally_of (replies_to session answered) }
    {
        let place = place_of(session);
        if place < self.tallies.len() {
            self.tallies[place]
        } else {
            Tally::new()
        }
    }

    /// Counts a reply to a session.
    pub(crate) fn count(&mut self, session: Session, reply: &Reply)
        ensures { (answered : List (ℕ × Reply)) (most : ℕ) → AreTotals self.old answered most → most < 2 ^ 64 - 1
            → AreTotals self.new (answered ++ (session, reply.now) ∷ []) (most + 1) }
    {
        let place = place_of(session);
        self.reach(place);
        let tally = self.tallies[place];
        self.tallies[place] = tally.with(reply);
    }

    /// Adds totals of no replies, until there are some at a place.
    fn reach(&mut self, place: usize)
        requires { place < SESSIONS }
        ensures same { (answered : List (ℕ × Reply)) (most : ℕ) → AreTotals self.old answered most
            → AreTotals self.new answered most }
        ensures within { place < vec_len self.new.tallies }
    {
        while self.tallies.len() <= place {
            self.tallies.push_reserved(Tally::new());
        }
    }
}

/// Returns the place of a session's totals among those of all.
fn place_of(session: Session) -> usize
    ensures value { result ≡ session - 1 }
    ensures within { result < SESSIONS }
    ensures is_session { IsSession session }
{
    usize::from(session.get()) - 1
}
