ghost use Rattle.std.specs.Prelude.{◌≡◌, ◌-◌, ◌^◌, ◌<◌, [], ◌∷◌, ◌++◌, List, length};
ghost use Rattle.escrow_machine.specs.declared.reply.Reply.{Reply};
ghost use Rattle.escrow_stats.specs.Tally.{kind_of, tally_of, with_one, next_total};

use crate::kind::Kind;
use escrow_machine::Reply;

/// How many replies count in each total.
#[derive(Clone, Copy, Debug, PartialEq, Eq)]
pub struct Tally {
    /// Statements that were served: all but those answered 51, 52 or 60.
    pub served: u64,
    /// Reservations that were granted.
    pub granted: u64,
    /// Statements that were refused because a check could be broken (41).
    pub broken: u64,
    /// Statements that were refused for any other reason.
    pub refused: u64,
    /// Transactions that were committed.
    pub commits: u64,
    /// Transactions that were rolled back, wholly or to a savepoint.
    pub rollbacks: u64,
    /// Rows that were inserted, deleted, or had plain values replaced.
    pub writes: u64,
    /// Queries that were answered: SELECT and SHOW.
    pub queries: u64,
}

impl Tally {
    /// Returns the tally of no replies: all totals are zero.
    pub fn new() -> Self
        ensures { result ≡ tally_of [] }
    {
        Tally {
            served: 0,
            granted: 0,
            broken: 0,
            refused: 0,
            commits: 0,
            rollbacks: 0,
            writes: 0,
            queries: 0,
        }
    }

    /// Returns the tally with one more reply. A total at its maximum, 2^64 - 1, stays there.
    pub fn with(self, reply: &Reply) -> Self
        ensures one_more { result ≡ with_one self (kind_of reply.now) }

        // If the tally is that of a list of replies, it becomes that of the list with this one.
        ensures tally { (replies : List Reply) → self ≡ tally_of replies → length replies < 2 ^ 64 - 1
            → result ≡ tally_of (replies ++ reply.now ∷ []) }
    {
        self.with_kind(Kind::of(reply))
    }

    /// Returns the tally with one more reply of a kind.
    fn with_kind(mut self, kind: Kind) -> Self
        ensures { result ≡ with_one self kind }
    {
        if kind != Kind::Unserved {
            count(&mut self.served);
        }
        match kind {
            Kind::Unserved | Kind::ServedAlone => {}
            Kind::Granted => count(&mut self.granted),
            Kind::Broken => count(&mut self.broken),
            Kind::Refused => count(&mut self.refused),
            Kind::Commit => count(&mut self.commits),
            Kind::Rollback => count(&mut self.rollbacks),
            Kind::Write => count(&mut self.writes),
            Kind::Query => count(&mut self.queries),
        }
        self
    }
}

/// Adds one to a total, unless it is at its maximum.
fn count(total: &mut u64)
    ensures { total.new ≡ next_total total.old }
{
    *total = total.saturating_add(1);
}
