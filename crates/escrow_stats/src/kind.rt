ghost use Rattle.std.specs.Prelude.{◌≡◌};
ghost use Rattle.escrow_stats.specs.Tally.{kind_of, kind_of_refusal};

use escrow_machine::Reply;
use escrow_num::Refusal;

/// The totals in which a reply counts.
#[derive(Clone, Copy, Debug, PartialEq, Eq)]
pub enum Kind {
    /// None: nothing was served, because memory (51) or room in the transcript (52) was missing, or
    /// by the store's refusal (60).
    Unserved,
    /// Served alone: a table was created, dropped or altered, or a savepoint made.
    ServedAlone,
    /// Served and granted: a reservation was granted.
    Granted,
    /// Served and broken: a check could be broken (41).
    Broken,
    /// Served and refused: any other refusal.
    Refused,
    /// Served and commits: a transaction was committed.
    Commit,
    /// Served and rollbacks: a transaction was rolled back, wholly or to a savepoint.
    Rollback,
    /// Served and writes: a row was inserted or deleted, or plain values of a row were replaced.
    Write,
    /// Served and queries: rows, a table, bounds or open reservations were shown.
    Query,
}

impl Kind {
    /// Returns the kind of a reply.
    pub fn of(reply: &Reply) -> Kind
        ensures { result ≡ kind_of reply.now }
    {
        match reply {
            Reply::Refused(refusal) => Kind::of_refusal(refusal),
            Reply::Created(_) | Reply::Dropped(_) | Reply::Altered(_) => Kind::ServedAlone,
            Reply::Savepoint(_) | Reply::Restarted => Kind::ServedAlone,
            Reply::Reserved { .. } => Kind::Granted,
            Reply::Committed { .. } => Kind::Commit,
            Reply::RolledBack { .. } | Reply::RolledBackTo { .. } => Kind::Rollback,
            Reply::Inserted | Reply::Deleted | Reply::Updated => Kind::Write,
            Reply::Rows { .. } | Reply::Table(_) => Kind::Query,
            Reply::Bounds { .. } | Reply::Journal(_) => Kind::Query,
        }
    }

    /// Returns the kind of a refusal.
    fn of_refusal(refusal: &Refusal) -> Kind
        ensures { result ≡ kind_of_refusal refusal.now }
    {
        match refusal {
            Refusal::Memory | Refusal::TranscriptFull | Refusal::Store => Kind::Unserved,
            Refusal::Check(_) => Kind::Broken,
            _ => Kind::Refused,
        }
    }
}
