ghost use Rattle.std.specs.Prelude.{◌≡◌, ◌↔◌, IfOk, IsOk, IsTrue, false};

use crate::copies::are_same_refusals;
use escrow_num::{
    Amount, Failure, Name, Refusal, RowName, Scale, Seq, Session, Span, Text, Value, Wide,
    are_same, copy_all,
};
use std::alloc::{AllocError, Global};

/// The reply to a statement or to a restart.
#[derive(Debug, Drop)]
pub enum Reply {
    /// The statement or the restart is refused, and nothing changed.
    Refused(Refusal),
    /// A table with this name was created.
    Created(Name),
    /// A table with this name was dropped.
    Dropped(Name),
    /// A table with this name was altered.
    Altered(Name),
    /// A row was inserted.
    Inserted,
    /// A row was deleted.
    Deleted,
    /// Plain values of a row were replaced.
    Updated,
    /// A reservation with this id was granted.
    Reserved {
        id: u64,
    },
    /// Rows of a table are shown.
    Rows {
        /// The headings of the table's columns, in order.
        columns: Seq<Heading>,
        /// Each row's values, in column order: a number in units of its column's scale. The rows are in
        /// order of key.
        rows: Seq<Seq<Value>>,
    },
    /// A table is shown: the text that defines it.
    Table(Text),
    /// The bounds of a row are shown, over every choice of the open reservations.
    Bounds {
        /// Those of each RESERVABLE column, in column order.
        columns: Seq<ColumnBounds>,
        /// Those of each declared check, in order.
        checks: Seq<CheckBounds>,
    },
    /// The open reservations are shown, of all sessions, in order of id.
    Journal(Seq<JournalEntry>),
    /// A savepoint with this name was made.
    Savepoint(Name),
    /// The transaction was committed, and this many reservations applied.
    Committed {
        count: u32,
    },
    /// The transaction was rolled back, and this many reservations released.
    RolledBack {
        count: u32,
    },
    /// The transaction was rolled back to a savepoint.
    RolledBackTo {
        /// The savepoint's name.
        savepoint: Name,
        /// How many reservations were released: those that came after it.
        count: u32,
    },
    /// The database was restarted.
    Restarted,
}

/// The heading over the values of a column that is shown.
#[derive(Clone, Copy, Debug, PartialEq, Eq)]
pub struct Heading {
    /// The column's name.
    pub name: Name,
    /// The digits after the point with which the column's numbers are shown: those of its type, or
    /// 0 if it is one of texts.
    pub scale: Scale,
}

/// An open reservation, as SHOW JOURNAL shows it.
#[derive(Debug, Drop)]
pub struct JournalEntry {
    /// Its id.
    pub id: u64,
    /// The session whose transaction holds it.
    pub session: Session,
    /// The row that it changes.
    pub row: RowName,
    /// The digits after the point with which the row's key is shown, if it is a number: those of
    /// the key column's type. 0 if it is a text.
    pub key_scale: Scale,
    /// The changes of the columns that its UPDATE assigned, in column order.
    pub changes: Seq<ColumnChange>,
}

/// The change of a RESERVABLE column, which may be zero.
#[derive(Clone, Copy, Debug, PartialEq, Eq)]
pub struct ColumnChange {
    /// The column's name.
    pub column: Name,
    /// The digits after the point with which the change is shown: those of the column's type.
    pub scale: Scale,
    /// What is added to its amount, in units of that scale.
    pub change: Amount,
}

/// The bounds of a RESERVABLE column of a row: O'Neil's `inf` and `sup` (1986). The amounts are in
/// units of its scale.
#[derive(Clone, Copy, Debug, PartialEq, Eq)]
pub struct ColumnBounds {
    /// The column's name.
    pub column: Name,
    /// The digits after the point with which its amounts are shown: those of the column's type.
    pub scale: Scale,
    /// Its committed amount.
    pub value: Amount,
    /// The least value that it can have, whichever of the open reservations are applied.
    pub inf: Wide,
    /// The greatest value that it can have.
    pub sup: Wide,
}

/// The bounds of a check of a row. The values of its form and its limits are in units of its scale.
#[derive(Clone, Copy, Debug)]
pub struct CheckBounds {
    /// The check's name.
    pub check: Name,
    /// The digits after the point with which the values of its form are shown: those of the check.
    pub scale: Scale,
    /// The least value that its form can have, whichever of the open reservations are applied.
    pub least: Wide,
    /// The greatest value that its form can have.
    pub greatest: Wide,
    /// Its limits.
    pub limits: Span,
}

impl Reply {
    ghost use Rattle.escrow_machine.specs.Reply.{failure_of, holds_memory, restart_reply};

    /// Returns the reply to a restart with this outcome.
    pub fn to_restart(outcome: Result<(), Refusal>) -> Reply
        ensures { result ≡ restart_reply outcome }
    {
        match outcome {
            Ok(()) => Reply::Restarted,
            Err(refusal) => Reply::Refused(refusal),
        }
    }

    /// Returns the failure in the reply, if it is one.
    pub fn failure(&self) -> Option<Failure>
        ensures { result ≡ failure_of self.now }
    {
        match self {
            Reply::Refused(Refusal::Memory) => Some(Failure::Memory),
            Reply::Refused(Refusal::Store) => Some(Failure::Store),
            _ => None,
        }
    }

    /// Returns a copy of the reply. Only the replies to queries take memory.
    pub fn copy(&self, alloc: Global) -> Result<Reply, AllocError>
        ensures same { IfOk result (λ r. r ≡ self.now) }
        ensures succeeds { holds_memory self.now ≡ false → IsOk result }
    {
        Ok(match self {
            Reply::Refused(refusal) => Reply::Refused(*refusal),
            Reply::Created(name) => Reply::Created(*name),
            Reply::Dropped(name) => Reply::Dropped(*name),
            Reply::Altered(name) => Reply::Altered(*name),
            Reply::Inserted => Reply::Inserted,
            Reply::Deleted => Reply::Deleted,
            Reply::Updated => Reply::Updated,
            Reply::Reserved { id } => Reply::Reserved { id: *id },
            Reply::Rows { columns, rows } => Reply::Rows {
                columns: copy_all(alloc, columns.as_slice())?,
                rows: copy_all(alloc, rows.as_slice())?,
            },
            Reply::Table(text) => Reply::Table(text.copy(alloc)?),
            Reply::Bounds { columns, checks } => Reply::Bounds {
                columns: copy_all(alloc, columns.as_slice())?,
                checks: copy_all(alloc, checks.as_slice())?,
            },
            Reply::Journal(entries) => Reply::Journal(copy_all(alloc, entries.as_slice())?),
            Reply::Savepoint(name) => Reply::Savepoint(*name),
            Reply::Committed { count } => Reply::Committed { count: *count },
            Reply::RolledBack { count } => Reply::RolledBack { count: *count },
            Reply::RolledBackTo { savepoint, count } => Reply::RolledBackTo {
                savepoint: *savepoint,
                count: *count,
            },
            Reply::Restarted => Reply::Restarted,
        })
    }

    /// Returns whether two replies are equal: in what was done, and in what comes with it.
    pub fn is_same(&self, other: &Reply) -> bool
        ensures { IsTrue result ↔ (self.now ≡ other.now) }
    {
        match (self, other) {
            (Reply::Refused(a), Reply::Refused(b)) => are_same_refusals(a, b),
            (Reply::Created(a), Reply::Created(b)) => *a == *b,
            (Reply::Dropped(a), Reply::Dropped(b)) => *a == *b,
            (Reply::Altered(a), Reply::Altered(b)) => *a == *b,
            (Reply::Inserted, Reply::Inserted) => true,
            (Reply::Deleted, Reply::Deleted) => true,
            (Reply::Updated, Reply::Updated) => true,
            (Reply::Reserved { id: a }, Reply::Reserved { id: b }) => *a == *b,
            (
                Reply::Rows {
                    columns: a,
                    rows: x,
                },
                Reply::Rows {
                    columns: b,
                    rows: y,
                },
            ) => are_same(a.as_slice(), b.as_slice()) && are_same(x.as_slice(), y.as_slice()),
            (Reply::Table(a), Reply::Table(b)) => *a == *b,
            (
                Reply::Bounds {
                    columns: a,
                    checks: x,
                },
                Reply::Bounds {
                    columns: b,
                    checks: y,
                },
            ) => are_same(a.as_slice(), b.as_slice()) && are_same(x.as_slice(), y.as_slice()),
            (Reply::Journal(a), Reply::Journal(b)) => are_same(a.as_slice(), b.as_slice()),
            (Reply::Savepoint(a), Reply::Savepoint(b)) => *a == *b,
            (Reply::Committed { count: a }, Reply::Committed { count: b }) => *a == *b,
            (Reply::RolledBack { count: a }, Reply::RolledBack { count: b }) => *a == *b,
            (
                Reply::RolledBackTo {
                    savepoint: a,
                    count: x,
                },
                Reply::RolledBackTo {
                    savepoint: b,
                    count: y,
                },
            ) => *a == *b && *x == *y,
            (Reply::Restarted, Reply::Restarted) => true,
            _ => false,
        }
    }
}
