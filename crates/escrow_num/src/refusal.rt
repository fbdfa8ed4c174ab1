ghost use Rattle.std.specs.Prelude.{◌≡◌};
ghost use Rattle.escrow_num.specs.Refusal.{number_of};

use crate::failure::Failure;
use crate::name::Name;
use crate::scale::Scale;
use crate::span::Side;
use crate::wide::Wide;
use std::alloc::{AllocError, AllocFailed};

/// The limit of a check that a change could break: the check's name, the side, the worst value on
/// that side, and the limit that it passes. Both numbers are in units of the check's scale.
#[derive(Clone, Copy, Debug, PartialEq, Eq)]
pub struct Violation {
    /// The check's name.
    pub check: Name,
    /// The side on which the worst value passes the limit.
    pub side: Side,
    /// The least value of the check's form if the side is low, the greatest if it is high.
    pub worst: Wide,
    /// The limit of that side.
    pub limit: Wide,
    /// How many digits both numbers have after the point: the check's scale.
    pub scale: Scale,
}

/// Why a statement, a line or the opening of a store is refused. Each refusal has a number, which
/// replies carry.
#[derive(Clone, Copy, Debug, PartialEq, Eq)]
pub enum Refusal {
    /// 11: the text is no sentence of the grammar. The column, from 1, is that of the fault.
    Syntax { column: u32 },
    /// 12: the line is no line of a script.
    Line,
    /// 20: the catalog has a table of that name.
    TableExists,
    /// 21: the catalog has no table of that name.
    NoSuchTable,
    /// 22: the table's definition breaks a rule.
    BadDefinition,
    /// 23: a literal is of the wrong kind or doesn't fit its column, or the number of literals is
    /// wrong.
    BadValue,
    /// 24: a column can't be assigned this way.
    BadAssignment,
    /// 25: WHERE names a column other than the key.
    NotTheKey,
    /// 26: the session's transaction is open.
    TransactionOpen,
    /// 27: the table declares no check of that name.
    NoSuchConstraint,
    /// 30: a row with that key exists.
    RowExists,
    /// 31: no row with that key exists.
    NoSuchRow,
    /// 32: a session holds a reservation of the row.
    RowReserved,
    /// 33: a session holds a reservation of a row of the table.
    TableReserved,
    /// 34: the table has 65,536 rows.
    TableFull,
    /// 35: the catalog has 32 tables.
    TooManyTables,
    /// 41: a check could be broken.
    Check(Violation),
    /// 42: the row has 16,384 open reservations, or the session holds 256.
    TooManyReservations,
    /// 43: the transaction has no savepoint of that name.
    NoSuchSavepoint,
    /// 44: the transaction has 64 savepoints of other names.
    TooManySavepoints,
    /// 45: the ids are used up.
    NoMoreIds,
    /// 51: memory was refused.
    Memory,
    /// 52: the transcript is full.
    TranscriptFull,
    /// 60: the store refused a call.
    Store,
    /// 61: the store isn't one of this server's.
    ForeignStore,
    /// 62: the store is of another version.
    UnknownVersion,
}

impl Refusal {
    /// Returns the refusal's number, by which programs distinguish refusals.
    pub fn number(&self) -> u8
        ensures { result ≡ number_of self.now }
    {
        match self {
            Refusal::Syntax { .. } => 11,
            Refusal::Line => 12,
            Refusal::TableExists => 20,
            Refusal::NoSuchTable => 21,
            Refusal::BadDefinition => 22,
            Refusal::BadValue => 23,
            Refusal::BadAssignment => 24,
            Refusal::NotTheKey => 25,
            Refusal::TransactionOpen => 26,
            Refusal::NoSuchConstraint => 27,
            Refusal::RowExists => 30,
            Refusal::NoSuchRow => 31,
            Refusal::RowReserved => 32,
            Refusal::TableReserved => 33,
            Refusal::TableFull => 34,
            Refusal::TooManyTables => 35,
            Refusal::Check(_) => 41,
            Refusal::TooManyReservations => 42,
            Refusal::NoSuchSavepoint => 43,
            Refusal::TooManySavepoints => 44,
            Refusal::NoMoreIds => 45,
            Refusal::Memory => 51,
            Refusal::TranscriptFull => 52,
            Refusal::Store => 60,
            Refusal::ForeignStore => 61,
            Refusal::UnknownVersion => 62,
        }
    }
}

impl From<AllocError> for Refusal {
    ghost use Rattle.std.specs.Prelude.{◌≡◌};
    ghost use Rattle.escrow_num.specs.declared.refusal.Refusal.TheVariants as refusal;

    ghost from_gives = { λ _ r. r ≡ refusal.Memory };

    fn from(_: AllocError) -> Refusal {
        Refusal::Memory
    }
}

impl<T: Drop> From<AllocFailed<T>> for Refusal {
    ghost use Rattle.std.specs.Prelude.{◌≡◌};
    ghost use Rattle.escrow_num.specs.declared.refusal.Refusal.TheVariants as refusal;

    ghost from_gives = { λ _ r. r ≡ refusal.Memory };

    fn from(_: AllocFailed<T>) -> Refusal {
        Refusal::Memory
    }
}

impl From<Failure> for Refusal {
    ghost use Rattle.std.specs.Prelude.{◌≡◌};
    ghost use Rattle.escrow_num.specs.Refusal.{refusal_for};

    ghost from_gives = { λ failure r. r ≡ refusal_for failure };

    fn from(failure: Failure) -> Refusal {
        match failure {
            Failure::Memory => Refusal::Memory,
            Failure::Store => Refusal::Store,
        }
    }
}
