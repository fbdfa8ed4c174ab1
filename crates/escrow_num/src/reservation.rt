use crate::changes::Changes;
use crate::name::Name;
use crate::session::Session;
use crate::value::RowName;
use std::alloc::Global;
use std::default::MadeWith;

/// An open reservation: what one UPDATE of RESERVABLE columns reserves, until its transaction ends.
#[derive(Debug, Drop)]
pub struct Reservation {
    /// Its number, from 1 to [`Reservation::MAX_ID`]. Ids rise in the order of the grants.
    pub id: u64,
    /// The session whose transaction holds it.
    pub session: Session,
    /// The row that it changes.
    pub row: RowName,
    /// The change of each RESERVABLE column of the table, in column order. A column that the UPDATE
    /// doesn't assign has `None`, which differs from a change of zero.
    pub changes: Changes,
}

impl Reservation {
    /// The greatest id.
    pub const MAX_ID: u64 = 999_999_999_999_999;
}

/// Returns a blank, which fills the places that a small vector doesn't use. Takes no memory.
impl MadeWith<Global> for Reservation {
    fn made_with(alloc: Global) -> Self {
        Reservation {
            id: 1,
            session: Session::FIRST,
            row: RowName::made_with(alloc),
            changes: Changes::new(alloc),
        }
    }
}

/// A savepoint of a transaction.
#[derive(Clone, Copy, Debug)]
pub struct Savepoint {
    /// The session whose transaction has it.
    pub session: Session,
    /// Its name.
    pub name: Name,
    /// The next id when it was made. Later reservations have this id or a greater one.
    pub id: u64,
}

/// Returns a blank, which fills the places that a small vector doesn't use. Takes no memory.
impl MadeWith<Global> for Savepoint {
    fn made_with(_alloc: Global) -> Self {
        Savepoint {
            session: Session::FIRST,
            name: Name::blank(),
            id: 1,
        }
    }
}
