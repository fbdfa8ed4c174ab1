ghost use Rattle.std.specs.Prelude.{◌≡◌, SomeIff};
ghost use Rattle.escrow_num.specs.Session.{IsSession};

use std::marker::Model;

/// The number of a session of a database, from 1 to 65,535.
#[derive(Clone, Copy, Debug, PartialEq, Eq, PartialOrd, Ord)]
pub struct Session {
    number: u16,
}

impl Model for Session {
    ghost use Rattle.std.specs.Prelude.{ℕ};
    ghost use Rattle.escrow_num.specs.Session.{IsSession};

    ghost Value = { ℕ };

    ghost view = { λ s. s.number };

    ghost invariant = { λ s. IsSession s.number };

    ghost inverse = { λ n. record { number = n } };
}

impl Session {
    /// The greatest number of a session, which is how many sessions a database may have.
    pub const MAX: u16 = 65_535;

    /// The greatest number of a session in a script, and of a session of a database that threads
    /// share.
    pub const MAX_SHARED: u16 = 64;

    /// The first session.
    pub const FIRST: Session = Session { number: 1 };

    /// Returns the session of a number, or `None` unless it is from 1 to 65,535.
    pub fn new(number: u16) -> Option<Self>
        ensures { SomeIff result (IsSession number) number }
    {
        if number < 1 || Self::MAX < number {
            None
        } else {
            Some(Session { number })
        }
    }

    /// Returns the number, from 1 to 65,535.
    pub fn get(self) -> u16
        ensures value { result ≡ self }
        ensures within { IsSession result }
    {
        self.number
    }
}

/// How a transaction ends.
#[derive(Clone, Copy, Debug, PartialEq, Eq)]
pub enum End {
    /// Its reservations are applied to the committed rows.
    Commit,
    /// Its reservations are dropped.
    Rollback,
}
