ghost use Rattle.std.specs.Prelude.{◌≡◌, ◌+ℤ◌, SomeIff};
ghost use Rattle.escrow_num.specs.Amount.{IsAmount, spelled};

use std::fmt;
use std::marker::Model;

/// A whole number of magnitude at most 999,999,999,999,999 (15 digits): a value of a numeric
/// column, a change of one, or a limit that a statement writes.
#[derive(Clone, Copy, Debug, PartialEq, Eq, PartialOrd, Ord, Hash)]
pub struct Amount {
    value: i64,
}

impl Model for Amount {
    ghost use Rattle.std.specs.Prelude.{ℤ};
    ghost use Rattle.escrow_num.specs.Amount.{IsAmount};

    ghost Value = { ℤ };

    ghost view = { λ a. a.value };

    ghost invariant = { λ a. IsAmount a.value };

    ghost inverse = { λ z. record { value = z } };
}

impl Amount {
    /// The greatest magnitude of an amount.
    pub const MAX: i64 = 999_999_999_999_999;

    /// Zero, which a change that changes nothing adds.
    pub const ZERO: Amount = Amount { value: 0 };

    /// Returns the amount of a number, or `None` if its magnitude is past [`Amount::MAX`].
    pub fn new(value: i64) -> Option<Self>
        ensures { SomeIff result (IsAmount value) value }
    {
        if value < -Self::MAX || Self::MAX < value {
            None
        } else {
            Some(Amount { value })
        }
    }

    /// Returns the amount that a text spells: an optional `+` or `-`, then one or more digits.
    /// Leading zeros are allowed. Returns `None` for any other text, and for a number past the
    /// limit.
    pub fn read(text: &str) -> Option<Self>
        ensures { result ≡ spelled text.now }
    {
        text.parse::<i64>().ok().and_then(Amount::new)
    }

    /// Returns the sum of two amounts, which must be within the limit.
    pub fn plus(self, other: Amount) -> Amount
        requires { IsAmount (self +ℤ other) }
        ensures { result ≡ self +ℤ other }
    {
        Amount {
            value: self.value + other.value,
        }
    }

    /// Returns the number.
    pub fn get(self) -> i64
        ensures value { result ≡ self }
        ensures within { IsAmount result }
    {
        self.value
    }
}

/// Writes the number in decimal, with a leading `-` if it is negative.
impl fmt::Display for Amount {
    ghost use Rattle.std.specs.Prelude.{Some};
    ghost use Rattle.std.specs.Fmt.{signed_decimal, styled_signed_decimal};

    ghost output = { λ a. Some (signed_decimal a) };

    ghost styled_output = { λ a spec. Some (styled_signed_decimal spec a) };

    fn fmt<W: fmt::Write>(&self, f: &mut fmt::Formatter<W>) -> fmt::Result {
        fmt::Display::fmt(&self.get(), f)
    }
}
