ghost use Rattle.std.specs.Prelude.{◌≡◌, ◌+ℤ◌, ◌-ℤ◌, SomeIff};
ghost use Rattle.escrow_num.specs.Wide.{IsWide};
ghost use Rattle.escrow_num.specs.Amount.{IsAmount};

use crate::amount::Amount;
use std::fmt;
use std::marker::Model;

/// A sum of products of amounts: a whole number of magnitude at most 10^33. Every worst case of a
/// check is one, so every sum fits 128 bits.
#[derive(Clone, Copy, Debug, PartialEq, Eq, PartialOrd, Ord)]
pub struct Wide {
    value: i128,
}

impl Model for Wide {
    ghost use Rattle.std.specs.Prelude.{ℤ};
    ghost use Rattle.escrow_num.specs.Wide.{IsWide};

    ghost Value = { ℤ };

    ghost view = { λ w. w.value };

    ghost invariant = { λ w. IsWide w.value };

    ghost inverse = { λ z. record { value = z } };
}

impl Wide {
    /// The greatest magnitude of a wide sum, 10^33.
    pub const MAX: i128 = 1_000_000_000_000_000_000_000_000_000_000_000;

    /// The sum of nothing.
    pub const ZERO: Wide = Wide { value: 0 };

    /// Returns the wide sum of a number, or `None` past the limit.
    pub fn new(value: i128) -> Option<Self>
        ensures { SomeIff result (IsWide value) value }
    {
        if value < -Self::MAX || Self::MAX < value {
            None
        } else {
            Some(Wide { value })
        }
    }

    /// Returns the number.
    pub fn get(self) -> i128
        ensures value { result ≡ self }
        ensures within { IsWide result }
    {
        self.value
    }

    /// Returns the sum of two, which must be within the limit.
    pub fn plus(self, other: Wide) -> Wide
        requires { IsWide (self +ℤ other) }
        ensures { result ≡ self +ℤ other }
    {
        Wide {
            value: self.value + other.value,
        }
    }

    /// Returns the difference of two, which must be within the limit.
    pub fn minus(self, other: Wide) -> Wide
        requires { IsWide (self -ℤ other) }
        ensures { result ≡ self -ℤ other }
    {
        Wide {
            value: self.value - other.value,
        }
    }
}

impl From<Amount> for Wide {
    ghost use Rattle.std.specs.Prelude.{◌≡◌};

    ghost from_gives = { λ a w. w ≡ a };

    fn from(amount: Amount) -> Wide {
        Wide {
            value: i128::from(amount.get()),
        }
    }
}

/// Writes the number in decimal, with a leading `-` if it is negative.
impl fmt::Display for Wide {
    ghost use Rattle.std.specs.Prelude.{Some};
    ghost use Rattle.std.specs.Fmt.{signed_decimal, styled_signed_decimal};

    ghost output = { λ w. Some (signed_decimal w) };

    ghost styled_output = { λ w spec. Some (styled_signed_decimal spec w) };

    fn fmt<W: fmt::Write>(&self, f: &mut fmt::Formatter<W>) -> fmt::Result {
        fmt::Display::fmt(&self.get(), f)
    }
}
