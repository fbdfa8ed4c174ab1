ghost use Rattle.std.specs.Prelude.{◌≡◌, SomeIff, max};
ghost use Rattle.escrow_num.specs.Scale.{IsScale, unit_at};

use std::marker::Model;

/// How many digits a number has after the point, 0 to 6.
#[derive(Clone, Copy, Debug, PartialEq, Eq, PartialOrd, Ord)]
pub struct Scale {
    digits: u8,
}

impl Model for Scale {
    ghost use Rattle.std.specs.Prelude.{ℕ};
    ghost use Rattle.escrow_num.specs.Scale.{IsScale};

    ghost Value = { ℕ };

    ghost view = { λ s. s.digits };

    ghost invariant = { λ s. IsScale s.digits };

    ghost inverse = { λ n. record { digits = n } };
}

impl Scale {
    /// The most digits after the point.
    pub const MAX: u8 = 6;

    /// The scale of whole numbers: no digits after the point, and no point.
    pub const ZERO: Scale = Scale { digits: 0 };

    /// Returns the scale of this many digits, or `None` past the limit.
    pub fn new(digits: u8) -> Option<Self>
        ensures { SomeIff result (IsScale digits) digits }
    {
        if Self::MAX < digits {
            None
        } else {
            Some(Scale { digits })
        }
    }

    /// Returns the scale of as many digits as a list has, or `None` past the limit.
    pub(crate) fn of_len(len: usize) -> Option<Self>
        ensures { SomeIff result (IsScale len) len }
    {
        if len > Self::MAX as usize {
            None
        } else {
            Some(Scale { digits: len as u8 })
        }
    }

    /// Returns the number of digits.
    pub fn get(self) -> u8
        ensures value { result ≡ self }
        ensures within { IsScale result }
    {
        self.digits
    }

    /// Returns the greater of two scales.
    pub fn greater(self, other: Scale) -> Scale
        ensures { result ≡ max self other }
    {
        if self.digits < other.digits {
            other
        } else {
            self
        }
    }

    /// Returns how many millionths one unit of the scale is: 1,000,000 at 0, and 1 at 6.
    #[tactic(auto, unfolding(crate::specs::Scale::unit_at))]
    pub fn unit(self) -> u32
        ensures value { result ≡ unit_at self }
        ensures within { IsScale self }
    {
        match self.digits {
            0 => 1_000_000,
            1 => 100_000,
            2 => 10_000,
            3 => 1_000,
            4 => 100,
            5 => 10,
            _ => 1,
        }
    }
}
