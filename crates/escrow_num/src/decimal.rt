ghost use Rattle.std.specs.Prelude.{◌≡◌, ◌≤ℤ◌, ◌*ℤ◌, neg_ℤ, pos};
ghost use Rattle.escrow_num.specs.Decimal.{IsDecimal, decimal_spelled, millionths_of, pointed_spelled, units_at, unsigned_spelled, whole_spelled};
ghost use Rattle.escrow_num.specs.Scale.{unit_at};
ghost use Rattle.escrow_num.specs.declared.decimal.TheConstants.Decimal.{MAX};

use crate::amount::Amount;
use crate::digits::{after_sign, is_negative, is_numeral, number_of, point_of, trimmed};
use crate::scale::Scale;
use std::marker::Model;

/// A number as a statement writes it, in millionths. It has at most 15 digits, of which at most 6
/// are after the point. Zeros at the end after the point don't count.
#[derive(Clone, Copy, Debug, PartialEq, Eq, PartialOrd, Ord)]
pub struct Decimal {
    millionths: i128,
}

impl Model for Decimal {
    ghost use Rattle.std.specs.Prelude.{ℤ};
    ghost use Rattle.escrow_num.specs.Decimal.{IsDecimal};

    ghost Value = { ℤ };

    ghost view = { λ d. d.millionths };

    ghost invariant = { λ d. IsDecimal d.millionths };

    ghost inverse = { λ z. record { millionths = z } };
}

impl Decimal {
    /// The greatest magnitude of a decimal, in millionths.
    pub const MAX: i128 = 999_999_999_999_999_000_000;

    /// Returns the decimal that a text spells: an optional `+` or `-`, then one or more digits, and
    /// optionally a point and one or more digits. Leading zeros are allowed, and zeros at the end
    /// after the point don't count.
    ///
    /// Returns `None` for any other text, and if more than 6 digits are left after the point, or
    /// more than 15 in all. Nothing is rounded.
    #[tactic(auto, unfolding(crate::specs::Decimal::decimal_spelled))]
    pub fn read(text: &str) -> Option<Self>
        ensures { result ≡ decimal_spelled text.now }
    {
        let bytes = text.as_bytes();
        let number = Self::read_unsigned(after_sign(bytes))?;
        Some(if is_negative(bytes) {
            number.negated()
        } else {
            number
        })
    }

    /// Returns the decimal that a text without a sign spells, by the rules of [`Decimal::read`].
    pub fn read_unsigned(text: &[u8]) -> Option<Self>
        ensures { result ≡ unsigned_spelled text.now }
    {
        match point_of(text) {
            Some(point) => read_pointed(&text[..point], &text[point + 1..]),
            None => read_whole(text),
        }
    }

    /// Returns the decimal of the digits before a point and of those after it, if any. Returns
    /// `None` past the limits of [`Decimal::read`].
    #[tactic(auto, unfolding(crate::specs::Decimal::millionths_of))]
    pub fn of_digits(front: &[u8], behind: &[u8]) -> Option<Self>
        ensures { result ≡ millionths_of front.now behind.now }
    {
        let digits = trimmed(behind);
        let scale = Scale::of_len(digits.len())?;
        let units = number_of(front, digits)?;
        Some(Self::of_units(units, scale))
    }

    /// Returns the decimal of a number of units of a scale.
    pub fn of_units(units: Amount, scale: Scale) -> Self
        ensures { result ≡ units *ℤ pos (unit_at scale) }
    {
        Decimal {
            millionths: i128::from(units.get()) * i128::from(scale.unit()),
        }
    }

    /// Returns the number with its sign turned.
    pub fn negated(self) -> Self
        ensures { result ≡ neg_ℤ self }
    {
        Decimal {
            millionths: -self.millionths,
        }
    }

    /// Returns the number in units of a scale of this many digits. Returns `None` if the number has
    /// more digits after the point, if the units are no amount, or if there is no such scale.
    /// Nothing is rounded.
    #[tactic(auto, unfolding(crate::specs::Decimal::units_at))]
    pub fn at_scale(self, digits: u8) -> Option<Amount>
        ensures { result ≡ units_at digits self }
    {
        match Scale::new(digits) {
            Some(scale) => self.units_of(scale),
            None => None,
        }
    }

    /// Returns the number in units of a scale, if they are an amount.
    #[tactic(auto, unfolding(crate::specs::Decimal::units_at))]
    fn units_of(self, scale: Scale) -> Option<Amount>
        ensures { result ≡ units_at scale self }
    {
        let unit = i128::from(scale.unit());
        if self.millionths % unit != 0 {
            return None;
        }
        match i64::try_from(self.millionths / unit) {
            Ok(units) => Amount::new(units),
            Err(_) => None,
        }
    }

    /// Returns the millionths.
    pub fn get(self) -> i128
        ensures value { result ≡ self }
        ensures written { IsDecimal result }
        ensures within { (neg_ℤ MAX ≤ℤ result) × (result ≤ℤ MAX) }
    {
        self.millionths
    }
}

impl From<Amount> for Decimal {
    ghost use Rattle.std.specs.Prelude.{◌≡◌, ◌*ℤ◌, pos};
    ghost use Rattle.escrow_num.specs.Scale.{unit_at};

    ghost from_gives = { λ a d. d ≡ a *ℤ pos (unit_at 0) };

    fn from(amount: Amount) -> Decimal {
        Decimal::of_units(amount, Scale::ZERO)
    }
}

/// Returns the decimal of a text without a point.
fn read_whole(text: &[u8]) -> Option<Decimal>
    ensures { result ≡ whole_spelled text.now }
{
    if is_numeral(text) {
        Decimal::of_digits(text, &[])
    } else {
        None
    }
}

/// Returns the decimal of the digits before a point and those after it.
fn read_pointed(front: &[u8], behind: &[u8]) -> Option<Decimal>
    ensures { result ≡ pointed_spelled front.now behind.now }
{
    if is_numeral(front) && is_numeral(behind) {
        Decimal::of_digits(front, behind)
    } else {
        None
    }
}
