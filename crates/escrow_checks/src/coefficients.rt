ghost use Rattle.std.specs.Prelude.{◌≡◌, pos, ◌*ℤ◌, ◌≤ℤ◌, ◌<◌, ◌≤◌, max, true, length, map, replicate, slice_set, if◌then◌else◌, not, Some, None};
ghost use Rattle.std.specs.List.{list_all, list_any};
ghost use Rattle.std.specs.Ordering.{int_eq};
ghost use Rattle.escrow_checks.specs.Checks.{is_coefficient};
ghost use Rattle.escrow_checks.specs.Coefficients.{AreCoefficients, IsCoefficient};
ghost use Rattle.escrow_checks.specs.Scales.{factor, written_coefficient};

use crate::condition::sums::coefficient_of;
use escrow_num::{Amount, Name, Scale};
use escrow_statement::Condition;
use std::fmt::{Debug, Error, Formatter, Write};
use std::marker::Model;

/// Coefficients of a check: one for each RESERVABLE column of its table, in column order. They are
/// held in place, so a copy takes no memory.
#[derive(Clone, Copy)]
pub struct Coefficients {
    values: [Amount; Coefficients::MAX_LEN],
    len: usize,
}

impl Model for Coefficients {
    ghost use Rattle.std.specs.Prelude.{List, ℕ, ℤ, ◌≡◌, ◌≤◌, take, length};
    ghost use Rattle.escrow_checks.specs.Coefficients.{AreCoefficients};
    ghost use Rattle.escrow_checks.specs.Padded.{padded, length-held};
    ghost use Rattle.escrow_checks.specs.declared.coefficients.TheConstants.Coefficients.{MAX_LEN};

    ghost Value = { List ℤ };

    ghost view = { λ c. take c.len c.values };

    ghost invariant = { λ c. AreCoefficients (take c.len c.values) × (c.len ≤ MAX_LEN)
        × (c.values ≡ padded (take c.len c.values)) };

    ghost inverse = { λ coeffs. record { values = padded coeffs; len = length coeffs } };

    ghost use Rattle.std.proofs.Common.{sym, ap₂};

    ghost inverse_ok = { λ c h.
        ap₂ (λ (v : List ℤ) (l : ℕ). record { values = v; len = l }) (sym h.2)
        (length-held c.values c.len h.1 h.0.0 h.2) };
}

impl Coefficients {
    ghost use Rattle.escrow_checks.specs.Checks.{coefficient_of, is_coefficient, are_good_coefficients};
    ghost use Rattle.escrow_checks.specs.Scales.{form_scale, scaled_coeffs, written_coeffs};

    /// The most coefficients of a check. A table has at most 10 RESERVABLE columns.
    pub const MAX_LEN: usize = 10;

    /// The greatest magnitude of a coefficient, which bounds the sums. It is the greatest that a
    /// CHECK may declare, [`MAX_COEFFICIENT`](crate::MAX_COEFFICIENT), times 10^6, the most units
    /// of one scale in one unit of another.
    pub const MAX: i64 = 1_000_000_000_000;

    /// Returns the coefficients of one column among `len`: 1 at its place, 0 elsewhere.
    pub fn unit(len: usize, place: usize) -> Self
        requires within { place < len }
        requires few { len ≤ Coefficients.MAX_LEN }
        ensures { result ≡ slice_set (replicate len (pos 0)) place (pos 1) }
    {
        let zero = Amount::new(0).unwrap();
        let one = Amount::new(1).unwrap();
        let mut values = [zero; Self::MAX_LEN];
        values[place] = one;
        Coefficients { values, len }
    }

    /// Returns the coefficients of a condition, as written. Returns `None` if one is past
    /// [`MAX_COEFFICIENT`], or if all are zero.
    ///
    /// [`MAX_COEFFICIENT`]: crate::MAX_COEFFICIENT
    pub(crate) fn of_condition(columns: &[Name], condition: &Condition) -> Option<Self>
        requires { length columns.now ≤ Coefficients.MAX_LEN }
        ensures { let coeffs = map (coefficient_of condition.now) columns.now in
            result ≡ (if are_good_coefficients coeffs then Some coeffs else None) }
    {
        let coeffs = Self::summed(columns, condition)?;
        if has_nonzero(coeffs.as_slice()) {
            Some(coeffs)
        } else {
            None
        }
    }

    /// Returns the coefficients of a condition, or `None` if one is past the greatest magnitude.
    fn summed(columns: &[Name], condition: &Condition) -> Option<Self>
        requires { length columns.now ≤ Coefficients.MAX_LEN }
        ensures { let coeffs = map (coefficient_of condition.now) columns.now in
            result ≡ (if list_all is_coefficient coeffs then Some coeffs else None) }
    {
        let mut values = [Amount::ZERO; Self::MAX_LEN];
        for (i, column) in columns.iter().enumerate() {
            values[i] = coefficient_of(condition, column)?;
        }
        Some(Coefficients {
            values,
            len: columns.len(),
        })
    }

    /// Returns the scale of a form of these coefficients: the largest of the columns whose
    /// coefficient isn't zero.
    pub(crate) fn scale(&self, scales: &[Scale]) -> Scale
        requires { length scales.now ≡ length self.now }
        ensures { result ≡ form_scale self.now scales.now }
    {
        let mut most = Scale::ZERO;
        for (i, coefficient) in self.as_slice().iter().enumerate() {
            most = greater(most, *coefficient, scales[i]);
        }
        most
    }

    /// Returns the coefficients of a check at a scale, from these written ones. Each is multiplied
    /// by the number of units of that scale in one unit of its column's.
    pub(crate) fn scaled(&self, scale: Scale, scales: &[Scale]) -> Self
        requires scales { length scales.now ≡ length self.now }
        requires written { are_good_coefficients self.now ≡ true }
        ensures { result ≡ scaled_coeffs scale self.now scales.now }
    {
        let coeffs = self.as_slice();
        let mut values = [Amount::ZERO; Self::MAX_LEN];
        for (i, coefficient) in coeffs.iter().enumerate() {
            values[i] = scaled(*coefficient, scale, scales[i]);
        }
        Coefficients {
            values,
            len: coeffs.len(),
        }
    }

    /// Returns the written coefficients, from these of a check at a scale. A coefficient for which
    /// no scale is given stays as it is.
    pub(crate) fn written(&self, scale: Scale, scales: &[Scale]) -> Self
        ensures { result ≡ written_coeffs scale self.now scales.now }
    {
        let coeffs = self.as_slice();
        let mut values = [Amount::ZERO; Self::MAX_LEN];
        for (i, coefficient) in coeffs.iter().enumerate() {
            values[i] = match scales.get(i) {
                Some(own) => written(*coefficient, scale, *own),
                None => *coefficient,
            };
        }
        Coefficients {
            values,
            len: coeffs.len(),
        }
    }

    /// Returns the coefficients, in column order.
    pub fn as_slice(&self) -> &[Amount]
        ensures value { result.now ≡ self.now }
        ensures within { AreCoefficients result.now }
    {
        &self.values[..self.len]
    }
}

/// Returns the larger of two scales if the coefficient isn't zero, else the first.
fn greater(most: Scale, coefficient: Amount, scale: Scale) -> Scale
    ensures { result ≡ (if int_eq coefficient (pos 0) then most else max most scale) }
{
    if coefficient.get() == 0 {
        most
    } else {
        most.greater(scale)
    }
}

/// Returns the coefficient that a check at a scale has for a column of scale `own`, from the
/// written one.
fn scaled(coefficient: Amount, scale: Scale, own: Scale) -> Amount
    requires { is_coefficient coefficient ≡ true }
    ensures value { result ≡ coefficient *ℤ pos (factor scale own) }
    ensures within { IsCoefficient result }
{
    Amount::new(coefficient.get() * factor(scale, own)).unwrap()
}

/// Returns the written coefficient, from the one that a check at a scale has for a column of scale
/// `own`.
fn written(coefficient: Amount, scale: Scale, own: Scale) -> Amount
    requires { IsCoefficient coefficient }
    ensures value { result ≡ written_coefficient scale own coefficient }
    ensures within { IsCoefficient result }
{
    Amount::new(coefficient.get() / factor(scale, own)).unwrap()
}

/// Returns how many units of a check's scale are in one unit of a column's, if the column's scale
/// isn't larger; else 1.
#[tactic(auto, unfolding(crate::specs::Scales::factor))]
fn factor(scale: Scale, own: Scale) -> i64
    ensures value { result ≡ pos (factor scale own) }
    ensures within { result ≤ℤ pos 1000000 }
{
    match scale.get().saturating_sub(own.get()) {
        0 => 1,
        1 => 10,
        2 => 100,
        3 => 1_000,
        4 => 10_000,
        5 => 100_000,
        _ => 1_000_000,
    }
}

/// Returns whether a coefficient isn't zero.
fn has_nonzero(coeffs: &[Amount]) -> bool
    ensures { result ≡ list_any (λ c. not (int_eq c (pos 0))) coeffs.now }
{
    coeffs.iter().any(|c| c.get() != 0)
}

impl Debug for Coefficients {
    fn fmt<W: Write>(&self, f: &mut Formatter<W>) -> Result<(), Error> {
        self.as_slice().fmt(f)
    }
}
