ghost use Rattle.std.specs.Prelude.{◌≡◌, ℤ, pos, unwrap_or, slice_index_or, ◌*ℤ◌, ◌≤ℤ◌, List, [], ◌∷◌, ◌++◌, OnOk, OnErr};
ghost use Rattle.escrow_checks.specs.Coefficients.{AreCoefficients, IsCoefficient};
ghost use Rattle.escrow_checks.specs.Contribution.{IsProduct, IsContribution};

use crate::coefficients::Coefficients;
use crate::sparse::Sparse;
use crate::spread::Spread;
use escrow_num::{Amount, Copied, Name, Scale, Seq, Span, Violation, Wide, are_same};
use std::alloc::{AllocError, Global};

/// A check of a table: the sum of coefficient times amount, over the RESERVABLE columns of a row,
/// must be within the span. An amount is in units of its column's scale. The sum and the limits are
/// in units of the check's scale.
#[derive(Clone, Copy, Debug)]
pub struct Check {
    /// The check's name.
    pub name: Name,
    /// One coefficient for each RESERVABLE column of the table, in column order. It is the written
    /// one times the number of units of the check's scale in one unit of the column's, and its
    /// magnitude is at most 10^12.
    pub coeffs: Coefficients,
    /// The check's scale: the form and the limits are in units of 10^-scale.
    pub scale: Scale,
    /// The limits of the form, of at most 15 digits each.
    pub span: Span,
}

impl Check {
    ghost use Rattle.escrow_checks.specs.Form.{form, IsCovered};
    ghost use Rattle.escrow_checks.specs.Extremes.{least, greatest};
    ghost use Rattle.escrow_checks.specs.Spread.{IsSpread};
    ghost use Rattle.escrow_checks.specs.Grant.{broken_by};
    ghost use Rattle.escrow_checks.specs.DeclaredCheck.{written_of};

    /// Adds the check at the end of a list.
    pub(crate) fn add_to(self, checks: &mut Seq<Check>) -> Result<(), AllocError>
        ensures ok { OnOk result (checks.new ≡ checks.old ++ self ∷ []) }
        ensures err { OnErr result (checks.new ≡ checks.old) }
    {
        // The prover needs to see the fields of the span when a check is added to a list.
        let Span { lo, hi } = self.span;
        let span = Span { lo, hi };
        checks.push(Check { span, ..self })?;
        Ok(())
    }

    /// Returns the form at a row's amounts: the sum of coefficient times amount, column by column.
    pub fn form(&self, amounts: &[Amount]) -> Wide
        ensures value { result ≡ form self.now.coeffs amounts.now }
        ensures within { IsContribution result }
    {
        self.form_of(&Sparse::of(amounts))
    }

    /// [`Check::form`], summed over only those amounts that aren't zero.
    pub fn form_of(&self, amounts: &Sparse<'_>) -> Wide
        ensures value { result ≡ form self.now.coeffs amounts.now }
        ensures within { IsContribution result }
    {
        let coeffs = self.coeffs.as_slice();
        let row = amounts.amounts();
        let listed = amounts.columns();
        let mut sum = 0;
        for column in listed {
            sum += product(coefficient_at(coeffs, *column), amount_at(row, *column));
        }
        Wide::new(sum).unwrap()
    }

    /// Returns what a reservation's changes add to the form: the same sum over the changes. A
    /// reservation of another row has no changes here, and adds nothing.
    pub fn contribution(&self, changes: &[Amount]) -> Wide
        ensures value { result ≡ form self.now.coeffs changes.now }
        ensures within { IsContribution result }
    {
        self.form(changes)
    }

    /// Returns the least and the greatest value of the form at a row, over every choice of the open
    /// reservations that have this spread. No choice is formed. O'Neil's `inf` and `sup` (1986) are
    /// the form plus the falls, and the form plus the rises.
    pub fn extremes(&self, amounts: &[Amount], spread: &Spread) -> (Wide, Wide)
        ensures least { (reservations : List (List ℤ)) → IsCovered self.now.coeffs amounts.now
            → IsSpread self.now.coeffs reservations spread.now
            → result.0 ≡ least self.now.coeffs amounts.now reservations }
        ensures greatest { (reservations : List (List ℤ)) → IsCovered self.now.coeffs amounts.now
            → IsSpread self.now.coeffs reservations spread.now
            → result.1 ≡ greatest self.now.coeffs amounts.now reservations }
        ensures ordered { result.0 ≤ℤ result.1 }
    {
        spread.around(self.form(amounts))
    }

    /// Returns what a new reservation breaks of this check: the first limit that an extreme passes,
    /// the low one first. The extremes are over every choice of the open reservations that contains
    /// the new one. Returns `None` if it breaks nothing; then this check allows it.
    pub fn violation(
        &self,
        amounts: &[Amount],
        changes: &[Amount],
        spread: &Spread,
    ) -> Option<Violation>
        ensures { (reservations : List (List ℤ)) → IsCovered self.now.coeffs amounts.now
            → IsSpread self.now.coeffs reservations spread.now
            → result ≡ broken_by self.now amounts.now changes.now reservations }
    {
        self.violation_from(self.form(amounts), &Sparse::of(changes), spread)
    }

    /// [`Check::violation`], from the value that the form has at the row's amounts.
    pub fn violation_from(
        &self,
        value: Wide,
        changes: &Sparse<'_>,
        spread: &Spread,
    ) -> Option<Violation>
        requires { IsContribution value }
        ensures { (amounts : List ℤ) (reservations : List (List ℤ)) → value ≡ form self.now.coeffs amounts
            → IsCovered self.now.coeffs amounts → IsSpread self.now.coeffs reservations spread.now
            → result ≡ broken_by self.now amounts changes.now reservations }
    {
        let with_new = value.plus(self.form_of(changes));
        let (least, greatest) = spread.around(with_new);
        let (side, worst, limit) = self.span.first_broken(least, greatest)?;
        Some(Violation {
            check: self.name,
            side,
            worst,
            limit,
            scale: self.scale,
        })
    }

    /// Returns the coefficients as written, of columns of these scales. Each is the check's
    /// coefficient divided by the number of units of the check's scale in one unit of the column's.
    pub fn written(&self, scales: &[Scale]) -> Coefficients
        ensures { result ≡ written_of self.now scales.now }
    {
        self.coeffs.written(self.scale, scales)
    }
}

impl Copied for Check {
    fn copy(&self, _: Global) -> Result<Check, AllocError> {
        Ok(*self)
    }

    fn is_same(&self, other: &Check) -> bool {
        self.name == other.name
            && are_same(self.coeffs.as_slice(), other.coeffs.as_slice())
            && self.scale == other.scale
            && self.span == other.span
    }
}

/// Returns the coefficient of the column at an index, or zero if there is none.
fn coefficient_at(coeffs: &[Amount], column: u8) -> Amount
    requires { AreCoefficients coeffs.now }
    ensures value { result ≡ slice_index_or coeffs.now column (pos 0) }
    ensures within { IsCoefficient result }
{
    amount_at(coeffs, column)
}

/// Returns the amount of the column at an index, or zero if there is none.
fn amount_at(amounts: &[Amount], column: u8) -> Amount
    ensures { result ≡ slice_index_or amounts.now column (pos 0) }
{
    amounts
        .get(usize::from(column))
        .copied()
        .unwrap_or(Amount::ZERO)
}

/// Returns a coefficient times an amount.
fn product(coefficient: Amount, amount: Amount) -> i128
    requires { IsCoefficient coefficient }
    ensures value { result ≡ coefficient *ℤ amount }
    ensures within { IsProduct result }
{
    i128::from(coefficient.get()) * i128::from(amount.get())
}
