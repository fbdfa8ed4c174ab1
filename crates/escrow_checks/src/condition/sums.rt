//! The sums of a condition's terms. A list of terms may be long, so they are computed in 128 bits.

ghost use Rattle.std.specs.Prelude.{◌≡◌, ◌+ℤ◌, if◌then◌else◌, Some, None};
ghost use Rattle.escrow_num.specs.Amount.{IsAmount};
ghost use Rattle.escrow_checks.specs.Checks.{coefficient_in, coefficient_of, is_coefficient, number_in, right_of};
ghost use Rattle.escrow_checks.specs.Condition.{total};
ghost use Rattle.escrow_checks.specs.Contribution.{IsTermSum};
ghost use Rattle.escrow_checks.specs.Parts.{AreTermSums, millionths, rest_in, wholes_in};

use super::MAX_COEFFICIENT;
use super::parts::{Parts, less, rest_of, wholes_of};
use escrow_num::{Amount, Name};
use escrow_statement::{Condition, Term, Test};

/// Returns a column's coefficient in a condition: the sum of those on the left less the sum of
/// those on the right. Returns `None` if its magnitude is past [`MAX_COEFFICIENT`].
pub(crate) fn coefficient_of(condition: &Condition, column: &Name) -> Option<Amount>
    ensures { let c = coefficient_of condition.now column.now in
        result ≡ (if is_coefficient c then Some c else None) }
{
    let left = coefficient_sum(condition.sum.as_slice(), column);
    let right = coefficient_sum(right_of(&condition.test), column);
    let coefficient = less(left, right);
    if coefficient < i128::from(-MAX_COEFFICIENT) || i128::from(MAX_COEFFICIENT) < coefficient {
        None
    } else {
        Amount::new(coefficient as i64)
    }
}

/// Returns the terms on the right of a condition. BETWEEN has none.
pub(super) fn right_of(test: &Test) -> &[Term]
    ensures { result.now ≡ right_of test.now }
{
    match test {
        Test::Compare { sum, .. } => sum.as_slice(),
        Test::Between { .. } => &[],
    }
}

/// Returns the sum of the column's coefficients in the terms.
fn coefficient_sum(terms: &[Term], column: &Name) -> i128
    ensures value { result ≡ total (coefficient_in column.now) terms.now }
    ensures within { IsTermSum result }
{
    let mut sum = 0;
    for term in terms {
        sum = plus(sum, coefficient_in(term, column));
    }
    sum
}

/// Returns the sum, in parts, of the terms that are numbers by themselves.
pub(super) fn number_sum(terms: &[Term]) -> Parts
    ensures value { millionths result ≡ total number_in terms.now }
    ensures within { AreTermSums result }
{
    let mut whole = 0;
    let mut rest = 0;
    for term in terms {
        whole = plus(whole, wholes_in(term));
        rest = plus(rest, rest_in(term));
    }
    Parts { whole, rest }
}

/// Returns what a term adds to the coefficient of a column.
fn coefficient_in(term: &Term, name: &Name) -> Amount
    ensures { result ≡ coefficient_in name.now term.now }
{
    match term {
        Term::Number(_) => Amount::ZERO,
        Term::Column {
            coefficient,
            column,
        } => {
            if *column == *name {
                *coefficient
            } else {
                Amount::ZERO
            }
        }
    }
}

/// Returns the wholes that a term adds to the numbers of a sum.
fn wholes_in(term: &Term) -> Amount
    ensures { result ≡ wholes_in term.now }
{
    match term {
        Term::Number(number) => wholes_of(*number),
        Term::Column { .. } => Amount::ZERO,
    }
}

/// Returns the millionths that a term adds beside those wholes.
fn rest_in(term: &Term) -> Amount
    ensures { result ≡ rest_in term.now }
{
    match term {
        Term::Number(number) => rest_of(*number),
        Term::Column { .. } => Amount::ZERO,
    }
}

/// Returns a sum of terms plus one amount.
fn plus(sum: i128, amount: Amount) -> i128
    requires { IsTermSum sum }
    ensures { result ≡ sum +ℤ amount }
{
    sum + i128::from(amount.get())
}
