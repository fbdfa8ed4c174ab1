//! Numbers in millionths. A sum of many terms may be too great for 128 bits. So wholes and
//! millionths are summed apart, and joined only if the sum is small enough.

ghost use Rattle.std.specs.Prelude.{◌≡◌, ◌+ℤ◌, ◌-ℤ◌, ◌≤ℤ◌, pos, neg_ℤ, ◌&&◌, ◌^◌, ◌↔◌, if◌then◌else◌, IsTrue, IsNone, IfSome, Some, None};
ghost use Rattle.escrow_checks.specs.Checks.{is_whole, units_in};
ghost use Rattle.escrow_checks.specs.Contribution.{IsDifference, IsTermSum};
ghost use Rattle.escrow_checks.specs.Parts.{AreDifferences, AreFew, AreTermSums, IsJoined, IsPast, is_near, joined, millionths, rest, wholes};

use escrow_num::{Amount, Decimal, Scale};

/// How many millionths are in a whole.
const MILLION: i128 = 1_000_000;

/// The most wholes of a number that is joined. A number with more is past every limit, at any
/// scale.
const MAX_WHOLES: i128 = 10_000_000_000_000_000;

/// The most units that may make a limit: one more than the greatest amount.
const MAX_UNITS: i128 = 1_000_000_000_000_000;

/// The two parts of a number: its wholes, and the millionths beside them.
#[derive(Clone, Copy, Debug)]
pub(super) struct Parts {
    /// The wholes.
    pub(super) whole: i128,
    /// The millionths. There may be more of them than a whole has.
    pub(super) rest: i128,
}

impl Parts {
    /// Returns the parts of a number.
    pub(super) fn of(number: Decimal) -> Parts
        ensures value { millionths result ≡ number }
        ensures within { AreTermSums result }
    {
        Parts {
            whole: i128::from(wholes_of(number).get()),
            rest: i128::from(rest_of(number).get()),
        }
    }

    /// Returns this sum less another.
    pub(super) fn less(self, other: Parts) -> Parts
        requires sum { AreTermSums self }
        requires other { AreTermSums other }
        ensures value { millionths result ≡ millionths self -ℤ millionths other }
        ensures within { AreDifferences result }
    {
        Parts {
            whole: less(self.whole, other.whole),
            rest: less(self.rest, other.rest),
        }
    }

    /// Returns the number in units of a scale, if it is a whole number of units, and these are an
    /// amount or one unit past one. Nothing is rounded.
    pub(super) fn units(self, scale: Scale) -> Option<i128>
        requires { AreDifferences self }
        ensures { let z = millionths self in
            result ≡ (if is_whole scale z && is_near (units_in scale z) then Some (units_in scale z) else None) }
    {
        units_of(self.joined()?, scale)
    }

    /// Returns the number, or `None` past [`MAX_WHOLES`].
    fn joined(self) -> Option<i128>
        requires { AreDifferences self }
        ensures some { IfSome result (λ z. (z ≡ millionths self) × IsJoined z) }
        ensures none { IsNone result → IsPast (millionths self) }
    {
        let whole = carried(self.whole, self.rest);
        if are_few(whole) {
            Some(together(whole, left(self.rest)))
        } else {
            None
        }
    }
}

/// Returns the wholes of a number, without the millionths beside them.
pub(super) fn wholes_of(number: Decimal) -> Amount
    ensures { result ≡ wholes number }
{
    Amount::new((number.get() / MILLION) as i64).unwrap()
}

/// Returns the millionths beside the wholes of a number.
pub(super) fn rest_of(number: Decimal) -> Amount
    ensures { result ≡ rest number }
{
    Amount::new((number.get() % MILLION) as i64).unwrap()
}

/// Returns a sum of parts less another.
pub(super) fn less(sum: i128, other: i128) -> i128
    requires sum { IsTermSum sum }
    requires other { IsTermSum other }
    ensures value { result ≡ sum -ℤ other }
    ensures within { IsDifference result }
{
    sum - other
}

/// Returns the wholes, with those that the millionths make up.
fn carried(whole: i128, millionths: i128) -> i128
    requires whole { IsDifference whole }
    requires rest { IsDifference millionths }
    ensures { result ≡ whole +ℤ wholes millionths }
{
    whole + millionths / MILLION
}

/// Returns the millionths that are left when those that make up wholes are taken away.
fn left(millionths: i128) -> i128
    requires { IsDifference millionths }
    ensures { result ≡ rest millionths }
{
    millionths % MILLION
}

/// Returns whether wholes are few enough to be joined with the millionths beside them.
fn are_few(whole: i128) -> bool
    ensures { IsTrue result ↔ AreFew whole }
{
    -MAX_WHOLES <= whole && whole <= MAX_WHOLES
}

/// Returns the number of these wholes and less than one whole more.
fn together(whole: i128, rest: i128) -> i128
    requires whole { AreFew whole }
    requires rest { (neg_ℤ (pos (10 ^ 6)) ≤ℤ rest) × (rest ≤ℤ pos (10 ^ 6)) }
    ensures { result ≡ joined whole rest }
{
    whole * MILLION + rest
}

/// Returns a number in units of a scale, if it is a whole number of units, near the range of
/// amounts.
fn units_of(number: i128, scale: Scale) -> Option<i128>
    requires { IsJoined number }
    ensures { result ≡ (if is_whole scale number && is_near (units_in scale number) then Some (units_in scale number)
        else None) }
{
    if is_whole(number, scale) {
        near(quotient(number, scale))
    } else {
        None
    }
}

/// Returns whether a number is a whole number of units of a scale.
fn is_whole(number: i128, scale: Scale) -> bool
    requires { IsJoined number }
    ensures { result ≡ is_whole scale number }
{
    number % i128::from(scale.unit()) == 0
}

/// Returns how many units of a scale a number is.
fn quotient(number: i128, scale: Scale) -> i128
    requires { IsJoined number }
    ensures { result ≡ units_in scale number }
{
    number / i128::from(scale.unit())
}

/// Returns a number of units, if it is an amount or one past an amount.
fn near(units: i128) -> Option<i128>
    ensures { result ≡ (if is_near units then Some units else None) }
{
    if -MAX_UNITS <= units && units <= MAX_UNITS {
        Some(units)
    } else {
        None
    }
}
