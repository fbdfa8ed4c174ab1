//! The limits of a condition.

ghost use Rattle.std.specs.Prelude.{◌≡◌, ◌&&◌, true, if◌then◌else◌, Some, None};
ghost use Rattle.escrow_checks.specs.Checks.{condition_limits, has_good_limits, span_of, is_limit, in_order, is_good_span};
ghost use Rattle.escrow_checks.specs.Parts.{is_near};

use super::parts::Parts;
use super::sums::number_sum;
use escrow_num::{Amount, Scale, Span, Wide};
use escrow_statement::{Comparison, Condition, Test};

/// Returns the limits of a condition, in units of a scale. Returns `None` if one isn't a whole
/// number of units or has more than 15 digits, or if the low one is greater than the high one.
pub(super) fn limits_of(condition: &Condition, scale: Scale) -> Option<Span>
    ensures { result ≡ (if has_good_limits scale condition.now then Some (condition_limits scale condition.now)
        else None) }
{
    let left = number_sum(condition.sum.as_slice());
    match &condition.test {
        Test::Compare { comparison, sum } => {
            let number = number_sum(sum.as_slice()).less(left).units(scale)?;
            span_of(*comparison, number)
        }
        Test::Between { low, high } => {
            let low = Parts::of(*low).less(left).units(scale)?;
            let high = Parts::of(*high).less(left).units(scale)?;
            good_span(Some(low), Some(high))
        }
    }
}

/// Returns the limits that a comparison with a number of units sets.
fn span_of(comparison: Comparison, units: i128) -> Option<Span>
    requires { is_near units ≡ true }
    ensures { let span = span_of comparison units in
        result ≡ (if is_good_span span then Some span else None) }
{
    match comparison {
        Comparison::Below => good_span(None, Some(units - 1)),
        Comparison::AtMost => good_span(None, Some(units)),
        Comparison::Above => good_span(Some(units + 1), None),
        Comparison::AtLeast => good_span(Some(units), None),
        Comparison::Equal => good_span(Some(units), Some(units)),
    }
}

/// Returns the span of two limits, if they are good.
fn good_span(lo: Option<i128>, hi: Option<i128>) -> Option<Span>
    ensures { result ≡ (if is_limit lo && is_limit hi && in_order lo hi then Some (record { lo = lo; hi = hi })
        else None) }
{
    if is_limit(lo) && is_limit(hi) && in_order(lo, hi) {
        Some(Span {
            lo: limit(lo),
            hi: limit(hi),
        })
    } else {
        None
    }
}

/// Returns whether a limit has at most 15 digits. A missing limit passes.
fn is_limit(number: Option<i128>) -> bool
    ensures { result ≡ is_limit number }
{
    let most = i128::from(Amount::MAX);
    match number {
        Some(number) => -most <= number && number <= most,
        None => true,
    }
}

/// Returns whether the low limit isn't greater than the high one.
fn in_order(lo: Option<i128>, hi: Option<i128>) -> bool
    ensures { result ≡ in_order lo hi }
{
    match (lo, hi) {
        (Some(lo), Some(hi)) => lo <= hi,
        _ => true,
    }
}

/// Returns a limit of at most 15 digits.
fn limit(number: Option<i128>) -> Option<Wide>
    requires { is_limit number ≡ true }
    ensures { result ≡ number }
{
    match number {
        Some(number) => Wide::new(number),
        None => None,
    }
}
