//! Words, numbers, forms and limits of a text.
ghost use Rattle.std.specs.Prelude.{◌≡◌, ◌++◌, Some, OnOk, decimal, pos, string_bytes, true, unsigned_abs};
ghost use Rattle.std.specs.Ordering.{int_eq};
ghost use Rattle.escrow_num.specs.Scaled.{scaled_text};
ghost use Rattle.escrow_schema.specs.Print.{form_words, limit_words, sign_words, times_words};

use escrow_num::{Amount, Name, Scale, Scaled, Span, Wide};
use std::alloc::{AllocError, Global};

/// Adds words.
pub(crate) fn push(text: &mut String, words: &str) -> Result<(), AllocError>
    ensures { OnOk result (string_bytes text.new ≡ string_bytes text.old ++ words.now) }
{
    text.push_str(words)
}

/// Adds words and a name after them.
pub(crate) fn push_named(text: &mut String, words: &str, name: &Name) -> Result<(), AllocError>
    ensures { OnOk result (string_bytes text.new ≡ string_bytes text.old ++ (words.now ++ name.now)) }
{
    push(text, words)?;
    push(text, name.as_str())
}

/// Adds a number in decimal.
pub(crate) fn push_number(alloc: Global, text: &mut String, number: u64) -> Result<(), AllocError>
    ensures { OnOk result (string_bytes text.new ≡ string_bytes text.old ++ decimal number) }
{
    let digits = number.to_string(alloc)?;
    push(text, digits.as_str())
}

/// Adds words and a number of units of a scale after them, with a minus if it is negative.
fn push_limit(text: &mut String, words: &str, scale: Scale, limit: Wide) -> Result<(), AllocError>
    ensures { OnOk result (string_bytes text.new ≡ string_bytes text.old ++ (words.now ++ scaled_text scale limit)) }
{
    push(text, words)?;
    push(text, Scaled::new(limit, scale).as_str())
}

/// Adds a form over columns of these names: each column with a coefficient other than zero, in
/// order.
pub(crate) fn push_form(
    alloc: Global,
    text: &mut String,
    names: &[Name],
    coeffs: &[Amount],
) -> Result<(), AllocError>
    ensures { OnOk result (string_bytes text.new ≡ string_bytes text.old ++ form_words true names.now coeffs.now) }
{
    let mut is_first = true;
    for (name, coefficient) in names.iter().zip(coeffs) {
        if !is_zero(*coefficient) {
            push_term(alloc, text, is_first, *coefficient, name)?;
            is_first = false;
        }
    }
    Ok(())
}

/// Adds a term: its sign, then its coefficient times its column.
fn push_term(
    alloc: Global,
    text: &mut String,
    is_first: bool,
    coefficient: Amount,
    name: &Name,
) -> Result<(), AllocError>
    ensures { OnOk result (string_bytes text.new ≡ string_bytes text.old
        ++ (sign_words is_first coefficient ++ times_words (unsigned_abs coefficient) name.now)) }
{
    push(text, sign_of(is_first, coefficient))?;
    push_times(alloc, text, coefficient.get().unsigned_abs(), name)
}

/// Returns the sign of a term. The first term only shows a minus.
fn sign_of(is_first: bool, coefficient: Amount) -> &'static str
    ensures { result.now ≡ sign_words is_first coefficient }
{
    match (is_first, coefficient.get() < 0) {
        (true, true) => "-",
        (true, false) => "",
        (false, true) => " - ",
        (false, false) => " + ",
    }
}

/// Adds a column times a magnitude.
fn push_times(
    alloc: Global,
    text: &mut String,
    magnitude: u64,
    name: &Name,
) -> Result<(), AllocError>
    ensures { OnOk result (string_bytes text.new ≡ string_bytes text.old ++ times_words magnitude name.now) }
{
    if magnitude == 1 {
        return push(text, name.as_str());
    }
    push_number(alloc, text, magnitude)?;
    push_named(text, " * ", name)
}

/// Returns whether a number is zero.
fn is_zero(number: Amount) -> bool
    ensures { result ≡ int_eq number (pos 0) }
{
    number.get() == 0
}

/// Adds the limits of a form, in units of a scale.
pub(crate) fn push_limits(text: &mut String, scale: Scale, span: &Span) -> Result<(), AllocError>
    ensures { OnOk result (string_bytes text.new ≡ string_bytes text.old ++ limit_words scale span.now.lo span.now.hi) }
{
    match (span.lo, span.hi) {
        (Some(lo), Some(hi)) => push_range(text, scale, lo, hi),
        (Some(lo), None) => push_limit(text, " >= ", scale, lo),
        (None, Some(hi)) => push_limit(text, " <= ", scale, hi),
        (None, None) => Ok(()),
    }
}

/// Adds two limits, in units of a scale.
fn push_range(text: &mut String, scale: Scale, lo: Wide, hi: Wide) -> Result<(), AllocError>
    ensures { OnOk result (string_bytes text.new ≡ string_bytes text.old ++ limit_words scale (Some lo) (Some hi)) }
{
    if lo == hi {
        return push_limit(text, " = ", scale, lo);
    }
    push_limit(text, " BETWEEN ", scale, lo)?;
    push_limit(text, " AND ", scale, hi)
}
