//! Signs, points and digits of a text, and the numbers that digits spell.
ghost use Rattle.std.specs.Prelude.{◌≡◌, ◌++◌, ◌≤◌, ◌==◌, SomeIff, pos, unsigned_abs};
ghost use Rattle.std.specs.Char.{is_ascii_digit};
ghost use Rattle.std.specs.List.{list_all, position};
ghost use Rattle.escrow_num.specs.Amount.{after_sign, is_negative, is_numeral, number_after, number_of};
ghost use Rattle.escrow_num.specs.Decimal.{trimmed};
ghost use Rattle.escrow_num.specs.declared.amount.TheConstants.Amount.{MAX as MAX_AMOUNT};

use crate::amount::Amount;

/// Returns whether a text begins with a minus.
pub(crate) fn is_negative(text: &[u8]) -> bool
    ensures { result ≡ is_negative text.now }
{
    match text {
        [first, ..] => *first == b'-',
        [] => false,
    }
}

/// Returns what follows a text's sign, or the whole text if it has none.
pub(crate) fn after_sign(text: &[u8]) -> &[u8]
    ensures { result.now ≡ after_sign text.now }
{
    match text {
        [first, rest @ ..] if *first == b'-' || *first == b'+' => rest,
        _ => text,
    }
}

/// Returns the place of a text's first point.
pub(crate) fn point_of(text: &[u8]) -> Option<usize>
    ensures { result ≡ position (λ c. c == 46) text.now }
{
    text.iter().position(|byte| *byte == b'.')
}

/// Returns whether bytes are one or more digits.
#[tactic(auto, using(crate::proofs::DigitLemmas::are_digits))]
pub(crate) fn is_numeral(bytes: &[u8]) -> bool
    ensures { result ≡ is_numeral bytes.now }
{
    !bytes.is_empty() && are_digits(bytes)
}

/// Returns whether bytes are digits.
fn are_digits(bytes: &[u8]) -> bool
    ensures { result ≡ list_all is_ascii_digit bytes.now }
{
    bytes.iter().all(|byte| byte.is_ascii_digit())
}

/// Returns the digits without the zeros at their end.
pub(crate) fn trimmed(digits: &[u8]) -> &[u8]
    ensures { result.now ≡ trimmed digits.now }
{
    let mut len = digits.len();
    while len > 0 && digits[len - 1] == b'0' {
        len -= 1;
    }
    &digits[..len]
}

/// Returns the number that two runs of digits spell together, if it is an amount.
pub(crate) fn number_of(front: &[u8], behind: &[u8]) -> Option<Amount>
    ensures { SomeIff result (number_of (front.now ++ behind.now) ≤ unsigned_abs MAX_AMOUNT)
        (pos (number_of (front.now ++ behind.now))) }
{
    let whole = number_after(0, front)?;
    let number = number_after(whole, behind)?;
    Amount::new(number as i64)
}

/// Returns the number that digits spell after the digits of another number, within the limit of
/// amounts.
fn number_after(start: u64, digits: &[u8]) -> Option<u64>
    requires { start ≤ unsigned_abs MAX_AMOUNT }
    ensures { SomeIff result (number_after start digits.now ≤ unsigned_abs MAX_AMOUNT)
        (number_after start digits.now) }
{
    let mut number = start;
    for digit in digits {
        number = 10 * number + u64::from(digit.saturating_sub(b'0'));
        if number > Amount::MAX as u64 {
            return None;
        }
    }
    Some(number)
}
