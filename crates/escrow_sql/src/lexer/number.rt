ghost use Rattle.std.specs.Prelude.{◌≡◌, ◌<◌, ◌+◌, pos, SomeIff, length};
ghost use Rattle.std.specs.List.{prefix_len};
ghost use Rattle.std.specs.Char.{is_ascii_digit};
ghost use Rattle.escrow_num.specs.Amount.{IsAmount, number_of};
ghost use Rattle.escrow_sql.specs.Lex.{front_digits, number_piece, point_digits, point_piece, whole_piece};
ghost use Rattle.escrow_sql.specs.Lexeme.{piece_of_scan};
ghost use Rattle.escrow_sql.specs.Scan.{point_millionths};

use crate::lexeme::Sort;
use crate::lexer::scan::Scan;
use escrow_num::{Amount, Decimal};

/// Returns how many digits are at the front.
fn digits_len(bytes: &[u8]) -> usize
    ensures { result ≡ prefix_len is_ascii_digit bytes.now }
{
    bytes
        .iter()
        .take_while(|byte| byte.is_ascii_digit())
        .count()
}

/// Returns the digits at the front.
fn front_digits(bytes: &[u8]) -> &[u8]
    ensures { result.now ≡ front_digits bytes.now }
{
    &bytes[..digits_len(bytes)]
}

/// Returns the digits right after a point at the front, if there is a point.
fn point_digits(bytes: &[u8]) -> &[u8]
    ensures { result.now ≡ point_digits bytes.now }
{
    match bytes {
        [first, rest @ ..] if *first == b'.' => front_digits(rest),
        _ => &[],
    }
}

/// Returns the number that the digits spell, or `None` past the limit of an amount.
fn value_of(digits: &[u8]) -> Option<Amount>
    ensures { SomeIff result (IsAmount (pos (number_of digits.now))) (pos (number_of digits.now)) }
{
    let mut value: u64 = 0;
    for digit in digits {
        value = 10 * value + u64::from(digit.saturating_sub(b'0'));
        if value > Amount::MAX as u64 {
            return None;
        }
    }
    Amount::new(value as i64)
}

/// Returns the number without a point of these digits.
fn whole_number(digits: &[u8]) -> Scan<'_>
    ensures { piece_of_scan result ≡ whole_piece digits.now }
{
    match value_of(digits) {
        Some(value) => Scan::Lexeme(Sort::number(value), digits.len()),
        None => Scan::Fault(0),
    }
}

/// Returns the number with a point at the front of the bytes.
pub(crate) fn decimal_of(bytes: &[u8]) -> Option<Decimal>
    ensures { result ≡ point_millionths bytes.now }
{
    let front = front_digits(bytes);
    let behind = point_digits(&bytes[front.len()..]);
    Decimal::of_digits(front, behind)
}

/// Returns the number with a point at the front of the bytes. It takes `len` of them.
fn point_number(len: usize, bytes: &[u8]) -> Scan<'_>
    ensures { piece_of_scan result ≡ point_piece len (point_millionths bytes.now) }
{
    match decimal_of(bytes) {
        Some(_) => Scan::Lexeme(Sort::decimal(bytes), len),
        None => Scan::Fault(0),
    }
}

/// Returns the number at the front of the bytes. It has a point only if a digit follows the point.
#[tactic(auto, unfolding(crate::specs::Lex::number_piece))]
pub(super) fn read_number(bytes: &[u8]) -> Scan<'_>
    ensures { piece_of_scan result ≡ number_piece bytes.now }
{
    let front = front_digits(bytes);
    let behind = point_digits(&bytes[front.len()..]);
    if behind.is_empty() {
        whole_number(front)
    } else {
        point_number(front.len() + 1 + behind.len(), bytes)
    }
}
