ghost use Rattle.std.specs.Prelude.{◌≡◌, ◌-◌, ◌≤◌, IfSome, false, length, position, slice_index};
ghost use Rattle.escrow_sql.specs.Lex.{is_forbidden};
ghost use Rattle.escrow_sql.specs.Scan.{text_rest, text_piece};
ghost use Rattle.escrow_sql.specs.Lexeme.{piece_of_scan};

use crate::lexeme::Sort;
use crate::lexer::scan::Scan;

/// Returns how many bytes a text takes after its opening quote, or `None` if no quote closes it.
fn quoted_len(body: &[u8]) -> Option<usize>
    ensures value { result ≡ text_rest false body.now }
    ensures within { IfSome result (λ len. (1 ≤ len) × (len ≤ length body.now)) }
    ensures quote { IfSome result (λ len. slice_index body.now (len - 1) ≡ 39) }
{
    let mut closing = false;
    for (i, byte) in body.iter().enumerate() {
        if *byte == b'\'' {
            closing = !closing;
        } else if closing {
            return Some(i);
        }
    }
    if closing { Some(body.len()) } else { None }
}

/// Returns whether a text may not contain the byte.
fn is_forbidden(byte: u8) -> bool
    ensures { result ≡ is_forbidden byte }
{
    byte < 0x20 || byte == 0x7f
}

/// Returns the place of the first byte that a text may not contain, if there is one.
fn forbidden_place(bytes: &[u8]) -> Option<usize>
    ensures { result ≡ position is_forbidden bytes.now }
{
    bytes.iter().position(|byte| is_forbidden(*byte))
}

/// Returns the text whose opening quote comes right before `body`.
pub(super) fn read_text(body: &str) -> Scan<'_>
    ensures { piece_of_scan result ≡ text_piece body.now }
{
    let Some(len) = quoted_len(body.as_bytes()) else {
        return Scan::Fault(0);
    };
    let raw = &body[..len - 1];
    if let Some(place) = forbidden_place(raw.as_bytes()) {
        return Scan::Fault(1 + place);
    }
    Scan::Lexeme(Sort::text(raw), 1 + len)
}
