ghost use Rattle.std.specs.Prelude.{◌≡◌, ◌∷◌};
ghost use Rattle.escrow_sql.specs.Lex.{symbol_piece, begins};
ghost use Rattle.escrow_sql.specs.Lexeme.{piece_of_scan};

use crate::lexeme::Sort;
use crate::lexer::scan::Scan;
use crate::token::{Kind, Symbol};

/// Returns the longest symbol that begins with `first` and continues with the bytes of `next`.
#[tactic(auto, unfolding(crate::specs::Lex::symbol_piece))]
pub(super) fn read_symbol<'a>(first: u8, next: &'a [u8]) -> Scan<'a>
    ensures { piece_of_scan result ≡ symbol_piece first next.now }
{
    let or_equal = starts_with(next, b'=');
    let (symbol, len) = match first {
        b'(' => (Symbol::Open, 1),
        b')' => (Symbol::Close, 1),
        b',' => (Symbol::Comma, 1),
        b';' => (Symbol::Semicolon, 1),
        b'*' => (Symbol::Star, 1),
        b'+' => (Symbol::Plus, 1),
        b'-' => (Symbol::Minus, 1),
        b'=' => (Symbol::Equal, 1),
        b'<' if or_equal => (Symbol::AtMost, 2),
        b'<' => (Symbol::Below, 1),
        b'>' if or_equal => (Symbol::AtLeast, 2),
        b'>' => (Symbol::Above, 1),
        _ => return Scan::Fault(0),
    };
    Scan::Lexeme(Sort::bare(&Kind::Symbol(symbol)), len)
}

/// Returns whether the bytes begin with this byte.
pub(super) fn starts_with(bytes: &[u8], byte: u8) -> bool
    ensures { result ≡ begins byte bytes.now }
{
    match bytes {
        [] => false,
        [first, ..] => *first == byte,
    }
}
