ghost use Rattle.std.specs.Prelude.{◌≡◌, ◌<◌, ◌+◌, ◌-◌, ◌==◌, not, Ok, List, MatchResult, IfOk, IfErr, length, drop, slice_index};
ghost use Rattle.std.specs.List.{prefix_len, AllByRecursion};
ghost use Rattle.escrow_sql.specs.Lex.{is_blank, IsLexed, IsLexFault, IsItsSlice};
ghost use Rattle.escrow_sql.specs.Lexeme.{piece_of_scan};
ghost use Rattle.escrow_sql.specs.Scan.{piece_of, IsWithin};
ghost use Rattle.escrow_sql.specs.Token.{AreInOrder};
ghost use Rattle.escrow_sql.specs.declared.fault.ParseFault.TheVariants.{Memory};
ghost use Rattle.escrow_sql.specs.declared.token.Token.{Token};

mod name;
pub(crate) mod number;
mod piece;
mod scan;
mod symbol;
mod text;

use crate::fault::ParseFault;
use crate::lexeme::Lexeme;
use crate::lexer::scan::Scan;
use crate::token::Token;
use escrow_num::Seq;
use std::alloc::{AllocError, Global};

/// The most bytes of a text that the lexer reads.
pub const MAX_TEXT: usize = 65_536;

/// Returns whether the byte is a blank.
fn is_blank(byte: u8) -> bool
    ensures { result ≡ is_blank byte }
{
    byte == b' ' || byte == b'\t' || byte == b'\r' || byte == b'\n'
}

/// Reads what the text begins with from a place on.
#[tactic(auto, unfolding(crate::specs::Lex::plain_piece))]
fn read_piece(text: &str, at: usize) -> Scan<'_>
    requires { at < length text.now }
    ensures { piece_of_scan result ≡ piece_of (slice_index text.now at) (drop (at + 1) text.now) }
{
    let bytes = text.as_bytes();
    let first = bytes[at];
    if is_blank(first) {
        return Scan::Blank(1);
    }
    if first == b'\'' {
        return text::read_text(&text[at + 1..]);
    }
    let rest = &bytes[at..];
    let next = &bytes[at + 1..];
    if first == b'-' && symbol::starts_with(next, b'-') {
        return Scan::Blank(comment_len(rest));
    }
    if first.is_ascii_alphabetic() {
        return name::read_name(rest);
    }
    if first.is_ascii_digit() {
        return number::read_number(rest);
    }
    symbol::read_symbol(first, next)
}

/// Returns how many bytes a comment takes: all bytes up to the end of the line.
fn comment_len(bytes: &[u8]) -> usize
    ensures { result ≡ prefix_len (λ b. not (b == 10)) bytes.now }
{
    bytes.iter().take_while(|byte| **byte != b'\n').count()
}

/// [`read_piece`], with how much of the text it takes.
fn piece_at(text: &str, at: usize) -> Scan<'_>
    requires { at < length text.now }
    ensures value { piece_of_scan result ≡ piece_of (slice_index text.now at) (drop (at + 1) text.now) }
    ensures within { IsWithin (length text.now - at) (piece_of_scan result) }
{
    read_piece(text, at)
}

/// Returns the lexemes of a text: the tokens that [`lex`] returns, which borrow what they hold.
pub(crate) fn lexemes(alloc: Global, text: &str) -> Result<Seq<Lexeme<'_>>, ParseFault>
    ensures found { IfOk result (λ tokens. IsLexed text.now (Ok tokens)) }
    ensures spans { IfOk result (AreInOrder 0 (length text.now)) }
    ensures slices { IfOk result (AllByRecursion (IsItsSlice text.now)) }
    ensures fault { IfErr result (IsLexFault text.now) }
    ensures only { (tokens : List Token) → IsLexed text.now (Ok tokens)
        → MatchResult result (λ x. x ≡ tokens) (λ e. e ≡ Memory) }
{
    if MAX_TEXT < text.len() {
        return Err(ParseFault::Syntax {
            column: MAX_TEXT as u32 + 1,
        });
    }
    // A token of a statement takes about four bytes, so the list seldom has to grow.
    let mut lexemes = Seq::from_vec(Vec::with_capacity(alloc, text.len() / 4 + 1)?);
    let mut at = 0;
    while at < text.len() {
        match piece_at(text, at) {
            Scan::Blank(len) => at += len,
            Scan::Lexeme(sort, len) => {
                lexemes.push(Lexeme::new(sort, at, at + len))?;
                at += len;
            }
            Scan::Fault(place) => {
                return Err(ParseFault::Syntax {
                    column: (at + place + 1) as u32,
                });
            }
        }
    }
    Ok(lexemes)
}

/// Returns the tokens of lexemes.
fn tokens_of(alloc: Global, lexemes: &[Lexeme]) -> Result<Seq<Token>, AllocError>
    ensures { IfOk result (λ tokens. tokens ≡ lexemes.now) }
{
    let mut tokens = Seq::from_vec(Vec::with_capacity(alloc, lexemes.len())?);
    for lexeme in lexemes {
        tokens.push(lexeme.token(alloc)?)?;
    }
    Ok(tokens)
}

/// Returns the tokens of a text, in order, each with its place. `Syntax` has the column of the
/// leftmost fault. For a text longer than [`MAX_TEXT`] that is the column after the first
/// `MAX_TEXT` bytes.
pub fn lex(alloc: Global, text: &str) -> Result<Seq<Token>, ParseFault>
    // The tokens that are returned are those of the text.
    ensures found { IfOk result (λ tokens. IsLexed text.now (Ok tokens)) }
    ensures spans { IfOk result (AreInOrder 0 (length text.now)) }
    ensures slices { IfOk result (AllByRecursion (IsItsSlice text.now)) }
    ensures fault { IfErr result (IsLexFault text.now) }

    // If a text has tokens, they are returned, unless memory runs out.
    ensures only { (tokens : List Token) → IsLexed text.now (Ok tokens)
        → MatchResult result (λ x. x ≡ tokens) (λ e. e ≡ Memory) }
{
    let lexemes = lexemes(alloc, text)?;
    let tokens = tokens_of(alloc, lexemes.as_slice())?;
    Ok(tokens)
}
