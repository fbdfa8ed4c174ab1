use crate::token::Kind;

/// What the rest of a text begins with, as contracts say it. They see a `Scan` as a `Piece`.
#[derive(Debug, Drop)]
pub enum Piece {
    /// Blanks or a comment, of this many bytes.
    Blank(usize),
    /// A token of this many bytes.
    Token(Kind, usize),
    /// A fault, after this many bytes.
    Fault(usize),
}
