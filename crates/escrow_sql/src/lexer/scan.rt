use crate::lexeme::Sort;

/// What the rest of a text begins with. It borrows all that it holds.
#[derive(Debug, Drop)]
pub(crate) enum Scan<'a> {
    /// Blanks or a comment, of this many bytes.
    Blank(usize),
    /// A lexeme of this many bytes.
    Lexeme(Sort<'a>, usize),
    /// A fault, after this many bytes.
    Fault(usize),
}
