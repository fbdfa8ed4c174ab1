ghost use Rattle.std.specs.Prelude.{◌≡◌};

use escrow_num::{Amount, Decimal, Name, Text};
use escrow_statement::Word;

/// A symbol of a statement.
#[derive(Clone, Copy, Debug, PartialEq, Eq)]
pub enum Symbol {
    /// `(`
    Open,
    /// `)`
    Close,
    /// `,`
    Comma,
    /// `;`
    Semicolon,
    /// `*`
    Star,
    /// `+`
    Plus,
    /// `-`
    Minus,
    /// `=`
    Equal,
    /// `<`
    Below,
    /// `<=`
    AtMost,
    /// `>`
    Above,
    /// `>=`
    AtLeast,
}

/// What a token is, with what it holds.
#[derive(Debug, Drop)]
pub enum Kind {
    /// A reserved word.
    Word(Word),
    /// A name, in upper case.
    Name(Name),
    /// A number without a point. It is not negative.
    Number(Amount),
    /// A number with a point, in millionths. It is not negative.
    Decimal(Decimal),
    /// A text without its quotes. A doubled quote inside it counts once.
    Text(Text),
    /// A symbol.
    Symbol(Symbol),
}

/// The symbols, in the order above.
pub(crate) const SYMBOLS: &[Symbol] = &[
    Symbol::Open,
    Symbol::Close,
    Symbol::Comma,
    Symbol::Semicolon,
    Symbol::Star,
    Symbol::Plus,
    Symbol::Minus,
    Symbol::Equal,
    Symbol::Below,
    Symbol::AtMost,
    Symbol::Above,
    Symbol::AtLeast,
];

impl Symbol {
    ghost use Rattle.escrow_sql.specs.Classes.{symbol_number};

    /// Returns the symbol's place in the list above, from 0.
    pub(crate) fn number(self) -> u8
        ensures { result ≡ symbol_number self }
    {
        self as u8
    }
}

impl Kind {
    ghost use Rattle.escrow_sql.specs.Classes.{class_number};

    /// The class of names.
    pub(crate) const NAME: usize = 0;

    /// The class of numbers without a point.
    pub(crate) const NUMBER: usize = 1;

    /// The class of numbers with a point.
    pub(crate) const DECIMAL: usize = 2;

    /// The class of texts.
    pub(crate) const TEXT: usize = 3;

    /// Returns the number of the token's class: what it is, without what it holds.
    pub(crate) fn class(&self) -> usize
        ensures { result ≡ class_number self.now }
    {
        match self {
            Kind::Name(_) => Kind::NAME,
            Kind::Number(_) => Kind::NUMBER,
            Kind::Decimal(_) => Kind::DECIMAL,
            Kind::Text(_) => Kind::TEXT,
            Kind::Symbol(symbol) => 4 + usize::from(symbol.number()),
            Kind::Word(word) => 16 + usize::from(word.number()),
        }
    }
}

/// A token of a text, and its place there.
#[derive(Debug, Drop)]
pub struct Token {
    /// What it is.
    pub kind: Kind,
    /// Where its first byte is, from 0.
    pub start: usize,
    /// Where the first byte after it is.
    pub end: usize,
}
