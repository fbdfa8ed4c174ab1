ghost use Rattle.std.specs.Prelude.{◌≡◌, ◌==◌, ◌≤◌, false, IfOk, MatchOption};
ghost use Rattle.escrow_sql.specs.Classes.{class_number};
ghost use Rattle.escrow_sql.specs.declared.token.Kind.TheVariants as kind;

use crate::lexer::number;
use crate::token::{Kind, SYMBOLS, Token};
use crate::written;
use crate::written::WrittenName;
use escrow_num::{Amount, Decimal, Text};
use escrow_statement::WORDS;
use std::alloc::{AllocError, Global};
use std::marker::Model;

/// What a lexeme is, with what it holds. Its class says which of the fields count. Contracts see it
/// as the kind of a token.
#[derive(Debug, Drop)]
pub(crate) struct Sort<'a> {
    /// The number of its class.
    class: usize,
    /// The bytes of a name, of a number with a point or of a text. They are borrowed from the
    /// statement.
    bytes: &'a [u8],
    /// The number, if it is written without a point.
    number: Amount,
}

impl<'a> Model for Sort<'a> {
    ghost use Rattle.escrow_sql.specs.Sort.{IsSort, kind_at};
    ghost use Rattle.escrow_sql.specs.declared.token.Kind.{Kind};

    ghost Value = { Kind };

    ghost view = { λ s. kind_at s.class s.bytes.now s.number };

    ghost invariant = { λ s. IsSort s.class s.bytes.now s.number };
}

impl<'a> Sort<'a> {
    ghost use Rattle.std.specs.Prelude.{map, pos};
    ghost use Rattle.std.specs.Char.{to_ascii_uppercase};
    ghost use Rattle.std.specs.Option.{IsSome, unwrap_or};
    ghost use Rattle.escrow_num.specs.Name.{IsName};
    ghost use Rattle.escrow_sql.specs.Scan.{point_millionths, undoubled};

    /// Returns a symbol or a reserved word.
    pub(crate) fn bare(kind: &Kind) -> Self
        requires { 4 ≤ class_number kind.now }
        ensures { result ≡ kind.now }
    {
        Sort {
            class: kind.class(),
            bytes: &[],
            number: Amount::ZERO,
        }
    }

    /// Returns the name that the bytes write.
    pub(crate) fn name(bytes: &'a [u8]) -> Self
        requires { IsName (map to_ascii_uppercase bytes.now) }
        ensures { result ≡ kind.Name (map to_ascii_uppercase bytes.now) }
    {
        Sort {
            class: Kind::NAME,
            bytes,
            number: Amount::ZERO,
        }
    }

    /// Returns a number without a point. It is not negative.
    pub(crate) fn number(number: Amount) -> Self
        ensures { result ≡ kind.Number number }
    {
        Sort {
            class: Kind::NUMBER,
            bytes: &[],
            number,
        }
    }

    /// Returns the number with a point at the front of the bytes.
    pub(crate) fn decimal(bytes: &'a [u8]) -> Self
        requires { IsSome (point_millionths bytes.now) }
        ensures { result ≡ kind.Decimal (unwrap_or (point_millionths bytes.now) (pos 0)) }
    {
        Sort {
            class: Kind::DECIMAL,
            bytes,
            number: Amount::ZERO,
        }
    }

    /// Returns the text with this spelling between its quotes.
    pub(crate) fn text(raw: &'a str) -> Self
        ensures { result ≡ kind.Text (undoubled false raw.now) }
    {
        Sort {
            class: Kind::TEXT,
            bytes: raw.as_bytes(),
            number: Amount::ZERO,
        }
    }
}

/// A token that borrows the text's bytes: it is small and takes no memory of its own. Contracts see
/// it as the [`Token`].
#[derive(Debug, Drop)]
pub(crate) struct Lexeme<'a> {
    sort: Sort<'a>,
    start: usize,
    end: usize,
}

impl<'a> Model for Lexeme<'a> {
    ghost use Rattle.escrow_sql.specs.declared.token.Token.{Token};

    ghost Value = { Token };

    ghost view = { λ l. record { kind = l.sort; start = l.start; end = l.end } };
}

impl<'a> Lexeme<'a> {
    /// Returns the lexeme of this sort that takes the bytes from `start` to `end`.
    pub(crate) fn new(sort: Sort<'a>, start: usize, end: usize) -> Self
        ensures { result ≡ record { kind = sort.entry; start = start; end = end } }
    {
        Lexeme { sort, start, end }
    }

    /// Returns the place of its first byte, from 0.
    pub(crate) fn start(&self) -> usize
        ensures { result ≡ self.now.start }
    {
        self.start
    }

    /// Returns the number of its class.
    pub(crate) fn class(&self) -> usize
        ensures { result ≡ class_number self.now.kind }
    {
        self.sort.class
    }

    /// Returns its name, if it is a name.
    pub(crate) fn name(&self) -> Option<WrittenName<'a>>
        ensures { MatchOption result ((class_number self.now.kind == 0) ≡ false) (λ n. self.now.kind ≡ kind.Name n) }
    {
        if self.sort.class != Kind::NAME {
            return None;
        }
        Some(WrittenName::new(self.sort.bytes))
    }

    /// Returns its number, if it is one without a point.
    pub(crate) fn number(&self) -> Option<Amount>
        ensures { MatchOption result ((class_number self.now.kind == 1) ≡ false) (λ n. self.now.kind ≡ kind.Number n) }
    {
        if self.sort.class != Kind::NUMBER {
            return None;
        }
        Some(self.sort.number)
    }

    /// Returns its number, if it is one with a point.
    pub(crate) fn decimal(&self) -> Option<Decimal>
        ensures { MatchOption result ((class_number self.now.kind == 2) ≡ false) (λ d. self.now.kind ≡ kind.Decimal d) }
    {
        if self.sort.class != Kind::DECIMAL {
            return None;
        }
        number::decimal_of(self.sort.bytes)
    }

    /// Returns a copy of its text, if it is a text.
    pub(crate) fn text(&self, alloc: Global) -> Result<Option<Text>, AllocError>
        ensures { IfOk result (λ o.
            MatchOption o ((class_number self.now.kind == 3) ≡ false) (λ t. self.now.kind ≡ kind.Text t)) }
    {
        if self.sort.class != Kind::TEXT {
            return Ok(None);
        }
        match str::from_utf8(self.sort.bytes) {
            Ok(raw) => Ok(Some(written::text_of(alloc, raw)?)),
            Err(_) => unreachable!(),
        }
    }

    /// Returns the token, which owns what it holds.
    pub(crate) fn token(&self, alloc: Global) -> Result<Token, AllocError>
        ensures { IfOk result (λ t. t ≡ self.now) }
    {
        let kind = if let Some(name) = self.name() {
            Kind::Name(name.name())
        } else if let Some(number) = self.number() {
            Kind::Number(number)
        } else if let Some(number) = self.decimal() {
            Kind::Decimal(number)
        } else if let Some(text) = self.text(alloc)? {
            Kind::Text(text)
        } else {
            self.bare_kind()
        };
        Ok(Token {
            kind,
            start: self.start,
            end: self.end,
        })
    }

    /// Returns its symbol or reserved word.
    fn bare_kind(&self) -> Kind
        requires { 4 ≤ class_number self.now.kind }
        ensures { result ≡ self.now.kind }
    {
        match self.sort.class - 4 {
            symbol if symbol < SYMBOLS.len() => Kind::Symbol(SYMBOLS[symbol]),
            other => Kind::Word(WORDS[other - SYMBOLS.len()]),
        }
    }
}
