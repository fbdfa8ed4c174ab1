ghost use Rattle.std.specs.Prelude.{◌≡◌, [], ◌∷◌, pos, false, Ok, MatchBool};
ghost use Rattle.escrow_sql.specs.Predictive.{run, starts};
ghost use Rattle.escrow_sql.specs.Cursor.{Advances, bare};
ghost use Rattle.escrow_sql.specs.Classes.{class_number};
ghost use Rattle.escrow_sql.specs.Statement.{word, symbol, name, whole, point, text};
ghost use Rattle.escrow_sql.specs.declared.token.Kind.TheVariants as kind;

use crate::halt::Halt;
use crate::lexeme::Lexeme;
use crate::token::{Kind, Symbol};
use crate::written::WrittenName;
use escrow_num::{Amount, Decimal, Name, Text};
use escrow_statement::Word;
use std::alloc::Global;

/// A place among the tokens of a text. Each method that reads moves it past what was read, or
/// leaves it at the first token that no sentence continues with.
#[derive(Drop)]
pub(crate) struct Cursor<'a> {
    /// The tokens that are left to read.
    pub(crate) tokens: &'a [Lexeme<'a>],
}

impl<'a> Cursor<'a> {
    /// Returns whether a token of the class of this number comes next.
    fn is_at(&self, class: usize) -> bool
        ensures { result ≡ starts (class ∷ []) self.now.tokens.now }
    {
        match self.tokens {
            [] => false,
            [token, ..] => token.class() == class,
        }
    }

    /// Returns whether a reserved word comes next.
    pub(crate) fn is_at_word(&self, expected: Word) -> bool
        ensures { result ≡ starts (class_number (kind.Word expected) ∷ []) self.now.tokens.now }
    {
        self.is_at(Kind::Word(expected).class())
    }

    /// Returns whether a symbol comes next.
    pub(crate) fn is_at_symbol(&self, expected: Symbol) -> bool
        ensures { result ≡ starts (class_number (kind.Symbol expected) ∷ []) self.now.tokens.now }
    {
        self.is_at(Kind::Symbol(expected).class())
    }

    /// Returns whether a name comes next.
    pub(crate) fn is_at_name(&self) -> bool
        ensures { result ≡ starts (class_number (kind.Name []) ∷ []) self.now.tokens.now }
    {
        self.is_at(Kind::NAME)
    }

    /// Returns whether a number without a point comes next.
    pub(crate) fn is_at_whole(&self) -> bool
        ensures { result ≡ starts (class_number (kind.Number (pos 0)) ∷ []) self.now.tokens.now }
    {
        self.is_at(Kind::NUMBER)
    }

    /// Returns whether a number with a point comes next.
    pub(crate) fn is_at_point(&self) -> bool
        ensures { result ≡ starts (class_number (kind.Decimal (pos 0)) ∷ []) self.now.tokens.now }
    {
        self.is_at(Kind::DECIMAL)
    }

    /// Returns whether a text comes next.
    pub(crate) fn is_at_text(&self) -> bool
        ensures { result ≡ starts (class_number (kind.Text []) ∷ []) self.now.tokens.now }
    {
        self.is_at(Kind::TEXT)
    }

    /// Skips a token of the class of `expected` if one comes next. Returns whether it did.
    pub(crate) fn takes(&mut self, expected: &Kind) -> bool
        ensures { MatchBool result (run (bare expected.now) self.old.tokens.now ≡ Ok (tt, self.new.tokens.now))
            ((starts (class_number expected.now ∷ []) self.old.tokens.now ≡ false)
            × (self.new.tokens.now ≡ self.old.tokens.now)) }
    {
        match self.tokens {
            [token, rest @ ..] if token.class() == expected.class() => {
                self.tokens = rest;
                true
            }
            _ => false,
        }
    }

    /// [`Cursor::takes`] of a reserved word.
    pub(crate) fn takes_word(&mut self, expected: Word) -> bool
        ensures { MatchBool result (run (word expected) self.old.tokens.now ≡ Ok (tt, self.new.tokens.now))
            ((starts (class_number (kind.Word expected) ∷ []) self.old.tokens.now ≡ false)
            × (self.new.tokens.now ≡ self.old.tokens.now)) }
    {
        self.takes(&Kind::Word(expected))
    }

    /// [`Cursor::takes`] of a symbol.
    pub(crate) fn takes_symbol(&mut self, expected: Symbol) -> bool
        ensures { MatchBool result (run (symbol expected) self.old.tokens.now ≡ Ok (tt, self.new.tokens.now))
            ((starts (class_number (kind.Symbol expected) ∷ []) self.old.tokens.now ≡ false)
            × (self.new.tokens.now ≡ self.old.tokens.now)) }
    {
        self.takes(&Kind::Symbol(expected))
    }

    /// Reads a token of the class of `expected`.
    fn expect(&mut self, expected: &Kind) -> Result<(), Halt>
        ensures { Advances self.new.tokens.now result (run (bare expected.now) self.old.tokens.now) }
    {
        match self.tokens {
            [token, rest @ ..] if token.class() == expected.class() => {
                self.tokens = rest;
                Ok(())
            }
            _ => Err(Halt::Syntax),
        }
    }

    /// Reads a reserved word.
    pub(crate) fn word(&mut self, expected: Word) -> Result<(), Halt>
        ensures { Advances self.new.tokens.now result (run (word expected) self.old.tokens.now) }
    {
        self.expect(&Kind::Word(expected))
    }

    /// Reads a symbol.
    pub(crate) fn symbol(&mut self, expected: Symbol) -> Result<(), Halt>
        ensures { Advances self.new.tokens.now result (run (symbol expected) self.old.tokens.now) }
    {
        self.expect(&Kind::Symbol(expected))
    }

    /// Reads a name and returns it as written.
    pub(crate) fn written_name(&mut self) -> Result<WrittenName<'a>, Halt>
        ensures { Advances self.new.tokens.now result (run name self.old.tokens.now) }
    {
        let [token, rest @ ..] = self.tokens else {
            return Err(Halt::Syntax);
        };
        match token.name() {
            Some(name) => {
                self.tokens = rest;
                Ok(name)
            }
            None => Err(Halt::Syntax),
        }
    }

    /// Reads a name.
    pub(crate) fn name(&mut self) -> Result<Name, Halt>
        ensures { Advances self.new.tokens.now result (run name self.old.tokens.now) }
    {
        let written = self.written_name()?;
        Ok(written.name())
    }

    /// Reads a number without a point.
    pub(crate) fn whole_number(&mut self) -> Result<Amount, Halt>
        ensures { Advances self.new.tokens.now result (run whole self.old.tokens.now) }
    {
        let [token, rest @ ..] = self.tokens else {
            return Err(Halt::Syntax);
        };
        match token.number() {
            Some(number) => {
                self.tokens = rest;
                Ok(number)
            }
            None => Err(Halt::Syntax),
        }
    }

    /// Reads a number with a point.
    pub(crate) fn point_number(&mut self) -> Result<Decimal, Halt>
        ensures { Advances self.new.tokens.now result (run point self.old.tokens.now) }
    {
        let [token, rest @ ..] = self.tokens else {
            return Err(Halt::Syntax);
        };
        match token.decimal() {
            Some(number) => {
                self.tokens = rest;
                Ok(number)
            }
            None => Err(Halt::Syntax),
        }
    }

    /// Reads a text and returns a copy of it.
    pub(crate) fn text(&mut self, alloc: Global) -> Result<Text, Halt>
        ensures { Advances self.new.tokens.now result (run text self.old.tokens.now) }
    {
        let [token, rest @ ..] = self.tokens else {
            return Err(Halt::Syntax);
        };
        match token.text(alloc)? {
            Some(text) => {
                self.tokens = rest;
                Ok(text)
            }
            None => Err(Halt::Syntax),
        }
    }
}
