ghost use Rattle.std.specs.Prelude.{◌≡◌, pos, true, false, Some, None, Ok, MatchOption};
ghost use Rattle.escrow_sql.specs.Grammar.{sequence};
ghost use Rattle.escrow_sql.specs.Predictive.{run, starts, first};
ghost use Rattle.escrow_sql.specs.Cursor.{Advances};
ghost use Rattle.escrow_sql.specs.Parts.{signed_term-not_empty};
ghost use Rattle.escrow_sql.specs.Statement.{optional, meaning, ◌then◌, word, symbol, name, whole, sign, signed, signed_number, times, with_sign, term, signed_term, sum, test_part, comparison, condition, constraint, check};
ghost use Rattle.escrow_statement.specs.declared.statement.Term.TheVariants as terms;
ghost use Rattle.escrow_statement.specs.declared.statement.Test.TheVariants as tests;
ghost use Rattle.escrow_sql.specs.declared.token.Symbol.TheVariants as symbols;
ghost use Rattle.escrow_statement.specs.declared.word.Word.TheVariants as words;

use crate::cursor::Cursor;
use crate::halt::Halt;
use crate::parser::part::{Part, Repeated};
use crate::parser::{change, part};
use crate::token::{Kind, Symbol};
use escrow_num::{Amount, Decimal, Name, Seq};
use escrow_statement::{CheckText, Comparison, Condition, Term, Test, Word};
use std::alloc::Global;

/// Returns the coefficient, negated if there is a minus.
fn sign_coefficient(minus: bool, coefficient: Amount) -> Amount
    ensures { result ≡ with_sign minus coefficient }
{
    if minus {
        Amount::new(-coefficient.get()).unwrap()
    } else {
        coefficient
    }
}

/// Returns the term, with its number negated if there is a minus.
fn apply_sign(minus: bool, term: Term) -> Term
    ensures { result ≡ signed minus term }
{
    match term {
        Term::Number(number) => Term::Number(change::apply_sign(minus, number)),
        Term::Column {
            coefficient,
            column,
        } => Term::Column {
            coefficient: sign_coefficient(minus, coefficient),
            column,
        },
    }
}

impl Cursor<'_> {
    /// `whole [ "*" name ]`
    fn whole_term(&mut self) -> Result<Term, Halt>
        ensures { Advances self.new.tokens.now result
            (run (sequence whole (optional None (meaning (λ c. Some c) (symbol symbols.Star then name))) times)
            self.old.tokens.now) }
    {
        let number = self.whole_number()?;
        if !self.takes_symbol(Symbol::Star) {
            return Ok(Term::Number(Decimal::from(number)));
        }
        let column = self.name()?;
        Ok(Term::Column {
            coefficient: number,
            column,
        })
    }

    /// `name [ "*" whole ]`
    fn column_term(&mut self) -> Result<Term, Halt>
        ensures { Advances self.new.tokens.now result
            (run (sequence name (optional (pos 1) (symbol symbols.Star then whole))
            (λ c n. terms.Column n c)) self.old.tokens.now) }
    {
        let column = self.name()?;
        if !self.takes_symbol(Symbol::Star) {
            return Ok(Term::Column {
                coefficient: Amount::new(1).unwrap(),
                column,
            });
        }
        let coefficient = self.whole_number()?;
        Ok(Term::Column {
            coefficient,
            column,
        })
    }

    /// `whole [ "*" name ] | point | name [ "*" whole ]`
    #[tactic(auto, unfolding(crate::specs::Statement::term))]
    fn term(&mut self) -> Result<Term, Halt>
        ensures { Advances self.new.tokens.now result (run term self.old.tokens.now) }
    {
        if self.is_at_whole() {
            return self.whole_term();
        }
        if self.is_at_point() {
            return Ok(Term::Number(self.point_number()?));
        }
        self.column_term()
    }

    /// `[ sign ] term`
    fn first_term(&mut self) -> Result<Term, Halt>
        ensures { Advances self.new.tokens.now result
            (run (sequence (optional false sign) term signed) self.old.tokens.now) }
    {
        let minus = self.optional_sign()?;
        let term = self.term()?;
        Ok(apply_sign(minus, term))
    }

    /// `[ sign ] term { sign term }`
    #[tactic(auto, unfolding(crate::specs::Statement::sum))]
    fn sum(&mut self, alloc: Global) -> Result<Seq<Term>, Halt>
        ensures { Advances self.new.tokens.now result (run sum self.old.tokens.now) }
    {
        let term = self.first_term()?;
        let mut terms = Seq::new(alloc);
        terms.push(term)?;
        part::read_more(alloc, self, terms)
    }

    /// `"<" | "<=" | ">" | ">=" | "="`, if one comes next.
    #[tactic(auto, unfolding(crate::specs::Statement::comparison))]
    fn takes_comparison(&mut self) -> Option<Comparison>
        ensures { MatchOption result ((starts (first comparison) self.old.tokens.now ≡ false)
            × (self.new.tokens.now ≡ self.old.tokens.now))
            (λ c. (starts (first comparison) self.old.tokens.now ≡ true)
            × (run comparison self.old.tokens.now ≡ Ok (c, self.new.tokens.now))) }
    {
        if self.takes_symbol(Symbol::Below) {
            Some(Comparison::Below)
        } else if self.takes_symbol(Symbol::AtMost) {
            Some(Comparison::AtMost)
        } else if self.takes_symbol(Symbol::Above) {
            Some(Comparison::Above)
        } else if self.takes_symbol(Symbol::AtLeast) {
            Some(Comparison::AtLeast)
        } else if self.takes_symbol(Symbol::Equal) {
            Some(Comparison::Equal)
        } else {
            None
        }
    }

    /// `BETWEEN signed_number AND signed_number`
    fn between(&mut self) -> Result<Test, Halt>
        ensures { Advances self.new.tokens.now result
            (run (word words.Between then sequence signed_number (word words.And then signed_number)
            (λ l h. tests.Between l h)) self.old.tokens.now) }
    {
        self.word(Word::Between)?;
        let low = self.signed_number()?;
        self.word(Word::And)?;
        let high = self.signed_number()?;
        Ok(Test::Between { low, high })
    }

    /// `comparison sum | BETWEEN signed_number AND signed_number`
    #[tactic(auto, unfolding(crate::specs::Statement::test_part, crate::specs::Statement::comparison))]
    fn test_part(&mut self, alloc: Global) -> Result<Test, Halt>
        ensures { Advances self.new.tokens.now result (run test_part self.old.tokens.now) }
    {
        let Some(comparison) = self.takes_comparison() else {
            return self.between();
        };
        let sum = self.sum(alloc)?;
        Ok(Test::Compare { comparison, sum })
    }

    /// `[ CONSTRAINT name ]`
    #[tactic(auto, unfolding(crate::specs::Statement::constraint))]
    fn constraint(&mut self) -> Result<Option<Name>, Halt>
        ensures { Advances self.new.tokens.now result (run constraint self.old.tokens.now) }
    {
        if !self.takes_word(Word::Constraint) {
            return Ok(None);
        }
        Ok(Some(self.name()?))
    }

    /// `constraint CHECK "(" condition { AND condition } ")"`
    #[tactic(auto, unfolding(crate::specs::Statement::check))]
    pub(super) fn check(&mut self, alloc: Global) -> Result<CheckText, Halt>
        ensures { Advances self.new.tokens.now result (run check self.old.tokens.now) }
    {
        let name = self.constraint()?;
        self.word(Word::Check)?;
        self.symbol(Symbol::Open)?;
        let conditions = part::read_separated(alloc, self, &Kind::Word(Word::And))?;
        self.symbol(Symbol::Close)?;
        Ok(CheckText { name, conditions })
    }

    /// Returns whether a CHECK comes next.
    #[tactic(auto, unfolding(crate::specs::Statement::check, crate::specs::Statement::constraint))]
    pub(super) fn is_at_check(&self) -> bool
        ensures { result ≡ starts (first check) self.now.tokens.now }
    {
        self.is_at_word(Word::Constraint) || self.is_at_word(Word::Check)
    }
}

impl Part for Term {
    ghost grammar = { signed_term };

    /// `sign term`
    #[tactic(auto, unfolding(crate::specs::Statement::signed_term))]
    fn read(_alloc: Global, cursor: &mut Cursor) -> Result<Term, Halt> {
        let minus = cursor.sign()?;
        let term = cursor.term()?;
        Ok(apply_sign(minus, term))
    }
}

impl Repeated for Term {
    ghost not_empty = { signed_term-not_empty };

    #[tactic(auto, unfolding(crate::specs::Statement::signed_term, crate::specs::Statement::sign))]
    fn is_next(cursor: &Cursor) -> bool {
        cursor.is_at_sign()
    }
}

impl Part for Condition {
    ghost grammar = { condition };

    /// `sum test_part`
    #[tactic(auto, unfolding(crate::specs::Statement::condition))]
    fn read(alloc: Global, cursor: &mut Cursor) -> Result<Condition, Halt> {
        let sum = cursor.sum(alloc)?;
        let test = cursor.test_part(alloc)?;
        Ok(Condition { sum, test })
    }
}
