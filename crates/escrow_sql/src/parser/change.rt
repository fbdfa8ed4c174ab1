ghost use Rattle.std.specs.Prelude.{◌≡◌, refl, false};
ghost use Rattle.escrow_sql.specs.Predictive.{run, starts, first};
ghost use Rattle.escrow_sql.specs.Cursor.{Advances};
ghost use Rattle.escrow_sql.specs.Statement.{optional, sign, number, signed_number, with_sign, literal, where_part, change, assigned, assign, update};

use crate::cursor::Cursor;
use crate::halt::Halt;
use crate::parser::part;
use crate::parser::part::Part;
use crate::token::Symbol;
use escrow_num::Decimal;
use escrow_statement::{Assign, Assigned, Literal, UpdateText, WhereText, Word};
use std::alloc::Global;

/// Returns the number, negated if there is a minus.
pub(super) fn apply_sign(minus: bool, number: Decimal) -> Decimal
    ensures { result ≡ with_sign minus number }
{
    if minus { number.negated() } else { number }
}

impl Cursor<'_> {
    /// Returns whether a sign comes next.
    #[tactic(auto, unfolding(crate::specs::Statement::sign))]
    pub(super) fn is_at_sign(&self) -> bool
        ensures { result ≡ starts (first sign) self.now.tokens.now }
    {
        self.is_at_symbol(Symbol::Plus) || self.is_at_symbol(Symbol::Minus)
    }

    /// `"+" | "-"`: whether it is a minus.
    #[tactic(auto, unfolding(crate::specs::Statement::sign))]
    pub(super) fn sign(&mut self) -> Result<bool, Halt>
        ensures { Advances self.new.tokens.now result (run sign self.old.tokens.now) }
    {
        if self.takes_symbol(Symbol::Plus) {
            return Ok(false);
        }
        self.symbol(Symbol::Minus)?;
        Ok(true)
    }

    /// `[ sign ]`
    pub(super) fn optional_sign(&mut self) -> Result<bool, Halt>
        ensures { Advances self.new.tokens.now result (run (optional false sign) self.old.tokens.now) }
    {
        if self.is_at_sign() {
            return self.sign();
        }
        Ok(false)
    }

    /// Returns whether a number comes next.
    #[tactic(auto, unfolding(crate::specs::Statement::number))]
    fn is_at_number(&self) -> bool
        ensures { result ≡ starts (first number) self.now.tokens.now }
    {
        self.is_at_whole() || self.is_at_point()
    }

    /// `whole | point`
    #[tactic(auto, unfolding(crate::specs::Statement::number))]
    fn number(&mut self) -> Result<Decimal, Halt>
        ensures { Advances self.new.tokens.now result (run number self.old.tokens.now) }
    {
        if self.is_at_whole() {
            let whole = self.whole_number()?;
            return Ok(Decimal::from(whole));
        }
        self.point_number()
    }

    /// `[ sign ] number`
    #[tactic(auto, unfolding(crate::specs::Statement::signed_number))]
    pub(super) fn signed_number(&mut self) -> Result<Decimal, Halt>
        ensures { Advances self.new.tokens.now result (run signed_number self.old.tokens.now) }
    {
        let minus = self.optional_sign()?;
        let number = self.number()?;
        Ok(apply_sign(minus, number))
    }

    /// Returns whether a signed number comes next.
    #[tactic(auto, unfolding(crate::specs::Statement::signed_number, crate::specs::Statement::sign, crate::specs::Statement::number))]
    fn is_at_signed_number(&self) -> bool
        ensures { result ≡ starts (first signed_number) self.now.tokens.now }
    {
        self.is_at_sign() || self.is_at_number()
    }

    /// Returns whether a literal comes next.
    #[tactic(auto, unfolding(crate::specs::Statement::literal, crate::specs::Statement::signed_number, crate::specs::Statement::sign, crate::specs::Statement::number))]
    fn is_at_literal(&self) -> bool
        ensures { result ≡ starts (first literal) self.now.tokens.now }
    {
        self.is_at_signed_number() || self.is_at_text()
    }

    /// `signed_number | text`
    #[tactic(auto, unfolding(crate::specs::Statement::literal))]
    fn literal(&mut self, alloc: Global) -> Result<Literal, Halt>
        ensures { Advances self.new.tokens.now result (run literal self.old.tokens.now) }
    {
        if self.is_at_signed_number() {
            let number = self.signed_number()?;
            return Ok(Literal::Number(number));
        }
        let text = self.text(alloc)?;
        Ok(Literal::Text(text))
    }

    /// `WHERE name "=" literal`
    #[tactic(auto, unfolding(crate::specs::Statement::where_part))]
    pub(super) fn where_part(&mut self, alloc: Global) -> Result<WhereText, Halt>
        ensures { Advances self.new.tokens.now result (run where_part self.old.tokens.now) }
    {
        self.word(Word::Where)?;
        let column = self.written_name()?;
        self.symbol(Symbol::Equal)?;
        let literal = self.literal(alloc)?;
        Ok(WhereText {
            column: column.name(),
            literal,
        })
    }

    /// `sign number`
    #[tactic(auto, unfolding(crate::specs::Statement::change))]
    fn change(&mut self) -> Result<Decimal, Halt>
        ensures { Advances self.new.tokens.now result (run change self.old.tokens.now) }
    {
        let minus = self.sign()?;
        let number = self.number()?;
        Ok(apply_sign(minus, number))
    }

    /// `literal | name change`
    #[tactic(auto, unfolding(crate::specs::Statement::assigned))]
    fn assigned(&mut self, alloc: Global) -> Result<Assigned, Halt>
        ensures { Advances self.new.tokens.now result (run assigned self.old.tokens.now) }
    {
        if self.is_at_literal() {
            let literal = self.literal(alloc)?;
            return Ok(Assigned::Literal(literal));
        }
        let source = self.written_name()?;
        let change = self.change()?;
        Ok(Assigned::Change {
            source: source.name(),
            change,
        })
    }

    /// `UPDATE name SET assign { "," assign } where_part`
    #[tactic(auto, unfolding(crate::specs::Statement::update))]
    pub(super) fn update(&mut self, alloc: Global) -> Result<UpdateText, Halt>
        ensures { Advances self.new.tokens.now result (run update self.old.tokens.now) }
    {
        self.word(Word::Update)?;
        let table = self.written_name()?;
        self.word(Word::Set)?;
        let assigns = part::read_list(alloc, self)?;
        let row = self.where_part(alloc)?;
        Ok(UpdateText {
            table: table.name(),
            assigns,
            row,
        })
    }
}

impl Part for Literal {
    ghost grammar = { literal };

    fn read(alloc: Global, cursor: &mut Cursor) -> Result<Literal, Halt> {
        cursor.literal(alloc)
    }
}

impl Part for Assign {
    ghost grammar = { assign };

    /// `name "=" assigned`
    #[tactic(auto, unfolding(crate::specs::Statement::assign))]
    fn read(alloc: Global, cursor: &mut Cursor) -> Result<Assign, Halt> {
        let column = cursor.written_name()?;
        cursor.symbol(Symbol::Equal)?;
        let value = cursor.assigned(alloc)?;
        Ok(Assign {
            column: column.name(),
            value,
        })
    }
}
