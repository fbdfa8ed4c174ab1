ghost use Rattle.std.specs.Prelude.{◌≡◌};
ghost use Rattle.escrow_sql.specs.Predictive.{run};
ghost use Rattle.escrow_sql.specs.Cursor.{Advances};
ghost use Rattle.escrow_sql.specs.Parts.{mark-not_empty};
ghost use Rattle.escrow_sql.specs.Statement.{mark, size, digits, type_text, column, item, create, drop, name, whole, in_parentheses, word, ◌then◌};
ghost use Rattle.escrow_statement.specs.declared.word.Word.TheVariants as words;

use crate::cursor::Cursor;
use crate::halt::Halt;
use crate::parser::part;
use crate::parser::part::{Part, Repeated};
use crate::token::Symbol;
use escrow_num::{Amount, Name};
use escrow_statement::{ColumnMark, ColumnText, CreateText, Item, NumberSize, TypeText, Word};
use std::alloc::Global;

impl Cursor<'_> {
    /// `"(" whole ")"`
    fn whole_in_parentheses(&mut self) -> Result<Amount, Halt>
        ensures { Advances self.new.tokens.now result (run (in_parentheses whole) self.old.tokens.now) }
    {
        self.symbol(Symbol::Open)?;
        let number = self.whole_number()?;
        self.symbol(Symbol::Close)?;
        Ok(number)
    }

    /// `whole [ "," whole ]`
    #[tactic(auto, unfolding(crate::specs::Statement::size))]
    fn size(&mut self) -> Result<NumberSize, Halt>
        ensures { Advances self.new.tokens.now result (run size self.old.tokens.now) }
    {
        let digits = self.whole_number()?;
        if !self.takes_symbol(Symbol::Comma) {
            return Ok(NumberSize {
                digits,
                scale: None,
            });
        }
        let scale = self.whole_number()?;
        Ok(NumberSize {
            digits,
            scale: Some(scale),
        })
    }

    /// `[ "(" size ")" ]`
    #[tactic(auto, unfolding(crate::specs::Statement::digits))]
    fn digits(&mut self) -> Result<Option<NumberSize>, Halt>
        ensures { Advances self.new.tokens.now result (run digits self.old.tokens.now) }
    {
        if !self.takes_symbol(Symbol::Open) {
            return Ok(None);
        }
        let size = self.size()?;
        self.symbol(Symbol::Close)?;
        Ok(Some(size))
    }

    /// `INTEGER | NUMBER digits | VARCHAR2 "(" whole ")"`
    #[tactic(auto, unfolding(crate::specs::Statement::type_text))]
    fn type_text(&mut self) -> Result<TypeText, Halt>
        ensures { Advances self.new.tokens.now result (run type_text self.old.tokens.now) }
    {
        if self.takes_word(Word::Integer) {
            return Ok(TypeText::Integer);
        }
        if self.takes_word(Word::Number) {
            let digits = self.digits()?;
            return Ok(TypeText::Number(digits));
        }
        self.word(Word::Varchar2)?;
        let size = self.whole_in_parentheses()?;
        Ok(TypeText::Varchar2(size))
    }

    /// `name type_text { mark }`
    #[tactic(auto, unfolding(crate::specs::Statement::column))]
    fn column(&mut self, alloc: Global) -> Result<ColumnText, Halt>
        ensures { Advances self.new.tokens.now result (run column self.old.tokens.now) }
    {
        let name = self.name()?;
        let kind = self.type_text()?;
        let marks = part::read_all(alloc, self)?;
        Ok(ColumnText { name, kind, marks })
    }

    /// `PRIMARY KEY "(" name ")"`
    fn key(&mut self) -> Result<Name, Halt>
        ensures { Advances self.new.tokens.now result
            (run (word words.Primary then word words.Key then in_parentheses name) self.old.tokens.now) }
    {
        self.word(Word::Primary)?;
        self.word(Word::Key)?;
        self.symbol(Symbol::Open)?;
        let column = self.name()?;
        self.symbol(Symbol::Close)?;
        Ok(column)
    }

    /// `CREATE TABLE name "(" item { "," item } ")"`
    #[tactic(auto, unfolding(crate::specs::Statement::create))]
    pub(super) fn create(&mut self, alloc: Global) -> Result<CreateText, Halt>
        ensures { Advances self.new.tokens.now result (run create self.old.tokens.now) }
    {
        self.word(Word::Create)?;
        self.word(Word::Table)?;
        let table = self.name()?;
        let items = part::read_listed(alloc, self)?;
        Ok(CreateText { table, items })
    }

    /// `DROP TABLE name`
    #[tactic(auto, unfolding(crate::specs::Statement::drop))]
    pub(super) fn drop_table(&mut self) -> Result<Name, Halt>
        ensures { Advances self.new.tokens.now result (run drop self.old.tokens.now) }
    {
        self.word(Word::Drop)?;
        self.word(Word::Table)?;
        self.name()
    }
}

impl Part for ColumnMark {
    ghost grammar = { mark };

    /// `PRIMARY KEY | RESERVABLE | NOT NULL | check`
    #[tactic(auto, unfolding(crate::specs::Statement::mark))]
    fn read(alloc: Global, cursor: &mut Cursor) -> Result<ColumnMark, Halt> {
        if cursor.takes_word(Word::Primary) {
            cursor.word(Word::Key)?;
            return Ok(ColumnMark::PrimaryKey);
        }
        if cursor.takes_word(Word::Reservable) {
            return Ok(ColumnMark::Reservable);
        }
        if cursor.takes_word(Word::Not) {
            cursor.word(Word::Null)?;
            return Ok(ColumnMark::NotNull);
        }
        let check = cursor.check(alloc)?;
        Ok(ColumnMark::Check(check))
    }
}

impl Repeated for ColumnMark {
    ghost not_empty = { mark-not_empty };

    #[tactic(auto, unfolding(crate::specs::Statement::mark, crate::specs::Statement::check, crate::specs::Statement::constraint))]
    fn is_next(cursor: &Cursor) -> bool {
        cursor.is_at_word(Word::Primary)
            || cursor.is_at_word(Word::Reservable)
            || cursor.is_at_word(Word::Not)
            || cursor.is_at_check()
    }
}

impl Part for Item {
    ghost grammar = { item };

    /// `column | check | PRIMARY KEY "(" name ")"`
    #[tactic(auto, unfolding(crate::specs::Statement::item, crate::specs::Statement::column))]
    fn read(alloc: Global, cursor: &mut Cursor) -> Result<Item, Halt> {
        if cursor.is_at_name() {
            let column = cursor.column(alloc)?;
            return Ok(Item::Column(column));
        }
        if cursor.is_at_check() {
            let check = cursor.check(alloc)?;
            return Ok(Item::Check(check));
        }
        let key = cursor.key()?;
        Ok(Item::PrimaryKey(key))
    }
}
