ghost use Rattle.escrow_sql.specs.Predictive.{run};
ghost use Rattle.escrow_sql.specs.Cursor.{Advances};
ghost use Rattle.std.specs.Prelude.{Some, None};
ghost use Rattle.escrow_sql.specs.Statement.{optional, meaning, name, where_part, columns, insert, row, delete, select};

use crate::cursor::Cursor;
use crate::halt::Halt;
use crate::parser::part;
use crate::parser::part::Part;
use crate::token::Symbol;
use escrow_num::{Name, Seq};
use escrow_statement::{InsertText, RowText, SelectText, WhereText, Word};
use std::alloc::Global;

impl Cursor<'_> {
    /// `[ "(" name { "," name } ")" ]`
    #[tactic(auto, unfolding(crate::specs::Statement::columns))]
    fn columns(&mut self, alloc: Global) -> Result<Option<Seq<Name>>, Halt>
        ensures { Advances self.new.tokens.now result (run columns self.old.tokens.now) }
    {
        if !self.is_at_symbol(Symbol::Open) {
            return Ok(None);
        }
        Ok(Some(part::read_listed(alloc, self)?))
    }

    /// `INSERT INTO name columns VALUES "(" literal { "," literal } ")"`
    #[tactic(auto, unfolding(crate::specs::Statement::insert))]
    pub(super) fn insert(&mut self, alloc: Global) -> Result<InsertText, Halt>
        ensures { Advances self.new.tokens.now result (run insert self.old.tokens.now) }
    {
        self.word(Word::Insert)?;
        self.word(Word::Into)?;
        let table = self.name()?;
        let columns = self.columns(alloc)?;
        self.word(Word::Values)?;
        let values = part::read_listed(alloc, self)?;
        Ok(InsertText {
            table,
            columns,
            values,
        })
    }

    /// `name where_part`
    #[tactic(auto, unfolding(crate::specs::Statement::row))]
    pub(super) fn row(&mut self, alloc: Global) -> Result<RowText, Halt>
        ensures { Advances self.new.tokens.now result (run row self.old.tokens.now) }
    {
        let table = self.name()?;
        let row = self.where_part(alloc)?;
        Ok(RowText { table, row })
    }

    /// `DELETE FROM row`
    #[tactic(auto, unfolding(crate::specs::Statement::delete))]
    pub(super) fn delete(&mut self, alloc: Global) -> Result<RowText, Halt>
        ensures { Advances self.new.tokens.now result (run delete self.old.tokens.now) }
    {
        self.word(Word::Delete)?;
        self.word(Word::From)?;
        self.row(alloc)
    }

    /// `[ where_part ]`
    #[tactic(auto, unfolding(crate::specs::Statement::where_part))]
    fn optional_where(&mut self, alloc: Global) -> Result<Option<WhereText>, Halt>
        ensures { Advances self.new.tokens.now result
            (run (optional None (meaning (λ w. Some w) where_part)) self.old.tokens.now) }
    {
        if !self.is_at_word(Word::Where) {
            return Ok(None);
        }
        Ok(Some(self.where_part(alloc)?))
    }

    /// `SELECT "*" FROM name [ where_part ]`
    #[tactic(auto, unfolding(crate::specs::Statement::select))]
    pub(super) fn select(&mut self, alloc: Global) -> Result<SelectText, Halt>
        ensures { Advances self.new.tokens.now result (run select self.old.tokens.now) }
    {
        self.word(Word::Select)?;
        self.symbol(Symbol::Star)?;
        self.word(Word::From)?;
        let table = self.name()?;
        let row = self.optional_where(alloc)?;
        Ok(SelectText { table, row })
    }
}

impl Part for Name {
    ghost grammar = { name };

    fn read(_alloc: Global, cursor: &mut Cursor) -> Result<Name, Halt> {
        cursor.name()
    }
}
