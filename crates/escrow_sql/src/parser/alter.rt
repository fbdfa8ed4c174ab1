ghost use Rattle.escrow_sql.specs.Predictive.{run};
ghost use Rattle.escrow_sql.specs.Cursor.{Advances};
ghost use Rattle.escrow_sql.specs.Statement.{table_change, alter};

use crate::cursor::Cursor;
use crate::halt::Halt;
use escrow_statement::{AlterText, TableChange, Word};
use std::alloc::Global;

impl Cursor<'_> {
    /// `ADD check | DROP CONSTRAINT name`
    #[tactic(auto, unfolding(crate::specs::Statement::table_change))]
    fn table_change(&mut self, alloc: Global) -> Result<TableChange, Halt>
        ensures { Advances self.new.tokens.now result (run table_change self.old.tokens.now) }
    {
        if self.takes_word(Word::Add) {
            let check = self.check(alloc)?;
            return Ok(TableChange::Add(check));
        }
        self.word(Word::Drop)?;
        self.word(Word::Constraint)?;
        let check = self.name()?;
        Ok(TableChange::Drop(check))
    }

    /// `ALTER TABLE name table_change`
    #[tactic(auto, unfolding(crate::specs::Statement::alter))]
    pub(super) fn alter(&mut self, alloc: Global) -> Result<AlterText, Halt>
        ensures { Advances self.new.tokens.now result (run alter self.old.tokens.now) }
    {
        self.word(Word::Alter)?;
        self.word(Word::Table)?;
        let table = self.name()?;
        let change = self.table_change(alloc)?;
        Ok(AlterText { table, change })
    }
}
