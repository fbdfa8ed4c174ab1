use crate::database::{Answer, Database};
use escrow_machine::Reply;
use escrow_num::{Name, Refusal};
use escrow_schema::print_table;
use escrow_statement::Statement;
use sqlite::Alter;
use std::alloc::Global;

impl<S: Alter> Database<S> {
    ghost use Rattle.std.specs.Prelude.{ℕ};
    ghost use Rattle.escrow_core.specs.Serving.{Answers};

    /// SHOW TABLE: returns the text that defines the table. Nothing changes, and the store isn't
    /// asked.
    pub(crate) fn show_table(&self, alloc: Global, name: Name) -> Answer
        ensures { (session : ℕ) → Answers S.Store session (Statement.ShowTable name) self.now result self.now }
    {
        let Some(table) = self.tables.find(name) else {
            return Err(Refusal::NoSuchTable);
        };
        let text = print_table(alloc, table)?;
        Ok(Reply::Table(text))
    }
}
