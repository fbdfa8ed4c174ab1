use crate::database::{Answer, Database};
use escrow_machine::Reply;
use escrow_num::{Refusal, Session};
use escrow_schema::{Catalog, TableDef, define};
use escrow_statement::{CreateText, Statement};
use sqlite::Alter;
use std::alloc::Global;

impl<S: Alter> Database<S> {
    ghost use Rattle.std.specs.Prelude.{◌≡◌, Some, IfOk, IfErr, OnOk};
    ghost use Rattle.escrow_schema.specs.Definition.{definition_of};
    ghost use Rattle.escrow_core.specs.Serving.{Answers};
    ghost use Rattle.escrow_machine.specs.Accepted.{IsRefusal, PassesEarly};

    /// CREATE TABLE: adds the table that the text defines to the catalog, unless there are already
    /// as many as there may be.
    pub(crate) fn create(&mut self, alloc: Global, session: Session, text: &CreateText) -> Answer
        ensures { Answers S.Store session (Statement.Create text.now) self.old result self.new }
    {
        let table = self.plan_create(alloc, session, text)?;
        if self.tables.len() >= Catalog::MAX_TABLES {
            return Err(Refusal::TooManyTables);
        }
        self.tables.create(alloc, table)?;
        Ok(Reply::Created(text.table))
    }

    /// Returns the table that a CREATE TABLE makes, or why it makes none.
    #[tactic(auto, unfolding(escrow_machine::specs::Transition::transition_of))]
    fn plan_create(
        &self,
        alloc: Global,
        session: Session,
        text: &CreateText,
    ) -> Result<TableDef, Refusal>
        ensures table { IfOk result (λ table. definition_of text.now ≡ Some table) }
        ensures early { OnOk result (PassesEarly self.now.state session (Statement.Create text.now)) }
        ensures refused { IfErr result (IsRefusal self.now.state session (Statement.Create text.now)) }
    {
        if self.is_open(session) {
            return Err(Refusal::TransactionOpen);
        }
        if self.tables.find(text.table).is_some() {
            return Err(Refusal::TableExists);
        }
        define(alloc, text)
    }
}
