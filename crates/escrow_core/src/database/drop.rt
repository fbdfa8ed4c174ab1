use crate::database::{Answer, Database};
use escrow_machine::Reply;
use escrow_num::{Name, Refusal, Session};
use escrow_statement::Statement;
use sqlite::Alter;

impl<S: Alter> Database<S> {
    ghost use Rattle.std.specs.Prelude.{◌≡◌, Some, IfOk};
    ghost use Rattle.escrow_schema.specs.Catalog.{place_named};
    ghost use Rattle.escrow_core.specs.Serving.{Answers, IsEarly};

    /// DROP TABLE: removes the table and its rows.
    pub(crate) fn drop_table(&mut self, session: Session, name: Name) -> Answer
        ensures { Answers S.Store session (Statement.Drop name) self.old result self.new }
    {
        let place = self.check_drop(session, name)?;
        self.recent.forget_table(name);
        self.tables.drop_table(place)?;
        Ok(Reply::Dropped(name))
    }

    /// Returns the place of the table of a DROP TABLE, or why the statement is refused.
    #[tactic(auto, unfolding(escrow_machine::specs::Transition::transition_of))]
    fn check_drop(&self, session: Session, name: Name) -> Result<usize, Refusal>
        ensures place { IfOk result (λ place. place_named self.now.state.catalog name ≡ Some place) }
        ensures early { IsEarly self.now.state session (Statement.Drop name) result }
    {
        if self.is_open(session) {
            return Err(Refusal::TransactionOpen);
        }
        let Some(place) = self.tables.place(name) else {
            return Err(Refusal::NoSuchTable);
        };
        if self.reserved.is_table_reserved(name) {
            return Err(Refusal::TableReserved);
        }
        Ok(place)
    }
}
