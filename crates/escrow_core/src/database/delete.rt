use crate::database::{Answer, Database};
use escrow_machine::Reply;
use escrow_num::{Refusal, Session};
use escrow_statement::{RowText, Statement};
use sqlite::Alter;
use std::alloc::Global;

impl<S: Alter> Database<S> {
    ghost use Rattle.std.specs.Prelude.{◌≡◌, Some, None, IfOk};
    ghost use Rattle.escrow_schema.specs.Catalog.{place_named};
    ghost use Rattle.escrow_core.specs.Serving.{Answers, IsEarly};
    ghost use Rattle.escrow_machine.specs.Asked.{key_refusal_of};

    /// DELETE: removes the row, unless a session holds a reservation of it. A reserved row exists.
    /// Whether any other row exists is known from the write.
    pub(crate) fn delete(&mut self, alloc: Global, session: Session, text: &RowText) -> Answer
        ensures { Answers S.Store session (Statement.Delete text.now) self.old result self.new }
    {
        let place = self.check_delete(session, text)?;
        let name = self.named_by(alloc, place, text.table, &text.row)?;
        if self.reserved.is_reserved(&name) {
            return Err(Refusal::RowReserved);
        }
        self.recent.forget(&name);
        if !self.tables.delete(place, &name)? {
            return Err(Refusal::NoSuchRow);
        }
        Ok(Reply::Deleted)
    }

    /// Returns the place of the table of a DELETE, or why the statement is refused before its row
    /// is looked for.
    #[tactic(auto, unfolding(escrow_machine::specs::Transition::transition_of))]
    fn check_delete(&self, session: Session, text: &RowText) -> Result<usize, Refusal>
        ensures place { IfOk result (λ place. place_named self.now.state.catalog text.now.table ≡ Some place) }
        ensures row { IfOk result (λ _. key_refusal_of self.now.state text.now.table text.now.row ≡ None) }
        ensures early { IsEarly self.now.state session (Statement.Delete text.now) result }
    {
        if self.is_open(session) {
            return Err(Refusal::TransactionOpen);
        }
        self.check_row(text)
    }
}
