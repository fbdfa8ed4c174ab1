use crate::database::{Answer, Database};
use escrow_num::Refusal;
use escrow_reserved::{free_bounds, row_bounds};
use escrow_statement::{RowText, Statement};
use sqlite::Alter;
use std::alloc::Global;

impl<S: Alter> Database<S> {
    ghost use Rattle.std.specs.Prelude.{ℕ};
    ghost use Rattle.escrow_core.specs.Serving.{Answers};

    /// SHOW BOUNDS: returns how far the open reservations of all sessions can move the RESERVABLE
    /// columns and the declared checks of a row. Nothing changes.
    pub(crate) fn show_bounds(&mut self, alloc: Global, text: &RowText) -> Answer
        ensures { (session : ℕ) → Answers S.Store session (Statement.ShowBounds text.now) self.old result self.new }
    {
        let place = self.check_row(text)?;
        let name = self.named_by(alloc, place, text.table, &text.row)?;
        if self.reserved.is_reserved(&name) {
            let table = self.tables.table(place);
            return Ok(row_bounds(alloc, table, &name, self.reserved.bounds())?);
        }
        let Some(amounts) = self.amounts(alloc, place, &name)? else {
            return Err(Refusal::NoSuchRow);
        };
        let table = self.tables.table(place);
        Ok(free_bounds(alloc, table, &name, amounts.as_slice())?)
    }
}
