ghost use Rattle.std.specs.Prelude.{◌≡◌, [], ◌∷◌, nat_le, option_map};
ghost use Rattle.escrow_num.specs.Refusal.{first_refusal, refuse_if};
ghost use Rattle.escrow_checks.specs.Grant.{broken};
ghost use Rattle.escrow_schema.specs.Definition.{IsTable};
ghost use Rattle.escrow_schema.specs.Fit.{IsRowOf};
ghost use Rattle.escrow_schema.specs.declared.table.TheConstants.TableDef.{MAX_ROWS};

use crate::database::{Answer, Database};
use escrow_machine::Reply;
use escrow_num::{Refusal, Row, RowName, Session};
use escrow_reserved::{Recent, first_violation};
use escrow_schema::{TableDef, fit_row};
use escrow_statement::{InsertText, Statement};
use sqlite::Alter;
use std::alloc::Global;

impl<S: Alter> Database<S> {
    ghost use Rattle.std.specs.Prelude.{◌≡◌, ◌⊎◌, Some, IsSomeAnd, IfOk, IfErr, length};
    ghost use Rattle.sqlite.specs.Held.{state};
    ghost use Rattle.sqlite.specs.State.{HasCleanDisk};
    ghost use Rattle.escrow_machine.specs.Asked.{new_row};
    ghost use Rattle.escrow_schema.specs.Catalog.{place_named, table_named};
    ghost use Rattle.escrow_schema.specs.Column.{reservables};
    ghost use Rattle.escrow_schema.specs.Rows.{row_named};
    ghost use Rattle.escrow_core.specs.Serving.{Answers, IsFailure, OnlyReads, unless_stands};
    ghost use Rattle.escrow_machine.specs.Accepted.{IsRefusal, PassesEarly};

    /// INSERT: adds the row that the values make to the committed rows. If the amounts of a row with
    /// its key are kept, that row exists. Otherwise the write tells whether the key is free, and the
    /// row is read only if the write isn't done. The amounts of a new row are kept.
    pub(crate) fn insert(&mut self, alloc: Global, session: Session, text: &InsertText) -> Answer
        ensures { Answers S.Store session (Statement.Insert text.now) self.old result self.new }
    {
        let (place, row) = self.plan_insert(alloc, session, text)?;
        if self.is_remembered(&row.name) {
            return Err(Refusal::RowExists);
        }
        if let Some(refusal) = row_refusal(
            self.tables.table(place),
            self.tables.count(place),
            &row,
        ) {
            return Err(self.row_exists_or(alloc, place, &row.name, refusal));
        }
        if self.tables.insert(alloc, place, &row)? {
            self.remember_new(&row);
            return Ok(Reply::Inserted);
        }
        Err(self.row_exists_or(alloc, place, &row.name, Refusal::Store))
    }

    /// Keeps the amounts of a row that was inserted, if it has any and there is room, so that its first
    /// reservation reads nothing. No other row is forgotten for it.
    fn remember_new(&mut self, row: &Row)
        requires many { IsSomeAnd (table_named self.old.state.catalog row.now.name.table)
            (λ table. length row.now.amounts ≡ length (reservables table.columns)) }
        requires inserted { HasCleanDisk (state S.Store self.old.store)
            → row_named self.old.state.rows row.now.name ≡ Some row.now }
        ensures { self.new ≡ self.old }
    {
        if !row.amounts.is_empty() && self.recent.len() < Recent::MAX_ROWS {
            // If memory is refused, the row will be read.
            let _ = self.recent.remember(&row.name, row.amounts.as_slice());
        }
    }

    /// Returns why a new row isn't added: a row has its name, or else another reason. Keeps the
    /// amounts of the row that has its name, so that the next INSERT is refused at once. Memory or
    /// the store may fail.
    fn row_exists_or(
        &mut self,
        alloc: Global,
        place: usize,
        name: &RowName,
        other: Refusal,
    ) -> Refusal
        requires { place_named self.old.state.catalog name.now.table ≡ Some place }
        ensures told { IsFailure result
            ⊎ (HasCleanDisk (state S.Store self.new.store)
            → result ≡ unless_stands (row_named self.old.state.rows name.now) other) }
        ensures only_reads { OnlyReads S.Store self.old self.new }
    {
        match self.amounts(alloc, place, name) {
            Ok(Some(_)) => Refusal::RowExists,
            Ok(None) => other,
            Err(failure) => Refusal::from(failure),
        }
    }

    /// Returns the place of the table of an INSERT, and the row that it makes; or why it makes
    /// none.
    #[tactic(auto, unfolding(escrow_machine::specs::Transition::transition_of))]
    fn plan_insert(
        &self,
        alloc: Global,
        session: Session,
        text: &InsertText,
    ) -> Result<(usize, Row), Refusal>
        ensures place { IfOk result (λ planned. place_named self.now.state.catalog text.now.table ≡ Some planned.0) }
        ensures row { IfOk result (λ planned. new_row self.now.state text.now ≡ Some planned.1) }
        ensures early { IfOk result (λ _. PassesEarly self.now.state session (Statement.Insert text.now)) }
        ensures refused { IfErr result (IsRefusal self.now.state session (Statement.Insert text.now)) }
    {
        if self.is_open(session) {
            return Err(Refusal::TransactionOpen);
        }
        let Some(place) = self.tables.place(text.table) else {
            return Err(Refusal::NoSuchTable);
        };
        Ok((place, fit_row(alloc, self.tables.table(place), text)?))
    }
}

/// Returns why a new row isn't added: its table, which has this many rows, is full, or the row
/// breaks a check. The row is judged with no open reservation.
fn row_refusal(table: &TableDef, count: usize, row: &Row) -> Option<Refusal>
    requires table { IsTable table.now }
    requires fits { IsRowOf table.now row.now }
    ensures { result ≡ first_refusal (
        refuse_if (nat_le MAX_ROWS count) Refusal.TableFull
        ∷ option_map Refusal.Check (broken table.now.checks row.now.amounts [] [])
        ∷ []) }
{
    if count >= TableDef::MAX_ROWS {
        return Some(Refusal::TableFull);
    }
    first_violation(table.checks.as_slice(), row.amounts.as_slice(), &[]).map(Refusal::Check)
}
