use crate::database::added::{AddedChecks, AddedJudge};
use crate::database::{Answer, Database};
use escrow_machine::Reply;
use escrow_num::{Name, Refusal, Session};
use escrow_schema::{declared_place, with_check, without_check_at};
use escrow_statement::{AlterText, CheckText, Statement, TableChange};
use sqlite::Alter;
use std::alloc::Global;

impl<S: Alter> Database<S> {
    ghost use Rattle.std.specs.Prelude.{◌≡◌, Some, IfOk, IfErr, IsSomeAnd, OnOk};
    ghost use Rattle.std.specs.Result.{result_err};
    ghost use Rattle.escrow_schema.specs.Altered.{declared_place};
    ghost use Rattle.escrow_schema.specs.Catalog.{place_named, table_named};
    ghost use Rattle.escrow_core.specs.Altering.{adds, alter_refusal, drops, Adds};
    ghost use Rattle.escrow_core.specs.Serving.{Answers, IsEarly};
    ghost use Rattle.escrow_machine.specs.Accepted.{IsRefusal, PassesEarly};

    /// ALTER TABLE: adds checks to a table, or removes one from it, whatever is open on its rows.
    pub(crate) fn alter(&mut self, alloc: Global, session: Session, text: &AlterText) -> Answer
        ensures { Answers S.Store session (Statement.Alter text.now) self.old result self.new }
    {
        match &text.change {
            TableChange::Add(check) => self.add_check(alloc, session, text.table, check),
            TableChange::Drop(name) => self.drop_check(alloc, session, text.table, *name),
        }
    }

    /// ADD: gives a table the checks of one more CHECK, unless some choice of the open reservations
    /// would break one in a row of the table. The places of the rows are made, and the rows are
    /// judged, before the store is written. Nothing can fail after the write.
    fn add_check(
        &mut self,
        alloc: Global,
        session: Session,
        table: Name,
        text: &CheckText,
    ) -> Answer
        ensures { Answers S.Store session (adds table text.now) self.old result self.new }
    {
        let (place, added) = self.plan_add(alloc, session, table, text)?;
        let addition = self
            .reserved
            .prepare(alloc, table, added.table.checks.as_slice())?;
        let judge = AddedJudge::new(&added, &self.reserved, &addition);
        if let Some(violation) = self.tables.first_violation(alloc, place, table, &judge)? {
            return Err(Refusal::Check(violation));
        }
        self.tables.redefine(alloc, place, added.table)?;
        self.reserved.adopt(addition);
        Ok(Reply::Altered(table))
    }

    /// DROP CONSTRAINT: removes a declared check from a table, and from the places of its rows.
    fn drop_check(&mut self, alloc: Global, session: Session, table: Name, name: Name) -> Answer
        ensures { Answers S.Store session (drops table name) self.old result self.new }
    {
        let (place, index) = self.plan_drop(session, table, name)?;
        let altered = without_check_at(alloc, self.tables.table(place), index)?;
        self.tables.redefine(alloc, place, altered)?;
        self.reserved.drop_check(table, index);
        Ok(Reply::Altered(table))
    }

    /// Returns the place of the table of an ADD, and the table with the checks added; or why there
    /// is none.
    #[tactic(auto, unfolding(escrow_machine::specs::Transition::transition_of))]
    fn plan_add(
        &self,
        alloc: Global,
        session: Session,
        table: Name,
        text: &CheckText,
    ) -> Result<(usize, AddedChecks), Refusal>
        ensures place { IfOk result (λ planned. place_named self.now.state.catalog table ≡ Some planned.0) }
        ensures added { IfOk result
            (λ planned. IsSomeAnd (table_named self.now.state.catalog table) (λ old. Adds old text.now planned.1)) }
        ensures early { OnOk result (PassesEarly self.now.state session (adds table text.now)) }
        ensures refused { IfErr result (IsRefusal self.now.state session (adds table text.now)) }
    {
        let place = self.check_alter(session, table)?;
        let old = self.tables.table(place);
        match with_check(alloc, old, text)? {
            Some(made) => Ok((place, AddedChecks::new(old, made))),
            None => Err(Refusal::BadDefinition),
        }
    }

    /// Returns the place of the table of a DROP CONSTRAINT, and the place of the check among the
    /// table's; or why the statement is refused.
    #[tactic(auto, unfolding(escrow_machine::specs::Transition::transition_of))]
    fn plan_drop(
        &self,
        session: Session,
        table: Name,
        name: Name,
    ) -> Result<(usize, usize), Refusal>
        ensures place { IfOk result (λ planned. place_named self.now.state.catalog table ≡ Some planned.0) }
        ensures index { IfOk result
            (λ planned. IsSomeAnd (table_named self.now.state.catalog table)
            (λ old. declared_place old name ≡ Some planned.1)) }
        ensures early { IsEarly self.now.state session (drops table name) result }
    {
        let place = self.check_alter(session, table)?;
        match declared_place(self.tables.table(place), name) {
            Some(index) => Ok((place, index)),
            None => Err(Refusal::NoSuchConstraint),
        }
    }

    /// Returns the place of the table of an ALTER TABLE, or why the statement is refused whatever
    /// it changes.
    fn check_alter(&self, session: Session, table: Name) -> Result<usize, Refusal>
        ensures place { IfOk result (λ place. place_named self.now.state.catalog table ≡ Some place) }
        ensures early { result_err result ≡ alter_refusal session table self.now.state }
    {
        if self.is_open(session) {
            return Err(Refusal::TransactionOpen);
        }
        match self.tables.place(table) {
            Some(place) => Ok(place),
            None => Err(Refusal::NoSuchTable),
        }
    }
}
