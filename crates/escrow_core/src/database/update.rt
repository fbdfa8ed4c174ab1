use crate::database::{Answer, Database};
use escrow_machine::Reply;
use escrow_num::{Changes, Refusal, RowName, Seq, Session, Value};
use escrow_schema::{Plan, plan_update};
use escrow_statement::{Statement, UpdateText};
use sqlite::Alter;
use std::alloc::Global;

impl<S: Alter> Database<S> {
    ghost use Rattle.std.specs.Prelude.{◌≡◌, ℕ, false, true, Some, IfOk, IfErr, IsOk, IsTrue};
    ghost use Rattle.escrow_machine.specs.Asked.{plan_of, reserves_beside};
    ghost use Rattle.escrow_machine.specs.Promised.{is_judged_first};
    ghost use Rattle.escrow_schema.specs.Plan.{is_in_place};
    ghost use Rattle.escrow_schema.specs.Catalog.{place_named};
    ghost use Rattle.escrow_core.specs.Serving.{Answers, TellsRefusal};
    ghost use Rattle.escrow_machine.specs.Accepted.{IsRefusal};
    ghost use Rattle.escrow_machine.specs.State.{is_reserved};

    /// UPDATE: reserves changes of RESERVABLE columns, or replaces plain values, by its plan.
    pub(crate) fn update(&mut self, alloc: Global, session: Session, text: &UpdateText) -> Answer
        ensures answers { Answers S.Store session (Statement.Update text.now) self.old result self.new }
        ensures against { IsTrue (is_judged_first self.old.state (Statement.Update text.now))
            → TellsRefusal S.Store session (Statement.Update text.now) self.old result self.new }
    {
        let (place, plan) = self.plan(alloc, text)?;
        match plan {
            Plan::Reserve { key, changes } => self.reserve(
                alloc, session, text, place, key, changes,
            ),
            Plan::Plain { key, values } => self.replace(alloc, session, text, place, key, values),
        }
    }

    /// Returns the place of the table of an UPDATE, and the plan; or why it can't be planned.
    #[tactic(auto, unfolding(escrow_machine::specs::Transition::transition_of))]
    fn plan(&self, alloc: Global, text: &UpdateText) -> Result<(usize, Plan), Refusal>
        ensures place { IfOk result (λ planned. place_named self.now.state.catalog text.now.table ≡ Some planned.0) }
        ensures plan { IfOk result (λ planned. plan_of self.now.state text.now ≡ Some planned.1) }
        ensures refused { IfErr result
            (λ refusal. (session : ℕ) → IsRefusal self.now.state session (Statement.Update text.now) refusal) }
        ensures in_place { (asked : Plan) → plan_of self.now.state text.now ≡ Some asked → IsTrue (is_in_place asked)
            → IsOk result }
    {
        let Some(place) = self.tables.place(text.table) else {
            return Err(Refusal::NoSuchTable);
        };
        match plan_update(alloc, self.tables.table(place), text) {
            Ok(plan) => Ok((place, plan)),
            Err(refusal) => Err(refusal),
        }
    }

    /// Reserves changes of the row of a key, if it exists. The committed row stays as it is. If the
    /// row has an open reservation, the store isn't asked, because the row's place keeps the
    /// amounts. Then a reason against the reservation comes before want of memory.
    fn reserve(
        &mut self,
        alloc: Global,
        session: Session,
        text: &UpdateText,
        place: usize,
        key: Value,
        changes: Changes,
    ) -> Answer
        requires place { place_named self.old.state.catalog text.now.table ≡ Some place }
        requires plan { plan_of self.old.state text.now ≡ Some (Plan.Reserve key changes) }
        ensures answers { Answers S.Store session (Statement.Update text.now) self.old result self.new }
        ensures against { reserves_beside self.old.state text.now ≡ true
            → TellsRefusal S.Store session (Statement.Update text.now) self.old result self.new }
    {
        let name = RowName {
            table: text.table,
            key,
        };
        let Some(at) = self.reserved.find(&name) else {
            return self.reserve_first(alloc, session, text, place, name, changes);
        };
        let id = self.reserved.grant(session, name, at, changes)?;
        Ok(Reply::Reserved { id })
    }

    /// Makes the first open reservation of a row, by the amounts that are read of it.
    fn reserve_first(
        &mut self,
        alloc: Global,
        session: Session,
        text: &UpdateText,
        place: usize,
        name: RowName,
        changes: Changes,
    ) -> Answer
        requires table { name.table ≡ text.now.table }
        requires place { place_named self.old.state.catalog name.table ≡ Some place }
        requires plan { plan_of self.old.state text.now ≡ Some (Plan.Reserve name.key changes) }
        requires first { is_reserved self.old.state name ≡ false }
        ensures { Answers S.Store session (Statement.Update text.now) self.old result self.new }
    {
        let Some(amounts) = self.amounts(alloc, place, &name)? else {
            return Err(Refusal::NoSuchRow);
        };
        let checks = self.tables.table(place).checks.as_slice();
        let id = self
            .reserved
            .grant_first(session, name, amounts.as_slice(), checks, changes)?;
        Ok(Reply::Reserved { id })
    }

    /// Replaces plain values of the row of a key, if the row exists and the session's transaction
    /// isn't open. Whether the row exists is known from the write. The row's amounts and its
    /// reservations stay as they are.
    fn replace(
        &mut self,
        alloc: Global,
        session: Session,
        text: &UpdateText,
        place: usize,
        key: Value,
        values: Seq<Option<Value>>,
    ) -> Answer
        requires place { place_named self.old.state.catalog text.now.table ≡ Some place }
        requires plan { plan_of self.old.state text.now ≡ Some (Plan.Plain key values) }
        ensures { Answers S.Store session (Statement.Update text.now) self.old result self.new }
    {
        if self.is_open(session) {
            return Err(Refusal::TransactionOpen);
        }
        let name = RowName {
            table: text.table,
            key,
        };
        if !self
            .tables
            .set_plain(alloc, place, &name, values.as_slice())?
        {
            return Err(Refusal::NoSuchRow);
        }
        Ok(Reply::Updated)
    }
}
