ghost use Rattle.std.specs.Prelude.{◌≡◌, IfOk, map, option_to_list};
ghost use Rattle.escrow_machine.specs.Asked.{heading_of};

use crate::database::{Answer, Database};
use escrow_machine::{Heading, Reply};
use escrow_num::{Failure, Refusal, Seq, Value};
use escrow_schema::{Column, check_key};
use escrow_statement::{SelectText, Statement, WhereText};
use sqlite::Alter;
use std::alloc::{AllocError, Global};

impl<S: Alter> Database<S> {
    ghost use Rattle.std.specs.Prelude.{◌≡◌, ◌<◌, ℕ, Some, None, IfOk, IsSomeAnd, IsTrue, List, OnOk, filter, length, map};
    ghost use Rattle.sqlite.specs.Held.{state};
    ghost use Rattle.sqlite.specs.State.{HasCleanDisk};
    ghost use Rattle.escrow_schema.specs.Catalog.{place_named, table_named};
    ghost use Rattle.escrow_schema.specs.Fit.{values_of};
    ghost use Rattle.escrow_machine.specs.Asked.{heading_of, is_shown, key_refusal_of, select_refusal_of};
    ghost use Rattle.escrow_core.specs.Serving.{Answers, IsEarly, OnlyReads};

    /// SELECT: returns the committed rows of a table, or the one of a key, in order of key. Nothing
    /// changes.
    pub(crate) fn select(&mut self, alloc: Global, text: &SelectText) -> Answer
        ensures { (session : ℕ) → Answers S.Store session (Statement.Select text.now) self.old result self.new }
    {
        let place = self.check_select(text)?;
        let columns = self.headings(alloc, place)?;
        let rows = self.shown_values(alloc, place, text)?;
        Ok(Reply::Rows { columns, rows })
    }

    /// Returns the place of the table of a SELECT, or why the statement is refused.
    #[tactic(auto, unfolding(escrow_machine::specs::Transition::transition_of))]
    fn check_select(&self, text: &SelectText) -> Result<usize, Refusal>
        ensures place { IfOk result (λ place. place_named self.now.state.catalog text.now.table ≡ Some place) }
        ensures row { IfOk result (λ _. select_refusal_of self.now.state text.now ≡ None) }
        ensures early { (session : ℕ) → IsEarly self.now.state session (Statement.Select text.now) result }
    {
        let Some(place) = self.tables.place(text.table) else {
            return Err(Refusal::NoSuchTable);
        };
        if let Some(row) = &text.row {
            check_key(self.tables.table(place), row)?;
        }
        Ok(place)
    }

    /// Returns the headings of the columns of the table at a place.
    fn headings(&self, alloc: Global, place: usize) -> Result<Seq<Heading>, AllocError>
        requires { place < length self.now.state.catalog }
        ensures { IfOk result (λ headings. (name : List ℕ) → place_named self.now.state.catalog name ≡ Some place
            → IsSomeAnd (table_named self.now.state.catalog name) (λ table. headings ≡ map heading_of table.columns)) }
    {
        let columns = self.tables.table(place).columns.as_slice();
        Ok(Seq::from_vec(headings_of(alloc, columns)?))
    }

    /// Returns the values of each row that a SELECT shows.
    fn shown_values(
        &mut self,
        alloc: Global,
        place: usize,
        text: &SelectText,
    ) -> Result<Seq<Seq<Value>>, Failure>
        requires place { place_named self.old.state.catalog text.now.table ≡ Some place }
        requires row { select_refusal_of self.old.state text.now ≡ None }
        ensures told { HasCleanDisk (state S.Store self.new.store)
            → IfOk result (λ rows. IsSomeAnd (table_named self.old.state.catalog text.now.table)
            (λ table. rows ≡ map (values_of table)
            (filter (is_shown self.old.state.catalog text.now.table text.now.row) self.old.state.rows))) }
        ensures only_reads { OnlyReads S.Store self.old self.new }
        ensures open { HasCleanDisk (state S.Store self.new.store)
            → OnOk result (IsTrue (state S.Store self.new.store).is_open) }
    {
        match &text.row {
            Some(row) => self.keyed(alloc, place, text, row),
            None => self.all_values(alloc, place, text.table),
        }
    }

    /// Returns the values of the row of the key that a WHERE names, if it exists.
    fn keyed(
        &mut self,
        alloc: Global,
        place: usize,
        text: &SelectText,
        row: &WhereText,
    ) -> Result<Seq<Seq<Value>>, Failure>
        requires place { place_named self.old.state.catalog text.now.table ≡ Some place }
        requires row { key_refusal_of self.old.state text.now.table row.now ≡ None }
        ensures told { HasCleanDisk (state S.Store self.new.store)
            → IfOk result (λ rows. IsSomeAnd (table_named self.old.state.catalog text.now.table)
            (λ table. rows ≡ map (values_of table)
            (filter (is_shown self.old.state.catalog text.now.table (Some row.now)) self.old.state.rows))) }
        ensures only_reads { OnlyReads S.Store self.old self.new }
        ensures open { HasCleanDisk (state S.Store self.new.store)
            → OnOk result (IsTrue (state S.Store self.new.store).is_open) }
    {
        let name = self.named_by(alloc, place, text.table, row)?;
        let found = self.values(alloc, place, &name)?;
        Ok(listed(alloc, found)?)
    }
}

/// Returns the headings of columns, in order. Fails only if memory is refused.
fn headings_of(alloc: Global, columns: &[Column]) -> Result<Vec<Heading>, AllocError>
    ensures { IfOk result (λ headings. headings.items ≡ map heading_of columns.now) }
{
    columns
        .iter()
        .map(|column| heading_of(column))
        .collect(alloc)
}

/// Returns the heading over the values of a column.
fn heading_of(column: &Column) -> Heading
    ensures { result ≡ heading_of column.now }
{
    Heading {
        name: column.name,
        scale: column.scale(),
    }
}

/// Returns the values of a row, if there is one, as a list of rows.
fn listed(alloc: Global, found: Option<Seq<Value>>) -> Result<Seq<Seq<Value>>, AllocError>
    ensures { IfOk result (λ rows. rows ≡ option_to_list found) }
{
    let mut rows = Seq::new(alloc);
    if let Some(values) = found {
        rows.push(values)?;
    }
    Ok(rows)
}
