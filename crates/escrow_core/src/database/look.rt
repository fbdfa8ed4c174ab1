ghost use Rattle.std.specs.Prelude.{◌≡◌, IfOk};

use crate::database::Database;
use escrow_num::{Amount, Failure, Name, Refusal, RowName, Seq, Value};
use escrow_schema::{check_key, truncated_value};
use escrow_statement::{RowText, Statement, WhereText};
use sqlite::Alter;
use std::alloc::{AllocError, Global};

impl<S: Alter> Database<S> {
    ghost use Rattle.std.specs.Prelude.{ℕ, Some, None, IsSomeAnd, IsTrue, IfSome, OnOk, is_some, length, map, option_map};
    ghost use Rattle.std.specs.Result.{result_err};
    ghost use Rattle.sqlite.specs.Held.{state};
    ghost use Rattle.sqlite.specs.State.{HasCleanDisk};
    ghost use Rattle.escrow_num.specs.Ascending.{IsAscending};
    ghost use Rattle.escrow_schema.specs.Catalog.{place_named, table_named};
    ghost use Rattle.escrow_schema.specs.Column.{reservables};
    ghost use Rattle.escrow_schema.specs.Fit.{values_of};
    ghost use Rattle.escrow_machine.specs.Asked.{key_refusal_of, named_by};
    ghost use Rattle.escrow_core.specs.Serving.{IsEarly, OnlyReads, row_refusal};
    ghost use Rattle.escrow_schema.specs.Rows.{row_named, rows_of, row_before};

    /// Returns the place of the table of the row that a text names, or why that row isn't looked
    /// for. These are the early refusals of a SHOW BOUNDS, and of a DELETE if nothing is open.
    #[tactic(auto, unfolding(escrow_machine::specs::Transition::transition_of))]
    pub(crate) fn check_row(&self, text: &RowText) -> Result<usize, Refusal>
        ensures place { IfOk result (λ place. place_named self.now.state.catalog text.now.table ≡ Some place) }
        ensures row { IfOk result (λ _. key_refusal_of self.now.state text.now.table text.now.row ≡ None) }
        ensures refused { result_err result ≡ row_refusal self.now.state text.now }
        ensures early { (session : ℕ) → IsEarly self.now.state session (Statement.ShowBounds text.now) result }
    {
        let Some(place) = self.tables.place(text.table) else {
            return Err(Refusal::NoSuchTable);
        };
        check_key(self.tables.table(place), &text.row)?;
        Ok(place)
    }

    /// Returns the name of the row that a WHERE names in a table. `place` is that of the table. The
    /// WHERE must not be refused. Fails only if memory is refused, and doesn't ask the store.
    pub(crate) fn named_by(
        &self,
        alloc: Global,
        place: usize,
        table: Name,
        row: &WhereText,
    ) -> Result<RowName, AllocError>
        requires place { place_named self.now.state.catalog table ≡ Some place }
        requires row { key_refusal_of self.now.state table row.now ≡ None }
        ensures { IfOk result (λ name. name ≡ named_by self.now.state.catalog table row.now) }
    {
        let scale = self.tables.table(place).key_scale();
        let key = truncated_value(alloc, scale, &row.literal)?;
        Ok(RowName { table, key })
    }

    /// Returns the amounts of the committed row of a name, one for each RESERVABLE column in column
    /// order, if there is such a row. `place` is that of its table. Asks the store unless the
    /// amounts are kept, and then keeps what it returns.
    pub(crate) fn amounts(
        &mut self,
        alloc: Global,
        place: usize,
        name: &RowName,
    ) -> Result<Option<Seq<Amount>>, Failure>
        requires { place_named self.old.state.catalog name.now.table ≡ Some place }
        ensures told { HasCleanDisk (state S.Store self.new.store)
            → IfOk result (λ found. found ≡ option_map (λ row. row.amounts) (row_named self.old.state.rows name.now)) }
        ensures many { IfOk result
            (λ found. IfSome found (λ amounts.
            IsSomeAnd (table_named self.old.state.catalog name.now.table)
            (λ table. length amounts ≡ length (reservables table.columns)))) }
        ensures only_reads { OnlyReads S.Store self.old self.new }
        ensures stays { HasCleanDisk (state S.Store self.new.store)
            → OnOk result (IsTrue (state S.Store self.old.store).is_open
            → IsTrue (state S.Store self.new.store).is_open) }
    {
        if let Some(amounts) = self.recent.amounts(name) {
            return Ok(Some(copied(alloc, amounts)?));
        }
        let Some(amounts) = self.tables.amounts(alloc, place, name)? else {
            return Ok(None);
        };
        // If memory is refused, the row will be read again.
        let _ = self.recent.remember(name, amounts.as_slice());
        Ok(Some(amounts))
    }

    /// Returns whether the amounts of the row of a name are kept. Such a row exists. Makes no store
    /// call.
    pub(crate) fn is_remembered(&self, name: &RowName) -> bool
        ensures { HasCleanDisk (state S.Store self.now.store) → IsTrue result
            → IsTrue (is_some (row_named self.now.state.rows name.now)) }
    {
        self.recent.amounts(name).is_some()
    }

    /// Returns the values of the committed row of a name, in column order, if there is one. The
    /// rows of the state are in order. `place` is that of the row's table.
    pub(crate) fn values(
        &mut self,
        alloc: Global,
        place: usize,
        name: &RowName,
    ) -> Result<Option<Seq<Value>>, Failure>
        requires { place_named self.old.state.catalog name.now.table ≡ Some place }
        ensures told { HasCleanDisk (state S.Store self.new.store)
            → IfOk result (λ found. IsSomeAnd (table_named self.old.state.catalog name.now.table)
            (λ table. found ≡ option_map (values_of table) (row_named self.old.state.rows name.now))) }
        ensures order { HasCleanDisk (state S.Store self.new.store) → IsAscending row_before self.old.state.rows }
        ensures only_reads { OnlyReads S.Store self.old self.new }
        ensures open { HasCleanDisk (state S.Store self.new.store)
            → OnOk result (IsTrue (state S.Store self.new.store).is_open) }
    {
        self.tables.values(alloc, place, name)
    }

    /// Returns the values of each committed row of a table: in column order, the rows in order of
    /// key. `place` is that of the table.
    pub(crate) fn all_values(
        &mut self,
        alloc: Global,
        place: usize,
        table: Name,
    ) -> Result<Seq<Seq<Value>>, Failure>
        requires { place_named self.old.state.catalog table ≡ Some place }
        ensures told { HasCleanDisk (state S.Store self.new.store)
            → IfOk result (λ rows. IsSomeAnd (table_named self.old.state.catalog table)
            (λ definition. rows ≡ map (values_of definition) (rows_of self.old.state.rows table))) }
        ensures only_reads { OnlyReads S.Store self.old self.new }
        ensures open { HasCleanDisk (state S.Store self.new.store)
            → OnOk result (IsTrue (state S.Store self.new.store).is_open) }
    {
        self.tables.all_values(alloc, place, table)
    }
}

/// Returns a copy of amounts. Fails only if memory is refused.
fn copied(alloc: Global, amounts: &[Amount]) -> Result<Seq<Amount>, AllocError>
    ensures { IfOk result (λ copy. copy ≡ amounts.now) }
{
    Ok(Seq::from_vec(Vec::from_slice(alloc, amounts)?))
}
