use crate::tables::Tables;
use escrow_num::{Failure, Row, RowName, Value};
use sqlite::Alter;
use std::alloc::Global;
use std::snapshot::Snapshot;

impl<S: Alter> Tables<S> {
    ghost use Rattle.std.specs.Prelude.{◌≡◌, ◌<◌, None, Some, IfOk, IsTrue, is_some, length};
    ghost use Rattle.std.specs.List.{AllByRecursion};
    ghost use Rattle.sqlite.specs.Held.{state};
    ghost use Rattle.sqlite.specs.State.{HasCleanDisk};
    ghost use Rattle.escrow_schema.specs.Catalog.{place_named};
    ghost use Rattle.escrow_schema.specs.declared.table.TheConstants.TableDef.{MAX_ROWS};
    ghost use Rattle.escrow_schema.specs.Rows.{row_named, without_row, with_plain, rows_of, HasTable};
    ghost use Rattle.escrow_rows.specs.Answers.{was_done};
    ghost use Rattle.escrow_tables.specs.Calls.{Writes, with_new};

    /// INSERT: adds a new row to the table at a place, unless the store finds that this breaks a
    /// constraint, for example because a row of its name exists. Returns whether the row is
    /// inserted.
    pub fn insert(&mut self, alloc: Global, place: usize, row: &Row) -> Result<bool, Failure>
        requires place { place_named self.old.catalog row.now.name.table ≡ Some place }
        requires fits { HasTable self.old.catalog row.now }
        requires room { HasCleanDisk (state S.Store self.old.store)
            → length (rows_of self.old.rows row.now.name.table) < MAX_ROWS }
        ensures writes { Writes S.Store self.old self.new (was_done result) self.old.catalog
            (with_new row.now self.old.rows) }
        ensures told { HasCleanDisk (state S.Store self.new.store)
            → IfOk result (λ put. IsTrue put → row_named self.old.rows row.now.name ≡ None) }
    {
        let counted = self.catalog.at(place);
        if !self.store.insert(alloc, &counted.stored, row)? {
            return Ok(false);
        }
        let rows = counted.rows.saturating_add(1);
        self.catalog.count(place, rows);
        self.last = Snapshot::of(&self.store);
        Ok(true)
    }

    /// UPDATE of plain columns: replaces plain values of the row of a name, whose table is at this
    /// place, if the row exists. Returns whether it does. Fails if no value is new.
    pub fn set_plain(
        &mut self,
        alloc: Global,
        place: usize,
        name: &RowName,
        values: &[Option<Value>],
    ) -> Result<bool, Failure>
        requires place { place_named self.old.catalog name.now.table ≡ Some place }
        requires fits { HasCleanDisk (state S.Store self.old.store)
            → AllByRecursion (HasTable self.old.catalog) (with_plain name.now values.now self.old.rows) }
        ensures writes { Writes S.Store self.old self.new (was_done result) self.old.catalog
            (with_plain name.now values.now self.old.rows) }
        ensures told { HasCleanDisk (state S.Store self.new.store)
            → IfOk result (λ stands. stands ≡ is_some (row_named self.old.rows name.now)) }
    {
        if !self
            .store
            .set_plain(alloc, &self.catalog.at(place).stored, &name.key, values)?
        {
            return Ok(false);
        }
        self.last = Snapshot::of(&self.store);
        Ok(true)
    }

    /// DELETE: deletes the row of a name, whose table is at this place, if the row exists. Returns
    /// whether it did. Takes no memory of its own.
    pub fn delete(&mut self, place: usize, name: &RowName) -> Result<bool, Failure>
        requires { place_named self.old.catalog name.now.table ≡ Some place }
        ensures writes { Writes S.Store self.old self.new (was_done result) self.old.catalog
            (without_row name.now self.old.rows) }
        ensures told { HasCleanDisk (state S.Store self.new.store)
            → IfOk result (λ stood. stood ≡ is_some (row_named self.old.rows name.now)) }
    {
        let counted = self.catalog.at(place);
        if !self.store.delete(&counted.stored, &name.key)? {
            return Ok(false);
        }
        let rows = counted.rows.saturating_sub(1);
        self.catalog.count(place, rows);
        self.last = Snapshot::of(&self.store);
        Ok(true)
    }
}
