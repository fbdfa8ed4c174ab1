ghost use Rattle.std.specs.Prelude.{◌≡◌, ◌≢◌, pos, IfSome, int_le, IsTrue};
ghost use Rattle.std.specs.List.{AllByRecursion, list_any};
ghost use Rattle.std.specs.Ordering.{int_eq};
ghost use Rattle.escrow_schema.specs.declared.counted_table.CountedTable.{CountedTable as Kept};

use crate::tables::Tables;
use escrow_num::Failure;
use escrow_schema::{CountedTable, TableDef};
use sqlite::Alter;
use std::alloc::Global;
use std::snapshot::Snapshot;

impl<S: Alter> Tables<S> {
    ghost use Rattle.std.specs.Prelude.{◌≡◌, ◌<◌, ℕ, List, None, Some, length, is_ok};
    ghost use Rattle.escrow_schema.specs.declared.catalog.TheConstants.Catalog.{MAX_TABLES};
    ghost use Rattle.escrow_schema.specs.Catalog.{place_named, table_named, with_table, without_table};
    ghost use Rattle.escrow_schema.specs.Definition.{IsTable};
    ghost use Rattle.escrow_schema.specs.Rows.{without_rows_of};
    ghost use Rattle.escrow_tables.specs.Calls.{Writes};

    /// CREATE TABLE: adds a new table, without rows. The table is added to the catalog before the
    /// store is asked, since this takes memory. It is removed again if the store refuses.
    pub fn create(&mut self, alloc: Global, table: TableDef) -> Result<(), Failure>
        requires table { IsTable table }
        requires new { table_named self.old.catalog table.name ≡ None }
        requires room { length self.old.catalog < MAX_TABLES }
        ensures { Writes S.Store self.old self.new (is_ok result) (with_table table self.old.catalog) self.old.rows }
    {
        let Some(id) = free_number(self.catalog.tables()) else {
            return Err(Failure::Store);
        };
        let name = table.name;
        let Ok(place) = self.catalog.add(id, table) else {
            return Err(Failure::Memory);
        };
        let stored = &self.catalog.at(place).stored;
        if let Err(failure) = self.store.create_table(alloc, stored) {
            let _ = self.catalog.remove(name);
            return Err(failure);
        }
        self.last = Snapshot::of(&self.store);
        Ok(())
    }

    /// DROP TABLE: deletes the table at a place, and its rows. Takes no memory of its own.
    pub fn drop_table(&mut self, place: usize) -> Result<(), Failure>
        requires { (name : List ℕ) × (place_named self.old.catalog name ≡ Some place) }
        ensures { (name : List ℕ) → place_named self.old.catalog name ≡ Some place
            → Writes S.Store self.old self.new (is_ok result) (without_table name self.old.catalog)
            (without_rows_of name self.old.rows) }
    {
        let counted = self.catalog.at(place);
        self.store.drop_table(&counted.stored)?;
        let name = counted.stored.table.name;
        let _ = self.catalog.remove(name);
        self.last = Snapshot::of(&self.store);
        Ok(())
    }
}

/// Returns the least number from 1 on that no table has. One of the first 33 is free, since there
/// are at most 32 tables.
fn free_number(tables: &[CountedTable]) -> Option<i64>
    ensures { IfSome result (λ id. IsTrue (int_le (pos 1) id)
        × AllByRecursion (λ (c : Kept). c.stored.id ≢ id) tables.now) }
{
    (1..=33).find(|id| !has_number(tables, *id))
}

/// Returns whether a table has a number.
fn has_number(tables: &[CountedTable], id: i64) -> bool
    ensures { result ≡ list_any (λ (c : Kept). int_eq c.stored.id id) tables.now }
{
    tables.iter().any(|counted| counted.stored.id == id)
}
