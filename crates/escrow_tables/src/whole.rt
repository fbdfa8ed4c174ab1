ghost use Rattle.std.specs.Prelude.{◌≡◌, map, IfOk};
ghost use Rattle.escrow_tables.specs.Inside.{catalog_of};

use crate::tables::Tables;
use escrow_num::{Copied, Failure, Name, Row, Seq};
use escrow_schema::{CountedTable, TableDef};
use sqlite::Alter;
use std::alloc::{AllocError, Global};

impl<S: Alter> Tables<S> {
    ghost use Rattle.std.specs.Prelude.{◌≡◌, ◌+◌, ◌++◌, ◌<◌, Some, IfOk, OnOk, drop, length};
    ghost use Rattle.sqlite.specs.Held.{state};
    ghost use Rattle.sqlite.specs.State.{HasCleanDisk};
    ghost use Rattle.escrow_schema.specs.Catalog.{place_named};
    ghost use Rattle.escrow_schema.specs.Rows.{rows_of};
    ghost use Rattle.escrow_tables.specs.Calls.{Reads};
    ghost use Rattle.escrow_tables.specs.Whole.{rows_by_table};

    /// Returns a copy of the definitions of all tables, in order of name. Makes no store call.
    /// Fails only if memory is refused.
    pub fn catalog(&self, alloc: Global) -> Result<Seq<TableDef>, AllocError>
        ensures { IfOk result (λ catalog. catalog ≡ self.now.catalog) }
    {
        definitions(alloc, self.catalog.tables())
    }

    /// Returns the committed rows of all tables, in order of table and key. Reads one table after
    /// another.
    pub fn all_rows(&mut self, alloc: Global) -> Result<Seq<Row>, Failure>
        ensures told { HasCleanDisk (state S.Store self.new.store) → IfOk result (λ rows. rows ≡ self.old.rows) }
        ensures reads { Reads S.Store self.old self.new }
    {
        let mut rows = Vec::new(alloc);
        for place in 0..self.len() {
            self.add_rows(alloc, place, &mut rows)?;
        }
        Ok(Seq::from_vec(rows))
    }

    /// Adds the committed rows of the table at a place to those of the tables before it.
    fn add_rows(&mut self, alloc: Global, place: usize, rows: &mut Vec<Row>) -> Result<(), Failure>
        requires { place < length self.old.catalog }
        ensures told { HasCleanDisk (state S.Store self.new.store)
            → OnOk result (rows.new.items
            ++ rows_by_table self.old.rows (drop (place + 1) self.old.catalog) ≡ rows.old.items
            ++ rows_by_table self.old.rows (drop place self.old.catalog)) }
        ensures reads { Reads S.Store self.old self.new }
    {
        let name = self.table(place).name;
        let mut more = self.rows_at(alloc, place, name)?.into_vec();
        rows.append(&mut more)?;
        Ok(())
    }

    /// Returns the committed rows of the table of a name, which is at this place, in order of key.
    fn rows_at(&mut self, alloc: Global, place: usize, name: Name) -> Result<Seq<Row>, Failure>
        requires { place_named self.old.catalog name ≡ Some place }
        ensures told { HasCleanDisk (state S.Store self.new.store)
            → IfOk result (λ rows. rows ≡ rows_of self.old.rows name) }
        ensures reads { Reads S.Store self.old self.new }
    {
        self.store.rows(alloc, &self.catalog.at(place).stored)
    }
}

/// Returns a copy of the definitions of tables.
fn definitions(alloc: Global, tables: &[CountedTable]) -> Result<Seq<TableDef>, AllocError>
    ensures { IfOk result (λ catalog. catalog ≡ catalog_of tables.now) }
{
    let mut catalog = Vec::with_capacity(alloc, tables.len())?;
    for counted in tables {
        catalog.push(counted.stored.table.copy(alloc)?)?;
    }
    Ok(Seq::from_vec(catalog))
}
