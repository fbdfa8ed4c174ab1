ghost use Rattle.std.specs.Prelude.{◌≡◌, ◌⊎◌, ◌↔◌, ◌<◌, ◌≢◌, pos, int_le, None, Some, Err, OnOk, OnErr, IfOk, IfErr, IfSome, IsErr, IsErrOf, IsTrue, is_some, length, insert, option_copied, slice_get, slice_set, true};
ghost use Rattle.std.specs.List.{AllByRecursion};
ghost use Rattle.escrow_schema.specs.declared.counted_table.CountedTable.{CountedTable as Counted};
ghost use Rattle.escrow_schema.specs.Stored.{defined_as, new_table};

use crate::by_name::{find_by_name, place_by_name, place_in_order};
use crate::counted_table::CountedTable;
use crate::stored::StoredTable;
use crate::table::TableDef;
use escrow_num::{Name, Refusal};
use std::alloc::Global;
use std::marker::Model;

/// The tables of a database, in order of name, each with its number in the store and its number of
/// rows. Contracts see the list of them. There are at most [`Catalog::MAX_TABLES`], no two have the
/// same name or the same number, and each is a table that some text defines.
#[derive(Debug)]
pub struct Catalog {
    tables: Vec<CountedTable>,
}

// Written out, so that crates above need not prove again how its parts are dropped.
impl Drop for Catalog {
    fn drop(self) {
        let Catalog { tables: _ } = self;
    }
}

impl Model for Catalog {
    ghost use Rattle.std.specs.Prelude.{List};
    ghost use Rattle.escrow_schema.specs.Stored.{IsListed};
    ghost use Rattle.escrow_schema.specs.declared.counted_table.CountedTable.{CountedTable};

    ghost Value = { List CountedTable };

    ghost view = { λ c. c.tables.items };

    ghost invariant = { λ c. IsListed c.tables.items };
}

impl Catalog {
    ghost use Rattle.std.specs.Prelude.{[]};
    ghost use Rattle.escrow_schema.specs.Catalog.{add_refusal, place_named, table_named, with_table};
    ghost use Rattle.escrow_schema.specs.Definition.{IsTable};
    ghost use Rattle.escrow_schema.specs.Stored.{IsListed, catalog_of, recounted, with_definition, without_counted};

    /// The most tables.
    pub const MAX_TABLES: usize = 32;

    /// Returns a catalog without tables. Takes no memory.
    pub fn new(alloc: Global) -> Self
        ensures { result ≡ [] }
    {
        Catalog {
            tables: Vec::new(alloc),
        }
    }

    /// Returns the catalog of these tables. Takes no memory.
    pub fn of(tables: Vec<CountedTable>) -> Self
        requires { IsListed tables.items }
        ensures { result ≡ tables.items }
    {
        Catalog { tables }
    }

    /// Returns the tables, in order of name.
    pub fn tables(&self) -> &[CountedTable]
        ensures value { result.now ≡ self.now }
        ensures listed { IsListed self.now }
    {
        &self.tables
    }

    /// Returns the place of the table of a name, in order of name.
    pub fn place(&self, name: Name) -> Option<usize>
        ensures place { result ≡ place_named (catalog_of self.now) name }
        ensures there { is_some result ≡ is_some (table_named (catalog_of self.now) name) }
        ensures within { IfSome result (λ place. place < length self.now) }
    {
        place_by_name(self.tables(), name)
    }

    /// Returns the table at a place.
    pub fn at(&self, place: usize) -> &CountedTable
        requires { place < length self.now }
        ensures at { slice_get self.now place ≡ Some result.now }
        ensures table { IsTable result.now.stored.table }
    {
        &self.tables()[place]
    }

    /// Returns the table of a name.
    pub fn find(&self, name: Name) -> Option<&TableDef>
        ensures found { option_copied result ≡ table_named (catalog_of self.now) name }
        ensures table { IfSome result (λ table. IsTable table.now) }
    {
        let counted = find_by_name(self.tables(), name)?;
        Some(&counted.stored.table)
    }

    /// Adds a table without rows, in order of name, and returns its place. Its number in the store
    /// must be 1 or more, and no other table may have it.
    ///
    /// # Errors
    ///
    /// Fails with [`Refusal::TableExists`] if there is a table of its name, else with
    /// [`Refusal::TooManyTables`] if the catalog is full. Fails with [`Refusal::Memory`] only if
    /// neither applies. After an error the catalog is unchanged.
    pub fn add(&mut self, id: i64, table: TableDef) -> Result<usize, Refusal>
        requires table { IsTable table }
        requires number { IsTrue (int_le (pos 1) id) }
        requires free { AllByRecursion (λ (c : Counted). c.stored.id ≢ id) self.old }
        ensures added { IfOk result (λ place. self.new ≡ insert self.old place (new_table id table)) }
        ensures catalog { OnOk result (catalog_of self.new ≡ with_table table (catalog_of self.old)) }
        ensures within { IfOk result (λ place. place < length self.new) }
        ensures unchanged { OnErr result (self.new ≡ self.old) }
        ensures refused { IfSome (add_refusal (catalog_of self.old) table) (λ e. result ≡ Err e) }
        ensures only { IfErr result (λ e. (add_refusal (catalog_of self.old) table ≡ Some e) ⊎ (e ≡ Refusal.Memory)) }
        ensures memory { IsErrOf result Refusal.Memory → add_refusal (catalog_of self.old) table ≡ None }
    {
        if self.find(table.name).is_some() {
            return Err(Refusal::TableExists);
        }
        if Self::MAX_TABLES <= self.tables.len() {
            return Err(Refusal::TooManyTables);
        }
        let place = place_in_order(&self.tables, table.name);
        match self.tables.insert(place, new_table(id, table)) {
            Ok(()) => Ok(place),
            Err(_) => Err(Refusal::Memory),
        }
    }

    /// Replaces the definition of the table of the same name. Takes no memory.
    pub fn replace(&mut self, table: TableDef)
        requires table { IsTable table }
        requires there { is_some (table_named (catalog_of self.old) table.name) ≡ true }
        ensures { self.new ≡ with_definition table self.old }
    {
        match place_by_name(&self.tables, table.name) {
            Some(place) => define_at(&mut self.tables, place, table),
            None => {}
        }
    }

    /// Sets how many rows the table at a place has. Takes no memory.
    pub fn count(&mut self, place: usize, rows: usize)
        requires { place < length self.old }
        ensures { self.new ≡ recounted self.old place rows }
    {
        self.tables[place].rows = rows;
    }

    /// Removes the table of a name and returns its definition. Takes no memory.
    ///
    /// # Errors
    ///
    /// Fails with [`Refusal::NoSuchTable`] exactly if there is none. The catalog is then unchanged.
    pub fn remove(&mut self, name: Name) -> Result<TableDef, Refusal>
        ensures removed { IfOk result (λ table. table_named (catalog_of self.old) name ≡ Some table) }
        ensures rest { OnOk result (self.new ≡ without_counted name self.old) }
        ensures unchanged { OnErr result (self.new ≡ self.old) }
        ensures refused { IsErr result ↔ (table_named (catalog_of self.old) name ≡ None) }
        ensures only { IfErr result (λ e. e ≡ Refusal.NoSuchTable) }
    {
        match place_by_name(&self.tables, name) {
            Some(place) => Ok(self.tables.remove(place).stored.table),
            None => Err(Refusal::NoSuchTable),
        }
    }
}

/// Returns a new table, which has no rows.
fn new_table(id: i64, table: TableDef) -> CountedTable
    ensures { result ≡ new_table id table }
{
    CountedTable {
        stored: StoredTable { id, table },
        rows: 0,
    }
}

/// Replaces the definition of the table at a place.
fn define_at(tables: &mut Vec<CountedTable>, place: usize, table: TableDef)
    requires { place < length tables.old.items }
    ensures { (c : Counted) → slice_get tables.old.items place ≡ Some c
        → tables.new.items ≡ slice_set tables.old.items place (defined_as table c) }
{
    tables[place].stored.table = table;
}
