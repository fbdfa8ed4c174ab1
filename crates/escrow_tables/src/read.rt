use crate::tables::Tables;
use escrow_num::{Amount, Failure, Name, RowName, Seq, Value};
use sqlite::Alter;
use std::alloc::Global;

impl<S: Alter> Tables<S> {
    ghost use Rattle.std.specs.Prelude.{◌≡◌, Some, IsSomeAnd, IfOk, OnOk, IfSome, IsTrue, is_some, length, map, option_map};
    ghost use Rattle.sqlite.specs.Held.{state};
    ghost use Rattle.sqlite.specs.State.{HasCleanDisk};
    ghost use Rattle.escrow_schema.specs.Catalog.{place_named, table_named};
    ghost use Rattle.escrow_schema.specs.Column.{reservables};
    ghost use Rattle.escrow_schema.specs.Fit.{values_of};
    ghost use Rattle.escrow_schema.specs.Rows.{row_named, rows_of};
    ghost use Rattle.escrow_tables.specs.Calls.{Reads};

    /// Returns the amounts of the committed row of a name, one for each RESERVABLE column in column
    /// order, or `None` if there is no such row. `place` is that of its table.
    pub fn amounts(
        &mut self,
        alloc: Global,
        place: usize,
        name: &RowName,
    ) -> Result<Option<Seq<Amount>>, Failure>
        requires { place_named self.old.catalog name.now.table ≡ Some place }
        ensures told { HasCleanDisk (state S.Store self.new.store)
            → IfOk result (λ found. found ≡ option_map (λ row. row.amounts) (row_named self.old.rows name.now)) }
        ensures many { IfOk result
            (λ found. IfSome found (λ amounts.
            IsSomeAnd (table_named self.old.catalog name.now.table)
            (λ table. length amounts ≡ length (reservables table.columns)))) }
        ensures reads { Reads S.Store self.old self.new }
        ensures open { HasCleanDisk (state S.Store self.new.store)
            → OnOk result (IsTrue (state S.Store self.new.store).is_open) }
    {
        self.store
            .amounts(alloc, &self.catalog.at(place).stored, &name.key)
    }

    /// Returns the values of the committed row of a name, in column order, or `None` if there is no
    /// such row. `place` is that of its table.
    pub fn values(
        &mut self,
        alloc: Global,
        place: usize,
        name: &RowName,
    ) -> Result<Option<Seq<Value>>, Failure>
        requires { place_named self.old.catalog name.now.table ≡ Some place }
        ensures told { HasCleanDisk (state S.Store self.new.store)
            → IfOk result (λ found. IsSomeAnd (table_named self.old.catalog name.now.table)
            (λ table. found ≡ option_map (values_of table) (row_named self.old.rows name.now))) }
        ensures reads { Reads S.Store self.old self.new }
        ensures open { HasCleanDisk (state S.Store self.new.store)
            → OnOk result (IsTrue (state S.Store self.new.store).is_open) }
    {
        self.store
            .values(alloc, &self.catalog.at(place).stored, &name.key)
    }

    /// Returns whether the committed row of a name exists. `place` is that of its table. Takes no
    /// memory of its own.
    pub fn stands(&mut self, place: usize, name: &RowName) -> Result<bool, Failure>
        requires { place_named self.old.catalog name.now.table ≡ Some place }
        ensures told { HasCleanDisk (state S.Store self.new.store)
            → IfOk result (λ stands. stands ≡ is_some (row_named self.old.rows name.now)) }
        ensures reads { Reads S.Store self.old self.new }
        ensures open { HasCleanDisk (state S.Store self.new.store)
            → OnOk result (IsTrue (state S.Store self.new.store).is_open) }
    {
        self.store.stands(&self.catalog.at(place).stored, &name.key)
    }

    /// Returns whether the store still answers, by looking for the row of a name. Once a fault has
    /// shut it, it doesn't. Takes no memory of its own.
    pub fn answers(&mut self, name: &RowName) -> bool
        ensures reads { Reads S.Store self.old self.new }
        ensures open { HasCleanDisk (state S.Store self.new.store) → IsTrue result
            → IsTrue (state S.Store self.new.store).is_open }
    {
        match self.place(name.table) {
            Some(place) => self.stands(place, name).is_ok(),
            None => false,
        }
    }

    /// Returns the values of each committed row of the table of a name, which is at this place. The
    /// values are in column order, the rows in order of key.
    pub fn all_values(
        &mut self,
        alloc: Global,
        place: usize,
        name: Name,
    ) -> Result<Seq<Seq<Value>>, Failure>
        requires { place_named self.old.catalog name ≡ Some place }
        ensures told { HasCleanDisk (state S.Store self.new.store)
            → IfOk result (λ rows. IsSomeAnd (table_named self.old.catalog name)
            (λ table. rows ≡ map (values_of table) (rows_of self.old.rows name))) }
        ensures reads { Reads S.Store self.old self.new }
        ensures open { HasCleanDisk (state S.Store self.new.store)
            → OnOk result (IsTrue (state S.Store self.new.store).is_open) }
    {
        self.store.all_values(alloc, &self.catalog.at(place).stored)
    }
}
