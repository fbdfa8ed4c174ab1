use crate::tables::Tables;
use escrow_num::Failure;
use escrow_schema::TableDef;
use sqlite::Alter;
use std::alloc::Global;
use std::snapshot::Snapshot;

impl<S: Alter> Tables<S> {
    ghost use Rattle.std.specs.Prelude.{◌≡◌, Some, IsSomeAnd, is_ok};
    ghost use Rattle.escrow_schema.specs.Altered.{with_altered};
    ghost use Rattle.escrow_schema.specs.Catalog.{place_named, table_named};
    ghost use Rattle.escrow_schema.specs.Definition.{IsTable};
    ghost use Rattle.escrow_schema.specs.declared.table.TableDef.{TableDef as Table};
    ghost use Rattle.escrow_tables.specs.Calls.{Writes};

    /// ALTER TABLE: replaces the table of the same name by one with other checks, in one
    /// transaction. Its rows stay, whether they meet the checks or not.
    pub fn redefine(&mut self, alloc: Global, place: usize, table: TableDef) -> Result<(), Failure>
        requires table { IsTable table }
        requires place { place_named self.old.catalog table.name ≡ Some place }
        requires alike { IsSomeAnd (table_named self.old.catalog table.name)
            (λ (old : Table). table ≡ record old { checks = table.checks }) }
        ensures { Writes S.Store self.old self.new (is_ok result) (with_altered table self.old.catalog) self.old.rows }
    {
        let stored = &self.catalog.at(place).stored;
        self.store.redefine(alloc, stored, &table)?;
        self.catalog.replace(table);
        self.last = Snapshot::of(&self.store);
        Ok(())
    }
}
