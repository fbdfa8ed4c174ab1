use escrow_schema::TableDef;
use std::marker::Model;

/// A table that some text defines.
#[derive(Drop)]
pub(crate) struct DefinedTable<'a> {
    table: &'a TableDef,
}

impl<'a> Model for DefinedTable<'a> {
    ghost use Rattle.escrow_schema.specs.declared.table.TableDef.{TableDef as Table};
    ghost use Rattle.escrow_schema.specs.Definition.{IsTable};

    ghost Value = { Table };

    ghost view = { λ t. t.table.now };

    ghost invariant = { λ t. IsTable t.table.now };
}

impl<'a> DefinedTable<'a> {
    ghost use Rattle.std.specs.Prelude.{◌≡◌};
    ghost use Rattle.escrow_schema.specs.Definition.{IsTable};

    /// Returns the table, which some text defines.
    pub(crate) fn new(table: &'a TableDef) -> Self
        requires { IsTable table.now }
        ensures { result ≡ table.now }
    {
        DefinedTable { table }
    }

    /// Returns the table itself.
    pub(crate) fn get(&self) -> &TableDef
        ensures value { result.now ≡ self.now }
        ensures defined { IsTable result.now }
    {
        self.table
    }
}
