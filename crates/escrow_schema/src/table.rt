ghost use Rattle.std.specs.Prelude.{◌≡◌, ◌<◌, Some, length};

use crate::column::Column;
use escrow_checks::Check;
use escrow_num::{Name, Scale, Seq};

/// The definition of a table.
#[derive(Debug)]
pub struct TableDef {
    /// The table's name.
    pub name: Name,
    /// Its columns, in order.
    pub columns: Seq<Column>,
    /// The place of the key among the columns, from 0.
    pub key: usize,
    /// Its checks: the declared ones in order, then the range of each RESERVABLE column.
    pub checks: Seq<Check>,
}

// Written out, so that crates above need not prove again how its parts are dropped.
impl Drop for TableDef {
    fn drop(self) {
        let TableDef {
            name: _,
            columns: _,
            key: _,
            checks: _,
        } = self;
    }
}

impl TableDef {
    ghost use Rattle.escrow_schema.specs.Definition.{IsTable, key_column, key_scale};
    ghost use Rattle.escrow_schema.specs.Typed.{TypedColumns};

    /// The fewest columns of a table: its key and one RESERVABLE column.
    pub const MIN_COLUMNS: usize = 2;

    /// The most columns of a table.
    pub const MAX_COLUMNS: usize = 30;

    /// The most rows of a table.
    pub const MAX_ROWS: usize = 65_536;

    /// Returns the columns, in order. Each has a valid type, and the key is among them.
    pub(crate) fn typed_columns(&self) -> &[Column]
        requires { IsTable self.now }
        ensures value { result.now ≡ self.now.columns }
        ensures typed { TypedColumns result.now }
        ensures key { self.now.key < length result.now }
    {
        self.columns.as_slice()
    }

    /// Returns the key column.
    pub fn key_column(&self) -> &Column
        requires { IsTable self.now }
        ensures { key_column self.now ≡ Some result.now }
    {
        &self.typed_columns()[self.key]
    }

    /// Returns the scale of the key column. A key that is a number is in units of 10^-scale.
    pub fn key_scale(&self) -> Scale
        requires { IsTable self.now }
        ensures { result ≡ key_scale self.now }
    {
        self.key_column().scale()
    }
}
