//! The key that a WHERE names.
ghost use Rattle.std.specs.Prelude.{◌≡◌};
ghost use Rattle.std.specs.Result.{result_err};
ghost use Rattle.escrow_schema.specs.Definition.{IsTable};
ghost use Rattle.escrow_schema.specs.Plan.{key_named};

use crate::table::TableDef;
use escrow_num::Refusal;
use escrow_statement::WhereText;

/// Checks that a WHERE names a key. If not, it returns the first reason that applies: WHERE names
/// another column than the key, or the key's type doesn't hold the literal. Takes no memory.
pub fn check_key(table: &TableDef, row: &WhereText) -> Result<(), Refusal>
    requires { IsTable table.now }
    ensures { result_err result ≡ result_err (key_named table.now row.now) }
{
    let column = &table.typed_columns()[table.key];
    if column.name != row.column {
        return Err(Refusal::NotTheKey);
    }
    if !column.kind.fits(&row.literal) {
        return Err(Refusal::BadValue);
    }
    Ok(())
}
