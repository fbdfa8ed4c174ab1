//! A store of the previous format.
ghost use Rattle.std.specs.Prelude.{◌≡◌, ◌↔◌, IsTrue, Err, List, IfOk};
ghost use Rattle.std.specs.List.{AllByRecursion};
ghost use Rattle.sqlite.specs.Held.{state};
ghost use Rattle.sqlite.specs.State.{HasCleanDisk};
ghost use Rattle.escrow_num.specs.declared.row.Row.{Row};
ghost use Rattle.escrow_cells.specs.declared.formats.TheConstants.{FORMAT_1};
ghost use Rattle.escrow_schema.specs.Stored.{IsListed, stored_of};
ghost use Rattle.escrow_rows.specs.Answers.{IsUsable, OnlyReads};
ghost use Rattle.escrow_recover.specs.Stored.{IsWhole, IsFormat1Store, IsNoFormat1Store, HasFormatBut, HasCount};
ghost use Rattle.escrow_schema.specs.declared.counted_table.CountedTable.{CountedTable as Counted};
ghost use Rattle.escrow_recover.specs.declared.unverified.Unverified.TheVariants.{ForeignStore, OtherFormat};

use crate::unverified::Unverified;
use crate::whole::verify_format;
use escrow_cells::Format;
use escrow_num::Scale;
use escrow_rows::RowStore;
use escrow_schema::{Catalog, CountedTable, TableDef};
use sqlite::Alter;
use std::alloc::Global;

/// Returns the catalog of a store in the previous format, as [`verify`](crate::verify) does for one
/// in the known format. No column in it has a scale.
///
/// # Errors
///
/// Fails as [`verify`](crate::verify) does. The known format counts as another one here.
pub(crate) fn verify_format_1<S: Alter>(
    alloc: Global,
    store: &mut RowStore<S>,
) -> Result<Catalog, Unverified>
    ensures listed { IfOk result IsListed }
    ensures store { HasCleanDisk (state S.Store store.new)
        → IfOk result (λ catalog. IsTrue (state S.Store store.new).is_open × (rows : List Row)
        × IsFormat1Store (stored_of catalog) rows (state S.Store store.old).now
        × AllByRecursion (HasCount rows) catalog) }
    ensures foreign { IsUsable (state S.Store store.new) → result ≡ Err ForeignStore
        → IsNoFormat1Store (state S.Store store.old).now }
    ensures version { IsUsable (state S.Store store.new) → result ≡ Err OtherFormat
        → HasFormatBut FORMAT_1 (state S.Store store.old).now }
    ensures other { IsUsable (state S.Store store.new) → result ≡ Err ForeignStore
        → HasFormatBut FORMAT_1 (state S.Store store.old).now → ⊥ }
    ensures only_reads { OnlyReads (state S.Store store.old) (state S.Store store.new) }
{
    match verify_format(alloc, store, Format::V1) {
        Ok(tables) if are_whole(&tables) => Ok(Catalog::of(tables)),
        Ok(_) => Err(Unverified::ForeignStore),
        Err(why) => Err(why),
    }
}

/// Returns whether no column of these tables has a scale.
fn are_whole(tables: &[CountedTable]) -> bool
    ensures { IsTrue result ↔ AllByRecursion (λ (c : Counted). IsWhole c.stored.table) tables.now }
{
    tables.iter().all(|table| is_whole(&table.stored.table))
}

/// Returns whether no column of a table has a scale.
fn is_whole(table: &TableDef) -> bool
    ensures { IsTrue result ↔ IsWhole table.now }
{
    table
        .columns
        .as_slice()
        .iter()
        .all(|column| column.scale() == Scale::ZERO)
}
