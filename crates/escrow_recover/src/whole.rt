//! A store, verified completely.
ghost use Rattle.std.specs.Prelude.{◌≡◌, ◌++◌, [], ◌∷◌, IsTrue, Err, List, OnOk, IfOk, IfErr};
ghost use Rattle.std.specs.List.{AllByRecursion};
ghost use Rattle.sqlite.specs.Held.{state};
ghost use Rattle.sqlite.specs.State.{HasCleanDisk};
ghost use Rattle.escrow_num.specs.declared.row.Row.{Row};
ghost use Rattle.escrow_schema.specs.Definition.{IsTable};
ghost use Rattle.escrow_schema.specs.Stored.{IsListed, stored_of};
ghost use Rattle.escrow_cells.specs.Formats.{format_number};
ghost use Rattle.escrow_cells.specs.Store.{IsStore};
ghost use Rattle.escrow_rows.specs.Answers.{IsUsable, OnlyReads};
ghost use Rattle.escrow_recover.specs.Inside.{HasRows, HaveRows};
ghost use Rattle.escrow_recover.specs.Stored.{IsStoreIn, IsNoStore, IsNoStoreIn, HasOtherFormat, HasFormatBut, HasCount};
ghost use Rattle.escrow_recover.specs.Opened.{IsOpened, IsOpening};
ghost use Rattle.escrow_recover.specs.declared.unverified.PartFault.TheVariants.{Foreign};
ghost use Rattle.escrow_recover.specs.declared.unverified.Unverified.TheVariants as unverified;

use crate::cells::check_cells;
use crate::format::check_format;
use crate::rows::count_rows;
use crate::tables::read_tables;
use crate::unverified::{PartFault, Unverified};
use escrow_cells::Format;
use escrow_num::Refusal;
use escrow_rows::RowStore;
use escrow_schema::{Catalog, CountedTable, StoredTable};
use sqlite::Alter;
use std::alloc::Global;

/// Returns the catalog of a store. Everything that is stored is read and tested, row by row, and
/// nothing is changed.
///
/// # Errors
///
/// Fails with [`Refusal::UnknownVersion`] (62) if the store has another format, else with
/// [`Refusal::ForeignStore`] (61) if it isn't the store of any tables and rows. Fails with
/// [`Refusal::Memory`] (51), and with [`Refusal::Store`] (60) if the store refuses a call.
pub fn verify<S: Alter>(alloc: Global, store: &mut RowStore<S>) -> Result<Catalog, Refusal>
    ensures listed { IfOk result IsListed }
    ensures store { HasCleanDisk (state S.Store store.new) → IfOk result (IsOpened (state S.Store store.new)) }
    ensures foreign { IsUsable (state S.Store store.new) → result ≡ Err Refusal.ForeignStore
        → IsNoStore (state S.Store store.old).now }
    ensures version { IsUsable (state S.Store store.new) → result ≡ Err Refusal.UnknownVersion
        → HasOtherFormat (state S.Store store.old).now }
    ensures other { IsUsable (state S.Store store.new) → result ≡ Err Refusal.ForeignStore
        → HasOtherFormat (state S.Store store.old).now → ⊥ }
    ensures only { IfErr result IsOpening }
    ensures only_reads { OnlyReads (state S.Store store.old) (state S.Store store.new) }
{
    match verify_format(alloc, store, Format::Known) {
        Ok(tables) => Ok(Catalog::of(tables)),
        Err(cause) => Err(Refusal::from(cause)),
    }
}

/// Returns the tables of a store in one of the formats, in order of name, each with the number of
/// its rows.
pub(crate) fn verify_format<S: Alter>(
    alloc: Global,
    store: &mut RowStore<S>,
    known: Format,
) -> Result<Vec<CountedTable>, Unverified>
    ensures listed { IfOk result (λ tables. IsListed tables.items) }
    ensures store { HasCleanDisk (state S.Store store.new)
        → IfOk result (λ tables. IsTrue (state S.Store store.new).is_open × (rows : List Row)
        × IsStoreIn (format_number known) (stored_of tables.items) rows (state S.Store store.old).now
        × AllByRecursion (HasCount rows) tables.items) }
    ensures foreign { IsUsable (state S.Store store.new) → result ≡ Err unverified.ForeignStore
        → IsNoStoreIn (format_number known) (state S.Store store.old).now }
    ensures version { IsUsable (state S.Store store.new) → result ≡ Err unverified.OtherFormat
        → HasFormatBut (format_number known) (state S.Store store.old).now }
    ensures other { IsUsable (state S.Store store.new) → result ≡ Err unverified.ForeignStore
        → HasFormatBut (format_number known) (state S.Store store.old).now → ⊥ }
    ensures only_reads { OnlyReads (state S.Store store.old) (state S.Store store.new) }
{
    check_format(store, known)?;
    let tables = read_tables(alloc, store)?;
    check_cells(store, tables.as_slice())?;
    Ok(count_all(alloc, store, tables)?)
}

/// Returns the tables, each with the number of its rows.
fn count_all<S: Alter>(
    alloc: Global,
    store: &mut RowStore<S>,
    tables: Vec<StoredTable>,
) -> Result<Vec<CountedTable>, PartFault>
    requires { AllByRecursion (λ s. IsTable s.table) tables.items }
    ensures tables { IfOk result (λ counted. stored_of counted.items ≡ tables.items) }
    ensures found { HasCleanDisk (state S.Store store.new) → IsTrue (state S.Store store.old).is_open
        → IfOk result (λ counted. IsTrue (state S.Store store.new).is_open
        × (IsStore (state S.Store store.old).now
        → AllByRecursion (HasRows (state S.Store store.old).now) counted.items)) }
    ensures foreign { IsUsable (state S.Store store.new) → result ≡ Err Foreign → IsStore (state S.Store store.old).now
        → HaveRows (state S.Store store.old).now tables.items → ⊥ }
    ensures only_reads { OnlyReads (state S.Store store.old) (state S.Store store.new) }
{
    let mut counted = Vec::with_capacity(alloc, tables.len())?;
    for stored in tables {
        let rows = count_rows(alloc, store, &stored)?;
        counted.push(CountedTable { stored, rows })?;
    }
    Ok(counted)
}
