//! The tables of a store, read from the rows of TAB.
ghost use Rattle.std.specs.Prelude.{◌≡◌, ◌++◌, ◌∷◌, [], List, Err, IfOk, OnOk, IsPermutation, IsSorted, IsTrue, map};
ghost use Rattle.std.specs.List.{AllByRecursion, list_all};
ghost use Rattle.sqlite.specs.Held.{state};
ghost use Rattle.sqlite.specs.State.{HasCleanDisk};
ghost use Rattle.escrow_schema.specs.Catalog.{IsCatalog};
ghost use Rattle.escrow_cells.specs.Store.{IsStore};
ghost use Rattle.escrow_schema.specs.declared.stored.StoredTable.{StoredTable as Stored};
ghost use Rattle.escrow_rows.specs.Answers.{IsUsable, OnlyReads};
ghost use Rattle.escrow_rows.specs.Image.{AreTables, tab_row};
ghost use Rattle.escrow_recover.specs.Inside.{AreTablesIn};
ghost use Rattle.escrow_recover.specs.Tabs.{CanStand, IsTab, tables_apart, are_apart, by_name};
ghost use Rattle.escrow_recover.specs.declared.unverified.PartFault.TheVariants.{Foreign};

mod tab;

use crate::tables::tab::table_of;
use crate::unverified::PartFault;
use escrow_rows::RowStore;
use escrow_schema::{Catalog, StoredTable};
use sqlite::{Alter, Row};
use std::alloc::{AllocError, Global};

/// Returns the tables of a store, in order of name. Each row of TAB must be a table's number, its
/// name and its canonical text, byte for byte. Anything else is refused as no store.
pub(crate) fn read_tables<S: Alter>(
    alloc: Global,
    store: &mut RowStore<S>,
) -> Result<Vec<StoredTable>, PartFault>
    ensures tables { IfOk result (λ tables. AreTables tables.items × IsCatalog (map (λ s. s.table) tables.items)) }
    ensures found { HasCleanDisk (state S.Store store.new)
        → IfOk result (λ tables. IsTrue (state S.Store store.new).is_open
        × (IsStore (state S.Store store.old).now → AreTablesIn tables.items (state S.Store store.old).now)) }
    ensures foreign { IsUsable (state S.Store store.new) → result ≡ Err Foreign → IsStore (state S.Store store.old).now
        → (tables : List Stored) → AreTablesIn tables (state S.Store store.old).now → ⊥ }
    ensures only_reads { OnlyReads (state S.Store store.old) (state S.Store store.new) }
{
    let rows = store.tabs()?;
    tables_of(alloc, &rows)
}

/// Returns the tables with these rows of TAB, in order of name.
fn tables_of(alloc: Global, rows: &[Row]) -> Result<Vec<StoredTable>, PartFault>
    ensures tables { IfOk result (λ tables. AreTables tables.items × IsCatalog (map (λ s. s.table) tables.items)) }
    ensures rows { IfOk result (λ tables. IsPermutation (map tab_row tables.items) rows.now) }
    ensures foreign { result ≡ Err Foreign → (tables : List Stored) → AreTables tables
        → IsPermutation (map tab_row tables) rows.now → ⊥ }
{
    if Catalog::MAX_TABLES < rows.len() {
        return Err(PartFault::Foreign);
    }
    let mut tables = each_table(alloc, rows)?;
    if !are_apart(&tables) {
        return Err(PartFault::Foreign);
    }
    put_in_order(&mut tables)?;
    Ok(tables)
}

/// Returns the table of each row of TAB.
fn each_table(alloc: Global, rows: &[Row]) -> Result<Vec<StoredTable>, PartFault>
    ensures rows { IfOk result (λ tables. map tab_row tables.items ≡ rows.now) }
    ensures each { IfOk result (λ tables. AllByRecursion CanStand tables.items) }
    ensures foreign { result ≡ Err Foreign → AllByRecursion IsTab rows.now → ⊥ }
{
    let mut tables = Vec::new(alloc);
    for row in rows {
        push_table(alloc, &mut tables, row)?;
    }
    Ok(tables)
}

/// Adds the table of a row of TAB.
fn push_table(alloc: Global, tables: &mut Vec<StoredTable>, row: &Row) -> Result<(), PartFault>
    ensures added { OnOk result ((s : Stored) × CanStand s × (row.now ≡ tab_row s)
        × (tables.new.items ≡ tables.old.items ++ s ∷ [])) }
    ensures foreign { result ≡ Err Foreign → IsTab row.now → ⊥ }
{
    let table = table_of(alloc, row)?;
    Ok(tables.push(table)?)
}

/// Returns whether no two tables have the same number or the same name.
fn are_apart(tables: &[StoredTable]) -> bool
    ensures { result ≡ are_apart tables.now }
{
    for (i, table) in tables.iter().enumerate() {
        if !is_apart(table, &tables[i + 1..]) {
            return false;
        }
    }
    true
}

/// Returns whether no other table has a table's number or its name.
fn is_apart(table: &StoredTable, others: &[StoredTable]) -> bool
    ensures { result ≡ list_all (tables_apart table.now) others.now }
{
    others.iter().all(|other| table.id != other.id && table.table.name != other.table.name)
}

/// Sorts tables by name.
fn put_in_order(tables: &mut Vec<StoredTable>) -> Result<(), AllocError>
    ensures same { IsPermutation tables.old.items tables.new.items }
    ensures order { OnOk result (IsSorted by_name tables.new.items) }
{
    tables.sort_by(|a, b| a.table.name.cmp(&b.table.name))
}
