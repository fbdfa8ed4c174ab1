//! The rows of a table of a store.
ghost use Rattle.std.specs.Prelude.{◌≡◌, List, length, Err, IsTrue, IfOk};
ghost use Rattle.sqlite.specs.Held.{state};
ghost use Rattle.sqlite.specs.State.{HasCleanDisk};
ghost use Rattle.escrow_num.specs.declared.row.Row.{Row};
ghost use Rattle.escrow_schema.specs.Definition.{IsTable};
ghost use Rattle.escrow_cells.specs.Store.{IsStore};
ghost use Rattle.escrow_rows.specs.Answers.{IsUsable, OnlyReads};
ghost use Rattle.escrow_recover.specs.Inside.{AreRowsIn};
ghost use Rattle.escrow_recover.specs.declared.unverified.PartFault.TheVariants.{Foreign};

mod counter;
mod defined;

use crate::unverified::PartFault;
use counter::RowCounter;
use defined::DefinedTable;
use escrow_rows::RowStore;
use escrow_schema::StoredTable;
use sqlite::Alter;
use std::alloc::Global;

/// Returns how many rows a table of a store has. Each is tested as its cells are read: it must have
/// a value that fits for each column of the table, and meet the table's checks. No row is kept. If
/// a cell belongs to no such row, or there are more than [`TableDef::MAX_ROWS`] rows, the store is
/// refused as foreign.
pub(crate) fn count_rows<S: Alter>(
    alloc: Global,
    store: &mut RowStore<S>,
    table: &StoredTable,
) -> Result<usize, PartFault>
    requires { IsTable table.now.table }
    ensures found { HasCleanDisk (state S.Store store.new)
        → IfOk result (λ n. IsTrue (state S.Store store.new).is_open
        × (IsStore (state S.Store store.old).now → (rows : List Row)
        × AreRowsIn table.now rows (state S.Store store.old).now × (n ≡ length rows))) }
    ensures foreign { IsUsable (state S.Store store.new) → result ≡ Err Foreign → IsStore (state S.Store store.old).now
        → (rows : List Row) → AreRowsIn table.now rows (state S.Store store.old).now → ⊥ }
    ensures only_reads { OnlyReads (state S.Store store.old) (state S.Store store.new) }
{
    let counter = RowCounter {
        alloc,
        table: DefinedTable::new(&table.table),
        rows: 0,
        sound: true,
    };
    match store.read_rows(alloc, table, counter)? {
        Some(counter) if counter.sound => Ok(counter.rows),
        _ => Err(PartFault::Foreign),
    }
}
