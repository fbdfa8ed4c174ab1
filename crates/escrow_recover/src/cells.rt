//! Whether each cell of a store belongs to one of its tables.
ghost use Rattle.std.specs.Prelude.{◌≡◌, IsTrue, Err, OnOk};
ghost use Rattle.std.specs.Ordering.{int_eq};
ghost use Rattle.std.specs.List.{list_any};
ghost use Rattle.sqlite.specs.Held.{state};
ghost use Rattle.sqlite.specs.State.{HasCleanDisk};
ghost use Rattle.escrow_cells.specs.Store.{HasTables};
ghost use Rattle.escrow_rows.specs.Answers.{IsUsable, OnlyReads};
ghost use Rattle.escrow_recover.specs.Inside.{AreOfTables, is_number_of};
ghost use Rattle.escrow_recover.specs.declared.unverified.PartFault.TheVariants.{Foreign};

use crate::unverified::PartFault;
use escrow_cells::{Sink, failure_of};
use escrow_num::Failure;
use escrow_rows::RowStore;
use escrow_schema::StoredTable;
use sqlite::{Alter, Row};

/// Tests whether each cell belongs to one of these tables.
pub(crate) fn check_cells<S: Alter>(
    store: &mut RowStore<S>,
    tables: &[StoredTable],
) -> Result<(), PartFault>
    ensures found { HasCleanDisk (state S.Store store.new)
        → OnOk result (IsTrue (state S.Store store.new).is_open
        × (HasTables (state S.Store store.old).now.schema → AreOfTables tables.now (state S.Store store.old).now)) }
    ensures foreign { IsUsable (state S.Store store.new) → result ≡ Err Foreign
        → HasTables (state S.Store store.old).now.schema → AreOfTables tables.now (state S.Store store.old).now → ⊥ }
    ensures only_reads { OnlyReads (state S.Store store.old) (state S.Store store.new) }
{
    let mut owners = Owners {
        tables,
        known: true,
    };
    store.cell_tables(&mut owners)?;
    if owners.known {
        Ok(())
    } else {
        Err(PartFault::Foreign)
    }
}

/// The tables that cells belong to, as they are read.
#[derive(Drop)]
struct Owners<'a> {
    /// The tables of the store.
    tables: &'a [StoredTable],
    /// Whether each cell so far belongs to one of them.
    known: bool,
}

impl<'a> Sink for Owners<'a> {
    ghost use Rattle.std.specs.Prelude.{◌≡◌, ◌↔◌, IsTrue};
    ghost use Rattle.std.specs.List.{AllByRecursion};
    ghost use Rattle.sqlite_value.specs.Order.{column};
    ghost use Rattle.escrow_recover.specs.Inside.{IsNumberOf};

    ghost has_taken = { λ first owners rows. (owners.tables ≡ first.tables)
        × (IsTrue first.known → (IsTrue owners.known
        ↔ AllByRecursion (λ row. IsNumberOf first.tables.now (column row 0)) rows)) };

    fn take(&mut self, row: &Row) -> Result<(), Failure> {
        let id: i64 = match row.get(0) {
            Ok(id) => id,
            Err(error) => return Err(failure_of(error)),
        };
        if !has_number(self.tables, id) {
            self.known = false;
        }
        Ok(())
    }
}

/// Returns whether one of these tables has this number.
fn has_number(tables: &[StoredTable], id: i64) -> bool
    ensures { result ≡ is_number_of tables.now id }
{
    tables.iter().any(|table| table.id == id)
}
