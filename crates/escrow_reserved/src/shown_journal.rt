//! What SHOW JOURNAL shows of a reservation.
ghost use Rattle.std.specs.Prelude.{◌≡◌, [], IfOk, IfSome, List, unwrap_or, option_map};
ghost use Rattle.std.specs.Option.{option_copied};
ghost use Rattle.escrow_schema.specs.declared.table.TableDef.{TableDef as Table};
ghost use Rattle.escrow_schema.specs.Catalog.{table_named};
ghost use Rattle.escrow_schema.specs.Column.{reservables};
ghost use Rattle.escrow_schema.specs.Definition.{IsTable, key_scale};
ghost use Rattle.escrow_machine.specs.Journal.{entry_of, named_changes};

use escrow_machine::{ColumnChange, JournalEntry};
use escrow_num::{Amount, Copied, Reservation, Scale, Seq};
use escrow_schema::{Column, TableDef, reservables};
use std::alloc::{AllocError, Global};

/// Returns a reservation as SHOW JOURNAL shows it, with the changes of the columns that its UPDATE
/// assigned. `table` is the table of its row. Without one no change is shown, and the key has no
/// digits after the point. Fails only if memory is refused.
pub fn journal_entry(
    alloc: Global,
    table: Option<&TableDef>,
    r: &Reservation,
) -> Result<JournalEntry, AllocError>
    requires { IfSome table (λ t. IsTable t.now) }
    ensures { IfOk result (λ entry. (catalog : List Table)
        → option_copied table.entry ≡ table_named catalog r.now.row.table → entry ≡ entry_of catalog r.now) }
{
    let columns = columns_of(alloc, table)?;
    Ok(JournalEntry {
        id: r.id,
        session: r.session,
        row: r.row.copy(alloc)?,
        key_scale: key_scale_of(table),
        changes: named_changes(alloc, columns.as_slice(), r.changes.as_slice())?,
    })
}

/// Returns the scale of the keys of a table's rows, or that of whole numbers if there is no table.
fn key_scale_of(table: Option<&TableDef>) -> Scale
    requires { IfSome table (λ t. IsTable t.now) }
    ensures { result ≡ unwrap_or (option_map key_scale (option_copied table.entry)) 0 }
{
    match table {
        Some(table) => table.key_scale(),
        None => Scale::ZERO,
    }
}

/// Returns the RESERVABLE columns of a table, in column order; none if there is no table.
fn columns_of(alloc: Global, table: Option<&TableDef>) -> Result<Vec<Column>, AllocError>
    ensures { IfOk result (λ columns.
        columns.items ≡ unwrap_or (option_map (λ t. reservables t.columns) (option_copied table.entry)) []) }
{
    match table {
        Some(table) => reservables(alloc, table.columns.as_slice()),
        None => Ok(Vec::new(alloc)),
    }
}

/// Returns the changes that aren't none, each with the name and the scale of its column.
fn named_changes(
    alloc: Global,
    columns: &[Column],
    changes: &[Option<Amount>],
) -> Result<Seq<ColumnChange>, AllocError>
    ensures { IfOk result (λ named. named ≡ named_changes columns.now changes.now) }
{
    let mut named = Seq::new(alloc);
    for (column, change) in columns.iter().zip(changes) {
        if let Some(change) = change {
            named.push(ColumnChange {
                column: column.name,
                scale: column.scale(),
                change: *change,
            })?;
        }
    }
    Ok(named)
}
