//! The step that sets the value of a cell.
ghost use Rattle.std.specs.Prelude.{◌≡◌, ◌<◌, ◌-◌, ◌+◌, ◌^◌, pos, fold, length, option_map, OnOk};
ghost use Rattle.std.specs.List.{AllByRecursion};
ghost use Rattle.escrow_num.specs.declared.value.Value.{Value as HeldValue};
ghost use Rattle.escrow_schema.specs.declared.stored.StoredTable.{StoredTable as Stored};
ghost use Rattle.escrow_cells.specs.Step.{Contents, done, kept};
ghost use Rattle.escrow_rows.specs.Image.{stored};
ghost use Rattle.escrow_rows.specs.Inside.{on_cells, put_value, SetsCellOf};

use escrow_cells::{Datum, Step};
use std::alloc::AllocError;

/// Adds the step that sets the cell of a row at a place, from 0, to a new value, if there is one.
pub(crate) fn push_cell<'a>(
    steps: &mut Vec<Step<'a>>,
    table: i64,
    key: Datum<'a>,
    place: usize,
    value: Option<Datum<'a>>,
    hint: Option<i64>,
) -> Result<(), AllocError>
    requires { place < 2 ^ 63 - 1 }
    ensures puts { OnOk result ((c : Contents)
        → fold done c steps.new.items
        ≡ on_cells (put_value table (kept key.entry) (pos (place + 1)) (option_map kept value.entry))
        (fold done c steps.old.items)) }
    ensures sets { OnOk result ((s : Stored) (k : HeldValue) → table ≡ s.id → kept key.entry ≡ stored k
        → place < length s.table.columns
        → AllByRecursion (SetsCellOf s k) steps.old.items → AllByRecursion (SetsCellOf s k) steps.new.items) }
{
    if let Some(value) = value {
        steps.push(Step::SetCell {
            table,
            key,
            place: place as i64 + 1,
            value,
            hint,
        })?;
    }
    Ok(())
}
