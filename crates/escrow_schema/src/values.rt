//! From a row to its values.
ghost use Rattle.std.specs.Prelude.{◌≡◌, ◌++◌, IfOk, OnOk, drop, map, take};
ghost use Rattle.escrow_num.specs.declared.value.Value.TheVariants as value;
ghost use Rattle.escrow_schema.specs.Fit.{values_of};

use crate::table::TableDef;
use escrow_num::{Row, Seq, Value};
use std::alloc::{AllocError, Global};

/// Returns copies of the values of a row of a table, in column order. Fails only if memory is
/// refused.
pub fn values_of(alloc: Global, table: &TableDef, row: &Row) -> Result<Seq<Value>, AllocError>
    ensures { IfOk result (λ values. values ≡ values_of table.now row.now) }
{
    let mut values = Vec::new(alloc);
    let mut amounts = 0;
    let mut plain = 0;
    for (i, column) in table.columns.as_slice().iter().enumerate() {
        if column.reservable {
            push_amount(&mut values, row, amounts)?;
            amounts += 1;
        } else if i == table.key {
            values.push(row.name.key.copy(alloc)?)?;
        } else {
            push_plain(alloc, &mut values, row, plain)?;
            plain += 1;
        }
    }
    Ok(Seq::from_vec(values))
}

/// Adds the amount at a place, if there is one.
fn push_amount(values: &mut Vec<Value>, row: &Row, place: usize) -> Result<(), AllocError>
    ensures { OnOk result (values.new.items ≡ values.old.items
        ++ map value.Number (take 1 (drop place row.now.amounts))) }
{
    if let Some(amount) = row.amounts.get(place) {
        values.push(Value::Number(*amount))?;
    }
    Ok(())
}

/// Adds the plain value at a place, if there is one.
fn push_plain(
    alloc: Global,
    values: &mut Vec<Value>,
    row: &Row,
    place: usize,
) -> Result<(), AllocError>
    ensures { OnOk result (values.new.items ≡ values.old.items ++ take 1 (drop place row.now.plain)) }
{
    if let Some(value) = row.plain.get(place) {
        values.push(value.copy(alloc)?)?;
    }
    Ok(())
}
