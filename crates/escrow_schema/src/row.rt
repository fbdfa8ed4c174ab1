//! From values to a row.
ghost use Rattle.std.specs.Prelude.{◌≡◌, ◌↔◌, ◌++◌, ◌||◌, ◌==◌, ◌<◌, [], ◌∷◌, None, Some, Ok, IfOk, IfSome, IsTrue, OnOk, length, if◌then◌else◌};
ghost use Rattle.escrow_schema.specs.Definition.{IsTable};
ghost use Rattle.escrow_schema.specs.Fit.{FitColumns, IsRowOf, amounts_of, number_in, plain_of, row_with};
ghost use Rattle.escrow_schema.specs.Typed.{TypedColumns};

use crate::column::Column;
use crate::table::TableDef;
use escrow_num::{Amount, Row, RowName, Seq, Value};
use std::alloc::{AllocError, Global};

/// Returns the row of values, one for each column in column order. Returns `None` if one doesn't
/// fit its column's type, or if there aren't as many as columns.
pub fn row_of(alloc: Global, table: &TableDef, values: &[Value]) -> Result<Option<Row>, AllocError>
    requires { IsTable table.now }
    ensures some { IfOk result
        (λ found. IfSome found (λ row. (row_with table.now values.now ≡ Some row)
        × FitColumns table.now.columns values.now × IsRowOf table.now row)) }
    ensures none { result ≡ Ok None → ¬ FitColumns table.now.columns values.now }
{
    if !fit_columns(table.typed_columns(), values) {
        return Ok(None);
    }
    let row = row_with(alloc, table, values)?;
    Ok(Some(row))
}

/// Returns whether there are as many values as columns, and each fits its column's type.
fn fit_columns(columns: &[Column], values: &[Value]) -> bool
    requires { TypedColumns columns.now }
    ensures { IsTrue result ↔ FitColumns columns.now values.now }
{
    if columns.len() != values.len() {
        return false;
    }
    for (i, column) in columns.iter().enumerate() {
        if !column.kind.holds(&values[i]) {
            return false;
        }
    }
    true
}

/// Returns the row of values that fit the table.
pub(crate) fn row_with(alloc: Global, table: &TableDef, values: &[Value]) -> Result<Row, AllocError>
    requires as_many { length table.now.columns ≡ length values.now }
    requires key { table.now.key < length values.now }
    ensures { IfOk result (λ row. row_with table.now values.now ≡ Some row) }
{
    let columns = table.columns.as_slice();
    Ok(Row {
        name: RowName {
            table: table.name,
            key: values[table.key].copy(alloc)?,
        },
        amounts: Seq::from_vec(amounts_of(alloc, columns, values)?),
        plain: Seq::from_vec(plain_of(alloc, columns, values, table.key)?),
    })
}

/// Returns the amounts of the RESERVABLE columns, in column order.
fn amounts_of(
    alloc: Global,
    columns: &[Column],
    values: &[Value],
) -> Result<Vec<Amount>, AllocError>
    requires { length columns.now ≡ length values.now }
    ensures { IfOk result (λ amounts. amounts.items ≡ amounts_of columns.now values.now) }
{
    let mut amounts = Vec::new(alloc);
    for (i, column) in columns.iter().enumerate() {
        push_amount(&mut amounts, column, &values[i])?;
    }
    Ok(amounts)
}

/// Adds the amount of a RESERVABLE column.
fn push_amount(amounts: &mut Vec<Amount>, column: &Column, value: &Value) -> Result<(), AllocError>
    ensures { OnOk result (amounts.new.items ≡ amounts.old.items
        ++ (if column.now.reservable then number_in value.now ∷ [] else [])) }
{
    if column.reservable {
        amounts.push(number_in(value))?;
    }
    Ok(())
}

/// Returns a value's number. A text has zero, but no RESERVABLE column holds one.
fn number_in(value: &Value) -> Amount
    ensures { result ≡ number_in value.now }
{
    match value {
        Value::Number(amount) => *amount,
        Value::Text(_) => Amount::new(0).unwrap(),
    }
}

/// Returns the values of the columns that are neither RESERVABLE nor the key, in column order.
fn plain_of(
    alloc: Global,
    columns: &[Column],
    values: &[Value],
    key: usize,
) -> Result<Vec<Value>, AllocError>
    requires { length columns.now ≡ length values.now }
    ensures { IfOk result (λ plain. plain.items ≡ plain_of columns.now values.now 0 key) }
{
    let mut plain = Vec::new(alloc);
    for (i, column) in columns.iter().enumerate() {
        push_plain(alloc, &mut plain, column, &values[i], i == key)?;
    }
    Ok(plain)
}

/// Adds the value of a column that is neither RESERVABLE nor the key.
fn push_plain(
    alloc: Global,
    plain: &mut Vec<Value>,
    column: &Column,
    value: &Value,
    is_key: bool,
) -> Result<(), AllocError>
    ensures { OnOk result (plain.new.items ≡ plain.old.items
        ++ (if column.now.reservable || is_key then [] else value.now ∷ [])) }
{
    if column.reservable || is_key {
        return Ok(());
    }
    plain.push(value.copy(alloc)?)?;
    Ok(())
}
