//! New values of plain columns: those that are neither RESERVABLE nor the key.
ghost use Rattle.std.specs.Prelude.{◌≡◌, ◌==◌, ◌||◌, not, IfOk, is_some};
ghost use Rattle.std.specs.List.{list_all};
ghost use Rattle.std.specs.Option.{option_and_then};
ghost use Rattle.escrow_schema.specs.Assigned.{value_assigned, values_assigned};
ghost use Rattle.escrow_schema.specs.Fit.{plains};
ghost use Rattle.escrow_schema.specs.Plan.{are_replacements, assigned_to, has_column, is_literal, is_replacement, literal_in, new_value, new_values_of};
ghost use Rattle.escrow_schema.specs.Typed.{IsType, TypedColumns};

use super::assigned::{are_apart, literal_to};
use crate::column::Column;
use crate::literal::value_at;
use crate::table::TableDef;
use escrow_num::{Name, Value};
use escrow_statement::{Assign, Assigned};
use std::alloc::{AllocError, Global};

/// Returns whether each assignment replaces a plain value, and no two the same one.
pub(crate) fn are_replacements(table: &TableDef, assigns: &[Assign]) -> bool
    ensures { result ≡ are_replacements table.now assigns.now }
{
    are_apart(assigns) && all_replace(table, assigns)
}

/// Returns whether each assignment replaces a plain value.
fn all_replace(table: &TableDef, assigns: &[Assign]) -> bool
    ensures { result ≡ list_all (is_replacement table.now) assigns.now }
{
    assigns.iter().all(|assign| is_replacement(table, assign))
}

/// Returns whether an assignment sets a plain column to a literal.
fn is_replacement(table: &TableDef, assign: &Assign) -> bool
    ensures { result ≡ is_replacement table.now assign.now }
{
    has_plain(table.columns.as_slice(), table.key, assign.column) && is_literal(&assign.value)
}

/// Returns whether what is assigned is a literal.
fn is_literal(value: &Assigned) -> bool
    ensures { result ≡ is_literal value.now }
{
    matches!(value, Assigned::Literal(_))
}

/// Returns whether one of the columns has this name and is plain.
fn has_plain(columns: &[Column], key: usize, name: Name) -> bool
    ensures { result ≡ has_column (plains columns.now 0 key) name }
{
    for (i, column) in columns.iter().enumerate() {
        if is_plain(column, i, key) && column.name == name {
            return true;
        }
    }
    false
}

/// Returns whether a column at a place is plain.
fn is_plain(column: &Column, place: usize, key: usize) -> bool
    ensures { result ≡ not (column.now.reservable || place == key) }
{
    !(column.reservable || place == key)
}

/// Returns whether each literal that is assigned to a plain column fits its type.
pub(crate) fn all_fit(columns: &[Column], key: usize, assigns: &[Assign]) -> bool
    requires { TypedColumns columns.now }
    ensures { result ≡ is_some (new_values_of (plains columns.now 0 key) assigns.now) }
{
    for (i, column) in columns.iter().enumerate() {
        if is_plain(column, i, key) && !fits_assigned(column, assigns) {
            return false;
        }
    }
    true
}

/// Returns whether the literal that is assigned to a column, if one is, fits its type.
fn fits_assigned(column: &Column, assigns: &[Assign]) -> bool
    requires { IsType column.now.kind }
    ensures { result ≡ is_some
        (new_value column.now.kind (option_and_then literal_in (assigned_to assigns.now column.now.name))) }
{
    match literal_to(assigns, column.name) {
        Some(literal) => column.kind.fits(literal),
        None => true,
    }
}

/// Returns the value that is assigned to each plain column, or none, in column order.
pub(crate) fn new_values(
    alloc: Global,
    columns: &[Column],
    key: usize,
    assigns: &[Assign],
) -> Result<Vec<Option<Value>>, AllocError>
    ensures { IfOk result (λ values. values.items ≡ values_assigned (plains columns.now 0 key) assigns.now) }
{
    let mut values = Vec::new(alloc);
    for (i, column) in columns.iter().enumerate() {
        if is_plain(column, i, key) {
            values.push(new_value(alloc, column, assigns)?)?;
        }
    }
    Ok(values)
}

/// Returns the value that is assigned to a column, if a literal is assigned that is a value at the
/// column's scale.
fn new_value(
    alloc: Global,
    column: &Column,
    assigns: &[Assign],
) -> Result<Option<Value>, AllocError>
    ensures { IfOk result (λ value. value ≡ value_assigned assigns.now column.now) }
{
    match literal_to(assigns, column.name) {
        Some(literal) => value_at(alloc, column.scale(), literal),
        None => Ok(None),
    }
}
