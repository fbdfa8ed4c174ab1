ghost use Rattle.std.specs.Prelude.{◌≡◌, ◌↔◌, ◌++◌, ◌⊎◌, None, Some, IfOk, IfErr, IsErrOf, IsSome, OnOk, is_some, option_and_then, option_copied, option_to_list};
ghost use Rattle.escrow_schema.specs.Asked.{asked_value, asked_values, is_list, literal_for, values_at};
ghost use Rattle.escrow_schema.specs.Column.{scale_of, value_at};
ghost use Rattle.escrow_schema.specs.Definition.{IsTable};
ghost use Rattle.escrow_schema.specs.Fit.{inserted_row, literal_beside};
ghost use Rattle.escrow_schema.specs.Typed.{IsType, TypedColumns};

use crate::column::Column;
use crate::literal::value_at;
use crate::row::row_with;
use crate::rules::are_distinct;
use crate::table::TableDef;
use escrow_num::{Name, Refusal, Row, Value};
use escrow_statement::{InsertText, Literal};
use std::alloc::{AllocError, Global};

/// Returns the row that an INSERT makes. Takes memory only if there is a row.
///
/// Fails with a bad value exactly if one of these applies:
///
/// - A column list doesn't name each column of the table once.
/// - The number of literals isn't that of the columns.
/// - A literal doesn't fit its column's type.
pub fn fit_row(alloc: Global, table: &TableDef, text: &InsertText) -> Result<Row, Refusal>
    requires { IsTable table.now }
    ensures ok { IfOk result (λ row. inserted_row table.now text.now ≡ Some row) }
    ensures bad { IsErrOf result Refusal.BadValue ↔ (inserted_row table.now text.now ≡ None) }
    ensures memory { IsErrOf result Refusal.Memory → IsSome (inserted_row table.now text.now) }
    ensures only { IfErr result (λ e. (e ≡ Refusal.BadValue) ⊎ (e ≡ Refusal.Memory)) }
{
    if !all_fit(table.typed_columns(), text) {
        return Err(Refusal::BadValue);
    }
    match make_row(alloc, table, text) {
        Ok(row) => Ok(row),
        Err(_) => Err(Refusal::Memory),
    }
}

/// Returns whether each column has a literal that fits its type, with no literal left over.
fn all_fit(columns: &[Column], text: &InsertText) -> bool
    requires { TypedColumns columns.now }
    ensures { result ≡ is_some (asked_values columns.now text.now) }
{
    is_list(columns, text) && each_fits(columns, text)
}

/// Returns whether there are as many literals as columns and, if columns are named, as many
/// distinct names.
fn is_list(columns: &[Column], text: &InsertText) -> bool
    ensures { result ≡ is_list columns.now text.now.columns text.now.values }
{
    match &text.columns {
        None => columns.len() == text.values.len(),
        Some(names) => {
            are_distinct(names.as_slice())
                && names.len() == columns.len()
                && names.len() == text.values.len()
        }
    }
}

/// Returns whether each column has a literal that fits its type.
fn each_fits(columns: &[Column], text: &InsertText) -> bool
    requires { TypedColumns columns.now }
    ensures { result ≡ is_some (values_at text.now.columns text.now.values 0 columns.now) }
{
    for (i, column) in columns.iter().enumerate() {
        if !has_value(column, i, text) {
            return false;
        }
    }
    true
}

/// Returns whether the column at a place has a literal that fits its type.
fn has_value(column: &Column, place: usize, text: &InsertText) -> bool
    requires { IsType column.now.kind }
    ensures { result ≡ is_some (asked_value text.now.columns text.now.values place column.now) }
{
    match literal_for(text, place, &column.name) {
        Some(literal) => column.kind.fits(literal),
        None => false,
    }
}

/// Returns the literal of the column that has a name and a place.
fn literal_for<'a>(text: &'a InsertText, place: usize, name: &Name) -> Option<&'a Literal>
    ensures { option_copied result ≡ literal_for text.now.columns text.now.values place name.now }
{
    match &text.columns {
        None => text.values.get(place),
        Some(names) => literal_beside(names.as_slice(), text.values.as_slice(), name),
    }
}

/// Returns the literal beside a name.
fn literal_beside<'a>(names: &[Name], literals: &'a [Literal], name: &Name) -> Option<&'a Literal>
    ensures { option_copied result ≡ literal_beside names.now literals.now name.now }
{
    for (i, other) in names.iter().enumerate() {
        if *other == *name {
            return literals.get(i);
        }
    }
    None
}

/// Returns the row of an INSERT whose literals fit the table.
fn make_row(alloc: Global, table: &TableDef, text: &InsertText) -> Result<Row, AllocError>
    requires table { IsTable table.now }
    requires fit { IsSome (asked_values table.now.columns text.now) }
    ensures { IfOk result (λ row. inserted_row table.now text.now ≡ Some row) }
{
    let values = values_at(alloc, table.typed_columns(), text)?;
    row_with(alloc, table, values.as_slice())
}

/// Returns the values of columns, each of which has a literal that fits.
fn values_at(alloc: Global, columns: &[Column], text: &InsertText) -> Result<Vec<Value>, AllocError>
    requires { IsSome (values_at text.now.columns text.now.values 0 columns.now) }
    ensures { IfOk result (λ values. values_at text.now.columns text.now.values 0 columns.now ≡ Some values.items) }
{
    let mut values = Vec::new(alloc);
    for (i, column) in columns.iter().enumerate() {
        push_value(alloc, &mut values, column, i, text)?;
    }
    Ok(values)
}

/// Adds the value of the column at a place, if it has a literal that is a value at the column's
/// scale.
fn push_value(
    alloc: Global,
    values: &mut Vec<Value>,
    column: &Column,
    place: usize,
    text: &InsertText,
) -> Result<(), AllocError>
    ensures { OnOk result (values.new.items ≡ values.old.items
        ++ option_to_list (option_and_then (value_at (scale_of column.now.kind))
        (literal_for text.now.columns text.now.values place column.now.name))) }
{
    if let Some(literal) = literal_for(text, place, &column.name) {
        if let Some(value) = value_at(alloc, column.scale(), literal)? {
            values.push(value)?;
        }
    }
    Ok(())
}
