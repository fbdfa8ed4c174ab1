//! The canonical text of a table: a CREATE TABLE that is read back as the same table.
ghost use Rattle.std.specs.Prelude.{◌≡◌, ◌++◌, ◌==◌, [], IfOk, OnOk, codes, decimal, if◌then◌else◌, map, string_bytes, true};
ghost use Rattle.std.specs.List.{flat_map};
ghost use Rattle.escrow_statement.specs.Joined.{joined};
ghost use Rattle.escrow_schema.specs.Definition.{IsTable};
ghost use Rattle.escrow_schema.specs.Print.{canonical, check_words, column_words, columns_words, condition_words, declared_checks, marks_words, scale_words, table_words, type_words};

mod words;

use crate::column::{Column, ColumnType};
use crate::print::words::{push, push_form, push_limits, push_named, push_number};
use crate::rules::{declared_checks, reservable_names, reservable_scales};
use crate::table::TableDef;
use escrow_checks::Check;
use escrow_num::{Name, Scale, Text};
use std::alloc::{AllocError, Global};

/// Returns the canonical text of a table: its columns in order, each with its type and its mark,
/// then its declared checks under their names. It is a CREATE TABLE that defines the same table.
pub fn print_table(alloc: Global, table: &TableDef) -> Result<Text, AllocError>
    requires { IsTable table.now }
    ensures text { IfOk result (λ text. text ≡ canonical table.now) }
{
    let mut text = String::new(alloc);
    push_table(alloc, &mut text, table)?;
    Ok(Text::from_string(text))
}

/// Adds the whole text.
fn push_table(alloc: Global, text: &mut String, table: &TableDef) -> Result<(), AllocError>
    requires { IsTable table.now }
    ensures { OnOk result (string_bytes text.new ≡ string_bytes text.old ++ canonical table.now) }
{
    let names = reservable_names(alloc, table.columns.as_slice())?;
    let scales = reservable_scales(alloc, table.columns.as_slice())?;
    push_named(text, "CREATE TABLE ", &table.name)?;
    push(text, " (")?;
    push_items(alloc, text, table, names.as_slice(), scales.as_slice())?;
    push(text, ")")
}

/// Adds the columns, and after them the declared checks, which are over the columns of these names
/// and scales.
fn push_items(
    alloc: Global,
    text: &mut String,
    table: &TableDef,
    names: &[Name],
    scales: &[Scale],
) -> Result<(), AllocError>
    requires { IsTable table.now }
    ensures { OnOk result (string_bytes text.new ≡ string_bytes text.old
        ++ joined (columns_words table.now.columns 0 table.now.key
        ++ map (check_words names.now scales.now) (declared_checks table.now))) }
{
    push_columns(alloc, text, table.columns.as_slice(), table.key)?;
    push_checks(alloc, text, names, scales, declared_checks(table))
}

/// Adds columns. `key` is the place of the key.
fn push_columns(
    alloc: Global,
    text: &mut String,
    columns: &[Column],
    key: usize,
) -> Result<(), AllocError>
    ensures { OnOk result (string_bytes text.new ≡ string_bytes text.old ++ joined (columns_words columns.now 0 key)) }
{
    for (place, column) in columns.iter().enumerate() {
        push_separator(text, place)?;
        push_column(alloc, text, column, place == key)?;
    }
    Ok(())
}

/// Adds the separator before the item at a place. The first item has none.
fn push_separator(text: &mut String, place: usize) -> Result<(), AllocError>
    ensures { OnOk result (string_bytes text.new ≡ string_bytes text.old ++ (if place == 0 then [] else codes ", ")) }
{
    push(text, if place == 0 { "" } else { ", " })
}

/// Adds a column: its name, its type, its mark.
fn push_column(
    alloc: Global,
    text: &mut String,
    column: &Column,
    is_key: bool,
) -> Result<(), AllocError>
    ensures { OnOk result (string_bytes text.new ≡ string_bytes text.old ++ column_words is_key column.now) }
{
    push(text, column.name.as_str())?;
    push(text, " ")?;
    push_type(alloc, text, &column.kind)?;
    push(text, mark_of(is_key, column.reservable))
}

/// Adds a type.
fn push_type(alloc: Global, text: &mut String, kind: &ColumnType) -> Result<(), AllocError>
    ensures { OnOk result (string_bytes text.new ≡ string_bytes text.old ++ type_words kind.now) }
{
    match kind {
        ColumnType::Number { digits, scale } => {
            push(text, "NUMBER(")?;
            push_number(alloc, text, u64::from(*digits))?;
            push_scale(alloc, text, *scale)?;
        }
        ColumnType::Varchar2 { bytes } => {
            push(text, "VARCHAR2(")?;
            push_number(alloc, text, u64::from(*bytes))?;
        }
    }
    push(text, ")")
}

/// Adds a scale after a precision, or nothing if the scale is 0.
fn push_scale(alloc: Global, text: &mut String, scale: Scale) -> Result<(), AllocError>
    ensures { OnOk result (string_bytes text.new ≡ string_bytes text.old ++ scale_words scale) }
{
    if scale.get() == 0 {
        return Ok(());
    }
    push(text, ",")?;
    push_number(alloc, text, u64::from(scale.get()))
}

/// Returns the mark of the key, or of a RESERVABLE column, after a space.
#[tactic(auto, unfolding(crate::specs::Print::marks_words))]
fn mark_of(is_key: bool, reservable: bool) -> &'static str
    ensures { result.now ≡ marks_words is_key reservable }
{
    if is_key {
        " PRIMARY KEY"
    } else if reservable {
        " RESERVABLE"
    } else {
        ""
    }
}

/// Adds the checks over the RESERVABLE columns of these names and scales, after what is there.
fn push_checks(
    alloc: Global,
    text: &mut String,
    names: &[Name],
    scales: &[Scale],
    checks: &[Check],
) -> Result<(), AllocError>
    ensures { OnOk result (string_bytes text.new ≡ string_bytes text.old
        ++ flat_map (λ words. codes ", " ++ words) (map (check_words names.now scales.now) checks.now)) }
{
    for check in checks {
        push(text, ", ")?;
        push_check(alloc, text, names, scales, check)?;
    }
    Ok(())
}

/// Adds a check: its name, its form, its limits.
fn push_check(
    alloc: Global,
    text: &mut String,
    names: &[Name],
    scales: &[Scale],
    check: &Check,
) -> Result<(), AllocError>
    ensures { OnOk result (string_bytes text.new ≡ string_bytes text.old
        ++ check_words names.now scales.now check.now) }
{
    push_named(text, "CONSTRAINT ", &check.name)?;
    push(text, " CHECK (")?;
    push_condition(alloc, text, names, scales, check)?;
    push(text, ")")
}

/// Adds the condition of a check: its form, with the coefficients as written, and its limits.
fn push_condition(
    alloc: Global,
    text: &mut String,
    names: &[Name],
    scales: &[Scale],
    check: &Check,
) -> Result<(), AllocError>
    ensures { OnOk result (string_bytes text.new ≡ string_bytes text.old
        ++ condition_words names.now scales.now check.now) }
{
    let written = check.written(scales);
    push_form(alloc, text, names, written.as_slice())?;
    push_limits(text, check.scale, &check.span)
}
