//! The rules that a table's columns and names must follow.
ghost use Rattle.std.specs.Prelude.{◌≡◌, ◌&&◌, IfOk, bytes_eq, length, position};
ghost use Rattle.std.specs.List.{list_any, list_all};
ghost use Rattle.escrow_checks.specs.WrittenName.{is_written_name};
ghost use Rattle.escrow_schema.specs.Column.{is_numeric, reservables, names_of, scales_of};
ghost use Rattle.escrow_schema.specs.Definition.{are_columns, are_distinct, check_names, is_plain_at, place_of_column};
ghost use Rattle.escrow_schema.specs.Print.{declared_checks};

use crate::column::Column;
use crate::table::TableDef;
use escrow_checks::{Check, Coefficients, is_written_name};
use escrow_num::{Name, Scale};
use std::alloc::{AllocError, Global};

/// Returns whether columns follow the rules. There are 2 to 30, with distinct names that a
/// statement can write. The key isn't RESERVABLE. 1 to 10 columns are RESERVABLE, and each of these
/// is of numbers.
pub(crate) fn are_columns(
    alloc: Global,
    columns: &[Column],
    reservable: &[Column],
    key: usize,
) -> Result<bool, AllocError>
    requires { reservable.now ≡ reservables columns.now }
    ensures { IfOk result (λ follow. follow ≡ are_columns columns.now key) }
{
    let names = names_of(alloc, columns)?;
    Ok(
        TableDef::MIN_COLUMNS <= columns.len()
            && columns.len() <= TableDef::MAX_COLUMNS
            && are_names(names.as_slice())
            && is_plain_at(columns, key)
            && 1 <= reservable.len()
            && reservable.len() <= Coefficients::MAX_LEN
            && are_numeric(reservable),
    )
}

/// Returns whether each column is of numbers.
fn are_numeric(columns: &[Column]) -> bool
    ensures { result ≡ list_all (λ column. is_numeric column.kind) columns.now }
{
    columns.iter().all(|column| column.kind.is_numeric())
}

/// Returns whether names are distinct, and a statement can write each.
fn are_names(names: &[Name]) -> bool
    ensures { result ≡ (are_distinct names.now && list_all is_written_name names.now) }
{
    are_distinct(names) && are_written(names)
}

/// Returns whether a statement can write each name.
fn are_written(names: &[Name]) -> bool
    ensures { result ≡ list_all is_written_name names.now }
{
    names.iter().all(|name| is_written_name(name))
}

/// Returns whether all names differ.
pub(crate) fn are_distinct(names: &[Name]) -> bool
    ensures { result ≡ are_distinct names.now }
{
    for (i, name) in names.iter().enumerate() {
        if is_among(name, &names[i + 1..]) {
            return false;
        }
    }
    true
}

/// Returns whether a name is among others.
fn is_among(name: &Name, others: &[Name]) -> bool
    ensures { result ≡ list_any (λ other. bytes_eq name.now other) others.now }
{
    others.iter().any(|other| *name == *other)
}

/// Returns the place of the column of a name.
pub(crate) fn place_of_column(columns: &[Column], name: &Name) -> Option<usize>
    ensures { result ≡ place_of_column columns.now name.now }
{
    columns.iter().position(|column| column.name == *name)
}

/// Returns whether the column at a place isn't RESERVABLE.
fn is_plain_at(columns: &[Column], place: usize) -> bool
    ensures { result ≡ is_plain_at columns.now place }
{
    match columns.get(place) {
        Some(column) => !column.reservable,
        None => false,
    }
}

/// Returns the RESERVABLE columns, in order. Fails only if memory is refused.
pub fn reservables(alloc: Global, columns: &[Column]) -> Result<Vec<Column>, AllocError>
    ensures { IfOk result (λ chosen. chosen.items ≡ reservables columns.now) }
{
    columns
        .iter()
        .copied()
        .filter(|column| column.reservable)
        .collect(alloc)
}

/// Returns how many columns are RESERVABLE. Takes no memory.
fn count_reservable(columns: &[Column]) -> usize
    ensures { result ≡ length (reservables columns.now) }
{
    columns.iter().filter(|column| column.reservable).count()
}

/// Returns the declared checks of a table, in order: those before the ranges. Takes no memory.
pub(crate) fn declared_checks(table: &TableDef) -> &[Check]
    ensures { result.now ≡ declared_checks table.now }
{
    let ranges = count_reservable(table.columns.as_slice());
    let checks = table.checks.as_slice();
    &checks[..checks.len().saturating_sub(ranges)]
}

/// Returns the names of columns, in order. Fails only if memory is refused.
pub fn names_of(alloc: Global, columns: &[Column]) -> Result<Vec<Name>, AllocError>
    ensures { IfOk result (λ names. names.items ≡ names_of columns.now) }
{
    columns.iter().map(|column| column.name).collect(alloc)
}

/// Returns the names of the RESERVABLE columns, in order. Fails only if memory is refused.
pub fn reservable_names(alloc: Global, columns: &[Column]) -> Result<Vec<Name>, AllocError>
    ensures { IfOk result (λ names. names.items ≡ names_of (reservables columns.now)) }
{
    columns
        .iter()
        .filter(|column| column.reservable)
        .map(|column| column.name)
        .collect(alloc)
}

/// Returns the scales of columns, in order. Fails only if memory is refused.
pub fn scales_of(alloc: Global, columns: &[Column]) -> Result<Vec<Scale>, AllocError>
    ensures { IfOk result (λ scales. scales.items ≡ scales_of columns.now) }
{
    columns.iter().map(|column| column.scale()).collect(alloc)
}

/// Returns the scales of the RESERVABLE columns, in order. Fails only if memory is refused.
pub fn reservable_scales(alloc: Global, columns: &[Column]) -> Result<Vec<Scale>, AllocError>
    ensures { IfOk result (λ scales. scales.items ≡ scales_of (reservables columns.now)) }
{
    columns
        .iter()
        .filter(|column| column.reservable)
        .map(|column| column.scale())
        .collect(alloc)
}

/// Returns the names of checks, in order.
pub(crate) fn check_names(alloc: Global, checks: &[Check]) -> Result<Vec<Name>, AllocError>
    ensures { IfOk result (λ names. names.items ≡ check_names checks.now) }
{
    checks.iter().map(|check| check.name).collect(alloc)
}
