ghost use Rattle.std.specs.Prelude.{◌≡◌, ◌++◌, ◌≤◌, ◌⊎◌, None, Some, IfOk, IfErr, IsErr, IsErrOf, length, map};
ghost use Rattle.escrow_checks.specs.Checks.{checks_behind, checks_of};
ghost use Rattle.escrow_checks.specs.declared.condition.TheConstants.{MAX_CHECKS};
ghost use Rattle.escrow_schema.specs.Column.{reservables, names_of, scales_of};
ghost use Rattle.escrow_schema.specs.Definition.{checks_in, definition_of, key_place, range_check, table_of, table_with};
ghost use Rattle.escrow_schema.specs.Typed.{CanRange, TypedColumns};

use crate::column::Column;
use crate::items::{checks_in, columns_of, key_name};
use crate::ranges::push_ranges;
use crate::rules::{
    are_columns, are_distinct, check_names, names_of, place_of_column, reservables, scales_of,
};
use crate::table::TableDef;
use escrow_checks::{Check, CheckFault, is_written_name, normalise_behind};
use escrow_num::{Name, Refusal, Seq};
use escrow_statement::{CheckText, CreateText, Item};
use std::alloc::{AllocError, Global};

/// Returns the table that a text defines. Fails with a bad definition only if the text breaks a
/// rule of definitions, and then no table follows from it. Reading a text takes memory.
pub fn define(alloc: Global, text: &CreateText) -> Result<TableDef, Refusal>
    ensures ok { IfOk result (λ table. definition_of text.now ≡ Some table) }
    ensures bad { IsErrOf result Refusal.BadDefinition → definition_of text.now ≡ None }
    ensures broken { definition_of text.now ≡ None → IsErr result }
    ensures only { IfErr result (λ e. (e ≡ Refusal.BadDefinition) ⊎ (e ≡ Refusal.Memory)) }
{
    match definition_of(alloc, text)? {
        Some(table) => Ok(table),
        None => Err(Refusal::BadDefinition),
    }
}

/// Returns the table that a text defines, or `None` if it breaks a rule.
fn definition_of(alloc: Global, text: &CreateText) -> Result<Option<TableDef>, AllocError>
    ensures { IfOk result (λ table. table ≡ definition_of text.now) }
{
    let items = text.items.as_slice();
    let Some(columns) = columns_of(alloc, items)? else {
        return Ok(None);
    };
    match key_place(items, columns.as_slice()) {
        Some(key) => table_of(alloc, text, columns, key),
        None => Ok(None),
    }
}

/// Returns the place of the key column. One column must be written as key, once.
fn key_place(items: &[Item], columns: &[Column]) -> Option<usize>
    ensures { result ≡ key_place items.now columns.now }
{
    place_of_column(columns, &key_name(items)?)
}

/// Returns the table with these columns and this key, or `None` if its name, the columns or the
/// CHECKs break a rule.
fn table_of(
    alloc: Global,
    text: &CreateText,
    columns: Seq<Column>,
    key: usize,
) -> Result<Option<TableDef>, AllocError>
    requires { TypedColumns columns }
    ensures { IfOk result (λ table. table ≡ table_of text.now columns key) }
{
    if !is_written_name(&text.table) {
        return Ok(None);
    }
    let reservable = reservables(alloc, columns.as_slice())?;
    if !are_columns(alloc, columns.as_slice(), reservable.as_slice(), key)? {
        return Ok(None);
    }
    match declared_checks(alloc, text.items.as_slice(), reservable.as_slice())? {
        Some(written) => table_with(
            alloc,
            text.table,
            columns,
            reservable.as_slice(),
            key,
            written,
        ),
        None => Ok(None),
    }
}

/// Returns the checks that items declare, or `None` if one breaks a rule.
fn declared_checks(
    alloc: Global,
    items: &[Item],
    columns: &[Column],
) -> Result<Option<Seq<Check>>, AllocError>
    requires { CanRange columns.now }
    ensures { IfOk result (λ checks.
        checks ≡ checks_of (names_of columns.now) (scales_of columns.now) (checks_in items.now)) }
{
    let texts = checks_in(alloc, items)?;
    checks_behind(alloc, &[], texts.as_slice(), columns)
}

/// Returns the declared checks, and after them those of further CHECKs, or `None` if one breaks a
/// rule.
pub(crate) fn checks_behind(
    alloc: Global,
    declared: &[Check],
    texts: &[&CheckText],
    columns: &[Column],
) -> Result<Option<Seq<Check>>, AllocError>
    requires declared { length declared.now ≤ MAX_CHECKS }
    requires range { CanRange columns.now }
    ensures { IfOk result (λ checks.
        checks ≡ checks_behind (names_of columns.now) (scales_of columns.now) declared.now
        (map (λ text. text.now) texts.now)) }
{
    let names = names_of(alloc, columns)?;
    let scales = scales_of(alloc, columns)?;
    match normalise_behind(alloc, declared, texts, names.as_slice(), scales.as_slice()) {
        Ok(checks) => Ok(Some(checks)),
        Err(CheckFault::Definition) => Ok(None),
        Err(CheckFault::Memory) => Err(AllocError),
    }
}

/// Returns the table with these columns, this key and these declared checks, or `None` if two of
/// all its checks have the same name.
pub(crate) fn table_with(
    alloc: Global,
    name: Name,
    columns: Seq<Column>,
    reservable: &[Column],
    key: usize,
    written: Seq<Check>,
) -> Result<Option<TableDef>, AllocError>
    requires range { CanRange reservable.now }
    requires reservable { reservable.now ≡ reservables columns }
    ensures { IfOk result (λ table. table ≡ table_with name columns key written) }
{
    let checks = with_ranges(alloc, written, reservable)?;
    let names = check_names(alloc, checks.as_slice())?;
    if !are_distinct(names.as_slice()) {
        return Ok(None);
    }
    Ok(Some(TableDef {
        name,
        columns,
        key,
        checks,
    }))
}

/// Returns the declared checks, and after them the range of each RESERVABLE column.
fn with_ranges(
    alloc: Global,
    written: Seq<Check>,
    columns: &[Column],
) -> Result<Seq<Check>, AllocError>
    requires { CanRange columns.now }
    ensures { IfOk result (λ checks. checks ≡ written ++ map (range_check (names_of columns.now)) columns.now) }
{
    let mut checks = written.into_vec();
    push_ranges(alloc, &mut checks, columns)?;
    Ok(Seq::from_vec(checks))
}
