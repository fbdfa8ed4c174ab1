//! Changes of RESERVABLE columns.
ghost use Rattle.std.specs.Prelude.{◌≡◌, ◌&&◌, IfErr, IfOk, IfSome, Some, bytes_eq, false, is_some, length, nat_le};
ghost use Rattle.std.specs.List.{list_any, list_all};
ghost use Rattle.std.specs.Option.{option_and_then};
ghost use Rattle.escrow_schema.specs.Assigned.{IsChangesFault};
ghost use Rattle.escrow_schema.specs.Column.{scale_of};
ghost use Rattle.escrow_schema.specs.Plan.{are_changes, assigned_to, change_at, change_in, changes_of, is_change, is_itself};

use super::assigned::{are_apart, change_to};
use crate::column::Column;
use escrow_num::{Amount, Changes, Name, Refusal};
use escrow_statement::{Assign, Assigned};
use std::alloc::{AllocError, Global};

/// Returns whether each assignment changes a RESERVABLE column, and no two the same one.
pub(crate) fn are_changes(columns: &[Column], assigns: &[Assign]) -> bool
    ensures { result ≡ are_changes columns.now assigns.now }
{
    are_apart(assigns) && all_change(columns, assigns)
}

/// Returns whether each assignment changes a RESERVABLE column.
fn all_change(columns: &[Column], assigns: &[Assign]) -> bool
    ensures { result ≡ list_all (is_change columns.now) assigns.now }
{
    assigns.iter().all(|assign| is_change(columns, assign))
}

/// Returns whether an assignment sets a RESERVABLE column to itself plus or minus a number.
fn is_change(columns: &[Column], assign: &Assign) -> bool
    ensures { result ≡ is_change columns.now assign.now }
{
    has_reservable(columns, assign.column) && is_itself(assign.column, &assign.value)
}

/// Returns whether one of the columns has this name and is RESERVABLE.
fn has_reservable(columns: &[Column], name: Name) -> bool
    ensures { result ≡ list_any (λ column. column.reservable && bytes_eq column.name name) columns.now }
{
    columns
        .iter()
        .any(|column| column.reservable && column.name == name)
}

/// Returns whether the value assigned to a column is the column itself plus or minus a number.
fn is_itself(column: Name, value: &Assigned) -> bool
    ensures { result ≡ is_itself column value.now }
{
    match value {
        Assigned::Change { source, .. } => column == *source,
        Assigned::Literal(_) => false,
    }
}

/// Returns the change of each RESERVABLE column, in units of its scale and in column order, or
/// `None` if the column isn't assigned. Fails with a bad value if a change isn't a whole number of
/// units, or if these are no amount. Fails for memory only if every change is good, and there are
/// more than 4.
pub(crate) fn whole_changes(
    alloc: Global,
    columns: &[Column],
    assigns: &[Assign],
) -> Result<Changes, Refusal>
    ensures made { IfOk result (λ changes. changes_of columns.now assigns.now ≡ Some changes) }
    ensures refused { IfErr result (IsChangesFault columns.now assigns.now) }
{
    match changes_of(alloc, columns, assigns) {
        Ok(Some(changes)) => Ok(changes),
        Ok(None) => Err(Refusal::BadValue),
        Err(_) if are_whole(columns, assigns) => Err(Refusal::Memory),
        Err(_) => Err(Refusal::BadValue),
    }
}

/// Returns the change of each RESERVABLE column, or `None` if one isn't a whole number of its
/// column's units, or these are no amount. Up to 4 changes take no memory.
fn changes_of(
    alloc: Global,
    columns: &[Column],
    assigns: &[Assign],
) -> Result<Option<Changes>, AllocError>
    ensures changes { IfOk result (λ changes. changes ≡ changes_of columns.now assigns.now) }
    ensures many { IfErr result
        (λ _. IfSome (changes_of columns.now assigns.now)
        (λ changes. nat_le (length changes) Changes.IN_PLACE ≡ false)) }
{
    let mut changes = Changes::new(alloc);
    for column in columns {
        if column.reservable {
            let Some(change) = change_of(column, assigns) else {
                return Ok(None);
            };
            changes.push(change)?;
        }
    }
    Ok(Some(changes))
}

/// Returns whether each change that is assigned to a RESERVABLE column is a whole number of the
/// column's units, and these are an amount. Takes no memory.
fn are_whole(columns: &[Column], assigns: &[Assign]) -> bool
    ensures { result ≡ is_some (changes_of columns.now assigns.now) }
{
    for column in columns {
        if column.reservable && change_of(column, assigns).is_none() {
            return false;
        }
    }
    true
}

/// Returns the change of a column, in units of its scale, or `Some(None)` if no change is assigned
/// to it. Returns `None` if the change isn't a whole number of units, or these are no amount.
fn change_of(column: &Column, assigns: &[Assign]) -> Option<Option<Amount>>
    ensures { result ≡ change_at (scale_of column.now.kind)
        (option_and_then change_in (assigned_to assigns.now column.now.name)) }
{
    match change_to(assigns, column.name) {
        Some(change) => Some(Some(change.at_scale(column.scale().get())?)),
        None => Some(None),
    }
}
