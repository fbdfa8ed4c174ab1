//! What is assigned to which column.
ghost use Rattle.std.specs.Prelude.{◌≡◌, bytes_eq, find, map, option_copied};
ghost use Rattle.std.specs.List.{list_any};
ghost use Rattle.std.specs.Option.{option_and_then};
ghost use Rattle.escrow_schema.specs.Definition.{are_distinct};
ghost use Rattle.escrow_schema.specs.Plan.{assigned_to, change_in, literal_in};

use escrow_num::{Decimal, Name};
use escrow_statement::{Assign, Assigned, Literal};

/// Returns the change that is assigned to a column, in millionths, if there is one.
pub(crate) fn change_to(assigns: &[Assign], column: Name) -> Option<Decimal>
    ensures { result ≡ option_and_then change_in (assigned_to assigns.now column) }
{
    match &assign_of(assigns, column)?.value {
        Assigned::Change { change, .. } => Some(*change),
        Assigned::Literal(_) => None,
    }
}

/// Returns the literal that is assigned to a column, if there is one.
pub(crate) fn literal_to(assigns: &[Assign], column: Name) -> Option<&Literal>
    ensures { option_copied result ≡ option_and_then literal_in (assigned_to assigns.now column) }
{
    match &assign_of(assigns, column)?.value {
        Assigned::Literal(literal) => Some(literal),
        Assigned::Change { .. } => None,
    }
}

/// Returns the assignment of a column.
fn assign_of(assigns: &[Assign], column: Name) -> Option<&Assign>
    ensures { option_copied result ≡ find (λ assign. bytes_eq assign.column column) assigns.now }
{
    assigns.iter().find(|assign| assign.column == column)
}

/// Returns whether no two assignments assign the same column.
pub(crate) fn are_apart(assigns: &[Assign]) -> bool
    ensures { result ≡ are_distinct (map (λ assign. assign.column) assigns.now) }
{
    for (i, assign) in assigns.iter().enumerate() {
        if assigns_to(&assigns[i + 1..], assign.column) {
            return false;
        }
    }
    true
}

/// Returns whether one of the assignments assigns a column.
fn assigns_to(assigns: &[Assign], column: Name) -> bool
    ensures { result ≡ list_any (λ other. bytes_eq column other) (map (λ assign. assign.column) assigns.now) }
{
    assigns
        .iter()
        .map(|assign| assign.column)
        .any(|other| column == other)
}
