ghost use Rattle.std.specs.Prelude.{◌≡◌, ◌≤◌, ◌+◌, ◌&&◌, if◌then◌else◌, length, map, List, Option, Some, None, IfOk, IsErr, IsErrOf, OnOk, bytes_eq};
ghost use Rattle.std.specs.List.{list_all, list_any, flat_map};
ghost use Rattle.escrow_checks.specs.declared.check.Check.{Check};
ghost use Rattle.escrow_checks.specs.Checks.{check_name, check_of, checks_behind, checks_of, checks_of_conditions, columns_in, names_columns};
ghost use Rattle.escrow_checks.specs.Found.{found, followed_by, few};
ghost use Rattle.escrow_checks.specs.Meaning.{MeanTheSame};

mod limits;
mod names;
mod parts;
pub(crate) mod sums;

use crate::check::Check;
use crate::coefficients::Coefficients;
use crate::fault::CheckFault;
use escrow_num::{Name, Scale, Seq, copy_all};
use escrow_statement::{CheckText, Condition, Term};
use limits::limits_of;
pub use names::is_written_name;
use names::name_of;
use std::alloc::Global;
use sums::right_of;

/// The most checks that a table declares.
pub const MAX_CHECKS: usize = 32;

/// The greatest magnitude of a coefficient of a declared check, as written.
pub const MAX_COEFFICIENT: i64 = 1_000_000;

/// Returns the checks of a table's CHECKs, in order: one for each condition. The RESERVABLE columns
/// have these names, and beside them these scales.
///
/// A check is in units of its scale, the largest among the columns that have a coefficient other
/// than zero in it. `<` and `>` move its limit by one such unit. The first check of a CHECK with a
/// name has this name, and the k-th has the name and `_k`. A check of a CHECK without a name is
/// called `CHECK_` and its place in the table.
///
/// Fails with [`CheckFault::Definition`] if there are more than [`MAX_CHECKS`], or if a condition
/// breaks a rule:
///
/// - It names a column that isn't one of these.
/// - A coefficient is past [`MAX_COEFFICIENT`], or all are zero.
/// - A limit isn't a whole number of units (none is rounded), or has more than 15 digits, after it
///   was moved.
/// - The low limit is greater than the high one.
/// - No statement can write its name.
pub fn normalise(
    alloc: Global,
    texts: &[&CheckText],
    columns: &[Name],
    scales: &[Scale],
) -> Result<Seq<Check>, CheckFault>
    requires few { length columns.now ≤ Coefficients.MAX_LEN }
    requires scales { length scales.now ≡ length columns.now }
    ensures ok { IfOk result (λ checks.
        checks_of columns.now scales.now (map (λ text. text.now) texts.now) ≡ Some checks) }
    ensures meaning { IfOk result (MeanTheSame columns.now scales.now (map (λ text. text.now) texts.now)) }
    ensures definition { IsErrOf result CheckFault.Definition
        → checks_of columns.now scales.now (map (λ text. text.now) texts.now) ≡ None }
    ensures broken { checks_of columns.now scales.now (map (λ text. text.now) texts.now) ≡ None → IsErr result }
{
    normalise_behind(alloc, &[], texts, columns, scales)
}

/// Returns the declared checks of a table, and after them those of further CHECKs by the rules of
/// [`normalise`]. The declared ones stay as they are. The place of a condition counts from the
/// first declared check. Fails with [`CheckFault::Definition`] if there would be more than
/// [`MAX_CHECKS`] in all, or if a condition breaks a rule.
pub fn normalise_behind(
    alloc: Global,
    declared: &[Check],
    texts: &[&CheckText],
    columns: &[Name],
    scales: &[Scale],
) -> Result<Seq<Check>, CheckFault>
    requires declared { length declared.now ≤ MAX_CHECKS }
    requires few { length columns.now ≤ Coefficients.MAX_LEN }
    requires scales { length scales.now ≡ length columns.now }
    ensures ok { IfOk result (λ checks.
        checks_behind columns.now scales.now declared.now (map (λ text. text.now) texts.now) ≡ Some checks) }
    ensures definition { IsErrOf result CheckFault.Definition
        → checks_behind columns.now scales.now declared.now (map (λ text. text.now) texts.now) ≡ None }
    ensures broken { checks_behind columns.now scales.now declared.now (map (λ text. text.now) texts.now) ≡ None
        → IsErr result }
{
    let mut checks = copy_all(alloc, declared)?;
    for text in texts {
        add_checks(&mut checks, text, columns, scales)?;
    }
    Ok(checks)
}

/// Adds the checks of a CHECK's conditions to those of the CHECKs before it.
fn add_checks(
    checks: &mut Seq<Check>,
    text: &CheckText,
    columns: &[Name],
    scales: &[Scale],
) -> Result<(), CheckFault>
    requires columns { length columns.now ≤ Coefficients.MAX_LEN }
    requires scales { length scales.now ≡ length columns.now }
    requires before { length checks.old ≤ MAX_CHECKS }
    ensures ok { OnOk result ((others : Option (List Check))
        → found checks.old (checks_of_conditions columns.now scales.now text.now.name 1
        (length checks.old + 1) text.now.conditions) others
        ≡ followed_by checks.new others) }
    ensures counted { OnOk result (length checks.new ≡ length checks.old + length text.now.conditions) }
    ensures within { OnOk result (length checks.new ≤ MAX_CHECKS) }
    ensures definition { IsErrOf result CheckFault.Definition → (others : Option (List Check))
        → few (found checks.old (checks_of_conditions columns.now scales.now text.now.name 1
        (length checks.old + 1) text.now.conditions) others)
        ≡ None }
{
    for (k, condition) in text.conditions.as_slice().iter().enumerate() {
        let before = checks.len();
        if before == MAX_CHECKS {
            return Err(CheckFault::Definition);
        }
        let Some(check) = check_of(columns, scales, text.name, k + 1, before + 1, condition) else {
            return Err(CheckFault::Definition);
        };
        check.add_to(checks)?;
    }
    Ok(())
}

/// Returns the check of a condition, the `k`-th of a CHECK of this name and the `n`-th of the
/// table.
fn check_of(
    columns: &[Name],
    scales: &[Scale],
    name: Option<Name>,
    k: usize,
    n: usize,
    condition: &Condition,
) -> Option<Check>
    requires columns { length columns.now ≤ Coefficients.MAX_LEN }
    requires scales { length scales.now ≡ length columns.now }
    requires in_check { k ≤ MAX_CHECKS }
    requires in_table { n ≤ MAX_CHECKS }
    ensures { result ≡ check_of columns.now scales.now (check_name name k n) condition.now }
{
    if !names_columns(columns, condition) {
        return None;
    }
    let name = name_of(name, k, n)?;
    let written = Coefficients::of_condition(columns, condition)?;
    let scale = written.scale(scales);
    let span = limits_of(condition, scale)?;
    Some(Check {
        name,
        coeffs: written.scaled(scale, scales),
        scale,
        span,
    })
}

/// Returns whether each column that a condition names, whatever its coefficient, is one of these.
#[tactic(auto, using(crate::proofs::TermLemmas::all_columns))]
fn names_columns(columns: &[Name], condition: &Condition) -> bool
    ensures { result ≡ names_columns columns.now condition.now }
{
    are_columns(columns, condition.sum.as_slice())
        && are_columns(columns, right_of(&condition.test))
}

/// Returns whether each column that a term names is one of these.
fn are_columns(columns: &[Name], terms: &[Term]) -> bool
    ensures { result ≡ list_all
        (λ term. list_all (λ name. list_any (λ column. bytes_eq column name) columns.now) (columns_in term)) terms.now }
{
    terms.iter().all(|term| is_column(columns, term))
}

/// Returns whether the column that a term names, if it names one, is one of these.
fn is_column(columns: &[Name], term: &Term) -> bool
    ensures { result ≡ list_all (λ name. list_any (λ column. bytes_eq column name) columns.now) (columns_in term.now) }
{
    match term {
        Term::Number(_) => true,
        Term::Column { column, .. } => columns.contains(column),
    }
}
