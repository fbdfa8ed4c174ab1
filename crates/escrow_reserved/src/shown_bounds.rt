ghost use Rattle.std.specs.Prelude.{◌≡◌, ℤ, Some, IfOk, IsSome, List, [], length, map};
ghost use Rattle.escrow_checks.specs.Extremes.{least, greatest};
ghost use Rattle.escrow_bounds.specs.Counts.{Counts};
ghost use Rattle.escrow_bounds.specs.Place.{Place, checks_of};
ghost use Rattle.escrow_bounds.specs.Bounds.{place_at};
ghost use Rattle.escrow_schema.specs.Column.{reservables};
ghost use Rattle.escrow_schema.specs.Definition.{IsTable};
ghost use Rattle.escrow_machine.specs.Bounds.{bounds_over, check_bounds};
ghost use Rattle.escrow_machine.specs.Walked.{columns_from};
ghost use Rattle.escrow_reserved.specs.Placed.{IsOfTable};

use escrow_bounds::Bounds;
use escrow_checks::Check;
use escrow_machine::{CheckBounds, ColumnBounds, Reply};
use escrow_num::{Amount, Name, RowName, Seq, Wide, copy_all};
use escrow_schema::{TableDef, reservable_names};
use std::alloc::{AllocError, Global};

/// Returns what SHOW BOUNDS shows of a row that has a place in `bounds`: how far the reservations
/// that the place counts can move each RESERVABLE column and each declared check. `table` is the
/// row's table. Fails only if memory is refused.
pub fn row_bounds(
    alloc: Global,
    table: &TableDef,
    name: &RowName,
    bounds: &Bounds,
) -> Result<Reply, AllocError>
    requires table { IsTable table.now }
    requires placed { IsSome (place_at bounds.now name.now) }
    requires of_table { (place : Place) → place_at bounds.now name.now ≡ Some place → IsOfTable table.now place }
    ensures { IfOk result (λ reply. (place : Place) (reservations : List (List ℤ))
        → place_at bounds.now name.now ≡ Some place → Counts place reservations
        → reply ≡ bounds_over reservations table.now place.amounts) }
{
    let amounts = bounds.amounts(name).unwrap();
    // The ranges of the columns are the last checks, and their forms are the columns themselves.
    let declared = table.checks.len() - amounts.len();
    let all = all_check_bounds(alloc, table.checks.as_slice(), name, bounds)?;
    let (shown, ranges) = all.as_slice().split_at(declared);
    let names = reservable_names(alloc, table.columns.as_slice())?;
    Ok(Reply::Bounds {
        columns: all_column_bounds(alloc, names.as_slice(), amounts, ranges)?,
        checks: copy_all(alloc, shown)?,
    })
}

/// Returns what SHOW BOUNDS shows of a row without open reservations. `amounts` has the committed
/// amount of each RESERVABLE column of `table`, the row's table. Fails only if memory is refused.
pub fn free_bounds(
    alloc: Global,
    table: &TableDef,
    name: &RowName,
    amounts: &[Amount],
) -> Result<Reply, AllocError>
    requires table { IsTable table.now }
    requires amounts { length amounts.now ≡ length (reservables table.now.columns) }
    ensures { IfOk result (λ reply. reply ≡ bounds_over [] table.now amounts.now) }
{
    let mut bounds = Bounds::new(alloc);
    bounds.reserve(name, amounts, table.checks.as_slice())?;
    row_bounds(alloc, table, name, &bounds)
}

/// Returns the bounds of each check of a row that has a place.
fn all_check_bounds(
    alloc: Global,
    checks: &[Check],
    name: &RowName,
    bounds: &Bounds,
) -> Result<Seq<CheckBounds>, AllocError>
    requires placed { IsSome (place_at bounds.now name.now) }
    requires checks { (place : Place) → place_at bounds.now name.now ≡ Some place
        → checks_of place.checks ≡ checks.now }
    ensures many { IfOk result (λ all. length all ≡ length checks.now) }
    ensures shown { IfOk result
        (λ all. (place : Place) (reservations : List (List ℤ)) → place_at bounds.now name.now ≡ Some place
        → Counts place reservations
        → all ≡ map (check_bounds place.amounts reservations) checks.now) }
{
    let mut all = Seq::new(alloc);
    for (i, check) in checks.iter().enumerate() {
        all.push(check_bounds(check, bounds.worst(name, i)))?;
    }
    Ok(all)
}

/// Returns the bounds of a check whose form has these extremes.
fn check_bounds(check: &Check, extremes: (Wide, Wide)) -> CheckBounds
    ensures { (amounts : List ℤ) (reservations : List (List ℤ))
        → extremes.0 ≡ least check.now.coeffs amounts reservations
        → extremes.1 ≡ greatest check.now.coeffs amounts reservations
        → result ≡ check_bounds amounts reservations check.now }
{
    CheckBounds {
        check: check.name,
        scale: check.scale,
        least: extremes.0,
        greatest: extremes.1,
        limits: check.span,
    }
}

/// Returns the bounds of each column, in units of the scale of its range. Each column must have an
/// amount and the bounds of its range.
fn all_column_bounds(
    alloc: Global,
    names: &[Name],
    amounts: &[Amount],
    ranges: &[CheckBounds],
) -> Result<Seq<ColumnBounds>, AllocError>
    requires amounts { length names.now ≡ length amounts.now }
    requires ranges { length names.now ≡ length ranges.now }
    ensures { IfOk result (λ bounds. bounds ≡ columns_from names.now amounts.now ranges.now) }
{
    let mut bounds = Seq::new(alloc);
    for (i, name) in names.iter().enumerate() {
        bounds.push(ColumnBounds {
            column: *name,
            scale: ranges[i].scale,
            value: amounts[i],
            inf: ranges[i].least,
            sup: ranges[i].greatest,
        })?;
    }
    Ok(bounds)
}
