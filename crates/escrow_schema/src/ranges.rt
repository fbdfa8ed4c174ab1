//! The range checks of RESERVABLE columns. Each keeps a column within its type.
ghost use Rattle.std.specs.Prelude.{◌≡◌, ◌++◌, ◌≤◌, ◌<◌, IfOk, OnOk, Some, neg_ℤ, length, map, codes, slice_index_or};
ghost use Rattle.escrow_num.specs.declared.name.TheConstants.Name.{MAX_WRITTEN};
ghost use Rattle.escrow_schema.specs.Column.{top_of, names_of};
ghost use Rattle.escrow_schema.specs.Definition.{range_check};
ghost use Rattle.escrow_schema.specs.Typed.{CanRange, IsType};

use crate::column::{Column, ColumnType};
use crate::lists::add;
use escrow_checks::{Check, Coefficients};
use escrow_num::{Name, Span, Wide};
use std::alloc::{AllocError, Global};

/// Adds the range check of each RESERVABLE column, in column order.
pub(crate) fn push_ranges(
    alloc: Global,
    checks: &mut Vec<Check>,
    columns: &[Column],
) -> Result<(), AllocError>
    requires { CanRange columns.now }
    ensures { OnOk result (checks.new.items ≡ checks.old.items
        ++ map (range_check (names_of columns.now)) columns.now) }
{
    for place in 0..columns.len() {
        let name = range_name(alloc, &columns[place].name)?;
        add(checks, range_check(name, columns, place))?;
    }
    Ok(())
}

/// Returns the range check, under its name, of the RESERVABLE column at a place among the
/// RESERVABLE ones.
fn range_check(name: Name, columns: &[Column], place: usize) -> Check
    requires columns { CanRange columns.now }
    requires within { place < length columns.now }
    requires named { (d : Column) → name ≡ codes "RANGE_" ++ (slice_index_or columns.now place d).name }
    ensures { (d : Column) → result ≡ range_check (names_of columns.now) (slice_index_or columns.now place d) }
{
    let column = &columns[place];
    Check {
        name,
        coeffs: Coefficients::unit(columns.len(), place),
        scale: column.scale(),
        span: range_span(&column.kind),
    }
}

/// Returns the span from the least number of a type to its greatest, in units.
fn range_span(kind: &ColumnType) -> Span
    requires { IsType kind.now }
    ensures { result ≡ record { lo = Some (neg_ℤ (top_of kind.now)); hi = Some (top_of kind.now) } }
{
    let top = i128::from(kind.top());
    Span {
        lo: Wide::new(-top),
        hi: Wide::new(top),
    }
}

/// Returns the name of the range check of a column: `RANGE_` and the column.
fn range_name(alloc: Global, column: &Name) -> Result<Name, AllocError>
    requires { length column.now ≤ MAX_WRITTEN }
    ensures { IfOk result (λ name. name ≡ codes "RANGE_" ++ column.now) }
{
    let mut text = Vec::new(alloc);
    text.extend_from_slice(b"RANGE_")?;
    text.extend_from_slice(column.as_bytes())?;
    Ok(Name::new(text.as_slice()).unwrap())
}
