//! Counts the rows of a table as they are read, and tests each one.
ghost use Rattle.std.specs.Prelude.{◌≡◌, ◌↔◌, ◌<◌, ◌+◌, false, Ok, IsTrue, IfOk};
ghost use Rattle.std.specs.List.{AllByRecursion};
ghost use Rattle.escrow_num.specs.declared.row.Row.{Row as HeldRow};
ghost use Rattle.escrow_checks.specs.Grant.{Meets};
ghost use Rattle.escrow_schema.specs.Definition.{IsTable};
ghost use Rattle.escrow_schema.specs.declared.table.TheConstants.TableDef.{MAX_ROWS};
ghost use Rattle.escrow_recover.specs.Counting.{IsRowWith};

use crate::rows::defined::DefinedTable;
use escrow_checks::Check;
use escrow_num::{Amount, Failure};
use escrow_rows::{KeyedRow, RowTaker};
use escrow_schema::{TableDef, row_of};
use std::alloc::{AllocError, Global};

/// Counts the rows of a table, and tests each one. Keeps none.
#[derive(Drop)]
pub(crate) struct RowCounter<'a> {
    pub(crate) alloc: Global,
    pub(crate) table: DefinedTable<'a>,
    /// The number of rows.
    pub(crate) rows: usize,
    /// Whether each row so far is one that the table may have.
    pub(crate) sound: bool,
}

impl RowCounter<'_> {
    /// Counts a row, if the table may have it. Returns whether it may.
    fn count(&mut self, row: &KeyedRow) -> Result<bool, AllocError>
        ensures done { IfOk result
            (λ done. IsTrue done → (self.old.rows < MAX_ROWS) × (made : HeldRow) × IsRowWith self.old.table row.now made
            × (self.new ≡ record self.old { rows = self.old.rows + 1 })) }
        ensures other { result ≡ Ok false → (self.new ≡ self.old)
            × (self.old.rows < MAX_ROWS → (made : HeldRow) → IsRowWith self.old.table row.now made → ⊥) }
    {
        if self.rows >= TableDef::MAX_ROWS {
            return Ok(false);
        }
        if !is_row(self.alloc, self.table.get(), row)? {
            return Ok(false);
        }
        self.rows += 1;
        Ok(true)
    }
}

impl RowTaker for RowCounter<'_> {
    ghost use Rattle.escrow_recover.specs.Counting.{HasTaken};

    ghost has_taken = { HasTaken };

    ghost is_enough = { λ _. false };

    fn take(&mut self, row: KeyedRow) -> Result<(), Failure> {
        if self.sound {
            self.sound = self.count(&row)?;
        }
        Ok(())
    }

    fn is_done(&self) -> bool {
        false
    }
}

/// Returns whether a row belongs to a table, under its key, and meets the table's checks.
fn is_row(alloc: Global, table: &TableDef, row: &KeyedRow) -> Result<bool, AllocError>
    requires { IsTable table.now }
    ensures { IfOk result (λ is. IsTrue is ↔ ((made : HeldRow) × IsRowWith table.now row.now made)) }
{
    let Some(made) = row_of(alloc, table, row.values.as_slice())? else {
        return Ok(false);
    };
    if !made.name.key.is_same(&row.key) {
        return Ok(false);
    }
    Ok(meets_all(table.checks.as_slice(), made.amounts.as_slice()))
}

/// Returns whether the amounts of a row meet checks.
fn meets_all(checks: &[Check], amounts: &[Amount]) -> bool
    ensures { IsTrue result ↔ AllByRecursion (λ check. Meets check amounts.now) checks.now }
{
    checks
        .iter()
        .all(|check| check.span.holds(check.form(amounts)))
}
