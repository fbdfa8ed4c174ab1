//! What the rows of a table could break of checks that are added to it.
ghost use Rattle.std.specs.Prelude.{◌≡◌, ◌+◌, ◌≤◌, length};
ghost use Rattle.escrow_schema.specs.Column.{reservables};
ghost use Rattle.escrow_schema.specs.Definition.{IsTable};
ghost use Rattle.escrow_schema.specs.Print.{declared_checks};

use escrow_bounds::Addition;
use escrow_num::{Amount, RowName, Violation};
use escrow_reserved::{Reserved, first_violation};
use escrow_schema::{Column, TableDef};
use escrow_tables::RowJudge;
use std::marker::Model;

/// A table with the checks of one more CHECK, which are consecutive.
#[derive(Debug, Drop)]
pub(crate) struct AddedChecks {
    /// The table with these checks.
    pub(crate) table: TableDef,
    /// The index of the first of them among its checks.
    pub(crate) first: usize,
    /// Their number.
    pub(crate) count: usize,
}

impl AddedChecks {
    /// Returns the checks that a table has in addition to those of an old one. They must come after
    /// its declared checks.
    pub(crate) fn new(old: &TableDef, table: TableDef) -> Self
        requires old { IsTable old.now }
        requires more { length old.now.checks ≤ length table.checks }
        ensures table { result.table ≡ table }
        ensures first { result.first ≡ length (declared_checks old.now) }
        ensures count { length old.now.checks + result.count ≡ length table.checks }
    {
        let first = old.checks.len() - count_reservable(old.columns.as_slice());
        let count = table.checks.len() - old.checks.len();
        AddedChecks {
            table,
            first,
            count,
        }
    }
}

/// Returns how many of the columns are RESERVABLE.
fn count_reservable(columns: &[Column]) -> usize
    ensures { result ≡ length (reservables columns.now) }
{
    columns.iter().filter(|column| column.reservable).count()
}

/// Judges the rows of a table by checks that are added to it, over every choice of the open
/// reservations.
#[derive(Drop)]
pub(crate) struct AddedJudge<'a> {
    added: &'a AddedChecks,
    reserved: &'a Reserved,
    addition: &'a Addition,
}

impl<'a> Model for AddedJudge<'a> {
    ghost use Rattle.escrow_core.specs.Altering.{AddedJudge, CanJudge};

    ghost Value = { AddedJudge };

    ghost view = { λ j. record
        { added = j.added.now; reservations = j.reserved.now.txns.reservations; addition = j.addition.now } };

    ghost invariant = { λ j. CanJudge j.added.now j.reserved.now j.addition.now };
}

impl<'a> AddedJudge<'a> {
    ghost use Rattle.escrow_core.specs.Altering.{CanJudge};

    /// Returns the judge by these checks. The addition must be prepared over all checks of their
    /// table.
    pub(crate) fn new(
        added: &'a AddedChecks,
        reserved: &'a Reserved,
        addition: &'a Addition,
    ) -> Self
        requires { CanJudge added.now reserved.now addition.now }
        ensures { result ≡ record
            { added = added.now; reservations = reserved.now.txns.reservations; addition = addition.now } }
    {
        AddedJudge {
            added,
            reserved,
            addition,
        }
    }
}

impl RowJudge for AddedJudge<'_> {
    ghost use Rattle.escrow_core.specs.Altering.{table_without, violation_by};

    ghost table = { λ judge. table_without judge.added };

    ghost violation = { violation_by };

    fn violation(&self, name: &RowName, amounts: &[Amount]) -> Option<Violation> {
        let first = self.added.first;
        let count = self.added.count;
        if self.reserved.is_reserved(name) {
            return self.addition.violation(name, first, count);
        }
        let checks = self.added.table.checks.as_slice();
        first_violation(&checks[first..first + count], amounts, &[])
    }
}
