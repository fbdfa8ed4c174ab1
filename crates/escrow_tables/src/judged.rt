//! What the rows of a table break.
ghost use Rattle.std.specs.Prelude.{◌≡◌, ◌<◌, IfOk, length};
ghost use Rattle.escrow_schema.specs.Definition.{IsTable};
ghost use Rattle.escrow_tables.specs.Judged.{by_amounts, first_violation};
ghost use Rattle.escrow_tables.specs.Judging.{by_cells};
ghost use Rattle.escrow_tables.specs.Spanned.{HasReservables};

use crate::judge::RowJudge;
use crate::tables::Tables;
use escrow_num::{Failure, Name, RowName, Violation};
use escrow_rows::{KeyedRow, RowTaker, Span, reservable_span};
use escrow_schema::{Column, TableDef};
use sqlite::Alter;
use std::alloc::Global;
use std::marker::Model;

impl<S: Alter> Tables<S> {
    ghost use Rattle.std.specs.Prelude.{◌≡◌, Some, IfOk, OnOk, IsTrue};
    ghost use Rattle.sqlite.specs.Held.{state};
    ghost use Rattle.sqlite.specs.State.{HasCleanDisk};
    ghost use Rattle.escrow_schema.specs.Catalog.{place_named, table_named};
    ghost use Rattle.escrow_schema.specs.Rows.{rows_of};
    ghost use Rattle.escrow_tables.specs.Calls.{Reads};

    /// Judges the rows of the table of a name, in order of key. Returns what the first row that
    /// breaks something breaks, or `None` if no row does. Reads no row after that one, and of a
    /// table with few RESERVABLE columns only those from the first of them to the last. The table is
    /// at this place. Keeps one row at a time.
    pub fn first_violation<J: RowJudge>(
        &mut self,
        alloc: Global,
        place: usize,
        name: Name,
        judge: &J,
    ) -> Result<Option<Violation>, Failure>
        requires place { place_named self.old.catalog name ≡ Some place }
        requires table { table_named self.old.catalog name ≡ Some (J.table judge.now) }
        ensures told { HasCleanDisk (state S.Store self.new.store)
            → IfOk result (λ found. found
            ≡ first_violation (by_amounts (J.violation judge.now)) (rows_of self.old.rows name)) }
        ensures reads { Reads S.Store self.old self.new }
        ensures open { HasCleanDisk (state S.Store self.new.store)
            → OnOk result (IsTrue (state S.Store self.new.store).is_open) }
    {
        let stored = &self.catalog.at(place).stored;
        let span = columns_to_read(stored.table.columns.as_slice());
        let taker = RowsJudged {
            alloc,
            judged: JudgedTable::new(&stored.table, span, judge),
            found: None,
        };
        let taker = self.store.read_spans(alloc, stored, span, taker)?;
        Ok(taker.found)
    }
}

/// Returns the columns that are read to judge rows: all, unless those from the first RESERVABLE one
/// to the last are less than a third. To read a cell that is picked by its place takes more time than
/// to read it with all others.
fn columns_to_read(columns: &[Column]) -> Span
    requires { 0 < length columns.now }
    ensures some { 0 < result.len }
    ensures has { HasReservables columns.now result }
{
    let span = reservable_span(columns);
    if span.len < columns.len() / 3 {
        return span;
    }
    Span {
        start: 0,
        len: columns.len(),
    }
}

/// A table, the columns of it that are read, and the judge of its rows.
#[derive(Drop)]
struct JudgedTable<'a, J: RowJudge> {
    table: &'a TableDef,
    span: Span,
    judge: &'a J,
}

impl<'a, J: RowJudge> Model for JudgedTable<'a, J> {
    ghost use Rattle.std.specs.Coded.{coded×};
    ghost use Rattle.std.specs.Prelude.{◌≡◌};
    ghost use Rattle.escrow_rows.specs.contracts.span.Span.{the_row};
    ghost use Rattle.escrow_rows.specs.declared.span.Span.{Span as Columns};
    ghost use Rattle.escrow_schema.specs.Definition.{IsTable};
    ghost use Rattle.escrow_tables.specs.Spanned.{HasReservables};

    ghost Value = { J × Columns };

    ghost coded = { coded× J.code the_row.coded };

    ghost view = { λ t. (t.judge.now, t.span) };

    ghost invariant = { λ t. IsTable t.table.now × (t.table.now ≡ J.table t.judge.now)
        × HasReservables t.table.now.columns t.span };
}

impl<'a, J: RowJudge> JudgedTable<'a, J> {
    /// Returns a table, with the columns of it that are read, and the judge of its rows. All
    /// RESERVABLE columns must be read.
    fn new(table: &'a TableDef, span: Span, judge: &'a J) -> Self
        requires defined { IsTable table.now }
        requires own { table.now ≡ J.table judge.now }
        requires span { HasReservables table.now.columns span }
        ensures { result ≡ (judge.now, span) }
    {
        JudgedTable { table, span, judge }
    }

    /// Returns what a row breaks, if anything. Fails if the row lacks a value, or the amount of a
    /// RESERVABLE column.
    fn violation(&self, alloc: Global, row: KeyedRow) -> Result<Option<Violation>, Failure>
        ensures { IfOk result (λ found. found ≡ by_cells (J.violation self.now.0) (J.table self.now.0) self.now.1 row) }
    {
        let columns = self.table.columns.as_slice();
        let read = &columns[self.span.start..self.span.start + self.span.len];
        let amounts = row.amounts(alloc, read)?;
        let name = RowName {
            table: self.table.name,
            key: row.key,
        };
        Ok(self.judge.violation(&name, amounts.as_slice()))
    }
}

/// Judges the rows of a table as they are read, until one breaks something. Keeps none.
#[derive(Drop)]
struct RowsJudged<'a, J: RowJudge> {
    alloc: Global,
    judged: JudgedTable<'a, J>,
    /// What the first row that breaks something breaks, if there was one.
    found: Option<Violation>,
}

impl<J: RowJudge> RowTaker for RowsJudged<'_, J> {
    ghost use Rattle.std.specs.Prelude.{is_some};
    ghost use Rattle.escrow_tables.specs.Judging.{HasJudged};

    ghost has_taken = { HasJudged J.table J.violation };

    ghost is_enough = { λ judged. is_some judged.found };

    fn take(&mut self, row: KeyedRow) -> Result<(), Failure> {
        if self.found.is_none() {
            self.found = self.judged.violation(self.alloc, row)?;
        }
        Ok(())
    }

    fn is_done(&self) -> bool {
        self.found.is_some()
    }
}
