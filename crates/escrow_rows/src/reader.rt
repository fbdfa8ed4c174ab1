//! Reads the rows of a table from its cells, keeping at most one row.
ghost use Rattle.std.specs.Prelude.{◌≡◌, ◌+◌, ◌<◌, ◌≤◌, ◌^◌, List, [], ◌∷◌, ◌++◌, length, false, Ok, None, IsTrue, IfOk, IfSome, OnOk};
ghost use Rattle.sqlite_value.specs.Order.{Row as SqlRow};
ghost use Rattle.escrow_rows.specs.Gathered.{HasGathered, Extends};
ghost use Rattle.escrow_rows.specs.Image.{CanBeHeld};
ghost use Rattle.escrow_rows.specs.declared.keyed_row.KeyedRow.{KeyedRow as Keyed};

use crate::keyed_row::KeyedRow;
use crate::span::Span;
use crate::store::RowStore;
use crate::taker::RowTaker;
use escrow_cells::{Sink, spans_cells, table_cells};
use escrow_num::Failure;
use escrow_schema::StoredTable;
use sqlite::{Alter, Row};
use std::alloc::Global;
use std::mem;

impl<S: Alter> RowStore<S> {
    ghost use Rattle.sqlite.specs.Held.{state};
    ghost use Rattle.sqlite.specs.State.{HasCleanDisk};
    ghost use Rattle.escrow_schema.specs.Definition.{IsTable};
    ghost use Rattle.escrow_cells.specs.Store.{IsStore};
    ghost use Rattle.escrow_rows.specs.Answers.{OnlyReads};
    ghost use Rattle.escrow_rows.specs.Gathered.{TakesCells};
    ghost use Rattle.escrow_rows.specs.Reading.{ReadsRows, TakesSpans};

    /// Gives the rows of a table to a taker, in order of key, until it is done, and returns the
    /// taker. The store need not be known to be an image. Returns `None` if the cells that were read
    /// don't make up rows with a value for each column, each value one that a column can hold.
    pub fn read_rows<T: RowTaker>(
        &mut self,
        alloc: Global,
        table: &StoredTable,
        taker: T,
    ) -> Result<Option<T>, Failure>
        requires { IsTable table.now.table }
        ensures read { HasCleanDisk (state S.Store self.new)
            → IfOk result (λ found. IsTrue (state S.Store self.new).is_open
            × (IsStore (state S.Store self.old).now
            → ReadsRows T.has_taken T.is_enough table.now (state S.Store self.old).now taker found)) }
        ensures only_reads { OnlyReads (state S.Store self.old) (state S.Store self.new) }
    {
        let whole = Span {
            start: 0,
            len: table.table.columns.len(),
        };
        let mut reader = RowReader::new(alloc, whole, taker);
        table_cells(&mut self.conn, table.id, &mut reader)?;
        Ok(reader.finish())
    }

    /// Gives each row of a table to a taker, with its key and its values in a span of columns, in
    /// order of key, until the taker is done, and returns the taker. Reads no cells of other columns.
    pub fn read_spans<T: RowTaker>(
        &mut self,
        alloc: Global,
        table: &StoredTable,
        span: Span,
        taker: T,
    ) -> Result<T, Failure>
        requires table { IsTable table.now.table }
        requires some { 0 < span.len }
        requires within { span.start + span.len ≤ length table.now.table.columns }
        requires few { span.start + span.len < 2 ^ 63 }
        ensures taken { HasCleanDisk (state S.Store self.new)
            → IfOk result (λ last. IsTrue (state S.Store self.new).is_open
            × TakesSpans T.has_taken span.start span.len table.now (state S.Store self.old).now taker last) }
        ensures only_reads { OnlyReads (state S.Store self.old) (state S.Store self.new) }
    {
        let mut reader = RowReader::new(alloc, span, taker);
        self.each_cell(table, span, &mut reader)?;
        reader.finish().ok_or(Failure::Store)
    }

    /// Gives the cells of a table in a span of columns to a reader, in order of key and place. If the
    /// span is all columns, it is cheaper not to test their places.
    fn each_cell<T: RowTaker>(
        &mut self,
        table: &StoredTable,
        span: Span,
        reader: &mut RowReader<T>,
    ) -> Result<(), Failure>
        requires table { IsTable table.now.table }
        requires within { span.start + span.len ≤ length table.now.table.columns }
        requires few { span.start + span.len < 2 ^ 63 }
        ensures taken { HasCleanDisk (state S.Store self.new)
            → OnOk result (IsTrue (state S.Store self.new).is_open
            × TakesCells T.has_taken T.is_enough span.start span.len table.now
            (state S.Store self.old).now reader.old reader.new) }
        ensures only_reads { OnlyReads (state S.Store self.old) (state S.Store self.new) }
    {
        if span.len == table.table.columns.len() {
            return table_cells(&mut self.conn, table.id, reader);
        }
        let first = span.start as i64 + 1;
        let last = (span.start + span.len) as i64;
        spans_cells(&mut self.conn, table.id, first, last, reader)
    }
}

/// Builds rows from the cells of a table, in order of key and place, and gives each row to a taker.
#[derive(Drop)]
struct RowReader<T> {
    alloc: Global,
    /// The columns whose values a row has.
    span: Span,
    /// Takes each row.
    taker: T,
    /// The row that is being read: some of its values are missing.
    row: KeyedRow,
    /// Whether all cells so far belong to rows.
    fits: bool,
    /// Whether the taker is done. No row is being read then.
    enough: bool,
}

impl<T: RowTaker> RowReader<T> {
    ghost use Rattle.escrow_rows.specs.Gathered.{IsEnough, IsGathered, IsNew};

    /// Returns a reader that has taken no cell.
    fn new(alloc: Global, span: Span, taker: T) -> Self
        ensures { IsNew result span taker }
    {
        RowReader {
            alloc,
            span,
            taker,
            row: KeyedRow::new(alloc),
            fits: true,
            enough: false,
        }
    }

    /// Takes the next cell, while the taker isn't done. Returns whether it is the next one of a
    /// row.
    fn take_cell(&mut self, cell: &Row) -> Result<bool, Failure>
        requires { self.old.enough ≡ false }
        ensures same { OnOk result (self.new.span ≡ self.old.span) }
        ensures enough { IfOk result
            (λ next. IsTrue self.new.enough → IsTrue next
            × IsEnough T.has_taken T.is_enough self.new.taker self.new.row) }
        ensures more { IfOk result
            (λ next. IsTrue next → (first : T) (cells : List SqlRow)
            → IsGathered T.has_taken self.old.span.start self.old.span.len first self.old.taker self.old.row cells
            → IsGathered T.has_taken self.old.span.start self.old.span.len first self.new.taker self.new.row
            (cells ++ cell.now ∷ [])) }
        ensures other { result ≡ Ok false → CanBeHeld self.old.row.key → (new : Keyed)
            → Extends self.old.span.start self.old.row cell.now new → ⊥ }
    {
        if !self.row.take_cell(self.alloc, self.span.start, cell)? {
            return Ok(false);
        }
        if self.row.values.len() == self.span.len {
            let row = mem::replace(&mut self.row, KeyedRow::new(self.alloc));
            self.taker.take(row)?;
            self.enough = self.taker.is_done();
        }
        Ok(true)
    }

    /// Returns the taker, or `None` if a cell belonged to no row, or the last row lacks values.
    fn finish(self) -> Option<T>
        ensures some { IfSome result (λ taker. IsTrue self.fits × (self.row.values ≡ []) × (taker ≡ self.taker)) }
        ensures none { result ≡ None → IsTrue self.fits → self.row.values ≡ [] → ⊥ }
    {
        if self.fits && self.row.values.is_empty() {
            Some(self.taker)
        } else {
            None
        }
    }
}

impl<T: RowTaker> Sink for RowReader<T> {
    ghost has_taken = { HasGathered T.has_taken T.is_enough };

    fn take(&mut self, row: &Row) -> Result<(), Failure> {
        if self.fits && !self.enough {
            self.fits = self.take_cell(row)?;
        }
        Ok(())
    }

    fn is_done(&self) -> bool {
        self.enough || !self.fits
    }
}
