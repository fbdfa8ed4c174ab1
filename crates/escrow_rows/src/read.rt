//! Reads of the row of a key.
ghost use Rattle.std.specs.Prelude.{◌≡◌, ◌++◌, ◌^◌, ◌<◌, ◌+◌, ℤ, pos, [], ◌∷◌, length, List, IfOk, IfSome, OnOk};
ghost use Rattle.escrow_num.specs.declared.value.Value.{Value as HeldValue};
ghost use Rattle.sqlite_value.specs.Value.{owned};
ghost use Rattle.sqlite_value.specs.declared.value.Value.TheVariants.{Int};
ghost use Rattle.escrow_schema.specs.Column.{reservables};
ghost use Rattle.escrow_schema.specs.Fit.{amounts_of};
ghost use Rattle.escrow_rows.specs.Changes.{name_in};
ghost use Rattle.escrow_rows.specs.Image.{stored};
ghost use Rattle.escrow_rows.specs.Placed.{placed, IsRowOfCells};
ghost use Rattle.escrow_schema.specs.Rows.{row_named};

use crate::datum::{datum, held};
use crate::span::{Span, reservable_span};
use crate::store::RowStore;
use escrow_cells::{count_cells, failure_of, row_cells, span_cells};
use escrow_num::{Amount, Failure, Seq, Value};
use escrow_schema::{Column, StoredTable};
use sqlite::{Alter, Row};
use sqlite_value::value::ValueRef;
use std::alloc::Global;

impl<S: Alter> RowStore<S> {
    ghost use Rattle.std.specs.Prelude.{◌≤◌, IsTrue, is_some};
    ghost use Rattle.sqlite.specs.Held.{state};
    ghost use Rattle.sqlite.specs.State.{HasCleanDisk};
    ghost use Rattle.escrow_schema.specs.Definition.{IsTable};
    ghost use Rattle.escrow_rows.specs.Answers.{OnlyReads, Tells, TellsAmounts, TellsValues};
    ghost use Rattle.escrow_rows.specs.Placed.{TellsCells, TellsSpan};

    /// Returns the amounts of the row of a key, one for each RESERVABLE column in column order, or
    /// `None` if no row has the key. Columns before the first of these and after the last aren't
    /// read.
    pub fn amounts(
        &mut self,
        alloc: Global,
        table: &StoredTable,
        key: &Value,
    ) -> Result<Option<Seq<Amount>>, Failure>
        requires { IsTable table.now.table }
        ensures told { HasCleanDisk (state S.Store self.new)
            → IfOk result (λ found. IsTrue (state S.Store self.new).is_open
            × TellsAmounts table.now key.now (state S.Store self.old).now found) }
        ensures many { IfOk result
            (λ found. IfSome found (λ amounts. length amounts ≡ length (reservables table.now.table.columns))) }
        ensures only_reads { OnlyReads (state S.Store self.old) (state S.Store self.new) }
    {
        let columns = table.table.columns.as_slice();
        let span = reservable_span(columns);
        let Some(cells) = self.cells_in(table, key, span)? else {
            return Ok(None);
        };
        let spanned = &columns[span.start..span.start + span.len];
        let amounts = read_amounts(alloc, spanned, cells.as_slice(), span.start)?;
        Ok(Some(amounts))
    }

    /// Returns the values of the row of a key, in column order, or `None` if no row has the key.
    pub fn values(
        &mut self,
        alloc: Global,
        table: &StoredTable,
        key: &Value,
    ) -> Result<Option<Seq<Value>>, Failure>
        requires { IsTable table.now.table }
        ensures told { HasCleanDisk (state S.Store self.new)
            → IfOk result (λ found. IsTrue (state S.Store self.new).is_open
            × TellsValues table.now key.now (state S.Store self.old).now found) }
        ensures only_reads { OnlyReads (state S.Store self.old) (state S.Store self.new) }
    {
        let Some(cells) = self.cells_of(table, key)? else {
            return Ok(None);
        };
        let values = read_values(alloc, cells.as_slice())?;
        Ok(Some(Seq::from_vec(values)))
    }

    /// Returns whether a row has a key. If so, it has one cell at the first place. Takes no memory
    /// of its own.
    pub fn stands(&mut self, table: &StoredTable, key: &Value) -> Result<bool, Failure>
        ensures told { HasCleanDisk (state S.Store self.new)
            → IfOk result (λ stands. IsTrue (state S.Store self.new).is_open
            × Tells table.now (λ rows. is_some (row_named rows (name_in table.now key.now)))
            (state S.Store self.old).now stands) }
        ensures only_reads { OnlyReads (state S.Store self.old) (state S.Store self.new) }
    {
        let cells = count_cells(&mut self.conn, table.id, datum(key), 1)?;
        Ok(cells > 0)
    }

    /// Returns the cells of the row of a key, each with its place and its value, or `None` if there
    /// are none. Fails if the row doesn't have a cell for each column.
    fn cells_of(&mut self, table: &StoredTable, key: &Value) -> Result<Option<Seq<Row>>, Failure>
        requires { IsTable table.now.table }
        ensures told { HasCleanDisk (state S.Store self.new)
            → IfOk result (λ found. IsTrue (state S.Store self.new).is_open
            × TellsCells table.now key.now (state S.Store self.old).now found) }
        ensures many { IfOk result (λ found. IfSome found (λ cells. length cells ≡ length table.now.table.columns)) }
        ensures only_reads { OnlyReads (state S.Store self.old) (state S.Store self.new) }
    {
        let cells = row_cells(&mut self.conn, table.id, datum(key))?;
        some_cells(table.table.columns.len(), cells)
    }

    /// Returns the cells of the row of a key in some of its columns, each with its place and its
    /// value, or `None` if there are none. Fails if the row doesn't have a cell for each of these
    /// columns.
    fn cells_in(
        &mut self,
        table: &StoredTable,
        key: &Value,
        span: Span,
    ) -> Result<Option<Seq<Row>>, Failure>
        requires some { 0 < span.len }
        requires within { span.start + span.len ≤ length table.now.table.columns }
        requires few { span.start + span.len < 2 ^ 63 }
        ensures told { HasCleanDisk (state S.Store self.new)
            → IfOk result (λ found. IsTrue (state S.Store self.new).is_open
            × TellsSpan span.start span.len table.now key.now (state S.Store self.old).now found) }
        ensures many { IfOk result (λ found. IfSome found (λ cells. length cells ≡ span.len)) }
        ensures only_reads { OnlyReads (state S.Store self.old) (state S.Store self.new) }
    {
        let first = span.start as i64 + 1;
        let last = (span.start + span.len) as i64;
        let cells = span_cells(&mut self.conn, table.id, datum(key), first, last)?;
        some_cells(span.len, cells)
    }
}

/// Returns the cells of a row, if there are any. There must be this many.
fn some_cells(many: usize, cells: Vec<Row>) -> Result<Option<Seq<Row>>, Failure>
    ensures found { IfOk result (IsRowOfCells cells.items) }
    ensures many { IfOk result (λ found. IfSome found (λ some. length some ≡ many)) }
{
    if cells.is_empty() {
        return Ok(None);
    }
    if cells.len() != many {
        return Err(Failure::Store);
    }
    Ok(Some(Seq::from_vec(cells)))
}

/// Returns the amounts in the cells of columns, one cell for each column, after this many others.
fn read_amounts(
    alloc: Global,
    columns: &[Column],
    cells: &[Row],
    before: usize,
) -> Result<Seq<Amount>, Failure>
    requires many { length cells.now ≡ length columns.now }
    requires few { before + length columns.now < 2 ^ 63 }
    ensures told { IfOk result
        (λ amounts. (values : List HeldValue) → cells.now ≡ placed (before + 1) values
        → amounts ≡ amounts_of columns.now values) }
    ensures many { IfOk result (λ amounts. length amounts ≡ length (reservables columns.now)) }
{
    let mut amounts = Seq::new(alloc);
    for (i, column) in columns.iter().enumerate() {
        if column.reservable {
            push_amount(&mut amounts, &cells[i], before + i + 1)?;
        }
    }
    Ok(amounts)
}

/// Adds the amount of a cell at a place.
fn push_amount(amounts: &mut Seq<Amount>, cell: &Row, place: usize) -> Result<(), Failure>
    requires { place < 2 ^ 63 }
    ensures { OnOk result ((a : ℤ) × (cell.now ≡ Int (pos place) ∷ Int a ∷ [])
        × (amounts.new ≡ amounts.old ++ a ∷ [])) }
{
    let amount = amount_in(value_at(cell, place)?)?;
    Ok(amounts.push(amount)?)
}

/// Returns the amount that a value is.
fn amount_in(value: ValueRef<'_>) -> Result<Amount, Failure>
    ensures { IfOk result (λ a. owned value.entry ≡ Int a) }
{
    match value {
        ValueRef::Int(number) => Amount::new(number).ok_or(Failure::Store),
        _ => Err(Failure::Store),
    }
}

/// Returns the values of cells, each at its place from 1 on.
fn read_values(alloc: Global, cells: &[Row]) -> Result<Vec<Value>, Failure>
    ensures { IfOk result (λ values. cells.now ≡ placed 1 values.items) }
{
    let mut values = Vec::new(alloc);
    for (i, cell) in cells.iter().enumerate() {
        let value = held(alloc, value_at(cell, i + 1)?)?;
        values.push(value)?;
    }
    Ok(values)
}

/// Returns the value of a cell, which must be at this place.
fn value_at(cell: &Row, place: usize) -> Result<ValueRef<'_>, Failure>
    requires { place < 2 ^ 63 }
    ensures { IfOk result (λ v. cell.now ≡ Int (pos place) ∷ owned v ∷ []) }
{
    let at: i64 = cell.get(0).map_err(failure_of)?;
    if cell.column_count() != 2 || at != place as i64 {
        return Err(Failure::Store);
    }
    Ok(cell.get_ref(1).map_err(failure_of)?)
}
