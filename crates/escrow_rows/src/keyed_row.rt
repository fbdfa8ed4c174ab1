//! A row that is built from its cells as they are read.
ghost use Rattle.std.specs.Prelude.{◌≡◌, ◌≢◌, ◌↔◌, ◌+◌, ◌++◌, pos, [], ◌∷◌, false, length, if◌then◌else◌, IsTrue, None, Ok, IfSome, IfOk, OnOk};
ghost use Rattle.sqlite_value.specs.declared.value.Value.TheVariants.{Int};
ghost use Rattle.sqlite_value.specs.Order.{column};
ghost use Rattle.sqlite_value.specs.Value.{owned};
ghost use Rattle.escrow_num.specs.declared.value.Value.{Value as HeldValue};
ghost use Rattle.escrow_schema.specs.Column.{reservables};
ghost use Rattle.escrow_schema.specs.Fit.{amounts_of, number_in};
ghost use Rattle.escrow_rows.specs.Image.{stored, CanBeHeld};
ghost use Rattle.escrow_rows.specs.Gathered.{Extends, cell_at};
ghost use Rattle.escrow_rows.specs.declared.keyed_row.KeyedRow.{KeyedRow as Keyed};

use crate::datum::read_value;
use escrow_num::{Amount, Failure, Seq, Value};
use escrow_schema::Column;
use sqlite::Row;
use sqlite_value::value::ValueRef;
use std::alloc::{AllocError, Global};

/// A row, as its cells have it.
#[derive(Debug, Drop)]
pub struct KeyedRow {
    /// Its key, which each of its cells has.
    pub key: Value,
    /// Its values, in column order.
    pub values: Seq<Value>,
}

impl KeyedRow {
    /// Returns a row without cells so far, whose key isn't known yet.
    pub(crate) fn new(alloc: Global) -> Self
        ensures none { result.values ≡ [] }
        ensures held { CanBeHeld result.key }
    {
        KeyedRow {
            key: Value::Number(Amount::ZERO),
            values: Seq::new(alloc),
        }
    }

    /// Takes the next cell. The first cell gives the key, and comes after this many columns. Returns
    /// whether the cell is one of this row, at the next place.
    pub(crate) fn take_cell(
        &mut self,
        alloc: Global,
        start: usize,
        cell: &Row,
    ) -> Result<bool, AllocError>
        ensures next { IfOk result (λ next. IsTrue next → Extends start self.old cell.now self.new) }
        ensures other { result ≡ Ok false → CanBeHeld self.old.key → (new : Keyed) → Extends start self.old cell.now new
            → ⊥ }
    {
        if self.values.is_empty() {
            let Some(key) = value_at(alloc, cell, 0)? else {
                return Ok(false);
            };
            self.key = key;
        }
        if !is_cell(cell, &self.key, start, self.values.len()) {
            return Ok(false);
        }
        let Some(value) = value_at(alloc, cell, 2)? else {
            return Ok(false);
        };
        self.values.push(value)?;
        Ok(true)
    }

    /// Returns the amounts of its RESERVABLE columns, in column order. Its values must be those of
    /// these columns. Fails with [`Failure::Store`] unless it has one value for each column, and a
    /// number for each RESERVABLE column.
    pub fn amounts(&self, alloc: Global, columns: &[Column]) -> Result<Seq<Amount>, Failure>
        ensures told { IfOk result (λ amounts. amounts ≡ amounts_of columns.now self.now.values) }
        ensures many { IfOk result (λ amounts. length amounts ≡ length (reservables columns.now)) }
    {
        if columns.len() != self.values.len() {
            return Err(Failure::Store);
        }
        let amounts = amounts_of(alloc, columns, self.values.as_slice())?;
        Ok(Seq::from_vec(amounts))
    }
}

/// Returns the amounts of the RESERVABLE columns, in column order, from a value for each column.
fn amounts_of(alloc: Global, columns: &[Column], values: &[Value]) -> Result<Vec<Amount>, Failure>
    requires { length columns.now ≡ length values.now }
    ensures { IfOk result (λ amounts. amounts.items ≡ amounts_of columns.now values.now) }
{
    let mut amounts = Vec::new(alloc);
    for (i, column) in columns.iter().enumerate() {
        add_amount(&mut amounts, column, &values[i])?;
    }
    Ok(amounts)
}

/// Adds the amount of a column if the column is RESERVABLE.
fn add_amount(amounts: &mut Vec<Amount>, column: &Column, value: &Value) -> Result<(), Failure>
    ensures { OnOk result (amounts.new.items ≡ amounts.old.items
        ++ (if column.now.reservable then number_in value.now ∷ [] else [])) }
{
    if column.reservable {
        amounts.push(number_of(value)?)?;
    }
    Ok(())
}

/// Returns the number that a value is. Fails with [`Failure::Store`] if the value is a text.
fn number_of(value: &Value) -> Result<Amount, Failure>
    ensures { IfOk result (λ number. number ≡ number_in value.now) }
{
    match value {
        Value::Number(amount) => Ok(*amount),
        Value::Text(_) => Err(Failure::Store),
    }
}

/// Returns whether a cell is the next of the row of a key, after this many columns and this many
/// other cells. If it is the first cell, it must have the key.
fn is_cell(cell: &Row, key: &Value, start: usize, before: usize) -> bool
    requires { before ≡ 0 → column cell.now 0 ≡ stored key.now }
    ensures { IsTrue result ↔ (cell.now ≡ cell_at key.now (start + before + 1) (column cell.now 2)) }
{
    cell.column_count() == 3
        && (before == 0 || has_key(cell, key))
        && is_behind(cell, start, before)
}

/// Returns whether a cell has a key. Copies nothing.
fn has_key(cell: &Row, key: &Value) -> bool
    ensures { IsTrue result ↔ (column cell.now 0 ≡ stored key.now) }
{
    match (cell.get_ref(0), key) {
        (Ok(ValueRef::Int(number)), Value::Number(amount)) => number == amount.get(),
        (Ok(ValueRef::Text(bytes)), Value::Text(text)) => bytes == text.as_str().as_bytes(),
        _ => false,
    }
}

/// Returns whether a cell comes right after this many columns and this many other cells of its row.
fn is_behind(cell: &Row, start: usize, before: usize) -> bool
    ensures { IsTrue result ↔ (column cell.now 1 ≡ Int (pos (start + before + 1))) }
{
    match cell.get_ref(1) {
        Ok(ValueRef::Int(place)) => place > 0 && is_sum((place - 1) as u64, start, before),
        _ => false,
    }
}

/// Returns whether a number is the sum of two others. The sum itself might be too large.
fn is_sum(number: u64, start: usize, before: usize) -> bool
    ensures { IsTrue result ↔ (number ≡ start + before) }
{
    number >= start as u64 && number - start as u64 == before as u64
}

/// Returns the value in a column of an answer, or `None` if no column of a table can hold it.
fn value_at(alloc: Global, row: &Row, at: usize) -> Result<Option<Value>, AllocError>
    ensures some { IfOk result (λ found. IfSome found (λ v. (stored v ≡ column row.now at) × CanBeHeld v)) }
    ensures none { result ≡ Ok None → (v : HeldValue) → CanBeHeld v → stored v ≢ column row.now at }
{
    match row.get_ref(at) {
        Ok(value) => read_value(alloc, value),
        Err(_) => Ok(None),
    }
}
