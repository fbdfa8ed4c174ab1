ghost use Rattle.std.specs.Prelude.{◌≡◌, ◌↔◌, IsTrue, IsOk, IfOk, false};
ghost use Rattle.std.specs.Cmp.{partial_equiv_from_equiv};
ghost use Rattle.escrow_num.specs.Equal.{value_eq_equiv, same_row_equiv};
ghost use Rattle.escrow_num.specs.Order.{value_eq, same_row};

use crate::amount::Amount;
use crate::name::Name;
use crate::text::Text;
use std::alloc::{AllocError, Global};
use std::cmp::Ordering;
use std::default::MadeWith;

/// A value that a column can hold.
#[derive(Debug, Hash, Drop)]
pub enum Value {
    /// A whole number.
    Number(Amount),
    /// A text.
    Text(Text),
}

impl Value {
    ghost use Rattle.escrow_num.specs.Order.{value_cmp};
    ghost use Rattle.escrow_num.specs.Value.{holds_memory};

    /// Returns a copy of the value. Only a text takes memory.
    pub fn copy(&self, alloc: Global) -> Result<Value, AllocError>
        ensures same { IfOk result (λ v. v ≡ self.now) }
        ensures succeeds { holds_memory self.now ≡ false → IsOk result }
    {
        match self {
            Value::Number(amount) => Ok(Value::Number(*amount)),
            Value::Text(text) => Ok(Value::Text(text.copy(alloc)?)),
        }
    }

    /// Returns whether two values are equal.
    pub fn is_same(&self, other: &Value) -> bool
        ensures test { result ≡ value_eq self.now other.now }
        ensures same { IsTrue result ↔ (self.now ≡ other.now) }
    {
        match (self, other) {
            (Value::Number(a), Value::Number(b)) => *a == *b,
            (Value::Text(a), Value::Text(b)) => *a == *b,
            _ => false,
        }
    }

    /// Compares two values: numbers in their order, texts by their bytes, and numbers before texts.
    pub fn compare(&self, other: &Value) -> Ordering
        ensures { result ≡ value_cmp self.now other.now }
    {
        match (self, other) {
            (Value::Number(a), Value::Number(b)) => a.cmp(b),
            (Value::Text(a), Value::Text(b)) => a.as_str().cmp(b.as_str()),
            (Value::Number(_), Value::Text(_)) => Ordering::Less,
            (Value::Text(_), Value::Number(_)) => Ordering::Greater,
        }
    }
}

impl PartialEq for Value {
    ghost eq = { value_eq };

    ghost laws = { partial_equiv_from_equiv value_eq_equiv };

    fn eq(&self, other: &Self) -> bool {
        self.is_same(other)
    }
}

impl Eq for Value {
    ghost laws = { value_eq_equiv };
}

/// The name of a row: its table and its key.
#[derive(Debug, Hash, Drop)]
pub struct RowName {
    /// The table's name.
    pub table: Name,
    /// The value of the row's key column.
    pub key: Value,
}

/// Returns a blank, which fills a place that isn't used. Takes no memory.
impl MadeWith<Global> for RowName {
    fn made_with(_alloc: Global) -> Self {
        RowName {
            table: Name::blank(),
            key: Value::Number(Amount::ZERO),
        }
    }
}

impl RowName {
    ghost use Rattle.escrow_num.specs.Order.{row_cmp};
    ghost use Rattle.escrow_num.specs.Value.{holds_memory};

    /// Returns a copy of the row's name. Only a key that is a text takes memory.
    pub fn copy(&self, alloc: Global) -> Result<RowName, AllocError>
        ensures same { IfOk result (λ r. r ≡ self.now) }
        ensures succeeds { holds_memory self.now.key ≡ false → IsOk result }
    {
        Ok(RowName {
            table: self.table,
            key: self.key.copy(alloc)?,
        })
    }

    /// Returns whether two names name the same row.
    pub fn is_same(&self, other: &RowName) -> bool
        ensures test { result ≡ same_row self.now other.now }
        ensures same { IsTrue result ↔ (self.now ≡ other.now) }
    {
        self.table == other.table && self.key.is_same(&other.key)
    }

    /// Compares two names: by their tables' names, and in one table by their keys.
    pub fn compare(&self, other: &RowName) -> Ordering
        ensures { result ≡ row_cmp self.now other.now }
    {
        self.table
            .cmp(&other.table)
            .then(self.key.compare(&other.key))
    }
}

impl PartialEq for RowName {
    ghost eq = { same_row };

    ghost laws = { partial_equiv_from_equiv same_row_equiv };

    fn eq(&self, other: &Self) -> bool {
        self.is_same(other)
    }
}

impl Eq for RowName {
    ghost laws = { same_row_equiv };
}
