ghost use Rattle.std.specs.Prelude.{◌≡◌, ◌↔◌, IfOk, IsTrue};

use crate::amount::Amount;
use crate::decimal::Decimal;
use crate::name::Name;
use crate::row::Row;
use crate::seq::Seq;
use crate::value::Value;
use std::alloc::{AllocError, Global};

/// A value that is copied and compared as a whole, as the items of statements' and replies' lists
/// are.
pub trait Copied: Drop {
    /// Returns a copy. Fails only if memory is refused.
    fn copy(&self, alloc: Global) -> Result<Self, AllocError>
        ensures { IfOk result (λ t. t ≡ self.now) };

    /// Returns whether two values are equal.
    fn is_same(&self, other: &Self) -> bool
        ensures { IsTrue result ↔ (self.now ≡ other.now) };
}

/// Returns a copy of a list. Fails only if memory is refused.
pub fn copy_all<T: Copied>(alloc: Global, items: &[T]) -> Result<Seq<T>, AllocError>
    ensures { IfOk result (λ copied. copied ≡ items.now) }
{
    let mut copied = Seq::new(alloc);
    for item in items {
        copied.push(item.copy(alloc)?)?;
    }
    Ok(copied)
}

/// Returns whether two lists have the same items, in the same order.
pub fn are_same<T: Copied>(items: &[T], others: &[T]) -> bool
    ensures { IsTrue result ↔ (items.now ≡ others.now) }
{
    if items.len() != others.len() {
        return false;
    }
    for (i, item) in items.iter().enumerate() {
        if !item.is_same(&others[i]) {
            return false;
        }
    }
    true
}

impl Copied for Name {
    fn copy(&self, _: Global) -> Result<Name, AllocError> {
        Ok(*self)
    }

    fn is_same(&self, other: &Name) -> bool {
        *self == *other
    }
}

impl Copied for Amount {
    fn copy(&self, _: Global) -> Result<Amount, AllocError> {
        Ok(*self)
    }

    fn is_same(&self, other: &Amount) -> bool {
        *self == *other
    }
}

impl Copied for Decimal {
    fn copy(&self, _: Global) -> Result<Decimal, AllocError> {
        Ok(*self)
    }

    fn is_same(&self, other: &Decimal) -> bool {
        *self == *other
    }
}

impl Copied for Value {
    fn copy(&self, alloc: Global) -> Result<Value, AllocError> {
        Value::copy(self, alloc)
    }

    fn is_same(&self, other: &Value) -> bool {
        Value::is_same(self, other)
    }
}

impl<T: Copied> Copied for Seq<T> {
    fn copy(&self, alloc: Global) -> Result<Seq<T>, AllocError> {
        copy_all(alloc, self.as_slice())
    }

    fn is_same(&self, other: &Seq<T>) -> bool {
        are_same(self.as_slice(), other.as_slice())
    }
}

impl Copied for Row {
    fn copy(&self, alloc: Global) -> Result<Row, AllocError> {
        Ok(Row {
            name: self.name.copy(alloc)?,
            amounts: copy_all(alloc, self.amounts.as_slice())?,
            plain: copy_all(alloc, self.plain.as_slice())?,
        })
    }

    fn is_same(&self, other: &Row) -> bool {
        self.name.is_same(&other.name)
            && are_same(self.amounts.as_slice(), other.amounts.as_slice())
            && are_same(self.plain.as_slice(), other.plain.as_slice())
    }
}
