//! Tests that find a place in a tree.
ghost use Rattle.std.specs.Prelude.{◌≡◌};
ghost use Rattle.sqlite_value.specs.Value.{owned};
ghost use Rattle.sqlite_value.specs.Order.{value_cmp};
ghost use Rattle.sqlite_record.specs.Record.{decode};
ghost use Rattle.sqlite_trees.specs.Tree.{rowid};

use crate::narrow::{first_int, with_key, with_row};
use sqlite_record::fields::Fields;
use sqlite_value::keys::Order;
use sqlite_value::order::compare;
use sqlite_value::row::Row;
use sqlite_value::value::ValueRef;
use std::cmp::Ordering;

/// A test that the entries of a tree pass up to some place, and fail from there on.
#[derive(Clone, Copy, Debug)]
pub(crate) enum Probe<'a> {
    /// The entry is below the key, over the key's columns.
    BelowKey(Order, &'a Row),
    /// The entry isn't above the key, over the key's columns.
    UpToKey(Order, &'a Row),
    /// The entry's rowid is below this one.
    BelowRowid(ValueRef<'a>),
    /// The entry is below this one.
    BelowEntry(Order, &'a Row),
}

/// Returns the first value of an entry, which is a table row's rowid, or NULL if it has none.
fn rowid_of(entry: &[u8]) -> ValueRef<'_>
    ensures { owned result ≡ rowid (decode entry.now) }
{
    let mut fields = Fields::new(entry);
    fields.next().unwrap_or(ValueRef::Null)
}

/// [`with_rowid`], for any entry and any value.
#[cold]
#[inline(never)]
fn any_with_rowid(entry: &[u8], id: ValueRef<'_>) -> Ordering
    ensures { result ≡ value_cmp (rowid (decode entry.now)) (owned id.entry) }
{
    compare(rowid_of(entry), id)
}

/// Returns how the rowid of an entry compares with a value.
#[inline(always)]
pub(crate) fn with_rowid(entry: &[u8], id: ValueRef<'_>) -> Ordering
    ensures { result ≡ value_cmp (rowid (decode entry.now)) (owned id.entry) }
{
    match (first_int(entry), id) {
        (Some(found), ValueRef::Int(wanted)) => found.cmp(&wanted),
        _ => any_with_rowid(entry, id),
    }
}

impl Probe<'_> {
    ghost use Rattle.escrow_memory.specs.Probe.{passes};

    /// Returns the rowid that is sought, or 0 if it is negative or a key is sought.
    pub(crate) fn number(self) -> usize {
        match self {
            Probe::BelowRowid(ValueRef::Int(id)) => usize::try_from(id).unwrap_or(0),
            _ => 0,
        }
    }

    /// Returns whether an entry passes.
    #[inline(always)]
    pub(crate) fn passes(self, entry: &[u8]) -> bool
        ensures { result ≡ passes self.entry (decode entry.now) }
    {
        match self {
            Probe::BelowKey(order, key) => with_key(order, entry, key).is_lt(),
            Probe::UpToKey(order, key) => !with_key(order, entry, key).is_gt(),
            Probe::BelowRowid(id) => with_rowid(entry, id).is_lt(),
            Probe::BelowEntry(order, other) => with_row(order, entry, other).is_lt(),
        }
    }
}
