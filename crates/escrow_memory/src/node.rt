//! What all nodes of a tree have in common.
ghost use Rattle.std.specs.Prelude.{◌≡◌, ◌+◌, ◌-◌, ◌<◌, ◌≤◌, ◌++◌, ◌∷◌, [], List, length, slice_index_or, count_by, None, IfOk, OnOk, OnErr, IfSome};
ghost use Rattle.sqlite_value.specs.Order.{Row as RowValue};
ghost use Rattle.sqlite_record.specs.Record.{decode};
ghost use Rattle.escrow_memory.specs.Rows.{spliced, entry_rows, next_rows, IsCut};
ghost use Rattle.escrow_memory.specs.Probe.{passes};

use crate::probe::Probe;
use std::alloc::{AllocError, Global};

/// A change of a node: at most one entry is removed at a place, and a new one, or none, is inserted
/// there.
#[derive(Clone, Copy, Debug)]
pub(crate) struct Change<'a> {
    pub(crate) at: usize,
    pub(crate) cut: usize,
    pub(crate) new: Option<&'a [u8]>,
    pub ghost one: { cut ≤ 1 },
}

/// A run of a tree's entries, in order. An entry is a row in SQLite's record format.
pub(crate) trait Node: Sized + Drop {
    // the rows that its entries read as
    ghost rows: { Self → List RowValue };

    /// Returns how many entries it has.
    fn len(&self) -> usize
        ensures { result ≡ length (rows self.now) };

    /// Returns whether it is small enough that two of them are joined.
    fn is_small(&self) -> bool;

    /// Returns the entry at a place.
    fn entry(&self, at: usize) -> &[u8]
        requires { at < length (rows self.now) }
        ensures { decode result.now ≡ slice_index_or (rows self.now) at [] };

    /// Returns the last entry.
    fn last(&self) -> &[u8]
        requires { 0 < length (rows self.now) }
        ensures { decode result.now ≡ slice_index_or (rows self.now) (length (rows self.now) - 1) [] };

    /// Returns how many entries pass, and the entry after them, if there is one.
    fn seek(&self, probe: Probe<'_>) -> (usize, Option<&[u8]>)
        requires { IsCut (passes probe) (rows self.now) }
        ensures place { result.0 ≡ count_by (passes probe.entry) (rows self.now) }
        ensures some { IfSome result.1
            (λ entry. (result.0 < length (rows self.now))
            × (decode entry.now ≡ slice_index_or (rows self.now) result.0 [])) }
        ensures none { result.1 ≡ None → length (rows self.now) ≤ result.0 };

    /// Returns a node of one entry.
    fn of_one(alloc: Global, entry: &[u8]) -> Result<Self, AllocError>
        ensures { IfOk result (λ node. rows node ≡ decode entry.now ∷ []) };

    /// Returns a copy, which shares the nodes below it.
    fn copy(&self, alloc: Global) -> Result<Self, AllocError>
        ensures { IfOk result (λ node. rows node ≡ rows self.now) };

    /// Makes a change. If the node became too large, it is divided, and its second part is
    /// returned. After an error the node is empty.
    fn splice(&mut self, alloc: Global, change: Change<'_>) -> Result<Option<Self>, AllocError>
        requires { change.at + change.cut ≤ length (rows self.old) }
        ensures ok { IfOk result (λ next.
            rows self.new ++ next_rows rows next
            ≡ spliced change.entry.at change.entry.cut (entry_rows change.entry.new) (rows self.old)) }
        ensures err { OnErr result (rows self.new ≡ []) };

    /// Takes over the entries of the next node. After an error the node is empty.
    fn join(&mut self, alloc: Global, next: &Self) -> Result<(), AllocError>
        ensures ok { OnOk result (rows self.new ≡ rows self.old ++ rows next.now) }
        ensures err { OnErr result (rows self.new ≡ []) };
}
