//! The entries of a tree.
ghost use Rattle.std.specs.Prelude.{◌≡◌, ◌+◌, ◌<◌, ◌≤◌, [], length, slice_index_or, count_by, IfOk, IfSome, IsTrue, OnOk, OnErr, None};
ghost use Rattle.sqlite_record.specs.Record.{decode};
ghost use Rattle.sqlite_trees.specs.Probe.{IsPlaceOf};
ghost use Rattle.escrow_memory.specs.Children.{children_rows};
ghost use Rattle.escrow_memory.specs.Rows.{spliced, entry_rows, IsCut};
ghost use Rattle.escrow_memory.specs.Probe.{passes};

use crate::branch::Branch;
use crate::node::Node;
use crate::probe::Probe;
use std::alloc::{AllocError, Global};
use std::marker::Model;
use std::mem;
use std::sync::atomic::{AtomicBool, AtomicUsize, Ordering};

/// The entries of a tree, in order, under a branch that is never divided.
#[derive(Drop)]
pub(crate) struct Entries<N: Node> {
    root: Branch<N>,
    /// The place that was found last, less the rowid that was sought, if one was. It is the same
    /// for entries that are side by side.
    offset: AtomicUsize,
    /// Whether that place was the expected one or the next. Then the place of the next search may
    /// be too.
    is_run: AtomicBool,
}

impl<N: Node> Model for Entries<N> {
    ghost use Rattle.std.specs.Prelude.{List};
    ghost use Rattle.escrow_memory.specs.Children.{children_rows};
    ghost use Rattle.sqlite_value.specs.Order.{Row as RowValue};

    ghost Value = { List RowValue };

    ghost view = { λ entries. children_rows N.rows entries.root.children.items };
}

impl<N: Node> Entries<N> {
    /// Returns an empty list of entries. Takes no memory.
    pub(crate) fn new(alloc: Global) -> Entries<N>
        ensures { result ≡ [] }
    {
        Entries {
            root: Branch::new(alloc),
            offset: AtomicUsize::new(0),
            is_run: AtomicBool::new(false),
        }
    }

    /// Returns a copy that shares the nodes below the first.
    pub(crate) fn copy(&self, alloc: Global) -> Result<Entries<N>, AllocError>
        ensures { IfOk result (λ entries. entries ≡ self.now) }
    {
        Ok(Entries {
            root: self.root.copy(alloc)?,
            offset: AtomicUsize::new(self.offset.load(Ordering::SeqCst)),
            is_run: AtomicBool::new(self.is_run.load(Ordering::SeqCst)),
        })
    }

    /// Returns the number of entries.
    pub(crate) fn len(&self) -> usize
        ensures { result ≡ length self.now }
    {
        self.root.len()
    }

    /// Returns the entry at a place, or `None` past the last.
    pub(crate) fn get(&self, at: usize) -> Option<&[u8]>
        ensures some { IfSome result
            (λ entry. (at < length self.now) × (decode entry.now ≡ slice_index_or self.now at [])) }
        ensures none { result ≡ None → length self.now ≤ at }
    {
        if at < self.root.len() {
            Some(self.root.entry(at))
        } else {
            None
        }
    }

    /// Returns whether each entry before a place passes.
    fn passes_before(&self, probe: Probe<'_>, at: usize) -> bool
        requires { IsCut (passes probe) self.now }
        ensures { IsTrue result → at ≤ count_by (passes probe.entry) self.now }
    {
        if at == 0 {
            return true;
        }
        match self.get(at - 1) {
            Some(entry) => probe.passes(entry),
            None => false,
        }
    }

    /// Returns the entry at a place, or none after the last, if no entry from there on passes.
    #[tactic(auto, using(crate::proofs::Cuts::passes_before, crate::proofs::Cuts::fails_behind, crate::proofs::Cuts::fails_past))]
    fn get_failing(&self, probe: Probe<'_>, at: usize) -> Option<Option<&[u8]>>
        requires { IsCut (passes probe) self.now }
        ensures fails { IfSome result (λ _. count_by (passes probe.entry) self.now ≤ at) }
        ensures passes { result ≡ None → at < count_by (passes probe.entry) self.now }
        ensures some { IfSome result
            (λ found. IfSome found (λ entry. (at < length self.now)
            × (decode entry.now ≡ slice_index_or self.now at []))) }
        ensures none { IfSome result (λ found. found ≡ None → length self.now ≤ at) }
    {
        match self.get(at) {
            Some(entry) if probe.passes(entry) => None,
            Some(entry) => Some(Some(entry)),
            None => Some(None),
        }
    }

    /// Returns the place after the entries that pass, and the entry there, if any, if this is
    /// `near` or the place after it.
    fn seek_near(&self, probe: Probe<'_>, near: usize) -> Option<(usize, Option<&[u8]>)>
        requires { IsCut (passes probe) self.now }
        ensures place { IfSome result (λ found. IsPlaceOf (passes probe.entry) self.now found.0) }
        ensures some { IfSome result
            (λ found. IfSome found.1 (λ entry. (found.0 < length self.now)
            × (decode entry.now ≡ slice_index_or self.now found.0 []))) }
        ensures none { IfSome result (λ found. found.1 ≡ None → length self.now ≤ found.0) }
    {
        if let Some(found) = self.get_failing(probe, near) {
            if self.passes_before(probe, near) {
                return Some((near, found));
            }
            return None;
        }
        let next = near.saturating_add(1);
        let found = self.get_failing(probe, next)?;
        Some((next, found))
    }

    /// Returns the place where the entry of a rowid is expected, and the entry there, if the last two
    /// places that were found are as far apart as their rowids.
    pub(crate) fn expected(&self, rowid: usize) -> Option<(usize, &[u8])>
        ensures { IfSome result (λ found. (found.0 < length self.now)
            × (decode found.1.now ≡ slice_index_or self.now found.0 [])) }
    {
        if !self.is_run.load(Ordering::SeqCst) {
            return None;
        }
        let at = self.offset.load(Ordering::SeqCst).wrapping_add(rowid);
        let entry = self.get(at)?;
        Some((at, entry))
    }

    /// Returns the place after the entries that pass, and the entry there, if any. The last two
    /// places may have been side by side, as when an index is walked, or as far apart as their
    /// rowids. Then the search first tries the place that follows from this.
    pub(crate) fn seek(&self, probe: Probe<'_>) -> (usize, Option<&[u8]>)
        requires { IsCut (passes probe) self.now }
        ensures place { IsPlaceOf (passes probe.entry) self.now result.0 }
        ensures some { IfSome result.1
            (λ entry. (result.0 < length self.now) × (decode entry.now ≡ slice_index_or self.now result.0 [])) }
        ensures none { result.1 ≡ None → length self.now ≤ result.0 }
    {
        let number = probe.number();
        let near = self.offset.load(Ordering::SeqCst).wrapping_add(number);
        if self.is_run.load(Ordering::SeqCst) {
            if let Some((at, found)) = self.seek_near(probe, near) {
                self.note(at.wrapping_sub(number), true);
                return (at, found);
            }
        }
        let (at, found) = self.root.seek(probe);
        self.note(
            at.wrapping_sub(number),
            at == near || at == near.saturating_add(1),
        );
        (at, found)
    }

    /// Notes the place that was found, less the number that was sought, and whether it was
    /// expected. What stays the same isn't written, since a look costs less.
    fn note(&self, offset: usize, is_run: bool) {
        if self.offset.load(Ordering::SeqCst) != offset {
            self.offset.store(offset, Ordering::SeqCst);
        }
        if self.is_run.load(Ordering::SeqCst) != is_run {
            self.is_run.store(is_run, Ordering::SeqCst);
        }
    }

    /// Removes an entry at a place, or none, and inserts a new one there, or none. After an error
    /// there are no entries.
    pub(crate) fn splice(
        &mut self,
        alloc: Global,
        at: usize,
        cut: usize,
        new: Option<&[u8]>,
    ) -> Result<(), AllocError>
        requires within { at + cut ≤ length self.old }
        requires one { cut ≤ 1 }
        ensures ok { OnOk result (self.new ≡ spliced at cut (entry_rows new.entry) self.old) }
        ensures err { OnErr result (self.new ≡ []) }
    {
        let root = mem::replace(&mut self.root, Branch::new(alloc));
        let (root, _) = root.edited(alloc, at, cut, new)?;
        self.root = root;
        Ok(())
    }
}
