//! Children of branches.
ghost use Rattle.std.specs.Prelude.{◌≡◌, ◌+◌, ◌≤◌, ◌++◌, ◌∷◌, [], length, IfOk, OnOk};
ghost use Rattle.sqlite_record.specs.Record.{decode};
ghost use Rattle.escrow_memory.specs.Rows.{spliced, entry_rows, next_rows};

use crate::node::{Change, Node};
use std::alloc::{AllocError, Global};
use std::sync::Arc;

/// A node that may have several owners, and its number of entries. With one owner it is written in
/// place. With several, a copy of it is written.
#[derive(Drop)]
pub(crate) struct Child<N: Node> {
    pub(crate) len: usize,
    pub(crate) node: Arc<N>,
}

impl<N: Node> Child<N> {
    pub(crate) fn of(alloc: Global, node: N) -> Result<Child<N>, AllocError>
        ensures node { IfOk result (λ child. child.node.value ≡ node) }
        ensures len { IfOk result (λ child. child.len ≡ length (N.rows node)) }
    {
        let len = node.len();
        Ok(Child {
            len,
            node: Arc::new(alloc, node)?,
        })
    }

    /// Returns a child of one entry.
    pub(crate) fn of_one(alloc: Global, entry: &[u8]) -> Result<Child<N>, AllocError>
        ensures rows { IfOk result (λ child. N.rows child.node.value ≡ decode entry.now ∷ []) }
        ensures len { IfOk result (λ child. child.len ≡ 1) }
    {
        Child::of(alloc, N::of_one(alloc, entry)?)
    }

    /// Returns one more owner of the node.
    pub(crate) fn share(&self) -> Result<Child<N>, AllocError>
        ensures node { IfOk result (λ child. child.node.value ≡ self.now.node.value) }
        ensures len { IfOk result (λ child. child.len ≡ self.now.len) }
    {
        Ok(Child {
            len: self.len,
            node: self.node.clone()?,
        })
    }

    /// Changes the node as [`Node::splice`] does. Nothing is promised of its state after an error.
    pub(crate) fn splice(
        &mut self,
        alloc: Global,
        change: Change<'_>,
    ) -> Result<Option<N>, AllocError>
        requires { change.at + change.cut ≤ length (N.rows self.old.node.value) }
        ensures ok { IfOk result (λ next.
            N.rows self.new.node.value
            ++ next_rows N.rows next ≡ spliced change.entry.at change.entry.cut (entry_rows change.entry.new)
            (N.rows self.old.node.value)) }
        ensures len { OnOk result (self.new.len ≡ length (N.rows self.new.node.value)) }
    {
        let next = match Arc::get_mut(&mut self.node) {
            Some(node) => node.splice(alloc, change)?,
            None => {
                let mut copy = self.node.copy(alloc)?;
                let next = copy.splice(alloc, change)?;
                self.node = Arc::new(alloc, copy)?;
                next
            }
        };
        self.len = self.node.len();
        Ok(next)
    }

    /// Joins the node with another as [`Node::join`] does. Nothing is promised of its state after
    /// an error.
    pub(crate) fn join(&mut self, alloc: Global, next: &N) -> Result<(), AllocError>
        ensures ok { OnOk result (N.rows self.new.node.value ≡ N.rows self.old.node.value ++ N.rows next.now) }
        ensures len { OnOk result (self.new.len ≡ length (N.rows self.new.node.value)) }
    {
        match Arc::get_mut(&mut self.node) {
            Some(node) => node.join(alloc, next)?,
            None => {
                let mut copy = self.node.copy(alloc)?;
                copy.join(alloc, next)?;
                self.node = Arc::new(alloc, copy)?;
            }
        }
        self.len = self.node.len();
        Ok(())
    }
}
