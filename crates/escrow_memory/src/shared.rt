//! Trees with several owners.
ghost use Rattle.std.specs.Prelude.{◌≡◌, IfOk, OnOk};
ghost use Rattle.escrow_memory.specs.Edit.{edited, Fits, Writes};
ghost use Rattle.escrow_memory.specs.Trees.{heading};

use crate::tree::{Edit, Tree};
use std::alloc::{AllocError, Global};
use std::sync::Arc;

/// A tree that may have several owners. With one owner it is written in place. With several, a copy
/// of it is written.
#[derive(Drop)]
pub(crate) struct Shared {
    pub(crate) tree: Arc<Tree>,
}

impl Shared {
    pub(crate) fn of(alloc: Global, tree: Tree) -> Result<Shared, AllocError>
        ensures { IfOk result (λ shared. shared.tree.value ≡ tree) }
    {
        Ok(Shared {
            tree: Arc::new(alloc, tree)?,
        })
    }

    /// Returns one more owner of the tree.
    pub(crate) fn share(&self) -> Result<Shared, AllocError>
        ensures { IfOk result (λ shared. shared.tree.value ≡ self.now.tree.value) }
    {
        Ok(Shared {
            tree: self.tree.clone()?,
        })
    }

    /// Makes a write. After an error the heading is unchanged.
    pub(crate) fn edit(
        &mut self,
        alloc: Global,
        edit: Edit<'_>,
        bytes: &[u8],
    ) -> Result<(), AllocError>
        requires fits { Fits edit self.old.tree.value.shape }
        requires bytes { Writes edit bytes.now }
        ensures ok { OnOk result (self.new.tree.value.rows ≡ edited edit.entry self.old.tree.value.rows) }
        ensures heading { heading self.new.tree.value ≡ heading self.old.tree.value }
    {
        match Arc::get_mut(&mut self.tree) {
            Some(tree) => edit.apply(alloc, tree, bytes),
            None => {
                let mut copy = self.tree.copy(alloc)?;
                edit.apply(alloc, &mut copy, bytes)?;
                self.tree = Arc::new(alloc, copy)?;
                Ok(())
            }
        }
    }
}
