//! Numbered trees, as a transaction or a savepoint sees them.
ghost use Rattle.std.specs.Prelude.{◌≡◌, ◌<◌, ◌^◌, map, length, slice_get, Some, None, IfOk, IfSome, OnOk, OnErr};
ghost use Rattle.sqlite_trees.specs.Tree.{with_tree};
ghost use Rattle.escrow_memory.specs.Edit.{edited, Fits, Writes};
ghost use Rattle.escrow_memory.specs.Trees.{held};
ghost use Rattle.escrow_memory.specs.Held.{headings, rows_of, shape_of, AreAlike, Replaces};

use crate::shared::Shared;
use crate::tree::{Edit, Tree};
use std::alloc::{AllocError, Global};

/// Trees by their numbers, and SQLite's user version. Two forests share what neither has written.
#[derive(Drop)]
pub(crate) struct Forest {
    pub(crate) trees: Vec<Shared>,
    pub(crate) version: u32,
}

impl Forest {
    ghost use Rattle.escrow_memory.specs.Store.{trees_of};

    /// Returns the tree with this number, if there is one.
    pub(crate) fn tree(&self, tree: usize) -> Option<&Tree>
        ensures some { IfSome result (λ found. slice_get (trees_of self.now) tree ≡ Some (held found.now)) }
        ensures none { result ≡ None → slice_get (trees_of self.now) tree ≡ None }
    {
        match self.trees.get(tree) {
            Some(shared) => Some(shared.tree.as_ref()),
            None => None,
        }
    }

    /// Returns a forest that shares the trees.
    pub(crate) fn share(&self, alloc: Global) -> Result<Forest, AllocError>
        ensures trees { IfOk result (λ forest. trees_of forest ≡ trees_of self.now) }
        ensures version { IfOk result (λ forest. forest.version ≡ self.now.version) }
    {
        let mut trees = Vec::with_capacity(alloc, self.trees.len())?;
        for tree in &self.trees {
            trees.push(tree.share()?)?;
        }
        Ok(Forest {
            trees,
            version: self.version,
        })
    }

    /// Makes a write in the tree with this number. After an error the headings are unchanged.
    pub(crate) fn edit(
        &mut self,
        alloc: Global,
        tree: usize,
        edit: Edit<'_>,
        bytes: &[u8],
    ) -> Result<(), AllocError>
        requires fits { Fits edit (shape_of (trees_of self.old) tree) }
        requires bytes { Writes edit bytes.now }
        ensures rows { OnOk result
            (rows_of (trees_of self.new)
            ≡ with_tree (rows_of (trees_of self.old)) tree (edited edit.entry (rows_of (trees_of self.old) tree))) }
        ensures headings { headings (trees_of self.new) ≡ headings (trees_of self.old) }
        ensures version { self.new.version ≡ self.old.version }
    {
        self.trees[tree].edit(alloc, edit, bytes)
    }

    /// Replaces the tree with this number. After an error the forest shows the same as before.
    pub(crate) fn replace(
        &mut self,
        alloc: Global,
        tree: usize,
        new: Tree,
    ) -> Result<(), AllocError>
        requires { tree < 2 ^ 32 }
        ensures ok { OnOk result (Replaces (trees_of self.old) (trees_of self.new) tree (held new)) }
        ensures err { OnErr result (AreAlike (trees_of self.old) (trees_of self.new)) }
        ensures version { self.new.version ≡ self.old.version }
    {
        let new = Shared::of(alloc, new)?;
        while self.trees.len() <= tree {
            self.trees.push(Shared::of(alloc, Tree::absent(alloc)?)?)?;
        }
        self.trees[tree] = new;
        Ok(())
    }
}
