//! The store: the trees of the last commit, of the transaction, and of its savepoints.
ghost use Rattle.std.specs.Prelude.{◌≡◌, ◌≢◌, ℕ, ◌<◌, ◌^◌, false, [], ◌∷◌, map, refl, true, IfOk, OnOk, OnErr};
ghost use Rattle.std.proofs.Common.{true≢false};
ghost use Rattle.sqlite_trees.specs.View.{shapes_of, reals_of};
ghost use Rattle.sqlite_trees.specs.Objects.{listing};

use crate::cursor::Cursor;
use crate::forest::Forest;
use crate::probe::Probe;
use crate::shared::Shared;
use crate::tree::{Edit, Tree, read_into};
use sqlite_record::encode::encode;
use sqlite_trees::error::StoreError;
use sqlite_trees::schema::Object;
use sqlite_trees::store::{Alter, Direction, Reopen, Shape, Store};
use sqlite_trees::typed::is_typed;
use sqlite_value::row::Row;
use std::alloc::{AllocError, Global};
use std::sync::Arc;

/// Numbered trees of rows in memory, and numbered cursors over them, with one transaction that is
/// always open, as the kit's traits [`Store`] and [`Alter`] require. Its only error of its own is
/// `OutOfMemory`, whenever memory is refused. After a write that meets it, the transaction can only
/// be rolled back, wholly or to a savepoint, and the last commit is unchanged. Commit, rollback and
/// release take no memory. It keeps nothing on a disk: a crash leaves the last commit, for as long
/// as the program runs.
pub struct BlockStore {
    alloc: Global,
    /// The trees as the last commit left them.
    base: Forest,
    /// The trees as the transaction sees them, if it has written.
    changed: Option<Forest>,
    /// The trees as the transaction saw them at each savepoint, if it had written.
    marks: Vec<Option<Forest>>,
    cursors: Vec<Option<Cursor>>,
    is_broken: bool,
    /// Scratch space for the record of a row that is written.
    types: Vec<u8>,
    bytes: Vec<u8>,
}

// Written out, so that crates above need not prove again how its parts are dropped.
impl Drop for BlockStore {
    fn drop(self) {
        let BlockStore {
            alloc: _,
            base: _,
            changed: _,
            marks: _,
            cursors: _,
            is_broken: _,
            types: _,
            bytes: _,
        } = self;
    }
}

impl BlockStore {
    ghost use Rattle.std.specs.Prelude.{IfErr, unwrap_or};
    ghost use Rattle.escrow_memory.specs.declared.forest.Forest.{Forest as ForestValue};
    ghost use Rattle.sqlite_trees.specs.Tree.{order_of, sought};
    ghost use Rattle.sqlite_trees.specs.View.{IsClean, SetsTree, OnlyWrites, KeepsSchema, IsQuiet, IsFailure, HasCause, IsStorable};
    ghost use Rattle.sqlite_trees.specs.Objects.{catalog_tree, version_tree, version_rows, set_at, Relists};
    ghost use Rattle.escrow_memory.specs.Edit.{edited, Fits, Storable, Writes};
    ghost use Rattle.sqlite_record.specs.Refusal.{IsRefusal};
    ghost use Rattle.escrow_memory.specs.Held.{headings, rows_of, shape_of};
    ghost use Rattle.escrow_memory.specs.Trees.{held};
    ghost use Rattle.escrow_memory.specs.Store.{trees_of, current, left_of, block_view, over_blocks, SetsCursor, Steps, IsReplaced};

    /// Returns a store with an empty tree for each object, listed as that object. Fails only if
    /// memory is refused.
    pub fn new(alloc: Global, schema: &[Object<'_>]) -> Result<BlockStore, AllocError>
        ensures shape { IfOk result
            (λ s. (block_view s).shape
            ≡ set_at (set_at (shapes_of schema.now) catalog_tree Shape.Table) version_tree Shape.Table) }
        ensures reals { IfOk result
            (λ s. (t : ℕ) → t ≢ catalog_tree → t ≢ version_tree → shapes_of schema.now t ≢ Shape.Absent
            → (block_view s).reals t ≡ reals_of schema.now t) }
        ensures empty { IfOk result (λ s. (t : ℕ) → t ≢ catalog_tree → t ≢ version_tree → (block_view s).trees t ≡ []) }
        ensures version { IfOk result (λ s. (block_view s).trees version_tree ≡ version_rows 0) }
        ensures unlisted { IfOk result (λ s. schema.now ≡ [] → (block_view s).trees catalog_tree ≡ []) }
        ensures clean { IfOk result (λ s. (block_view s).trees ≡ (block_view s).committed) }
        ensures sound { IfOk result (λ s. (block_view s).is_broken ≡ false) }
        ensures unmarked { IfOk result (λ s. (block_view s).marks ≡ []) }
    {
        let mut trees = Vec::new(alloc);
        for object in schema {
            trees.push(Shared::of(alloc, Tree::new(alloc, object)?)?)?;
        }
        Ok(BlockStore {
            alloc,
            base: Forest { trees, version: 0 },
            changed: None,
            marks: Vec::new(alloc),
            cursors: Vec::new(alloc),
            is_broken: false,
            types: Vec::new(alloc),
            bytes: Vec::new(alloc),
        })
    }

    /// Returns the trees that the transaction sees.
    fn current(&self) -> &Forest
        ensures { result.now ≡ current self.now }
    {
        match &self.changed {
            Some(forest) => forest,
            None => &self.base,
        }
    }

    /// Returns the cursor that a seek places.
    fn placed(&self, tree: usize, key: &Row, direction: Direction) -> Cursor
        ensures { left_of (trees_of (current self.now)) result
            ≡ sought (order_of (shape_of (trees_of (current self.now)) tree)) direction key.now
            (rows_of (trees_of (current self.now)) tree) }
    {
        let Some(found) = self.current().tree(tree) else {
            return Cursor {
                tree,
                at: 0,
                direction,
            };
        };
        let order = found.shape.order();
        let (at, _) = match direction {
            Direction::Forward => found.rows.seek(Probe::BelowKey(order, key)),
            Direction::Backward => found.rows.seek(Probe::UpToKey(order, key)),
        };
        Cursor {
            tree,
            at,
            direction,
        }
    }

    /// Sets a cursor, with room made for its number.
    fn set_cursor(
        cursors: &mut Vec<Option<Cursor>>,
        at: usize,
        cursor: Cursor,
    ) -> Result<(), AllocError>
        ensures ok { OnOk result (SetsCursor cursors.old.items cursors.new.items at cursor) }
    {
        while cursors.len() <= at {
            cursors.push(None)?;
        }
        cursors[at] = Some(cursor);
        Ok(())
    }

    /// Returns the cursor after it has given a row, or `None` at its end.
    fn step(&self, cursor: Cursor, row: &mut Row) -> Result<Option<Cursor>, AllocError>
        ensures { IfOk result (Steps (trees_of (current self.now)) cursor row.new) }
    {
        let Some(tree) = self.current().tree(cursor.tree) else {
            return Ok(None);
        };
        let len = tree.rows.len();
        let (at, next) = match cursor.direction {
            Direction::Forward if cursor.at < len => (cursor.at, cursor.at + 1),
            Direction::Backward if 0 < cursor.at.min(len) => {
                let at = cursor.at.min(len) - 1;
                (at, at)
            }
            _ => return Ok(None),
        };
        if let Some(entry) = tree.rows.get(at) {
            read_into(entry, row)?;
        }
        Ok(Some(Cursor { at: next, ..cursor }))
    }

    /// Returns one more owner of the trees that the transaction has written, if it has.
    fn share_changed(alloc: Global, changed: &Option<Forest>) -> Result<Option<Forest>, AllocError>
        ensures { (base : ForestValue)
            → IfOk result (λ mark. (trees_of (unwrap_or mark base) ≡ trees_of (unwrap_or changed.now base))
            × ((unwrap_or mark base).version ≡ (unwrap_or changed.now base).version)) }
    {
        match changed {
            Some(forest) => Ok(Some(forest.share(alloc)?)),
            None => Ok(None),
        }
    }

    /// Returns the trees that the transaction sees, for writing.
    fn take_changed(&mut self) -> Result<Forest, AllocError>
        ensures trees { IfOk result (λ forest. trees_of forest ≡ trees_of (current self.old)) }
        ensures version { IfOk result (λ forest. forest.version ≡ (current self.old).version) }
        ensures err { OnErr result (self.new ≡ self.old) }
        ensures rest { self.new ≡ record self.old { changed = self.new.changed } }
    {
        match self.changed.take() {
            Some(forest) => Ok(forest),
            None => self.base.share(self.alloc),
        }
    }

    /// Writes the record of the row that is put or inserted, if one is, into the scratch space.
    fn encode(&mut self, edit: Edit<'_>) -> Result<(), StoreError>
        ensures ok { OnOk result (Writes edit.entry self.new.bytes.items) }
        ensures err { (reals : ℕ) → IfErr result (IsRefusal (Storable reals edit.entry)) }
        ensures rest { self.new ≡ record self.old { types = self.new.types; bytes = self.new.bytes } }
    {
        if let Some(row) = edit.row() {
            encode(row, 0, &mut self.types, &mut self.bytes)?;
        }
        Ok(())
    }

    /// Makes a write in the tree with this number, as [`Store`] requires of its four. After any
    /// error but `Unstorable`, the transaction can only be rolled back, wholly or to a savepoint.
    fn write(&mut self, tree: u32, edit: Edit<'_>) -> Result<(), StoreError>
        requires { Fits edit ((block_view self.old).shape tree) }
        ensures ok { OnOk result (IsClean (block_view self.new)
            → SetsTree (block_view self.old) (block_view self.new) tree (edited edit.entry)) }
        ensures frame { OnOk result (IsClean (block_view self.new)
            → OnlyWrites (block_view self.old) (block_view self.new)) }
        ensures schema { KeepsSchema (block_view self.old) (block_view self.new) }
        ensures quiet { IsQuiet block_view over_blocks.faults over_blocks.recovers over_blocks.is_shielded self.old
            self.new }
        ensures err { IfErr result (IsFailure (block_view self.old) (block_view self.new)) }
        ensures cause { (reals : ℕ) → IfErr result (HasCause (block_view self.old) ⊥ (¬ Storable reals edit.entry)) }
    {
        if self.is_broken {
            return Err(StoreError::Broken);
        }
        self.encode(edit)?;
        self.is_broken = true;
        let mut forest = self.take_changed()?;
        let done = forest.edit(self.alloc, tree as usize, edit, self.bytes.as_slice());
        self.changed = Some(forest);
        done?;
        self.cursors.clear();
        self.is_broken = false;
        Ok(())
    }

    /// Replaces the tree with this number. After an error, the transaction can only be rolled back,
    /// wholly or to a savepoint.
    fn replace(&mut self, tree: u32, new: Tree) -> Result<(), StoreError>
        ensures ok { OnOk result (IsReplaced self.old self.new tree (held new)) }
        ensures err { IfErr result (IsFailure (block_view self.old) (block_view self.new)) }
        ensures cause { IfErr result (HasCause (block_view self.old) ⊥ ⊥) }
        ensures base { (self.new.base ≡ self.old.base) × (self.new.marks ≡ self.old.marks) }
    {
        if self.is_broken {
            return Err(StoreError::Broken);
        }
        self.is_broken = true;
        let mut forest = self.take_changed()?;
        let done = forest.replace(self.alloc, tree as usize, new);
        self.changed = Some(forest);
        done?;
        self.cursors.clear();
        self.is_broken = false;
        Ok(())
    }

    /// Lists a tree as another object, with its rows.
    fn relist_one(&mut self, change: &(u32, Object<'_>)) -> Result<(), StoreError>
        requires shaped { (block_view self.old).shape change.now.0 ≡ change.now.1.shape }
        requires present { change.now.1.shape ≢ Shape.Absent }
        ensures ok { OnOk result (Relists (block_view self.old) (block_view self.new) (change.now ∷ [])) }
        ensures err { IfErr result (IsFailure (block_view self.old) (block_view self.new)) }
        ensures base { (self.new.base ≡ self.old.base) × (self.new.marks ≡ self.old.marks) }
    {
        let (tree, object) = change;
        let mut new = self.current().trees[*tree as usize].tree.copy(self.alloc)?;
        new.described = Arc::new(self.alloc, object.describe(self.alloc)?)?;
        new.reals = object.reals;
        self.replace(*tree, new)
    }
}

impl Store for BlockStore {
    ghost use Rattle.escrow_memory.specs.Store.{block_view};
    ghost use Rattle.escrow_memory.specs.Kept.{blocks_are_ordered, blocks_are_unaltered};

    ghost view = { block_view };

    ghost faults = { λ _. 0 };

    ghost recovers = { λ s db. db ≡ (block_view s).committed };

    ghost is_shielded = { λ _. Unit {0} };

    ghost is_step = { λ _ _ _. Unit {0} };

    ghost ordered = { λ s _. blocks_are_ordered s };

    ghost shut_if_dirty = { λ s dirty. absurd (true≢false dirty) };

    ghost empty_if_dirty = { λ s dirty. absurd (true≢false dirty) };

    ghost broken_if_shut = { λ s shut. absurd (true≢false shut) };

    ghost settled = { λ s db _ same. same };

    ghost stays = { λ s _. refl };

    ghost survives = { λ s _. ∣ (_, refl) ∣₁ };

    ghost unaltered = { λ s _. blocks_are_unaltered s };

    fn is_broken(&self) -> bool {
        self.is_broken
    }

    fn tree_count(&self) -> u64 {
        let mut count = (self.current().trees.len() as u64).min(1 << 32);
        while count > 0 && self.shape((count - 1) as u32) == Shape::Absent {
            count -= 1;
        }
        count
    }

    fn reals(&self, tree: u32) -> u64 {
        match self.current().tree(tree as usize) {
            Some(found) if found.shape != Shape::Absent => found.reals,
            _ => 0,
        }
    }

    fn shape(&self, tree: u32) -> Shape {
        match self.current().tree(tree as usize) {
            Some(found) => found.shape,
            None => Shape::Absent,
        }
    }

    fn seek(
        &mut self,
        cursor: u16,
        tree: u32,
        key: &Row,
        direction: Direction,
    ) -> Result<(), StoreError> {
        if self.is_broken {
            return Err(StoreError::Broken);
        }
        let placed = self.placed(tree as usize, key, direction);
        Ok(Self::set_cursor(&mut self.cursors, usize::from(cursor), placed)?)
    }

    fn next(&mut self, cursor: u16, row: &mut Row) -> Result<bool, StoreError> {
        if self.is_broken {
            return Err(StoreError::Broken);
        }
        let at = usize::from(cursor);
        match self.step(self.cursors[at].unwrap(), row)? {
            Some(moved) => {
                self.cursors[at] = Some(moved);
                Ok(true)
            }
            None => Ok(false),
        }
    }

    fn get(&mut self, table: u32, id: i64, row: &mut Row) -> Result<bool, StoreError> {
        if self.is_broken {
            return Err(StoreError::Broken);
        }
        match self.current().tree(table as usize) {
            Some(found) => Ok(found.get(id, row)?),
            None => Ok(false),
        }
    }

    fn put(&mut self, table: u32, row: &Row) -> Result<(), StoreError> {
        if row.len() < 2 || !is_typed(row, self.reals(table)) {
            return Err(StoreError::Unstorable);
        }
        self.write(table, Edit::Put(row))
    }

    fn delete(&mut self, table: u32, id: i64) -> Result<(), StoreError> {
        self.write(table, Edit::Delete(id))
    }

    fn insert(&mut self, index: u32, entry: &Row) -> Result<(), StoreError> {
        if !is_typed(entry, self.reals(index)) {
            return Err(StoreError::Unstorable);
        }
        self.write(index, Edit::Insert(self.shape(index).order(), entry))
    }

    fn remove(&mut self, index: u32, entry: &Row) -> Result<(), StoreError> {
        self.write(index, Edit::Remove(self.shape(index).order(), entry))
    }

    fn commit(&mut self) -> Result<(), StoreError> {
        if self.is_broken {
            self.rollback();
            return Err(StoreError::Broken);
        }
        self.marks.clear();
        if let Some(forest) = self.changed.take() {
            self.base = forest;
        }
        Ok(())
    }

    fn rollback(&mut self) {
        self.changed = None;
        self.marks.clear();
        self.cursors.clear();
        self.is_broken = false;
    }

    fn savepoint(&mut self) -> Result<(), StoreError> {
        if self.is_broken {
            return Err(StoreError::Broken);
        }
        let mark = Self::share_changed(self.alloc, &self.changed)?;
        Ok(self.marks.push(mark)?)
    }

    fn release(&mut self) -> Result<(), StoreError> {
        self.marks.pop();
        Ok(())
    }

    fn rollback_to(&mut self) -> Result<(), StoreError> {
        let Some(mark) = self.marks.last() else {
            return Ok(());
        };
        self.changed = Self::share_changed(self.alloc, mark)?;
        self.cursors.clear();
        self.is_broken = false;
        Ok(())
    }
}

impl Alter for BlockStore {
    ghost use Rattle.escrow_memory.specs.Kept.{blocks_are_listed};

    ghost listed = { λ s _. blocks_are_listed s };

    fn objects(&self, alloc: Global) -> Result<Vec<Row>, AllocError> {
        let mut rows = Vec::new(alloc);
        let trees = self.current().trees.as_slice();
        for at in 0..trees.len() {
            let tree = trees[at].tree.as_ref();
            if tree.shape != Shape::Absent {
                rows.push(tree.listing(alloc, at)?)?;
            }
        }
        Ok(rows)
    }

    fn create(&mut self, tree: u32, object: &Object<'_>) -> Result<(), StoreError> {
        let new = Tree::new(self.alloc, object)?;
        self.replace(tree, new)
    }

    fn destroy(&mut self, tree: u32) -> Result<(), StoreError> {
        let absent = Tree::absent(self.alloc)?;
        self.replace(tree, absent)
    }

    fn version(&self) -> u32 {
        self.current().version
    }

    fn set_version(&mut self, version: u32) -> Result<(), StoreError> {
        if self.is_broken {
            return Err(StoreError::Broken);
        }
        let mut forest = self.take_changed()?;
        forest.version = version;
        self.changed = Some(forest);
        Ok(())
    }

    fn relist(&mut self, changes: &[(u32, Object<'_>)]) -> Result<(), StoreError> {
        if self.is_broken {
            return Err(StoreError::Broken);
        }
        for change in changes {
            if self.relist_one(change).is_err() {
                self.is_broken = true;
                return Err(StoreError::OutOfMemory);
            }
        }
        Ok(())
    }
}

impl Reopen for BlockStore {
    fn crash_and_reopen(&mut self) -> Result<(), StoreError> {
        self.rollback();
        Ok(())
    }
}
