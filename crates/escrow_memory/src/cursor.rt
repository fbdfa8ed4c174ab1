//! Cursors over trees.

use sqlite_trees::store::Direction;

/// A cursor over the entries of a tree. A forward one has the entries from `at` on left, and a
/// backward one those before `at`.
#[derive(Clone, Copy, Debug)]
pub(crate) struct Cursor {
    pub(crate) tree: usize,
    pub(crate) at: usize,
    pub(crate) direction: Direction,
}
