//! A store in memory for the kit's SQLite: numbered trees of rows in order, cursors over them, and
//! one transaction that is always open.
//!
//! Its main contract: [`BlockStore`] meets the kit's traits `Store`, `Alter` and `Reopen`.
//!
//! Begin with [`open`], which returns an SQLite database over such a store, then read `store.rt`. A
//! tree is a B+ tree that is copied on write. From the bottom up:
//!
//! - A leaf (`leaf.rt`) holds up to 64 entries as records in SQLite's format, which the kit's
//!   `sqlite_record` writes. Integers and texts are compared and read in place in a record
//!   (`narrow.rt`), and everything else by the kit. The records' bytes are in one list, in any
//!   order; a slot for each entry says where. So an insertion writes a record after the others and
//!   moves slots of 8 bytes, and a leaf of 4 KB is copied by two moves of memory.
//! - A branch (`branch.rt`) holds up to 32 children and the number of entries of each, so an entry
//!   is found by its place as well as by its key. The code is written once, over any kind of node
//!   (`node.rt`). Three levels of branches are above the leaves. The level is part of the type, so
//!   there is no recursion.
//! - A child (`child.rt`) is a node that may have several owners. A write goes down from the first
//!   branch. A node with one owner is written in place; otherwise a copy of it is written, which
//!   shares the nodes below. A node that grew too large is divided. If the newest entry is the
//!   last, all others stay in the first part. Small neighbours are joined when something is
//!   removed.
//! - The entries of a tree (`entries.rt`) are under a branch that is never divided. A search goes
//!   down once and returns the place and the entry there. If the last two searches led to one
//!   place, or to two that are side by side or as far apart as their rowids, that place and the
//!   next are tried first. An entry there that has the rowid which is sought needs no look at the
//!   one before it.
//! - A forest (`forest.rt`) is a list of trees and SQLite's user version. The store (`store.rt`)
//!   keeps the forest of the last commit, that of the transaction once it has written, and for each
//!   savepoint that of the transaction at that time, if it had written. A commit replaces the first
//!   by the second, a rollback drops the second, and the release of a savepoint drops its forest;
//!   these take no memory. A savepoint, going back to one, and the first write of a transaction
//!   share a forest, which takes memory for its list of trees. None of these walks over entries,
//!   and there is no list of what was written.
//!
//! If a write to a tree fails because memory is refused, the transaction can only be rolled back,
//! to its beginning or to a savepoint, as the traits say. So a node that met an error is left
//! empty, and nothing has to be undone.
//!
//! The kit's own store in memory, `MemStore`, keeps each tree as one sorted list of rows, in two
//! copies. An insertion that is not the last moves what comes after it, a removal walks the whole
//! list, and the first write after a rollback copies all trees. `bench/README.md` shows what
//! `bench/stores` measured of both, beside C SQLite.
#![tactic(auto)]

mod branch;
mod child;
mod cursor;
mod database;
mod entries;
mod forest;
pub mod laws;
mod leaf;
mod narrow;
mod node;
mod probe;
mod shared;
mod slot;
mod store;
mod tree;

pub use database::open;
pub use store::BlockStore;
