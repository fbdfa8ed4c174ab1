//! One tree, and the writes to it.
ghost use Rattle.std.specs.Prelude.{◌≡◌, ◌^◌, ◌<◌, false, [], length, slice_index_or, take, None, IsTrue, IfOk, OnOk, IfSome};
ghost use Rattle.std.specs.Ordering.{is_eq, is_lt};
ghost use Rattle.sqlite_value.specs.Value.{owned};
ghost use Rattle.sqlite_value.specs.Order.{value_cmp};
ghost use Rattle.sqlite_value.specs.Keys.{entry_cmp};
ghost use Rattle.sqlite_record.specs.Record.{decode};
ghost use Rattle.sqlite_trees.specs.Probe.{IsPlaceOf, IsTestAt};
ghost use Rattle.sqlite_trees.specs.Tree.{rowid, put_row, insert_entry, remove_entry, without_rowid};
ghost use Rattle.sqlite_trees.specs.View.{IsShaped, Finds, is_int};
ghost use Rattle.sqlite_trees.specs.Objects.{description, listing};

use crate::branch::Branch;
use crate::entries::Entries;
use crate::leaf::Leaf;
use crate::narrow::{self, with_row};
use crate::probe::{Probe, with_rowid};
use sqlite_record::fields::decode_into;
use sqlite_trees::schema::Object;
use sqlite_trees::store::Shape;
use sqlite_value::keys::Order;
use sqlite_value::row::Row;
use sqlite_value::value::ValueRef;
use std::alloc::{AllocError, Global};
use std::sync::Arc;

/// Three levels of branches over the leaves.
pub(crate) type Rows = Entries<Branch<Branch<Leaf>>>;

/// A tree. Its list of entries is that of a table, by rowid, or of an index, by its columns.
#[derive(Drop)]
pub(crate) struct Tree {
    pub(crate) shape: Shape,
    pub(crate) reals: u64,
    /// Its type, name, table and SQL text.
    pub(crate) described: Arc<Row>,
    pub(crate) rows: Rows,
    pub ghost ordered: { ∥ IsShaped shape rows ∥₁ },
}

/// A write. It is one type, so that the four writes share the steps around them.
#[derive(Clone, Copy, Debug)]
pub(crate) enum Edit<'a> {
    Put(&'a Row),
    Delete(i64),
    Insert(Order, &'a Row),
    Remove(Order, &'a Row),
}

/// Returns whether an entry was found and has the rowid.
fn has_rowid(found: Option<&[u8]>, id: ValueRef<'_>) -> bool
    ensures some { IfSome found.entry
        (λ entry. result ≡ is_eq (value_cmp (rowid (decode entry.now)) (owned id.entry))) }
    ensures none { found.entry ≡ None → result ≡ false }
{
    match found {
        Some(entry) => with_rowid(entry, id).is_eq(),
        None => false,
    }
}

/// Returns whether an entry was found and is this one.
fn is_entry(order: Order, found: Option<&[u8]>, entry: &Row) -> bool
    ensures some { IfSome found.entry (λ other. result ≡ is_eq (entry_cmp order (decode other.now) entry.now)) }
    ensures none { found.entry ≡ None → result ≡ false }
{
    match found {
        Some(other) => with_row(order, other, entry).is_eq(),
        None => false,
    }
}

/// Writes the entry's row over `row`.
pub(crate) fn read_into(entry: &[u8], row: &mut Row) -> Result<(), AllocError>
    ensures { OnOk result (row.new ≡ decode entry.now) }
{
    row.clear();
    if narrow::push_fields(entry, row)? {
        return Ok(());
    }
    row.clear();
    decode_into(entry, 0, row)
}

impl Tree {
    ghost use Rattle.escrow_memory.specs.Trees.{heading, held};

    /// Returns an empty tree.
    pub(crate) fn new(alloc: Global, object: &Object<'_>) -> Result<Tree, AllocError>
        ensures heading { IfOk result
            (λ tree. heading tree ≡ (object.now.shape, object.now.reals, description object.now)) }
        ensures rows { IfOk result (λ tree. tree.rows ≡ []) }
    {
        Ok(Tree {
            shape: object.shape,
            reals: object.reals,
            described: Arc::new(alloc, object.describe(alloc)?)?,
            rows: Entries::new(alloc),
        })
    }

    /// Returns what is used for a number that no tree has.
    pub(crate) fn absent(alloc: Global) -> Result<Tree, AllocError>
        ensures heading { IfOk result (λ tree. heading tree ≡ (Shape.Absent, 0, [])) }
        ensures rows { IfOk result (λ tree. tree.rows ≡ []) }
    {
        Ok(Tree {
            shape: Shape::Absent,
            reals: 0,
            described: Arc::new(alloc, Row::new(alloc))?,
            rows: Entries::new(alloc),
        })
    }

    /// Returns its row in `sqlite_schema`, up to the SQL text.
    pub(crate) fn listing(&self, alloc: Global, tree: usize) -> Result<Row, AllocError>
        requires { tree < 2 ^ 62 }
        ensures { IfOk result (λ row.
            row ≡ take 5 (listing tree self.now.described.value self.now.shape self.now.reals)) }
    {
        let mut row = Row::new(alloc);
        row.push(ValueRef::Int(tree as i64 + 1))?;
        row.push(self.described.get(0))?;
        row.push(self.described.get(1))?;
        row.push(self.described.get(2))?;
        row.push(self.described.get(3))?;
        Ok(row)
    }

    /// Returns a copy, which shares the nodes.
    pub(crate) fn copy(&self, alloc: Global) -> Result<Tree, AllocError>
        ensures { IfOk result (λ tree. held tree ≡ held self.now) }
    {
        Ok(Tree {
            shape: self.shape,
            reals: self.reals,
            described: self.described.clone()?,
            rows: self.rows.copy(alloc)?,
        })
    }

    /// Returns the place of the row with a rowid, and its entry, if it is where it is expected.
    fn expected(&self, id: ValueRef<'_>) -> Option<(usize, &[u8])>
        requires { self.now.shape ≡ Shape.Table }
        ensures place { IfSome result
            (λ found. IsPlaceOf (λ row. is_lt (value_cmp (rowid row) (owned id.entry))) self.now.rows found.0) }
        ensures entry { IfSome result
            (λ found. (found.0 < length self.now.rows)
            × (decode found.1.now ≡ slice_index_or self.now.rows found.0 [])) }
        ensures own { IfSome result
            (λ found. IsTrue (is_eq (value_cmp (rowid (decode found.1.now)) (owned id.entry)))) }
    {
        let (at, entry) = self.rows.expected(Probe::BelowRowid(id).number())?;
        if with_rowid(entry, id).is_eq() {
            Some((at, entry))
        } else {
            None
        }
    }

    /// Returns the place of the row with a rowid, or where it would be, and whether there is one.
    fn place_of(&self, id: ValueRef<'_>) -> (usize, bool)
        requires { self.now.shape ≡ Shape.Table }
        ensures place { IsPlaceOf (λ row. is_lt (value_cmp (rowid row) (owned id.entry))) self.now.rows result.0 }
        ensures test { IsTestAt (λ row.
            is_eq (value_cmp (rowid row) (owned id.entry))) self.now.rows result.0 result.1 }
    {
        if let Some((at, _)) = self.expected(id) {
            return (at, true);
        }
        let (at, found) = self.rows.seek(Probe::BelowRowid(id));
        (at, has_rowid(found, id))
    }

    /// Writes the row with this rowid over `row`. Returns whether there is one.
    pub(crate) fn get(&self, id: i64, row: &mut Row) -> Result<bool, AllocError>
        requires { self.now.shape ≡ Shape.Table }
        ensures { IfOk result (Finds self.now.rows id row.new) }
    {
        if let Some((_, entry)) = self.expected(ValueRef::Int(id)) {
            read_into(entry, row)?;
            return Ok(true);
        }
        self.search(id, row)
    }

    /// Does what [`Tree::get`] does, wherever the row is.
    fn search(&self, id: i64, row: &mut Row) -> Result<bool, AllocError>
        requires { self.now.shape ≡ Shape.Table }
        ensures { IfOk result (Finds self.now.rows id row.new) }
    {
        let wanted = ValueRef::Int(id);
        let (_, found) = self.rows.seek(Probe::BelowRowid(wanted));
        let Some(entry) = found else {
            return Ok(false);
        };
        if with_rowid(entry, wanted).is_eq() {
            read_into(entry, row)?;
            Ok(true)
        } else {
            Ok(false)
        }
    }

    /// Inserts a row of a table, or replaces the one with its rowid. After an error there are no
    /// rows.
    fn put(&mut self, alloc: Global, new: &Row, bytes: &[u8]) -> Result<(), AllocError>
        requires table { self.old.shape ≡ Shape.Table }
        requires keyed { IsTrue (is_int (rowid new.now)) }
        requires bytes { decode bytes.now ≡ new.now }
        ensures ok { OnOk result (self.new.rows ≡ put_row new.now self.old.rows) }
        ensures heading { heading self.new ≡ heading self.old }
    {
        let (at, is_there) = self.place_of(new.get(0));
        self.rows
            .splice(alloc, at, usize::from(is_there), Some(bytes))
    }

    /// Removes the row with this rowid. After an error there are no rows.
    fn delete(&mut self, alloc: Global, id: i64) -> Result<(), AllocError>
        requires { self.old.shape ≡ Shape.Table }
        ensures ok { OnOk result (self.new.rows ≡ without_rowid id self.old.rows) }
        ensures heading { heading self.new ≡ heading self.old }
    {
        let (at, found) = self.rows.seek(Probe::BelowRowid(ValueRef::Int(id)));
        if !has_rowid(found, ValueRef::Int(id)) {
            return Ok(());
        }
        self.rows.splice(alloc, at, 1, None)
    }

    /// Inserts an entry of an index, unless it exists. After an error there are no entries.
    fn insert(
        &mut self,
        alloc: Global,
        order: Order,
        new: &Row,
        bytes: &[u8],
    ) -> Result<(), AllocError>
        requires index { self.old.shape ≡ Shape.Index order }
        requires bytes { decode bytes.now ≡ new.now }
        ensures ok { OnOk result (self.new.rows ≡ insert_entry order new.now self.old.rows) }
        ensures heading { heading self.new ≡ heading self.old }
    {
        let (at, found) = self.rows.seek(Probe::BelowEntry(order, new));
        if is_entry(order, found, new) {
            return Ok(());
        }
        self.rows.splice(alloc, at, 0, Some(bytes))
    }

    /// Removes an entry of an index. After an error there are no entries.
    fn remove(&mut self, alloc: Global, order: Order, entry: &Row) -> Result<(), AllocError>
        requires { self.old.shape ≡ Shape.Index order }
        ensures ok { OnOk result (self.new.rows ≡ remove_entry order entry.now self.old.rows) }
        ensures heading { heading self.new ≡ heading self.old }
    {
        let (at, found) = self.rows.seek(Probe::BelowEntry(order, entry));
        if !is_entry(order, found, entry) {
            return Ok(());
        }
        self.rows.splice(alloc, at, 1, None)
    }
}

impl Edit<'_> {
    ghost use Rattle.escrow_memory.specs.Edit.{edited, Fits, Writes, written};
    ghost use Rattle.escrow_memory.specs.Trees.{heading};

    /// Returns the row that is put or inserted, if one is.
    pub(crate) fn row(&self) -> Option<&Row>
        ensures { result ≡ written self.now }
    {
        match *self {
            Edit::Put(row) | Edit::Insert(_, row) => Some(row),
            Edit::Delete(_) | Edit::Remove(_, _) => None,
        }
    }

    /// Makes the write. `bytes` is the record of the row that is put or inserted.
    pub(crate) fn apply(
        self,
        alloc: Global,
        tree: &mut Tree,
        bytes: &[u8],
    ) -> Result<(), AllocError>
        requires fits { Fits self tree.old.shape }
        requires bytes { Writes self bytes.now }
        ensures ok { OnOk result (tree.new.rows ≡ edited self.entry tree.old.rows) }
        ensures heading { heading tree.new ≡ heading tree.old }
    {
        match self {
            Edit::Put(row) => tree.put(alloc, row, bytes),
            Edit::Delete(id) => tree.delete(alloc, id),
            Edit::Insert(order, entry) => tree.insert(alloc, order, entry, bytes),
            Edit::Remove(order, entry) => tree.remove(alloc, order, entry),
        }
    }
}
