//! Branches of a tree.
ghost use Rattle.std.specs.Prelude.{◌≡◌, ◌+◌, ◌<◌, ◌≤◌, ◌++◌, ◌∷◌, [], take, drop, length, slice_get, None, IfOk, OnOk, IfSome};
ghost use Rattle.sqlite_record.specs.Record.{decode};
ghost use Rattle.escrow_memory.specs.Children.{children_rows, AreCounted};
ghost use Rattle.escrow_memory.specs.Rows.{spliced, entry_rows, next_rows};

use crate::child::Child;
use crate::node::{Change, Node};
use crate::probe::Probe;
use std::alloc::{AllocError, Global};
use std::mem;

/// A branch with more children is divided.
const MAX_CHILDREN: usize = 32;

/// Nodes in order. None is empty.
#[derive(Drop)]
pub(crate) struct Branch<N: Node> {
    children: Vec<Child<N>>,
    total: usize,
    ghost counted: { AreCounted N.rows children.items },
    ghost summed: { total ≡ length (children_rows N.rows children.items) },
}

/// Returns how many entries the first children have, up to a place.
fn len_before<N: Node>(children: &[Child<N>], place: usize, total: usize) -> usize
    requires counted { AreCounted N.rows children.now }
    requires summed { total ≡ length (children_rows N.rows children.now) }
    requires within { place ≤ length children.now }
    ensures { result ≡ length (children_rows N.rows (take place children.now)) }
{
    let mut before = 0;
    for child in &children[..place] {
        before += child.len;
    }
    before
}

/// Returns the child that has an entry, and the entry's place in it. With `cut` 0 this may be the
/// place after the child's last entry.
fn find<N: Node>(children: &[Child<N>], at: usize, cut: usize) -> (usize, usize)
    requires counted { AreCounted N.rows children.now }
    requires within { at + cut ≤ length (children_rows N.rows children.now) }
    requires one { cut ≤ 1 }
    ensures before { at ≡ length (children_rows N.rows (take result.0 children.now)) + result.1 }
    ensures inside { IfSome (slice_get children.now result.0)
        (λ child. result.1 + cut ≤ length (N.rows child.node.value)) }
    ensures none { slice_get children.now result.0 ≡ None → children.now ≡ [] }
    ensures found { 0 < cut → result.0 < length children.now }
    ensures place { result.0 ≤ length children.now }
{
    let mut place = 0;
    let mut left = at;
    while place < children.len() {
        let len = children[place].len;
        if left <= len - cut {
            break;
        }
        left -= len;
        place += 1;
    }
    (place, left)
}

/// Puts the second part of a divided child after the first.
fn add_next<N: Node>(
    alloc: Global,
    children: &mut Vec<Child<N>>,
    place: usize,
    next: Option<N>,
) -> Result<(), AllocError>
    requires { place < length children.old.items }
    ensures rows { OnOk result
        (children_rows N.rows children.new.items ≡ children_rows N.rows (take (place + 1) children.old.items)
        ++ next_rows N.rows next ++ children_rows N.rows (drop (place + 1) children.old.items)) }
    ensures front { OnOk result (take (place + 1) children.new.items ≡ take (place + 1) children.old.items) }
    ensures back { OnOk result (AreCounted N.rows (drop (place + 1) children.old.items)
        → AreCounted N.rows (drop (place + 1) children.new.items)) }
{
    match next {
        Some(node) if node.len() > 0 => {
            children.insert(place + 1, Child::of(alloc, node)?)?;
        }
        _ => {}
    }
    Ok(())
}

/// Joins a child with the next, if both are small.
fn join_small<N: Node>(
    alloc: Global,
    children: &mut Vec<Child<N>>,
    place: usize,
) -> Result<(), AllocError>
    requires { AreCounted N.rows children.old.items }
    ensures rows { OnOk result (children_rows N.rows children.new.items ≡ children_rows N.rows children.old.items) }
    ensures counted { OnOk result (AreCounted N.rows children.new.items) }
{
    if place < children.len().saturating_sub(1)
        && children[place].node.is_small()
        && children[place + 1].node.is_small()
    {
        let next = children.remove(place + 1);
        children[place].join(alloc, &next.node)?;
    }
    Ok(())
}

/// Changes one child as [`Node::splice`] does.
fn splice_child<N: Node>(
    alloc: Global,
    children: &mut Vec<Child<N>>,
    place: usize,
    at: usize,
    cut: usize,
    new: Option<&[u8]>,
) -> Result<(), AllocError>
    requires counted { AreCounted N.rows children.old.items }
    requires inside { IfSome (slice_get children.old.items place)
        (λ child. at + cut ≤ length (N.rows child.node.value)) }
    requires place { place < length children.old.items }
    requires one { cut ≤ 1 }
    ensures rows { OnOk result
        (children_rows N.rows children.new.items
        ≡ spliced (length (children_rows N.rows (take place children.old.items)) + at) cut (entry_rows new.entry)
        (children_rows N.rows children.old.items)) }
    ensures counted { OnOk result (AreCounted N.rows children.new.items) }
{
    let next = children[place].splice(alloc, Change { at, cut, new })?;
    add_next(alloc, children, place, next)?;
    if children[place].len == 0 {
        children.remove(place);
    }
    Ok(())
}

/// Changes the children as [`Node::splice`] does, and returns which child was changed.
fn edit_children<N: Node>(
    alloc: Global,
    children: &mut Vec<Child<N>>,
    at: usize,
    cut: usize,
    new: Option<&[u8]>,
) -> Result<usize, AllocError>
    requires counted { AreCounted N.rows children.old.items }
    requires within { at + cut ≤ length (children_rows N.rows children.old.items) }
    requires one { cut ≤ 1 }
    ensures rows { OnOk result
        (children_rows N.rows children.new.items
        ≡ spliced at cut (entry_rows new.entry) (children_rows N.rows children.old.items)) }
    ensures counted { OnOk result (AreCounted N.rows children.new.items) }
{
    let (place, within) = find(children.as_slice(), at, cut);
    if place < children.len() {
        splice_child(alloc, children, place, within, cut, new)?;
        if new.is_none() {
            // With the next, and then with the one before it.
            join_small(alloc, children, place)?;
            join_small(alloc, children, place.saturating_sub(1))?;
        }
    } else if let Some(entry) = new {
        children.push(Child::of_one(alloc, entry)?)?;
    }
    Ok(place)
}

/// Appends children that share the nodes of others.
fn share_all<N: Node>(children: &mut Vec<Child<N>>, others: &[Child<N>]) -> Result<(), AllocError>
    ensures rows { OnOk result
        (children_rows N.rows children.new.items ≡ children_rows N.rows children.old.items
        ++ children_rows N.rows others.now) }
    ensures counted { OnOk result (AreCounted N.rows children.old.items → AreCounted N.rows others.now
        → AreCounted N.rows children.new.items) }
{
    for child in others {
        children.push(child.share()?)?;
    }
    Ok(())
}

impl<N: Node> Branch<N> {
    /// Returns a branch without entries. Takes no memory.
    pub(crate) fn new(alloc: Global) -> Branch<N>
        ensures { result.children.items ≡ [] }
    {
        Branch {
            children: Vec::new(alloc),
            total: 0,
        }
    }

    /// Returns the branch with an entry removed at a place, or none, and a new one inserted there,
    /// or none; and which child was changed.
    pub(crate) fn edited(
        self,
        alloc: Global,
        at: usize,
        cut: usize,
        new: Option<&[u8]>,
    ) -> Result<(Branch<N>, usize), AllocError>
        requires within { at + cut ≤ length (children_rows N.rows self.children.items) }
        requires one { cut ≤ 1 }
        ensures { IfOk result (λ done.
            children_rows N.rows done.0.children.items
            ≡ spliced at cut (entry_rows new.entry) (children_rows N.rows self.children.items)) }
    {
        let Branch {
            mut children,
            total,
        } = self;
        let added = usize::from(new.is_some());
        let total = (total - cut).checked_add(added).ok_or(AllocError)?;
        let place = edit_children(alloc, &mut children, at, cut, new)?;
        Ok((Branch { children, total }, place))
    }

    /// Returns the branch, divided in two if it is too large. If the newest child is the last, as
    /// when entries come in order, the first part is as full as a branch may be.
    fn divided(self, newest: usize) -> Result<(Branch<N>, Option<Branch<N>>), AllocError>
        ensures { IfOk result (λ parts.
            children_rows N.rows parts.0.children.items ++ next_rows
            (λ branch. children_rows N.rows branch.children.items) parts.1 ≡ children_rows N.rows self.children.items) }
    {
        let Branch {
            mut children,
            total,
        } = self;
        let len = children.len();
        if len <= MAX_CHILDREN {
            return Ok((Branch { children, total }, None));
        }
        let middle = if newest < len - 2 { len / 2 } else { len - 1 };
        let before = len_before(children.as_slice(), middle, total);
        let behind = children.split_off(middle)?;
        let first = Branch {
            children,
            total: before,
        };
        let second = Branch {
            children: behind,
            total: total - before,
        };
        Ok((first, Some(second)))
    }

    /// Returns the branch after a change, divided in two if it became too large.
    fn changed(
        self,
        alloc: Global,
        change: Change<'_>,
    ) -> Result<(Branch<N>, Option<Branch<N>>), AllocError>
        requires { change.at + change.cut ≤ length (children_rows N.rows self.children.items) }
        ensures { IfOk result (λ parts.
            children_rows N.rows parts.0.children.items ++ next_rows
            (λ branch. children_rows N.rows branch.children.items) parts.1
            ≡ spliced change.entry.at change.entry.cut (entry_rows change.entry.new)
            (children_rows N.rows self.children.items)) }
    {
        let Change { at, cut, new } = change;
        let (branch, place) = self.edited(alloc, at, cut, new)?;
        branch.divided(place)
    }
}

impl<N: Node> Node for Branch<N> {
    ghost rows = { λ branch. children_rows N.rows branch.children.items };

    fn len(&self) -> usize {
        self.total
    }

    fn is_small(&self) -> bool {
        self.children.len() <= MAX_CHILDREN / 4
    }

    fn entry(&self, at: usize) -> &[u8] {
        let (place, within) = find(self.children.as_slice(), at, 1);
        self.children[place].node.entry(within)
    }

    fn last(&self) -> &[u8] {
        self.children[self.children.len() - 1].node.last()
    }

    fn seek(&self, probe: Probe<'_>) -> (usize, Option<&[u8]>) {
        if self.children.is_empty() {
            return (0, None);
        }
        let mut low = 0;
        let mut high = self.children.len() - 1;
        while low < high {
            let middle = low + (high - low) / 2;
            if probe.passes(self.children[middle].node.last()) {
                low = middle + 1;
            } else {
                high = middle;
            }
        }
        let before = len_before(self.children.as_slice(), low, self.total);
        let (within, found) = self.children[low].node.seek(probe);
        (before + within, found)
    }

    fn of_one(alloc: Global, entry: &[u8]) -> Result<Branch<N>, AllocError> {
        let (branch, _) = Branch::new(alloc).edited(alloc, 0, 0, Some(entry))?;
        Ok(branch)
    }

    fn copy(&self, alloc: Global) -> Result<Branch<N>, AllocError> {
        let mut children = Vec::with_capacity(alloc, self.children.len())?;
        share_all(&mut children, self.children.as_slice())?;
        Ok(Branch {
            children,
            total: self.total,
        })
    }

    fn splice(
        &mut self,
        alloc: Global,
        change: Change<'_>,
    ) -> Result<Option<Branch<N>>, AllocError> {
        let branch = mem::replace(self, Branch::new(alloc));
        let (first, second) = branch.changed(alloc, change)?;
        *self = first;
        Ok(second)
    }

    fn join(&mut self, alloc: Global, next: &Branch<N>) -> Result<(), AllocError> {
        let Branch {
            mut children,
            total,
        } = mem::replace(self, Branch::new(alloc));
        let total = total.checked_add(next.total).ok_or(AllocError)?;
        share_all(&mut children, next.children.as_slice())?;
        *self = Branch { children, total };
        Ok(())
    }
}
