//! Leaves of a tree.
ghost use Rattle.std.specs.Prelude.{◌≡◌, ◌+◌, ◌≤◌, ◌++◌, ◌∷◌, [], length, map, All, IfOk};
ghost use Rattle.sqlite_record.specs.Record.{decode};
ghost use Rattle.escrow_memory.specs.Slot.{slot_row, IsWithin};
ghost use Rattle.escrow_memory.specs.Rows.{spliced, entry_rows, next_rows};

use crate::node::{Change, Node};
use crate::probe::Probe;
use crate::slot::Slot;
use std::alloc::{AllocError, Global};
use std::mem;

/// A leaf with more entries is divided.
const MAX_ENTRIES: usize = 64;

/// A leaf with more bytes is rewritten without the bytes that no entry uses, or divided.
const MAX_BYTES: usize = 4096;

/// Spare bytes for one entry in the copy of a leaf.
const ROOM: usize = 64;

/// Entries in order. Their bytes are in one list, in any order. An entry that is removed leaves its
/// bytes there until the leaf is rewritten.
#[derive(Debug, Drop)]
pub(crate) struct Leaf {
    bytes: Vec<u8>,
    slots: Vec<Slot>,
    ghost within: { All (IsWithin (length bytes.items)) slots.items },
}

impl Leaf {
    ghost use Rattle.escrow_memory.specs.Leaf.{leaf_rows};

    fn new(alloc: Global) -> Leaf
        ensures { leaf_rows result ≡ [] }
    {
        Leaf {
            bytes: Vec::new(alloc),
            slots: Vec::new(alloc),
        }
    }

    /// Returns the leaf with one more entry at its end.
    fn with(self, entry: &[u8]) -> Result<Leaf, AllocError>
        ensures { IfOk result (λ leaf. leaf_rows leaf ≡ leaf_rows self ++ decode entry.now ∷ []) }
    {
        let Leaf {
            mut bytes,
            mut slots,
        } = self;
        let slot = Slot::append(&mut bytes, entry)?;
        slots.push(slot)?;
        Ok(Leaf { bytes, slots })
    }

    /// Returns the leaf with more entries, whose bytes are in another list, at its end.
    fn with_all(self, bytes: &[u8], slots: &[Slot]) -> Result<Leaf, AllocError>
        requires { All (IsWithin (length bytes.now)) slots.now }
        ensures { IfOk result (λ leaf. leaf_rows leaf ≡ leaf_rows self ++ map (slot_row bytes.now) slots.now) }
    {
        let mut leaf = self;
        for slot in slots {
            leaf = leaf.with(slot.of(bytes))?;
        }
        Ok(leaf)
    }

    /// Returns a leaf with these entries alone, with spare room for a number of bytes.
    fn packed(alloc: Global, room: usize, bytes: &[u8], slots: &[Slot]) -> Result<Leaf, AllocError>
        requires { All (IsWithin (length bytes.now)) slots.now }
        ensures { IfOk result (λ leaf. leaf_rows leaf ≡ map (slot_row bytes.now) slots.now) }
    {
        let leaf = Leaf {
            bytes: Vec::with_capacity(alloc, room)?,
            slots: Vec::with_capacity(alloc, slots.len())?,
        };
        leaf.with_all(bytes, slots)
    }

    /// Returns the leaf with an entry removed at a place, or none, and a new one inserted there, or
    /// none.
    fn edited(self, at: usize, cut: usize, new: Option<&[u8]>) -> Result<Leaf, AllocError>
        requires within { at + cut ≤ length (leaf_rows self) }
        requires one { cut ≤ 1 }
        ensures { IfOk result (λ leaf. leaf_rows leaf ≡ spliced at cut (entry_rows new.entry) (leaf_rows self)) }
    {
        let Leaf {
            mut bytes,
            mut slots,
        } = self;
        let Some(entry) = new else {
            if cut == 1 {
                slots.remove(at);
            }
            return Ok(Leaf { bytes, slots });
        };
        let slot = Slot::append(&mut bytes, entry)?;
        if cut == 1 {
            slots[at] = slot;
        } else {
            slots.insert(at, slot)?;
        }
        Ok(Leaf { bytes, slots })
    }

    /// Returns the leaf, divided in two if it is too large. If the newest entry is the last, as
    /// when entries come in order, the first part is as full as a leaf may be.
    fn divided(self, alloc: Global, newest: usize) -> Result<(Leaf, Option<Leaf>), AllocError>
        ensures { IfOk result (λ parts. leaf_rows parts.0 ++ next_rows leaf_rows parts.1 ≡ leaf_rows self) }
    {
        let bytes = self.bytes.as_slice();
        let slots = self.slots.as_slice();
        let len = slots.len();
        if len <= MAX_ENTRIES {
            if bytes.len() <= MAX_BYTES {
                return Ok((self, None));
            }
            let whole = Leaf::packed(alloc, 0, bytes, slots)?;
            if len < 2 || whole.bytes.len() <= MAX_BYTES / 2 {
                return Ok((whole, None));
            }
        }
        let middle = if newest < len - 1 { len / 2 } else { len - 1 };
        let (front, back) = slots.split_at(middle);
        let first = Leaf::packed(alloc, bytes.len() / len * middle, bytes, front)?;
        let second = Leaf::packed(alloc, bytes.len() / len * (len - middle), bytes, back)?;
        Ok((first, Some(second)))
    }
}

impl Node for Leaf {
    ghost use Rattle.escrow_memory.specs.Leaf.{leaf_rows};

    ghost rows = { leaf_rows };

    fn len(&self) -> usize {
        self.slots.len()
    }

    fn is_small(&self) -> bool {
        self.slots.len() <= MAX_ENTRIES / 4
    }

    fn entry(&self, at: usize) -> &[u8] {
        self.slots[at].of(self.bytes.as_slice())
    }

    fn last(&self) -> &[u8] {
        self.entry(self.slots.len() - 1)
    }

    fn seek(&self, probe: Probe<'_>) -> (usize, Option<&[u8]>) {
        let mut low = 0;
        let mut high = self.slots.len();
        while low < high {
            let middle = low + (high - low) / 2;
            if probe.passes(self.entry(middle)) {
                low = middle + 1;
            } else {
                high = middle;
            }
        }
        if low < self.slots.len() {
            (low, Some(self.entry(low)))
        } else {
            (low, None)
        }
    }

    fn of_one(alloc: Global, entry: &[u8]) -> Result<Leaf, AllocError> {
        Leaf::new(alloc).edited(0, 0, Some(entry))
    }

    fn copy(&self, alloc: Global) -> Result<Leaf, AllocError> {
        let mut bytes = Vec::with_capacity(alloc, self.bytes.len() + ROOM)?;
        bytes.extend_from_slice(self.bytes.as_slice())?;
        let mut slots = Vec::with_capacity(alloc, self.slots.len() + 1)?;
        slots.extend_from_slice(self.slots.as_slice())?;
        Ok(Leaf { bytes, slots })
    }

    fn splice(&mut self, alloc: Global, change: Change<'_>) -> Result<Option<Leaf>, AllocError> {
        let Change { at, cut, new } = change;
        let leaf = mem::replace(self, Leaf::new(alloc)).edited(at, cut, new)?;
        let (first, second) = leaf.divided(alloc, at)?;
        *self = first;
        Ok(second)
    }

    fn join(&mut self, alloc: Global, next: &Leaf) -> Result<(), AllocError> {
        let leaf = mem::replace(self, Leaf::new(alloc));
        *self = leaf.with_all(next.bytes.as_slice(), next.slots.as_slice())?;
        Ok(())
    }
}
