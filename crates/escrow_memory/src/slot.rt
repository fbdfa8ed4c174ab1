//! Entries in the bytes of a leaf.
ghost use Rattle.std.specs.Prelude.{◌≡◌, ◌++◌, length, slice_range, IfOk, OnOk, OnErr};

use std::alloc::AllocError;

/// The place of an entry in the bytes of its leaf: from the first number up to the second.
#[derive(Clone, Copy, Debug)]
pub(crate) struct Slot {
    pub(crate) from: u32,
    pub(crate) to: u32,
}

impl Slot {
    ghost use Rattle.escrow_memory.specs.Slot.{IsWithin};

    /// Writes an entry after the bytes, and returns its place. A length past 4 GiB counts as
    /// refused memory.
    pub(crate) fn append(bytes: &mut Vec<u8>, entry: &[u8]) -> Result<Slot, AllocError>
        ensures ok { OnOk result (bytes.new.items ≡ bytes.old.items ++ entry.now) }
        ensures slot { IfOk result (λ slot. (slot.from ≡ length bytes.old.items) × (slot.to ≡ length bytes.new.items)) }
    {
        let from = u32::try_from(bytes.len()).map_err(|_| AllocError)?;
        let len = u32::try_from(entry.len()).map_err(|_| AllocError)?;
        let to = from.checked_add(len).ok_or(AllocError)?;
        bytes.extend_from_slice(entry)?;
        Ok(Slot { from, to })
    }

    /// Returns the entry.
    pub(crate) fn of(self, bytes: &[u8]) -> &[u8]
        requires { IsWithin (length bytes.now) self }
        ensures { result.now ≡ slice_range bytes.now self.from self.to }
    {
        &bytes[self.from as usize..self.to as usize]
    }
}
