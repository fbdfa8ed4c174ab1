ghost use Rattle.std.specs.Prelude.{◌≡◌, [], length, drop, IfOk, OnOk};
ghost use Rattle.escrow_script.specs.Client.{Receives};
ghost use Rattle.std.specs.Io.KnownBytes.{Consumes, IsAtEnd};

use crate::client::Client;
use crate::fault::ReadFault;
use std::alloc::{AllocError, Global};
use std::marker::Model;

/// How many bytes are requested from a client at a time.
const CHUNK: usize = 8192;

/// The bytes that were read from a client and aren't taken yet.
#[derive(Debug, Drop)]
pub(crate) struct Unread {
    chunk: Vec<u8>,
    from: usize,
    to: usize,
}

impl Model for Unread {
    ghost use Rattle.std.specs.Prelude.{List, ℕ, ◌≡◌, ◌≤◌, length, slice_range};

    ghost Value = { List ℕ };

    ghost view = { λ u. slice_range u.chunk.items u.from u.to };

    ghost invariant = { λ u. (u.from ≤ u.to) × (u.to ≤ length u.chunk.items) × (length u.chunk.items ≡ 8192) };
}

impl Unread {
    /// Returns an empty list of bytes, with room for those of one read.
    pub(crate) fn new(alloc: Global) -> Result<Unread, AllocError>
        ensures { IfOk result (λ u. u ≡ []) }
    {
        Ok(Unread {
            chunk: vec![in alloc; 0; CHUNK]?,
            from: 0,
            to: 0,
        })
    }

    /// Returns the bytes, in order.
    pub(crate) fn as_slice(&self) -> &[u8]
        ensures { result.now ≡ self.now }
    {
        &self.chunk[self.from..self.to]
    }

    /// Drops this many bytes from the front, or all if there are fewer.
    pub(crate) fn skip(&mut self, count: usize)
        ensures { self.new ≡ drop count self.old }
    {
        if count < self.to - self.from {
            self.from += count;
        } else {
            self.from = self.to;
        }
    }

    /// Reads the next bytes, once all are taken, and returns how many. There are none only at the
    /// end of what the client sends.
    pub(crate) fn fill<C: Client>(&mut self, client: &mut C) -> Result<usize, ReadFault>
        requires taken { self.old ≡ [] }
        requires may { C.may_read client.old }
        ensures read { OnOk result (Consumes (C.remaining client.old) (C.remaining client.new) self.new) }
        ensures count { IfOk result (λ count. count ≡ length self.new) }
        ensures end { IfOk result (λ count. count ≡ 0 → IsAtEnd (C.remaining client.new)) }
        ensures received { OnOk result (Receives (C.received client.old) (C.received client.new) self.new) }
        ensures sent { C.sent client.new ≡ C.sent client.old }
    {
        let count = client.read(self.chunk.as_mut_slice())?;
        self.from = 0;
        self.to = count;
        Ok(count)
    }
}
