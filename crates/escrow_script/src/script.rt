ghost use Rattle.std.specs.Prelude.{◌≡◌, ◌≢◌, ◌≤◌, ◌<◌, ◌+◌, ◌++◌, [], Option, List, ℕ, length, take, true, false, vec_len, IfOk, IfErr, OnOk, OnErr};
ghost use Rattle.std.specs.List.{position_or_len};
ghost use Rattle.std.specs.Io.KnownBytes.{Consumes, IsAtEnd};
ghost use Rattle.escrow_script.specs.Client.{Receives, ReceivesLine, ReceivesPart};
ghost use Rattle.escrow_script.specs.Line.{HasNoFeed};
ghost use Rattle.escrow_script.specs.Script.{is_feed};
ghost use Rattle.escrow_script.specs.declared.fault.WriteFault.{WriteFault};
ghost use Rattle.escrow_script.specs.declared.limits.TheConstants.{MAX_LINE, MAX_SCRIPT};

use crate::client::Client;
use crate::fault::ServeFault;
use crate::limits::{Limit, MAX_LINE};
use crate::unread::Unread;
use memchr::memchr;
use std::alloc::{AllocError, Global};

/// A script that is read line by line: the bytes that aren't taken yet, and the line that was taken
/// last. Of a line that is too long, one byte more than a line may have is kept, which shows that
/// it is too long.
#[derive(Debug, Drop)]
pub struct Script {
    unread: Unread,
    line: Vec<u8>,
    limit: Limit,
    bytes_left: usize,
    reads_left: usize,
    // The client has reported its end, and isn't read again.
    has_ended: bool,
    ghost short: { vec_len line ≤ MAX_LINE + 1 },
}

impl Script {
    ghost use Rattle.escrow_script.specs.Script.{left, has_line, most_bytes, HasEnded, Spends, TakesLine, Moves};

    /// Returns a script of which nothing is read yet.
    ///
    /// # Errors
    ///
    /// Fails if memory is refused.
    pub fn new(alloc: Global) -> Result<Script, AllocError>
        ensures { IfOk result (λ s. (s.unread ≡ []) × (s.bytes_left ≡ MAX_SCRIPT) × (s.has_ended ≡ false)) }
    {
        Script::up_to(alloc, Limit::Script)
    }

    /// Returns a script of which nothing is read yet, with a limit on what may be read.
    ///
    /// # Errors
    ///
    /// Fails if memory is refused.
    pub fn up_to(alloc: Global, limit: Limit) -> Result<Script, AllocError>
        ensures { IfOk result (λ s. (s.unread ≡ []) × (s.bytes_left ≡ most_bytes limit) × (s.has_ended ≡ false)) }
    {
        Ok(Script {
            unread: Unread::new(alloc)?,
            line: Vec::new(alloc),
            limit,
            bytes_left: limit.bytes(),
            reads_left: limit.reads(),
            has_ended: false,
        })
    }

    /// Returns the line that was taken last, without its line feed. Of a line that is too long, it
    /// returns one byte more than a line may have.
    pub fn line(&self) -> &[u8]
        ensures value { result.now ≡ self.now.line.items }
        ensures within { length result.now ≤ MAX_LINE + 1 }
    {
        self.line.as_slice()
    }

    /// Returns whether the next line is in hand, so that it can be taken without a read.
    pub fn has_line(&self) -> bool
        ensures { result ≡ has_line self.now.reads_left self.now.unread }
    {
        let bytes = self.unread.as_slice();
        self.reads_left > 0 && line_len(bytes) < bytes.len()
    }

    /// Takes the next line, and returns whether there was one. If a line is in hand, it is taken or
    /// memory is refused. A client that has reported its end isn't read again: at a terminal it
    /// would continue.
    ///
    /// Each call must be given the same client. It is read only if no line feed is unread, and then
    /// until the next one comes. So it must let itself be read then, also after further bytes of the
    /// line.
    ///
    /// # Errors
    ///
    /// Fails with [`ServeFault::Read`] if the client returns an error, returns more bytes than the
    /// limit, or needs more calls than the limit. Fails with [`ServeFault::Memory`] if memory is
    /// refused. There are no other errors.
    pub fn next_line<C: Client>(&mut self, client: &mut C) -> Result<bool, ServeFault>
        requires ended { self.old.has_ended ≡ true → HasEnded self.old.unread (C.remaining client.old) }
        requires may { self.old.has_ended ≡ false → HasNoFeed self.old.unread → (c : C)
            → ReceivesPart (C.received client.old) (C.received c) → C.sent c ≡ C.sent client.old → C.may_read c }
        ensures taken { IfOk result (λ found. TakesLine found (left self.old.unread (C.remaining client.old))
            (left self.new.unread (C.remaining client.new)) self.new.line.items) }
        ensures less { IfOk result (λ found. found ≡ true →
            self.new.bytes_left + length self.new.unread < self.old.bytes_left + length self.old.unread) }
        ensures spent { OnOk result
            (Spends (C.remaining client.old) (C.remaining client.new) self.old.bytes_left self.new.bytes_left) }
        ensures in_hand { IfOk result (λ found. has_line self.old.reads_left self.old.unread ≡ true → found ≡ true) }
        ensures cause { IfErr result
            (λ fault. has_line self.old.reads_left self.old.unread ≡ true → fault ≡ ServeFault.Memory) }
        ensures ended { IfOk result
            (λ _. self.new.has_ended ≡ true → HasEnded self.new.unread (C.remaining client.new)) }
        ensures over { IfOk result (λ found. self.old.has_ended ≡ true → found ≡ false) }
        ensures received { OnOk result (self.new.has_ended ≡ false → ReceivesLine
            (C.received client.old) (C.received client.new) self.old.unread self.new.unread self.new.line.items) }
        ensures sent { C.sent client.new ≡ C.sent client.old }
        // No error is one of writing.
        ensures kind { IfErr result (λ fault. (cause : WriteFault) → fault ≢ ServeFault.Write cause) }
    {
        if self.has_ended {
            return Ok(false);
        }
        self.line.clear();
        while self.reads_left > 0 {
            if self.take_front()? {
                return Ok(true);
            }
            if self.fill(client)? == 0 {
                self.has_ended = true;
                return Ok(!self.line.is_empty());
            }
        }
        Err(ServeFault::Read(self.limit.fault()))
    }

    /// Takes the next line if it is in hand, without a read, and returns whether it was.
    ///
    /// # Errors
    ///
    /// Fails if memory is refused. Then, and if no line is in hand, no byte is taken.
    pub fn take_ready(&mut self) -> Result<bool, AllocError>
        ensures taken { IfOk result (λ found. found ≡ true → (rem : Option (List ℕ)) →
            TakesLine true (left self.old.unread rem) (left self.new.unread rem) self.new.line.items) }
        ensures stays { IfOk result (λ found. found ≡ false → self.new.unread ≡ self.old.unread) }
        ensures refused { OnErr result (self.new.unread ≡ self.old.unread) }
        ensures in_hand { IfOk result (λ found. found ≡ has_line self.old.reads_left self.old.unread) }
        ensures fewer { IfOk result (λ found. found ≡ true → length self.new.unread < length self.old.unread) }
        ensures bytes { self.new.bytes_left ≡ self.old.bytes_left }
        ensures reads { self.new.reads_left ≡ self.old.reads_left }
        ensures ended { self.new.has_ended ≡ self.old.has_ended }
    {
        if !self.has_line() {
            return Ok(false);
        }
        self.line.clear();
        self.take_front()
    }

    /// Moves the unread bytes up to a line feed into the line, and returns whether there was one.
    fn take_front(&mut self) -> Result<bool, AllocError>
        ensures moved { IfOk result
            (λ found. Moves found self.old.unread self.new.unread self.old.line.items self.new.line.items) }
        ensures less { IfOk result
            (λ found. vec_len self.new.line + length self.new.unread ≤ vec_len self.old.line + length self.old.unread) }
        ensures fewer { IfOk result (λ found. found ≡ true →
            vec_len self.new.line + length self.new.unread < vec_len self.old.line + length self.old.unread) }
        ensures refused { OnErr result (self.new.unread ≡ self.old.unread) }
        ensures bytes { self.new.bytes_left ≡ self.old.bytes_left }
        ensures reads { self.new.reads_left ≡ self.old.reads_left }
        ensures ended { self.new.has_ended ≡ self.old.has_ended }
    {
        let bytes = self.unread.as_slice();
        let len = line_len(bytes);
        let found = len < bytes.len();
        keep(&mut self.line, &bytes[..len])?;
        self.unread.skip(len + 1);
        Ok(found)
    }

    /// Reads the next bytes, once all that were read are taken, and returns how many.
    fn fill<C: Client>(&mut self, client: &mut C) -> Result<usize, ServeFault>
        requires taken { self.old.unread ≡ [] }
        requires more { 1 ≤ self.old.reads_left }
        requires may { C.may_read client.old }
        ensures read { OnOk result (Consumes (C.remaining client.old) (C.remaining client.new) self.new.unread) }
        ensures count { IfOk result (λ count. count ≡ length self.new.unread) }
        ensures end { IfOk result (λ count. count ≡ 0 → IsAtEnd (C.remaining client.new)) }
        ensures received { OnOk result (Receives (C.received client.old) (C.received client.new) self.new.unread) }
        ensures sent { C.sent client.new ≡ C.sent client.old }
        ensures line { self.new.line ≡ self.old.line }
        ensures bytes { IfOk result (λ count. self.new.bytes_left + count ≡ self.old.bytes_left) }
        ensures reads { self.new.reads_left + 1 ≡ self.old.reads_left }
        ensures ended { self.new.has_ended ≡ self.old.has_ended }
        ensures kind { IfErr result (λ fault. (cause : WriteFault) → fault ≢ ServeFault.Write cause) }
    {
        self.reads_left -= 1;
        let count = self.unread.fill(client)?;
        if count > self.bytes_left {
            return Err(ServeFault::Read(self.limit.fault()));
        }
        self.bytes_left -= count;
        Ok(count)
    }
}

/// Returns how many bytes come before the first line feed, or how many there are if there is none.
fn line_len(bytes: &[u8]) -> usize
    ensures value { result ≡ position_or_len is_feed bytes.now }
    ensures within { result ≤ length bytes.now }
{
    match memchr(b'\n', bytes) {
        Some(place) => place,
        None => bytes.len(),
    }
}

/// Adds bytes to a line, of which at most one more than a line may have is kept.
fn keep(line: &mut Vec<u8>, bytes: &[u8]) -> Result<(), AllocError>
    requires { vec_len line.old ≤ MAX_LINE + 1 }
    ensures ok { OnOk result (line.new.items ≡ take (MAX_LINE + 1) (line.old.items ++ bytes.now)) }
    ensures short { vec_len line.new ≤ MAX_LINE + 1 }
{
    let room = MAX_LINE + 1 - line.len();
    line.extend_from_slice(&bytes[..room.min(bytes.len())])?;
    Ok(())
}
