ghost use Rattle.std.specs.Prelude.{◌≡◌, ◌<◌, ◌≤◌, ◌++◌, [], ℕ, length, take, drop, vec_capacity, OnOk, OnErr, IfErr};
ghost use Rattle.std.specs.Io.KnownBytes.{Appends};
ghost use Rattle.escrow_script.specs.Written.{IsOfWriter, Leaves};

use crate::client::Client;
use crate::fault::{ServeFault, WriteFault};
use std::alloc::AllocError;
use std::io::Write;

/// How many bytes of replies are gathered before they are written. Only the last reply may go past
/// this.
pub const MOST_GATHERED: usize = 65_536;

/// Adds a reply to those that are gathered.
///
/// # Errors
///
/// Fails if memory is refused. The gathered replies are then as they were, with the same room.
pub fn gather(replies: &mut Vec<u8>, reply: Vec<u8>) -> Result<(), AllocError>
    ensures ok { OnOk result (replies.new.items ≡ replies.old.items ++ reply.items) }
    ensures err { OnErr result (replies.new.items ≡ replies.old.items) }
    ensures room { OnErr result (vec_capacity replies.old ≤ vec_capacity replies.new) }
{
    if replies.is_empty() {
        *replies = reply;
        return Ok(());
    }
    replies.extend_from_slice(reply.as_slice())
}

/// Sends what is gathered to a client. Then nothing is gathered. After an error, a prefix of it was
/// sent.
///
/// # Errors
///
/// Fails only with [`ServeFault::Write`]: the client returned an error, or accepted none of the
/// bytes that were left. What it accepted before is a prefix of what is gathered, and not all of
/// it.
pub fn write_gathered<C: Client>(client: &mut C, replies: &mut Vec<u8>) -> Result<(), ServeFault>
    ensures ok { OnOk result (Appends (C.sent client.old) (C.sent client.new) replies.old.items) }
    ensures none { OnOk result (replies.new.items ≡ []) }
    ensures err { OnErr result ((len : ℕ) × (len < length replies.old.items)
        × Appends (C.sent client.old) (C.sent client.new) (take len replies.old.items)) }
    ensures kind { IfErr result IsOfWriter }
    ensures unread { C.remaining client.new ≡ C.remaining client.old }
    ensures received { C.received client.new ≡ C.received client.old }
{
    send_whole(client, replies.as_slice())?;
    replies.clear();
    Ok(())
}

/// Sends what is gathered after memory was refused, and returns the fault: that of memory once
/// everything is sent, or the client's.
pub fn out_of_memory<C: Client>(client: &mut C, replies: &mut Vec<u8>) -> ServeFault
    ensures { (len : ℕ) × Appends (C.sent client.old) (C.sent client.new) (take len replies.old.items)
        × Leaves result (drop len replies.old.items) }
{
    match write_gathered(client, replies) {
        Ok(()) => ServeFault::Memory,
        Err(fault) => fault,
    }
}

/// Sends all of the bytes to a client. After an error, a prefix of them was sent.
///
/// # Errors
///
/// Fails if the client returned an error, or accepted none of the bytes that were left. What it
/// accepted before is a prefix of the bytes, and not all of them.
pub fn send_whole<C: Client>(client: &mut C, bytes: &[u8]) -> Result<(), WriteFault>
    ensures ok { OnOk result (Appends (C.sent client.old) (C.sent client.new) bytes.now) }
    ensures err { OnErr result ((len : ℕ) × (len < length bytes.now)
        × Appends (C.sent client.old) (C.sent client.new) (take len bytes.now)) }
    ensures unread { C.remaining client.new ≡ C.remaining client.old }
    ensures received { C.received client.new ≡ C.received client.old }
{
    let mut rest = bytes;
    while !rest.is_empty() {
        match client.write(rest) {
            Ok(0) => return Err(WriteFault::TakesNothing),
            Ok(count) => rest = &rest[count..],
            Err(error) => return Err(WriteFault::from(error)),
        }
    }
    Ok(())
}

/// Writes all of the bytes. After an error, a prefix of them was written.
///
/// # Errors
///
/// Fails if the writer returned an error, or accepted none of the bytes that were left. What it
/// accepted before is a prefix of the bytes, and not all of them.
pub fn write_whole<W: Write>(writer: &mut W, bytes: &[u8]) -> Result<(), WriteFault>
    ensures ok { OnOk result (Appends (W.contents writer.old) (W.contents writer.new) bytes.now) }
    ensures err { OnErr result ((len : ℕ) × (len < length bytes.now)
        × Appends (W.contents writer.old) (W.contents writer.new) (take len bytes.now)) }
{
    let mut rest = bytes;
    while !rest.is_empty() {
        match writer.write(rest) {
            Ok(0) => return Err(WriteFault::TakesNothing),
            Ok(count) => rest = &rest[count..],
            Err(error) => return Err(WriteFault::from(error)),
        }
    }
    Ok(())
}
