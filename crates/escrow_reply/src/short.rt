//! Replies of one line, which are written without memory if there is room for them.
ghost use Rattle.std.specs.Prelude.{◌≡◌, ◌≤◌, ◌+◌, ◌++◌, ◌∷◌, [], false, not, length, vec_len, vec_capacity, OnOk};
ghost use Rattle.escrow_machine.specs.Reply.{holds_memory};
ghost use Rattle.escrow_reply.specs.Room.{TakesRoom};
ghost use Rattle.escrow_reply.specs.Text.{rendered, rendered_whole, database_prefix, prefix_of, with_prefix, reply_lines, reply_text};

use crate::push::{push_number, push_text};
use crate::words::push_words;
use escrow_machine::Reply;
use escrow_num::Session;
use std::alloc::AllocError;

/// More bytes than the line of a short reply takes, including its prefix and its line feed.
pub const MAX_SHORT: usize = 256;

/// The most bytes of a database's name, or of another prefix, before a short reply.
pub const MAX_FRONT: usize = 16;

/// Returns whether a reply is short: it holds no memory, and has one line. All replies but those to
/// queries are short.
pub fn is_short(reply: &Reply) -> bool
    ensures { result ≡ not (holds_memory reply.now) }
{
    match reply {
        Reply::Rows { .. } | Reply::Table(_) => false,
        Reply::Bounds { .. } | Reply::Journal(_) => false,
        _ => true,
    }
}

/// Adds the line of the reply to a statement, which must be short, if there is room for it.
pub fn push_short(lines: &mut Vec<u8>, database: &str, session: Session, reply: &Reply)
    requires short { holds_memory reply.now ≡ false }
    requires front { length database.now ≤ MAX_FRONT }
    requires room { vec_len lines.old + MAX_SHORT ≤ vec_capacity lines.old }
    ensures text { lines.new.items ≡ lines.old.items ++ rendered database.now session reply.now }
    ensures len { vec_len lines.new ≤ vec_len lines.old + MAX_SHORT }
    ensures capacity { vec_capacity lines.old ≤ vec_capacity lines.new }
{
    let Ok(()) = push_answer(lines, database, session, reply) else {
        unreachable!();
    };
}

/// Adds the line of the reply to a request of a whole database, which must be short, if there is
/// room for it.
pub fn push_short_whole(lines: &mut Vec<u8>, database: &str, reply: &Reply)
    requires short { holds_memory reply.now ≡ false }
    requires front { length database.now ≤ MAX_FRONT }
    requires room { vec_len lines.old + MAX_SHORT ≤ vec_capacity lines.old }
    ensures { lines.new.items ≡ lines.old.items ++ rendered_whole database.now reply.now }
{
    let Ok(()) = push_whole(lines, database, reply) else {
        unreachable!();
    };
}

/// Adds the line of a reply after a prefix. The reply must be short, and the line is added if there
/// is room for it.
pub fn push_short_line(lines: &mut Vec<u8>, prefix: &str, reply: &Reply)
    requires short { holds_memory reply.now ≡ false }
    requires front { length prefix.now ≤ MAX_FRONT }
    requires room { vec_len lines.old + MAX_SHORT ≤ vec_capacity lines.old }
    ensures text { lines.new.items ≡ lines.old.items ++ with_prefix prefix.now (reply_lines reply.now) }
    ensures len { vec_len lines.new ≤ vec_len lines.old + MAX_SHORT }
    ensures capacity { vec_capacity lines.old ≤ vec_capacity lines.new }
{
    let Ok(()) = push_line(lines, prefix, reply) else {
        unreachable!();
    };
}

/// Adds the last line of a reply to a session.
fn push_answer(
    lines: &mut Vec<u8>,
    database: &str,
    session: Session,
    reply: &Reply,
) -> Result<(), AllocError>
    ensures text { OnOk result
        (lines.new.items ≡ lines.old.items ++ (prefix_of database.now session ++ reply_text reply.now ++ 10 ∷ [])) }
    ensures room { TakesRoom result lines.old lines.new (length database.now + 218) }
{
    push_text(lines, database)?;
    push_text(lines, ".")?;
    push_number(lines, u64::from(session.get()))?;
    push_text(lines, "> ")?;
    push_end(lines, reply)
}

/// Adds the last line of a reply to a whole database.
fn push_whole(lines: &mut Vec<u8>, database: &str, reply: &Reply) -> Result<(), AllocError>
    ensures text { OnOk result
        (lines.new.items ≡ lines.old.items ++ (database_prefix database.now ++ reply_text reply.now ++ 10 ∷ [])) }
    ensures room { TakesRoom result lines.old lines.new (length database.now + 177) }
{
    push_text(lines, database)?;
    push_text(lines, "> ")?;
    push_end(lines, reply)
}

/// Adds the last line of a reply after a prefix.
fn push_line(lines: &mut Vec<u8>, prefix: &str, reply: &Reply) -> Result<(), AllocError>
    ensures text { OnOk result (lines.new.items ≡ lines.old.items ++ (prefix.now ++ reply_text reply.now ++ 10 ∷ [])) }
    ensures room { TakesRoom result lines.old lines.new (length prefix.now + 175) }
{
    push_text(lines, prefix)?;
    push_end(lines, reply)
}

/// Adds the words of a reply's last line, and a line feed.
fn push_end(lines: &mut Vec<u8>, reply: &Reply) -> Result<(), AllocError>
    ensures text { OnOk result (lines.new.items ≡ lines.old.items ++ (reply_text reply.now ++ 10 ∷ [])) }
    ensures room { TakesRoom result lines.old lines.new 175 }
{
    push_words(lines, reply)?;
    push_text(lines, "\n")
}
