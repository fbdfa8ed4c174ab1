ghost use Rattle.std.specs.Prelude.{◌≡◌, ◌++◌, map, IfOk, OnOk};
ghost use Rattle.escrow_reply.specs.Text.{rendered, rendered_whole, database_prefix, prefix_of, with_prefix, reply_lines, shown_lines, row_text};

use crate::line::{push_line, push_lines};
use crate::push::{push_bytes, push_number, push_text};
use crate::values::Row;
use crate::words::push_words;
use escrow_machine::{Heading, Reply};
use escrow_num::{Seq, Session, Value};
use std::alloc::{AllocError, Global};

/// The number of bytes of the longest prefix, `bank16.64> `.
const MOST_PREFIX: usize = 11;

/// More bytes than most replies need, so that their memory is taken all at once.
const MOST_LINE: usize = 64;

/// Returns the lines of the reply to a statement, each after the database and the session that it
/// is for, and before a line feed.
pub fn render(
    alloc: Global,
    database: &str,
    session: Session,
    reply: &Reply,
) -> Result<Vec<u8>, AllocError>
    ensures { IfOk result (λ bytes. bytes.items ≡ rendered database.now session reply.now) }
{
    let prefix = prefix_of(alloc, database, session)?;
    with_prefix(alloc, prefix.as_slice(), reply)
}

/// Returns the lines of the reply to a request of a whole database, each after the database's name
/// and before a line feed.
pub fn render_whole(alloc: Global, database: &str, reply: &Reply) -> Result<Vec<u8>, AllocError>
    ensures { IfOk result (λ bytes. bytes.items ≡ rendered_whole database.now reply.now) }
{
    let prefix = database_prefix(alloc, database)?;
    with_prefix(alloc, prefix.as_slice(), reply)
}

/// Returns the lines of a reply, each after a prefix and before a line feed.
pub fn render_lines(alloc: Global, prefix: &str, reply: &Reply) -> Result<Vec<u8>, AllocError>
    ensures { IfOk result (λ bytes. bytes.items ≡ with_prefix prefix.now (reply_lines reply.now)) }
{
    with_prefix(alloc, prefix.as_bytes(), reply)
}

/// Returns the prefix of a reply's lines.
fn prefix_of(alloc: Global, database: &str, session: Session) -> Result<Vec<u8>, AllocError>
    ensures { IfOk result (λ bytes. bytes.items ≡ prefix_of database.now session) }
{
    let mut prefix = Vec::with_capacity(alloc, MOST_PREFIX)?;
    push_text(&mut prefix, database)?;
    push_text(&mut prefix, ".")?;
    push_number(&mut prefix, u64::from(session.get()))?;
    push_text(&mut prefix, "> ")?;
    Ok(prefix)
}

/// Returns the prefix of the lines of a reply to a whole database.
fn database_prefix(alloc: Global, database: &str) -> Result<Vec<u8>, AllocError>
    ensures { IfOk result (λ bytes. bytes.items ≡ database_prefix database.now) }
{
    let mut prefix = Vec::with_capacity(alloc, MOST_PREFIX)?;
    push_text(&mut prefix, database)?;
    push_text(&mut prefix, "> ")?;
    Ok(prefix)
}

/// Returns the lines of a reply, each with the prefix before it and a line feed after it.
fn with_prefix(alloc: Global, prefix: &[u8], reply: &Reply) -> Result<Vec<u8>, AllocError>
    ensures { IfOk result (λ bytes. bytes.items ≡ with_prefix prefix.now (reply_lines reply.now)) }
{
    let mut lines = Vec::with_capacity(alloc, MOST_LINE)?;
    push_shown(&mut lines, prefix, reply)?;
    push_bytes(&mut lines, prefix)?;
    push_words(&mut lines, reply)?;
    push_text(&mut lines, "\n")?;
    Ok(lines)
}

/// Adds the lines before the last one, for what is shown.
fn push_shown(lines: &mut Vec<u8>, prefix: &[u8], reply: &Reply) -> Result<(), AllocError>
    ensures { OnOk result (lines.new.items ≡ lines.old.items ++ with_prefix prefix.now (shown_lines reply.now)) }
{
    match reply {
        Reply::Rows { columns, rows } => {
            push_line(lines, prefix, &columns.as_slice())?;
            push_row_lines(lines, prefix, columns.as_slice(), rows.as_slice())
        }
        Reply::Table(text) => push_line(lines, prefix, &text.as_str()),
        Reply::Bounds { columns, checks } => {
            push_lines(lines, prefix, columns.as_slice())?;
            push_lines(lines, prefix, checks.as_slice())
        }
        Reply::Journal(entries) => push_lines(lines, prefix, entries.as_slice()),
        _ => Ok(()),
    }
}

/// Adds a line for each row under the headings.
fn push_row_lines(
    lines: &mut Vec<u8>,
    prefix: &[u8],
    headings: &[Heading],
    rows: &[Seq<Value>],
) -> Result<(), AllocError>
    ensures { OnOk result (lines.new.items ≡ lines.old.items
        ++ with_prefix prefix.now (map (row_text headings.now) rows.now)) }
{
    for row in rows {
        let values = row.as_slice();
        push_line(lines, prefix, &Row { headings, values })?;
    }
    Ok(())
}
