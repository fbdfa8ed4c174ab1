ghost use Rattle.std.specs.Prelude.{◌≡◌, ◌≤◌, ◌+◌, ◌++◌, OnOk, length, codes, decimal};
ghost use Rattle.escrow_reply.specs.Room.{TakesRoom};
ghost use Rattle.escrow_reply.specs.Text.{reply_text, refusal_text, violation_text, side_text};

use crate::push::{push_bytes, push_counted, push_measure, push_text};
use escrow_machine::Reply;
use escrow_num::{Name, Refusal, Side, Violation};
use std::alloc::AllocError;

/// Adds the words of a reply's last line.
pub(crate) fn push_words(line: &mut Vec<u8>, reply: &Reply) -> Result<(), AllocError>
    ensures text { OnOk result (line.new.items ≡ line.old.items ++ reply_text reply.now) }
    ensures room { TakesRoom result line.old line.new 174 }
{
    match reply {
        Reply::Refused(refusal) => push_refused(line, refusal),
        Reply::Created(name) => push_named(line, "OK created ", *name),
        Reply::Dropped(name) => push_named(line, "OK dropped ", *name),
        Reply::Altered(name) => push_named(line, "OK altered ", *name),
        Reply::Inserted => push_text(line, "OK inserted"),
        Reply::Deleted => push_text(line, "OK deleted"),
        Reply::Updated => push_text(line, "OK updated"),
        Reply::Reserved { id } => push_counted(line, "OK reserved ", *id),
        Reply::Committed { count } => push_counted(line, "OK committed ", u64::from(*count)),
        Reply::RolledBack { count } => push_counted(line, "OK rolled back ", u64::from(*count)),
        Reply::Rows { rows, .. } => push_counted(line, "OK rows ", rows.len() as u64),
        Reply::Table(_) => push_text(line, "OK table"),
        Reply::Bounds { .. } => push_text(line, "OK bounds"),
        Reply::Journal(entries) => { push_counted(line, "OK reservations ", entries.len() as u64) }
        Reply::Savepoint(name) => push_named(line, "OK savepoint ", *name),
        Reply::Restarted => push_text(line, "OK restarted"),
        Reply::RolledBackTo { savepoint, count } => {
            push_named_count(line, "OK rolled back to ", *savepoint, u64::from(*count))
        }
    }
}

/// Adds words and a name.
fn push_named(line: &mut Vec<u8>, words: &str, name: Name) -> Result<(), AllocError>
    ensures text { OnOk result (line.new.items ≡ line.old.items ++ (words.now ++ name)) }
    ensures room { TakesRoom result line.old line.new (length words.now + 36) }
{
    push_text(line, words)?;
    push_bytes(line, name.as_bytes())
}

/// Adds words, a name, a space and a number.
fn push_named_count(
    line: &mut Vec<u8>,
    words: &str,
    name: Name,
    count: u64,
) -> Result<(), AllocError>
    ensures text { OnOk result (line.new.items ≡ line.old.items ++ (words.now ++ name ++ codes " " ++ decimal count)) }
    ensures room { TakesRoom result line.old line.new (length words.now + 77) }
{
    push_named(line, words, name)?;
    push_counted(line, " ", count)
}

/// Adds a refusal's number and its words.
fn push_refused(line: &mut Vec<u8>, refusal: &Refusal) -> Result<(), AllocError>
    ensures text { OnOk result (line.new.items ≡ line.old.items ++ reply_text (Reply.Refused refusal.now)) }
    ensures room { TakesRoom result line.old line.new 174 }
{
    push_counted(line, "ERR ", u64::from(refusal.number()))?;
    push_refusal(line, refusal)
}

/// Adds the words of a refusal, after a space.
fn push_refusal(line: &mut Vec<u8>, refusal: &Refusal) -> Result<(), AllocError>
    ensures text { OnOk result (line.new.items ≡ line.old.items ++ (codes " " ++ refusal_text refusal.now)) }
    ensures room { TakesRoom result line.old line.new 130 }
{
    match refusal {
        Refusal::Syntax { column } => { push_counted(line, " syntax column ", u64::from(*column)) }
        Refusal::Line => push_text(line, " line"),
        Refusal::TableExists => push_text(line, " table exists"),
        Refusal::NoSuchTable => push_text(line, " no such table"),
        Refusal::BadDefinition => push_text(line, " bad definition"),
        Refusal::BadValue => push_text(line, " bad value"),
        Refusal::BadAssignment => push_text(line, " bad assignment"),
        Refusal::NotTheKey => push_text(line, " not the key"),
        Refusal::TransactionOpen => push_text(line, " transaction open"),
        Refusal::NoSuchConstraint => push_text(line, " no such constraint"),
        Refusal::RowExists => push_text(line, " row exists"),
        Refusal::NoSuchRow => push_text(line, " no such row"),
        Refusal::RowReserved => push_text(line, " row reserved"),
        Refusal::TableReserved => push_text(line, " table reserved"),
        Refusal::TableFull => push_text(line, " table full"),
        Refusal::TooManyTables => push_text(line, " too many tables"),
        Refusal::Check(violation) => push_violation(line, violation),
        Refusal::TooManyReservations => push_text(line, " too many reservations"),
        Refusal::NoSuchSavepoint => push_text(line, " no such savepoint"),
        Refusal::TooManySavepoints => push_text(line, " too many savepoints"),
        Refusal::NoMoreIds => push_text(line, " no more ids"),
        Refusal::Memory => push_text(line, " memory"),
        Refusal::TranscriptFull => push_text(line, " transcript full"),
        Refusal::Store => push_text(line, " store"),
        Refusal::ForeignStore => push_text(line, " foreign store"),
        Refusal::UnknownVersion => push_text(line, " unknown version"),
    }
}

/// Adds a limit that could be broken, after a space: the check, the side, the worst value and the
/// limit.
fn push_violation(line: &mut Vec<u8>, violation: &Violation) -> Result<(), AllocError>
    ensures text { OnOk result (line.new.items ≡ line.old.items ++ (codes " " ++ violation_text violation.now)) }
    ensures room { TakesRoom result line.old line.new 130 }
{
    push_named(line, " ", violation.check)?;
    push_measure(
        line,
        side_words(violation.side),
        violation.worst,
        violation.scale,
    )?;
    push_measure(line, " limit ", violation.limit, violation.scale)
}

/// Returns the word for a side, between two spaces.
fn side_words(side: Side) -> &'static str
    ensures text { result.now ≡ codes " " ++ side_text side ++ codes " " }
    ensures short { length result.now ≤ 6 }
{
    match side {
        Side::Low => " low ",
        Side::High => " high ",
    }
}
