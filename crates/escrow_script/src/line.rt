ghost use Rattle.std.specs.Prelude.{◌≡◌, ◌≤◌, ◌<◌, ◌^◌, List, ℕ, length, nat_lt, slice_index_or, IfNone, IfSome, MatchOption, SomeIff};
ghost use Rattle.std.specs.Str.Parse.{AllDigits, digits_value};
ghost use Rattle.escrow_num.specs.Session.{IsSession};
ghost use Rattle.std.specs.List.{prefix_len, list_all};
ghost use Rattle.escrow_script.specs.Line.{Reads, ReadsContent, IsMadeOf, IsStatement, without_return, after_blanks, content_of, is_blank};
ghost use Rattle.escrow_script.specs.Reading.{seen, is_nothing, is_join, named_place, restart_of, word_len, Spells};

use crate::limits::{MAX_DATABASES, MAX_LINE};
use crate::names::database_place;
use escrow_num::Session;

/// What a line of a script is.
#[derive(Clone, Copy, Debug)]
pub enum Line<'a> {
    /// A blank line or a comment: it has no reply.
    Nothing,
    /// `@join`: it ends a phase, and has no reply.
    Join,
    /// `@restart` and the name of the database to restart.
    Restart {
        /// The place of the database, from 0.
        database: usize,
    },
    /// A statement.
    Statement {
        /// The place of its database, from 0.
        database: usize,
        /// The session that asks.
        session: Session,
        /// The statement's text: everything after the colon.
        text: &'a str,
    },
    /// Not a line of a script: it names an unknown database or a session out of range, or is
    /// anything else. It is refused.
    NoLine,
}

/// Returns what the bytes of a line are, without their line feed, with this many databases, at most
/// 16, and sessions. More than [`MAX_LINE`] bytes are no line, so the first `MAX_LINE + 1` bytes
/// decide what a line is.
pub fn classify(databases: usize, sessions: u16, line: &[u8]) -> Line<'_>
    requires { databases ≤ MAX_DATABASES }
    ensures { Reads databases sessions line.now (seen result) }
{
    if line.len() > MAX_LINE {
        return Line::NoLine;
    }
    match str::from_utf8(line) {
        Ok(text) => classify_content(databases, sessions, content_of(text)),
        Err(_) => Line::NoLine,
    }
}

/// Returns the line without its carriage return and its leading blanks.
fn content_of(line: &str) -> &str
    ensures { result.now ≡ content_of line.now }
{
    after_blanks(without_return(line))
}

/// Returns the line without the carriage return at its end, if it has one.
fn without_return(line: &str) -> &str
    ensures { result.now ≡ without_return line.now }
{
    match line.as_bytes() {
        [front @ .., b'\r'] => &line[..front.len()],
        _ => line,
    }
}

/// Returns whether a byte is a space or a tab.
fn is_blank(byte: u8) -> bool
    ensures { result ≡ is_blank byte }
{
    byte == b' ' || byte == b'\t'
}

/// Returns how many spaces and tabs a line begins with.
fn blanks(line: &[u8]) -> usize
    ensures value { result ≡ prefix_len is_blank line.now }
    ensures within { result ≤ length line.now }
{
    for (len, byte) in line.iter().enumerate() {
        if !is_blank(*byte) {
            return len;
        }
    }
    line.len()
}

/// Returns the line after the spaces and tabs at its beginning.
fn after_blanks(line: &str) -> &str
    ensures { result.now ≡ after_blanks line.now }
{
    &line[blanks(line.as_bytes())..]
}

/// Returns what the content of a line is.
fn classify_content(databases: usize, sessions: u16, content: &str) -> Line<'_>
    requires { databases ≤ MAX_DATABASES }
    ensures { ReadsContent databases sessions content.now (seen result) }
{
    if is_nothing(content.as_bytes()) {
        return Line::Nothing;
    }
    if is_join(content.as_bytes()) {
        return Line::Join;
    }
    if let Some(database) = restart_of(databases, content.as_bytes()) {
        return Line::Restart { database };
    }
    match statement_of(databases, sessions, content) {
        Some(statement) => statement,
        None => Line::NoLine,
    }
}

/// Returns whether there is nothing but spaces and tabs.
fn is_all_blank(bytes: &[u8]) -> bool
    ensures { result ≡ list_all is_blank bytes.now }
{
    bytes.iter().all(|byte| is_blank(*byte))
}

/// Returns whether a content is empty or a comment.
fn is_nothing(content: &[u8]) -> bool
    ensures { result ≡ is_nothing content.now }
{
    content.is_empty() || content.starts_with(b"--")
}

/// Returns whether a content is `@join`, with only spaces and tabs after it.
fn is_join(content: &[u8]) -> bool
    ensures { result ≡ is_join content.now }
{
    content.starts_with(b"@join") && is_all_blank(&content[5..])
}

/// Returns the place of the database that a content asks to restart: `@restart` and its name.
fn restart_of(databases: usize, content: &[u8]) -> Option<usize>
    requires { databases ≤ MAX_DATABASES }
    ensures { result ≡ restart_of databases content.now }
{
    if content.starts_with(b"@restart") {
        named_place(databases, &content[8..])
    } else {
        None
    }
}

/// Returns the place of the database whose name is the only word, after at least one space or tab.
fn named_place(databases: usize, bytes: &[u8]) -> Option<usize>
    requires { databases ≤ MAX_DATABASES }
    ensures { result ≡ named_place databases bytes.now }
{
    let (front, named) = bytes.split_at(blanks(bytes));
    let (name, back) = named.split_at(word_len(named));
    if front.is_empty() || !is_all_blank(back) {
        return None;
    }
    database_place(databases, name)
}

/// Returns how many bytes come before the first space or tab.
fn word_len(bytes: &[u8]) -> usize
    ensures value { result ≡ word_len bytes.now }
    ensures within { result ≤ length bytes.now }
{
    for (len, byte) in bytes.iter().enumerate() {
        if is_blank(*byte) {
            return len;
        }
    }
    bytes.len()
}

/// Returns a statement, if the content is one: a database's name, a point, a session, a colon, and
/// the text.
fn statement_of(databases: usize, sessions: u16, content: &str) -> Option<Line<'_>>
    requires { databases ≤ MAX_DATABASES }
    ensures some { IfSome result (λ line. IsMadeOf databases sessions content.now (seen line)) }
    ensures none { IfNone result ((place session : ℕ) (text : List ℕ)
        → IsStatement databases sessions content.now place session text → ⊥) }
{
    let (name, rest) = content.split_once('.')?;
    let (number, text) = rest.split_once(':')?;
    let database = database_place(databases, name.as_bytes())?;
    let session = session_of(sessions, number)?;
    Some(Line::Statement {
        database,
        session,
        text,
    })
}

/// Returns the session that a text spells in decimal, without a leading zero, if it is one of this
/// many.
fn session_of(sessions: u16, text: &str) -> Option<Session>
    ensures some { IfSome result (λ session. Spells sessions text.now session) }
    ensures none { IfNone result ((session : ℕ) → Spells sessions text.now session → ⊥) }
{
    let digits = text.as_bytes();
    if !begins_above_zero(digits) {
        return None;
    }
    let number = number_of(digits)?;
    session_among(sessions, number)
}

/// Returns the number that digits spell, if they are digits and it has at most 16 bits.
fn number_of(digits: &[u8]) -> Option<u16>
    ensures { SomeIff result (AllDigits 10 digits.now × (digits_value 10 digits.now < 2 ^ 16))
        (digits_value 10 digits.now) }
{
    let mut number = 0u16;
    for digit in digits {
        if !digit.is_ascii_digit() {
            return None;
        }
        number = number
            .checked_mul(10)?
            .checked_add(u16::from(*digit - b'0'))?;
    }
    Some(number)
}

/// Returns the session of a number, if it is one of this many.
fn session_among(sessions: u16, number: u16) -> Option<Session>
    ensures { MatchOption result (IsSession number → number ≤ sessions → ⊥)
        (λ session. IsSession number × (number ≤ sessions) × (session ≡ number)) }
{
    if number <= sessions {
        Session::new(number)
    } else {
        None
    }
}

/// Returns whether the first byte is above that of the digit 0.
fn begins_above_zero(bytes: &[u8]) -> bool
    ensures { result ≡ nat_lt 48 (slice_index_or bytes.now 0 0) }
{
    match bytes {
        [first, ..] => *first > b'0',
        [] => false,
    }
}
