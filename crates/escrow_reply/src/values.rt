ghost use Rattle.std.specs.Prelude.{◌≡◌, ◌++◌, ◌∷◌, [], OnOk};
ghost use Rattle.escrow_sql.specs.Lex.{doubled};
ghost use Rattle.escrow_reply.specs.Text.{header_text, quoted, row_text, scale_at, value_text};

use crate::line::Shown;
use crate::push::{push_bytes, push_text, push_units};
use escrow_machine::Heading;
use escrow_num::{Scale, Value, Wide};
use std::alloc::AllocError;

/// The text between two columns.
const BAR: &str = " | ";

impl Shown for &[Heading] {
    ghost use Rattle.escrow_reply.specs.Text.{header_text};

    ghost text = { λ headings. header_text headings.now };

    fn push_to(&self, line: &mut Vec<u8>) -> Result<(), AllocError> {
        push_header(line, self)
    }
}

/// Adds the names of columns, with a bar between two.
fn push_header(line: &mut Vec<u8>, headings: &[Heading]) -> Result<(), AllocError>
    ensures { OnOk result (line.new.items ≡ line.old.items ++ header_text headings.now) }
{
    let [first, others @ ..] = headings else {
        return Ok(());
    };
    push_bytes(line, first.name.as_bytes())?;
    for heading in others {
        push_text(line, BAR)?;
        push_bytes(line, heading.name.as_bytes())?;
    }
    Ok(())
}

/// The values of a row, and the headings of their columns.
#[derive(Drop)]
pub(crate) struct Row<'a> {
    pub(crate) headings: &'a [Heading],
    pub(crate) values: &'a [Value],
}

impl Shown for Row<'_> {
    ghost use Rattle.escrow_reply.specs.Text.{row_text};

    ghost text = { λ row. row_text row.headings.now row.values.now };

    fn push_to(&self, line: &mut Vec<u8>) -> Result<(), AllocError> {
        push_row(line, self.headings, self.values)
    }
}

/// Adds the values of a row under the headings, with a bar between two.
fn push_row(line: &mut Vec<u8>, headings: &[Heading], values: &[Value]) -> Result<(), AllocError>
    ensures { OnOk result (line.new.items ≡ line.old.items ++ row_text headings.now values.now) }
{
    if values.is_empty() {
        return Ok(());
    }
    push_value(line, &values[0], scale_at(headings, 0))?;
    for place in 1..values.len() {
        push_text(line, BAR)?;
        push_value(line, &values[place], scale_at(headings, place))?;
    }
    Ok(())
}

/// Returns the scale of the values at a place, counted from 0, under the headings.
fn scale_at(headings: &[Heading], place: usize) -> Scale
    ensures { result ≡ scale_at headings.now place }
{
    match headings.get(place) {
        Some(heading) => heading.scale,
        None => Scale::ZERO,
    }
}

/// Adds a value: a number, in units of a scale, in decimal, or a text in quotes.
pub(crate) fn push_value(line: &mut Vec<u8>, value: &Value, scale: Scale) -> Result<(), AllocError>
    ensures { OnOk result (line.new.items ≡ line.old.items ++ value_text scale value.now) }
{
    match value {
        Value::Number(units) => push_units(line, Wide::from(*units), scale),
        Value::Text(text) => push_quoted(line, text.as_str()),
    }
}

/// Adds a text in quotes, with each quote in it doubled.
fn push_quoted(line: &mut Vec<u8>, text: &str) -> Result<(), AllocError>
    ensures { OnOk result (line.new.items ≡ line.old.items ++ quoted text.now) }
{
    push_text(line, "'")?;
    push_inner(line, text)?;
    push_text(line, "'")
}

/// Adds a text with each quote in it doubled. Most have none.
fn push_inner(line: &mut Vec<u8>, text: &str) -> Result<(), AllocError>
    ensures { OnOk result (line.new.items ≡ line.old.items ++ doubled text.now) }
{
    if text.as_bytes().contains(&b'\'') {
        push_doubled(line, text)
    } else {
        push_text(line, text)
    }
}

/// Adds a text with each quote in it doubled, byte by byte.
fn push_doubled(line: &mut Vec<u8>, text: &str) -> Result<(), AllocError>
    ensures { OnOk result (line.new.items ≡ line.old.items ++ doubled text.now) }
{
    for byte in text.as_bytes() {
        push_byte(line, *byte)?;
    }
    Ok(())
}

/// Adds a byte of a text in quotes. A quote is doubled.
fn push_byte(line: &mut Vec<u8>, byte: u8) -> Result<(), AllocError>
    ensures { OnOk result (line.new.items ≡ line.old.items ++ doubled (byte ∷ [])) }
{
    if byte == b'\'' {
        push_text(line, "'")?;
    }
    push_bytes(line, &[byte])
}
