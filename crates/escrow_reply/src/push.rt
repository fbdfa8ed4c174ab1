ghost use Rattle.std.specs.Prelude.{◌≡◌, ◌+◌, ◌++◌, OnOk, length, decimal};
ghost use Rattle.std.specs.Fmt.{signed_decimal};
ghost use Rattle.escrow_num.specs.Scaled.{scaled_text};
ghost use Rattle.escrow_reply.specs.Room.{TakesRoom};

use escrow_num::{Scale, Scaled, Wide};
use itoa::Buffer;
use std::alloc::AllocError;

pub(crate) fn push_bytes(line: &mut Vec<u8>, bytes: &[u8]) -> Result<(), AllocError>
    ensures text { OnOk result (line.new.items ≡ line.old.items ++ bytes.now) }
    ensures room { TakesRoom result line.old line.new (length bytes.now) }
{
    line.extend_from_slice(bytes)
}

pub(crate) fn push_text(line: &mut Vec<u8>, text: &str) -> Result<(), AllocError>
    ensures text { OnOk result (line.new.items ≡ line.old.items ++ text.now) }
    ensures room { TakesRoom result line.old line.new (length text.now) }
{
    push_bytes(line, text.as_bytes())
}

/// Adds a number in decimal.
pub(crate) fn push_number(line: &mut Vec<u8>, number: u64) -> Result<(), AllocError>
    ensures text { OnOk result (line.new.items ≡ line.old.items ++ decimal number) }
    ensures room { TakesRoom result line.old line.new 40 }
{
    let mut digits = Buffer::new();
    push_text(line, digits.format(number))
}

/// Adds units of a scale: as many digits after the point as the scale has, with a minus if the
/// number is negative.
#[tactic(auto, using(crate::proofs::Whole::whole_units))]
pub(crate) fn push_units(line: &mut Vec<u8>, units: Wide, scale: Scale) -> Result<(), AllocError>
    ensures text { OnOk result (line.new.items ≡ line.old.items ++ scaled_text scale units) }
    ensures room { TakesRoom result line.old line.new 40 }
{
    if scale.get() == 0 {
        push_whole(line, units.get())
    } else {
        push_bytes(line, Scaled::new(units, scale).as_bytes())
    }
}

/// Adds a whole number in decimal, with a minus if it is negative.
fn push_whole(line: &mut Vec<u8>, number: i128) -> Result<(), AllocError>
    ensures text { OnOk result (line.new.items ≡ line.old.items ++ signed_decimal number) }
    ensures room { TakesRoom result line.old line.new 40 }
{
    let mut digits = Buffer::new();
    match i64::try_from(number) {
        Ok(small) => push_text(line, digits.format(small)),
        Err(_) => push_text(line, digits.format(number)),
    }
}

/// Adds words and units of a scale.
pub(crate) fn push_measure(
    line: &mut Vec<u8>,
    words: &str,
    units: Wide,
    scale: Scale,
) -> Result<(), AllocError>
    ensures text { OnOk result (line.new.items ≡ line.old.items ++ (words.now ++ scaled_text scale units)) }
    ensures room { TakesRoom result line.old line.new (length words.now + 40) }
{
    push_text(line, words)?;
    push_units(line, units, scale)
}

/// Adds words and a number.
pub(crate) fn push_counted(line: &mut Vec<u8>, words: &str, number: u64) -> Result<(), AllocError>
    ensures text { OnOk result (line.new.items ≡ line.old.items ++ (words.now ++ decimal number)) }
    ensures room { TakesRoom result line.old line.new (length words.now + 40) }
{
    push_text(line, words)?;
    push_number(line, number)
}
