ghost use Rattle.std.specs.Prelude.{◌≡◌, ◌+◌, ◌-◌, ◌<◌, ◌≤◌, ◌==◌, ◌^◌, [], ◌∷◌, ◌++◌, decimal, drop, if◌then◌else◌, length, true};
ghost use Rattle.escrow_num.specs.Scale.{IsScale};
ghost use Rattle.escrow_num.specs.Scaled.{before_last, last_digits, magnitude_text, scaled_text};
ghost use Rattle.escrow_num.specs.declared.scaled.TheConstants.Scaled.{MAX_LEN};

use crate::scale::Scale;
use crate::wide::Wide;
use std::fmt;
use std::marker::Model;

/// The text of a number of units of a scale: the whole part, then a point and as many digits as the
/// scale has. A negative number has a leading `-`. The text is held in place and takes no memory.
#[derive(Drop)]
pub struct Scaled {
    bytes: [u8; 36],
    start: usize,
}

impl Model for Scaled {
    ghost use Rattle.std.specs.Prelude.{List, ℕ, ◌≤◌, drop};
    ghost use Rattle.std.specs.Str.{IsUtf8};
    ghost use Rattle.escrow_num.specs.declared.scaled.TheConstants.Scaled.{MAX_LEN};

    ghost Value = { List ℕ };

    ghost view = { λ s. drop s.start s.bytes };

    ghost invariant = { λ s. IsUtf8 (drop s.start s.bytes) × (s.start ≤ MAX_LEN) };
}

impl Scaled {
    /// The most bytes of a text: a sign, the 34 digits of the greatest sum, and a point.
    pub const MAX_LEN: usize = 36;

    /// Returns the text of a number of units of a scale.
    pub fn new(units: Wide, scale: Scale) -> Self
        ensures { result ≡ scaled_text scale units }
    {
        let number = units.get();
        let mut bytes = [b'0'; 36];
        let first = put_magnitude(&mut bytes, number.unsigned_abs(), scale.get());
        let start = put_sign(&mut bytes, number < 0, first);
        Scaled { bytes, start }
    }

    /// Returns the bytes of the text, 36 at most.
    pub fn as_bytes(&self) -> &[u8]
        ensures value { result.now ≡ self.now }
        ensures short { length result.now ≤ MAX_LEN }
    {
        &self.bytes[self.start..]
    }

    /// Returns the text, 36 bytes at most.
    pub fn as_str(&self) -> &str
        ensures value { result.now ≡ self.now }
        ensures short { length result.now ≤ MAX_LEN }
    {
        match str::from_utf8(&self.bytes[self.start..]) {
            Ok(text) => text,
            Err(_) => unreachable!(),
        }
    }
}

/// The text.
impl fmt::Display for Scaled {
    ghost use Rattle.std.specs.Prelude.{Some};

    ghost output = { λ s. Some s };

    fn fmt<W: fmt::Write>(&self, f: &mut fmt::Formatter<W>) -> fmt::Result {
        fmt::Display::fmt(self.as_str(), f)
    }
}

/// Writes a magnitude of units of a scale so that it ends at the end of the place, with room for a
/// sign before it. Returns where it begins.
fn put_magnitude(bytes: &mut [u8], magnitude: u128, scale: u8) -> usize
    requires within { magnitude < 10 ^ 34 }
    requires scale { IsScale scale }
    requires place { length bytes.old ≡ MAX_LEN }
    ensures room { (0 < result) × (result ≤ MAX_LEN) }
    ensures written { drop result bytes.new ≡ magnitude_text scale magnitude }
{
    let digits = usize::from(scale);
    let whole = put_last(bytes, magnitude, digits, Scaled::MAX_LEN);
    let end = put_point(bytes, digits, Scaled::MAX_LEN - digits);
    put_number(bytes, whole, end)
}

/// Writes a minus before a number if it is negative. Returns where the text begins.
fn put_sign(bytes: &mut [u8], is_negative: bool, start: usize) -> usize
    requires { (0 < start) × (start ≤ length bytes.old) }
    ensures room { result ≤ start }
    ensures written { drop result bytes.new
        ≡ (if is_negative then 45 ∷ [] else []) ++ drop start bytes.old }
{
    if is_negative {
        put(bytes, b'-', start)
    } else {
        start
    }
}

/// Writes a point before digits, if there are any. Returns where they begin now.
fn put_point(bytes: &mut [u8], digits: usize, start: usize) -> usize
    requires { (0 < start) × (start ≤ length bytes.old) }
    ensures room { (start ≤ result + 1) × (result ≤ start) }
    ensures written { drop result bytes.new ≡ (if digits == 0 then [] else 46 ∷ []) ++ drop start bytes.old }
{
    if digits == 0 {
        start
    } else {
        put(bytes, b'.', start)
    }
}

/// Writes the last `digits` digits of a number before an end. Returns the number without them.
fn put_last(bytes: &mut [u8], number: u128, digits: usize, end: usize) -> u128
    requires { (digits ≤ end) × (end ≤ length bytes.old) }
    ensures rest { result ≡ before_last digits number }
    ensures written { drop (end - digits) bytes.new ≡ last_digits digits number ++ drop end bytes.old }
{
    let mut rest = number;
    let mut at = end;
    let mut left = digits;
    while left > 0 {
        at = put(bytes, b'0' + (rest % 10) as u8, at);
        rest /= 10;
        left -= 1;
    }
    rest
}

/// Writes a number in decimal before an end. Returns where it begins.
fn put_number(bytes: &mut [u8], number: u128, end: usize) -> usize
    requires { (length (decimal number) ≤ end) × (end ≤ length bytes.old) }
    ensures start { result + length (decimal number) ≡ end }
    ensures written { drop result bytes.new ≡ decimal number ++ drop end bytes.old }
{
    // A division of 128 bits takes long, so 64 bits take over as soon as they are enough.
    let mut rest = number;
    let mut at = end;
    while rest > u128::from(u64::MAX) {
        at = put(bytes, b'0' + (rest % 10) as u8, at);
        rest /= 10;
    }
    put_small(bytes, rest as u64, at)
}

/// [`put_number`] for a number of 64 bits.
fn put_small(bytes: &mut [u8], number: u64, end: usize) -> usize
    requires { (length (decimal number) ≤ end) × (end ≤ length bytes.old) }
    ensures start { result + length (decimal number) ≡ end }
    ensures written { drop result bytes.new ≡ decimal number ++ drop end bytes.old }
{
    let mut rest = number;
    let mut at = end;
    while rest >= 10 {
        at = put(bytes, b'0' + (rest % 10) as u8, at);
        rest /= 10;
    }
    put(bytes, b'0' + rest as u8, at)
}

/// Writes a byte before `start`. Returns where the text begins now.
fn put(bytes: &mut [u8], byte: u8, start: usize) -> usize
    requires { (0 < start) × (start ≤ length bytes.old) }
    ensures start { result + 1 ≡ start }
    ensures written { drop result bytes.new ≡ byte ∷ drop start bytes.old }
{
    bytes[start - 1] = byte;
    start - 1
}
