//! Laws of limits and of decimals. Each is the contract of a function that does nothing.
ghost use Rattle.escrow_num.specs.Laws.{DigitsAreSpelled, Limits, PartsAreDigits, TextsAreReadBack, UnitsAreExact};

/// The limits of this layer. Sessions are 1 to 65,535, and 1 to 64 in scripts and among threads. An
/// amount has at most 15 digits, a wide sum lies within 10^33, and the last id of a reservation is
/// 999,999,999,999,999. A written name has at most 30 bytes, and any name 36. A scale has at most 6
/// digits, a decimal lies within 999,999,999,999,999, and the text of a number with a scale has at
/// most 36 bytes.
pub fn limits()
    ensures { Limits }
{}

/// Millionths have units of a scale exactly if the units make up the millionths and are an amount.
/// So nothing is ever rounded.
pub fn units_are_exact()
    ensures { UnitsAreExact }
{}

/// At every scale, the text of an amount of units is read back as that amount. At scale 0 it is the
/// text of a whole number, without a point.
pub fn texts_are_read_back()
    ensures { TextsAreReadBack }
{}

/// The whole part of an amount's text is one or more digits. As many digits follow it as the scale
/// has. Together they spell the amount's units.
pub fn parts_are_digits()
    ensures { PartsAreDigits }
{}

/// Digits, alone or with a point and digits after them, are read as the number that the digits
/// spell. A text that is read as an amount is read as the same number with a scale.
pub fn digits_are_spelled()
    ensures { DigitsAreSpelled }
{}
