ghost use Rattle.escrow_script.specs.Laws.{HasOneReading, Limits};

/// A line has at most one reading. That it has one is proved of the functions that serve it.
pub fn lines_are_read_in_one_way()
    ensures { HasOneReading }
{}

/// The limits of scripts. A program serves at most 16 databases. A line has at most 4,096 bytes, a
/// script 16,777,216, and a stream 2^64 - 1. A script is read by at most 33,554,432 reads of its
/// client.
pub fn limits()
    ensures { Limits }
{}
