use crate::fault::ReadFault;

/// The most databases of a program.
pub const MAX_DATABASES: u8 = 16;

/// The most bytes of a line, without its line feed, and before its carriage return is dropped.
pub const MAX_LINE: usize = 4096;

/// The most bytes of a script.
pub const MAX_SCRIPT: usize = 16_777_216;

/// The most reads of a script's client.
pub const MAX_READS: usize = 33_554_432;

/// The most bytes of a stream, and the most reads of its client: the greatest number of 64 bits.
pub const MAX_STREAM: usize = 18_446_744_073_709_551_615;

/// How much is read from a client.
#[derive(Clone, Copy, Debug, PartialEq, Eq)]
pub enum Limit {
    /// As much as a script may have: [`MAX_SCRIPT`] bytes, in [`MAX_READS`] reads.
    Script,
    /// Everything that the client sends: [`MAX_STREAM`] bytes, in as many reads.
    Stream,
}

impl Limit {
    ghost use Rattle.std.specs.Prelude.{◌≡◌};
    ghost use Rattle.escrow_script.specs.Script.{most_bytes};

    /// Returns the most bytes.
    pub(crate) fn bytes(self) -> usize
        ensures { result ≡ most_bytes self }
    {
        match self {
            Limit::Script => MAX_SCRIPT,
            Limit::Stream => MAX_STREAM,
        }
    }

    /// Returns the most reads of the client.
    pub(crate) fn reads(self) -> usize {
        match self {
            Limit::Script => MAX_READS,
            Limit::Stream => MAX_STREAM,
        }
    }

    /// Returns the fault of a client that returns more bytes, or needs more reads.
    pub(crate) fn fault(self) -> ReadFault {
        match self {
            Limit::Script => ReadFault::TooLong,
            Limit::Stream => ReadFault::Endless,
        }
    }
}
