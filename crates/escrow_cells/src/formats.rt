ghost use Rattle.std.specs.Prelude.{◌≡◌};
ghost use Rattle.escrow_cells.specs.Formats.{format_number};

/// The number of the known format. New stores are made in it.
pub const FORMAT: i64 = 2;

/// The number of the first format. Its columns have no scale.
pub const FORMAT_1: i64 = 1;

/// A format of stores.
#[derive(Clone, Copy, Debug, PartialEq, Eq)]
pub enum Format {
    /// The first format. A migration reads it.
    V1,
    /// The known format. New stores are made in it.
    Known,
}

impl Format {
    /// Returns its number, as META has it.
    pub fn number(self) -> i64
        ensures { result ≡ format_number self }
    {
        match self {
            Format::V1 => FORMAT_1,
            Format::Known => FORMAT,
        }
    }
}
