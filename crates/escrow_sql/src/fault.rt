ghost use Rattle.std.specs.Prelude.{◌≡◌};
ghost use Rattle.escrow_sql.specs.declared.fault.ParseFault.TheVariants.{Memory};

use std::alloc::{AllocError, AllocFailed};

/// Why a text has no tokens, or no request.
#[derive(Clone, Copy, Debug, PartialEq, Eq)]
pub enum ParseFault {
    /// The text is no sentence of the grammar. The column, in bytes from 1, is that of the first
    /// fault.
    Syntax { column: u32 },
    /// Memory was refused.
    Memory,
}

impl From<AllocError> for ParseFault {
    ghost from_gives = { λ _ e. e ≡ Memory };

    fn from(_error: AllocError) -> ParseFault {
        ParseFault::Memory
    }
}

impl<T: Drop> From<AllocFailed<T>> for ParseFault {
    ghost from_gives = { λ _ e. e ≡ Memory };

    fn from(_error: AllocFailed<T>) -> ParseFault {
        ParseFault::Memory
    }
}
