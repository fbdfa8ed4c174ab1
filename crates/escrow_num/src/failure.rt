use std::alloc::{AllocError, AllocFailed};

/// Why a call that takes memory or asks a store fails.
#[derive(Clone, Copy, Debug, PartialEq, Eq)]
pub enum Failure {
    /// Out of memory.
    Memory,
    /// The store refused a call.
    Store,
}

impl From<AllocError> for Failure {
    ghost use Rattle.std.specs.Prelude.{◌≡◌};
    ghost use Rattle.escrow_num.specs.declared.failure.Failure.TheVariants.{Memory};

    ghost from_gives = { λ _ f. f ≡ Memory };

    fn from(_: AllocError) -> Failure {
        Failure::Memory
    }
}

impl<T: Drop> From<AllocFailed<T>> for Failure {
    ghost use Rattle.std.specs.Prelude.{◌≡◌};
    ghost use Rattle.escrow_num.specs.declared.failure.Failure.TheVariants.{Memory};

    ghost from_gives = { λ _ f. f ≡ Memory };

    fn from(_: AllocFailed<T>) -> Failure {
        Failure::Memory
    }
}

impl std::fmt::Display for Failure {
    fn fmt<W: std::fmt::Write>(&self, f: &mut std::fmt::Formatter<W>) -> std::fmt::Result {
        f.write_str(match self {
            Failure::Memory => "out of memory",
            Failure::Store => "the store refused a call",
        })
    }
}

impl std::error::Error for Failure {}
