use escrow_num::{Failure, Refusal};
use std::alloc::{AllocError, AllocFailed};

/// Why a store isn't verified.
#[derive(Clone, Copy)]
pub(crate) enum Unverified {
    /// Memory was refused (51), or the store refused a call (60). This decides nothing about the
    /// store.
    Failed(Failure),
    /// It isn't the store of any tables and rows (61).
    ForeignStore,
    /// It has another format (62).
    OtherFormat,
}

impl From<Failure> for Unverified {
    ghost use Rattle.std.specs.Prelude.{◌≡◌};
    ghost use Rattle.escrow_recover.specs.declared.unverified.Unverified.TheVariants.{Failed};

    ghost from_gives = { λ failure why. why ≡ Failed failure };

    fn from(failure: Failure) -> Unverified {
        Unverified::Failed(failure)
    }
}

impl From<Unverified> for Refusal {
    ghost use Rattle.std.specs.Prelude.{◌≡◌};
    ghost use Rattle.escrow_recover.specs.Inside.{refused_as};

    ghost from_gives = { λ why r. r ≡ refused_as why };

    fn from(why: Unverified) -> Refusal {
        match why {
            Unverified::Failed(failure) => Refusal::from(failure),
            Unverified::ForeignStore => Refusal::ForeignStore,
            Unverified::OtherFormat => Refusal::UnknownVersion,
        }
    }
}

/// Why a part of a store isn't verified.
#[derive(Clone, Copy)]
pub(crate) enum PartFault {
    /// Memory was refused, or the store refused a call.
    Failed(Failure),
    /// It isn't a part of any store.
    Foreign,
}

impl From<Failure> for PartFault {
    ghost use Rattle.std.specs.Prelude.{◌≡◌};
    ghost use Rattle.escrow_recover.specs.declared.unverified.PartFault.TheVariants.{Failed};

    ghost from_gives = { λ failure fault. fault ≡ Failed failure };

    fn from(failure: Failure) -> PartFault {
        PartFault::Failed(failure)
    }
}

impl From<AllocError> for PartFault {
    ghost use Rattle.std.specs.Prelude.{◌≡◌};
    ghost use Rattle.escrow_num.specs.declared.failure.Failure.TheVariants.{Memory};
    ghost use Rattle.escrow_recover.specs.declared.unverified.PartFault.TheVariants.{Failed};

    ghost from_gives = { λ _ fault. fault ≡ Failed Memory };

    fn from(_: AllocError) -> PartFault {
        PartFault::Failed(Failure::Memory)
    }
}

impl<T: Drop> From<AllocFailed<T>> for PartFault {
    ghost use Rattle.std.specs.Prelude.{◌≡◌};
    ghost use Rattle.escrow_num.specs.declared.failure.Failure.TheVariants.{Memory};
    ghost use Rattle.escrow_recover.specs.declared.unverified.PartFault.TheVariants.{Failed};

    ghost from_gives = { λ _ fault. fault ≡ Failed Memory };

    fn from(_: AllocFailed<T>) -> PartFault {
        PartFault::Failed(Failure::Memory)
    }
}

impl From<PartFault> for Unverified {
    ghost use Rattle.std.specs.Prelude.{◌≡◌};
    ghost use Rattle.escrow_recover.specs.Inside.{unverified_by};

    ghost from_gives = { λ fault why. why ≡ unverified_by fault };

    fn from(fault: PartFault) -> Unverified {
        match fault {
            PartFault::Failed(failure) => Unverified::Failed(failure),
            PartFault::Foreign => Unverified::ForeignStore,
        }
    }
}
