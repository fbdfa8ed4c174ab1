ghost use Rattle.std.specs.Prelude.{◌≡◌, ◌≢◌, ◌↔◌};

use escrow_num::Refusal;
use escrow_script::{ReadFault, ServeFault, WriteFault};
use escrow_shards::{Cause, Unshared};
use std::alloc::AllocError;
use thiserror::Error;

/// Why a script whose sessions run at the same time isn't served to its end. Nothing is handed
/// back.
#[derive(Clone, Copy, Debug, Error)]
pub enum FreeFault {
    /// The client returned an error, or returned more than a script may have.
    #[error("the script can't be read: {0}")]
    Read(ReadFault),
    /// The client returned an error, or accepted none of the bytes that were left.
    #[error("a reply can't be written: {0}")]
    Write(WriteFault),
    /// Memory was refused outside a statement, or a watcher has no place to read at.
    #[error("out of memory")]
    Memory,
    /// A store failed when it was read at the beginning.
    #[error("a store can't be read")]
    Store,
    /// A transaction is open in a database that was handed in.
    #[error("a database has an open transaction")]
    Open,
    /// A phase has statements of more sessions than may run at the same time.
    #[error("a phase has more than 64 sessions")]
    Sessions,
    /// The histories of the databases don't match the replies to their sessions.
    #[error("the replies don't match the histories of the databases")]
    Mismatch,
}

impl FreeFault {
    /// Returns the fault if databases can't be shared for this cause.
    pub(crate) fn of_sharing(cause: Unshared) -> Self
        ensures { (result ≡ FreeFault.Open) ↔ (cause ≡ Unshared.Refused Refusal.TransactionOpen) }
    {
        match cause {
            Unshared::Refused(Refusal::TransactionOpen) => FreeFault::Open,
            Unshared::Refused(Refusal::Memory) | Unshared::TooManyWatchers | Unshared::NoPlace =>
                FreeFault::Memory,
            Unshared::Refused(_) => FreeFault::Store,
        }
    }

    /// Returns the fault if a close returns this cause, and no histories.
    pub(crate) fn of_close(cause: Cause) -> Self
        ensures { result ≢ FreeFault.Open }
    {
        match cause {
            Cause::Memory => FreeFault::Memory,
            Cause::Passes | Cause::Parts { .. } | Cause::Receipts { .. } => FreeFault::Mismatch,
        }
    }
}

impl From<AllocError> for FreeFault {
    ghost use Rattle.std.specs.Prelude.{◌≡◌};
    ghost use Rattle.escrow_free.specs.declared.fault.FreeFault.TheVariants.{Memory};

    ghost from_gives = { λ _ e. e ≡ Memory };

    fn from(_error: AllocError) -> FreeFault {
        FreeFault::Memory
    }
}

impl From<ServeFault> for FreeFault {
    ghost use Rattle.std.specs.Prelude.{◌≢◌};
    ghost use Rattle.escrow_free.specs.declared.fault.FreeFault.TheVariants.{Open};

    ghost from_gives = { λ _ e. e ≢ Open };

    fn from(fault: ServeFault) -> FreeFault {
        match fault {
            ServeFault::Read(cause) => FreeFault::Read(cause),
            ServeFault::Write(cause) => FreeFault::Write(cause),
            ServeFault::Memory => FreeFault::Memory,
        }
    }
}
