use escrow_machine::Reply;
use escrow_num::{Failure, Refusal, Session};
use std::alloc::AllocError;

/// A statement that was served, and is an entry of the transcript.
#[derive(Debug, Drop)]
pub struct Served {
    /// The number of the entry.
    pub number: u64,
    /// The session that asked.
    pub session: Session,
    /// The reply to the statement, for the client.
    pub reply: Reply,
    /// A copy of the reply, for a receipt.
    pub kept: Reply,
}

/// Why a statement wasn't served. Nothing changed, and there is no entry.
#[derive(Clone, Copy, Debug)]
pub enum Unserved {
    /// The transcript has as many entries as it may have.
    Full,
    /// Memory was refused, or the store refused a call.
    Failed(Failure),
}

impl Unserved {
    ghost use Rattle.std.specs.Prelude.{◌≡◌};
    ghost use Rattle.escrow_history.specs.Calls.{unserved_as};

    /// Returns the refusal that the client gets.
    pub fn refusal(&self) -> Refusal
        ensures { result ≡ unserved_as self.now }
    {
        match self {
            Unserved::Full => Refusal::TranscriptFull,
            Unserved::Failed(failure) => Refusal::from(*failure),
        }
    }
}

impl From<Failure> for Unserved {
    ghost use Rattle.std.specs.Prelude.{◌≡◌};
    ghost use Rattle.escrow_history.specs.declared.served.Unserved.TheVariants.{Failed};

    ghost from_gives = { λ failure u. u ≡ Failed failure };

    fn from(failure: Failure) -> Unserved {
        Unserved::Failed(failure)
    }
}

impl From<AllocError> for Unserved {
    ghost use Rattle.std.specs.Prelude.{◌≡◌};
    ghost use Rattle.escrow_num.specs.declared.failure.Failure.TheVariants as failure;
    ghost use Rattle.escrow_history.specs.declared.served.Unserved.TheVariants.{Failed};

    ghost from_gives = { λ _ u. u ≡ Failed failure.Memory };

    fn from(_: AllocError) -> Unserved {
        Unserved::Failed(Failure::Memory)
    }
}
