ghost use Rattle.std.specs.Prelude.{◌≡◌};
ghost use Rattle.escrow_script.specs.Written.{fault_refusal};

use crate::limits::{MAX_SCRIPT, MAX_STREAM};
use escrow_num::Refusal;
use escrow_sql::ParseFault;
use std::alloc::AllocError;
use std::io::{self, ErrorKind};
use thiserror::Error;

/// Why a script can't be read to its end.
#[derive(Clone, Copy, Debug, Error)]
pub enum ReadFault {
    /// It has more bytes than a script may have.
    #[error("it is longer than {MAX_SCRIPT} bytes")]
    TooLong,
    /// It has more bytes than can be counted.
    #[error("it is longer than {MAX_STREAM} bytes")]
    Endless,
    /// Its descriptor is closed, or isn't open for reading. The system reports the two in the same
    /// way.
    #[error("standard input is closed or isn't open for reading")]
    Closed,
    /// Its input is a folder.
    #[error("standard input is a directory")]
    Folder,
    /// The system fails with another error.
    #[error("{0}")]
    System(io::Error),
}

/// Linux's number EBADF, for a descriptor that is closed or is open for something else. This error
/// has no kind.
const BAD_DESCRIPTOR: i32 = 9;

impl From<io::Error> for ReadFault {
    fn from(error: io::Error) -> ReadFault {
        match error.kind() {
            ErrorKind::IsADirectory => ReadFault::Folder,
            _ if error.raw_os_error() == Some(BAD_DESCRIPTOR) => ReadFault::Closed,
            _ => ReadFault::System(error),
        }
    }
}

/// Why replies can't be written.
#[derive(Clone, Copy, Debug, Error)]
pub enum WriteFault {
    /// The descriptor is closed, or isn't open for writing. The system reports the two in the same
    /// way.
    #[error("standard output is closed or isn't open for writing")]
    Closed,
    /// The client accepted none of the bytes, and reported no error.
    #[error("standard output accepts no data")]
    TakesNothing,
    /// The system fails with another error.
    #[error("{0}")]
    System(io::Error),
}

impl From<io::Error> for WriteFault {
    fn from(error: io::Error) -> WriteFault {
        if error.raw_os_error() == Some(BAD_DESCRIPTOR) {
            WriteFault::Closed
        } else {
            WriteFault::System(error)
        }
    }
}

/// Why a script isn't served to its end. The lines before the fault are served.
#[derive(Clone, Copy, Debug, Error)]
pub enum ServeFault {
    /// The client returned an error, or returned more than a script may have.
    #[error("the script can't be read: {0}")]
    Read(ReadFault),
    /// The client returned an error, or accepted none of the bytes that were left.
    #[error("a reply can't be written: {0}")]
    Write(WriteFault),
    /// Memory was refused outside a statement.
    #[error("out of memory")]
    Memory,
}

impl From<AllocError> for ServeFault {
    ghost use Rattle.std.specs.Prelude.{◌≡◌};
    ghost use Rattle.escrow_script.specs.declared.fault.ServeFault.TheVariants.{Memory};

    ghost from_gives = { λ _ e. e ≡ Memory };

    fn from(_error: AllocError) -> ServeFault {
        ServeFault::Memory
    }
}

impl From<ReadFault> for ServeFault {
    ghost use Rattle.std.specs.Prelude.{◌≡◌};
    ghost use Rattle.escrow_script.specs.declared.fault.ServeFault.TheVariants.{Read};

    ghost from_gives = { λ f e. e ≡ Read f };

    fn from(fault: ReadFault) -> ServeFault {
        ServeFault::Read(fault)
    }
}

impl From<WriteFault> for ServeFault {
    ghost use Rattle.std.specs.Prelude.{◌≡◌};
    ghost use Rattle.escrow_script.specs.declared.fault.ServeFault.TheVariants.{Write};

    ghost from_gives = { λ f e. e ≡ Write f };

    fn from(fault: WriteFault) -> ServeFault {
        ServeFault::Write(fault)
    }
}

/// Returns the refusal of a text that isn't served: 11 with the column of its first fault, or 51 if
/// memory was refused.
pub fn fault_refusal(fault: ParseFault) -> Refusal
    ensures { result ≡ fault_refusal fault }
{
    match fault {
        ParseFault::Syntax { column } => Refusal::Syntax { column },
        ParseFault::Memory => Refusal::Memory,
    }
}
