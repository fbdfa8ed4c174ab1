//! How an error of SQLite is reported.
ghost use Rattle.std.specs.Prelude.{◌≡◌};
ghost use Rattle.escrow_cells.specs.Failure.{failure_of};

use escrow_num::Failure;
use sqlite::{Error, ErrorCode};

/// Returns the failure for an error of SQLite: memory was refused, or for any other error, the
/// store refused the call.
pub fn failure_of(error: Error) -> Failure
    ensures { result ≡ failure_of error }
{
    match error {
        Error::SqliteFailure(ErrorCode::OutOfMemory) => Failure::Memory,
        _ => Failure::Store,
    }
}
