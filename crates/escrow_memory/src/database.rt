//! Databases of SQLite over the store.
ghost use Rattle.std.specs.Prelude.{◌≡◌, false, IfOk};
ghost use Rattle.sqlite.specs.Held.{state};
ghost use Rattle.escrow_memory.specs.Empty.{no_objects};
ghost use Rattle.escrow_memory.specs.Store.{over_blocks};

use crate::store::BlockStore;
use sqlite::Connection;
use std::alloc::{AllocError, Global};

/// Returns an SQLite database in memory, without objects. Fails only if memory is refused: SQLite
/// accepts an empty list of objects, and the store itself has no other error.
pub fn open(alloc: Global) -> Result<Connection<BlockStore>, AllocError>
    ensures empty { IfOk result (λ conn. (state over_blocks conn).now.schema ≡ no_objects) }
    ensures outside { IfOk result (λ conn. conn.in_transaction ≡ false) }
{
    match Connection::over(alloc, BlockStore::new(alloc, &[])?) {
        Ok(conn) => Ok(conn),
        Err(_) => Err(AllocError),
    }
}
