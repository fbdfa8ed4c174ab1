ghost use Rattle.std.specs.Prelude.{◌≡◌, ◌≤◌, ◌<◌, vec_len};
ghost use Rattle.std.specs.Vec.{vec_capacity};
ghost use Rattle.escrow_shards.specs.declared.shared.TheConstants.{MAX_DATABASES};

use crate::close::Closed;
use crate::shared::MAX_DATABASES;
use sqlite::Alter;
use std::alloc::{AllocError, Global};

/// Room for what a close returns. It is taken when the sharing begins.
#[derive(Drop)]
pub(crate) struct Room<S: Alter> {
    pub(crate) closed: Vec<Closed<S>>,
    pub ghost none_yet: { vec_len closed ≡ 0 },
    pub ghost wide: { MAX_DATABASES ≤ vec_capacity closed },
}

impl<S: Alter> Room<S> {
    /// Takes room for as many databases as may be shared. Fails only if memory is refused.
    pub(crate) fn new(alloc: Global) -> Result<Self, AllocError> {
        Ok(Room {
            closed: Vec::with_capacity(alloc, MAX_DATABASES)?,
        })
    }
}
