ghost use Rattle.std.specs.Prelude.{◌≡◌, ◌↔◌, IfOk, IsTrue};

use crate::image::Image;
use std::alloc::{AllocError, Global};

/// The state in which a transcript begins.
#[derive(Debug, Drop)]
pub struct Base {
    /// What the database holds then. Nothing is open.
    pub image: Image,
    /// How many entries come before it in the history of its database, which is the number of the
    /// last of them.
    pub before: u64,
}

impl Base {
    /// Returns a copy of the base. Fails only if memory is refused.
    pub fn copy(&self, alloc: Global) -> Result<Base, AllocError>
        ensures { IfOk result (λ b. b ≡ self.now) }
    {
        Ok(Base {
            image: self.image.copy(alloc)?,
            before: self.before,
        })
    }

    /// Returns whether two bases are equal: in the image, and in the number of entries before it.
    pub fn is_same(&self, other: &Base) -> bool
        ensures { IsTrue result ↔ (self.now ≡ other.now) }
    {
        self.image.is_same(&other.image) && self.before == other.before
    }
}
