ghost use Rattle.std.specs.Prelude.{◌≡◌, ◌↔◌, IfOk, IsTrue};

use escrow_num::{Row, Seq, are_same, copy_all};
use escrow_schema::TableDef;
use std::alloc::{AllocError, Global};

/// What a database holds apart from what is open: its tables, its committed rows and the next id.
/// If nothing is open, that is all.
#[derive(Debug, Drop)]
pub struct Image {
    /// The definitions of its tables, in order of name.
    pub catalog: Seq<TableDef>,
    /// Its committed rows, in order of table and key.
    pub rows: Seq<Row>,
    /// The id that the next reservation takes.
    pub next_id: u64,
}

impl Image {
    /// Returns a copy of the image. Fails only if memory is refused.
    pub fn copy(&self, alloc: Global) -> Result<Image, AllocError>
        ensures { IfOk result (λ i. i ≡ self.now) }
    {
        Ok(Image {
            catalog: copy_all(alloc, self.catalog.as_slice())?,
            rows: copy_all(alloc, self.rows.as_slice())?,
            next_id: self.next_id,
        })
    }

    /// Returns whether two images are equal: in tables, rows and next id.
    pub fn is_same(&self, other: &Image) -> bool
        ensures { IsTrue result ↔ (self.now ≡ other.now) }
    {
        are_same(self.catalog.as_slice(), other.catalog.as_slice())
            && are_same(self.rows.as_slice(), other.rows.as_slice())
            && self.next_id == other.next_id
    }
}
