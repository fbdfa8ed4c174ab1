use crate::database::Database;
use escrow_num::{Failure, Reservation};
use escrow_transcript::Image;
use sqlite::Alter;
use std::alloc::Global;

impl<S: Alter> Database<S> {
    ghost use Rattle.std.specs.Prelude.{◌≡◌, IfOk};
    ghost use Rattle.sqlite.specs.Held.{state};
    ghost use Rattle.sqlite.specs.State.{HasCleanDisk, Survives};
    ghost use Rattle.escrow_transcript.specs.Image.{image_of};

    /// Returns what the database holds apart from what is open: its tables, its committed rows and
    /// the next id. Reads the rows from the store, and changes nothing. Fails only if memory is
    /// refused, or if the store refuses.
    pub fn image(&mut self, alloc: Global) -> Result<Image, Failure>
        ensures image { HasCleanDisk (state S.Store self.new.store) → IfOk result (λ i. i ≡ image_of self.old.state) }
        ensures state { self.new.state ≡ self.old.state }
        ensures clean { HasCleanDisk (state S.Store self.new.store) → HasCleanDisk (state S.Store self.old.store) }

        // The store isn't written: a crash leaves what it might have left before.
        ensures crash { Survives (state S.Store self.old.store) (state S.Store self.new.store) (λ _. ⊥) }
    {
        let next_id = self.raised_id();
        let catalog = self.tables.catalog(alloc)?;
        let rows = self.tables.all_rows(alloc)?;
        Ok(Image {
            catalog,
            rows,
            next_id,
        })
    }

    /// Returns the id that comes next: that of the next reservation, or the one after the greatest
    /// if there are no more.
    fn raised_id(&self) -> u64
        ensures { result ≡ self.now.state.next_id }
    {
        self.next_id().unwrap_or(Reservation::MAX_ID + 1)
    }
}
