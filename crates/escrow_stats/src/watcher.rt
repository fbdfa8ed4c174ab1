ghost use Rattle.std.specs.Prelude.{◌≡◌, IfSome, IfNone};
ghost use Rattle.left_right.specs.Sides.{view};
ghost use Rattle.escrow_stats.specs.declared.shown.Shown.{Shown};
ghost use Rattle.escrow_stats.specs.Prefixes.{IsRead};

use crate::known::{Known, Prefixes, Reads};
use crate::shown::Shown;
use crate::tally::Tally;
use core::mem::replace_with;
use escrow_transcript::Base;
use left_right::reader::Reader;
use sqlite::Alter;
use std::marker::Model;
use std::snapshot::Snapshot;

/// Reads totals of what was served in a database, and never waits.
#[derive(Drop)]
pub struct Watcher<S: Alter> {
    reader: Reading<S>,
    totals: Tally,
    // The base where the history begins. It takes no bytes.
    base: Snapshot<Snapshot<Base>>,
}

type Reading<S> = Reader<Shown, Known, Prefixes<S>>;

impl<S: Alter> Model for Watcher<S> {
    ghost use Rattle.left_right.specs.Sides.{view as seen};
    ghost use Rattle.escrow_stats.specs.Prefixes.{IsWatcher};
    ghost use Rattle.escrow_stats.specs.Watching.{Watcher, watcher_code};

    ghost Value = { Watcher };

    ghost coded = { watcher_code };

    ghost view = { λ w. record
        { base = w.base.value.value; entries = (seen w.reader.place).shown; doubts = (seen w.reader.place).doubts } };

    ghost invariant = { λ w. IsWatcher S.Store w.base.value.value w.totals (seen w.reader.place) };
}

impl<S: Alter> Watcher<S> {
    ghost use Rattle.std.specs.Prelude.{◌≡◌, ◌≤◌, [], Some};
    ghost use Rattle.left_right.specs.Sides.{view};
    ghost use Rattle.escrow_stats.specs.Tally.{tally_of};
    ghost use Rattle.escrow_stats.specs.Watching.{IsPrefix, IsNewWatcher, IsSound, replies_of};

    /// Returns a watcher of a history that begins at a base. It has read nothing yet.
    pub(crate) fn new(reader: Reading<S>, base: &Snapshot<Base>) -> Self
        requires named { (view reader.place).base ≡ Some base.now.value }
        requires unread { ((view reader.place).shown ≡ []) × ((view reader.place).doubts ≡ 0) }
        ensures { IsNewWatcher base.now.value result }
    {
        Watcher {
            reader,
            totals: Tally::new(),
            base: Snapshot::of(base),
        }
    }

    /// Returns the totals that the board shows. They are those of a list of entries that begins
    /// with the one that was read before. The list is legal, from where the history begins, as long
    /// as the disk returned what was written. If the board no longer exists, returns the totals
    /// that were read last. Never waits.
    pub fn read(&mut self) -> Tally
        ensures totals { result ≡ tally_of (replies_of self.new.entries) }
        ensures rises { IsPrefix self.old.entries self.new.entries }
        ensures base { self.new.base ≡ self.old.base }
        ensures sound { IsSound S.Store self.new }
        ensures doubts { self.old.doubts ≤ self.new.doubts }
    {
        if let Some(totals) = replace_with(&mut self.reader, (), look) {
            self.totals = totals;
        }
        self.totals
    }
}

/// Reads what the board shows, if it still exists.
fn look<S: Alter>(reader: Reading<S>, _: ()) -> (Reading<S>, Option<Tally>)
    ensures seen { IfSome result.1
        (λ totals. (y : Shown) × (IsRead S.Store (view reader.place) y y (view result.0.place) × (y.totals ≡ totals))) }
    ensures gone { IfNone result.1 (view result.0.place ≡ view reader.place) }
{
    match reader.enter_as::<Reads<S>>() {
        Ok(reading) => {
            let totals = reading.get().totals;
            (reading.leave(), Some(totals))
        }
        Err(reader) => (reader, None),
    }
}
