ghost use Rattle.std.specs.Prelude.{◌≡◌};

use crate::board_fault::BoardFault;
use crate::known::{Introduces, Known, Names, Next, Prefixes, Publishes};
use crate::shown::{Post, Shown};
use crate::tally::Tally;
use crate::watcher::Watcher;
use core::mem::replace_with;
use escrow_transcript::{Base, Entry};
use left_right::writer::Writer;
use sqlite::Alter;
use std::alloc::Global;
use std::marker::{Brand, Model};
use std::snapshot::Snapshot;
use std::sync::Wait;

/// The most watchers of a board.
pub const MAX_WATCHERS: usize = 8;

/// Shows totals of the history of a database to watchers, and never makes them wait. When it is
/// dropped, it waits until none of them is reading.
pub struct Board<S: Alter, R: Wait + Drop> {
    writer: Writing<S>,
    // The base where the history begins. It takes no bytes.
    base: Snapshot<Base>,
    totals: Tally,
    rt: R,
}

type Writing<S> = Writer<Shown, Post, Known, Prefixes<S>>;

impl<S: Alter, R: Wait + Drop> Drop for Board<S, R> {
    fn drop(self) {
        let Board {
            writer,
            base: _,
            totals: _,
            rt,
        } = self;
        drop(writer.take(&rt));
    }
}

impl<S: Alter, R: Wait + Drop> Model for Board<S, R> {
    ghost use Rattle.std.specs.Prelude.{drop};
    ghost use Rattle.left_right.specs.Sides.{view as seen};
    ghost use Rattle.escrow_stats.specs.Prefixes.{IsBoard};
    ghost use Rattle.escrow_stats.specs.Watching.{Board, board_code};

    ghost Value = { Board };

    ghost coded = { board_code };

    ghost view = { λ b. record {
      base = b.base.value;
      entries = (seen b.writer.desk.place).entries;
      shown = (seen b.writer.desk.place).shown;
      doubts = (seen b.writer.desk.place).doubts;
    } };

    ghost invariant = { λ b. IsBoard b.base.value b.totals b.writer.desk.shown.value
        (drop b.writer.behind b.writer.log.items) (seen b.writer.desk.place) };
}

impl<S: Alter, R: Wait + Drop> Board<S, R> {
    ghost use Rattle.std.specs.Prelude.{◌≡◌, ◌↔◌, ℕ, ◌+◌, ◌<◌, ◌≤◌, ◌++◌, ◌∷◌, [], drop, length, All, IfOk, IfErr, IsErrOf};
    ghost use Rattle.escrow_stats.specs.declared.board.TheConstants.{MAX_WATCHERS};
    ghost use Rattle.escrow_transcript.specs.declared.transcript.TheConstants.Transcript.{MAX_NUMBER};
    ghost use Rattle.left_right.specs.Sides.{view as seen};
    ghost use Rattle.escrow_stats.specs.Prefixes.{IsPosted, IsPublished, MayShow, Writes};
    ghost use Rattle.escrow_stats.specs.Watching.{IsAlwaysClean, IsPrefix, IsLegalFrom, IsNewBoard, IsNewWatcher};

    /// Returns a board of a history that begins at a base, with this many watchers. It shows that
    /// nothing was served yet.
    ///
    /// # Errors
    ///
    /// Fails with [`BoardFault::TooMany`] exactly if more than [`MAX_WATCHERS`] are asked for. It
    /// may also fail with [`BoardFault::Memory`] and [`BoardFault::NoPlace`].
    pub fn make(
        rt: R,
        alloc: Global,
        base: &Base,
        watchers: usize,
    ) -> Result<(Self, Vec<Watcher<S>>), BoardFault>
        ensures board { IfOk result (λ r. IsNewBoard base.now r.0) }
        ensures watchers { IfOk result (λ r. (length r.1.items ≡ watchers) × All (IsNewWatcher base.now) r.1.items) }
        ensures many { IsErrOf result BoardFault.TooMany ↔ (MAX_WATCHERS < watchers) }
    {
        if watchers > MAX_WATCHERS {
            return Err(BoardFault::TooMany);
        }
        let mut board = Board::begin(rt, alloc, base, watchers)?;
        let mut made = Vec::new(alloc);
        for _ in 0..watchers {
            let watcher = board.watcher()?;
            let Ok(()) = made.push(watcher) else {
                return Err(BoardFault::Memory);
            };
        }
        Ok((board, made))
    }

    /// Returns a board that shows that nothing was served yet, with places for this many watchers.
    /// Fails only if memory is refused.
    fn begin(rt: R, alloc: Global, base: &Base, watchers: usize) -> Result<Self, BoardFault>
        requires { watchers ≤ MAX_WATCHERS }
        ensures board { IfOk result (IsNewBoard base.now) }
        ensures only { IfErr result (λ e. e ≡ BoardFault.Memory) }
    {
        let base = Snapshot::of(base);
        let post = Post {
            totals: Tally::new(),
            count: 0,
            base: Snapshot::of(&base),
        };
        let Ok(writer) = Writing::new(alloc, first(&post), first(&post), watchers.max(1)) else {
            return Err(BoardFault::Memory);
        };
        let (writer, _) = writer.publish_as::<Names, R>(&rt);
        Ok(Board {
            writer,
            base,
            totals: Tally::new(),
            rt,
        })
    }

    /// Returns one more watcher, before anything is served. Fails if there is no place for it to
    /// read at.
    fn watcher(&mut self) -> Result<Watcher<S>, BoardFault>
        ensures same { self.new ≡ self.old }
        ensures watcher { IfOk result (IsNewWatcher self.old.base) }
        ensures only { IfErr result (λ e. e ≡ BoardFault.NoPlace) }
    {
        let Ok(mut reader) = self.writer.factory().reader() else {
            return Err(BoardFault::NoPlace);
        };
        reader.learn::<Introduces>(self.writer.tell::<Introduces>());
        Ok(Watcher::new(reader, &self.base))
    }

    /// Counts one more entry, and shows the totals with it. If memory is refused, the board keeps
    /// showing what it shows, and the next entry makes up for it. It may wait for a watcher that is
    /// reading.
    pub fn post<T: Wait>(&mut self, rt: &T, entry: &Entry)
        // The doubts of the database's disk: 0 as long as it returned what was written.
        ghost doubts: { ℕ }
        requires number { (entry.now.number ≡ length self.old.entries + 1) × (entry.now.number ≤ MAX_NUMBER) }
        requires legal { doubts ≡ 0 → IsLegalFrom self.old.base (self.old.entries ++ entry.now ∷ []) }
        requires more { self.old.doubts ≤ doubts }
        requires always { IsAlwaysClean S.Store → doubts ≡ 0 }
        ensures base { self.new.base ≡ self.old.base }
        ensures entries { self.new.entries ≡ self.old.entries ++ entry.now ∷ [] }
        ensures shown { IsPrefix self.new.shown self.new.entries }
        ensures doubts { self.new.doubts ≤ doubts }
    {
        self.post_as::<Brand, T>(rt, entry);
    }

    /// [`Board::post`], for the entry and the doubts that are picked.
    fn post_as<N: Next, T: Wait>(&mut self, rt: &T, entry: &Entry)
        requires picked { entry.now ≡ N.more }
        requires number { (entry.now.number ≡ length self.old.entries + 1) × (entry.now.number ≤ MAX_NUMBER) }
        requires legal { N.doubts ≡ 0 → IsLegalFrom self.old.base (self.old.entries ++ entry.now ∷ []) }
        requires more { self.old.doubts ≤ N.doubts }
        requires always { IsAlwaysClean S.Store → N.doubts ≡ 0 }
        ensures base { self.new.base ≡ self.old.base }
        ensures entries { self.new.entries ≡ self.old.entries ++ entry.now ∷ [] }
        ensures shown { IsPrefix self.new.shown self.new.entries }
        ensures doubts { self.new.doubts ≤ N.doubts }
    {
        let count = entry.number;
        let totals = self.totals.with(&entry.reply);
        let post = Post {
            totals,
            count,
            base: Snapshot::of(&self.base),
        };
        self.totals = totals;
        let _ = self.writer.append(post);
        replace_with(
            &mut self.writer,
            (),
            |writer: Writing<S>, _: ()| -> (Writing<S>, ())
                requires writes { Writes writer.desk.shown.value.post.value.base.value.value writer.desk.shown.value
                    (seen writer.desk.place) }
                requires posted { IsPosted writer.desk.shown.value.post.value.base.value.value
                    ((seen writer.desk.place).entries ++ N.more ∷ []) (drop writer.behind writer.log.items) }
                requires may { MayShow S.Store writer.desk.shown.value.post.value.base.value.value
                    ((seen writer.desk.place).entries ++ N.more ∷ []) N.doubts (seen writer.desk.place) }
                ensures published { IsPublished N.more N.doubts
                    (seen writer.desk.place) writer.desk.shown.value result.0.desk.shown.value
                    (seen result.0.desk.place) }
                ensures same_base { result.0.desk.shown.value.post.value.base.value.value
                    ≡ writer.desk.shown.value.post.value.base.value.value }
                ensures idle { drop result.0.behind result.0.log.items ≡ [] }
            {
                let (writer, _) = writer.publish_as::<Publishes<N>, T>(rt);
                (writer, ())
            },
        );
    }
}

/// Returns what is shown at first: this post.
fn first(post: &Post) -> Shown
    ensures totals { result.totals ≡ post.now.totals }
    ensures post { result.post.value ≡ post.now }
{
    Shown {
        totals: post.totals,
        post: Snapshot::of(post),
    }
}
