ghost use Rattle.std.specs.Prelude.{◌≡◌, ℕ, ◌+◌, ◌≤◌, ◌++◌, ◌∷◌, [], length};
ghost use Rattle.sqlite.specs.Held.{state};
ghost use Rattle.sqlite.specs.State.{HasCleanDisk};
ghost use Rattle.escrow_transcript.specs.declared.transcript.TheConstants.Transcript.{MAX_NUMBER};
ghost use Rattle.escrow_transcript.specs.Legal.{AreNumbered, IsLegal};
ghost use Rattle.escrow_stats.specs.Watching.{IsLegalFrom, IsPrefix};
ghost use Rattle.escrow_shards.specs.Shown.{doubts_of};

use crate::part::Part;
use crate::under_lock::{Locked, UnderLock};
use escrow_history::{Audited, Committed, Served, Unserved};
use escrow_num::{Failure, Refusal, Session};
use escrow_statement::Statement;
use escrow_stats::Board;
use escrow_transcript::Entry;
use sqlite::Alter;
use std::alloc::Global;
use std::marker::Model;
use std::sync::Wait;

/// What is under the lock of a watched database: the database with its transcript, and a board with
/// the totals of its whole history. Whenever the lock is taken, the entries that the board counted
/// end with those of the transcript. As long as the disk returned what was written, they are legal
/// from the board's base to the state found.
#[derive(Drop)]
pub struct Watched<S: Alter, R: Wait + Drop> {
    locked: Locked<S>,
    board: Board<S, R>,
}

impl<S: Alter, R: Wait + Drop> Model for Watched<S, R> {
    ghost use Rattle.escrow_shards.specs.Shown.{Watched, watched_code, IsShown};

    ghost Value = { Watched S };

    ghost coded = { watched_code S.code };

    ghost view = { λ w. record { history = w.locked.audited; parts = w.locked.parts; board = w.board } };

    ghost invariant = { λ w. IsShown S.Store w.locked.audited w.board };
}

impl<S: Alter, R: Wait + Drop> Watched<S, R> {
    ghost use Rattle.std.specs.Prelude.{◌≡◌, []};
    ghost use Rattle.escrow_stats.specs.Watching.{IsNewBoard};

    /// Returns a database that has served nothing, with a board of its history.
    pub(crate) fn new(audited: Audited<S>, board: Board<S, R>) -> Self
        requires first { audited.base.before ≡ 0 }
        requires unserved { audited.entries ≡ [] }
        requires board { IsNewBoard audited.base board }
    {
        prove!(audited.base().before == 0);
        Watched {
            locked: Locked::new(audited),
            board,
        }
    }
}

impl<S: Alter, R: Wait + Drop> UnderLock<S> for Watched<S, R> {
    ghost history = { λ watched. watched.history };

    ghost parts = { λ watched. watched.parts };

    /// Serves one statement, and shows the totals with its entry. May wait for a watcher that is
    /// reading.
    fn serve_locked<T: Wait>(
        &mut self,
        rt: &T,
        alloc: Global,
        session: Session,
        statement: &Statement,
    ) -> Result<Served, Unserved> {
        let served = self.locked.serve(alloc, session, statement)?;
        let audited = &self.locked.audited;
        let Some(entry) = audited.entries().last() else {
            unreachable!();
        };
        show(&mut self.board, rt, entry, audited);
        Ok(served)
    }

    /// Serves COMMITs, and shows the totals with each entry. May wait for a watcher that is
    /// reading.
    fn commit_locked<T: Wait>(
        &mut self,
        rt: &T,
        alloc: Global,
        sessions: &[Session],
    ) -> Result<Vec<Result<Committed, Failure>>, Unserved> {
        let before = self.locked.audited.entries().len();
        let outcomes = self.locked.commit_all(alloc, sessions)?;
        let audited = &self.locked.audited;
        show_all(&mut self.board, rt, &audited.entries()[before..], audited);
        Ok(outcomes)
    }

    fn drain_locked(&mut self, alloc: Global, database: usize) -> Result<Part<S>, Refusal> {
        self.locked.drain(alloc, database)
    }

    /// Ends the board. May wait for a watcher that is reading.
    fn into_locked(self) -> Locked<S> {
        let Watched { locked, board } = self;
        drop(board);
        locked
    }
}

/// Shows the totals with each of these further entries, after which the database is as it is now.
/// May wait.
fn show_all<S: Alter, R: Wait + Drop, T: Wait>(
    board: &mut Board<S, R>,
    rt: &T,
    entries: &[Entry],
    audited: &Audited<S>,
)
    requires numbered { AreNumbered (length board.old.entries) entries.now }
    requires few { length board.old.entries + length entries.now ≤ MAX_NUMBER }
    requires legal { HasCleanDisk (state S.Store audited.now.store)
        → IsLegal board.old.base (board.old.entries ++ entries.now) audited.now.state }
    requires more { board.old.doubts ≤ doubts_of S.Store audited.now.store }
    requires begins { IsPrefix board.old.shown board.old.entries }
    ensures base { board.new.base ≡ board.old.base }
    ensures entries { board.new.entries ≡ board.old.entries ++ entries.now }
    ensures shown { IsPrefix board.new.shown board.new.entries }
    ensures sure { board.new.doubts ≤ doubts_of S.Store audited.now.store }
{
    for entry in entries {
        show(board, rt, entry, audited);
    }
}

/// Shows the totals with an entry of a database. May wait.
fn show<S: Alter, R: Wait + Drop, T: Wait>(
    board: &mut Board<S, R>,
    rt: &T,
    entry: &Entry,
    audited: &Audited<S>,
)
    requires number { (entry.now.number ≡ length board.old.entries + 1) × (entry.now.number ≤ MAX_NUMBER) }
    requires legal { HasCleanDisk (state S.Store audited.now.store)
        → IsLegalFrom board.old.base (board.old.entries ++ entry.now ∷ []) }
    requires more { board.old.doubts ≤ doubts_of S.Store audited.now.store }
    ensures base { board.new.base ≡ board.old.base }
    ensures entries { board.new.entries ≡ board.old.entries ++ entry.now ∷ [] }
    ensures shown { IsPrefix board.new.shown board.new.entries }
    ensures doubts { board.new.doubts ≤ doubts_of S.Store audited.now.store }
{
    show_as(board, rt, entry, audited);
}

/// Shows the totals as [`show`] does, with the doubts of the database's disk.
fn show_as<S: Alter, R: Wait + Drop, T: Wait>(
    board: &mut Board<S, R>,
    rt: &T,
    entry: &Entry,
    audited: &Audited<S>,
)
    ghost doubts: { ℕ }
    requires picked { doubts ≡ doubts_of S.Store audited.now.store }
    requires number { (entry.now.number ≡ length board.old.entries + 1) × (entry.now.number ≤ MAX_NUMBER) }
    requires legal { HasCleanDisk (state S.Store audited.now.store)
        → IsLegalFrom board.old.base (board.old.entries ++ entry.now ∷ []) }
    requires more { board.old.doubts ≤ doubts }
    ensures base { board.new.base ≡ board.old.base }
    ensures entries { board.new.entries ≡ board.old.entries ++ entry.now ∷ [] }
    ensures shown { IsPrefix board.new.shown board.new.entries }
    ensures doubts { board.new.doubts ≤ doubts }
{
    board.post(rt, entry);
}
