//! Whether each pass was handed in once.
ghost use Rattle.std.specs.Prelude.{◌≡◌, ◌↔◌, ◌<◌, ℕ, IsTrue};
ghost use Rattle.std.specs.List.{AllByRecursion};
ghost use Rattle.escrow_shards.specs.Pass.{passes_at, IsPassOf, AreAllPasses};
ghost use Rattle.escrow_shards.specs.Counted.{AreOnce};

use crate::pass::Pass;

/// Returns whether each session of each database has one pass, and there are no others.
pub(crate) fn are_all_passes(databases: usize, sessions: u16, passes: &[Pass]) -> bool
    ensures { IsTrue result ↔ AreAllPasses databases sessions passes.now }
{
    are_passes_of(databases, sessions, passes) && are_each_once(databases, sessions, passes)
}

/// Returns whether each pass is for one of these databases and sessions.
fn are_passes_of(databases: usize, sessions: u16, passes: &[Pass]) -> bool
    ensures { IsTrue result ↔ AllByRecursion (IsPassOf databases sessions) passes.now }
{
    for pass in passes {
        if !pass.is_pass_of(databases, sessions) {
            return false;
        }
    }
    true
}

/// Returns whether each session of each database has one pass.
fn are_each_once(databases: usize, sessions: u16, passes: &[Pass]) -> bool
    ensures { IsTrue result ↔ ((d : ℕ) → d < databases → AreOnce d sessions passes.now) }
{
    for database in 0..databases {
        if !are_once(database, sessions, passes) {
            return false;
        }
    }
    true
}

/// Returns whether each session of a database has one pass.
fn are_once(database: usize, sessions: u16, passes: &[Pass]) -> bool
    ensures { IsTrue result ↔ AreOnce database sessions passes.now }
{
    for session in 1..usize::from(sessions) + 1 {
        if count_at(database, session, passes) != 1 {
            return false;
        }
    }
    true
}

/// Returns how many passes are for a session of a database.
fn count_at(database: usize, session: usize, passes: &[Pass]) -> usize
    ensures { result ≡ passes_at database session passes.now }
{
    passes
        .iter()
        .filter(|pass| pass.is_at(database, session))
        .count()
}
