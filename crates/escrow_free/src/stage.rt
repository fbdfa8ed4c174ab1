//! Databases that are shared for a script, and what is found when the sharing ends.
ghost use Rattle.std.specs.Prelude.{◌≡◌, ◌≢◌, ◌↔◌, ◌≤◌, true, false, length, map, vec_len, IfOk, IfErr, MatchResult, OnOk};
ghost use Rattle.escrow_num.specs.declared.session.TheConstants.Session.{MAX_SHARED};
ghost use Rattle.escrow_shards.specs.Opened.{any_open, AreRead, database_at};
ghost use Rattle.escrow_shards.specs.Pass.{new_passes};
ghost use Rattle.escrow_shards.specs.Whole.{AreWhole};

use crate::fault::FreeFault;
use escrow_core::Database;
use escrow_num::Session;
use escrow_script::MAX_DATABASES;
use escrow_shards::{Audit, Locked, Part, Pass, Shared, UnderLock, Watched};
use escrow_stats::Watcher;
use sqlite::Alter;
use std::alloc::Global;
use std::sync::Wait;

/// Databases under locks, a pass for each of their sessions, and watchers of them.
#[derive(Drop)]
pub(crate) struct Stage<S: Alter, L> {
    pub(crate) shared: Shared<S, L>,
    pub(crate) passes: Vec<Pass>,
    pub(crate) watchers: Vec<Watcher<S>>,
}

/// Puts databases under locks, and makes a pass for each of their sessions. Nobody watches them.
pub(crate) fn share<S: Alter + Drop>(
    alloc: Global,
    databases: Vec<Database<S>>,
) -> Result<Stage<S, Locked<S>>, FreeFault>
    requires some { 1 ≤ vec_len databases }
    requires few { vec_len databases ≤ MAX_DATABASES }
    ensures read { IfOk result (λ stage. AreRead S.Store databases.items (map database_at stage.shared.openings)) }
    ensures sessions { IfOk result (λ stage. stage.shared.sessions ≡ MAX_SHARED) }
    ensures passes { IfOk result (λ stage. stage.passes.items ≡ new_passes (length databases.items) MAX_SHARED) }
    ensures closed { OnOk result (any_open databases.items ≡ false) }
    ensures open { IfErr result (λ fault. (fault ≡ FreeFault.Open) ↔ (any_open databases.items ≡ true)) }
{
    match Shared::<S>::make(alloc, databases, Session::MAX_SHARED) {
        Ok((shared, passes)) => Ok(Stage {
            shared,
            passes,
            watchers: Vec::new(alloc),
        }),
        Err(fault) => Err(FreeFault::of_sharing(fault.cause)),
    }
}

/// As [`share`], with a watcher for each database.
pub(crate) fn share_watched<'r, S: Alter + Drop, T: Wait>(
    rt: &'r T,
    alloc: Global,
    databases: Vec<Database<S>>,
) -> Result<Stage<S, Watched<S, &'r T>>, FreeFault>
    requires some { 1 ≤ vec_len databases }
    requires few { vec_len databases ≤ MAX_DATABASES }
    ensures read { IfOk result (λ stage. AreRead S.Store databases.items (map database_at stage.shared.openings)) }
    ensures sessions { IfOk result (λ stage. stage.shared.sessions ≡ MAX_SHARED) }
    ensures passes { IfOk result (λ stage. stage.passes.items ≡ new_passes (length databases.items) MAX_SHARED) }
    ensures closed { OnOk result (any_open databases.items ≡ false) }
    ensures open { IfErr result (λ fault. (fault ≡ FreeFault.Open) ↔ (any_open databases.items ≡ true)) }
{
    match Shared::make_watched(rt, alloc, databases, Session::MAX_SHARED, 1) {
        Ok((shared, passes, watchers)) => Ok(Stage {
            shared,
            passes,
            watchers,
        }),
        Err(fault) => Err(FreeFault::of_sharing(fault.cause)),
    }
}

/// Takes databases out of their locks, and puts together what was served.
pub(crate) fn close<S: Alter + Drop, L: UnderLock<S> + Drop>(
    shared: Shared<S, L>,
    passes: Vec<Pass>,
    parts: Vec<Part<S>>,
) -> Result<Audit<S>, FreeFault>
    ensures { MatchResult result
        (λ audit. AreWhole S.Store shared passes.items audit.parts.items audit.closed.items)
        (λ fault. fault ≢ FreeFault.Open) }
{
    match shared.close(passes, parts) {
        Ok(audit) => Ok(audit),
        Err(mismatch) => Err(FreeFault::of_close(mismatch.cause)),
    }
}
