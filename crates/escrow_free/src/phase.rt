//! The sessions of a phase, served at the same time.
ghost use Rattle.std.specs.Prelude.{◌≡◌, ◌≢◌, ◌<◌, length, All, MatchResult};
ghost use Rattle.std.specs.List.{AllByRecursion};
ghost use Rattle.escrow_shards.specs.Shared.{HasPass};
ghost use Rattle.escrow_free.specs.Outboxes.{ArePassesServed, AreServed, HasOutbox};

use crate::audience::Audience;
use crate::dealing::deal;
use crate::fault::FreeFault;
use crate::marks::rank_outboxes;
use crate::outbox::{Outbox, served_outboxes, unserved_outboxes};
use crate::parting::{merge, part};
use escrow_sessions::{Cause, NotRun, run_sessions};
use escrow_shards::{Gate, Pass, Shared, UnderLock};
use escrow_statement::Request;
use escrow_stats::Watcher;
use sqlite::Alter;
use std::alloc::Global;
use std::sync::Wait;
use std::thread::Threads;

/// The threads that may be started for workers, and the gate that workers pass.
#[derive(Drop)]
pub(crate) struct Workers<'a, T, G> {
    pub(crate) rt: &'a T,
    pub(crate) gate: &'a G,
}

/// Serves the requests of a phase: each in its session, those of one session in order, and the
/// sessions at the same time. An audience watches meanwhile. May wait.
///
/// # Errors
///
/// Fails with [`FreeFault::Sessions`] if there are requests of more sessions than workers may be
/// started, and with [`FreeFault::Memory`].
pub(crate) fn run_phase<
    S: Alter + Send,
    L: UnderLock<S> + Send,
    R: Threads + Wait + Sync,
    G: Gate + Sync,
    A: Audience<Watcher<S>>,
>(
    workers: &Workers<R, G>,
    alloc: Global,
    shared: &Shared<S, L>,
    outboxes: Vec<Outbox>,
    items: Vec<(usize, Request)>,
    audience: &mut A,
) -> Result<Vec<Outbox>, FreeFault>
    requires seats { AllByRecursion (HasOutbox shared.now) outboxes.items }
    requires places { All (λ x. x.0 < length outboxes.items) items.items }
    ensures { MatchResult result (λ new. AreServed outboxes.items items.items new.items)
        (λ fault. fault ≢ FreeFault.Open) }
{
    audience.begin(items.len());
    let served = serve_requests(workers, alloc, shared, outboxes, items);
    audience.end();
    served
}

/// As [`run_phase`], without an audience.
fn serve_requests<
    S: Alter + Send,
    L: UnderLock<S> + Send,
    R: Threads + Wait + Sync,
    G: Gate + Sync,
>(
    workers: &Workers<R, G>,
    alloc: Global,
    shared: &Shared<S, L>,
    outboxes: Vec<Outbox>,
    mut items: Vec<(usize, Request)>,
) -> Result<Vec<Outbox>, FreeFault>
    requires seats { AllByRecursion (HasOutbox shared.now) outboxes.items }
    requires places { All (λ x. x.0 < length outboxes.items) items.items }
    ensures { MatchResult result (λ new. AreServed outboxes.items items.items new.items)
        (λ fault. fault ≢ FreeFault.Open) }
{
    if items.is_empty() {
        return Ok(outboxes);
    }
    let marks = rank_outboxes(alloc, outboxes.len(), &mut items)?;
    let (passes, idle) = part(alloc, marks.as_slice(), outboxes)?;
    let served = serve_passes(workers, alloc, shared, passes, items)?;
    let outboxes = merge(alloc, marks.as_slice(), served, idle)?;
    Ok(outboxes)
}

/// Serves items by the workers of the passes that they name by place. If memory is refused before a
/// worker is started, nothing is served.
fn serve_passes<S: Alter + Send, L: UnderLock<S> + Send, R: Threads + Wait + Sync, G: Gate + Sync>(
    workers: &Workers<R, G>,
    alloc: Global,
    shared: &Shared<S, L>,
    passes: Vec<Pass>,
    items: Vec<(usize, Request)>,
) -> Result<Vec<Outbox>, FreeFault>
    requires seats { AllByRecursion (HasPass shared.now) passes.items }
    requires places { All (λ x. x.0 < length passes.items) items.items }
    ensures { MatchResult result (λ served. ArePassesServed passes.items items.items served.items)
        (λ fault. fault ≢ FreeFault.Open) }
{
    let feeds = deal(alloc, passes, items)?;
    match run_sessions(workers.rt, alloc, shared, feeds, workers.gate) {
        Ok(done) => Ok(served_outboxes(alloc, done)?),
        Err(NotRun { feeds, cause }) => match cause {
            Cause::TooMany => Err(FreeFault::Sessions),
            Cause::Memory => Ok(unserved_outboxes(alloc, feeds)?),
        },
    }
}
