//! Workers, each on a thread of its own.
ghost use Rattle.escrow_shards.specs.Pass.{Pass};
ghost use Rattle.escrow_sessions.specs.Work.{IsWorked, IsWorker};

use crate::feed::{Done, Ended};
use crate::service::Service;
use crate::source::Source;
use crate::worker::serve;
use escrow_shards::{Gate, Pass};
use std::alloc::Global;
use std::snapshot::Snapshot;
use std::sync::Wait;
use std::sync::atomic::{AtomicU64, Ordering};
use std::thread::{Promise, PromisedHandle, Scope, Threads};

/// What a run needs to start its workers: a scope for their threads, and what the workers share.
#[derive(Drop)]
pub(crate) struct WorkerContext<'a, 's, E, H, R, G> {
    pub(crate) scope: &'a Scope<'s, E>,
    pub(crate) rt: &'s R,
    pub(crate) alloc: Global,
    pub(crate) service: &'s H,
    pub(crate) gate: &'s G,
    // The place of a worker whose thread can't be started, while it is called on this thread.
    pub(crate) absent: &'s AtomicU64,
}

impl<'a, 's, E, H, R, G> WorkerContext<'a, 's, E, H, R, G> {
    ghost use Rattle.std.specs.Prelude.{◌≡◌};

    pub(crate) fn new(
        scope: &'a Scope<'s, E>,
        rt: &'s R,
        alloc: Global,
        service: &'s H,
        gate: &'s G,
        absent: &'s AtomicU64,
    ) -> Self
        ensures { result.service.now ≡ service.now }
    {
        WorkerContext {
            scope,
            rt,
            alloc,
            service,
            gate,
            absent,
        }
    }
}

/// What a worker returns: what it did, and its source as it left it.
#[derive(Drop)]
pub(crate) struct Worked<Q> {
    pub(crate) done: Done,
    pub(crate) source: Q,
}

/// What a worker begins with, which determines what it may return.
#[derive(Drop)]
pub(crate) struct Work<Q> {
    pub(crate) pass: Snapshot<Pass>,
    pub(crate) source: Snapshot<Q>,
}

/// What a worker is to do: serve what its source returns, by its pass. The place is its own among
/// the workers of its run.
#[derive(Drop)]
struct Task<Q> {
    place: u64,
    pass: Pass,
    source: Q,
}

impl<Q: Source> Promise<Worked<Q>> for Work<Q> {
    ghost use Rattle.escrow_sessions.specs.Work.{IsWorked};

    ghost kept_by = { λ w r. IsWorked Q.gives w.pass.value w.source.value r };
}

/// A worker that was started on a thread, or one that couldn't be started, with what it returned.
#[derive(Drop)]
pub(crate) enum Worker<Q: Source + Drop> {
    Started(PromisedHandle<Worked<Q>, Work<Q>>),
    Absent(Worked<Q>),
}

/// Starts a worker on a thread of its own. If no thread can be started, the worker is marked as
/// absent, by its place, and called on this thread. It then serves nothing, and returns what it was
/// given.
pub(crate) fn start<
    's,
    E,
    H: Service + Sync,
    R: Wait + Sync,
    G: Gate + Sync,
    Q: Source + Send + Drop + 's,
>(context: &WorkerContext<'_, 's, E, H, R, G>, place: u64, pass: Pass, source: Q) -> Worker<Q>
    requires { H.has_pass context.now.service.now pass }
    ensures { IsWorker Q.gives pass source result }
{
    let work = Work {
        pass: Snapshot::of(&pass),
        source: Snapshot::of(&source),
    };
    let (rt, alloc, service) = (context.rt, context.alloc, context.service);
    let (gate, absent) = (context.gate, context.absent);
    let task = Task {
        place,
        pass,
        source,
    };
    let run = move || attend(rt, alloc, service, gate, absent, task);
    match context.scope.spawn_with(work, run) {
        Ok(handle) => Worker::Started(handle),
        Err(refused) => {
            absent.store(place, Ordering::SeqCst);
            Worker::Absent((refused.value)())
        }
    }
}

/// The work of a worker: serves what its source returns, unless the worker is marked as absent.
fn attend<H: Service, R: Wait, G: Gate, Q: Source>(
    rt: &R,
    alloc: Global,
    service: &H,
    gate: &G,
    absent: &AtomicU64,
    task: Task<Q>,
) -> Worked<Q>
    requires { H.has_pass service.now task.pass }
    ensures { IsWorked Q.gives task.pass task.source result }
{
    let Task {
        place,
        pass,
        mut source,
    } = task;
    if absent.load(Ordering::SeqCst) == place {
        let answers = Vec::new(alloc);
        let ended = Ended::NotStarted;
        let done = Done {
            pass,
            answers,
            ended,
        };
        return Worked { done, source };
    }
    let done = serve(rt, alloc, service, pass, &mut source, gate);
    Worked { done, source }
}

impl<Q: Source + Drop> Worker<Q> {
    /// Waits for the worker's thread to end, and returns what the worker returned.
    pub(crate) fn join<R: Threads>(self, rt: &R) -> Worked<Q>
        ensures { (pass : Pass) (source : Q) → IsWorker Q.gives pass source self → IsWorked Q.gives pass source result }
    {
        match self {
            Worker::Started(handle) => handle.join(rt),
            Worker::Absent(worked) => worked,
        }
    }
}
