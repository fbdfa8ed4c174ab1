ghost use Rattle.std.specs.Prelude.{◌≡◌, ◌↔◌, ◌<◌, ◌≤◌, [], length, vec_len, IfOk, IfErr, OnOk};
ghost use Rattle.std.specs.List.{AllByRecursion, AllZip};
ghost use Rattle.std.specs.Vec.{vec_capacity};
ghost use Rattle.escrow_sessions.specs.declared.feed.TheConstants.{MAX_WORKERS};
ghost use Rattle.escrow_sessions.specs.Serving.{AreDone, HasItsPass, IsDone};
ghost use Rattle.escrow_sessions.specs.Work.{IsWorkerOf, CameOf};

use crate::feed::{Cause, Done, Feed, MAX_WORKERS, NotRun};
use crate::filling::fill;
use crate::service::Service;
use crate::source::Listed;
use crate::team::{Worker, WorkerContext, start};
use crate::worker::serve;
use escrow_shards::{Gate, Shared, UnderLock};
use sqlite::Alter;
use std::alloc::Global;
use std::sync::Wait;
use std::sync::atomic::AtomicU64;
use std::thread;
use std::thread::Threads;

/// Serves feeds at the same time, each by a worker on a thread of its own. If there is only one
/// feed, it is served on the calling thread. Returns what each worker did, in the order of the
/// feeds. May wait.
///
/// # Errors
///
/// Fails with [`Cause::TooMany`] exactly if there are more than [`MAX_WORKERS`] feeds. The only
/// other error is [`Cause::Memory`]. After an error no worker was started, and the feeds are
/// returned.
pub fn run_sessions<
    S: Alter + Send,
    L: UnderLock<S> + Send,
    R: Threads + Wait + Sync,
    G: Gate + Sync,
>(
    rt: &R,
    alloc: Global,
    shared: &Shared<S, L>,
    feeds: Vec<Feed>,
    gate: &G,
) -> Result<Vec<Done>, NotRun>
    requires { AllByRecursion (HasItsPass shared.now) feeds.items }
    ensures done { IfOk result (λ done. AreDone feeds.items done.items) }
    ensures within { OnOk result (length feeds.items ≤ MAX_WORKERS) }
    ensures back { IfErr result (λ e. e.feeds ≡ feeds) }
    ensures cause { IfErr result (λ e. (e.cause ≡ Cause.TooMany) ↔ (MAX_WORKERS < length feeds.items)) }
{
    serve_lists(rt, alloc, shared, feeds, gate)
}

/// [`run_sessions`] over anything that serves statements.
fn serve_lists<H: Service + Sync, R: Threads + Wait + Sync, G: Gate + Sync>(
    rt: &R,
    alloc: Global,
    service: &H,
    feeds: Vec<Feed>,
    gate: &G,
) -> Result<Vec<Done>, NotRun>
    requires { AllByRecursion (λ f. H.has_pass service.now f.pass) feeds.items }
    ensures done { IfOk result (λ done. AreDone feeds.items done.items) }
    ensures within { OnOk result (length feeds.items ≤ MAX_WORKERS) }
    ensures back { IfErr result (λ e. e.feeds ≡ feeds) }
    ensures cause { IfErr result (λ e. (e.cause ≡ Cause.TooMany) ↔ (MAX_WORKERS < length feeds.items)) }
{
    if feeds.len() > MAX_WORKERS {
        let cause = Cause::TooMany;
        return Err(NotRun { feeds, cause });
    }
    let workers = Vec::with_capacity(alloc, feeds.len());
    let done = Vec::with_capacity(alloc, feeds.len());
    let (Ok(workers), Ok(done)) = (workers, done) else {
        let cause = Cause::Memory;
        return Err(NotRun { feeds, cause });
    };
    if feeds.len() == 1 {
        return Ok(serve_here(rt, alloc, service, feeds, done, gate));
    }
    let absent = AtomicU64::new(u64::MAX);
    Ok(thread::scope(
        thread::scope_env(),
        rt,
        |scope| -> Vec<Done>
            requires seats { AllByRecursion (λ f. H.has_pass service.now f.pass) feeds.items }
            requires no_worker { workers.items ≡ [] }
            requires room { vec_len feeds ≤ vec_capacity workers }
            requires none_done { done.items ≡ [] }
            requires done_fit { vec_len feeds ≤ vec_capacity done }
            ensures { AreDone feeds.items result.items }
        {
            let context = WorkerContext::new(scope, rt, alloc, service, gate, &absent);
            let workers = start_all(&context, feeds, workers);
            join_all(rt, workers, done)
        },
    ))
}

/// Serves a feed, the only one, on the calling thread. There must be room for what was done.
fn serve_here<H: Service, R: Wait, G: Gate>(
    rt: &R,
    alloc: Global,
    service: &H,
    feeds: Vec<Feed>,
    done: Vec<Done>,
    gate: &G,
) -> Vec<Done>
    requires seats { AllByRecursion (λ f. H.has_pass service.now f.pass) feeds.items }
    requires none_done { done.items ≡ [] }
    requires done_fit { vec_len feeds ≤ vec_capacity done }
    ensures { AreDone feeds.items result.items }
{
    fill(
        feeds,
        done,
        |_, feed| -> Done
            requires { H.has_pass service.now feed.pass }
            ensures { IsDone feed.pass feed.requests.items result }
        { serve_listed(rt, alloc, service, feed, gate) },
    )
}

/// Serves a feed on the calling thread.
fn serve_listed<H: Service, R: Wait, G: Gate>(
    rt: &R,
    alloc: Global,
    service: &H,
    feed: Feed,
    gate: &G,
) -> Done
    requires { H.has_pass service.now feed.pass }
    ensures { IsDone feed.pass feed.requests.items result }
{
    let Feed { pass, requests } = feed;
    let left = requests.into_iter();
    let mut source = Listed { left };
    serve(rt, alloc, service, pass, &mut source, gate)
}

/// Starts a worker for each feed. There must be room for the workers.
fn start_all<E, H: Service + Sync, R: Wait + Sync, G: Gate + Sync>(
    context: &WorkerContext<'_, '_, E, H, R, G>,
    feeds: Vec<Feed>,
    workers: Vec<Worker<Listed>>,
) -> Vec<Worker<Listed>>
    requires seats { AllByRecursion (λ f. H.has_pass context.now.service.now f.pass) feeds.items }
    requires empty { workers.items ≡ [] }
    requires room { vec_len feeds ≤ vec_capacity workers }
    ensures { AllZip IsWorkerOf feeds.items result.items }
{
    fill(
        feeds,
        workers,
        |place, feed| -> Worker<Listed>
            requires { H.has_pass context.now.service.now feed.pass }
            ensures { IsWorkerOf feed result }
        { start_listed(context, place, feed) },
    )
}

/// Starts a worker for a feed.
fn start_listed<E, H: Service + Sync, R: Wait + Sync, G: Gate + Sync>(
    context: &WorkerContext<'_, '_, E, H, R, G>,
    place: u64,
    feed: Feed,
) -> Worker<Listed>
    requires { H.has_pass context.now.service.now feed.pass }
    ensures { IsWorkerOf feed result }
{
    let Feed { pass, requests } = feed;
    let left = requests.into_iter();
    start(context, place, pass, Listed { left })
}

/// Waits for workers, and returns what they did. There must be room for it.
fn join_all<R: Threads>(rt: &R, workers: Vec<Worker<Listed>>, done: Vec<Done>) -> Vec<Done>
    requires empty { done.items ≡ [] }
    requires room { vec_len workers ≤ vec_capacity done }
    ensures { AllZip CameOf workers.items result.items }
{
    fill(workers, done, |_, worker| join_listed(rt, worker))
}

/// Waits for a worker, and returns what it did.
fn join_listed<R: Threads>(rt: &R, worker: Worker<Listed>) -> Done
    ensures { CameOf worker result }
{
    worker.join(rt).done
}
