ghost use Rattle.std.specs.Prelude.{◌≡◌, ◌↔◌, ℕ, ◌<◌, ◌≤◌, List, [], length, vec_len, All, IfOk, IfErr, OnOk};
ghost use Rattle.std.specs.Iterator.{IsFinite, Drains, HoldsAlong};
ghost use Rattle.std.specs.List.{AllByRecursion, AllZip};
ghost use Rattle.std.specs.Vec.{vec_capacity};
ghost use Rattle.escrow_statement.specs.declared.statement.Request.{Request};
ghost use Rattle.escrow_shards.specs.Shared.{HasPass};
ghost use Rattle.escrow_sessions.specs.declared.feed.TheConstants.{MAX_WORKERS};
ghost use Rattle.escrow_sessions.specs.Fed.{AreFed};
ghost use Rattle.escrow_sessions.specs.Slots.{AreFurther, AreEnded, IsNewSlot, JoinsAs};

use crate::feed::{Cause, Done, MAX_WORKERS, NotFed};
use crate::filling::fill;
use crate::rule::Item;
use crate::service::Service;
use crate::slot::Slot;
use crate::team::WorkerContext;
use escrow_shards::{Gate, Pass, Shared, UnderLock};
use escrow_statement::Request;
use sqlite::Alter;
use std::alloc::Global;
use std::sync::Wait;
use std::sync::atomic::AtomicU64;
use std::thread;
use std::thread::Threads;

/// Serves items as they come. Each names a pass by its place, and this pass's worker serves it. All
/// workers are started before the first item is taken, and each item is sent to its worker before
/// the next is taken. Returns what each worker did, in the order of the passes. May wait: while
/// [`MAX_WAITING`] requests wait for a worker, the next one for it holds up all later items.
///
/// [`MAX_WAITING`]: crate::MAX_WAITING
///
/// # Errors
///
/// Fails with [`Cause::TooMany`] exactly if there are more than [`MAX_WORKERS`] passes. The only
/// other error is [`Cause::Memory`]. After an error no worker was started, and passes and items are
/// returned.
pub fn run_fed<
    S: Alter + Send,
    L: UnderLock<S> + Send,
    R: Threads + Wait + Sync,
    G: Gate + Sync,
    I: Iterator<Item = (usize, Request)> + Drop,
>(
    rt: &R,
    alloc: Global,
    shared: &Shared<S, L>,
    passes: Vec<Pass>,
    items: I,
    gate: &G,
) -> Result<Vec<Done>, NotFed<I>>
    requires seats { AllByRecursion (HasPass shared.now) passes.items }
    requires can { I.can_next items }
    requires ends { IsFinite (I.remaining items) }
    requires places { HoldsAlong I.next_gives items (All (λ x. x.0 < length passes.items)) }
    ensures done { IfOk result
        (λ done. (xs : List (ℕ × Request)) × Drains I.next_gives items xs × AreFed passes.items xs done.items) }
    ensures within { OnOk result (length passes.items ≤ MAX_WORKERS) }
    ensures back { IfErr result (λ e. (e.passes ≡ passes) × (e.items ≡ items)) }
    ensures cause { IfErr result (λ e. (e.cause ≡ Cause.TooMany) ↔ (MAX_WORKERS < length passes.items)) }
{
    serve_fed(rt, alloc, shared, passes, items, gate)
}

/// [`run_fed`] over anything that serves statements.
fn serve_fed<
    H: Service + Sync,
    R: Threads + Wait + Sync,
    G: Gate + Sync,
    I: Iterator<Item = (usize, Request)> + Drop,
>(
    rt: &R,
    alloc: Global,
    service: &H,
    passes: Vec<Pass>,
    items: I,
    gate: &G,
) -> Result<Vec<Done>, NotFed<I>>
    requires seats { AllByRecursion (H.has_pass service.now) passes.items }
    requires can { I.can_next items }
    requires ends { IsFinite (I.remaining items) }
    requires places { HoldsAlong I.next_gives items (All (λ x. x.0 < length passes.items)) }
    ensures done { IfOk result
        (λ done. (xs : List (ℕ × Request)) × Drains I.next_gives items xs × AreFed passes.items xs done.items) }
    ensures within { OnOk result (length passes.items ≤ MAX_WORKERS) }
    ensures back { IfErr result (λ e. (e.passes ≡ passes) × (e.items ≡ items)) }
    ensures cause { IfErr result (λ e. (e.cause ≡ Cause.TooMany) ↔ (MAX_WORKERS < length passes.items)) }
{
    if passes.len() > MAX_WORKERS {
        let cause = Cause::TooMany;
        return Err(NotFed {
            passes,
            items,
            cause,
        });
    }
    let slots = Vec::with_capacity(alloc, passes.len());
    let done = Vec::with_capacity(alloc, passes.len());
    let (Ok(slots), Ok(done)) = (slots, done) else {
        let cause = Cause::Memory;
        return Err(NotFed {
            passes,
            items,
            cause,
        });
    };
    let absent = AtomicU64::new(u64::MAX);
    Ok(thread::scope(
        thread::scope_env(),
        rt,
        |scope| -> Vec<Done>
            requires seats { AllByRecursion (H.has_pass service.now) passes.items }
            requires can { I.can_next items }
            requires ends { IsFinite (I.remaining items) }
            requires places { HoldsAlong I.next_gives items (All (λ x. x.0 < length passes.items)) }
            requires few { length passes.items ≤ MAX_WORKERS }
            requires no_slot { slots.items ≡ [] }
            requires room { vec_len passes ≤ vec_capacity slots }
            requires none_done { done.items ≡ [] }
            requires done_fit { vec_len passes ≤ vec_capacity done }
            ensures { (xs : List (ℕ × Request)) × Drains I.next_gives items xs × AreFed passes.items xs result.items }
        {
            let context = WorkerContext::new(scope, rt, alloc, service, gate, &absent);
            let mut slots = start_all(&context, passes, slots);
            feed(rt, &mut slots, items);
            end(rt, &mut slots);
            join_all(rt, slots, done)
        },
    ))
}

/// Starts a worker for each pass. There must be room for the workers.
fn start_all<E, H: Service + Sync, R: Wait + Sync, G: Gate + Sync>(
    context: &WorkerContext<'_, '_, E, H, R, G>,
    passes: Vec<Pass>,
    slots: Vec<Slot>,
) -> Vec<Slot>
    requires seats { AllByRecursion (H.has_pass context.now.service.now) passes.items }
    requires empty { slots.items ≡ [] }
    requires room { vec_len passes ≤ vec_capacity slots }
    ensures { AllZip IsNewSlot passes.items result.items }
{
    fill(
        passes,
        slots,
        |place, pass|
            requires { H.has_pass context.now.service.now pass }
        { Slot::start_fed(context, place, pass) },
    )
}

/// Sends each item to the worker of its place.
fn feed<R: Wait, I: Iterator<Item = (usize, Request)> + Drop>(
    rt: &R,
    slots: &mut Vec<Slot>,
    items: I,
)
    requires can { I.can_next items }
    requires ends { IsFinite (I.remaining items) }
    requires places { HoldsAlong I.next_gives items (All (λ x. x.0 < length slots.old.items)) }
    ensures { (xs : List (ℕ × Request)) × Drains I.next_gives items xs × AreFurther xs slots.old.items slots.new.items }
{
    for (place, request) in items {
        slots[place].send(rt, Item::One(request));
    }
}

/// Tells each worker that there are no more requests.
fn end<R: Wait>(rt: &R, slots: &mut Vec<Slot>)
    ensures { AreEnded slots.old.items slots.new.items }
{
    for place in 0..slots.len() {
        slots[place].send(rt, Item::End);
    }
}

/// Waits for the workers, and returns what they did. There must be room for it.
fn join_all<R: Threads>(rt: &R, slots: Vec<Slot>, done: Vec<Done>) -> Vec<Done>
    requires empty { done.items ≡ [] }
    requires room { vec_len slots ≤ vec_capacity done }
    ensures { AllZip JoinsAs slots.items result.items }
{
    fill(slots, done, |_, slot| slot.join(rt))
}
