ghost use Rattle.std.specs.Prelude.{◌≡◌, ◌≢◌, ◌↔◌, ◌≤◌, true, List, [], length, map, replicate, vec_len, IfErr, IfOk, IfSome, IsErrOf, OnOk};
ghost use Rattle.std.specs.Io.KnownBytes.{IsAtEnd};
ghost use Rattle.escrow_num.specs.declared.session.TheConstants.Session.{MAX_SHARED};
ghost use Rattle.escrow_core.specs.Database.{Database};
ghost use Rattle.escrow_stats.specs.Tally.{tally_of};
ghost use Rattle.escrow_shards.specs.Opened.{any_open, AreRead, database_at};
ghost use Rattle.escrow_shards.specs.Pass.{new_passes};
ghost use Rattle.escrow_free.specs.FreeOutput.{ServesFree};
ghost use Rattle.escrow_free.specs.Histories.{AreHistories, histories};
ghost use Rattle.escrow_free.specs.Phases.{IsServed};
ghost use Rattle.escrow_free.specs.Outboxes.{Fits, HavePasses};

use crate::audience::{Audience, Nobody};
use crate::drains::Drains;
use crate::fault::FreeFault;
use crate::outbox::{Outbox, outboxes_of, passes_of};
use crate::phase::{Workers, run_phase};
use crate::plan::Plan;
use crate::printing::print_phase;
use crate::reading::{Phase, read_phase};
use crate::stage::{Stage, close, share, share_watched};
use escrow_core::Database;
use escrow_script::{Client, MAX_DATABASES, Script};
use escrow_shards::{Audit, Gate, Part, Shared, UnderLock};
use escrow_stats::{Tally, Watcher};
use sqlite::Alter;
use std::alloc::{AllocError, Global};
use std::sync::Wait;
use std::thread::Threads;

/// Serves a script phase by phase. A phase is the lines up to `@join`, or up to the script's end.
/// Its sessions run at the same time, each on a thread of its own; a session alone in its phase
/// runs on the calling thread. After the phase, the replies to its lines are written, in the order
/// of the lines. At the end everything that was served is put together, and the histories of the
/// databases are handed back. There must be 1 to 16 databases. `@restart` is refused as no line.
/// May wait.
///
/// If a session's worker can't be started, or memory for an answer is refused, the statement is
/// refused for memory. SHOW STATISTICS shows the totals of its session in this call, and needs no
/// worker. After a phase, long histories are handed out in parts, which are handed back with the
/// others at the end.
///
/// # Errors
///
/// Fails with [`FreeFault::Open`] exactly if a transaction is open in a database, and with
/// [`FreeFault::Store`] if a store fails when it is read at the beginning. Fails with
/// [`FreeFault::Sessions`] if a phase has statements of more than 64 sessions over all databases,
/// and with [`FreeFault::Mismatch`] if the histories don't match the replies to the sessions. May
/// also fail with [`FreeFault::Read`], [`FreeFault::Write`] and [`FreeFault::Memory`]. After an
/// error nothing is handed back.
pub fn serve_free<S: Alter + Drop + Send, T: Threads + Wait + Sync, C: Client, G: Gate + Sync>(
    rt: &T,
    alloc: Global,
    databases: Vec<Database<S>>,
    client: &mut C,
    gate: &G,
) -> Result<Audit<S>, FreeFault>
    requires some { 1 ≤ vec_len databases }
    requires few { vec_len databases ≤ MAX_DATABASES }

    // The client may be read at any time: a phase is read before its lines are answered.
    requires always { (c : C) → C.may_read c }

    // The history of each database is one legal run of the machine, from the state that was handed
    // in to the state that is handed back. This holds as long as the disk returned what was
    // written.
    ensures legal { IfOk result (λ audit. AreHistories S.Store databases.items audit.parts.items audit.closed.items) }

    // The output is what the script's lines write according to the histories. All of the script was
    // read.
    ensures output { IfOk result (λ audit. IfSome (C.remaining client.old) (λ script.
        ServesFree script (histories audit.parts.items audit.closed.items) (C.sent client.old)
        (C.sent client.new))) }
    ensures end { OnOk result (IfSome (C.remaining client.old) (λ script. IsAtEnd (C.remaining client.new))) }

    // The fault says that a transaction is open exactly if one is.
    ensures open { IsErrOf result FreeFault.Open ↔ (any_open databases.items ≡ true) }
{
    let stage = share(alloc, databases)?;
    let audit = serve_stage(rt, alloc, stage, client, gate, &mut Nobody)?;
    Ok(audit)
}

/// As [`serve_free`], with an audience. The audience gets a watcher of each database before the
/// first phase. It watches while the sessions of a phase are served, and not while lines are read
/// or replies are written. Watchers read totals of what was served so far, and never wait
/// ([`Watcher::read`]). A statement may wait for a watcher that is reading.
///
/// # Errors
///
/// Fails as [`serve_free`] does; also fails with [`FreeFault::Memory`] if a watcher has no place to
/// read at. If the databases can't be shared, the audience doesn't begin to watch.
pub fn serve_free_watched<
    S: Alter + Drop + Send,
    T: Threads + Wait + Sync,
    C: Client,
    G: Gate + Sync,
    A: Audience<Watcher<S>>,
>(
    rt: &T,
    alloc: Global,
    databases: Vec<Database<S>>,
    client: &mut C,
    gate: &G,
    audience: &mut A,
) -> Result<Audit<S>, FreeFault>
    requires some { 1 ≤ vec_len databases }
    requires few { vec_len databases ≤ MAX_DATABASES }
    requires always { (c : C) → C.may_read c }
    ensures legal { IfOk result (λ audit. AreHistories S.Store databases.items audit.parts.items audit.closed.items) }
    ensures output { IfOk result (λ audit. IfSome (C.remaining client.old) (λ script.
        ServesFree script (histories audit.parts.items audit.closed.items) (C.sent client.old)
        (C.sent client.new))) }
    ensures end { OnOk result (IfSome (C.remaining client.old) (λ script. IsAtEnd (C.remaining client.new))) }
    ensures open { IsErrOf result FreeFault.Open ↔ (any_open databases.items ≡ true) }
{
    let stage = share_watched(rt, alloc, databases)?;
    let audit = serve_stage(rt, alloc, stage, client, gate, audience)?;
    Ok(audit)
}

/// Serves a script with databases that are shared, and their passes, before an audience.
fn serve_stage<
    S: Alter + Drop + Send,
    L: UnderLock<S> + Drop + Send,
    T: Threads + Wait + Sync,
    C: Client,
    G: Gate + Sync,
    A: Audience<Watcher<S>>,
>(
    rt: &T,
    alloc: Global,
    stage: Stage<S, L>,
    client: &mut C,
    gate: &G,
    audience: &mut A,
) -> Result<Audit<S>, FreeFault>
    requires few { length stage.shared.openings ≤ MAX_DATABASES }
    requires sessions { stage.shared.sessions ≡ MAX_SHARED }
    requires always { (c : C) → C.may_read c }
    requires passes { stage.passes.items ≡ new_passes (length stage.shared.openings) MAX_SHARED }

    // This holds for whichever databases were read when the sharing began.
    ensures legal { IfOk result
        (λ audit. (databases : List (Database S)) → AreRead S.Store databases (map database_at stage.shared.openings)
        → AreHistories S.Store databases audit.parts.items audit.closed.items) }
    ensures output { IfOk result (λ audit. IfSome (C.remaining client.old) (λ script.
        ServesFree script (histories audit.parts.items audit.closed.items) (C.sent client.old)
        (C.sent client.new))) }
    ensures end { OnOk result (IfSome (C.remaining client.old) (λ script. IsAtEnd (C.remaining client.new))) }
    ensures shared { IfErr result (λ fault. fault ≢ FreeFault.Open) }
{
    let Stage {
        shared,
        passes,
        watchers,
    } = stage;
    let outboxes = outboxes_of(alloc, passes)?;
    audience.watch(alloc, watchers);
    let workers = Workers { rt, gate };
    let served = serve_phases(&workers, alloc, &shared, outboxes, client, audience)?;
    let passes = passes_of(alloc, served.outboxes)?;
    let audit = close(shared, passes, served.parts)?;
    Ok(audit)
}

/// What remains after all phases are served.
#[derive(Drop)]
struct Served<S: Alter> {
    outboxes: Vec<Outbox>,
    // The parts of histories that were handed out.
    parts: Vec<Part<S>>,
}

/// Serves all phases of a script, before an audience. May wait.
fn serve_phases<
    S: Alter + Drop + Send,
    L: UnderLock<S> + Send,
    T: Threads + Wait + Sync,
    C: Client,
    G: Gate + Sync,
    A: Audience<Watcher<S>>,
>(
    workers: &Workers<T, G>,
    alloc: Global,
    shared: &Shared<S, L>,
    mut outboxes: Vec<Outbox>,
    client: &mut C,
    audience: &mut A,
) -> Result<Served<S>, FreeFault>
    requires few { length shared.now.openings ≤ MAX_DATABASES }
    requires seats { HavePasses shared.now outboxes.items }
    requires fits { Fits [] [] outboxes.items }
    requires always { (c : C) → C.may_read c }
    ensures served { IfOk result (λ s. IfSome (C.remaining client.old) (λ script.
        IsServed (length shared.now.openings) script s.outboxes.items (C.sent client.old) (C.sent client.new))) }
    ensures end { OnOk result (IfSome (C.remaining client.old) (λ script. IsAtEnd (C.remaining client.new))) }
    ensures shared { IfErr result (λ fault. fault ≢ FreeFault.Open) }
{
    let databases = shared.databases();
    let mut totals = new_totals(alloc, outboxes.len())?;
    let mut script = Script::new(alloc)?;
    let mut drains = Drains::new(alloc, databases)?;
    'phases: loop {
        let Phase { plan, has_more } = read_phase(alloc, databases, &mut script, client)?;
        let Plan { lines, items } = plan;
        let had_statements = !items.is_empty();
        outboxes = run_phase(workers, alloc, shared, outboxes, items, audience)?;
        print_phase(alloc, &mut outboxes, &mut totals, lines, client)?;
        drains.drain_long(
            workers.rt,
            alloc,
            shared,
            outboxes.as_slice(),
            had_statements,
        );
        if !has_more {
            let parts = drains.parts;
            return Ok(Served { outboxes, parts });
        }
    }
}

/// Returns the totals of this many sessions, to which nothing was printed yet. Fails only if memory
/// is refused.
fn new_totals(alloc: Global, sessions: usize) -> Result<Vec<Tally>, AllocError>
    ensures { IfOk result (λ totals. totals.items ≡ replicate sessions (tally_of [])) }
{
    vec![in alloc; Tally::new(); sessions]
}
