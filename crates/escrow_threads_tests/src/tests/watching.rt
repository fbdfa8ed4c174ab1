//! Databases that are watched: what their watchers read.
use super::databases::{ACCOUNT, COUNTER, CREATE, INSERT, TAKE, databases};
use super::gates::{Meets, Watch};
use super::results::{made, push, refused};
use super::sharing::{ask, drain};
use super::workers::{HITS, feeds_of};
use escrow_core::Database;
use escrow_memory::BlockStore;
use escrow_num::Session;
use escrow_sessions::{Done, Ended, run_sessions};
use escrow_shards::{MAX_DATABASES, MakeFault, NoGate, Pass, Shared, UnderLock, Unshared, Watched};
use escrow_stats::{MAX_WATCHERS, Tally, Watcher};
use std::process::Abort;
use std::sync::Wait;
use std::sync::atomic::Ordering;
use std::thread;
use std::thread::Threads;

/// Shared databases that are watched by the runtime of a test, a pass for each session, and the watchers.
type Watching<'a, R> = (
    Shared<BlockStore, Watched<BlockStore, &'a R>>,
    Vec<Pass>,
    Vec<Watcher<BlockStore>>,
);

/// Shares databases with some sessions and watchers of each.
fn watch<'a, R: Wait + Abort + AllocGlobal>(
    rt: &'a R,
    databases: Vec<Database<BlockStore>>,
    sessions: u16,
    watchers: usize,
) -> Result<Watching<'a, R>, MakeFault<BlockStore>> {
    let count = databases.len();
    assert!(rt; 0 < count && count <= MAX_DATABASES);
    assert!(rt; 0 < sessions && sessions <= Session::MAX_SHARED);
    Shared::make_watched(rt, rt.alloc(), databases, sessions, watchers)
}

/// The place of a pass, and what its session asks. The two sessions of the second database ask.
const ASKED: [(usize, &str); 4] = [(2, CREATE), (2, INSERT), (2, TAKE), (3, TAKE)];

/// How many parts of the history are handed out then.
const PARTS: usize = 24;

/// Two sessions of the second of two databases ask in turn, and a watcher of it sees each entry as
/// soon as it is answered. Both of its watchers read the same after parts were handed out, and
/// after the sharing has ended. Those of the first database see nothing.
#[test]
fn watcher_sees(rt: HostRuntime) {
    let watching = watch(&rt, databases(&rt, 2, &[]), 2, 2);
    let (shared, mut passes, mut watchers) = made(&rt, watching, "memory");
    let mut second = watchers.pop().expect(&rt, "the second watcher");
    let mut first = watchers.pop().expect(&rt, "the first watcher");
    let mut other = watchers
        .pop()
        .expect(&rt, "a watcher of the first database");
    assert_eq!(rt; first.read(), Tally::new());
    for (served, (place, text)) in ASKED.iter().enumerate() {
        let pass = passes.get_mut(*place).expect(&rt, "a pass");
        ask(&rt, &shared, pass, text, &NoGate);
        assert_eq!(rt; first.read().served, (served as u64).wrapping_add(1));
    }
    let asked = Tally {
        served: 4,
        granted: 1,
        broken: 1,
        writes: 1,
        ..Tally::new()
    };
    assert_eq!(rt; first.read(), asked);
    let pass = passes.get_mut(2).expect(&rt, "a pass");
    ask(&rt, &shared, pass, "ROLLBACK", &NoGate);
    let mut parts = Vec::new(rt.alloc());
    for _ in 0..PARTS {
        push(&rt, &mut parts, made(&rt, drain(&rt, &shared, 1), "a part"));
    }
    let all = Tally {
        served: 5,
        rollbacks: 1,
        ..asked
    };
    assert_eq!(rt; first.read(), all);
    assert_eq!(rt; second.read(), all);
    assert_eq!(rt; other.read(), Tally::new());
    let audit = made(&rt, shared.close(passes, parts), "an audit");
    assert_eq!(rt; audit.closed.len(), 2);
    assert_eq!(rt; second.read(), all);
}

/// The greatest number of watchers is made for each database. One more is refused, and the
/// databases are returned.
#[test]
fn watchers_are_few(rt: HostRuntime) {
    let many = watch(&rt, databases(&rt, 2, &ACCOUNT), 1, MAX_WATCHERS + 1);
    let fault = refused(&rt, many, "too many");
    assert!(rt; matches!(&fault.cause, Unshared::TooManyWatchers));
    let few = watch(&rt, fault.databases, 1, MAX_WATCHERS);
    let (shared, mut passes, mut watchers) = made(&rt, few, "memory");
    assert_eq!(rt; watchers.len(), MAX_WATCHERS + MAX_WATCHERS);
    let pass = passes
        .get_mut(1)
        .expect(&rt, "a pass of the second database");
    ask(&rt, &shared, pass, TAKE, &NoGate);
    for (place, watcher) in watchers.iter_mut().enumerate() {
        let granted = u64::from(place >= MAX_WATCHERS);
        assert_eq!(rt; watcher.read().granted, granted);
    }
}

/// Reads 20,000 times beside calls that a gate counts, each a hit or a COMMIT. Returns how often a
/// total fell, or wasn't that of what had been served. It must count all calls that came under the
/// lock before the read, except possibly the last, and none that came after.
fn falls(mut watcher: Watcher<BlockStore>, watch: &Watch) -> usize {
    let mut falls = 0usize;
    let mut last = watcher.read();
    for _ in 0..20_000 {
        let before = watch.calls.load(Ordering::SeqCst);
        let next = watcher.read();
        let after = watch.calls.load(Ordering::SeqCst);
        let is_served = next.served.saturating_add(1) >= before
            && next.served <= after
            && next.served == next.granted.saturating_add(next.commits);
        let rises = next.served >= last.served
            && next.granted >= last.granted
            && next.broken >= last.broken
            && next.refused >= last.refused
            && next.commits >= last.commits
            && next.rollbacks >= last.rollbacks
            && next.writes >= last.writes
            && next.queries >= last.queries;
        if !rises || !is_served {
            falls = falls.saturating_add(1);
        }
        last = next;
        thread::yield_now();
    }
    falls
}

/// Has eight workers hit a counter a hundred times each, with a gate.
fn hit<R: Threads + Wait + Sync + Abort + AllocGlobal, L: UnderLock<BlockStore> + Send>(
    rt: &R,
    shared: &Shared<BlockStore, L>,
    passes: Vec<Pass>,
    gate: &Watch,
) -> Vec<Done> {
    let feeds = feeds_of(rt, shared, passes, HITS);
    match run_sessions(rt, rt.alloc(), shared, feeds, gate) {
        Ok(done) => done,
        Err(_) => rt.panic("memory"),
    }
}

/// While eight workers hit one counter, a watcher on another thread reads. No total ever falls, and
/// each reading is that of what had been served. At the end it is that of all, and so it is after
/// many more calls.
#[test]
fn watcher_rises(rt: HostRuntime) {
    let watching = watch(&rt, databases(&rt, 1, &COUNTER), 8, 2);
    let (shared, passes, mut watchers) = made(&rt, watching, "memory");
    let mut second = watchers.pop().expect(&rt, "the second watcher");
    let first = watchers.pop().expect(&rt, "the first watcher");
    let gate = Watch::new(Meets::Nowhere);
    let serve = || hit(&rt, &shared, passes, &gate);
    let (mut done, falls) = thread::join(&rt, serve, || falls(first, &gate));
    assert_eq!(rt; falls, 0);
    let seen = second.read();
    assert_eq!(rt;
        (seen.served, seen.granted, seen.commits),
        (1_600, 800, 800)
    );
    for worker in done.iter_mut() {
        assert_eq!(rt; worker.ended, Ended::All);
        for _ in 0..2_000 {
            ask(&rt, &shared, &mut worker.pass, "COMMIT", &NoGate);
        }
    }
    assert_eq!(rt; second.read().served, 17_600);
}
