//! Gates, which run beside a call: how often they are called, what they are told, and calls that
//! wait for each other.
use super::databases::{COUNTER, CREATE, INSERT, databases, statement};
use super::results::made;
use super::sharing::{close_whole, hall, share};
use super::workers::{BOTH, By, COMMIT, Work, end, serve_all};
use escrow_num::{Refusal, Session};
use escrow_shards::{Answer, Gate};
use std::process::Abort;
use std::sync::Wait;
use std::sync::atomic::{AtomicU64, Ordering};
use std::thread;
use std::thread::Threads;

/// How often a call looks whether another one has come.
const LOOKS: u64 = 10_000_000;

/// Where two calls wait for each other.
#[derive(Clone, Copy)]
pub enum Meets {
    /// They don't.
    Nowhere,
    /// Before each is made.
    Before,
    /// While each holds the lock of its database.
    Inside,
}

/// A gate that counts the calls that hold a lock, and remembers what the last one was told.
#[derive(Drop)]
pub struct Watch {
    meets: Meets,
    // how many calls came to where they meet
    came: AtomicU64,
    // how many calls it has seen, and how many under the lock of the first database
    pub calls: AtomicU64,
    first: AtomicU64,
    // how often a call waited in vain, or was not alone under the lock of the first database
    pub faults: AtomicU64,
    database: AtomicU64,
    session: AtomicU64,
    n: AtomicU64,
}

impl Gate for Watch {
    fn before<R: Wait>(&self, _: &R, _: usize, _: Session, _: u64) {
        if matches!(self.meets, Meets::Before) {
            self.meet();
        }
    }

    fn inside<R: Wait>(&self, _: &R, database: usize, session: Session, n: u64) {
        if matches!(self.meets, Meets::Inside) {
            self.meet();
        }
        self.calls.fetch_add(1, Ordering::SeqCst);
        self.database.store(database as u64, Ordering::SeqCst);
        self.session
            .store(u64::from(session.get()), Ordering::SeqCst);
        self.n.store(n, Ordering::SeqCst);
        if database == 0 {
            // Notices another call under the same lock.
            let before = self.first.fetch_add(1, Ordering::SeqCst);
            for _ in 0..20 {
                if self.first.load(Ordering::SeqCst) != before.wrapping_add(1) {
                    self.faults.fetch_add(1, Ordering::SeqCst);
                }
            }
        }
    }
}

impl Watch {
    /// Returns a gate that has seen no call.
    pub fn new(meets: Meets) -> Self {
        Watch {
            meets,
            came: AtomicU64::new(0),
            calls: AtomicU64::new(0),
            first: AtomicU64::new(0),
            faults: AtomicU64::new(0),
            database: AtomicU64::new(0),
            session: AtomicU64::new(0),
            n: AtomicU64::new(0),
        }
    }

    /// Arrives where two calls meet, and waits for the other one.
    fn meet(&self) {
        self.came.fetch_add(1, Ordering::SeqCst);
        self.wait_for(&self.came, 2);
    }

    /// Waits until this many have come.
    pub fn wait_for(&self, came: &AtomicU64, count: u64) {
        for _ in 0..LOOKS {
            if came.load(Ordering::SeqCst) >= count {
                return;
            }
            thread::yield_now();
        }
        self.faults.fetch_add(1, Ordering::SeqCst);
    }
}

/// The place of a pass, what its session asks, and whether it is served. The store looks at one row at most.
const ASKED: [(usize, &str, bool); 8] = [
    (0, CREATE, true),
    (0, INSERT, true),
    (3, "DROP TABLE NONE", true),
    (0, "SELECT * FROM ACCOUNT", false),
    (0, "COMMIT", true),
    (1, "SELECT * FROM ACCOUNT", false),
    (1, "COMMIT", true),
    (0, "ROLLBACK", true),
];

/// Each call calls the gate once, even if it isn't served, and tells it the number of the receipt
/// that it would make. Workers of two databases hold both locks at the same time.
#[test]
fn gate_inside(rt: HostRuntime) {
    let mut limited = databases(&rt, 2, &[]);
    for database in limited.iter_mut() {
        database.set_step_limit(Some(1));
    }
    let (shared, mut passes) = made(&rt, share(&rt, limited, 2), "shared");
    let watch = Watch::new(Meets::Nowhere);
    for (before, (place, text, is_served)) in ASKED.iter().enumerate() {
        let pass = passes.get_mut(*place).expect(&rt, "a pass");
        let receipts = pass.receipts().len();
        assert!(rt; shared.has_pass(pass));
        let answer = shared.call_gated(&rt, rt.alloc(), pass, &statement(&rt, text), &watch);
        let is_right = match &answer {
            Answer::Served(_) => *is_served,
            Answer::Unserved(refusal) => !*is_served && *refusal == Refusal::Store,
        };
        assert!(rt; is_right, "{text}: {answer:?}");
        let more = usize::from(*is_served);
        assert_eq!(rt;
            pass.receipts().len(),
            receipts.wrapping_add(more),
            "{text}"
        );
        assert_eq!(rt;
            watch.calls.load(Ordering::SeqCst),
            (before as u64).wrapping_add(1),
            "{text}"
        );
        let told = (
            watch.database.load(Ordering::SeqCst),
            watch.session.load(Ordering::SeqCst),
            watch.n.load(Ordering::SeqCst),
        );
        let wanted = (
            pass.database() as u64,
            u64::from(pass.session().get()),
            receipts as u64 + 1,
        );
        assert_eq!(rt; told, wanted, "{text}");
    }
    assert_eq!(rt; close_whole(&rt, shared, passes).len(), 2);
    meet(&rt, Meets::Inside, 2, 1);
}

/// Workers of two databases, or of two sessions of one, meet at their first calls.
fn meet<R: Threads + Wait + Sync + Abort + AllocGlobal>(
    rt: &R,
    meets: Meets,
    databases: usize,
    sessions: u16,
) {
    for by in BOTH {
        let (shared, passes) = hall(rt, databases, sessions, &COUNTER);
        let watch = Watch::new(meets);
        let done = serve_all(rt, by, &shared, passes, COMMIT, &watch);
        assert_eq!(rt; watch.faults.load(Ordering::SeqCst), 0, "{by:?}");
        assert_eq!(rt; watch.calls.load(Ordering::SeqCst), 2, "{by:?}");
        end(rt, by, shared, made(rt, done, "workers"), 1);
    }
}

/// The workers of a database arrive at their first calls together.
#[test]
fn gate_before(rt: HostRuntime) {
    meet(&rt, Meets::Before, 1, 2);
}

/// An item is sent before the next one is requested.
#[test]
fn fed_live(rt: HostRuntime) {
    let (shared, passes) = hall(&rt, 1, 1, &COUNTER);
    let watch = Watch::new(Meets::Nowhere);
    let work = Work {
        texts: &["COMMIT", "ROLLBACK"],
        times: 1,
        live: Some(&watch),
    };
    let done = serve_all(&rt, By::Channels, &shared, passes, work, &watch);
    assert_eq!(rt; watch.faults.load(Ordering::SeqCst), 0);
    end(&rt, By::Channels, shared, made(&rt, done, "a worker"), 2);
}
