//! Scripts whose sessions run at the same time, with their histories and with a gate.
use super::runs::{BY_PHASES, THREE, THREE_REPLIES, due};
use super::streams::{Sink, Source};
use escrow_core::Database;
use escrow_memory::BlockStore;
use escrow_num::Session;
use escrow_recover::open_store;
use escrow_server::{Duplex, FreeFault, serve_free};
use escrow_shards::{Audit, Gate, NoGate};
use escrow_sql::{Request, parse};
use escrow_transcript::Entry;
use std::cell::Cell;
use std::io::{Read, Write};
use std::process::Abort;
use std::sync::Wait;
use std::sync::atomic::{AtomicU64, Ordering};
use std::thread::{self, Threads};

/// Returns this many databases without tables, over stores in memory.
pub(super) fn databases<R: Abort + AllocGlobal>(rt: &R, count: usize) -> Vec<Database<BlockStore>> {
    let mut databases = Vec::new(rt.alloc());
    for _ in 0..count {
        let Ok(connection) = escrow_memory::open(rt.alloc()) else {
            rt.panic("memory")
        };
        let Ok(opened) = open_store(rt.alloc(), connection) else {
            rt.panic("a store")
        };
        let Ok(database) = Database::open(rt.alloc(), opened) else {
            rt.panic("a database")
        };
        if databases.push(database).is_err() {
            rt.panic("memory");
        }
    }
    databases
}

/// Serves a client in databases, with a gate. May wait.
fn serve_in<R: Abort + AllocGlobal + Threads + Wait + Sync, I: Read, W: Write, G: Gate + Sync>(
    rt: &R,
    databases: Vec<Database<BlockStore>>,
    client: &mut Duplex<I, W>,
    gate: &G,
) -> Result<Audit<BlockStore>, FreeFault> {
    assert!(rt; !databases.is_empty() && databases.len() <= 16);
    serve_free(rt, rt.alloc(), databases, client, gate)
}

/// Returns a client that sends a script.
fn client<'a, R: AllocGlobal>(rt: &R, script: &'a str) -> Duplex<&'a [u8], Vec<u8>> {
    Duplex {
        reader: script.as_bytes(),
        writer: Vec::new(rt.alloc()),
    }
}

/// How often a session looks whether the other one has come.
const TURNS: u64 = 10_000_000;

/// The first calls of two sessions meet: before they are made, or while they hold their locks. One
/// is session 1 of the first database, and the other one is given.
#[derive(Drop)]
struct Meeting {
    is_inside: bool,
    other: (usize, u16),
    has_first: AtomicU64,
    has_other: AtomicU64,
    missed: AtomicU64,
}

impl Meeting {
    /// A session arrives, and waits for the other one.
    fn come(&self, database: usize, session: Session, n: u64) {
        let place = (database, session.get());
        let is_first = place == (0, 1);
        if n != 1 || !(is_first || place == self.other) {
            return;
        }
        let (own, other) = if is_first {
            (&self.has_first, &self.has_other)
        } else {
            (&self.has_other, &self.has_first)
        };
        own.store(1, Ordering::SeqCst);
        for _ in 0..TURNS {
            if other.load(Ordering::SeqCst) > 0 {
                return;
            }
            thread::yield_now();
        }
        self.missed.fetch_add(1, Ordering::SeqCst);
    }
}

impl Gate for Meeting {
    fn before<R: Wait>(&self, _: &R, database: usize, session: Session, n: u64) {
        if !self.is_inside {
            self.come(database, session, n);
        }
    }

    fn inside<R: Wait>(&self, _: &R, database: usize, session: Session, n: u64) {
        if self.is_inside {
            self.come(database, session, n);
        }
    }
}

/// Serves a script in which the first calls of session 1 of the first database and of another session meet.
fn meet<R: Abort + AllocGlobal + Threads + Wait + Sync>(
    rt: &R,
    is_inside: bool,
    other: (usize, u16),
    script: &str,
    replies: &str,
) {
    let gate = Meeting {
        is_inside,
        other,
        has_first: AtomicU64::new(0),
        has_other: AtomicU64::new(0),
        missed: AtomicU64::new(0),
    };
    let mut client = client(rt, script);
    let served = serve_in(rt, databases(rt, 2), &mut client, &gate);
    assert!(rt; served.is_ok());
    assert_eq!(rt; gate.missed.load(Ordering::SeqCst), 0);
    assert_eq!(rt; client.writer.as_slice(), replies.as_bytes());
}

/// The sessions of a database arrive at their first calls together.
#[test]
fn gate_before(rt: HostRuntime) {
    let script = "bank.1: COMMIT\nbank.2: COMMIT\n";
    let replies = "bank.1> OK committed 0\nbank.2> OK committed 0\n";
    meet(&rt, false, (0, 2), script, replies);
}

/// The sessions of two databases hold both locks together.
#[test]
fn gate_inside(rt: HostRuntime) {
    let script = "bank.1: COMMIT\nbank2.1: COMMIT\n";
    let replies = "bank.1> OK committed 0\nbank2.1> OK committed 0\n";
    meet(&rt, true, (1, 1), script, replies);
}

/// The replies to a phase are written before the lines of the next one are requested, and not
/// before the phase has come completely, however many bytes a read returns.
#[test]
fn phase_by_phase(rt: HostRuntime) {
    for at_a_time in [1, 3, 20, 33] {
        let written = Cell::new(0);
        let reader = Source {
            rest: THREE.as_bytes(),
            at_a_time,
            fails: false,
            given: 0,
            written: &written,
            reads: Vec::new(rt.alloc()),
        };
        let writer = Sink {
            taken: Vec::new(rt.alloc()),
            room: usize::MAX,
            at_a_time: usize::MAX,
            is_silent: false,
            calls: 0,
            written: &written,
        };
        let mut client = Duplex { reader, writer };
        let served = serve_in(&rt, databases(&rt, 1), &mut client, &NoGate);
        assert!(rt; served.is_ok());
        assert_eq!(rt; client.reader.given, THREE.len());
        for (given, stood) in client.reader.reads.as_slice() {
            assert_eq!(rt; *stood, due(BY_PHASES, *given), "behind {given} bytes");
        }
        assert_eq!(rt; client.writer.taken.as_slice(), THREE_REPLIES.as_bytes());
    }
}

/// How many sessions of a database ask statements, how many phases there are, and how many
/// statements each session asks in one.
const SESSIONS: u16 = 4;

const PHASES: u16 = 3;

const ASKED: u16 = 20;

/// The entries of a history are numbered from 1. All statements of each session are in it, in their
/// order, and those of a phase come after all of the phases before it.
fn check_history<R: Abort + AllocGlobal>(rt: &R, entries: &[Entry]) {
    let mut served = [0u16; SESSIONS as usize + 1];
    let mut number = 0u64;
    let mut phase = 0;
    for entry in entries {
        number = number.saturating_add(1);
        assert_eq!(rt; entry.number, number);
        let place = served
            .get_mut(usize::from(entry.session.get()))
            .expect(rt, "a session that asked");
        let text = format!(in rt.alloc(); "DELETE FROM T WHERE ID = {place}").expect(rt, "memory");
        let Ok(Request::Statement(asked)) = parse(rt.alloc(), text.as_str()) else {
            rt.panic("a statement")
        };
        assert!(rt; entry.statement.is_same(&asked), "{text}");
        assert!(rt; phase <= *place / ASKED, "{text}");
        phase = *place / ASKED;
        *place = place.saturating_add(1);
    }
    assert_eq!(rt; served, [0, 60, 60, 60, 60]);
}

/// Four sessions of each of two databases ask statements at the same time, in three phases.
#[test]
fn histories(rt: HostRuntime) {
    let mut script = String::new(rt.alloc());
    for place in 0..PHASES * ASKED {
        if place % ASKED == 0 {
            script.push_str("@join\n").expect(&rt, "memory");
        }
        for session in 1..=SESSIONS {
            write!(
                script,
                "bank.{session}: DELETE FROM T WHERE ID = {place}\nbank2.{session}: DELETE FROM T WHERE ID = {place}\n"
            )
            .expect(&rt, "memory");
        }
    }
    let mut client = client(&rt, script.as_str());
    let served = serve_in(&rt, databases(&rt, 2), &mut client, &NoGate);
    let Ok(audit) = served else {
        rt.panic("served")
    };
    assert_eq!(rt; audit.parts.len(), 0);
    assert_eq!(rt; audit.closed.len(), 2);
    for closed in &audit.closed {
        check_history(&rt, closed.entries());
    }
}

/// A line, how often it is asked, and the reply.
type Asked = (&'static str, u32, &'static str);

const COMMIT: &str = "bank.1: COMMIT\n";

const COMMIT_2: &str = "bank2.1: COMMIT\n";

const COMMITTED: &str = "bank.1> OK committed 0\n";

const COMMITTED_2: &str = "bank2.1> OK committed 0\n";

const JOIN: Asked = ("@join\n", 1, "");

/// A long script, and the parts that are handed out: for each, its database, its number, how many
/// entries it has, and the number of the first. Then, for each last transcript, how many entries it
/// has, and the number of the first.
struct Long {
    asked: &'static [Asked],
    parts: &'static [(usize, u64, usize, u64)],
    last: &'static [(usize, u64)],
}

/// A full transcript refuses what follows, up to the end of the phase. Then it is handed out, and the next phase is
/// served.
const FULL: &Long = &Long {
    asked: &[
        (COMMIT, 65_536, COMMITTED),
        (COMMIT, 4_464, "bank.1> ERR 52 transcript full\n"),
        JOIN,
        (COMMIT, 1, COMMITTED),
    ],
    parts: &[(0, 1, 65_536, 1)],
    last: &[(1, 65_537)],
};

/// A database hands out what it served after each phase that leaves 32,768 entries or more, unless
/// a transaction is open. So it serves more than 65,536 statements. A transaction of `bank` is open
/// across the end of the second phase, which leaves `bank2` one entry short of a part.
const DRAINED: &Long = &Long {
    asked: &[
        (COMMIT, 33_000, COMMITTED),
        (COMMIT_2, 32_768, COMMITTED_2),
        JOIN,
        ("bank.2: SAVEPOINT A\n", 1, "bank.2> OK savepoint A\n"),
        (COMMIT, 33_000, COMMITTED),
        (COMMIT_2, 32_767, COMMITTED_2),
        JOIN,
        ("bank.2: ROLLBACK\n", 1, "bank.2> OK rolled back 0\n"),
        (COMMIT_2, 1, COMMITTED_2),
        JOIN,
        (COMMIT, 1, COMMITTED),
        (COMMIT_2, 2, COMMITTED_2),
        JOIN,
    ],
    parts: &[
        (0, 1, 33_000, 1),
        (1, 1, 32_768, 1),
        (0, 2, 33_002, 33_001),
        (1, 2, 32_768, 32_769),
    ],
    last: &[(1, 66_003), (2, 65_537)],
};

/// There are this many entries, numbered from a first one on.
fn check_entries<R: Abort>(rt: &R, entries: &[Entry], count: usize, first: u64) {
    assert_eq!(rt; entries.len(), count);
    let numbers = entries.iter().map(|entry| entry.number);
    assert!(rt; numbers.eq(first..first.saturating_add(count as u64)));
}

/// Serves a long script. May wait.
fn check_long<R: Abort + AllocGlobal + Threads + Wait + Sync>(rt: &R, long: &Long) {
    let mut script = String::new(rt.alloc());
    let mut wanted = String::new(rt.alloc());
    for (line, times, reply) in long.asked {
        for _ in 0..*times {
            script.push_str(*line).expect(rt, "memory");
            wanted.push_str(*reply).expect(rt, "memory");
        }
    }
    let databases = databases(rt, long.last.len());
    let mut client = client(rt, script.as_str());
    let Ok(audit) = serve_in(rt, databases, &mut client, &NoGate) else {
        rt.panic("served")
    };
    assert!(rt; client.writer.as_slice() == wanted.as_bytes());
    assert_eq!(rt; audit.parts.len(), long.parts.len());
    for (part, (database, number, entries, first)) in audit.parts.iter().zip(long.parts) {
        assert_eq!(rt; part.database(), *database);
        assert_eq!(rt; part.number(), *number);
        check_entries(rt, part.entries(), *entries, *first);
    }
    assert_eq!(rt; audit.closed.len(), long.last.len());
    for (closed, (entries, first)) in audit.closed.iter().zip(long.last) {
        check_entries(rt, closed.entries(), *entries, *first);
    }
}

#[test]
fn long_free(rt: HostRuntime) {
    for long in [FULL, DRAINED] {
        check_long(&rt, long);
    }
}

/// Returns the fault of a script of one line over two databases, if there is one. The second has
/// served statements of its first session, and its store has a limit on the steps for a statement.
/// If there is a fault, nothing was read or written. May wait.
fn fault_of<R: Abort + AllocGlobal + Threads + Wait + Sync>(
    rt: &R,
    texts: &[&str],
    limit: Option<u64>,
) -> Option<FreeFault> {
    let mut databases = databases(rt, 2);
    if let Some(database) = databases.get_mut(1) {
        for text in texts {
            let Ok(Request::Statement(statement)) = parse(rt.alloc(), *text) else {
                rt.panic("a statement")
            };
            let _ = database.step(rt.alloc(), Session::FIRST, &statement);
        }
        database.set_step_limit(limit);
    }
    let mut client = client(rt, "bank.1: COMMIT");
    let fault = serve_in(rt, databases, &mut client, &NoGate).err();
    let (left, replies) = match fault {
        Some(_) => (14, ""),
        None => (0, "bank.1> OK committed 0\n"),
    };
    assert_eq!(rt; client.reader.len(), left);
    assert_eq!(rt; client.writer.as_slice(), replies.as_bytes());
    fault
}

/// A table with a row.
const ROW: [&str; 2] = [
    "CREATE TABLE T (ID INTEGER PRIMARY KEY, N INTEGER RESERVABLE)",
    "INSERT INTO T VALUES (1, 5)",
];

/// Nothing may be open in a database that is passed in, and its store may not fail when it is read
/// at the beginning, whichever step is one too many.
#[test]
fn handed_in(rt: HostRuntime) {
    let fault = fault_of(&rt, &["SAVEPOINT A"], None);
    assert!(rt; matches!(fault, Some(FreeFault::Open)));
    for limit in 1..1000u64 {
        match fault_of(&rt, &ROW, Some(limit)) {
            Some(fault) => assert!(rt; matches!(fault, FreeFault::Store)),
            None => {
                assert!(rt; limit > 1);
                return;
            }
        }
    }
    panic!(rt; "never served")
}
