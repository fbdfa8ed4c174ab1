//! Sharing and closing: databases that can't be shared, honest closes by one thread and by eight,
//! and closes with parts that don't fit. These name the first cause, and return everything.
use self::Move::{Ask, Drain};
use super::databases::{
    ACCOUNT, COUNTER, HIT, SHOW, TAKE, check_reply, check_shown, database, databases,
};
use super::gates::{Meets, Watch};
use super::results::{made, push, refused};
use super::sharing::{ask, close_whole, drain, hall, share};
use escrow_memory::BlockStore;
use escrow_num::{Refusal, Session};
use escrow_shards::{Cause, Closed, NoGate, Pass, Shared, Unshared};
use std::process::Abort;
use std::sync::Wait;
use std::sync::atomic::Ordering;
use std::thread;

/// What opens a transaction of session 1, and its reply; then what ends it, and its reply.
const OPENED: [[&str; 4]; 2] = [
    [
        TAKE,
        "bank.1> OK reserved 1\n",
        "ROLLBACK",
        "bank.1> OK rolled back 1\n",
    ],
    [
        "SAVEPOINT A",
        "bank.1> OK savepoint A\n",
        "ROLLBACK",
        "bank.1> OK rolled back 0\n",
    ],
];

/// If one database has an open transaction, none is shared, and all are returned as they were.
/// Otherwise there is a pass for each session of each database.
#[test]
fn sharing_databases(rt: HostRuntime) {
    let mut databases = databases(&rt, 3, &ACCOUNT);
    for [open, opened, end, ended] in &OPENED {
        let second = databases.get_mut(1).expect(&rt, "the second database");
        check_reply(&rt, second, open, opened);
        let fault = refused(&rt, share(&rt, databases, 4), "open");
        assert!(rt; matches!(&fault.cause, Unshared::Refused(Refusal::TransactionOpen)));
        databases = fault.databases;
        let second = databases.get_mut(1).expect(&rt, "the second database");
        check_reply(&rt, second, end, ended);
    }
    let (shared, passes) = made(&rt, share(&rt, databases, 4), "shared");
    assert_eq!(rt; passes.len(), 12);
    assert_eq!(rt; close_whole(&rt, shared, passes).len(), 3);
}

/// The place of a pass, what its session asks, and the printed reply.
type Told = (usize, &'static str, &'static str);

/// What is asked in the first database before its part is handed out, and after that.
const TOLD: [Told; 4] = [
    (0, TAKE, "bank.1> OK reserved 1\n"),
    (1, TAKE, "bank.2> ERR 41 MINIMUM_BALANCE low 40 limit 50\n"),
    (0, "COMMIT", "bank.1> OK committed 1\n"),
    (
        1,
        SHOW,
        "bank.2> ID | BALANCE\nbank.2> 1 | 70\nbank.2> OK rows 1\n",
    ),
];

/// Two databases with two sessions each. The first has an account. What it served is in a part and
/// in a last transcript, and it is returned with what was committed. No part is handed out while
/// something is open.
#[test]
fn close_small(rt: HostRuntime) {
    let mut opened = databases(&rt, 1, &ACCOUNT);
    push(&rt, &mut opened, database(&rt, &[]));
    let (shared, mut passes) = made(&rt, share(&rt, opened, 2), "shared");
    let mut parts = Vec::new(rt.alloc());
    for (count, (place, text, wanted)) in TOLD.iter().enumerate() {
        match count {
            1 => {
                let refusal = refused(&rt, drain(&rt, &shared, 0), "open");
                assert!(rt; refusal == Refusal::TransactionOpen);
            }
            3 => push(&rt, &mut parts, made(&rt, drain(&rt, &shared, 0), "a part")),
            _ => {}
        }
        let pass = passes.get_mut(*place).expect(&rt, "a pass");
        let reply = ask(&rt, &shared, pass, text, &NoGate);
        check_shown(&rt, pass.session(), &reply, wanted);
    }
    let mut audit = made(&rt, shared.close(passes, parts), "an audit");
    let part = audit.parts.pop().expect(&rt, "the part");
    assert_eq!(rt;
        (part.database(), part.number(), part.entries().len()),
        (0, 1, 3)
    );
    let second = audit.closed.pop().expect(&rt, "the second database");
    assert_eq!(rt; second.entries().len(), 0);
    let first = audit.closed.pop().expect(&rt, "the first database");
    assert_eq!(rt; (first.base().before, first.entries().len()), (3, 1));
    let (mut database, _) = first.into_parts();
    let shown = "bank.1> ID | BALANCE\nbank.1> 1 | 70\nbank.1> OK rows 1\n";
    check_reply(&rt, &mut database, SHOW, shown);
}

/// How many threads share databases, how many databases there are, and how many sessions each has.
const THREADS: usize = 8;

const DATABASES: usize = 16;

const SESSIONS: usize = 64;

/// What each session asks in turn: one hit is committed, and another isn't.
const TURNS: [&str; 5] = [
    HIT,
    "COMMIT",
    HIT,
    "SELECT * FROM COUNTER WHERE ID = 1",
    "ROLLBACK",
];

/// How many entries and how many hits each database has then.
const ENTRIES: usize = 320;

const HITS: usize = 64;

/// Shares databases, each with a counter. The passes are in order of session, then of database. So
/// each of the eight threads among which they are divided has sessions of all databases.
fn crowd<R: Abort + AllocGlobal>(rt: &R) -> (Shared<BlockStore>, Vec<Pass>) {
    let (shared, passes) = hall(rt, DATABASES, 64, &COUNTER);
    let mut places = Vec::new(rt.alloc());
    for session in 0..SESSIONS {
        for database in 0..DATABASES {
            push(rt, &mut places, database * SESSIONS + session);
        }
    }
    (shared, pick(rt, passes, &places))
}

/// Asks all turns in the session of a pass.
fn ask_turns<R: Wait + Abort + AllocGlobal>(
    rt: &R,
    shared: &Shared<BlockStore>,
    watch: &Watch,
    pass: &mut Pass,
) {
    for text in TURNS {
        ask(rt, shared, pass, text, watch);
    }
}

/// Takes the items at some places out of a list, in the order of the places.
fn pick<R: Abort + AllocGlobal, T: Drop>(rt: &R, items: Vec<T>, places: &[usize]) -> Vec<T> {
    let mut slots = Vec::new(rt.alloc());
    for item in items {
        push(rt, &mut slots, Some(item));
    }
    let mut picked = Vec::new(rt.alloc());
    for place in places {
        let slot = slots.get_mut(*place).expect(rt, "a place");
        push(rt, &mut picked, slot.take().expect(rt, "an item"));
    }
    picked
}

/// Asserts that the counter of a database that came out of its lock shows this many hits.
pub fn check_hits<R: Abort + AllocGlobal>(rt: &R, closed: Closed<BlockStore>, hits: usize) {
    let (mut database, _) = closed.into_parts();
    let text = format!(in rt.alloc(); "bank.1> ID | HITS\nbank.1> 1 | {hits}\nbank.1> OK rows 1\n");
    let wanted = made(rt, text, "memory");
    check_reply(
        rt,
        &mut database,
        "SELECT * FROM COUNTER WHERE ID = 1",
        wanted.as_str(),
    );
}

/// Closes what was served. The receipts of all sessions are the entries of all databases, and no hit is lost.
fn check_honest<R: Abort + AllocGlobal>(rt: &R, shared: Shared<BlockStore>, passes: Vec<Pass>) {
    let closed = close_whole(rt, shared, passes);
    assert_eq!(rt; closed.len(), DATABASES);
    for closed in closed {
        assert_eq!(rt; closed.entries().len(), ENTRIES);
        check_hits(rt, closed, HITS);
    }
}

/// The close of everything is Ok, whether one thread serves all sessions, or eight do at the same
/// time.
#[test]
fn close_of_a_crowd(rt: HostRuntime) {
    let watch = Watch::new(Meets::Nowhere);
    let (shared, mut passes) = crowd(&rt);
    for pass in passes.iter_mut() {
        ask_turns(&rt, &shared, &watch, pass);
    }
    check_honest(&rt, shared, passes);
    let (shared, mut passes) = crowd(&rt);
    let serve = |_: usize, pass: &mut Pass| ask_turns(&rt, &shared, &watch, pass);
    thread::for_each_mut(&rt, &mut passes, THREADS, &serve);
    check_honest(&rt, shared, passes);
    assert_eq!(rt; watch.faults.load(Ordering::SeqCst), 0);
}

/// One move before a close. Two sharings are made in the same way, each of two databases with two
/// sessions. Databases 0 and 1 and passes 0 to 3 belong to the sharing that is closed. The others,
/// up to 3 and 7, belong to its twin.
#[derive(Clone, Copy)]
enum Move {
    /// The session of a pass asks a statement.
    Ask(usize, &'static str),
    /// The next part of a database is handed out.
    Drain(usize),
}

/// A close: what is done before it, the places of the passes and of the parts that are passed in,
/// and the cause that it finds. Parts are in the order in which they were handed out.
#[derive(Clone, Copy)]
struct Case {
    title: &'static str,
    moves: &'static [Move],
    passes: &'static [usize],
    parts: &'static [usize],
    cause: Option<Cause>,
}

/// The causes of the first database.
const PARTS: Option<Cause> = Some(Cause::Parts { database: 0 });

const RECEIPTS: Option<Cause> = Some(Cause::Receipts {
    database: 0,
    session: Session::FIRST,
});

/// Takes 20 out of the account.
const LESS: &str = "UPDATE ACCOUNT SET BALANCE = BALANCE - 20 WHERE ID = 1";

/// One COMMIT, after which a part is handed out, and one more entry.
const SMALL: &[Move] = &[
    Ask(0, TAKE),
    Ask(1, TAKE),
    Ask(0, "COMMIT"),
    Drain(0),
    Ask(1, SHOW),
];

/// The same, and session 1 asks as much of the twin, after another session has asked.
const OTHER_NUMBERS: &[Move] = &[
    Ask(0, TAKE),
    Ask(1, TAKE),
    Ask(0, "COMMIT"),
    Drain(0),
    Ask(1, SHOW),
    Ask(5, SHOW),
    Ask(4, TAKE),
    Ask(4, "COMMIT"),
];

/// The same, and a part of the twin with as many entries, which ends with another balance.
const OTHER_BALANCE: &[Move] = &[
    Ask(0, TAKE),
    Ask(1, TAKE),
    Ask(0, "COMMIT"),
    Drain(0),
    Ask(4, LESS),
    Ask(5, SHOW),
    Ask(4, "COMMIT"),
    Drain(2),
];

/// The same, but another session of the twin commits: as many entries, with the same balance and
/// next id after them.
const SAME_END: &[Move] = &[
    Ask(0, TAKE),
    Ask(1, TAKE),
    Ask(0, "COMMIT"),
    Drain(0),
    Ask(5, TAKE),
    Ask(4, TAKE),
    Ask(5, "COMMIT"),
    Drain(2),
];

/// Two parts of the first database and two of the second, of which the last has no entries.
const MANY: &[Move] = &[
    Ask(0, LESS),
    Ask(0, "COMMIT"),
    Drain(0),
    Ask(2, "COMMIT"),
    Drain(1),
    Ask(1, LESS),
    Ask(1, "COMMIT"),
    Drain(0),
    Drain(1),
    Ask(3, "ROLLBACK"),
];

/// More parts of the first database than any other case has.
const PARTS_ALONE: &[Move] = &[Drain(0); 24];

/// The closes. The first of two causes is found: passes, then parts, then receipts.
const CASES: [Case; 14] = [
    Case {
        title: "24 parts",
        moves: PARTS_ALONE,
        passes: &[0, 1, 2, 3],
        parts: &[
            0, 1, 2, 3, 4, 5, 6, 7, 8, 9, 10, 11, 12, 13, 14, 15, 16, 17, 18, 19, 20, 21, 22, 23,
        ],
        cause: None,
    },
    Case {
        title: "all of them, in another order",
        moves: SMALL,
        passes: &[3, 1, 2, 0],
        parts: &[0],
        cause: None,
    },
    Case {
        title: "parts of two databases in turn",
        moves: MANY,
        passes: &[0, 1, 2, 3],
        parts: &[1, 0, 2, 3],
        cause: None,
    },
    Case {
        title: "a seat twice, and another missing",
        moves: SMALL,
        passes: &[0, 1, 2, 6],
        parts: &[0],
        cause: Some(Cause::Passes),
    },
    Case {
        title: "a seat twice, and none missing",
        moves: SMALL,
        passes: &[0, 1, 2, 3, 4],
        parts: &[0],
        cause: Some(Cause::Passes),
    },
    Case {
        title: "a pass missing, a part missing, and a receipt wrong",
        moves: OTHER_NUMBERS,
        passes: &[4, 1, 2],
        parts: &[],
        cause: Some(Cause::Passes),
    },
    Case {
        title: "a part missing, and a receipt wrong",
        moves: OTHER_NUMBERS,
        passes: &[4, 1, 2, 3],
        parts: &[],
        cause: PARTS,
    },
    Case {
        title: "two parts of the first database in the wrong order",
        moves: MANY,
        passes: &[0, 1, 2, 3],
        parts: &[2, 1, 0, 3],
        cause: PARTS,
    },
    Case {
        title: "the last part of the second database missing",
        moves: MANY,
        passes: &[0, 1, 2, 3],
        parts: &[0, 1, 2],
        cause: Some(Cause::Parts { database: 1 }),
    },
    Case {
        title: "the twin's part before its double",
        moves: SAME_END,
        passes: &[0, 1, 2, 3],
        parts: &[1, 0],
        cause: PARTS,
    },
    Case {
        title: "a part that ends with another balance",
        moves: OTHER_BALANCE,
        passes: &[0, 1, 2, 3],
        parts: &[1],
        cause: PARTS,
    },
    Case {
        title: "a part that ends the same",
        moves: SAME_END,
        passes: &[0, 1, 2, 3],
        parts: &[1],
        cause: RECEIPTS,
    },
    Case {
        title: "receipts of other numbers",
        moves: OTHER_NUMBERS,
        passes: &[4, 1, 2, 3],
        parts: &[0],
        cause: RECEIPTS,
    },
    Case {
        title: "a receipt of a database without entries",
        moves: &[Ask(6, "COMMIT")],
        passes: &[0, 1, 6, 3],
        parts: &[],
        cause: Some(Cause::Receipts {
            database: 1,
            session: Session::FIRST,
        }),
    },
];

/// Returns how many statements are asked in a database of the sharing that is closed.
fn asked_in(moves: &[Move], database: usize) -> u64 {
    let mut asked = 0u64;
    for step in moves {
        if let Ask(place, _) = step {
            if *place < 4 && *place / 2 == database {
                asked = asked.saturating_add(1);
            }
        }
    }
    asked
}

/// Makes the moves of a case and closes. The cause is that of the case, and everything is returned,
/// each database in its place.
fn check_close<R: Wait + Abort + AllocGlobal>(rt: &R, case: &Case) {
    let (shared, mut passes) = hall(rt, 2, 2, &ACCOUNT);
    let (twin, mut more) = hall(rt, 2, 2, &ACCOUNT);
    made(rt, passes.append(&mut more), "memory");
    let mut parts = Vec::new(rt.alloc());
    for step in case.moves {
        match step {
            Ask(place, text) => {
                let pass = passes.get_mut(*place).expect(rt, "a pass");
                let asked = if *place < 4 { &shared } else { &twin };
                ask(rt, asked, pass, text, &NoGate);
            }
            Drain(place) => {
                let asked = if *place < 2 { &shared } else { &twin };
                push(
                    rt,
                    &mut parts,
                    made(rt, drain(rt, asked, *place % 2), "a part"),
                );
            }
        }
    }
    let passes = pick(rt, passes, case.passes);
    let parts = pick(rt, parts, case.parts);
    let (cause, closed, back) = match shared.close(passes, parts) {
        Ok(audit) => (None, audit.closed, (case.passes.len(), audit.parts.len())),
        Err(mismatch) => (
            Some(mismatch.cause),
            mismatch.closed,
            (mismatch.passes.len(), mismatch.parts.len()),
        ),
    };
    assert_eq!(rt; cause, case.cause, "{}", case.title);
    assert_eq!(rt;
        back,
        (case.passes.len(), case.parts.len()),
        "{}",
        case.title
    );
    assert_eq!(rt; closed.len(), 2, "{}", case.title);
    for (database, closed) in closed.iter().enumerate() {
        let served = closed
            .base()
            .before
            .saturating_add(closed.entries().len() as u64);
        assert_eq!(rt; served, asked_in(case.moves, database), "{}", case.title);
    }
}

/// Closes with parts that fit and with parts that don't.
#[test]
fn close_causes(rt: HostRuntime) {
    for case in &CASES {
        check_close(&rt, case);
    }
}

/// A pass without the receipt of the last transcript.
#[test]
fn close_by_last(rt: HostRuntime) {
    let case = Case {
        title: "no receipt of the last transcript",
        moves: SMALL,
        passes: &[0, 5, 2, 3],
        parts: &[0],
        cause: Some(Cause::Receipts {
            database: 0,
            session: Session::new(2).expect(&rt, "a session"),
        }),
    };
    check_close(&rt, &case);
}
