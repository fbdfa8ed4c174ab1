//! Ends of transactions that one call decides, and a restart, through calls of a database that no
//! script makes.
use super::free::databases;
use escrow_core::{Database, Event, Failure, Reply, Settled, Stop};
use escrow_memory::BlockStore;
use escrow_num::{End, Refusal, Session};
use escrow_reply::render_lines;
use escrow_sql::{Request, parse};
use std::process::Abort;

/// A session's number, its statement, and the lines of the reply.
type Served = (u16, &'static str, &'static str);

/// Three sessions each hold a reservation of an account with a balance of 100.
const THREE_OPEN: [Served; 5] = [
    (
        1,
        "CREATE TABLE ACCOUNT (ID NUMBER PRIMARY KEY, BALANCE NUMBER RESERVABLE CONSTRAINT MINIMUM_BALANCE CHECK (BALANCE >= 50))",
        "OK created ACCOUNT\n",
    ),
    (1, "INSERT INTO ACCOUNT VALUES (1, 100)", "OK inserted\n"),
    (
        1,
        "UPDATE ACCOUNT SET BALANCE = BALANCE - 30 WHERE ID = 1",
        "OK reserved 1\n",
    ),
    (
        2,
        "UPDATE ACCOUNT SET BALANCE = BALANCE + 7 WHERE ID = 1",
        "OK reserved 2\n",
    ),
    (
        3,
        "UPDATE ACCOUNT SET BALANCE = BALANCE - 20 WHERE ID = 1",
        "OK reserved 3\n",
    ),
];

/// The rows after the second session's COMMIT, and after the third session's too.
const ONE_APPLIED: [Served; 1] = [(
    9,
    "SELECT * FROM ACCOUNT",
    "ID | BALANCE\n1 | 107\nOK rows 1\n",
)];

const TWO_APPLIED: [Served; 1] = [(
    9,
    "SELECT * FROM ACCOUNT",
    "ID | BALANCE\n1 | 87\nOK rows 1\n",
)];

/// What is open when a plan stops.
const LEFT: [Served; 1] = [(
    9,
    "SHOW JOURNAL",
    "2 session 2 ACCOUNT 1 BALANCE +7\nOK reservations 1\n",
)];

/// A reservation made after some were settled, and what is open then and after a restart.
const TAKEN: [Served; 1] = [(
    1,
    "UPDATE ACCOUNT SET BALANCE = BALANCE - 30 WHERE ID = 1",
    "OK reserved 3\n",
)];

const TAKEN_LEFT: [Served; 1] = [(
    9,
    "SHOW JOURNAL",
    "3 session 1 ACCOUNT 1 BALANCE -30\nOK reservations 1\n",
)];

const NONE_LEFT: [Served; 1] = [(9, "SHOW JOURNAL", "OK reservations 0\n")];

/// COMMITs with other statements between them, after [`THREE_OPEN`], and their replies if the store
/// does what it is asked.
const DONE: [Served; 6] = [
    (1, "COMMIT", "OK committed 1\n"),
    (
        4,
        "UPDATE ACCOUNT SET BALANCE = BALANCE + 5 WHERE ID = 1",
        "OK reserved 4\n",
    ),
    (2, "COMMIT", "OK committed 1\n"),
    (5, "ROLLBACK", "OK rolled back 0\n"),
    (4, "COMMIT", "OK committed 1\n"),
    (3, "COMMIT", "OK committed 1\n"),
];

/// The replies to the same if the store refuses each COMMIT.
const REFUSED: [Served; 6] = [
    (1, "COMMIT", "ERR 60 store\n"),
    (
        4,
        "UPDATE ACCOUNT SET BALANCE = BALANCE + 5 WHERE ID = 1",
        "OK reserved 4\n",
    ),
    (2, "COMMIT", "ERR 60 store\n"),
    (5, "ROLLBACK", "OK rolled back 0\n"),
    (4, "COMMIT", "ERR 60 store\n"),
    (3, "COMMIT", "ERR 60 store\n"),
];

/// What is open after COMMITs that were refused. They can be asked again.
const ASKED_AGAIN: [Served; 5] = [
    (
        9,
        "SHOW JOURNAL",
        "1 session 1 ACCOUNT 1 BALANCE -30\n2 session 2 ACCOUNT 1 BALANCE +7\n3 session 3 ACCOUNT 1 BALANCE -20\n4 session 4 ACCOUNT 1 BALANCE +5\nOK reservations 4\n",
    ),
    (1, "COMMIT", "OK committed 1\n"),
    (2, "COMMIT", "OK committed 1\n"),
    (3, "COMMIT", "OK committed 1\n"),
    (4, "COMMIT", "OK committed 1\n"),
];

/// The rows after all COMMITs.
const ALL_APPLIED: [Served; 1] = [(
    9,
    "SELECT * FROM ACCOUNT",
    "ID | BALANCE\n1 | 62\nOK rows 1\n",
)];

const BACK: (u16, End) = (1, End::Rollback);

const SECOND: (u16, End) = (2, End::Commit);

const THIRD: (u16, End) = (3, End::Commit);

/// Plans of ends: three sessions in each order.
const ORDERS: [[(u16, End); 3]; 6] = [
    [BACK, SECOND, THIRD],
    [BACK, THIRD, SECOND],
    [SECOND, BACK, THIRD],
    [SECOND, THIRD, BACK],
    [THIRD, BACK, SECOND],
    [THIRD, SECOND, BACK],
];

/// Serves statements in one call.
fn replies_to<R: Abort + AllocGlobal>(
    rt: &R,
    database: &mut Database<BlockStore>,
    cases: &[Served],
) -> Vec<Reply> {
    let mut events = Vec::new(rt.alloc());
    for (number, text, _) in cases {
        let session = Session::new(*number).expect(rt, "a session");
        let Ok(Request::Statement(statement)) = parse(rt.alloc(), *text) else {
            rt.panic("a statement")
        };
        let event = Event::Statement { session, statement };
        if events.push(event).is_err() {
            rt.panic("memory");
        }
    }
    let Ok(replies) = database.run(rt.alloc(), events.as_slice()) else {
        rt.panic("memory")
    };
    assert_eq!(rt; replies.len(), cases.len());
    replies
}

/// Compares replies to statements with the expected ones.
fn compare<R: Abort + AllocGlobal>(rt: &R, replies: &[Reply], cases: &[Served]) {
    for (reply, (_, text, wanted)) in replies.iter().zip(cases) {
        let lines = render_lines(rt.alloc(), "", reply).expect(rt, "memory");
        assert_eq!(rt; lines.as_slice(), wanted.as_bytes(), "{text}");
    }
}

/// Serves statements in one call, and compares their replies.
fn serve<R: Abort + AllocGlobal>(rt: &R, database: &mut Database<BlockStore>, cases: &[Served]) {
    let replies = replies_to(rt, database, cases);
    compare(rt, &replies, cases);
}

/// Settles a plan, with a limit on the store's steps for each end.
fn settle<R: Abort + AllocGlobal>(
    rt: &R,
    database: &mut Database<BlockStore>,
    plan: &[(u16, End)],
    limit: Option<u64>,
) -> Result<Settled, Stop> {
    let mut ends = Vec::new(rt.alloc());
    for (number, end) in plan {
        let session = Session::new(*number).expect(rt, "a session");
        if ends.push((session, *end)).is_err() {
            rt.panic("memory");
        }
    }
    database.set_step_limit(limit);
    let settled = database.settle(rt.alloc(), ends.as_slice());
    database.set_step_limit(None);
    settled
}

/// Plans of ends do what they say, in each order of their sessions.
#[test]
fn settle_orders(rt: HostRuntime) {
    for plan in ORDERS {
        for database in &mut databases(&rt, 1) {
            serve(&rt, database, &THREE_OPEN);
            let settled = settle(&rt, database, &plan, None);
            let counts = Settled {
                committed: 2,
                released: 1,
            };
            assert!(rt; settled == Ok(counts));
            assert!(rt; !database.has_open());
            serve(&rt, database, &TWO_APPLIED);
        }
    }
}

/// A plan stops at the COMMIT that takes more steps of the store than it may, and what comes before
/// is done. With enough steps it is settled. A restart that the store refuses changes nothing, and
/// one that it accepts drops everything that is open.
#[test]
fn settle_stops(rt: HostRuntime) {
    for database in &mut databases(&rt, 1) {
        serve(&rt, database, &THREE_OPEN[..4]);
        let mut stops = 0u64;
        for limit in 1..1000u64 {
            match settle(&rt, database, &[BACK, SECOND], Some(limit)) {
                Ok(settled) => {
                    assert_eq!(rt; settled.committed, 1);
                    assert_eq!(rt; settled.released, 0);
                    break;
                }
                Err(stop) => {
                    assert_eq!(rt; stop.place, 1);
                    assert!(rt; stop.cause == Failure::Store);
                    serve(&rt, database, &LEFT);
                    stops = limit;
                }
            }
        }
        assert!(rt; 0 < stops && stops < 999);
        serve(&rt, database, &ONE_APPLIED);
        serve(&rt, database, &TAKEN);
        database.set_step_limit(Some(1));
        assert!(rt; matches!(database.restart(rt.alloc()), Err(Refusal::Store)));
        database.set_step_limit(None);
        serve(&rt, database, &TAKEN_LEFT);
        assert!(rt; database.restart(rt.alloc()).is_ok());
        assert_eq!(rt; database.next_id(), Some(1));
        serve(&rt, database, &NONE_LEFT);
    }
}

/// One call gets four COMMITs with other statements between them. If each statement may take few
/// steps of the store, all four are refused, and the others are served as usual. With enough steps
/// all four are done. COMMITs that were refused have changed nothing, and can be asked again.
#[test]
fn commits_stop(rt: HostRuntime) {
    let mut stops = 0u64;
    for limit in 1..1000u64 {
        for database in &mut databases(&rt, 1) {
            serve(&rt, database, &THREE_OPEN);
            database.set_step_limit(Some(limit));
            let replies = replies_to(&rt, database, &DONE);
            database.set_step_limit(None);
            if matches!(replies.first(), Some(Reply::Refused(_))) {
                compare(&rt, &replies, &REFUSED);
                serve(&rt, database, &ASKED_AGAIN);
                stops = limit;
            } else {
                compare(&rt, &replies, &DONE);
            }
            serve(&rt, database, &ALL_APPLIED);
        }
        if stops < limit {
            break;
        }
    }
    assert!(rt; 0 < stops && stops < 999);
}
