//! Statements of each kind, and refusals of each number that a statement of a small script can
//! meet, while two sessions have reservations: by a history, and by shared databases. Each reply is
//! the one that ample memory gives. Or memory is refused and nothing has changed, so that the same
//! statement then gets this reply.
use super::databases::{CREATE, INSERT, check_shown, database};
use super::results::{made, push};
use super::{histories, sharing};
use escrow_num::Session;
use escrow_shards::NoGate;

/// A session, its statement, and the reply as printed.
type Asked = (u16, &'static str, &'static str);

/// A table with a plain column.
const SHOP: &str =
    "CREATE TABLE SHOP (CODE VARCHAR2(8) PRIMARY KEY, TITLE VARCHAR2(20), STOCK NUMBER(4) RESERVABLE CONSTRAINT IN_STOCK CHECK (STOCK >= 0))";

/// The statements, in order. Nothing is open after them.
const ASKED: [Asked; 49] = [
    (1, CREATE, "bank.1> OK created ACCOUNT\n"),
    (1, INSERT, "bank.1> OK inserted\n"),
    (
        1,
        "UPDATE ACCOUNT SET BALANCE = BALANCE - 30 WHERE ID = 1",
        "bank.1> OK reserved 1\n",
    ),
    (
        2,
        "UPDATE ACCOUNT SET BALANCE = BALANCE + 5 WHERE ID = 1",
        "bank.2> OK reserved 2\n",
    ),
    (4, SHOP, "bank.4> OK created SHOP\n"),
    (4, SHOP, "bank.4> ERR 20 table exists\n"),
    (
        4,
        "CREATE TABLE T (ID INTEGER PRIMARY KEY, N INTEGER RESERVABLE CHECK (N - N <= 5))",
        "bank.4> ERR 22 bad definition\n",
    ),
    (
        4,
        "INSERT INTO SHOP VALUES ('TEA', 'Green tea', 40)",
        "bank.4> OK inserted\n",
    ),
    (
        4,
        "INSERT INTO SHOP VALUES ('TEA', 'Green tea', 40)",
        "bank.4> ERR 30 row exists\n",
    ),
    (
        4,
        "INSERT INTO SHOP VALUES ('TEA', 'Green tea')",
        "bank.4> ERR 23 bad value\n",
    ),
    (
        4,
        "INSERT INTO ACCOUNT VALUES (2, 49)",
        "bank.4> ERR 41 MINIMUM_BALANCE low 49 limit 50\n",
    ),
    (
        4,
        "INSERT INTO ACCOUNT VALUES (2, 100)",
        "bank.4> OK inserted\n",
    ),
    (
        4,
        "UPDATE SHOP SET TITLE = 'Sencha' WHERE CODE = 'TEA'",
        "bank.4> OK updated\n",
    ),
    (
        4,
        "UPDATE SHOP SET TITLE = 'Sencha' WHERE CODE = 'CUP'",
        "bank.4> ERR 31 no such row\n",
    ),
    (
        1,
        "UPDATE SHOP SET TITLE = 'Matcha' WHERE CODE = 'TEA'",
        "bank.1> ERR 26 transaction open\n",
    ),
    (
        1,
        "UPDATE ACCOUNT SET BALANCE = BALANCE - 10 WHERE ID = 1",
        "bank.1> OK reserved 3\n",
    ),
    (
        4,
        "UPDATE ACCOUNT SET BALANCE = BALANCE - 11 WHERE ID = 1",
        "bank.4> ERR 41 MINIMUM_BALANCE low 49 limit 50\n",
    ),
    (
        4,
        "UPDATE ACCOUNT SET BALANCE = BALANCE - 10 WHERE ID = 2",
        "bank.4> OK reserved 4\n",
    ),
    (
        4,
        "UPDATE ACCOUNT SET BALANCE = BALANCE - 10 WHERE ID = 3",
        "bank.4> ERR 31 no such row\n",
    ),
    (
        4,
        "UPDATE ACCOUNT SET ID = 4 WHERE ID = 2",
        "bank.4> ERR 24 bad assignment\n",
    ),
    (
        5,
        "DELETE FROM ACCOUNT WHERE ID = 1",
        "bank.5> ERR 32 row reserved\n",
    ),
    (
        5,
        "DELETE FROM ACCOUNT WHERE BALANCE = 1",
        "bank.5> ERR 25 not the key\n",
    ),
    (
        5,
        "DELETE FROM ACCOUNT WHERE ID = 3",
        "bank.5> ERR 31 no such row\n",
    ),
    (
        5,
        "SELECT * FROM SHOP",
        "bank.5> CODE | TITLE | STOCK\nbank.5> 'TEA' | 'Sencha' | 40\nbank.5> OK rows 1\n",
    ),
    (
        5,
        "DELETE FROM SHOP WHERE CODE = 'TEA'",
        "bank.5> OK deleted\n",
    ),
    (5, "DROP TABLE ACCOUNT", "bank.5> ERR 33 table reserved\n"),
    (5, "DROP TABLE SHOP", "bank.5> OK dropped SHOP\n"),
    (5, "DROP TABLE SHOP", "bank.5> ERR 21 no such table\n"),
    (
        5,
        "ALTER TABLE ACCOUNT ADD CONSTRAINT CAP CHECK (BALANCE <= 104)",
        "bank.5> ERR 41 CAP high 105 limit 104\n",
    ),
    (
        5,
        "ALTER TABLE ACCOUNT ADD CONSTRAINT CAP CHECK (BALANCE <= 105)",
        "bank.5> OK altered ACCOUNT\n",
    ),
    (
        5,
        "ALTER TABLE ACCOUNT DROP CONSTRAINT CUP",
        "bank.5> ERR 27 no such constraint\n",
    ),
    (
        5,
        "ALTER TABLE ACCOUNT DROP CONSTRAINT CAP",
        "bank.5> OK altered ACCOUNT\n",
    ),
    (1, "SAVEPOINT A", "bank.1> OK savepoint A\n"),
    (
        1,
        "UPDATE ACCOUNT SET BALANCE = BALANCE + 1 WHERE ID = 2",
        "bank.1> OK reserved 5\n",
    ),
    (1, "ROLLBACK TO A", "bank.1> OK rolled back to A 1\n"),
    (1, "ROLLBACK TO B", "bank.1> ERR 43 no such savepoint\n"),
    (
        5,
        "SELECT * FROM ACCOUNT",
        "bank.5> ID | BALANCE\nbank.5> 1 | 100\nbank.5> 2 | 100\nbank.5> OK rows 2\n",
    ),
    (
        5,
        "SHOW TABLE ACCOUNT",
        "bank.5> CREATE TABLE ACCOUNT (ID NUMBER(15) PRIMARY KEY, BALANCE NUMBER(15) RESERVABLE, CONSTRAINT MINIMUM_BALANCE CHECK (BALANCE >= 50))\nbank.5> OK table\n",
    ),
    (
        5,
        "SHOW JOURNAL",
        "bank.5> 1 session 1 ACCOUNT 1 BALANCE -30\nbank.5> 2 session 2 ACCOUNT 1 BALANCE +5\nbank.5> 3 session 1 ACCOUNT 1 BALANCE -10\nbank.5> 4 session 4 ACCOUNT 2 BALANCE -10\nbank.5> OK reservations 4\n",
    ),
    (
        5,
        "SHOW BOUNDS ACCOUNT WHERE ID = 1",
        "bank.5> BALANCE value 100 inf 60 sup 105\nbank.5> CHECK MINIMUM_BALANCE least 60 greatest 105 low 50 high none\nbank.5> OK bounds\n",
    ),
    (4, "ROLLBACK", "bank.4> OK rolled back 1\n"),
    (
        5,
        "SHOW BOUNDS ACCOUNT WHERE ID = 2",
        "bank.5> BALANCE value 100 inf 100 sup 100\nbank.5> CHECK MINIMUM_BALANCE least 100 greatest 100 low 50 high none\nbank.5> OK bounds\n",
    ),
    (2, "COMMIT", "bank.2> OK committed 1\n"),
    (1, "COMMIT", "bank.1> OK committed 2\n"),
    (3, "COMMIT", "bank.3> OK committed 0\n"),
    (
        5,
        "SELECT * FROM ACCOUNT WHERE ID = 1",
        "bank.5> ID | BALANCE\nbank.5> 1 | 65\nbank.5> OK rows 1\n",
    ),
    (
        3,
        "UPDATE ACCOUNT SET BALANCE = BALANCE + 0 WHERE ID = 1",
        "bank.3> OK reserved 6\n",
    ),
    (
        5,
        "SHOW JOURNAL ACCOUNT",
        "bank.5> 6 session 3 ACCOUNT 1 BALANCE +0\nbank.5> OK reservations 1\n",
    ),
    (3, "ROLLBACK", "bank.3> OK rolled back 1\n"),
];

/// A history serves statements of each kind, and each becomes one entry.
#[test]
fn kinds_by_a_history(rt: HostRuntime) {
    let mut audited = histories::audited(&rt, database(&rt, &[]));
    // If memory is refused, nothing has changed, and the second attempt gets the room.
    if audited.make_room(20).is_err() {
        made(&rt, audited.make_room(20), "room");
    }
    for (asks, text, wanted) in &ASKED {
        let session = Session::new(*asks).expect(&rt, "a session");
        histories::serve(&rt, &mut audited, session, text, wanted);
    }
    let (transcript, end) = histories::drain(&rt, &mut audited);
    assert_eq!(rt; transcript.entries.len(), ASKED.len());
    assert_eq!(rt; end.before, ASKED.len() as u64);
}

/// Calls serve statements of each kind, and all of them become the entries of one part.
#[test]
fn kinds_by_calls(rt: HostRuntime) {
    let (shared, mut passes) = sharing::hall(&rt, 1, 5, &[]);
    for (asks, text, wanted) in &ASKED {
        let place = usize::from(*asks).wrapping_sub(1);
        let pass = passes.get_mut(place).expect(&rt, "a pass");
        let reply = sharing::ask(&rt, &shared, pass, text, &NoGate);
        check_shown(&rt, pass.session(), &reply, wanted);
    }
    let part = made(&rt, sharing::drain(&rt, &shared, 0), "a part");
    assert_eq!(rt; (part.number(), part.entries().len()), (1, ASKED.len()));
    let mut parts = Vec::new(rt.alloc());
    push(&rt, &mut parts, part);
    let audit = made(&rt, shared.close(passes, parts), "an audit");
    assert_eq!(rt; audit.closed.len(), 1);
}
