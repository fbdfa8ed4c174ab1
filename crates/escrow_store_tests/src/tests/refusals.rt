//! A statement that the store refuses changes nothing.
use super::databases::{Asked, Bank, OverFiles, ask, ask_all, over};
use escrow_core::Event;
use std::process::Abort;
use std::test::Fail;

/// A statement of session 1 that writes, and its reply. Before it, a session asks other statements.
/// Session 9 asks a statement that shows that it was refused, and one that shows that it was
/// served. `is_refused` says whether the limits refuse it at all.
struct Write {
    session: u16,
    set_up: Asked,
    statement: &'static str,
    reply: &'static str,
    is_refused: bool,
    before: Asked,
    after: Asked,
}

/// The account, as a SELECT of session 9 shows it.
const STANDS: (&str, &str) = (
    "SELECT * FROM ACCOUNT",
    "bank.9> ID | OWNER | BALANCE\nbank.9> 1 | 'it''s é' | 100\nbank.9> OK rows 1\n",
);

/// A table of accounts, each at least 50, and an account with a balance of 100.
const ACCOUNT: Asked = &[
    (
        "CREATE TABLE ACCOUNT (ID INTEGER PRIMARY KEY, OWNER VARCHAR2(20), BALANCE INTEGER RESERVABLE CONSTRAINT MINIMUM_BALANCE CHECK (BALANCE >= 50))",
        "bank.1> OK created ACCOUNT\n",
    ),
    (
        "INSERT INTO ACCOUNT VALUES (1, 'it''s é', 100)",
        "bank.1> OK inserted\n",
    ),
];

/// A table of balances, each at least 50, and one of 100.
const BALANCES: Asked = &[
    (
        "CREATE TABLE ACCOUNT (ID INTEGER PRIMARY KEY, BALANCE INTEGER RESERVABLE CONSTRAINT MINIMUM_BALANCE CHECK (BALANCE >= 50))",
        "bank.1> OK created ACCOUNT\n",
    ),
    (
        "INSERT INTO ACCOUNT VALUES (1, 100)",
        "bank.1> OK inserted\n",
    ),
];

/// A COMMIT of a reservation, in the table of balances.
const COMMIT: Write = Write {
    session: 1,
    set_up: &[(
        "UPDATE ACCOUNT SET BALANCE = BALANCE - 30 WHERE ID = 1",
        "bank.1> OK reserved 1\n",
    )],
    statement: "COMMIT",
    reply: "bank.1> OK committed 1\n",
    is_refused: true,
    before: &[
        (
            "SHOW JOURNAL",
            "bank.9> 1 session 1 ACCOUNT 1 BALANCE -30\nbank.9> OK reservations 1\n",
        ),
        (
            "SELECT * FROM ACCOUNT",
            "bank.9> ID | BALANCE\nbank.9> 1 | 100\nbank.9> OK rows 1\n",
        ),
    ],
    after: &[
        ("SHOW JOURNAL", "bank.9> OK reservations 0\n"),
        (
            "SELECT * FROM ACCOUNT",
            "bank.9> ID | BALANCE\nbank.9> 1 | 70\nbank.9> OK rows 1\n",
        ),
    ],
};

/// The other statements. A limit counts the rows that SQLite looks at. A new key has none, and a
/// CREATE TABLE looks at none.
const WRITES: &[Write] = &[
    // an UPDATE of plain columns
    Write {
        session: 1,
        set_up: &[],
        statement: "UPDATE ACCOUNT SET OWNER = 'Ada' WHERE ID = 1",
        reply: "bank.1> OK updated\n",
        is_refused: true,
        before: &[STANDS],
        after: &[(
            "SELECT * FROM ACCOUNT",
            "bank.9> ID | OWNER | BALANCE\nbank.9> 1 | 'Ada' | 100\nbank.9> OK rows 1\n",
        )],
    },
    // an UPDATE that reserves
    Write {
        session: 1,
        set_up: &[],
        statement: "UPDATE ACCOUNT SET BALANCE = BALANCE + 1 WHERE ID = 1",
        reply: "bank.1> OK reserved 1\n",
        is_refused: true,
        before: &[STANDS, ("SHOW JOURNAL", "bank.9> OK reservations 0\n")],
        after: &[
            STANDS,
            (
                "SHOW JOURNAL",
                "bank.9> 1 session 1 ACCOUNT 1 BALANCE +1\nbank.9> OK reservations 1\n",
            ),
        ],
    },
    // the same, of a row that was inserted since the restart: it isn't read
    Write {
        session: 1,
        set_up: &[INSERT],
        statement: "UPDATE ACCOUNT SET BALANCE = BALANCE + 1 WHERE ID = -2",
        reply: "bank.1> OK reserved 1\n",
        is_refused: false,
        before: &[TWO],
        after: &[
            TWO,
            (
                "SHOW JOURNAL",
                "bank.9> 1 session 1 ACCOUNT -2 BALANCE +1\nbank.9> OK reservations 1\n",
            ),
        ],
    },
    // an INSERT
    Write {
        session: 1,
        set_up: &[],
        statement: "INSERT INTO ACCOUNT VALUES (-2, 'B', 60)",
        reply: "bank.1> OK inserted\n",
        is_refused: false,
        before: &[STANDS],
        after: &[TWO],
    },
    // a DELETE
    Write {
        session: 1,
        set_up: &[INSERT],
        statement: "DELETE FROM ACCOUNT WHERE ID = -2",
        reply: "bank.1> OK deleted\n",
        is_refused: true,
        before: &[TWO],
        after: &[STANDS],
    },
    // a CREATE TABLE
    Write {
        session: 1,
        set_up: &[],
        statement: CREATE,
        reply: CREATED,
        is_refused: false,
        before: &[("SHOW TABLE B", "bank.9> ERR 21 no such table\n"), STANDS],
        after: &[EMPTY, STANDS],
    },
    // a DROP TABLE
    Write {
        session: 1,
        set_up: &[(CREATE, CREATED)],
        statement: "DROP TABLE ACCOUNT",
        reply: "bank.1> OK dropped ACCOUNT\n",
        is_refused: true,
        before: &[STANDS],
        after: &[
            ("SHOW TABLE ACCOUNT", "bank.9> ERR 21 no such table\n"),
            EMPTY,
        ],
    },
    // an ALTER TABLE that adds a check
    Write {
        session: 2,
        set_up: TAKEN,
        statement: "ALTER TABLE ACCOUNT ADD CONSTRAINT CAP CHECK (BALANCE <= 100)",
        reply: "bank.1> OK altered ACCOUNT\n",
        is_refused: true,
        before: &[OPEN, BOUNDS, CHECKED, STANDS],
        after: &[
            OPEN,
            (
                "SHOW BOUNDS ACCOUNT WHERE ID = 1",
                "bank.9> BALANCE value 100 inf 70 sup 100\nbank.9> CHECK MINIMUM_BALANCE least 70 greatest 100 low 50 high none\nbank.9> CHECK CAP least 70 greatest 100 low none high 100\nbank.9> OK bounds\n",
            ),
            (
                "SHOW TABLE ACCOUNT",
                "bank.9> CREATE TABLE ACCOUNT (ID NUMBER(15) PRIMARY KEY, OWNER VARCHAR2(20), BALANCE NUMBER(15) RESERVABLE, CONSTRAINT MINIMUM_BALANCE CHECK (BALANCE >= 50), CONSTRAINT CAP CHECK (BALANCE <= 100))\nbank.9> OK table\n",
            ),
            STANDS,
        ],
    },
    // an ALTER TABLE that drops one
    Write {
        session: 2,
        set_up: TAKEN,
        statement: "ALTER TABLE ACCOUNT DROP CONSTRAINT MINIMUM_BALANCE",
        reply: "bank.1> OK altered ACCOUNT\n",
        is_refused: true,
        before: &[OPEN, BOUNDS, CHECKED, STANDS],
        after: &[
            OPEN,
            (
                "SHOW BOUNDS ACCOUNT WHERE ID = 1",
                "bank.9> BALANCE value 100 inf 70 sup 100\nbank.9> OK bounds\n",
            ),
            (
                "SHOW TABLE ACCOUNT",
                "bank.9> CREATE TABLE ACCOUNT (ID NUMBER(15) PRIMARY KEY, OWNER VARCHAR2(20), BALANCE NUMBER(15) RESERVABLE)\nbank.9> OK table\n",
            ),
            STANDS,
        ],
    },
];

/// The account and another one.
const TWO: (&str, &str) = (
    "SELECT * FROM ACCOUNT",
    "bank.9> ID | OWNER | BALANCE\nbank.9> -2 | 'B' | 60\nbank.9> 1 | 'it''s é' | 100\nbank.9> OK rows 2\n",
);

/// The INSERT of that one.
const INSERT: (&str, &str) = (
    "INSERT INTO ACCOUNT VALUES (-2, 'B', 60)",
    "bank.1> OK inserted\n",
);

/// A second table.
const CREATE: &str = "CREATE TABLE B (ID NUMBER(3) PRIMARY KEY, N NUMBER(3) RESERVABLE)";

/// The reply to it.
const CREATED: &str = "bank.1> OK created B\n";

/// The second table, as a SELECT of session 9 shows it.
const EMPTY: (&str, &str) = ("SELECT * FROM B", "bank.9> ID | N\nbank.9> OK rows 0\n");

/// A reservation of session 2, while the table is altered.
const TAKEN: Asked = &[(
    "UPDATE ACCOUNT SET BALANCE = BALANCE - 30 WHERE ID = 1",
    "bank.2> OK reserved 1\n",
)];

/// The reservation, as a SHOW JOURNAL of session 9 shows it.
const OPEN: (&str, &str) = (
    "SHOW JOURNAL",
    "bank.9> 1 session 2 ACCOUNT 1 BALANCE -30\nbank.9> OK reservations 1\n",
);

/// The bounds of its row, with the one check of its table.
const BOUNDS: (&str, &str) = (
    "SHOW BOUNDS ACCOUNT WHERE ID = 1",
    "bank.9> BALANCE value 100 inf 70 sup 100\nbank.9> CHECK MINIMUM_BALANCE least 70 greatest 100 low 50 high none\nbank.9> OK bounds\n",
);

/// The table with that check.
const CHECKED: (&str, &str) = (
    "SHOW TABLE ACCOUNT",
    "bank.9> CREATE TABLE ACCOUNT (ID NUMBER(15) PRIMARY KEY, OWNER VARCHAR2(20), BALANCE NUMBER(15) RESERVABLE, CONSTRAINT MINIMUM_BALANCE CHECK (BALANCE >= 50))\nbank.9> OK table\n",
);

/// Asks a statement about a new table, under each limit of SQLite's steps, from 1 on, until it is
/// served. After each refusal, session 9 looks, without a limit, whether anything changed. The
/// database is restarted before, so that no row's amounts are kept.
fn refuse_at_each_limit<R: Abort + AllocGlobal, B: Bank>(
    rt: &R,
    table: Asked,
    write: &Write,
) -> Result<(), Fail> {
    let mut bank: B = over(rt, &[])?;
    ask_all(rt, &mut bank, 1, table)?;
    bank.run(rt.alloc(), &[Event::Restart])?;
    ask_all(rt, &mut bank, write.session, write.set_up)?;
    for limit in 1..1000u64 {
        if is_served(rt, &mut bank, write, limit)? {
            assert_eq!(rt; limit > 1, write.is_refused, "{}", write.statement);
            return ask_all(rt, &mut bank, 9, write.after);
        }
        ask_all(rt, &mut bank, 9, write.before)?;
    }
    panic!(rt; "never served")
}

/// Returns whether a statement is served under a limit. If not, the store refuses it.
fn is_served<R: Abort + AllocGlobal, B: Bank>(
    rt: &R,
    bank: &mut B,
    write: &Write,
    limit: u64,
) -> Result<bool, Fail> {
    bank.limit(Some(limit));
    let got = ask(rt, bank, 1, write.statement)?;
    bank.limit(None);
    let served = is_text(got.as_str(), write.reply);
    assert!(rt;
        served || is_text(got.as_str(), "bank.1> ERR 60 store\n"),
        "{got}"
    );
    Ok(served)
}

/// Returns whether two texts are the same.
fn is_text(a: &str, b: &str) -> bool {
    a == b
}

/// After a COMMIT that the store refuses, the transaction is still open, and the COMMIT can be
/// asked again.
#[test]
fn commit_refused_by_store(rt: HostRuntime) -> Result<(), Fail> {
    refuse_at_each_limit::<_, OverFiles>(&rt, BALANCES, &COMMIT)
}

/// No other refused statement changes anything either. A refused ALTER TABLE leaves the table's
/// checks, the bounds of its rows and the open reservations.
#[test]
fn writes_refused_by_store(rt: HostRuntime) -> Result<(), Fail> {
    for write in WRITES {
        refuse_at_each_limit::<_, OverFiles>(&rt, ACCOUNT, write)?;
    }
    Ok(())
}
