//! Statements for stores that stop at each of their calls in turn.
use super::databases::{Asked, AskedAtOnce};
use super::opened::{ACCOUNT, FORMAT_1, KNOWN};

/// A store, the statements that it serves, and the queries that show its rows.
pub(super) struct Plan {
    /// Statements of SQL that fill the store. If there are none, the files are empty at first.
    pub(super) filled_by: &'static [&'static str],
    /// The numbers of frames at which the log is copied into the database file. Each is tried.
    pub(super) frames: &'static [usize],
    /// The statements of session 1, and the reply to each.
    pub(super) asked: Asked,
    /// Statements that are given at once after those.
    pub(super) at_once: AskedAtOnce,
    /// Queries that show the rows.
    pub(super) queries: &'static [&'static str],
}

/// The log is copied at each commit, or when the store is closed.
const COPIED: &[usize] = &[1, 1000];

/// The query that shows the account.
const SHOW_ACCOUNT: &str = "SELECT * FROM ACCOUNT";

/// The account after its INSERT.
const FULL: &str = "bank.1> ID | BALANCE\nbank.1> 1 | 100\nbank.1> OK rows 1\n";

/// A store that is created.
pub(super) const MADE: Plan = Plan {
    filled_by: &[],
    frames: COPIED,
    asked: &[],
    at_once: &[],
    queries: &[SHOW_ACCOUNT],
};

/// A table and an account.
pub(super) const INSERTED: Plan = Plan {
    filled_by: &[KNOWN],
    frames: COPIED,
    asked: &[
        (
            "CREATE TABLE ACCOUNT (ID INTEGER PRIMARY KEY, BALANCE INTEGER RESERVABLE CONSTRAINT MINIMUM_BALANCE CHECK (BALANCE >= 50))",
            "bank.1> OK created ACCOUNT\n",
        ),
        (
            "INSERT INTO ACCOUNT VALUES (1, 100)",
            "bank.1> OK inserted\n",
        ),
        (SHOW_ACCOUNT, FULL),
    ],
    at_once: &[],
    queries: &[SHOW_ACCOUNT],
};

/// A reservation, its COMMIT, and a DELETE.
pub(super) const COMMITTED: Plan = Plan {
    filled_by: &[ACCOUNT],
    frames: COPIED,
    asked: &[
        (
            "UPDATE ACCOUNT SET BALANCE = BALANCE - 30 WHERE ID = 1",
            "bank.1> OK reserved 1\n",
        ),
        ("COMMIT", "bank.1> OK committed 1\n"),
        (
            SHOW_ACCOUNT,
            "bank.1> ID | BALANCE\nbank.1> 1 | 70\nbank.1> OK rows 1\n",
        ),
        ("DELETE FROM ACCOUNT WHERE ID = 1", "bank.1> OK deleted\n"),
    ],
    at_once: &[],
    queries: &[SHOW_ACCOUNT],
};

/// A reservation, then two more of other sessions, given at once with the COMMITs of all three.
pub(super) const TOGETHER: Plan = Plan {
    filled_by: &[ACCOUNT],
    frames: COPIED,
    asked: &[(
        "UPDATE ACCOUNT SET BALANCE = BALANCE - 30 WHERE ID = 1",
        "bank.1> OK reserved 1\n",
    )],
    at_once: &[
        (
            2,
            "UPDATE ACCOUNT SET BALANCE = BALANCE + 7 WHERE ID = 1",
            "bank.2> OK reserved 2\n",
        ),
        (1, "COMMIT", "bank.1> OK committed 1\n"),
        (
            3,
            "UPDATE ACCOUNT SET BALANCE = BALANCE - 20 WHERE ID = 1",
            "bank.3> OK reserved 3\n",
        ),
        (2, "COMMIT", "bank.2> OK committed 1\n"),
        (3, "COMMIT", "bank.3> OK committed 1\n"),
    ],
    queries: &[SHOW_ACCOUNT],
};

/// An account whose table is altered twice.
pub(super) const ALTERED: Plan = Plan {
    filled_by: &[ACCOUNT],
    frames: COPIED,
    asked: &[
        (
            "ALTER TABLE ACCOUNT ADD CONSTRAINT CAP CHECK (BALANCE <= 100)",
            "bank.1> OK altered ACCOUNT\n",
        ),
        (
            "ALTER TABLE ACCOUNT DROP CONSTRAINT MINIMUM_BALANCE",
            "bank.1> OK altered ACCOUNT\n",
        ),
        (
            "SHOW TABLE ACCOUNT",
            "bank.1> CREATE TABLE ACCOUNT (ID NUMBER(15) PRIMARY KEY, BALANCE NUMBER(15) RESERVABLE, CONSTRAINT CAP CHECK (BALANCE <= 100))\nbank.1> OK table\n",
        ),
    ],
    at_once: &[],
    queries: &["SHOW TABLE ACCOUNT", SHOW_ACCOUNT],
};

/// An account in a store of the previous format.
pub(super) const MIGRATED: Plan = Plan {
    filled_by: &[ACCOUNT, FORMAT_1],
    frames: COPIED,
    asked: &[(SHOW_ACCOUNT, FULL)],
    at_once: &[],
    queries: &[SHOW_ACCOUNT],
};

/// A text with a key of 255 bytes, which ends in a digit.
macro_rules! with_key {
    ($before:literal, $digit:literal, $behind:literal) => {
        with_key!(
            $before,
            $digit,
            $behind,
            "AAAAAAAAAAAAAAAAAAAAAAAAAAAAAAAAAAAAAAAAAAAAAAAAAA"
        )
    };
    ($before:literal, $digit:literal, $behind:literal, $fifty:literal) => {
        concat!(
            $before, "K105", $fifty, $fifty, $fifty, $fifty, $fifty, $digit, $behind
        )
    };
}

/// Two tables of 10 and 12 rows, which almost fill a page of cells. Rows with keys of 255 bytes divide it, and a COMMIT
/// changes several pages.
pub(super) const LARGE: Plan = Plan {
    filled_by: &[
        "INSERT INTO TAB VALUES (1, 'A', 'CREATE TABLE A (ID NUMBER(15) PRIMARY KEY, N NUMBER(15) RESERVABLE, CONSTRAINT LEAST CHECK (N >= 0))')",
        "INSERT INTO TAB VALUES (2, 'B', 'CREATE TABLE B (CODE VARCHAR2(255) PRIMARY KEY, N NUMBER(15) RESERVABLE, C NUMBER(15), D NUMBER(15))')",
        "CREATE TABLE NUMBERS (I INTEGER PRIMARY KEY)",
        "INSERT INTO NUMBERS VALUES (0), (1), (2), (3), (4), (5), (6), (7), (8), (9)",
        "INSERT INTO CELL SELECT 1, I, 1, I FROM NUMBERS",
        "INSERT INTO CELL SELECT 1, I, 2, I + 100 FROM NUMBERS",
        "CREATE TABLE KEYS (K TEXT)",
        "INSERT INTO KEYS SELECT 'K' || (I + 100) FROM NUMBERS",
        with_key!("INSERT INTO KEYS VALUES ('", "0", "')"),
        with_key!("INSERT INTO KEYS VALUES ('", "1", "')"),
        "INSERT INTO CELL SELECT 2, K, 1, K FROM KEYS",
        "INSERT INTO CELL SELECT 2, K, 2, 1 FROM KEYS",
        "INSERT INTO CELL SELECT 2, K, 3, 2 FROM KEYS",
        "INSERT INTO CELL SELECT 2, K, 4, 3 FROM KEYS",
        "DROP TABLE KEYS",
        "DROP TABLE NUMBERS",
    ],
    frames: &[1000],
    asked: &[
        (
            "SELECT * FROM B WHERE CODE = 'K109'",
            "bank.1> CODE | N | C | D\nbank.1> 'K109' | 1 | 2 | 3\nbank.1> OK rows 1\n",
        ),
        (
            with_key!("INSERT INTO B VALUES ('", "2", "', 1, 2, 3)"),
            "bank.1> OK inserted\n",
        ),
        (
            with_key!("INSERT INTO B VALUES ('", "3", "', 1, 2, 3)"),
            "bank.1> OK inserted\n",
        ),
        (
            "UPDATE A SET N = N - 30 WHERE ID = 0",
            "bank.1> OK reserved 1\n",
        ),
        (
            "UPDATE B SET N = N + 5 WHERE CODE = 'K109'",
            "bank.1> OK reserved 2\n",
        ),
        (
            with_key!("UPDATE B SET N = N + 5 WHERE CODE = '", "3", "'"),
            "bank.1> OK reserved 3\n",
        ),
        ("COMMIT", "bank.1> OK committed 3\n"),
        (
            "SELECT * FROM A WHERE ID = 0",
            "bank.1> ID | N\nbank.1> 0 | 70\nbank.1> OK rows 1\n",
        ),
        ("DELETE FROM B WHERE CODE = 'K109'", "bank.1> OK deleted\n"),
        (
            "UPDATE A SET N = N - 7 WHERE ID = 9",
            "bank.1> OK reserved 4\n",
        ),
        (
            "UPDATE B SET N = N + 7 WHERE CODE = 'K100'",
            "bank.1> OK reserved 5\n",
        ),
    ],
    at_once: &[
        (
            2,
            "UPDATE A SET N = N + 1 WHERE ID = 9",
            "bank.2> OK reserved 6\n",
        ),
        (1, "COMMIT", "bank.1> OK committed 2\n"),
        (2, "COMMIT", "bank.2> OK committed 1\n"),
    ],
    queries: &["SELECT * FROM A", "SELECT * FROM B"],
};
