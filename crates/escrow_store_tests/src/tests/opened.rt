//! Stores that another program made or changed, and stores of the previous format.
use super::databases::{Asked, Bank, OverFiles, ask_all, execute, file_with, over, read};
use escrow_cells::{count_keys, create, run, tabs};
use escrow_num::Failure;
use sqlite::{Alter, Connection};
use std::alloc::Global;
use std::process::Abort;
use std::test::Fail;

/// Fills a store with an account of 100, which keeps at least 50.
pub(super) const ACCOUNT: &str =
    "INSERT INTO TAB VALUES (1, 'ACCOUNT', 'CREATE TABLE ACCOUNT (ID NUMBER(15) PRIMARY KEY, BALANCE NUMBER(15) RESERVABLE, CONSTRAINT MINIMUM_BALANCE CHECK (BALANCE >= 50))'); INSERT INTO CELL VALUES (1, 1, 1, 1), (1, 1, 2, 100)";

/// The known format.
pub(super) const KNOWN: &str = "UPDATE META SET V = 2";

/// The previous format.
pub(super) const FORMAT_1: &str = "UPDATE META SET V = 1";

/// An unknown format.
const THREE: &str = "UPDATE META SET V = 3";

/// Changes of the store with the account. The first number is that of `open_store`'s refusal, or 0
/// if the store is opened. The second is that of `migrate`'s refusal, if the store had the previous
/// format.
const CHANGES: &[(&str, u8, u8)] = &[
    // none
    (KNOWN, 0, 0),
    // an additional table, one that refers to a row of a store, and a view
    (NOTES, 0, 0),
    ("CREATE TABLE NOTES (A INTEGER REFERENCES TAB (ID))", 61, 61),
    ("CREATE VIEW NOTES AS SELECT K FROM META", 0, 0),
    // another format
    (THREE, 62, 62),
    ("UPDATE META SET V = 0", 62, 62),
    // a second row of META, also beside another format; no row; a row of another name
    ("INSERT INTO META VALUES ('other', 1)", 61, 61),
    (
        "UPDATE META SET V = 3; INSERT INTO META VALUES ('other', 1)",
        61,
        61,
    ),
    ("DELETE FROM META", 61, 61),
    ("UPDATE META SET K = 'FORMAT'", 61, 61),
    // a text that defines the same table, but isn't the canonical one
    (
        "UPDATE TAB SET DDL = 'CREATE TABLE account (ID NUMBER(15) PRIMARY KEY, BALANCE NUMBER(15) RESERVABLE, CONSTRAINT MINIMUM_BALANCE CHECK (BALANCE >= 50))'",
        61,
        61,
    ),
    ("UPDATE TAB SET DDL = DDL || ' '", 61, 61),
    // a name other than that of the text
    ("UPDATE TAB SET NAME = 'OTHER'", 61, 61),
    // a second table without rows, and one with the number 0
    (
        "INSERT INTO TAB VALUES (9, 'B', 'CREATE TABLE B (ID NUMBER(3) PRIMARY KEY, N NUMBER(3) RESERVABLE)')",
        0,
        0,
    ),
    (
        "INSERT INTO TAB VALUES (0, 'B', 'CREATE TABLE B (ID NUMBER(3) PRIMARY KEY, N NUMBER(3) RESERVABLE)')",
        61,
        61,
    ),
    // a column with a scale, which no store of the previous format has
    (
        "INSERT INTO TAB VALUES (9, 'B', 'CREATE TABLE B (ID NUMBER(9,2) PRIMARY KEY, N NUMBER(3) RESERVABLE)')",
        0,
        61,
    ),
    (
        "INSERT INTO TAB VALUES (9, 'B', 'CREATE TABLE B (ID NUMBER(3) PRIMARY KEY, M NUMBER(9,2), N NUMBER(3) RESERVABLE)')",
        0,
        61,
    ),
    (
        "INSERT INTO TAB VALUES (9, 'B', 'CREATE TABLE B (ID NUMBER(3) PRIMARY KEY, N NUMBER(9,2) RESERVABLE)')",
        0,
        61,
    ),
    // another number of the table, in both places or in one
    ("UPDATE TAB SET ID = 7; UPDATE CELL SET TAB = 7", 0, 0),
    ("UPDATE TAB SET ID = 7", 61, 61),
    // no balance
    ("DELETE FROM CELL WHERE C = 2", 61, 61),
    // a balance that breaks a check, and one that just doesn't; one with too many digits, and one
    // with just few enough
    ("UPDATE CELL SET V = 40 WHERE C = 2", 61, 61),
    ("UPDATE CELL SET V = 49 WHERE C = 2", 61, 61),
    ("UPDATE CELL SET V = 50 WHERE C = 2", 0, 0),
    ("UPDATE CELL SET V = 1000000000000000 WHERE C = 2", 61, 61),
    ("UPDATE CELL SET V = 999999999999999 WHERE C = 2", 0, 0),
    // a balance that is a text, a floating number, a blob
    ("UPDATE CELL SET V = 'much' WHERE C = 2", 61, 61),
    ("UPDATE CELL SET V = 100.5 WHERE C = 2", 61, 61),
    ("UPDATE CELL SET V = x'3130' WHERE C = 2", 61, 61),
    // a key other than the one of the row, in one place or in both
    ("UPDATE CELL SET V = 2 WHERE C = 1", 61, 61),
    (
        "UPDATE CELL SET K = 2; UPDATE CELL SET V = 2 WHERE C = 1",
        0,
        0,
    ),
    ("UPDATE CELL SET K = '1'", 61, 61),
    // a cell of no table, of no column, and the only one of its row
    ("INSERT INTO CELL VALUES (2, 1, 1, 1)", 61, 61),
    ("INSERT INTO CELL VALUES (1, 1, 0, 1)", 61, 61),
    ("INSERT INTO CELL VALUES (1, 1, 3, 1)", 61, 61),
    ("INSERT INTO CELL VALUES (1, 2, 1, 2)", 61, 61),
    // a text with a control character
    (LINES, 0, 0),
    // only META of the three tables
    ("DROP TABLE CELL; DROP TABLE TAB", 61, 61),
];

/// A table that isn't one of a store's.
const NOTES: &str = "CREATE TABLE NOTES (ID INTEGER PRIMARY KEY, NOTE TEXT)";

/// A table with a text of two lines, which no statement can write.
const LINES: &str =
    "INSERT INTO TAB VALUES (2, 'T', 'CREATE TABLE T (ID NUMBER(15) PRIMARY KEY, NOTE VARCHAR2(5), N NUMBER(15) RESERVABLE)'); INSERT INTO CELL VALUES (2, 1, 1, 1), (2, 1, 2, 'a\nb'), (2, 1, 3, 7)";

/// A table whose columns have a scale. Its cells hold numbers of units.
const UNITS: &str =
    "INSERT INTO TAB VALUES (2, 'PRICE', 'CREATE TABLE PRICE (CODE NUMBER(5,1) PRIMARY KEY, NET NUMBER(9,2), STOCK NUMBER(9,2) RESERVABLE, CONSTRAINT LEAST CHECK (STOCK >= 0.50))'); INSERT INTO CELL VALUES (2, 15, 1, 15), (2, 15, 2, 9950), (2, 15, 3, 275), (2, -5, 1, -5), (2, -5, 2, -1), (2, -5, 3, 75)";

/// Whether the opening migrates a store, or the number of its refusal.
type Answer = Result<bool, u8>;

/// Opens a store by `migrate` or by `open_store`. Returns its answer, and the connection.
fn opened<S: Alter + Drop>(
    alloc: Global,
    conn: Connection<S>,
    migrates: bool,
) -> (Answer, Connection<S>) {
    match read(alloc, conn, migrates) {
        Ok(opened) => (Ok(opened.migrated), opened.store.into_connection()),
        Err((number, conn)) => (Err(number), conn),
    }
}

/// Makes a store, and executes statements of SQL. Then opens it several times, by `migrate` or by `open_store`, and
/// compares the answers.
fn open_each<R: Abort + AllocGlobal, S: Alter + Drop>(
    rt: &R,
    mut conn: Connection<S>,
    filled_by: &[&str],
    openings: &[(bool, Answer)],
) -> Result<(), Fail> {
    create(&mut conn)?;
    assert!(rt; execute(&mut conn, filled_by), "{filled_by:?}");
    for (migrates, want) in openings {
        let (answer, next) = opened(rt.alloc(), conn, *migrates);
        conn = next;
        assert_eq!(rt; answer, *want, "{filled_by:?}");
    }
    Ok(())
}

/// Returns the answer: a refusal with this number, or an opening if the number is 0.
fn answer_of(number: u8, migrated: bool) -> Answer {
    if number > 0 {
        Err(number)
    } else {
        Ok(migrated)
    }
}

/// A store that holds anything but what this program writes is refused, and so is an unknown
/// format. An additional table does no harm. The same holds for a store of the previous format that
/// is migrated.
#[test]
fn what_is_no_store_is_refused(rt: HostRuntime) -> Result<(), Fail> {
    for (change, number, number_before) in CHANGES {
        let opening = (false, answer_of(*number, false));
        let conn = escrow_memory::open(rt.alloc())?;
        open_each(&rt, conn, &[ACCOUNT, change], &[opening])?;
        let migration = (true, answer_of(*number_before, *change != KNOWN));
        let conn = escrow_memory::open(rt.alloc())?;
        open_each(&rt, conn, &[ACCOUNT, FORMAT_1, change], &[migration])?;
    }
    Ok(())
}

/// `open_store` refuses a store of the previous format, and `migrate` migrates it once. Then both
/// open it.
#[test]
fn a_store_is_migrated_once(rt: HostRuntime) -> Result<(), Fail> {
    let openings = [
        (false, Err(62)),
        (true, Ok(true)),
        (true, Ok(false)),
        (false, Ok(false)),
    ];
    let conn = escrow_memory::open(rt.alloc())?;
    open_each(&rt, conn, &[ACCOUNT, FORMAT_1], &openings)
}

/// Changes of the store with the account, and what is shown after each.
const SHOWN: &[(&str, Asked)] = &[
    (
        NOTES,
        &[(
            "SELECT * FROM ACCOUNT",
            "bank.1> ID | BALANCE\nbank.1> 1 | 100\nbank.1> OK rows 1\n",
        )],
    ),
    (
        LINES,
        &[(
            "SELECT * FROM T",
            "bank.1> ID | NOTE | N\nbank.1> 1 | 'a\nb' | 7\nbank.1> OK rows 1\n",
        )],
    ),
    (
        UNITS,
        &[(
            "SELECT * FROM PRICE",
            "bank.1> CODE | NET | STOCK\nbank.1> -0.5 | -0.01 | 0.75\nbank.1> 1.5 | 99.50 | 2.75\nbank.1> OK rows 2\n",
        )],
    ),
];

/// Compares what is shown of the store with the account after a change.
fn show_changed<R: Abort + AllocGlobal, B: Bank>(
    rt: &R,
    change: &str,
    asked: Asked,
) -> Result<(), Fail> {
    let file = file_with::<_, B>(rt, &[ACCOUNT, change])?;
    let mut bank: B = over(rt, file.as_slice())?;
    ask_all(rt, &mut bank, 1, asked)
}

/// Rows are shown beside an additional table, texts as they are, and numbers with a scale by their
/// units.
#[test]
fn changed_stores_are_shown(rt: HostRuntime) -> Result<(), Fail> {
    for (change, asked) in SHOWN {
        show_changed::<_, OverFiles>(&rt, change, asked)?;
    }
    Ok(())
}

/// Returns whether the store refuses calls that write or read cells.
fn are_refused<S: Alter>(conn: &mut Connection<S>) -> bool {
    create(conn) == Err(Failure::Store)
        && run(conn, &[]) == Err(Failure::Store)
        && tabs(conn).err() == Some(Failure::Store)
        && count_keys(conn, 1, 1) == Err(Failure::Store)
}

/// Makes a store with the account, and begins a transaction. Tests that calls are refused and leave it open.
fn refuse_inside<R: Abort + AllocGlobal, S: Alter + Drop>(
    rt: &R,
    mut conn: Connection<S>,
    format: &str,
) -> Result<(), Fail> {
    create(&mut conn)?;
    assert!(rt; execute(&mut conn, &[ACCOUNT, format, "BEGIN"]));
    assert!(rt; are_refused(&mut conn), "{format}");
    let refused = read(rt.alloc(), conn, true).err();
    let (number, conn) = refused.expect(rt, "a refusal");
    assert_eq!(rt; number, 60, "{format}");
    assert!(rt; !conn.is_autocommit(), "{format}");
    Ok(())
}

/// Calls on a connection inside a transaction fail with error 60, and leave the transaction open.
#[test]
fn nothing_is_done_in_a_transaction(rt: HostRuntime) -> Result<(), Fail> {
    for format in [FORMAT_1, KNOWN, THREE] {
        refuse_inside(&rt, escrow_memory::open(rt.alloc())?, format)?;
    }
    Ok(())
}
