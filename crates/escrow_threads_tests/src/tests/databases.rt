//! Databases over stores in memory, asked by texts. These functions have no clauses, so that the proof of a test
//! does not carry the state of each call.
use super::results::{made, push};
use escrow_core::Database;
use escrow_machine::Reply;
use escrow_memory::BlockStore;
use escrow_num::Session;
use escrow_recover::open_store;
use escrow_reply::render;
use escrow_sql::{Request, Statement, parse};
use std::process::Abort;

/// A table of accounts. Each keeps at least 50.
pub const CREATE: &str =
    "CREATE TABLE ACCOUNT (ID INTEGER PRIMARY KEY, BALANCE INTEGER RESERVABLE CONSTRAINT MINIMUM_BALANCE CHECK (BALANCE >= 50))";

/// An account with a balance of 100.
pub const INSERT: &str = "INSERT INTO ACCOUNT VALUES (1, 100)";

/// Both.
pub const ACCOUNT: [&str; 2] = [CREATE, INSERT];

/// Takes 30 out of the account.
pub const TAKE: &str = "UPDATE ACCOUNT SET BALANCE = BALANCE - 30 WHERE ID = 1";

/// Shows the account.
pub const SHOW: &str = "SELECT * FROM ACCOUNT WHERE ID = 1";

/// A table with one counter, which begins at 0 and has no check.
pub const COUNTER: [&str; 2] = [
    "CREATE TABLE COUNTER (ID INTEGER PRIMARY KEY, HITS INTEGER RESERVABLE)",
    "INSERT INTO COUNTER VALUES (1, 0)",
];

/// Adds one hit.
pub const HIT: &str = "UPDATE COUNTER SET HITS = HITS + 1 WHERE ID = 1";

/// Opens a database in which session 1 has asked some statements. None of them is refused.
pub fn database<R: Abort + AllocGlobal>(rt: &R, asked: &[&str]) -> Database<BlockStore> {
    let mut database = open(rt);
    for text in asked {
        let reply = database.step(rt.alloc(), Session::FIRST, &statement(rt, text));
        assert!(rt; !matches!(&reply, Reply::Refused(_)), "{text}: {reply:?}");
    }
    database
}

/// Opens a database in memory.
fn open<R: Abort + AllocGlobal>(rt: &R) -> Database<BlockStore> {
    let connection = made(rt, escrow_memory::open(rt.alloc()), "memory");
    match open_store(rt.alloc(), connection) {
        Ok(opened) => made(rt, Database::open(rt.alloc(), opened), "memory"),
        Err(fault) => panic!(rt; "a store: {:?}", fault.cause),
    }
}

/// Opens several such databases.
pub fn databases<R: Abort + AllocGlobal>(
    rt: &R,
    count: usize,
    asked: &[&str],
) -> Vec<Database<BlockStore>> {
    let mut databases = Vec::new(rt.alloc());
    for _ in 0..count {
        push(rt, &mut databases, database(rt, asked));
    }
    databases
}

/// Returns the statement of a text.
pub fn statement<R: Abort + AllocGlobal>(rt: &R, text: &str) -> Statement {
    match parse(rt.alloc(), text) {
        Ok(Request::Statement(statement)) => statement,
        Ok(Request::Statistics) => rt.panic("a statement"),
        Err(fault) => panic!(rt; "{text}: {fault:?}"),
    }
}

/// Compares the printed reply of `bank` to a session with the expected one.
pub fn check_shown<R: Abort + AllocGlobal>(rt: &R, session: Session, reply: &Reply, wanted: &str) {
    let lines = made(rt, render(rt.alloc(), "bank", session, reply), "memory");
    let text = made(rt, str::from_utf8(lines.as_slice()), "a text");
    assert_eq!(rt; text, wanted);
}

/// Asks a statement in session 1, and compares the printed reply.
pub fn check_reply<R: Abort + AllocGlobal>(
    rt: &R,
    database: &mut Database<BlockStore>,
    text: &str,
    wanted: &str,
) {
    let reply = database.step(rt.alloc(), Session::FIRST, &statement(rt, text));
    check_shown(rt, Session::FIRST, &reply, wanted);
}
