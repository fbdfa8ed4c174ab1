//! Eight threads buy seats of a concert, each in a session of its own. Who gets one differs from
//! run to run, but not how many do: none is given back, so the first 100 of 160 wishes are granted.

use anyhow::{Context, Result, bail, ensure};
use escrow_core::Database;
use escrow_machine::Reply;
use escrow_memory::BlockStore;
use escrow_num::Session;
use escrow_recover::open_store;
use escrow_shards::{Answer, Pass, Shared};
use escrow_sql::{Request, Statement, parse};
use escrow_transcript::Entry;
use std::alloc::Global;
use std::sync::Wait;
use std::thread;

const TABLE: &str =
    "CREATE TABLE SEATS (ID INTEGER PRIMARY KEY, FREE INTEGER RESERVABLE CHECK (FREE >= 0))";

const WISH: &str = "UPDATE SEATS SET FREE = FREE - 1 WHERE ID = 1";

#[test]
fn concert(rt: HostRuntime) -> Result<()> {
    let alloc = rt.alloc();
    let (hall, mut passes) = open_hall(alloc)?;
    let wish = statement(alloc, WISH)?;
    // A thread for each pass. All of them have ended when this returns.
    let serve = |_: usize, pass: &mut Pass| buy(&rt, alloc, &hall, pass, &wish);
    thread::for_each_mut(&rt, &mut passes, 8, &serve);
    // No part of the transcript was handed out, so there is none to hand in.
    let closing = hall.close(passes, Vec::new(alloc)).ok();
    let audit = closing.context("the passes don't fit what was served")?;
    let is_granted = |entry: &&Entry| matches!(entry.reply, Reply::Reserved { .. });
    let is_refused = |entry: &&Entry| matches!(entry.reply, Reply::Refused(_));
    for closed in &audit.closed {
        let entries = closed.entries();
        let granted = entries.iter().filter(is_granted).count();
        let refused = entries.iter().filter(is_refused).count();
        let count = entries.len();
        ensure!(
            (granted, refused, count) == (100, 60, 260),
            "granted {granted}, refused {refused}, entries {count}"
        );
    }
    Ok(())
}

/// A concert of a hundred free seats, shared by eight sessions, and a pass for each.
fn open_hall(alloc: Global) -> Result<(Shared<BlockStore>, Vec<Pass>)> {
    let connection = escrow_memory::open(alloc)?;
    let Ok(opened) = open_store(alloc, connection) else {
        bail!("no store")
    };
    let mut database = Database::open(alloc, opened).ok().context("no memory")?;
    for text in [TABLE, "INSERT INTO SEATS VALUES (1, 100)"] {
        let reply = database.step(alloc, Session::FIRST, &statement(alloc, text)?);
        ensure!(!matches!(reply, Reply::Refused(_)), "refused: {text}");
    }
    let databases = vec![in alloc; database]?;
    Shared::make(alloc, databases, 8).ok().context("not shared")
}

/// The statement of a text.
fn statement(alloc: Global, text: &str) -> Result<Statement> {
    match parse(alloc, text) {
        Ok(Request::Statement(statement)) => Ok(statement),
        _ => bail!("no statement: {text}"),
    }
}

/// Wishes for a seat twenty times, and takes each one granted. What isn't served changes nothing.
fn buy<R: Wait>(
    rt: &R,
    alloc: Global,
    hall: &Shared<BlockStore>,
    pass: &mut Pass,
    wish: &Statement,
) {
    for _ in 0..20 {
        if let Some(Reply::Reserved { .. }) = ask(rt, alloc, hall, pass, wish) {
            ask(rt, alloc, hall, pass, &Statement::Commit);
        }
    }
}

/// The reply to a statement of the session of a pass, if it is served.
fn ask<R: Wait>(
    rt: &R,
    alloc: Global,
    hall: &Shared<BlockStore>,
    pass: &mut Pass,
    statement: &Statement,
) -> Option<Reply> {
    // A call requires that the pass is for one of the databases and sessions, which this tells.
    if !hall.has_pass(pass) {
        return None;
    }
    match hall.call(rt, alloc, pass, statement) {
        Answer::Served(reply) => Some(reply),
        Answer::Unserved(_) => None,
    }
}
