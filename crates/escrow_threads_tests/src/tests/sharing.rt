//! Shared databases: the steps that most tests take. If memory is refused, nothing has changed, and
//! the step is tried again. What a call requires is asserted before it.
use super::databases::{databases, statement};
use super::results::made;
use escrow_core::Database;
use escrow_machine::Reply;
use escrow_memory::BlockStore;
use escrow_num::{Refusal, Session};
use escrow_shards::{
    Answer, Closed, Gate, MAX_DATABASES, MakeFault, Part, Pass, Shared, UnderLock, Unshared,
};
use std::process::Abort;
use std::sync::Wait;

/// Shared databases, and a pass for each session of each.
pub type Sharing = (Shared<BlockStore>, Vec<Pass>);

/// Shares from 1 to 16 databases. If memory is refused, they are returned and shared at the second
/// attempt.
pub fn share<R: Abort + AllocGlobal>(
    rt: &R,
    databases: Vec<Database<BlockStore>>,
    sessions: u16,
) -> Result<Sharing, MakeFault<BlockStore>> {
    assert!(rt; 0 < sessions && sessions <= Session::MAX_SHARED);
    let count = databases.len();
    assert!(rt; 0 < count && count <= MAX_DATABASES);
    let fault = match Shared::make(rt.alloc(), databases, sessions) {
        Ok(sharing) => return Ok(sharing),
        Err(fault) => fault,
    };
    if !matches!(&fault.cause, Unshared::Refused(Refusal::Memory)) {
        return Err(fault);
    }
    let databases = fault.databases;
    assert!(rt; databases.len() == count && 0 < count && count <= MAX_DATABASES);
    Shared::make(rt.alloc(), databases, sessions)
}

/// Shares new databases. In each of them session 1 has asked some statements.
pub fn hall<R: Abort + AllocGlobal>(
    rt: &R,
    count: usize,
    sessions: u16,
    asked: &[&str],
) -> Sharing {
    let opened = databases(rt, count, asked);
    made(rt, share(rt, opened, sessions), "shared")
}

/// Asks a statement in the session of a pass, and returns the reply. If memory is refused, the pass
/// has as many receipts as before, and the statement is served at the second attempt.
pub fn ask<R: Wait + Abort + AllocGlobal, L: UnderLock<BlockStore>, G: Gate>(
    rt: &R,
    shared: &Shared<BlockStore, L>,
    pass: &mut Pass,
    text: &str,
    gate: &G,
) -> Reply {
    let asked = statement(rt, text);
    let receipts = pass.receipts().len();
    for _ in 0..2 {
        assert!(rt; shared.has_pass(pass));
        match shared.call_gated(rt, rt.alloc(), pass, &asked, gate) {
            Answer::Served(reply) => return reply,
            Answer::Unserved(Refusal::Memory) => assert_eq!(rt; pass.receipts().len(), receipts),
            Answer::Unserved(refusal) => panic!(rt; "{text}: {refusal:?}"),
        }
    }
    rt.panic("memory")
}

/// Hands out the next part of the history of a database. If memory is refused, it does so at the
/// second attempt.
pub fn drain<R: Wait + Abort + AllocGlobal, L: UnderLock<BlockStore>>(
    rt: &R,
    shared: &Shared<BlockStore, L>,
    database: usize,
) -> Result<Part<BlockStore>, Refusal> {
    for _ in 0..2 {
        assert!(rt; database < shared.databases());
        match shared.drain(rt, rt.alloc(), database) {
            Err(Refusal::Memory) => {}
            outcome => return outcome,
        }
    }
    rt.panic("memory")
}

/// Closes a sharing that has handed out no part. The close is Ok.
pub fn close_whole<R: Abort + AllocGlobal>(
    rt: &R,
    shared: Shared<BlockStore>,
    passes: Vec<Pass>,
) -> Vec<Closed<BlockStore>> {
    made(rt, shared.close(passes, Vec::new(rt.alloc())), "an audit").closed
}
