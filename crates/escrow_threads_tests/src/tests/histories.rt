//! Transcripts beside a database: how many entries they have, and where each begins.
use super::databases::{CREATE, INSERT, TAKE, check_reply, check_shown, database, statement};
use super::results::{made, refused};
use escrow_core::Database;
use escrow_history::{Audited, Unserved};
use escrow_memory::BlockStore;
use escrow_num::{Failure, Refusal, Session};
use escrow_transcript::{Base, Transcript};
use std::process::Abort;

/// The most entries of a transcript.
const MOST: usize = 65_536;

/// The reply to a COMMIT when there is nothing to commit.
const NOTHING: &str = "bank.1> OK committed 0\n";

/// Begins the transcript of a database. If memory is refused, the database is returned, and the
/// transcript begins at the second attempt.
pub fn audited<R: Abort + AllocGlobal>(
    rt: &R,
    database: Database<BlockStore>,
) -> Audited<BlockStore> {
    match Audited::make(rt.alloc(), database) {
        Ok(audited) => audited,
        Err((database, refusal)) => {
            assert_eq!(rt; refusal.number(), 51);
            made(rt, Audited::make(rt.alloc(), database), "a history")
        }
    }
}

/// Serves a statement of a session, compares the printed reply, and returns the number of the
/// entry. If memory is refused, the transcript is as long as before, and the statement is served at
/// the second attempt.
pub fn serve<R: Abort + AllocGlobal>(
    rt: &R,
    audited: &mut Audited<BlockStore>,
    session: Session,
    text: &str,
    wanted: &str,
) -> u64 {
    let asked = statement(rt, text);
    let count = audited.entries().len();
    for _ in 0..2 {
        match audited.serve(rt.alloc(), session, &asked) {
            Ok(served) => {
                check_shown(rt, session, &served.reply, wanted);
                return served.number;
            }
            Err(Unserved::Failed(Failure::Memory)) => {
                assert_eq!(rt; audited.entries().len(), count);
            }
            Err(_) => rt.panic("served"),
        }
    }
    rt.panic("memory")
}

/// Hands out the transcript, and the base where it ends. If memory is refused, the transcript is as
/// it was, and is handed out at the second attempt.
pub fn drain<R: Abort + AllocGlobal>(
    rt: &R,
    audited: &mut Audited<BlockStore>,
) -> (Transcript, Base) {
    let before = (audited.entries().len(), audited.base().before);
    match audited.drain(rt.alloc()) {
        Ok(drained) => drained,
        Err(refusal) => {
            assert_eq!(rt; refusal.number(), 51);
            assert_eq!(rt; (audited.entries().len(), audited.base().before), before);
            made(rt, audited.drain(rt.alloc()), "a transcript")
        }
    }
}

/// A full transcript accepts no more entries, whatever is asked. Once it is handed out, the next
/// one continues with the next number.
#[test]
fn full_transcript(rt: HostRuntime) {
    let mut audited = audited(&rt, database(&rt, &[]));
    for _ in 0..MOST {
        serve(&rt, &mut audited, Session::FIRST, "COMMIT", NOTHING);
    }
    for text in ["COMMIT", "DROP TABLE NONE"] {
        let outcome = audited.serve(rt.alloc(), Session::FIRST, &statement(&rt, text));
        let unserved = refused(&rt, outcome, "full");
        assert!(rt; matches!(&unserved, Unserved::Full), "{text}");
        assert_eq!(rt; unserved.refusal().number(), 52, "{text}");
    }
    let (transcript, end) = drain(&rt, &mut audited);
    assert_eq!(rt; transcript.entries.len(), MOST);
    assert_eq!(rt; end.before, 65_536);
    let number = serve(&rt, &mut audited, Session::FIRST, "COMMIT", NOTHING);
    assert_eq!(rt; number, 65_537);
    assert_eq!(rt; audited.entries().len(), 1);
}

/// Room for entries is taken in advance, for as many as the transcript may still get. An entry uses
/// one place at most.
#[test]
fn room_ahead(rt: HostRuntime) {
    let mut audited = audited(&rt, database(&rt, &[]));
    made(&rt, audited.make_room(3), "room");
    for left in [2, 1, 0] {
        serve(&rt, &mut audited, Session::FIRST, "COMMIT", NOTHING);
        assert!(rt; audited.room() >= left);
    }
    let refusal = refused(&rt, audited.make_room(65_534), "room");
    assert!(rt; refusal == Refusal::TranscriptFull);
    made(&rt, audited.make_room(65_533), "room");
    assert_eq!(rt; audited.room(), 65_533);
    assert_eq!(rt; audited.entries().len(), 3);
}

/// No transcript begins or ends while something is open: everything stays as it was.
#[test]
fn open_transaction(rt: HostRuntime) {
    let open = database(&rt, &[CREATE, INSERT, TAKE]);
    let (mut database, refusal) = refused(&rt, Audited::make(rt.alloc(), open), "open");
    assert!(rt; refusal == Refusal::TransactionOpen);
    check_reply(&rt, &mut database, "COMMIT", "bank.1> OK committed 1\n");
    let mut audited = audited(&rt, database);
    serve(
        &rt,
        &mut audited,
        Session::FIRST,
        "SAVEPOINT A",
        "bank.1> OK savepoint A\n",
    );
    let refusal = refused(&rt, audited.drain(rt.alloc()), "open");
    assert!(rt; refusal == Refusal::TransactionOpen);
    serve(
        &rt,
        &mut audited,
        Session::FIRST,
        "ROLLBACK",
        "bank.1> OK rolled back 0\n",
    );
    let (transcript, _) = drain(&rt, &mut audited);
    assert_eq!(rt; transcript.entries.len(), 2);
}
