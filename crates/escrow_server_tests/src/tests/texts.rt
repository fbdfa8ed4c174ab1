//! Texts of faults and refusals that no script shows.
use escrow_core::Reply;
use escrow_num::{Refusal, Session};
use escrow_reply::{render, render_whole};
use escrow_server::{CloseFault, FreeFault, OpenFault, ServeFault, WriteFault};
use sqlite::{Error, ErrorCode};
use std::io;

/// The texts of system errors with which a store can't be opened, by their numbers.
const SYSTEM: [(i32, &str); 6] = [
    (
        13,
        "permission denied: the file must be readable and writable, and so must its directory, where the log is made",
    ),
    (
        30,
        "permission denied: the file must be readable and writable, and so must its directory, where the log is made",
    ),
    (28, "the disk is full"),
    (12, "out of memory"),
    (95, "it is not a regular file, or it has several hard links"),
    (5, "Input/output error (os error 5)"),
];

/// The texts of SQLite's errors with which a store can't be opened, and with which one can't be
/// closed.
const SQLITE: [(ErrorCode, &str, &str); 4] = [
    (ErrorCode::OutOfMemory, "out of memory", "out of memory"),
    (ErrorCode::DiskFull, "the disk is full", "the disk is full"),
    (
        ErrorCode::DatabaseCorrupt,
        "it is not a store of escrowd: it holds something else, or it is damaged",
        "it can't be read or written",
    ),
    (
        ErrorCode::SystemIoFailure,
        "it can't be read or written",
        "it can't be read or written",
    ),
];

/// The texts of faults of scripts that no script shows.
const SERVED: [(ServeFault, &str); 2] = [
    (ServeFault::Memory, "out of memory"),
    (
        ServeFault::Write(WriteFault::TakesNothing),
        "a reply can't be written: standard output accepts no data",
    ),
];

/// The same, for sessions that run at the same time.
const FREE: [(FreeFault, &str); 5] = [
    (FreeFault::Memory, "out of memory"),
    (
        FreeFault::Write(WriteFault::TakesNothing),
        "a reply can't be written: standard output accepts no data",
    ),
    (FreeFault::Store, "a store can't be read"),
    (FreeFault::Open, "a database has an open transaction"),
    (
        FreeFault::Mismatch,
        "the replies don't match the histories of the databases",
    ),
];

#[test]
fn faults(rt: HostRuntime) {
    for (fault, wanted) in SERVED {
        let text = format!(in rt.alloc(); "{fault}").expect(&rt, "memory");
        assert_eq!(rt; text.as_str(), wanted);
    }
    for (fault, wanted) in FREE {
        let text = format!(in rt.alloc(); "{fault}").expect(&rt, "memory");
        assert_eq!(rt; text.as_str(), wanted);
    }
    for (number, wanted) in SYSTEM {
        let fault = OpenFault::from(io::Error::from_raw_os_error(number));
        let text = format!(in rt.alloc(); "{fault}").expect(&rt, "memory");
        assert_eq!(rt; text.as_str(), wanted);
    }
    for (code, unopened, unclosed) in SQLITE {
        let opening = OpenFault::from(Error::SqliteFailure(code));
        let closing = CloseFault::from(Error::SqliteFailure(code));
        let text = format!(in rt.alloc(); "{opening}|{closing}").expect(&rt, "memory");
        assert_eq!(rt; text.as_str().split_once('|'), Some((unopened, unclosed)));
    }
}

/// Refusals that no script meets, with their texts.
const REFUSALS: [(Refusal, &str); 9] = [
    (
        Refusal::Syntax { column: 65_537 },
        "ERR 11 syntax column 65537",
    ),
    (Refusal::Line, "ERR 12 line"),
    (Refusal::TableFull, "ERR 34 table full"),
    (Refusal::NoMoreIds, "ERR 45 no more ids"),
    (Refusal::Memory, "ERR 51 memory"),
    (Refusal::TranscriptFull, "ERR 52 transcript full"),
    (Refusal::Store, "ERR 60 store"),
    (Refusal::ForeignStore, "ERR 61 foreign store"),
    (Refusal::UnknownVersion, "ERR 62 unknown version"),
];

/// The lines of a session, and those of a whole database.
#[test]
fn refusals(rt: HostRuntime) {
    for (refusal, words) in REFUSALS {
        let reply = Reply::Refused(refusal);
        let line = render(rt.alloc(), "bank", Session::FIRST, &reply).expect(&rt, "memory");
        let whole = render_whole(rt.alloc(), "bank2", &reply).expect(&rt, "memory");
        let line = str::from_utf8(line.as_slice()).unwrap_or_default();
        let whole = str::from_utf8(whole.as_slice()).unwrap_or_default();
        assert_eq!(rt;
            line.strip_prefix("bank.1> ")
                .and_then(|rest| rest.strip_suffix("\n")),
            Some(words)
        );
        assert_eq!(rt;
            whole
                .strip_prefix("bank2> ")
                .and_then(|rest| rest.strip_suffix("\n")),
            Some(words)
        );
    }
}
