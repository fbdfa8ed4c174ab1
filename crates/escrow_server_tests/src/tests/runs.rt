//! Readers and writers that fail after each byte, and how often the program writes, in each mode.
use super::program::{Run, SERVED, check};

const READ: &str = "escrowd: the script can't be read: Input/output error (os error 5)\n";

/// Returns what is printed about a writer that accepted this many bytes. At an even number it
/// accepts nothing more, and at an odd one it fails.
fn write_fault(room: usize) -> &'static str {
    if room % 2 == 0 {
        "escrowd: a reply can't be written: standard output accepts no data\n"
    } else {
        "escrowd: a reply can't be written: No space left on device (os error 28)\n"
    }
}

/// Three phases, and their replies.
pub(super) const THREE: &str =
    "bank.1: COMMIT\n@join\nbank.2: ROLLBACK\nshop.1: COMMIT\n@join\nbank.1: COMMIT\n";

pub(super) const THREE_REPLIES: &str =
    "bank.1> OK committed 0\nbank.2> OK rolled back 0\nscript> ERR 12 line\nbank.1> OK committed 0\n";

/// From how many bytes of that script on, how many bytes of its replies must be written: line by
/// line, and phase by phase.
type Due = &'static [(usize, usize)];

const BY_LINES: Due = &[(0, 0), (15, 23), (38, 48), (53, 68), (74, 91)];

pub(super) const BY_PHASES: Due = &[(0, 0), (21, 23), (59, 68)];

/// Returns how many bytes of replies must be written once this many bytes of the script were read.
pub(super) fn due(due: Due, read: usize) -> usize {
    let mut written = 0;
    for (from, bytes) in due {
        if *from <= read {
            written = *bytes;
        }
    }
    written
}

/// Wherever the reader fails, the replies to the lines, or the phases, that had come completely are
/// written before the fault.
#[test]
fn failing_readers(rt: HostRuntime) {
    for (line, dues) in [
        (b"run".as_slice(), BY_LINES),
        (b"serve", BY_LINES),
        (b"free", BY_PHASES),
    ] {
        for read in 0..=THREE.len() {
            let run = Run {
                line,
                at_a_time: 3,
                fails: true,
                status: 1,
                errors: READ,
                ..SERVED
            };
            let script = THREE.get(..read).expect(&rt, "a script");
            let replies = THREE_REPLIES.get(..due(dues, read)).expect(&rt, "replies");
            check(&rt, &rt, &run, script, replies);
        }
    }
}

/// An account that two sessions change, one in each of two phases, and that is shown in a third;
/// and the replies.
const ACCOUNT: &str =
    "bank.1: CREATE TABLE ACCOUNT (ID INTEGER PRIMARY KEY, BALANCE INTEGER RESERVABLE CONSTRAINT MINIMUM_BALANCE CHECK (BALANCE >= 50))
bank.1: INSERT INTO ACCOUNT VALUES (1, 100)
bank.1: UPDATE ACCOUNT SET BALANCE = BALANCE - 30 WHERE ID = 1
@join
bank.2: UPDATE ACCOUNT SET BALANCE = BALANCE + 5 WHERE ID = 1
@join
bank.1: SELECT * FROM ACCOUNT WHERE ID = 1
bank.1: SHOW BOUNDS ACCOUNT WHERE ID = 1
bank.1: SHOW JOURNAL
";

const ACCOUNT_REPLIES: &str = "bank.1> OK created ACCOUNT
bank.1> OK inserted
bank.1> OK reserved 1
bank.2> OK reserved 2
bank.1> ID | BALANCE
bank.1> 1 | 100
bank.1> OK rows 1
bank.1> BALANCE value 100 inf 70 sup 105
bank.1> CHECK MINIMUM_BALANCE least 70 greatest 105 low 50 high none
bank.1> OK bounds
bank.1> 1 session 1 ACCOUNT 1 BALANCE -30
bank.1> 2 session 2 ACCOUNT 1 BALANCE +5
bank.1> OK reservations 2
";

/// Wherever the writer fails, a prefix of the replies is written before the fault.
#[test]
fn failing_writers(rt: HostRuntime) {
    for line in [b"run".as_slice(), b"serve", b"free"] {
        for room in 0..=ACCOUNT_REPLIES.len() {
            let is_whole = room == ACCOUNT_REPLIES.len();
            let run = Run {
                line,
                room,
                status: u8::from(!is_whole),
                errors: if is_whole { "" } else { write_fault(room) },
                ..SERVED
            };
            let replies = ACCOUNT_REPLIES.get(..room).expect(&rt, "replies");
            check(&rt, &rt, &run, ACCOUNT, replies);
        }
    }
}

/// A script's lines and their replies, how often they are repeated, how many bytes a read returns,
/// and how often the program writes then.
type Written = (&'static str, &'static str, u16, usize, usize);

const LINES: &str = "bank.1: COMMIT\nbank.2: ROLLBACK\nshop.1: COMMIT\n";

const LINES_REPLIES: &str =
    "bank.1> OK committed 0\nbank.2> OK rolled back 0\nscript> ERR 12 line\n";

/// The last case gathers replies past 65,536 bytes, which are written though a line is in hand.
const WRITTEN: [Written; 6] = [
    (LINES, LINES_REPLIES, 500, 4700, 5),
    (LINES, LINES_REPLIES, 500, 470, 50),
    (LINES, LINES_REPLIES, 500, 47, 500),
    (LINES, LINES_REPLIES, 500, 5, 1500),
    (LINES, LINES_REPLIES, 500, 1, 1500),
    ("x\n", "script> ERR 12 line\n", 4096, 8192, 2),
];

/// Lines that come together are answered together, in one write. Lines that come one by one, or
/// byte by byte, are answered one by one.
#[test]
fn one_write_a_read(rt: HostRuntime) {
    for (lines, line_replies, times, at_a_time, calls) in WRITTEN {
        let mut script = String::new(rt.alloc());
        let mut replies = String::new(rt.alloc());
        for _ in 0..times {
            script.push_str(lines).expect(&rt, "memory");
            replies.push_str(line_replies).expect(&rt, "memory");
        }
        let run = Run {
            at_a_time,
            ..SERVED
        };
        let written = check(&rt, &rt, &run, script.as_str(), replies.as_str());
        assert_eq!(rt; written, calls, "{at_a_time} bytes at a time");
    }
}
