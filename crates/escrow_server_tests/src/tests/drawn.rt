//! What is sent to a terminal while the sessions of a phase run at the same time.
use super::program::run_line;
use escrow_server::{Duplex, Terminal};
use std::alloc::Global;
use std::io::{self, Write};
use std::process::{Abort, ExitCode};
use std::sync::{Arc, Mutex, Wait};
use std::thread::Threads;
use std::time::{Clock, Duration};

/// The bytes that were sent to a terminal.
type Sent = Arc<Mutex<Vec<u8>>, Global>;

/// A terminal that keeps what is sent to it: what is drawn, and the replies.
#[derive(Drop)]
struct Tape<R> {
    rt: R,
    sent: Sent,
}

impl<R: Wait + Drop> Write for Tape<R> {
    fn write(&mut self, buf: &[u8]) -> io::Result<usize> {
        self.sent.lock(&self.rt).extend_from_slice(buf)?;
        Ok(buf.len())
    }

    fn flush(&mut self) -> io::Result<()> {
        Ok(())
    }
}

/// Two sessions of the second database ask, over and over.
const ASKED: &str = "bank2.1: COMMIT\nbank2.2: COMMIT\n";

const ANSWERED: &str = "bank2.1> OK committed 0\nbank2.2> OK committed 0\n";

/// The beginning of a drawing of the first phase, up to how many statements of the phase were
/// served; and that of the last phase.
const FIRST: &str = "\u{1b}[?7lphase 1: ";

const LAST: &str = "\u{1b}[?7lphase 2: ";

/// The text after that number, up to the first total of the second database.
const BESIDE: &str =
    " of 10000 statements\u{1b}[K\nbank: served 0 granted 0 broken 0 commits 0\u{1b}[K\nbank2: served ";

/// The text after the line of the second database.
const END: &str = "\u{1b}[K\n\u{1b}[?7h";

/// The codes that erase three lines.
const ERASED: &str = "\r\u{1b}[3A\u{1b}[J";

/// Lines are drawn over and over, the last ones with totals that were read together, and are erased
/// before the replies. The last phase may be drawn too.
fn check_drawn<R: Abort>(rt: &R, sent: &[u8], replies: &str) {
    let sent = str::from_utf8(sent).unwrap_or_default();
    let (drawn, rest) = sent.split_once(ERASED).expect(rt, "what erases");
    assert!(rt; !drawn.contains("OK"));
    let (_, lines) = drawn.rsplit_once("phase 1: ").expect(rt, "a phase");
    let (of_phase, line) = lines.split_once(BESIDE).expect(rt, "a line");
    let (served, totals) = line
        .split_once(" granted 0 broken 0 commits ")
        .expect(rt, "totals");
    assert_eq!(rt; of_phase, served);
    assert_eq!(rt; totals.strip_suffix(END), Some(served));
    let last = rest.strip_prefix(replies).expect(rt, "replies");
    let before = last.strip_suffix(ANSWERED).expect(rt, "the last replies");
    let is_drawn = before.starts_with(LAST) && before.ends_with(ERASED);
    assert!(rt; before.is_empty() || is_drawn);
}

/// Lines are drawn while the sessions of a phase run at the same time. A phase may be too short to
/// be seen, so it is tried again. If lines are served one after another, nothing is drawn.
#[test]
fn drawn_and_erased(rt: HostRuntime) {
    let sent = Arc::new(rt.alloc(), Mutex::new(Vec::new(rt.alloc()))).expect(&rt, "memory");
    let mut script = String::new(rt.alloc());
    let mut replies = String::new(rt.alloc());
    for _ in 0..5_000 {
        script.push_str(ASKED).expect(&rt, "memory");
        replies.push_str(ANSWERED).expect(&rt, "memory");
    }
    script.push_str("@join\n").expect(&rt, "memory");
    script.push_str(ASKED).expect(&rt, "memory");
    for _ in 0..100 {
        sent.lock(&rt).clear();
        serve(rt, &rt, &rt, b"free|--databases|2", script.as_str(), &sent);
        if sent.lock(&rt).starts_with(FIRST.as_bytes()) {
            break;
        }
    }
    check_drawn(&rt, sent.lock(&rt).as_slice(), replies.as_str());
    sent.lock(&rt).clear();
    serve(rt, &rt, &rt, b"run|--databases|2", script.as_str(), &sent);
    replies.push_str(ANSWERED).expect(&rt, "memory");
    assert!(rt; sent.lock(&rt).as_slice() == replies.as_bytes());
}

/// Serves a script to its end. The replies and what a screen shows, with the shortest pause, go to
/// one terminal. May wait.
fn serve<R: Wait + Clock + Copy + Drop + Send + 'static, T: Abort + Threads + Wait + Sync>(
    own: R,
    rt: &HostRuntime,
    to: &T,
    line: &[u8],
    script: &str,
    sent: &Sent,
) {
    let output = Tape {
        rt: own,
        sent: Arc::try_clone(sent).expect(to, "memory"),
    };
    let writer = Tape {
        rt: own,
        sent: Arc::try_clone(sent).expect(to, "memory"),
    };
    let screen = Terminal {
        rt: own,
        writer,
        pause: Duration::from_millis(1),
        rows: 24,
    };
    let mut client = Duplex {
        reader: script.as_bytes(),
        writer: output,
    };
    let mut errors = Vec::new(rt.alloc());
    let code = run_line(rt, to, line, &mut client, &mut errors, Some(screen));
    assert!(to; code == ExitCode::SUCCESS && errors.is_empty());
}
