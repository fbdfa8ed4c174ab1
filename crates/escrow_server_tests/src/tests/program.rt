//! Runs of the program.
use super::streams::{Sink, Source};
use escrow_server::{Duplex, Mode, NO_SCREEN, Screen, read_line, run_at_once, run_in_turn};
use std::cell::Cell;
use std::env::{Env, FillError};
use std::io::{Read, Write};
use std::process::{Abort, ExitCode};
use std::sync::Wait;
use std::thread::Threads;

/// A command line: the words after the program's name, with `|` between them.
#[derive(Drop)]
struct CommandLine<'a>(&'a [u8]);

impl Env for CommandLine<'_> {
    fn arg(&self, i: usize, buf: &mut [u8]) -> Result<usize, FillError> {
        let word = match i.checked_sub(1) {
            None => Some(b"escrowd".as_slice()),
            Some(place) => self.0.split(|byte| *byte == b'|').nth(place),
        };
        let Some(word) = word else {
            return Err(FillError::NotPresent);
        };
        let Some(front) = buf.get_mut(..word.len()) else {
            return Err(FillError::TooLong);
        };
        front.copy_from_slice(word);
        Ok(word.len())
    }

    fn var(&self, _name: &str, _buf: &mut [u8]) -> Result<usize, FillError> {
        Err(FillError::NotPresent)
    }

    fn var_at(&self, _i: usize, _buf: &mut [u8]) -> Result<usize, FillError> {
        Err(FillError::NotPresent)
    }
}

/// Runs the program as its `main` does. May wait.
pub(super) fn run_line<
    T: Threads + Wait + Sync,
    R: Read,
    W: Write,
    F: Write,
    X: Screen + Send + Drop + 'static,
>(
    rt: &HostRuntime,
    to: &T,
    line: &[u8],
    client: &mut Duplex<R, W>,
    errors: &mut F,
    screen: Option<X>,
) -> ExitCode {
    let args = match read_line(rt.alloc(), &CommandLine(line), &mut client.writer, errors) {
        Ok(args) => args,
        Err(code) => return code,
    };
    match args.mode {
        Mode::Run | Mode::Serve => run_in_turn(rt, &args, client, errors),
        Mode::Free => run_at_once(rt, to, &args, client, errors, screen),
    }
}

/// A run of the program over streams of a test's own, and what it must show.
#[derive(Clone, Copy)]
pub(super) struct Run {
    /// The command line.
    pub(super) line: &'static [u8],
    /// How many bytes of the script a read returns, and whether the reader fails after the script.
    pub(super) at_a_time: usize,
    pub(super) fails: bool,
    /// How many bytes the output accepts.
    pub(super) room: usize,
    pub(super) status: u8,
    pub(super) errors: &'static str,
}

/// A run that serves a script to its end.
pub(super) const SERVED: Run = Run {
    line: b"run",
    at_a_time: usize::MAX,
    fails: false,
    room: usize::MAX,
    status: 0,
    errors: "",
};

/// Runs the program over a script, and compares its status, its replies and its errors. Returns how
/// often it wrote to the output. May wait.
pub(super) fn check<T: Abort + Threads + Wait + Sync>(
    rt: &HostRuntime,
    to: &T,
    run: &Run,
    script: &str,
    replies: &str,
) -> usize {
    let written = Cell::new(0);
    let reader = Source {
        rest: script.as_bytes(),
        at_a_time: run.at_a_time,
        fails: run.fails,
        given: 0,
        written: &written,
        reads: Vec::new(rt.alloc()),
    };
    let writer = Sink {
        taken: Vec::new(rt.alloc()),
        room: run.room,
        at_a_time: if run.room == usize::MAX {
            usize::MAX
        } else {
            7
        },
        is_silent: run.room % 2 == 0,
        calls: 0,
        written: &written,
    };
    let mut client = Duplex { reader, writer };
    let mut said = Vec::new(rt.alloc());
    let code = run_line(rt, to, run.line, &mut client, &mut said, NO_SCREEN);
    let words = str::from_utf8(run.line).unwrap_or_default();
    let told = str::from_utf8(said.as_slice()).unwrap_or_default();
    let answered = str::from_utf8(client.writer.taken.as_slice()).unwrap_or_default();
    assert_eq!(to; told, run.errors, "{words}");
    assert_eq!(to; answered, replies, "{words}");
    assert!(to; code == ExitCode::from(run.status), "{words}");
    client.writer.calls
}
