//! The program `escrowd`: gives the runtime, its command line and its streams to the library.
#![tactic(auto)]

use escrow_server::{Duplex, Mode, Terminal, read_line, run_at_once, run_in_turn};
use std::env;
use std::io::{IsTerminal, Stderr};
use std::process::ExitCode;
use std::time::Duration;

/// The pause, in milliseconds, before the progress of a phase is shown again.
const PAUSE: u64 = 500;

fn main(rt: HostRuntime) -> ExitCode {
    let mut client = Duplex {
        reader: rt.stdin(),
        writer: rt.stdout(),
    };
    let mut errors = rt.stderr();
    let args = match read_line(rt.alloc(), &rt, &mut client.writer, &mut errors) {
        Ok(args) => args,
        Err(code) => return code,
    };
    match args.mode {
        Mode::Run | Mode::Serve => run_in_turn(&rt, &args, &mut client, &mut errors),
        Mode::Free => run_at_once(&rt, &rt, &args, &mut client, &mut errors, terminal(rt)),
    }
}

/// The assumed number of a terminal's rows, if LINES doesn't give it. The kit has no call that asks
/// the terminal, and few terminals have fewer.
const ROWS: usize = 10;

/// Returns standard error, if it is a terminal that obeys codes which move its cursor.
fn terminal(rt: HostRuntime) -> Option<Terminal<HostRuntime, Stderr>> {
    let writer = rt.stderr();
    if !writer.is_terminal() || !moves_cursor(&rt) {
        return None;
    }
    let rows = rows(&rt);
    let pause = Duration::from_millis(PAUSE);
    Some(Terminal {
        rt,
        writer,
        pause,
        rows,
    })
}

/// Returns whether the terminal has a name, in TERM, other than `dumb`. A dumb terminal shows codes
/// instead of obeying them.
fn moves_cursor(rt: &HostRuntime) -> bool {
    match env::var(rt, "TERM") {
        Ok(name) => !name.is_empty() && name.as_str() != "dumb",
        Err(_) => false,
    }
}

/// Returns the number of the terminal's rows: LINES, if it is a number.
fn rows(rt: &HostRuntime) -> usize {
    match env::var(rt, "LINES") {
        Ok(rows) => rows.as_str().parse::<usize>().unwrap_or(ROWS),
        Err(_) => ROWS,
    }
}
