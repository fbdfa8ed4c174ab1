//! A screen, which shows the progress of a script.
use crate::drawing::{Layout, Progress, drawing, erasing};
use crate::monitor::{Activity, Monitor, Phase, Told};
use escrow_script::write_whole;
use escrow_stats::{Tally, Watcher};
use sqlite::Alter;
use std::alloc::{AllocError, Global};
use std::io::Write;
use std::sync::{MutexGuard, Wait};
use std::time::{Clock, Duration, Instant};

/// A screen that shows the progress of a script whose sessions run at the same time.
pub trait Screen {
    /// Shows the progress until the script ends, in a thread of its own.
    fn show<S: Alter>(self, alloc: Global, monitor: &Monitor<Watcher<S>>);
}

/// No screen.
pub const NO_SCREEN: Option<NoScreen> = None;

/// A screen that shows nothing.
#[derive(Clone, Copy)]
pub struct NoScreen;

impl Screen for NoScreen {
    fn show<S: Alter>(self, _alloc: Global, _monitor: &Monitor<Watcher<S>>) {}
}

/// A terminal, which shows the progress of a phase that takes long. One line has the phase, how
/// many of its statements were served, and how many it has. Below, a line for each database has how
/// many statements it served since the script began, and how many of these were granted, broken and
/// commits. If the databases are too many for the terminal, the first ones are shown, and a line
/// says how many more there are.
///
/// The lines appear a pause after the phase began. After each further pause, new lines replace
/// them. They are erased before the replies of the phase are written, since these may go to the
/// same terminal.
///
/// If there is no clock, nothing is shown. What the writer refuses, or memory is refused for, is
/// left out.
#[derive(Drop)]
pub struct Terminal<P, Q> {
    /// Waits, and has the clock.
    pub rt: P,
    /// Writes to the terminal.
    pub writer: Q,
    /// The pause before each drawing.
    pub pause: Duration,
    /// The least number of rows that the terminal has.
    pub rows: usize,
}

impl<P: Wait + Clock + Drop, Q: Write + Drop> Screen for Terminal<P, Q> {
    fn show<S: Alter>(self, alloc: Global, monitor: &Monitor<Watcher<S>>) {
        let Terminal {
            rt,
            mut writer,
            pause,
            rows,
        } = self;
        draw_all(&rt, &mut writer, pause, rows, alloc, monitor);
    }
}

/// Draws what watchers read in each phase, until the script ends. May wait.
fn draw_all<S: Alter, P: Wait + Clock, Q: Write>(
    rt: &P,
    writer: &mut Q,
    pause: Duration,
    rows: usize,
    alloc: Global,
    monitor: &Monitor<Watcher<S>>,
) {
    let mut told = monitor.told(rt);
    for _ in rt.forever() {
        told = monitor.wait_between(rt, told);
        // Without a clock there is no pause.
        if told.activity == Activity::Over || Instant::now(rt).is_err() {
            break;
        }
        told = draw_phase(rt, writer, pause, rows, alloc, monitor, told);
    }
}

/// Draws what watchers read until a phase has ended, and then erases it. May wait.
fn draw_phase<'a, S: Alter, P: Wait + Clock, Q: Write>(
    rt: &P,
    writer: &mut Q,
    pause: Duration,
    rows: usize,
    alloc: Global,
    monitor: &Monitor<Watcher<S>>,
    mut told: MutexGuard<'a, Told<Watcher<S>>>,
) -> MutexGuard<'a, Told<Watcher<S>>> {
    let activity = told.activity;
    let Activity::Phase(phase) = activity else {
        return told;
    };
    for _ in rt.forever() {
        told = monitor.wait_at(rt, told, activity, pause);
        if told.activity != activity || Instant::now(rt).is_err() {
            break;
        }
        let is_drawn = told.is_drawn;
        if draw(writer, rows, alloc, phase, is_drawn, &mut told.watchers).is_ok() {
            told.is_drawn = true;
        }
    }
    if told.is_drawn {
        let layout = Layout::new(rows, told.watchers.len());
        let _ = erase(writer, alloc, layout.height());
        monitor.clear(&mut *told);
    }
    told
}

/// Draws the progress of a phase, as watchers read it now. Fails only if memory is refused.
fn draw<S: Alter, Q: Write>(
    writer: &mut Q,
    rows: usize,
    alloc: Global,
    phase: Phase,
    is_drawn: bool,
    watchers: &mut Vec<Watcher<S>>,
) -> Result<(), AllocError> {
    let mut tallies: Vec<Tally> = Vec::new(alloc);
    let mut served = 0_u64;
    for watcher in watchers.iter_mut() {
        let tally = watcher.read();
        served = served.saturating_add(tally.served);
        tallies.push(tally)?;
    }
    let progress = Progress {
        phase: phase.number,
        served: served.saturating_sub(phase.served_before),
        statements: phase.statements,
    };
    let layout = Layout::new(rows, tallies.len());
    let text = drawing(alloc, is_drawn, progress, layout, tallies.as_slice())?;
    let _ = write_whole(writer, text.as_bytes());
    Ok(())
}

/// Returns how many statements all databases have served, as their watchers read it now.
pub(crate) fn served_by_all<S: Alter>(watchers: &mut Vec<Watcher<S>>) -> u64 {
    let mut served = 0_u64;
    for watcher in watchers.iter_mut() {
        served = served.saturating_add(watcher.read().served);
    }
    served
}

/// Erases this many lines that were drawn. Fails only if memory is refused.
fn erase<Q: Write>(writer: &mut Q, alloc: Global, lines: usize) -> Result<(), AllocError> {
    let text = erasing(alloc, lines)?;
    let _ = write_whole(writer, text.as_bytes());
    Ok(())
}
