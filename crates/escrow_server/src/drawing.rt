//! What is sent to a terminal to show the progress of a script.
ghost use Rattle.std.specs.Prelude.{◌≡◌, ◌<◌, ◌≤◌, ◌++◌, IfOk, OnOk, string_bytes, slice_get};
ghost use Rattle.escrow_server.specs.Drawing.{back_text, drawing_text, erasing_text, height, line_text, lines_text, more_text, over_text, phase_text, shown_text, totals_text};

use escrow_script::{MAX_DATABASES, database_name};
use escrow_stats::Tally;
use std::alloc::{AllocError, Global};

/// The progress of a phase.
#[derive(Clone, Copy)]
pub(crate) struct Progress {
    /// Its number, from 1.
    pub(crate) phase: u64,
    /// How many of its statements were served.
    pub(crate) served: u64,
    /// How many it has.
    pub(crate) statements: usize,
}

/// Which databases have a line.
#[derive(Clone, Copy)]
pub(crate) struct Layout {
    /// How many of them, the first ones.
    pub(crate) shown: usize,
    /// How many more there are, which have one line together.
    pub(crate) more: usize,
}

impl Layout {
    ghost use Rattle.std.specs.Prelude.{◌≡◌, ◌≤◌};
    ghost use Rattle.escrow_script.specs.declared.limits.TheConstants.{MAX_DATABASES};
    ghost use Rattle.escrow_server.specs.Drawing.{height};

    /// Returns the layout of this many databases on a terminal with this many rows. One row is for
    /// the phase. The cursor is in the last row, so that the terminal doesn't scroll.
    pub(crate) fn new(rows: usize, databases: usize) -> Self
        ensures { result.shown ≤ MAX_DATABASES }
    {
        let room = rows.saturating_sub(2).min(usize::from(MAX_DATABASES));
        if databases <= room {
            Layout {
                shown: databases,
                more: 0,
            }
        } else if room == 0 {
            Layout { shown: 0, more: 0 }
        } else {
            let shown = room - 1;
            Layout {
                shown,
                more: databases - shown,
            }
        }
    }

    /// Returns how many lines a drawing has.
    pub(crate) fn height(self) -> usize
        requires { self.shown ≤ MAX_DATABASES }
        ensures { result ≡ height self.shown self.more }
    {
        if self.more == 0 {
            self.shown + 1
        } else {
            self.shown + 2
        }
    }
}

/// Returns a drawing: a line for the phase, one for each database that has one, in their order, and
/// one for those that have none. If lines were drawn before, and the cursor is below them, it is
/// drawn over them. Text that is too long for a row of the terminal is cut off.
pub(crate) fn drawing(
    alloc: Global,
    is_drawn: bool,
    progress: Progress,
    layout: Layout,
    tallies: &[Tally],
) -> Result<String, AllocError>
    requires { layout.shown ≤ MAX_DATABASES }
    ensures { IfOk result (λ text. string_bytes text ≡ drawing_text is_drawn progress layout tallies.now) }
{
    let over = over(alloc, is_drawn, layout.height())?;
    let phase = phase(alloc, progress)?;
    let lines = lines(alloc, tallies, layout.shown)?;
    let more = more(alloc, layout.more)?;
    format!(in alloc; "{over}\u{1b}[?7l{phase}{lines}{more}\u{1b}[?7h")
}

/// Returns the line of a phase.
fn phase(alloc: Global, progress: Progress) -> Result<String, AllocError>
    ensures { IfOk result (λ text. string_bytes text ≡ phase_text progress) }
{
    let Progress {
        phase,
        served,
        statements,
    } = progress;
    format!(in alloc; "phase {phase}: {served} of {statements} statements\u{1b}[K\n")
}

/// Returns the line for this many databases that have no line of their own, if there are any.
fn more(alloc: Global, count: usize) -> Result<String, AllocError>
    ensures { IfOk result (λ text. string_bytes text ≡ more_text count) }
{
    if count == 0 {
        Ok(String::new(alloc))
    } else {
        format!(in alloc; "and {count} more databases\u{1b}[K\n")
    }
}

/// Returns what erases this many lines above the cursor.
pub(crate) fn erasing(alloc: Global, lines: usize) -> Result<String, AllocError>
    ensures { IfOk result (λ text. string_bytes text ≡ erasing_text lines) }
{
    let back = back(alloc, lines)?;
    format!(in alloc; "{back}\u{1b}[J")
}

/// Returns what moves the cursor up to where this many lines were drawn, if they were.
fn over(alloc: Global, is_drawn: bool, lines: usize) -> Result<String, AllocError>
    ensures { IfOk result (λ text. string_bytes text ≡ over_text is_drawn lines) }
{
    if is_drawn {
        back(alloc, lines)
    } else {
        Ok(String::new(alloc))
    }
}

/// Returns what moves the cursor up this many rows, to the first column.
fn back(alloc: Global, rows: usize) -> Result<String, AllocError>
    ensures { IfOk result (λ text. string_bytes text ≡ back_text rows) }
{
    format!(in alloc; "\r\u{1b}[{rows}A")
}

/// Returns the lines of the first `shown` databases.
fn lines(alloc: Global, tallies: &[Tally], shown: usize) -> Result<String, AllocError>
    requires { shown ≤ MAX_DATABASES }
    ensures { IfOk result (λ text. string_bytes text ≡ lines_text tallies.now shown) }
{
    let mut text = String::new(alloc);
    for place in 0..shown {
        push_line(alloc, &mut text, tallies, place)?;
    }
    Ok(text)
}

/// Adds the line of the database at a place, if there is one.
fn push_line(
    alloc: Global,
    text: &mut String,
    tallies: &[Tally],
    place: usize,
) -> Result<(), AllocError>
    requires { place < MAX_DATABASES }
    ensures { OnOk result (string_bytes text.new ≡ string_bytes text.old
        ++ shown_text place (slice_get tallies.now place)) }
{
    if let Some(tally) = tallies.get(place) {
        let line = line(alloc, place, tally)?;
        text.push_str(line.as_str())?;
    }
    Ok(())
}

/// Returns the line of the database at a place. It clears what was after it in its row.
fn line(alloc: Global, place: usize, tally: &Tally) -> Result<String, AllocError>
    requires { place < MAX_DATABASES }
    ensures { IfOk result (λ text. string_bytes text ≡ line_text place tally.now) }
{
    let name = database_name(place);
    let totals = totals(alloc, tally)?;
    format!(in alloc; "{name}{totals}\u{1b}[K\n")
}

/// Returns the text after the name of a database.
fn totals(alloc: Global, tally: &Tally) -> Result<String, AllocError>
    ensures { IfOk result (λ text. string_bytes text ≡ totals_text tally.now) }
{
    let Tally {
        served,
        granted,
        broken,
        commits,
        ..
    } = *tally;
    format!(in alloc; ": served {served} granted {granted} broken {broken} commits {commits}")
}
