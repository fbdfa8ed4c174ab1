//! Stores over files in memory that stop at each of their calls in turn. The store that is opened next shows what was
//! shown before the stopped statement, or after it.
use super::databases::{Bank, Disks, OverFiles, ask, ask_at_once, file_with};
use super::plans::{ALTERED, COMMITTED, INSERTED, LARGE, MADE, MIGRATED, Plan, TOGETHER};
use sqlite_disk::{Crash, Fuse, Memory};
use std::alloc::{AllocError, Global};
use std::process::Abort;
use std::test::Fail;

/// A plan over a database file, and what its queries show.
#[derive(Drop)]
struct Trial<'a> {
    plan: &'a Plan,
    /// The database file at first. The log is empty.
    file: &'a [u8],
    /// What the queries show: first for the files as they are, then after no statement, after one,
    /// and so on.
    found: &'a [String],
    frames: usize,
}

/// Returns what the queries show, preceded by whether the store was migrated.
fn shown<R: Abort + AllocGlobal, B: Bank>(
    rt: &R,
    bank: &mut B,
    queries: &[&str],
    migrated: bool,
) -> Result<String, Fail> {
    let mut text = String::new(rt.alloc());
    if migrated {
        text.push_str("migrated\n")?;
    }
    for query in queries {
        let reply = ask(rt, bank, 1, query)?;
        text.push_str(reply.as_str())?;
    }
    Ok(text)
}

/// Runs a plan over files that do not stop, and compares the replies. Returns what the queries show at each place.
fn find<R: Abort + AllocGlobal, B: Bank>(
    rt: &R,
    plan: &Plan,
    file: &[u8],
) -> Result<Vec<String>, Fail> {
    let alloc = rt.alloc();
    let disks = Disks::new(alloc, [&[], file], [u64::MAX; 2])?;
    let opened: Option<(B, bool)> = B::open(alloc, disks, 1000, true).ok();
    let (mut bank, migrated) = opened.expect(rt, "a store");
    let mut found = Vec::new(alloc);
    found.push(shown(rt, &mut bank, plan.queries, migrated)?)?;
    found.push(shown(rt, &mut bank, plan.queries, false)?)?;
    for (statement, reply) in plan.asked {
        let got = ask(rt, &mut bank, 1, statement)?;
        assert_eq!(rt; got.as_str(), *reply, "{statement}");
        found.push(shown(rt, &mut bank, plan.queries, false)?)?;
    }
    for (number, statement, reply) in plan.at_once {
        let got = ask(rt, &mut bank, *number, statement)?;
        assert_eq!(rt; got.as_str(), *reply, "{statement}");
        found.push(shown(rt, &mut bank, plan.queries, false)?)?;
    }
    Ok(found)
}

/// Runs a plan until the store refuses a statement. Returns the place of what is shown next, whether the store was
/// closed, and the files.
fn serve<R: Abort + AllocGlobal, B: Bank>(
    rt: &R,
    trial: &Trial<'_>,
    disks: Disks,
) -> Result<(usize, bool, Disks), Fail> {
    let mut bank: B = match B::open(rt.alloc(), disks, trial.frames, true) {
        Ok((bank, _)) => bank,
        Err((number, disks)) => {
            assert_eq!(rt; number, 60);
            return Ok((0, false, disks));
        }
    };
    let asked = trial.plan.asked;
    for (place, (statement, reply)) in asked.iter().enumerate() {
        let got = ask(rt, &mut bank, 1, statement)?;
        if got.as_str() == "bank.1> ERR 60 store\n" {
            return Ok((place.saturating_add(1), false, bank.stop()));
        }
        assert_eq!(rt; got.as_str(), *reply);
    }
    let served = asked.len().saturating_add(1);
    let at_once = trial.plan.at_once;
    if let Some(place) = ask_at_once(rt, &mut bank, at_once)? {
        return Ok((served.saturating_add(place), false, bank.stop()));
    }
    let (is_closed, disks) = bank.close(&[]);
    Ok((served.saturating_add(at_once.len()), is_closed, disks))
}

/// What a crash leaves of each file: all that was written, or only what was synced.
#[derive(Drop)]
struct Left {
    /// The place of what is shown next.
    place: usize,
    logs: [Vec<u8>; 2],
    dbs: [Vec<u8>; 2],
}

impl Left {
    /// Returns whether a log and a database file are among those left at a place.
    fn has(&self, place: usize, log: &Vec<u8>, db: &Vec<u8>) -> bool {
        self.place == place
            && (self.logs[0] == *log || self.logs[1] == *log)
            && (self.dbs[0] == *db || self.dbs[1] == *db)
    }
}

/// Returns the bytes of a file that were written, and those that were synced.
fn written_and_synced(alloc: Global, mut file: Fuse<Memory>) -> Result<[Vec<u8>; 2], AllocError> {
    let mut written = Vec::new(alloc);
    written.extend_from_slice(file.inner().bytes())?;
    file.crash();
    let mut synced = Vec::new(alloc);
    synced.extend_from_slice(file.inner().bytes())?;
    Ok([written, synced])
}

/// Returns both files, or one if they are equal.
fn distinct(files: &[Vec<u8>; 2]) -> &[Vec<u8>] {
    if files[0] == files[1] {
        &files[..1]
    } else {
        files
    }
}

/// Opens what a crash leaves, unless the crash before left the same. A closed store is completely
/// in its database file.
fn check_left<R: Abort + AllocGlobal, B: Bank>(
    rt: &R,
    trial: &Trial<'_>,
    left: &Left,
    before: Option<&Left>,
    is_closed: bool,
) -> Result<(), Fail> {
    for db in distinct(&left.dbs) {
        for log in distinct(&left.logs) {
            let is_known = match before {
                Some(before) => before.has(left.place, log, db),
                None => false,
            };
            if !is_known {
                check::<_, B>(rt, trial, [log, db], left.place)?;
            }
        }
    }
    if is_closed {
        check::<_, B>(rt, trial, [&[], &left.dbs[1]], left.place)?;
    }
    Ok(())
}

/// Opens files, and tests that they show what is shown at a place or at the next one. If the place
/// is among the statements that are given at once, any later place is also accepted.
fn check<R: Abort + AllocGlobal, B: Bank>(
    rt: &R,
    trial: &Trial<'_>,
    files: [&[u8]; 2],
    place: usize,
) -> Result<(), Fail> {
    let disks = Disks::new(rt.alloc(), files, [u64::MAX; 2])?;
    let opened: Option<(B, bool)> = B::open(rt.alloc(), disks, trial.frames, true).ok();
    let (mut bank, migrated) = opened.expect(rt, "a store");
    let shown = shown(rt, &mut bank, trial.plan.queries, migrated)?;
    let places = if place <= trial.plan.asked.len() {
        2
    } else {
        trial.found.len()
    };
    for found in trial.found.iter().skip(place).take(places) {
        if found.as_str() == shown.as_str() {
            return Ok(());
        }
    }
    panic!(rt; "{shown} at {place}")
}

/// Runs a plan over files. One of them stops after 0, 1, 2 calls and so on, until the store is closed. Returns how many
/// calls that takes.
fn stop_one<R: Abort + AllocGlobal, B: Bank>(
    rt: &R,
    trial: &Trial<'_>,
    stops_log: bool,
) -> Result<u64, Fail> {
    let alloc = rt.alloc();
    let mut last: Option<Left> = None;
    for calls in 0..10_000u64 {
        let calls_of_each = if stops_log {
            [calls, u64::MAX]
        } else {
            [u64::MAX, calls]
        };
        let disks = Disks::new(alloc, [&[], trial.file], calls_of_each)?;
        let (place, is_closed, disks) = serve::<_, B>(rt, trial, disks)?;
        let Disks { log, db } = disks;
        let logs = written_and_synced(alloc, log)?;
        let dbs = written_and_synced(alloc, db)?;
        let left = Left { place, logs, dbs };
        check_left::<_, B>(rt, trial, &left, last.as_ref(), is_closed)?;
        if is_closed {
            return Ok(calls);
        }
        last = Some(left);
    }
    panic!(rt; "never done")
}

/// Runs a plan over files. One of them stops at each of its calls in turn.
fn stop_at_each<R: Abort + AllocGlobal, B: Bank>(rt: &R, plan: &Plan) -> Result<(), Fail> {
    let file = match plan.filled_by {
        [] => Vec::new(rt.alloc()),
        statements => file_with::<_, B>(rt, statements)?,
    };
    let found = find::<_, B>(rt, plan, file.as_slice())?;
    for frames in plan.frames {
        for stops_log in [true, false] {
            let trial = Trial {
                plan,
                file: file.as_slice(),
                found: found.as_slice(),
                frames: *frames,
            };
            let calls = stop_one::<_, B>(rt, &trial, stops_log)?;
            assert!(rt; calls > 3, "{calls}");
        }
    }
    Ok(())
}

/// Whichever call of the log or of the database file is the last one, the store has the rows from
/// before the stopped statement, or from after it. If COMMITs are given at once, it has the rows
/// after some first ones of them.
#[test]
fn stopped_at_each_call(rt: HostRuntime) -> Result<(), Fail> {
    for plan in [&MADE, &INSERTED, &COMMITTED, &TOGETHER] {
        stop_at_each::<_, OverFiles>(&rt, plan)?;
    }
    Ok(())
}

/// A stopped ALTER TABLE leaves the table as it was or as altered, and leaves its row.
#[test]
fn alter_stopped_at_each_call(rt: HostRuntime) -> Result<(), Fail> {
    stop_at_each::<_, OverFiles>(&rt, &ALTERED)
}

/// A stopped migration leaves the store in the previous format or in the known one. Once `migrate`
/// has returned, the format is the known one.
#[test]
fn a_migration_stops_at_each_call(rt: HostRuntime) -> Result<(), Fail> {
    stop_at_each::<_, OverFiles>(&rt, &MIGRATED)
}

/// The same holds when statements divide pages, and when a COMMIT changes several.
#[test]
fn stopped_over_many_rows(rt: HostRuntime) -> Result<(), Fail> {
    stop_at_each::<_, OverFiles>(&rt, &LARGE)
}
