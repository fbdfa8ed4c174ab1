ghost use Rattle.std.specs.Prelude.{◌≡◌, ◌<◌, [], false, is_ok, length, IsTrue, Ok};
ghost use Rattle.sqlite.specs.Held.{state};
ghost use Rattle.sqlite.specs.State.{HasCleanDisk};
ghost use Rattle.escrow_cells.specs.Calls.{Transacts, was_done};
ghost use Rattle.escrow_cells.specs.Step.{Does, DoesFinding, finds};
ghost use Rattle.escrow_cells.specs.Store.{IsStore, cells};

use crate::failure::failure_of;
use crate::statement::{TOGETHER, do_finding, do_steps};
use crate::step::Step;
use escrow_num::Failure;
use sqlite::{Alter, Connection, Error, ErrorCode};

/// Does steps, one after another, in one transaction: all of them or none. A connection that is
/// inside a transaction is refused.
pub fn run<S: Alter>(conn: &mut Connection<S>, steps: &[Step<'_>]) -> Result<(), Failure>
    ensures writes { Transacts (state S.Store conn.old) (state S.Store conn.new) (is_ok result) (Does steps.now) }
    ensures mode { conn.old.in_transaction ≡ false → conn.new.in_transaction ≡ false }
{
    if !conn.is_autocommit() {
        return Err(Failure::Store);
    }
    run_outside(conn, steps).map_err(failure_of)
}

/// Does steps as [`run`] does, unless SQLite finds that one of them breaks a constraint, such as a
/// new cell at the place of an existing one. Returns whether they are done. If not, none is.
pub fn run_unless_refused<S: Alter>(
    conn: &mut Connection<S>,
    steps: &[Step<'_>],
) -> Result<bool, Failure>
    ensures writes { Transacts (state S.Store conn.old) (state S.Store conn.new) (was_done result) (Does steps.now) }
    ensures mode { conn.old.in_transaction ≡ false → conn.new.in_transaction ≡ false }
{
    if !conn.is_autocommit() {
        return Err(Failure::Store);
    }
    match run_outside(conn, steps) {
        Ok(()) => Ok(true),
        Err(Error::SqliteFailure(ErrorCode::ConstraintViolation(_))) => Ok(false),
        Err(error) => Err(failure_of(error)),
    }
}

/// Does steps as [`run`] does, if the first finds a cell or doesn't go by a key. Returns whether
/// they are done. If not, none is.
pub fn run_if_found<S: Alter>(
    conn: &mut Connection<S>,
    first: &Step<'_>,
    rest: &[Step<'_>],
) -> Result<bool, Failure>
    ensures writes { Transacts (state S.Store conn.old) (state S.Store conn.new) (was_done result)
        (DoesFinding first.now rest.now) }
    ensures none { HasCleanDisk (state S.Store conn.new) → result ≡ Ok false → IsTrue (state S.Store conn.old).is_open
        × (IsStore (state S.Store conn.old).now → finds first.now (cells (state S.Store conn.old).now) ≡ false) }
    ensures mode { conn.old.in_transaction ≡ false → conn.new.in_transaction ≡ false }
{
    if !conn.is_autocommit() {
        return Err(Failure::Store);
    }
    match transact_if_found(conn, first, rest) {
        Ok(found) => Ok(found),
        Err(error) => Err(failure_of(error)),
    }
}

/// Does steps in a connection that is outside a transaction.
fn run_outside<S: Alter>(conn: &mut Connection<S>, steps: &[Step<'_>]) -> Result<(), Error>
    requires outside { conn.old.in_transaction ≡ false }
    requires settled { IsTrue (state S.Store conn.old).is_open
        → (state S.Store conn.old).now ≡ (state S.Store conn.old).committed }
    ensures writes { Transacts (state S.Store conn.old) (state S.Store conn.new) (is_ok result) (Does steps.now) }
    ensures mode { conn.new.in_transaction ≡ false }
{
    if steps.is_empty() {
        return do_nothing(conn);
    }
    transact(conn, steps)
}

/// Writes nothing. Fails if a fault has shut the store.
fn do_nothing<S: Alter>(conn: &mut Connection<S>) -> Result<(), Error>
    requires outside { conn.old.in_transaction ≡ false }
    requires settled { IsTrue (state S.Store conn.old).is_open
        → (state S.Store conn.old).now ≡ (state S.Store conn.old).committed }
    ensures writes { Transacts (state S.Store conn.old) (state S.Store conn.new) (is_ok result) (Does []) }
    ensures mode { conn.new.in_transaction ≡ false }
{
    conn.prepare("SELECT ID FROM TAB")?;
    Ok(())
}

/// Does some steps, at least one, in a connection that is outside a transaction.
fn transact<S: Alter>(conn: &mut Connection<S>, steps: &[Step<'_>]) -> Result<(), Error>
    requires some { 0 < length steps.now }
    requires outside { conn.old.in_transaction ≡ false }
    requires settled { IsTrue (state S.Store conn.old).is_open
        → (state S.Store conn.old).now ≡ (state S.Store conn.old).committed }
    ensures writes { Transacts (state S.Store conn.old) (state S.Store conn.new) (is_ok result) (Does steps.now) }
    ensures mode { conn.new.in_transaction ≡ false }
{
    let mut tx = conn.transaction();
    for some in steps.chunks(TOGETHER) {
        do_steps(&mut tx, some)?;
    }
    tx.commit()
}

/// Does a step and then others, in a connection that is outside a transaction. If the first goes by
/// a key and finds no cell, the transaction is rolled back. Returns whether they are done.
fn transact_if_found<S: Alter>(
    conn: &mut Connection<S>,
    first: &Step<'_>,
    rest: &[Step<'_>],
) -> Result<bool, Error>
    requires outside { conn.old.in_transaction ≡ false }
    requires settled { IsTrue (state S.Store conn.old).is_open
        → (state S.Store conn.old).now ≡ (state S.Store conn.old).committed }
    ensures writes { Transacts (state S.Store conn.old) (state S.Store conn.new) (was_done result)
        (DoesFinding first.now rest.now) }
    ensures none { HasCleanDisk (state S.Store conn.new) → result ≡ Ok false → IsTrue (state S.Store conn.old).is_open
        × (IsStore (state S.Store conn.old).now → finds first.now (cells (state S.Store conn.old).now) ≡ false) }
    ensures mode { conn.new.in_transaction ≡ false }
{
    let mut tx = conn.transaction();
    if !do_finding(&mut tx, first)? {
        return Ok(false);
    }
    for some in rest.chunks(TOGETHER) {
        do_steps(&mut tx, some)?;
    }
    tx.commit()?;
    Ok(true)
}
