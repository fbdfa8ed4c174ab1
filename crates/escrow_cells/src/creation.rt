//! How a store is made: from a database without objects, or from a store in another format.
ghost use Rattle.std.specs.Prelude.{◌≡◌, false, is_ok, IsTrue};
ghost use Rattle.sqlite.specs.Held.{state};
ghost use Rattle.escrow_cells.specs.Calls.{Transacts};
ghost use Rattle.escrow_cells.specs.Store.{MakesStore, Migrates};
ghost use Rattle.escrow_cells.specs.Inside.{Acts};
ghost use Rattle.escrow_cells.specs.Making.{made_of};

use crate::failure::failure_of;
use crate::statement::write;
use escrow_num::Failure;
use sqlite::{Alter, Connection, Error, Transaction};

/// What a store is made from.
#[derive(Clone, Copy)]
pub(crate) enum Origin {
    /// A database without objects.
    Nothing,
    /// A store in any format.
    Store,
}

/// Makes an empty store from a database without objects, in one transaction: all of it or nothing.
/// A connection that is inside a transaction is refused.
pub fn create<S: Alter>(conn: &mut Connection<S>) -> Result<(), Failure>
    ensures writes { Transacts (state S.Store conn.old) (state S.Store conn.new) (is_ok result) MakesStore }
    ensures mode { conn.old.in_transaction ≡ false → conn.new.in_transaction ≡ false }
{
    make(conn, Origin::Nothing)
}

/// Migrates a store in any format to the known one, in one transaction. Its tables and cells stay.
/// A connection that is inside a transaction is refused.
pub fn migrate<S: Alter>(conn: &mut Connection<S>) -> Result<(), Failure>
    ensures writes { Transacts (state S.Store conn.old) (state S.Store conn.new) (is_ok result) Migrates }
    ensures mode { conn.old.in_transaction ≡ false → conn.new.in_transaction ≡ false }
{
    make(conn, Origin::Store)
}

/// Makes a store, in one transaction. A connection that is inside a transaction is refused.
fn make<S: Alter>(conn: &mut Connection<S>, origin: Origin) -> Result<(), Failure>
    ensures writes { Transacts (state S.Store conn.old) (state S.Store conn.new) (is_ok result) (made_of origin) }
    ensures mode { conn.old.in_transaction ≡ false → conn.new.in_transaction ≡ false }
{
    if !conn.is_autocommit() {
        return Err(Failure::Store);
    }
    make_outside(conn, origin).map_err(failure_of)
}

/// Makes a store as [`make`] does, in a connection that is outside a transaction.
fn make_outside<S: Alter>(conn: &mut Connection<S>, origin: Origin) -> Result<(), Error>
    requires outside { conn.old.in_transaction ≡ false }
    requires settled { IsTrue (state S.Store conn.old).is_open
        → (state S.Store conn.old).now ≡ (state S.Store conn.old).committed }
    ensures writes { Transacts (state S.Store conn.old) (state S.Store conn.new) (is_ok result) (made_of origin) }
    ensures mode { conn.new.in_transaction ≡ false }
{
    let mut tx = conn.transaction();
    make_inside(&mut tx, origin)?;
    tx.commit()
}

/// Makes a store as [`make`] does, inside a transaction.
fn make_inside<S: Alter>(tx: &mut Transaction<'_, S>, origin: Origin) -> Result<(), Error>
    ensures same_reference { tx.new.conn.ghost_name ≡ tx.old.conn.ghost_name }
    ensures acts { Acts (state S.Store tx.old.conn.now) (state S.Store tx.new.conn.now) (is_ok result) 1
        (made_of origin) }
{
    match origin {
        Origin::Nothing => make_tables(tx),
        Origin::Store => update_format(tx),
    }
}

/// Makes what an empty store has.
fn make_tables<S: Alter>(tx: &mut Transaction<'_, S>) -> Result<(), Error>
    ensures same_reference { tx.new.conn.ghost_name ≡ tx.old.conn.ghost_name }
    ensures acts { Acts (state S.Store tx.old.conn.now) (state S.Store tx.new.conn.now) (is_ok result) 1 MakesStore }
{
    write(
        tx,
        "CREATE TABLE META(K TEXT NOT NULL PRIMARY KEY, V INTEGER NOT NULL) STRICT",
        &[],
    )?;
    write(
        tx,
        "CREATE TABLE TAB(ID INTEGER PRIMARY KEY, NAME TEXT NOT NULL UNIQUE, DDL TEXT NOT NULL) STRICT",
        &[],
    )?;
    write(
        tx,
        "CREATE TABLE CELL(TAB INTEGER NOT NULL, K ANY NOT NULL, C INTEGER NOT NULL, V ANY NOT NULL, PRIMARY KEY(TAB, K, C)) STRICT",
        &[],
    )?;
    write(tx, "INSERT INTO META VALUES ('format', 2)", &[])
}

/// Writes the number of the known format into META.
fn update_format<S: Alter>(tx: &mut Transaction<'_, S>) -> Result<(), Error>
    ensures same_reference { tx.new.conn.ghost_name ≡ tx.old.conn.ghost_name }
    ensures acts { Acts (state S.Store tx.old.conn.now) (state S.Store tx.new.conn.now) (is_ok result) 1 Migrates }
{
    write(tx, "UPDATE META SET V = 2 WHERE K = 'format'", &[])
}
