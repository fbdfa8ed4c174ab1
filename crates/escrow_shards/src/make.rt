//! How databases are put under their locks: what is read and taken before, and why it may fail.
ghost use Rattle.std.specs.Prelude.{◌≡◌, ◌↔◌, ◌≤◌, [], ◌++◌, true, false, length, map, vec_len, IfOk, IfErr, OnOk};
ghost use Rattle.std.specs.Vec.{vec_capacity};
ghost use Rattle.escrow_num.specs.Session.{IsShared};
ghost use Rattle.escrow_machine.specs.State.{has_open};
ghost use Rattle.escrow_history.specs.Calls.{IsFailed, IsNotBegun};
ghost use Rattle.escrow_shards.specs.Opened.{any_open, database_at, AreRead, IsRead};
ghost use Rattle.escrow_shards.specs.Pass.{new_passes, new_passes_of};
ghost use Rattle.escrow_shards.specs.Watchers.{AreNewWatchers, IsUnwatched, new_board};

use crate::close::room::Room;
use crate::opening::Opening;
use crate::pass::Pass;
use crate::shard::Shard;
use crate::under_lock::Locked;
use crate::watched::Watched;
use escrow_core::Database;
use escrow_history::Audited;
use escrow_num::{Refusal, Session};
use escrow_stats::{Board, BoardFault, MAX_WATCHERS, Watcher};
use escrow_transcript::Base;
use sqlite::Alter;
use std::alloc::{AllocError, Global};
use std::marker::Model;
use std::sync::Wait;

/// The error if databases can't be shared: it returns the databases, with the cause.
#[derive(Drop)]
pub struct MakeFault<S: Alter> {
    /// The databases, in their order.
    pub databases: Vec<Database<S>>,
    /// Why they can't be shared.
    pub cause: Unshared,
}

/// The cause of a [`MakeFault`]. If no watchers were asked for, it is `Refused`.
#[derive(Debug, Drop)]
pub enum Unshared {
    /// Something is open (26), memory was refused (51), or the store refused a call (60).
    Refused(Refusal),
    /// More watchers of each database were asked for than
    /// [`MAX_WATCHERS`](escrow_stats::MAX_WATCHERS).
    TooManyWatchers,
    /// A watcher has no place to read at.
    NoPlace,
}

/// Everything that is read and taken before databases go under their locks.
#[derive(Drop)]
pub(crate) struct Ready<S: Alter, L> {
    pub(crate) starts: Vec<Start<S>>,
    pub(crate) passes: Vec<Pass>,
    // Room for the databases.
    pub(crate) shards: Vec<Shard<S, L>>,
    pub(crate) room: Room<S>,
}

/// Reads everything, and takes all memory. Nothing in the databases changes.
pub(crate) fn prepare<S: Alter + Drop, L>(
    alloc: Global,
    databases: &mut Vec<Database<S>>,
    sessions: u16,
) -> Result<Ready<S, L>, Refusal>
    requires { IsShared sessions }
    ensures read { AreRead S.Store databases.old.items databases.new.items }
    ensures starts { IfOk result (λ r. map database_at r.starts.items ≡ databases.new.items) }
    ensures passes { IfOk result (λ r. r.passes.items ≡ new_passes (length databases.old.items) sessions) }
    ensures room { IfOk result (λ r. (r.shards.items ≡ []) × (vec_len databases.new ≤ vec_capacity r.shards)) }
    ensures len { vec_len databases.new ≡ vec_len databases.old }
    ensures closed { OnOk result (any_open databases.old.items ≡ false) }
    ensures only { IfErr result IsNotBegun }
    ensures open { IfErr result (λ r. (r ≡ Refusal.TransactionOpen) ↔ (any_open databases.old.items ≡ true)) }
{
    if is_any_open(databases) {
        return Err(Refusal::TransactionOpen);
    }
    let Ok(room) = Room::new(alloc) else {
        return Err(Refusal::Memory);
    };
    let count = databases.len();
    let starts = starts_of(alloc, databases)?;
    let passes = new_passes(alloc, count, sessions)?;
    let shards = Vec::with_capacity(alloc, count)?;
    Ok(Ready {
        starts,
        passes,
        shards,
        room,
    })
}

/// Returns whether something is open in some database.
fn is_any_open<S: Alter>(databases: &[Database<S>]) -> bool
    ensures { result ≡ any_open databases.now }
{
    databases.iter().any(|database| database.has_open())
}

/// Reads what databases hold. Nothing may be open in them.
fn starts_of<S: Alter + Drop>(
    alloc: Global,
    databases: &mut Vec<Database<S>>,
) -> Result<Vec<Start<S>>, Refusal>
    requires { any_open databases.old.items ≡ false }
    ensures read { AreRead S.Store databases.old.items databases.new.items }
    ensures starts { IfOk result (λ s. map database_at s.items ≡ databases.new.items) }
    ensures len { vec_len databases.new ≡ vec_len databases.old }
    ensures only { IfErr result IsFailed }
{
    let mut starts = Vec::with_capacity(alloc, databases.len())?;
    for i in 0..databases.len() {
        let start = start_of(alloc, &mut databases[i])?;
        starts.push(start)?;
    }
    Ok(starts)
}

/// Reads what a database holds. Nothing may be open in it.
fn start_of<S: Alter>(alloc: Global, database: &mut Database<S>) -> Result<Start<S>, Refusal>
    requires { has_open database.old.state ≡ false }
    ensures read { IsRead S.Store database.old database.new }
    ensures start { IfOk result (λ s. database_at s ≡ database.new) }
    ensures only { IfErr result IsFailed }
{
    let image = database.image(alloc)?;
    let start = Start::new(alloc, Base { image, before: 0 }, database)?;
    Ok(start)
}

/// What a database needs to be shared: its opening, and the base of its first transcript. Contracts
/// see only the opening.
#[derive(Drop)]
pub(crate) struct Start<S: Alter> {
    opening: Opening<S>,
    base: Base,
}

impl<S: Alter> Model for Start<S> {
    ghost use Rattle.std.specs.Prelude.{◌≡◌};
    ghost use Rattle.escrow_shards.specs.Opening.{Opening, opening_code};

    ghost Value = { Opening S };

    ghost coded = { opening_code S.code };

    ghost view = { λ s. s.opening };

    ghost invariant = { λ s. s.base ≡ s.opening.base };
}

impl<S: Alter> Start<S> {
    ghost use Rattle.std.specs.Prelude.{◌≡◌, IfOk};
    ghost use Rattle.sqlite.specs.Held.{state};
    ghost use Rattle.sqlite.specs.State.{HasCleanDisk};
    ghost use Rattle.escrow_transcript.specs.Image.{started};
    ghost use Rattle.escrow_stats.specs.Watching.{IsNewBoard};
    ghost use Rattle.escrow_shards.specs.Opened.{database_at};

    /// Makes what a database needs to be shared as it is, at a base. Fails only if memory is
    /// refused.
    pub(crate) fn new(alloc: Global, base: Base, database: &Database<S>) -> Result<Self, AllocError>
        requires first { base.before ≡ 0 }
        requires whole { HasCleanDisk (state S.Store database.now.store) → database.now.state ≡ started base.image }
        ensures { IfOk result (λ s. database_at s ≡ database.now) }
    {
        let copied = base.copy(alloc)?;
        Ok(Start {
            opening: Opening::new(base, database),
            base: copied,
        })
    }

    /// Puts the database under its lock. Takes no memory, and makes no store call.
    pub(crate) fn begin(self, alloc: Global, database: Database<S>) -> Shard<S, Locked<S>>
        requires { database_at self ≡ database }
        ensures { result ≡ self }
    {
        prove!(self.opening.base().before == 0);
        let audited = Audited::begin(alloc, database, self.base);
        Shard::new(Locked::new(audited), self.opening)
    }

    /// Returns the base where the history of the database begins.
    pub(crate) fn base(&self) -> &Base
        ensures { result.now ≡ self.now.base }
    {
        self.opening.base()
    }

    /// Puts the database under its lock as [`Start::begin`] does, with a board.
    pub(crate) fn begin_watched<R: Wait + Drop>(
        self,
        alloc: Global,
        database: Database<S>,
        board: Board<S, R>,
    ) -> Shard<S, Watched<S, R>>
        requires seen { database_at self ≡ database }
        requires board { IsNewBoard self.base board }
        ensures { result ≡ self }
    {
        prove!(self.opening.base().before == 0);
        let audited = Audited::begin(alloc, database, self.base);
        Shard::new(Watched::new(audited, board), self.opening)
    }
}

/// Returns new passes for this many databases and sessions: by database, then by session. Fails
/// only if memory is refused.
fn new_passes(alloc: Global, databases: usize, sessions: u16) -> Result<Vec<Pass>, AllocError>
    requires { IsShared sessions }
    ensures { IfOk result (λ passes. passes.items ≡ new_passes databases sessions) }
{
    let mut passes = Vec::new(alloc);
    for database in 0..databases {
        add_passes(alloc, &mut passes, database, sessions)?;
    }
    Ok(passes)
}

/// Adds new passes for the sessions of a database, in order. Fails only if memory is refused.
fn add_passes(
    alloc: Global,
    passes: &mut Vec<Pass>,
    database: usize,
    sessions: u16,
) -> Result<(), AllocError>
    requires { IsShared sessions }
    ensures { OnOk result (passes.new.items ≡ passes.old.items ++ new_passes_of database sessions) }
{
    for before in 0..sessions {
        let Some(session) = Session::new(before + 1) else {
            unreachable!();
        };
        passes.push(Pass::new(alloc, database, session))?;
    }
    Ok(())
}

/// Puts databases under locks, into room that was taken for them.
pub(crate) fn into_shards<S: Alter + Drop>(
    alloc: Global,
    mut databases: Vec<Database<S>>,
    mut starts: Vec<Start<S>>,
    mut shards: Vec<Shard<S, Locked<S>>>,
) -> Vec<Shard<S, Locked<S>>>
    requires seen { map database_at starts.items ≡ databases.items }
    requires empty { shards.items ≡ [] }
    requires room { vec_len databases ≤ vec_capacity shards }
    ensures { result.items ≡ starts.items }
{
    while let Some(start) = starts.pop() {
        let Some(database) = databases.pop() else {
            unreachable!();
        };
        shards.push_reserved(start.begin(alloc, database));
    }
    shards.reverse();
    shards
}

/// Boards of databases, with their watchers.
#[derive(Drop)]
pub(crate) struct Boards<S: Alter, R: Wait + Drop> {
    pub(crate) boards: Vec<Board<S, R>>,
    pub(crate) watchers: Vec<Watcher<S>>,
}

/// Makes a board for each database that is to be shared, with this many watchers.
pub(crate) fn boards_of<S: Alter + Drop, R: Wait + Copy + Drop>(
    rt: R,
    alloc: Global,
    starts: &[Start<S>],
    watchers: usize,
) -> Result<Boards<S, R>, Unshared>
    requires { watchers ≤ MAX_WATCHERS }
    ensures boards { IfOk result (λ b. b.boards.items ≡ map new_board starts.now) }
    ensures watchers { IfOk result (λ b. AreNewWatchers watchers starts.now b.watchers.items) }
    ensures only { IfErr result IsUnwatched }
{
    let mut made = Boards {
        boards: Vec::new(alloc),
        watchers: Vec::new(alloc),
    };
    for start in starts {
        match Board::make(rt, alloc, start.base(), watchers) {
            Ok((board, mut new)) => {
                let Ok(()) = made.boards.push(board) else {
                    return Err(Unshared::Refused(Refusal::Memory));
                };
                let Ok(()) = made.watchers.append(&mut new) else {
                    return Err(Unshared::Refused(Refusal::Memory));
                };
            }
            Err(BoardFault::NoPlace) => return Err(Unshared::NoPlace),
            Err(_) => return Err(Unshared::Refused(Refusal::Memory)),
        }
    }
    Ok(made)
}

/// Puts databases with their boards under locks, into room that was taken for them.
pub(crate) fn into_watched<S: Alter + Drop, R: Wait + Drop>(
    alloc: Global,
    mut databases: Vec<Database<S>>,
    mut starts: Vec<Start<S>>,
    mut boards: Vec<Board<S, R>>,
    mut shards: Vec<Shard<S, Watched<S, R>>>,
) -> Vec<Shard<S, Watched<S, R>>>
    requires seen { map database_at starts.items ≡ databases.items }
    requires boards { boards.items ≡ map new_board starts.items }
    requires empty { shards.items ≡ [] }
    requires room { vec_len databases ≤ vec_capacity shards }
    ensures { result.items ≡ starts.items }
{
    while let Some(start) = starts.pop() {
        let Some(database) = databases.pop() else {
            unreachable!();
        };
        let Some(board) = boards.pop() else {
            unreachable!();
        };
        shards.push_reserved(start.begin_watched(alloc, database, board));
    }
    shards.reverse();
    shards
}
