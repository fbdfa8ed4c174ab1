use crate::close::findings::cause_of;
use crate::close::room::Room;
use crate::close::{Audit, Mismatch, out_of_locks};
use crate::gate::{Gate, NoGate};
use crate::make::{MakeFault, Unshared, boards_of, into_shards, into_watched, prepare};
use crate::part::Part;
use crate::pass::{Answer, Pass, Receipt};
use crate::shard::{Call, Shard};
use crate::under_lock::{Locked, UnderLock};
use crate::watched::Watched;
use escrow_core::Database;
use escrow_num::Refusal;
use escrow_statement::Statement;
use escrow_stats::{MAX_WATCHERS, Watcher};
use sqlite::Alter;
use std::alloc::Global;
use std::marker::Model;
use std::sync::{Mutex, Wait};

/// The most databases that are shared together.
pub const MAX_DATABASES: usize = 16;

/// Databases that threads share, each under its own lock, with its opening beside it. A lock holds
/// a plain database, or one that is watched ([`Watched`]).
///
/// [`Watched`]: crate::Watched
#[derive(Drop)]
pub struct Shared<S: Alter, L = Locked<S>> {
    shards: Vec<Shard<S, L>>,
    sessions: u16,
    room: Mutex<Room<S>>,
}

impl<S: Alter, L> Model for Shared<S, L> {
    ghost use Rattle.std.specs.Prelude.{◌≤◌, vec_len};
    ghost use Rattle.escrow_shards.specs.declared.shared.TheConstants.{MAX_DATABASES};
    ghost use Rattle.escrow_shards.specs.Shared.{Shared, shared_code};

    ghost Value = { Shared S };

    ghost coded = { shared_code S.code };

    ghost view = { λ s. record { openings = s.shards.items; sessions = s.sessions } };

    ghost invariant = { λ s. vec_len s.shards ≤ MAX_DATABASES };
}

impl<S: Alter + Drop> Shared<S> {
    ghost use Rattle.std.specs.Prelude.{◌≡◌, ◌↔◌, ◌≤◌, true, false, map, length, vec_len, All, IfOk, IfErr, OnOk};
    ghost use Rattle.escrow_num.specs.Session.{IsShared};
    ghost use Rattle.escrow_shards.specs.declared.shared.TheConstants.{MAX_DATABASES};
    ghost use Rattle.escrow_shards.specs.Opened.{any_open, database_at, AreRead};
    ghost use Rattle.escrow_shards.specs.Pass.{new_passes};
    ghost use Rattle.escrow_shards.specs.Shared.{HasPass};
    ghost use Rattle.escrow_shards.specs.Watchers.{IsRefused};

    /// Puts databases under locks, each with its opening beside it. Makes a pass without receipts
    /// for each session of each database: by database, then by session. Takes all the memory that
    /// [`Shared::close`] needs.
    ///
    /// # Errors
    ///
    /// Fails with [`Refusal::TransactionOpen`] exactly if something is open in a database.
    /// Otherwise fails with [`Refusal::Memory`] or [`Refusal::Store`]. The databases are returned,
    /// and nothing in them has changed.
    pub fn make(
        alloc: Global,
        mut databases: Vec<Database<S>>,
        sessions: u16,
    ) -> Result<(Self, Vec<Pass>), MakeFault<S>>
        requires databases { (1 ≤ vec_len databases) × (vec_len databases ≤ MAX_DATABASES) }
        requires sessions { IsShared sessions }
        ensures opened { IfOk result (λ r. AreRead S.Store databases.items (map database_at r.0.openings)) }
        ensures sessions { IfOk result (λ r. r.0.sessions ≡ sessions) }
        ensures passes { IfOk result (λ r. r.1.items ≡ new_passes (length databases.items) sessions) }
        ensures seats { IfOk result (λ r. All (HasPass r.0) r.1.items) }
        ensures closed { OnOk result (any_open databases.items ≡ false) }
        ensures back { IfErr result (λ f. AreRead S.Store databases.items f.databases.items) }
        ensures only { IfErr result (λ f. IsRefused f.cause) }
        ensures open { IfErr result
            (λ f. (f.cause ≡ Unshared.Refused Refusal.TransactionOpen) ↔ (any_open databases.items ≡ true)) }
    {
        match prepare(alloc, &mut databases, sessions) {
            Ok(ready) => {
                let shards = into_shards(alloc, databases, ready.starts, ready.shards);
                let shared = Shared {
                    shards,
                    sessions,
                    room: Mutex::new(ready.room),
                };
                Ok((shared, ready.passes))
            }
            Err(refusal) => Err(MakeFault {
                databases,
                cause: Unshared::Refused(refusal),
            }),
        }
    }
}

impl<S: Alter + Drop, R: Wait + Copy + Drop> Shared<S, Watched<S, R>> {
    ghost use Rattle.std.specs.Prelude.{◌≡◌, ◌↔◌, ◌≤◌, ◌<◌, true, false, map, length, vec_len, All, IfOk, IfErr, OnOk};
    ghost use Rattle.escrow_num.specs.Session.{IsShared};
    ghost use Rattle.escrow_stats.specs.declared.board.TheConstants.{MAX_WATCHERS};
    ghost use Rattle.escrow_shards.specs.declared.shared.TheConstants.{MAX_DATABASES};
    ghost use Rattle.escrow_shards.specs.Opened.{any_open, database_at, AreRead};
    ghost use Rattle.escrow_shards.specs.Pass.{new_passes};
    ghost use Rattle.escrow_shards.specs.Shared.{HasPass};
    ghost use Rattle.escrow_shards.specs.Watchers.{AreNewWatchers, IsUnshared};

    /// Does what [`Shared::make`] does, for databases that are watched. Also makes this many
    /// watchers for each database, in order of the databases. Calls show the totals of what was
    /// served. Of the watchers, a call waits only for one that is reading at that moment; a watcher
    /// waits for nobody. Ending the sharing may wait in the same way, by the handle that is given
    /// here.
    ///
    /// # Errors
    ///
    /// Fails with [`Unshared::TooManyWatchers`] exactly if more than [`MAX_WATCHERS`] are asked
    /// for. Otherwise fails as [`Shared::make`] does, or with [`Unshared::NoPlace`]. The databases
    /// are returned, and nothing in them has changed.
    pub fn make_watched(
        rt: R,
        alloc: Global,
        mut databases: Vec<Database<S>>,
        sessions: u16,
        watchers: usize,
    ) -> Result<(Self, Vec<Pass>, Vec<Watcher<S>>), MakeFault<S>>
        requires databases { (1 ≤ vec_len databases) × (vec_len databases ≤ MAX_DATABASES) }
        requires sessions { IsShared sessions }
        ensures opened { IfOk result (λ r. AreRead S.Store databases.items (map database_at r.0.openings)) }
        ensures sessions { IfOk result (λ r. r.0.sessions ≡ sessions) }
        ensures passes { IfOk result (λ r. r.1.items ≡ new_passes (length databases.items) sessions) }
        ensures seats { IfOk result (λ r. All (HasPass r.0) r.1.items) }
        ensures watchers { IfOk result (λ r. AreNewWatchers watchers r.0.openings r.2.items) }
        ensures closed { OnOk result (any_open databases.items ≡ false) }
        ensures back { IfErr result (λ f. AreRead S.Store databases.items f.databases.items) }
        ensures only { IfErr result (λ f. IsUnshared f.cause) }
        ensures many { IfErr result (λ f. (f.cause ≡ Unshared.TooManyWatchers) ↔ (MAX_WATCHERS < watchers)) }
        ensures within { OnOk result (watchers ≤ MAX_WATCHERS) }
        ensures open { IfErr result
            (λ f. watchers ≤ MAX_WATCHERS → (f.cause ≡ Unshared.Refused Refusal.TransactionOpen)
            ↔ (any_open databases.items ≡ true)) }
    {
        if watchers > MAX_WATCHERS {
            let cause = Unshared::TooManyWatchers;
            return Err(MakeFault { databases, cause });
        }
        let ready = match prepare::<S, Watched<S, R>>(alloc, &mut databases, sessions) {
            Ok(ready) => ready,
            Err(refusal) => {
                let cause = Unshared::Refused(refusal);
                return Err(MakeFault { databases, cause });
            }
        };
        match boards_of(rt, alloc, ready.starts.as_slice(), watchers) {
            Ok(made) => {
                let shards = into_watched(
                    alloc,
                    databases,
                    ready.starts,
                    made.boards,
                    ready.shards,
                );
                let shared = Shared {
                    shards,
                    sessions,
                    room: Mutex::new(ready.room),
                };
                Ok((shared, ready.passes, made.watchers))
            }
            Err(cause) => Err(MakeFault { databases, cause }),
        }
    }
}

impl<S: Alter, L: UnderLock<S>> Shared<S, L> {
    ghost use Rattle.std.specs.Prelude.{◌≡◌, ◌↔◌, ◌<◌, length, IsTrue, IfOk, IfErr};
    ghost use Rattle.escrow_history.specs.Calls.{IsNotDrained};
    ghost use Rattle.escrow_shards.specs.Shared.{HasPass};
    ghost use Rattle.escrow_shards.specs.Answer.{IsAnswered};

    /// Returns how many databases are shared. They are counted from 0.
    pub fn databases(&self) -> usize
        ensures { result ≡ length self.now.openings }
    {
        self.shards.len()
    }

    /// Returns how many sessions each database has. They are counted from 1.
    pub fn sessions(&self) -> u16
        ensures { result ≡ self.now.sessions }
    {
        self.sessions
    }

    /// Returns whether a pass is for one of these databases and sessions, as calls require.
    pub fn has_pass(&self, pass: &Pass) -> bool
        ensures { IsTrue result ↔ HasPass self.now pass.now }
    {
        pass.database() < self.databases() && pass.session().get() <= self.sessions
    }

    /// Serves one statement of the session of a pass, under the lock of its database. If the
    /// statement is served, the pass has one more receipt; otherwise the pass is unchanged. Room
    /// for the receipt and the copy of the statement in it are taken before the lock. May wait.
    pub fn call<R: Wait>(
        &self,
        rt: &R,
        alloc: Global,
        pass: &mut Pass,
        statement: &Statement,
    ) -> Answer
        requires { HasPass self.now pass.old }
        ensures { IsAnswered result statement.now pass.old pass.new }
    {
        self.call_gated(rt, alloc, pass, statement, &NoGate)
    }

    /// Serves one statement as [`Shared::call`] does, with a gate that is called while the lock is
    /// held.
    pub fn call_gated<R: Wait, G: Gate>(
        &self,
        rt: &R,
        alloc: Global,
        pass: &mut Pass,
        statement: &Statement,
        gate: &G,
    ) -> Answer
        requires { HasPass self.now pass.old }
        ensures { IsAnswered result statement.now pass.old pass.new }
    {
        let n = (pass.receipts.len() as u64).saturating_add(1);
        if pass.receipts.reserve(1).is_err() {
            return Answer::Unserved(Refusal::Memory);
        }
        let Ok(statement_kept) = statement.copy(alloc) else {
            return Answer::Unserved(Refusal::Memory);
        };
        let call = Call {
            database: pass.database,
            session: pass.session,
            n,
            statement,
        };
        match self.shards[call.database].serve(rt, alloc, gate, &call) {
            Ok(served) => {
                pass.receipts.push_reserved(Receipt {
                    number: served.number,
                    statement: statement_kept,
                    reply: served.kept,
                });
                Answer::Served(served.reply)
            }
            Err(unserved) => Answer::Unserved(unserved.refusal()),
        }
    }

    /// Hands out the next part of the history of a database, under its lock: what was served since
    /// the part before, which may be nothing. May wait.
    ///
    /// # Errors
    ///
    /// Fails with [`Refusal::TransactionOpen`], [`Refusal::TranscriptFull`], [`Refusal::Memory`] or
    /// [`Refusal::Store`]. After an error no part is handed out.
    pub fn drain<R: Wait>(&self, rt: &R, alloc: Global, database: usize) -> Result<Part<S>, Refusal>
        requires { database < length self.now.openings }
        ensures part { IfOk result (λ p. p.database ≡ database) }
        ensures only { IfErr result IsNotDrained }
    {
        self.shards[database].drain(rt, alloc, database)
    }
}

impl<S: Alter + Drop, L: UnderLock<S> + Drop> Shared<S, L> {
    ghost use Rattle.std.specs.Prelude.{◌≡◌, map, IfOk, IfErr};
    ghost use Rattle.escrow_shards.specs.Closed.{opening_of};
    ghost use Rattle.escrow_shards.specs.Whole.{AreWhole, IsTrueOf};

    /// Ends the sharing. Takes all passes, and all parts that were handed out. Everything fits
    /// together only if
    ///
    /// - each pass is handed in once,
    /// - the parts of each database are all there, in order,
    /// - the receipts of each session are exactly its entries, in its order, each once,
    /// - no entry is of a session without a pass.
    ///
    /// Then the entries of each database, those of its parts followed by those of its last
    /// transcript, are one legal run of the machine, numbered from 1. The run leads from the state
    /// at the opening of the database to the state in which it is returned. This requires that its
    /// disk returned what was written: at the opening, whenever a part was handed out, and now.
    ///
    /// The close compares only what passes and parts say: those of another sharing fit too if they
    /// say the same. Open transactions stay open. Takes no memory.
    ///
    /// # Errors
    ///
    /// Fails with the first cause that it finds. It tests passes, then parts, then receipts, and
    /// last the entries of sessions without a pass. Everything is returned with the error, the
    /// databases out of their locks.
    pub fn close(self, passes: Vec<Pass>, parts: Vec<Part<S>>) -> Result<Audit<S>, Mismatch<S>>
        ensures whole { IfOk result (λ a. AreWhole S.Store self passes.items parts.items a.closed.items) }
        ensures same { IfOk result (λ a. a.parts ≡ parts) }
        ensures back { IfErr result (λ m. (m.passes ≡ passes) × (m.parts ≡ parts)) }
        ensures closed { IfErr result (λ m. map opening_of m.closed.items ≡ self.openings) }
        ensures cause { IfErr result (λ m. IsTrueOf self.sessions passes.items parts.items m.closed.items m.cause) }
    {
        let sessions = self.sessions;
        let closed = out_of_locks(self.shards, self.room.into_inner());
        match cause_of(&closed, sessions, &passes, &parts) {
            None => Ok(Audit { closed, parts }),
            Some(cause) => Err(Mismatch {
                closed,
                passes,
                parts,
                cause,
            }),
        }
    }
}
