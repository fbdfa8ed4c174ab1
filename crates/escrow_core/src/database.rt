mod added;
mod alter;
mod beside;
mod bounds;
mod create;
mod delete;
mod drop;
mod ending;
mod held;
mod image;
mod insert;
mod journal;
mod look;
mod restart;
mod run;
mod savepoint;
mod select;
mod show;
mod update;

use escrow_machine::Reply;
use escrow_num::{Refusal, Session};
use escrow_recover::Opened;
use escrow_reserved::{Recent, Reserved};
use escrow_statement::Statement;
use escrow_tables::Tables;
use sqlite::{Alter, Connection};
use std::alloc::Global;
use std::marker::Model;

/// What answers a statement: its reply, or why it is refused.
pub(crate) type Answer = Result<Reply, Refusal>;

/// A database. Its tables and their committed rows are in a store that SQLite writes to. In memory
/// are the open reservations and savepoints of all sessions, and the id that the next reservation
/// takes. If a fault shuts the store, these are unchanged.
///
/// The database also keeps what the open reservations can do to each row that they reserve, so a
/// grant needs no walk over them. And it keeps the amounts of rows that were read or
/// inserted.
pub struct Database<S: Alter> {
    tables: Tables<S>,
    reserved: Reserved,
    recent: Recent,
}

// Written out, so that crates above need not prove again how its parts are dropped.
impl<S: Alter + Drop> Drop for Database<S> {
    fn drop(self) {
        let Database {
            tables: _,
            reserved: _,
            recent: _,
        } = self;
    }
}

impl<S: Alter> Model for Database<S> {
    ghost use Rattle.escrow_core.specs.Inside.{database_of, Holds};
    ghost use Rattle.escrow_core.specs.Database.{Database, database_code};

    ghost Value = { Database S };

    ghost coded = { database_code S.code };

    ghost view = { λ d. database_of d.tables d.reserved.txns };

    ghost invariant = { λ d. Holds S.Store (database_of d.tables d.reserved.txns) d.reserved.places d.recent };
}

impl<S: Alter> Database<S> {
    ghost use Rattle.std.specs.Prelude.{◌≡◌, false, Some, IfOk, IfErr, IsTrue, List};
    ghost use Rattle.sqlite.specs.Held.{state};
    ghost use Rattle.sqlite.specs.State.{HasCleanDisk, Survives};
    ghost use Rattle.sqlite_trees.specs.Tree.{Trees};
    ghost use Rattle.escrow_journal.specs.Open.{id_left};
    ghost use Rattle.escrow_num.specs.declared.row.Row.{Row};
    ghost use Rattle.escrow_rows.specs.Answers.{IsUsable};
    ghost use Rattle.escrow_num.specs.declared.failure.Failure.TheVariants.{Store};
    ghost use Rattle.escrow_num.specs.Refusal.{first_refusal};
    ghost use Rattle.escrow_machine.specs.Promised.{asks_store, is_judged_first, is_promised, reads_rows};
    ghost use Rattle.escrow_machine.specs.Reply.{failure_of, is_refused, tells_write};
    ghost use Rattle.escrow_core.specs.Database.{IsKept};
    ghost use Rattle.escrow_core.specs.Serves.{AreAfter, AreHeldOf};
    ghost use Rattle.escrow_core.specs.Serving.{Answers, TellsRefusal};
    ghost use Rattle.escrow_machine.specs.State.{has_open, is_open, opened};
    ghost use Rattle.escrow_machine.specs.Step.{step, IsStep, StepOrRefusal};
    ghost use Rattle.escrow_machine.specs.Transition.{transition_of};
    ghost use Rattle.escrow_machine.specs.Valid.{IsValid};
    ghost use Rattle.escrow_schema.specs.Stored.{catalog_of};
    ghost use Rattle.escrow_recover.specs.Opened.{IsOpened, Stores};

    /// Opens the database of an opened store: nothing is open in it, and the next id is 1. Makes no
    /// store call.
    ///
    /// # Errors
    ///
    /// Fails with [`Refusal::Memory`], and returns what was opened.
    pub fn open(alloc: Global, found: Opened<S>) -> Result<Self, (Opened<S>, Refusal)>
        requires { HasCleanDisk (state S.Store found.store) → IsOpened (state S.Store found.store) found.catalog }
        ensures store { IfOk result (λ d. d.store ≡ found.store) }
        ensures state { IfOk result (λ d. d.state ≡ opened (catalog_of found.catalog) d.state.rows) }
        ensures rows { IfOk result
            (λ d. (rows : List Row) → Stores (state S.Store found.store) found.catalog rows → d.state.rows ≡ rows) }
        ensures refused { IfErr result (λ failed. (failed.0 ≡ found) × (failed.1 ≡ Refusal.Memory)) }
    {
        match Reserved::new(alloc) {
            Ok(reserved) => {
                let tables = Tables::over(found);
                Ok(Database {
                    tables,
                    reserved,
                    recent: Recent::new(alloc),
                })
            }
            Err(_) => Err((found, Refusal::Memory)),
        }
    }

    /// Returns the connection to the store, and drops what is open. Makes no store call.
    pub fn into_connection(self) -> Connection<S>
        ensures same { result ≡ self.store }
        ensures outside { result.in_transaction ≡ false }
    {
        let Database {
            tables,
            reserved: _,
            recent: _,
        } = self;
        tables.into_connection()
    }

    /// Returns the id that the next reservation takes, or `None` if there are no more ids.
    ///
    /// If the disk has returned what was written, the state is valid: whichever of the open
    /// reservations are applied, each row meets each check of its table. If the store can be used,
    /// a crash leaves exactly the tables and rows of the state.
    pub fn next_id(&self) -> Option<u64>
        ensures value { result ≡ id_left self.now.state.next_id }
        ensures kept { IsKept S.Store self.now }
        ensures valid { HasCleanDisk (state S.Store self.now.store) → IsValid self.now.state }
        ensures left { IsUsable (state S.Store self.now.store) → (trees : Trees)
            → (state S.Store self.now.store).may_leave trees → AreHeldOf self.now.state trees }
    {
        prove!(self.tables.is_at_rest());
        self.reserved.txns().next_id()
    }

    /// Returns whether a session's transaction is open: it holds a reservation or a savepoint.
    pub fn is_open(&self, session: Session) -> bool
        ensures { result ≡ is_open session self.now.state }
    {
        self.reserved.txns().is_open(session)
    }

    /// Returns whether anything is open: a reservation or a savepoint of any session.
    pub fn has_open(&self) -> bool
        ensures { result ≡ has_open self.now.state }
    {
        self.reserved.txns().has_open()
    }

    /// Limits the steps that a statement of the store may take. With `None` there is no limit, as
    /// in a new database. A statement that would take more is refused with 60, and changes nothing.
    pub fn set_step_limit(&mut self, limit: Option<u64>)
        ensures store { self.new.store ≡ record self.old.store { step_limit = limit } }
        ensures state { self.new.state ≡ self.old.state }
    {
        self.tables.set_step_limit(limit);
    }

    /// Serves one whole statement of a session.
    ///
    /// If the disk has returned what was written, the reply and the new state are those of the
    /// machine, which tries every choice of the open reservations. Or the statement fails as it
    /// may, and the state is equal. This holds even if a fault shuts the store, or has shut it
    /// before. For a statement that isn't answered from rows, it holds whatever the disk did.
    ///
    /// A statement that needs neither memory nor the store never fails. One that doesn't ask the
    /// store leaves it as it is, and is never refused by it. An UPDATE of RESERVABLE columns of a
    /// row that has an open reservation is one of these. If the row's key is a number, its table
    /// has at most 4 RESERVABLE columns, and the disk has returned what was written, a refusal of
    /// the machine comes before want of memory.
    pub fn step(&mut self, alloc: Global, session: Session, statement: &Statement) -> Reply
        ensures event { HasCleanDisk (state S.Store self.new.store)
            → StepOrRefusal self.old.state session statement.now result self.new.state }
        ensures succeeds { IsTrue (is_promised self.old.state session statement.now) → (self.new.store ≡ self.old.store)
            × IsStep self.old.state session statement.now result self.new.state }
        ensures apart { asks_store self.old.state session statement.now ≡ false → (self.new.store ≡ self.old.store)
            × ¬ (failure_of result ≡ Some Store) }
        ensures unread { reads_rows self.old.state session statement.now ≡ false
            → StepOrRefusal self.old.state session statement.now result self.new.state }

        ensures against { HasCleanDisk (state S.Store self.new.store)
            → IsTrue (is_judged_first self.old.state statement.now)
            → (r : Refusal) → (step self.old.state session statement.now).0 ≡ Reply.Refused r
            → result ≡ Reply.Refused r }

        // The machine's first early refusal, which needs neither memory nor the store, is the reply
        // whatever the disk did and however little memory there is. Nothing changes.
        ensures early { (r : Refusal)
            → first_refusal (transition_of self.old.state session statement.now).early ≡ Some r
            → (result ≡ Reply.Refused r) × (self.new ≡ self.old) }

        // A refusal changes nothing, whatever the store is like.
        ensures refused { IsTrue (is_refused result) → self.new.state ≡ self.old.state }

        // After a crash the disk has what it might have had before, or what the step makes, if the
        // store was open. After a reply that says that the store was written, it has the tables and
        // rows of the new state. A store that a fault has shut stays shut, and is not written
        // again.
        ensures usable { IsUsable (state S.Store self.new.store) → IsUsable (state S.Store self.old.store) }
        ensures crash { Survives (state S.Store self.old.store) (state S.Store self.new.store)
            (λ trees. IsTrue (state S.Store self.old.store).is_open
            × AreAfter self.old.state session statement.now trees) }
        ensures durable { IsTrue (tells_write result) → HasCleanDisk (state S.Store self.new.store) → (trees : Trees)
            → (state S.Store self.new.store).may_leave trees → AreHeldOf self.new.state trees }
    {
        match self.serve_statement(alloc, session, statement) {
            Ok(reply) => reply,
            Err(refusal) => Reply::Refused(refusal),
        }
    }

    /// Serves one statement of a session, by its kind. Returns the reply or the refusal.
    fn serve_statement(&mut self, alloc: Global, session: Session, statement: &Statement) -> Answer
        ensures answers { Answers S.Store session statement.now self.old result self.new }
        ensures against { IsTrue (is_judged_first self.old.state statement.now)
            → TellsRefusal S.Store session statement.now self.old result self.new }
    {
        match statement {
            Statement::Create(text) => self.create(alloc, session, text),
            Statement::Drop(name) => self.drop_table(session, *name),
            Statement::Alter(text) => self.alter(alloc, session, text),
            Statement::Insert(text) => self.insert(alloc, session, text),
            Statement::Update(text) => self.update(alloc, session, text),
            Statement::Delete(text) => self.delete(alloc, session, text),
            Statement::Select(text) => self.select(alloc, text),
            Statement::ShowTable(name) => self.show_table(alloc, *name),
            Statement::ShowJournal(table) => self.show_journal(alloc, *table),
            Statement::ShowBounds(text) => self.show_bounds(alloc, text),
            Statement::Savepoint(name) => self.savepoint(session, *name),
            Statement::Commit => self.commit(alloc, session),
            Statement::Rollback => Ok(Reply::RolledBack {
                count: self.rollback(session),
            }),
            Statement::RollbackTo(name) => match self.rollback_to(session, *name) {
                Some(count) => Ok(Reply::RolledBackTo {
                    savepoint: *name,
                    count,
                }),
                None => Err(Refusal::NoSuchSavepoint),
            },
        }
    }
}
