//! The pass of a session, its receipts, and the answers to its calls.
ghost use Rattle.std.specs.Prelude.{◌≡◌, ◌↔◌, IsTrue};
ghost use Rattle.escrow_shards.specs.Receipts.{receipt_of};

use escrow_machine::Reply;
use escrow_num::{Refusal, Session};
use escrow_statement::Statement;
use escrow_transcript::Entry;
use std::alloc::Global;
use std::marker::Model;

/// The pass of a session of a database: its token for calls, with a receipt for each of its calls
/// that was served. Use it only with the databases with which it was made.
#[derive(Debug)]
pub struct Pass {
    pub(crate) database: usize,
    pub(crate) session: Session,
    pub(crate) receipts: Vec<Receipt>,
}

// Written out, so that crates above need not prove again how its parts are dropped.
impl Drop for Pass {
    fn drop(self) {
        let Pass {
            database: _,
            session: _,
            receipts: _,
        } = self;
    }
}

impl Model for Pass {
    ghost use Rattle.escrow_shards.specs.Pass.{Pass};

    ghost Value = { Pass };

    ghost view = { λ p. record { database = p.database; session = p.session; receipts = p.receipts.items } };
}

impl Pass {
    ghost use Rattle.std.specs.Prelude.{◌≡◌, ◌↔◌, ◌∷◌, [], ◌++◌, IsTrue, OnOk, OnErr, vec_len};
    ghost use Rattle.escrow_num.specs.Session.{IsSession};
    ghost use Rattle.escrow_shards.specs.Pass.{is_at, IsPassOf, new_pass};

    /// Returns a pass without receipts. Takes no memory.
    pub(crate) fn new(alloc: Global, database: usize, session: Session) -> Self
        ensures { result ≡ new_pass database session }
    {
        Pass {
            database,
            session,
            receipts: Vec::new(alloc),
        }
    }

    /// Returns the database of the pass, counted from 0.
    pub fn database(&self) -> usize
        ensures { result ≡ self.now.database }
    {
        self.database
    }

    /// Returns the session of the pass.
    pub fn session(&self) -> Session
        ensures session { result ≡ self.now.session }
        ensures within { IsSession result }
    {
        prove!(self.session.get() >= 1);
        self.session
    }

    /// Returns the receipts, in order: one for each call that was served.
    pub fn receipts(&self) -> &[Receipt]
        ensures { result.now ≡ self.now.receipts }
    {
        self.receipts.as_slice()
    }

    /// Returns whether the pass is for a session of a database.
    pub(crate) fn is_at(&self, database: usize, session: usize) -> bool
        ensures { result ≡ is_at database session self.now }
    {
        self.database == database && usize::from(self.session.get()) == session
    }

    /// Returns whether the pass is for one of the first `databases` databases and one of the first
    /// `sessions` sessions.
    pub(crate) fn is_pass_of(&self, databases: usize, sessions: u16) -> bool
        ensures { IsTrue result ↔ IsPassOf databases sessions self.now }
    {
        self.database < databases && self.session.get() <= sessions
    }
}

/// What a session keeps of a call that was served.
#[derive(Debug, Drop)]
pub struct Receipt {
    /// The number of its entry.
    pub number: u64,
    /// The statement.
    pub statement: Statement,
    /// The reply to it.
    pub reply: Reply,
}

/// Returns whether a receipt is that of an entry: it has the entry's number, statement and reply.
pub(crate) fn is_receipt_of(receipt: &Receipt, entry: &Entry) -> bool
    ensures { IsTrue result ↔ (receipt.now ≡ receipt_of entry.now) }
{
    receipt.number == entry.number
        && receipt.statement.is_same(&entry.statement)
        && receipt.reply.is_same(&entry.reply)
}

/// The answer to a call.
#[derive(Debug, Drop)]
pub enum Answer {
    /// The statement was served. This is the machine's reply, which may be a refusal.
    Served(Reply),
    /// It wasn't served, and nothing changed: 51, 52 or 60.
    Unserved(Refusal),
}
