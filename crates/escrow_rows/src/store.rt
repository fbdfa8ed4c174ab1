use crate::rowids::Rowids;
use sqlite::{Alter, Connection};
use std::marker::Model;

/// The rows of a database, in a store that SQLite writes.
#[derive(Drop)]
pub struct RowStore<S: Alter> {
    pub(crate) conn: Connection<S>,
    pub(crate) rowids: Rowids,
}

impl<S: Alter> Model for RowStore<S> {
    ghost use Rattle.std.specs.Prelude.{◌≡◌, false};
    ghost use Rattle.sqlite.specs.Held.{Held, held_code};

    ghost Value = { Held S };

    ghost coded = { held_code S.code };

    ghost view = { λ r. r.conn };

    ghost invariant = { λ r. r.conn.in_transaction ≡ false };
}

impl<S: Alter> RowStore<S> {
    ghost use Rattle.std.specs.Prelude.{◌≡◌, false, IsTrue};
    ghost use Rattle.sqlite.specs.Held.{state};
    ghost use Rattle.sqlite_trees.specs.Tree.{Trees};

    /// Returns the rows in the store of a connection that is outside a transaction. Makes no store
    /// call.
    pub fn over(conn: Connection<S>) -> Self
        requires { conn.in_transaction ≡ false }
        ensures { result ≡ conn }
    {
        RowStore {
            conn,
            rowids: Rowids::new(),
        }
    }

    /// Returns the connection. Makes no store call.
    pub fn into_connection(self) -> Connection<S>
        ensures same { result ≡ self }
        ensures outside { result.in_transaction ≡ false }
    {
        let RowStore { conn, rowids: _ } = self;
        conn
    }

    /// Returns whether the connection is outside a transaction, which it is between any two calls.
    /// So a crash leaves exactly what the store holds, as long as no fault has shut it. Makes no
    /// store call.
    pub fn is_at_rest(&self) -> bool
        ensures always { IsTrue result }
        ensures left { IsTrue (state S.Store self.now).is_open → (trees : Trees)
            → (state S.Store self.now).may_leave trees → trees ≡ (state S.Store self.now).now.trees }
    {
        self.conn.is_autocommit()
    }

    /// Limits the steps that a statement of the store may take; `None` means no limit. A call that
    /// would take more fails with [`Failure::Store`](crate::Failure::Store), and changes nothing.
    pub fn set_step_limit(&mut self, limit: Option<u64>)
        ensures { self.new ≡ record self.old { step_limit = limit } }
    {
        self.conn.set_step_limit(limit);
    }
}
