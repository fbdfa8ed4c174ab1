//! Reads of a store before it is known to be an image.
use crate::store::RowStore;
use escrow_cells::{Sink, is_store_schema};
use escrow_num::Failure;
use sqlite::{Alter, Row};

impl<S: Alter> RowStore<S> {
    ghost use Rattle.std.specs.Prelude.{◌≡◌, ◌↔◌, IsPermutation, IsTrue, IfOk, OnOk};
    ghost use Rattle.sqlite.specs.Effect.{IsDatabase};
    ghost use Rattle.sqlite.specs.Held.{state};
    ghost use Rattle.sqlite.specs.State.{HasCleanDisk};
    ghost use Rattle.escrow_cells.specs.Store.{HasTables, IsStore, IsStoreSchema, AreAllNumbered, cells, metas, tabs};
    ghost use Rattle.escrow_cells.specs.Read.{AreTablesOfCells, AreTabs, Takes};
    ghost use Rattle.escrow_rows.specs.Answers.{OnlyReads};

    /// Returns whether the schema is that of a store. Makes no store call.
    pub fn is_store(&self) -> bool
        ensures value { IsTrue result ↔ IsStoreSchema (state S.Store self.now).now.schema }
        ensures sound { IsTrue (state S.Store self.now).is_open → IsDatabase (state S.Store self.now).now }
    {
        is_store_schema(self.conn.schema())
    }

    /// Gives the rows of META to a sink, in any order. Each has its K and its V.
    pub fn metas<K: Sink>(&mut self, sink: &mut K) -> Result<(), Failure>
        ensures rows { HasCleanDisk (state S.Store self.new)
            → OnOk result (IsTrue (state S.Store self.new).is_open
            × (HasTables (state S.Store self.old).now.schema
            → Takes K.has_taken (IsPermutation (metas (state S.Store self.old).now)) sink.old sink.new)) }
        ensures only_reads { OnlyReads (state S.Store self.old) (state S.Store self.new) }
    {
        escrow_cells::metas(&mut self.conn, sink)
    }

    /// Returns whether SQLite's own numbers of the rows of META, TAB and CELL are whole, and no
    /// number occurs twice in one of them.
    pub fn are_numbered(&mut self) -> Result<bool, Failure>
        ensures numbered { HasCleanDisk (state S.Store self.new)
            → IfOk result (λ are. IsTrue (state S.Store self.new).is_open
            × (HasTables (state S.Store self.old).now.schema
            → (IsTrue are ↔ AreAllNumbered (state S.Store self.old).now))) }
        ensures only_reads { OnlyReads (state S.Store self.old) (state S.Store self.new) }
    {
        escrow_cells::are_numbered(&mut self.conn)
    }

    /// Returns the rows of TAB, in order of ID. Each has its ID, its NAME and its DDL.
    pub fn tabs(&mut self) -> Result<Vec<Row>, Failure>
        ensures rows { HasCleanDisk (state S.Store self.new)
            → IfOk result (λ rows. IsTrue (state S.Store self.new).is_open
            × (IsStore (state S.Store self.old).now → AreTabs (tabs (state S.Store self.old).now) rows.items)) }
        ensures only_reads { OnlyReads (state S.Store self.old) (state S.Store self.new) }
    {
        escrow_cells::tabs(&mut self.conn)
    }

    /// Gives the table of each cell to a sink, in any order.
    pub fn cell_tables<K: Sink>(&mut self, sink: &mut K) -> Result<(), Failure>
        ensures rows { HasCleanDisk (state S.Store self.new)
            → OnOk result (IsTrue (state S.Store self.new).is_open
            × (HasTables (state S.Store self.old).now.schema
            → Takes K.has_taken (AreTablesOfCells (cells (state S.Store self.old).now)) sink.old sink.new)) }
        ensures only_reads { OnlyReads (state S.Store self.old) (state S.Store self.new) }
    {
        escrow_cells::cell_tables(&mut self.conn, sink)
    }
}
