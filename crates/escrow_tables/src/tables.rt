use escrow_num::Name;
use escrow_recover::Opened;
use escrow_rows::RowStore;
use escrow_schema::{Catalog, TableDef};
use sqlite::{Alter, Connection};
use std::alloc::Global;
use std::marker::Model;
use std::snapshot::Snapshot;

/// The tables of a database and their committed rows, in a store that SQLite writes. The number of
/// rows of each table is kept beside the store. The rows are those that the store held when it was
/// last written, even if a fault has shut it since.
#[derive(Drop)]
pub struct Tables<S: Alter> {
    pub(crate) store: RowStore<S>,
    // The store as it was when it was last written, for contracts only. It takes no bytes.
    pub(crate) last: Snapshot<RowStore<S>>,
    pub(crate) catalog: Catalog,
}

impl<S: Alter> Model for Tables<S> {
    ghost use Rattle.sqlite.specs.Held.{state};
    ghost use Rattle.escrow_rows.specs.View.{rows_in};
    ghost use Rattle.escrow_tables.specs.Tables.{Tables, tables_code};
    ghost use Rattle.escrow_tables.specs.Inside.{stored_of, catalog_of, Keeps};

    ghost Value = { Tables S };

    ghost coded = { tables_code S.code };

    ghost view = { λ t. record {
      store = t.store;
      catalog = catalog_of t.catalog;
      rows = rows_in (stored_of t.catalog) (state S.Store t.last.value).now;
    } };

    ghost invariant = { λ t. Keeps (state S.Store t.store) (state S.Store t.last.value) t.catalog };
}

impl<S: Alter> Tables<S> {
    ghost use Rattle.std.specs.Prelude.{◌≡◌, ◌↔◌, ◌<◌, ℕ, false, List, [], Some, length, is_some, IfSome, IsTrue, option_copied};
    ghost use Rattle.sqlite.specs.Held.{state};
    ghost use Rattle.sqlite.specs.State.{HasCleanDisk};
    ghost use Rattle.sqlite_trees.specs.Tree.{Trees};
    ghost use Rattle.escrow_num.specs.declared.row.Row.{Row};
    ghost use Rattle.escrow_schema.specs.Catalog.{place_named, table_named, IsCatalog};
    ghost use Rattle.escrow_schema.specs.Definition.{IsTable};
    ghost use Rattle.escrow_rows.specs.Answers.{IsUsable};
    ghost use Rattle.escrow_schema.specs.Rows.{rows_of, AreRowsOf};
    ghost use Rattle.escrow_schema.specs.Stored.{catalog_of};
    ghost use Rattle.escrow_recover.specs.Opened.{IsOpened, Stores};
    ghost use Rattle.escrow_tables.specs.Tables.{AreHeld};

    /// Returns the tables of a store that is opened. Makes no store call, and takes no memory.
    pub fn over(opened: Opened<S>) -> Self
        requires { HasCleanDisk (state S.Store opened.store) → IsOpened (state S.Store opened.store) opened.catalog }
        ensures store { result.store ≡ opened.store }
        ensures catalog { result.catalog ≡ catalog_of opened.catalog }
        ensures rows { (rows : List Row) → Stores (state S.Store opened.store) opened.catalog rows
            → result.rows ≡ rows }
        ensures valid { IsCatalog result.catalog }
        ensures are_rows { HasCleanDisk (state S.Store result.store) → AreRowsOf result.catalog result.rows }
    {
        let Opened {
            store,
            catalog,
            migrated: _,
        } = opened;
        prove!(catalog.tables().len() <= Catalog::MAX_TABLES);
        Tables {
            last: Snapshot::of(&store),
            store,
            catalog,
        }
    }

    /// Returns the connection to the store. Makes no store call.
    pub fn into_connection(self) -> Connection<S>
        ensures same { result ≡ self.store }
        ensures outside { result.in_transaction ≡ false }
    {
        self.store.into_connection()
    }

    /// Returns whether the store is outside a transaction, which it is between any two calls. So if
    /// the store can be used, a crash leaves exactly these tables and rows. Makes no store call.
    pub fn is_at_rest(&self) -> bool
        ensures always { IsTrue result }
        ensures left { IsUsable (state S.Store self.now.store) → (trees : Trees)
            → (state S.Store self.now.store).may_leave trees → AreHeld self.now.catalog self.now.rows trees }
    {
        self.store.is_at_rest()
    }

    /// Returns how many tables there are. Makes no store call. The catalog is valid at any time. If
    /// the disk returned what was written, the rows are rows of it.
    pub fn len(&self) -> usize
        ensures len { result ≡ length self.now.catalog }
        ensures catalog { IsCatalog self.now.catalog }
        ensures rows { HasCleanDisk (state S.Store self.now.store) → AreRowsOf self.now.catalog self.now.rows }
    {
        self.catalog.tables().len()
    }

    /// Returns whether there are no tables. Makes no store call.
    pub fn is_empty(&self) -> bool
        ensures { IsTrue result ↔ (self.now.catalog ≡ []) }
    {
        self.catalog.tables().is_empty()
    }

    /// Returns the place of the table of a name among all, in order of name. Makes no store call.
    pub fn place(&self, name: Name) -> Option<usize>
        ensures place { result ≡ place_named self.now.catalog name }
        ensures there { is_some result ≡ is_some (table_named self.now.catalog name) }
    {
        self.catalog.place(name)
    }

    /// Returns the table at a place. Makes no store call.
    pub fn table(&self, place: usize) -> &TableDef
        requires { place < length self.now.catalog }
        ensures named { (name : List ℕ) → place_named self.now.catalog name ≡ Some place
            → table_named self.now.catalog name ≡ Some result.now }
        ensures table { IsTable result.now }
        ensures catalog { IsCatalog self.now.catalog }
    {
        &self.catalog.at(place).stored.table
    }

    /// Returns the table of a name. Makes no store call.
    pub fn find(&self, name: Name) -> Option<&TableDef>
        ensures found { option_copied result ≡ table_named self.now.catalog name }
        ensures table { IfSome result (λ table. IsTable table.now) }
    {
        self.catalog.find(name)
    }

    /// Returns how many rows the table at a place has. Makes no store call.
    pub fn count(&self, place: usize) -> usize
        requires { place < length self.now.catalog }
        ensures { HasCleanDisk (state S.Store self.now.store) → (name : List ℕ)
            → place_named self.now.catalog name ≡ Some place → result ≡ length (rows_of self.now.rows name) }
    {
        self.catalog.at(place).rows
    }

    /// Limits the steps that a statement of the store may take; `None` means no limit. A call that
    /// would take more fails with [`Failure::Store`](crate::Failure::Store), and changes nothing.
    pub fn set_step_limit(&mut self, limit: Option<u64>)
        ensures store { self.new.store ≡ record self.old.store { step_limit = limit } }
        ensures catalog { self.new.catalog ≡ self.old.catalog }
        ensures rows { self.new.rows ≡ self.old.rows }
    {
        self.store.set_step_limit(limit);
    }
}
