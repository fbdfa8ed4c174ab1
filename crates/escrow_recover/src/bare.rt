//! A database without objects.
ghost use Rattle.std.specs.Prelude.{◌≡◌, ◌↔◌, false, [], IsTrue, OnOk, OnErr};
ghost use Rattle.sqlite.specs.Held.{state};
ghost use Rattle.sqlite.specs.State.{HasCleanDisk, Survives};
ghost use Rattle.sqlite_trees.specs.Tree.{Trees};
ghost use Rattle.escrow_cells.specs.Tables.{no_schema};
ghost use Rattle.escrow_rows.specs.Image.{IsImage};
ghost use Rattle.escrow_rows.specs.Answers.{IsUsable};
ghost use Rattle.escrow_recover.specs.Found.{IsFounded};

use escrow_cells::create;
use escrow_num::Failure;
use sqlite::{Alter, Connection};
use sqlite_schema::schema::Schema;

/// Returns whether a schema has no object.
pub(crate) fn is_bare(schema: &Schema) -> bool
    ensures { IsTrue result ↔ (schema.now ≡ no_schema) }
{
    schema.tables.is_empty() && schema.indexes.is_empty() && schema.views.is_empty()
}

/// Makes an empty store from a database without objects, in one transaction.
pub(crate) fn make_store<S: Alter>(connection: &mut Connection<S>) -> Result<(), Failure>
    requires outside { connection.old.in_transaction ≡ false }
    requires bare { (state S.Store connection.old).now.schema ≡ no_schema }
    ensures image { HasCleanDisk (state S.Store connection.new)
        → OnOk result (IsTrue (state S.Store connection.new).is_open
        × IsImage [] [] (state S.Store connection.new).now) }
    ensures kept { HasCleanDisk (state S.Store connection.new) → IsTrue (state S.Store connection.new).is_open
        → OnErr result ((state S.Store connection.new).now ≡ (state S.Store connection.old).now) }
    ensures mode { connection.new.in_transaction ≡ false }
    ensures usable { IsUsable (state S.Store connection.new) → IsUsable (state S.Store connection.old) }
    ensures durable { HasCleanDisk (state S.Store connection.new)
        → OnOk result ((trees : Trees) → (state S.Store connection.new).may_leave trees
        → trees ≡ (state S.Store connection.new).now.trees) }
    ensures crash { Survives (state S.Store connection.old) (state S.Store connection.new)
        (IsFounded (state S.Store connection.old).now) }
{
    create(connection)
}
