ghost use Rattle.std.specs.Prelude.{◌≡◌, ◌≢◌, false, [], IsTrue, IfOk, IfErr};
ghost use Rattle.sqlite.specs.Held.{state};
ghost use Rattle.sqlite.specs.State.{HasCleanDisk, Survives};
ghost use Rattle.sqlite_trees.specs.Tree.{Trees};
ghost use Rattle.escrow_num.specs.declared.failure.Failure.{Failure as Why};
ghost use Rattle.escrow_num.specs.Refusal.{refusal_for};
ghost use Rattle.escrow_cells.specs.Tables.{no_schema};
ghost use Rattle.escrow_rows.specs.Answers.{IsUsable, OnlyReads};
ghost use Rattle.escrow_recover.specs.Found.{IsFounded};
ghost use Rattle.escrow_recover.specs.Opened.{IsOpened, IsOpening, Stores};
ghost use Rattle.escrow_recover.specs.Stored.{IsNoStore, HasOtherFormat};
ghost use Rattle.escrow_recover.specs.declared.unverified.Unverified.TheVariants as unverified;

use crate::bare::{is_bare, make_store};
use crate::unverified::Unverified;
use crate::whole::verify_format;
use escrow_cells::Format;
use escrow_num::Refusal;
use escrow_rows::RowStore;
use escrow_schema::Catalog;
use sqlite::{Alter, Connection};
use std::alloc::Global;

/// A store that was opened.
#[derive(Drop)]
pub struct Opened<S: Alter> {
    /// The store.
    pub store: RowStore<S>,
    /// Its tables, with their numbers of rows.
    pub catalog: Catalog,
    /// Whether it had the previous format, and has the known one since.
    pub migrated: bool,
}

/// A store that isn't opened, and why.
#[derive(Drop)]
pub struct StoreFault<S: Alter> {
    /// The connection to it.
    pub connection: Connection<S>,
    /// Why it isn't opened.
    pub cause: Refusal,
}

/// Opens a store. A database without objects becomes an empty store, in one transaction. Any other
/// is read completely and tested, and nothing is changed.
///
/// # Errors
///
/// Fails with [`Refusal::Memory`] (51), [`Refusal::Store`] (60), [`Refusal::ForeignStore`] (61) or
/// [`Refusal::UnknownVersion`] (62), and returns the connection. If it is inside a transaction, it
/// is refused as by the store.
pub fn open_store<S: Alter>(
    alloc: Global,
    connection: Connection<S>,
) -> Result<Opened<S>, StoreFault<S>>
    // The store has these tables, with their numbers of rows, and each row meets its checks. It is
    // what was there, or an empty one.
    ensures store { IfOk result
        (λ o. HasCleanDisk (state S.Store o.store) → IsOpened (state S.Store o.store) o.catalog) }
    ensures found { IfOk result
        (λ o. IsUsable (state S.Store o.store) → (state S.Store connection).now.schema ≢ no_schema
        → (state S.Store o.store).now ≡ (state S.Store connection).now) }
    ensures made { IfOk result
        (λ o. (state S.Store connection).now.schema ≡ no_schema → (o.catalog ≡ [])
        × (HasCleanDisk (state S.Store o.store) → Stores (state S.Store o.store) [] [])) }
    ensures same { IfOk result (λ o. o.migrated ≡ false) }

    // Why a store isn't opened: 51 or 60 if there was no object. If the store can be used, 61 is
    // returned only if it is no store and names no other format, and 62 only if it names one.
    ensures bare { (state S.Store connection).now.schema ≡ no_schema
        → IfErr result (λ f. (why : Why) × (f.cause ≡ refusal_for why)) }
    ensures foreign { IfErr result
        (λ f. IsUsable (state S.Store f.connection) → f.cause ≡ Refusal.ForeignStore
        → IsNoStore (state S.Store connection).now) }
    ensures version { IfErr result
        (λ f. IsUsable (state S.Store f.connection) → f.cause ≡ Refusal.UnknownVersion
        → HasOtherFormat (state S.Store connection).now) }
    ensures other { IfErr result
        (λ f. IsUsable (state S.Store f.connection) → f.cause ≡ Refusal.ForeignStore
        → HasOtherFormat (state S.Store connection).now → ⊥) }
    ensures only { IfErr result (λ f. IsOpening f.cause) }

    // A store that isn't opened and can be used holds what it held.
    ensures kept { IfErr result
        (λ f. IsUsable (state S.Store f.connection)
        → (state S.Store f.connection).now ≡ (state S.Store connection).now) }
    ensures outside { connection.in_transaction ≡ false → IfErr result (λ f. f.connection.in_transaction ≡ false) }

    // If the store is usable, it was before. After a crash the disk has what it might have had
    // before, or an empty store if there was no object.
    ensures usable_opened { IfOk result (λ o. IsUsable (state S.Store o.store) → IsUsable (state S.Store connection)) }
    ensures usable_refused { IfErr result
        (λ f. IsUsable (state S.Store f.connection) → IsUsable (state S.Store connection)) }
    ensures durable { IfOk result
        (λ o. HasCleanDisk (state S.Store o.store) → (state S.Store connection).now.schema ≡ no_schema → (trees : Trees)
        → (state S.Store o.store).may_leave trees → trees ≡ (state S.Store o.store).now.trees) }
    ensures crash_opened { IfOk result
        (λ o. Survives (state S.Store connection) (state S.Store o.store) (IsFounded (state S.Store connection).now)) }
    ensures crash_refused { IfErr result
        (λ f. Survives (state S.Store connection) (state S.Store f.connection)
        (IsFounded (state S.Store connection).now)) }
{
    if !connection.is_autocommit() {
        return Err(StoreFault {
            connection,
            cause: Refusal::Store,
        });
    }
    if is_bare(connection.schema()) {
        make_empty(alloc, connection)
    } else {
        read_whole(alloc, connection)
    }
}

/// Makes an empty store from a database without objects.
pub(crate) fn make_empty<S: Alter>(
    alloc: Global,
    mut connection: Connection<S>,
) -> Result<Opened<S>, StoreFault<S>>
    requires outside { connection.in_transaction ≡ false }
    requires bare { (state S.Store connection).now.schema ≡ no_schema }
    ensures store { IfOk result
        (λ o. HasCleanDisk (state S.Store o.store) → IsOpened (state S.Store o.store) o.catalog) }
    ensures made { IfOk result
        (λ o. (o.catalog ≡ []) × (HasCleanDisk (state S.Store o.store) → Stores (state S.Store o.store) [] [])) }
    ensures same { IfOk result (λ o. o.migrated ≡ false) }
    ensures cause { IfErr result (λ f. (why : Why) × (f.cause ≡ refusal_for why)) }
    ensures kept { IfErr result
        (λ f. IsUsable (state S.Store f.connection)
        → (state S.Store f.connection).now ≡ (state S.Store connection).now) }
    ensures outside { IfErr result (λ f. f.connection.in_transaction ≡ false) }
    ensures usable_opened { IfOk result (λ o. IsUsable (state S.Store o.store) → IsUsable (state S.Store connection)) }
    ensures usable_refused { IfErr result
        (λ f. IsUsable (state S.Store f.connection) → IsUsable (state S.Store connection)) }
    ensures durable { IfOk result
        (λ o. HasCleanDisk (state S.Store o.store) → (trees : Trees) → (state S.Store o.store).may_leave trees
        → trees ≡ (state S.Store o.store).now.trees) }
    ensures crash_opened { IfOk result
        (λ o. Survives (state S.Store connection) (state S.Store o.store) (IsFounded (state S.Store connection).now)) }
    ensures crash_refused { IfErr result
        (λ f. Survives (state S.Store connection) (state S.Store f.connection)
        (IsFounded (state S.Store connection).now)) }
{
    match make_store(&mut connection) {
        Ok(()) => Ok(Opened {
            store: RowStore::over(connection),
            catalog: Catalog::new(alloc),
            migrated: false,
        }),
        Err(failure) => Err(StoreFault {
            connection,
            cause: Refusal::from(failure),
        }),
    }
}

/// Opens a store that was written before: reads and tests everything that is stored.
fn read_whole<S: Alter>(
    alloc: Global,
    connection: Connection<S>,
) -> Result<Opened<S>, StoreFault<S>>
    requires { connection.in_transaction ≡ false }
    ensures store { IfOk result
        (λ o. HasCleanDisk (state S.Store o.store) → IsOpened (state S.Store o.store) o.catalog) }
    ensures same { IfOk result (λ o. o.migrated ≡ false) }
    ensures foreign { IfErr result
        (λ f. IsUsable (state S.Store f.connection) → f.cause ≡ Refusal.ForeignStore
        → IsNoStore (state S.Store connection).now) }
    ensures version { IfErr result
        (λ f. IsUsable (state S.Store f.connection) → f.cause ≡ Refusal.UnknownVersion
        → HasOtherFormat (state S.Store connection).now) }
    ensures other { IfErr result
        (λ f. IsUsable (state S.Store f.connection) → f.cause ≡ Refusal.ForeignStore
        → HasOtherFormat (state S.Store connection).now → ⊥) }
    ensures only { IfErr result (λ f. IsOpening f.cause) }
    ensures outside { IfErr result (λ f. f.connection.in_transaction ≡ false) }
    ensures only_reads { IfOk result (λ o. OnlyReads (state S.Store connection) (state S.Store o.store)) }
    ensures only_reads_refused { IfErr result (λ f. OnlyReads (state S.Store connection) (state S.Store f.connection)) }
{
    match read_store(alloc, RowStore::over(connection)) {
        Ok(opened) => Ok(opened),
        Err((store, why)) => Err(unopened(store, why)),
    }
}

/// Returns the connection to a store that isn't verified, with the refusal.
pub(crate) fn unopened<S: Alter>(store: RowStore<S>, why: Unverified) -> StoreFault<S>
    ensures connection { result.connection ≡ store }
    ensures outside { result.connection.in_transaction ≡ false }
    ensures foreign { result.cause ≡ Refusal.ForeignStore → why ≡ unverified.ForeignStore }
    ensures version { result.cause ≡ Refusal.UnknownVersion → why ≡ unverified.OtherFormat }
    ensures only { IsOpening result.cause }
{
    StoreFault {
        connection: store.into_connection(),
        cause: Refusal::from(why),
    }
}

/// Opens a store in the known format. If it isn't verified, it is returned with the reason.
pub(crate) fn read_store<S: Alter>(
    alloc: Global,
    mut store: RowStore<S>,
) -> Result<Opened<S>, (RowStore<S>, Unverified)>
    ensures store { IfOk result
        (λ o. HasCleanDisk (state S.Store o.store) → IsOpened (state S.Store o.store) o.catalog) }
    ensures same { IfOk result (λ o. o.migrated ≡ false) }
    ensures foreign { IfErr result
        (λ f. IsUsable (state S.Store f.0) → f.1 ≡ unverified.ForeignStore → IsNoStore (state S.Store store).now) }
    ensures version { IfErr result
        (λ f. IsUsable (state S.Store f.0) → f.1 ≡ unverified.OtherFormat → HasOtherFormat (state S.Store store).now) }
    ensures other { IfErr result
        (λ f. IsUsable (state S.Store f.0) → f.1 ≡ unverified.ForeignStore → HasOtherFormat (state S.Store store).now
        → ⊥) }
    ensures only_reads { IfOk result (λ o. OnlyReads (state S.Store store) (state S.Store o.store)) }
    ensures only_reads_refused { IfErr result (λ f. OnlyReads (state S.Store store) (state S.Store f.0)) }
{
    match verify_format(alloc, &mut store, Format::Known) {
        Ok(tables) => Ok(Opened {
            store,
            catalog: Catalog::of(tables),
            migrated: false,
        }),
        Err(why) => Err((store, why)),
    }
}
