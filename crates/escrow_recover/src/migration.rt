ghost use Rattle.std.specs.Prelude.{◌≡◌, ◌≢◌, ◌↔◌, false, [], IsTrue, IfOk, IfErr};
ghost use Rattle.sqlite.specs.Held.{state};
ghost use Rattle.sqlite.specs.State.{HasCleanDisk, Survives};
ghost use Rattle.sqlite_trees.specs.Tree.{Trees};
ghost use Rattle.escrow_num.specs.declared.failure.Failure.{Failure as Why};
ghost use Rattle.escrow_num.specs.Refusal.{refusal_for};
ghost use Rattle.escrow_cells.specs.declared.formats.TheConstants.{FORMAT_1};
ghost use Rattle.escrow_cells.specs.Tables.{no_schema};
ghost use Rattle.escrow_rows.specs.Answers.{IsUsable};
ghost use Rattle.escrow_recover.specs.Inside.{WasMigrated};
ghost use Rattle.escrow_recover.specs.Migrated.{HasUnknownFormat, IsMade, IsMigratedFrom};
ghost use Rattle.escrow_recover.specs.Opened.{IsOpened, IsOpening, Stores};
ghost use Rattle.escrow_recover.specs.Stored.{IsNoStore, IsNoFormat1Store, HasFormat, HasFormatBut};
ghost use Rattle.escrow_recover.specs.declared.unverified.Unverified.TheVariants as unverified;

use crate::bare::is_bare;
use crate::format_1::verify_format_1;
use crate::open::{Opened, StoreFault, make_empty, read_store, unopened};
use crate::unverified::Unverified;
use escrow_num::Refusal;
use escrow_rows::RowStore;
use escrow_schema::Catalog;
use sqlite::{Alter, Connection};
use std::alloc::Global;

/// Opens a store, as [`open_store`](crate::open_store) does. Beyond that, it migrates a store of
/// the previous format to the known one, in one transaction. All of it is read and tested first, as
/// a store of the previous format, in which no column has a scale.
///
/// # Errors
///
/// Fails as [`open_store`](crate::open_store) does. If the connection is inside a transaction, it
/// is refused as by the store (60). A database that has the previous format but isn't a store of it
/// is refused as no store (61).
pub fn migrate<S: Alter>(
    alloc: Global,
    connection: Connection<S>,
) -> Result<Opened<S>, StoreFault<S>>
    // The store has these tables, with their numbers of rows, and each row meets its checks. It is
    // what was there, in either format, or an empty one.
    ensures store { IfOk result
        (λ o. HasCleanDisk (state S.Store o.store) → IsOpened (state S.Store o.store) o.catalog) }
    ensures found { IfOk result
        (λ o. IsUsable (state S.Store o.store) → (state S.Store connection).now.schema ≢ no_schema → o.migrated ≡ false
        → (state S.Store o.store).now ≡ (state S.Store connection).now) }
    ensures migrated { IfOk result
        (λ o. HasCleanDisk (state S.Store o.store) → IsTrue o.migrated
        → IsMigratedFrom (state S.Store connection).now (state S.Store o.store) o.catalog) }
    ensures flag { IfOk result
        (λ o. HasCleanDisk (state S.Store o.store)
        → (IsTrue o.migrated ↔ HasFormat FORMAT_1 (state S.Store connection).now)) }
    ensures made { IfOk result
        (λ o. (state S.Store connection).now.schema ≡ no_schema → (o.catalog ≡ [])
        × (HasCleanDisk (state S.Store o.store) → Stores (state S.Store o.store) [] [])) }

    // Why a store isn't opened: 51 or 60 if there was no object. If the store can be used, 61 is
    // returned only if it is no store of either format and names no third one, and 62 only if it
    // names one.
    ensures bare { (state S.Store connection).now.schema ≡ no_schema
        → IfErr result (λ f. (why : Why) × (f.cause ≡ refusal_for why)) }
    ensures foreign { IfErr result
        (λ f. IsUsable (state S.Store f.connection) → f.cause ≡ Refusal.ForeignStore
        → IsNoStore (state S.Store connection).now × IsNoFormat1Store (state S.Store connection).now) }
    ensures version { IfErr result
        (λ f. IsUsable (state S.Store f.connection) → f.cause ≡ Refusal.UnknownVersion
        → HasUnknownFormat (state S.Store connection).now) }
    ensures other { IfErr result
        (λ f. IsUsable (state S.Store f.connection) → f.cause ≡ Refusal.ForeignStore
        → HasUnknownFormat (state S.Store connection).now → ⊥) }
    ensures only { IfErr result (λ f. IsOpening f.cause) }

    // A store that isn't opened and can be used holds what it held.
    ensures kept { IfErr result
        (λ f. IsUsable (state S.Store f.connection)
        → (state S.Store f.connection).now ≡ (state S.Store connection).now) }
    ensures outside { connection.in_transaction ≡ false → IfErr result (λ f. f.connection.in_transaction ≡ false) }

    // If the store is usable, it was before. After a crash the disk has what it might have had
    // before; an empty store, if there was no object; or the tables and rows of a store in the
    // previous format, in the known one.
    ensures usable_opened { IfOk result (λ o. IsUsable (state S.Store o.store) → IsUsable (state S.Store connection)) }
    ensures usable_refused { IfErr result
        (λ f. IsUsable (state S.Store f.connection) → IsUsable (state S.Store connection)) }
    ensures durable_made { IfOk result
        (λ o. HasCleanDisk (state S.Store o.store) → (state S.Store connection).now.schema ≡ no_schema → (trees : Trees)
        → (state S.Store o.store).may_leave trees → trees ≡ (state S.Store o.store).now.trees) }
    ensures durable_migrated { IfOk result
        (λ o. HasCleanDisk (state S.Store o.store) → IsTrue o.migrated → (trees : Trees)
        → (state S.Store o.store).may_leave trees → trees ≡ (state S.Store o.store).now.trees) }
    ensures crash_opened { IfOk result
        (λ o. Survives (state S.Store connection) (state S.Store o.store) (IsMade (state S.Store connection).now)) }
    ensures crash_refused { IfErr result
        (λ f. Survives (state S.Store connection) (state S.Store f.connection)
        (IsMade (state S.Store connection).now)) }
{
    if !connection.is_autocommit() {
        return Err(StoreFault {
            connection,
            cause: Refusal::Store,
        });
    }
    if is_bare(connection.schema()) {
        make_empty(alloc, connection)
    } else {
        migrate_whole(alloc, connection)
    }
}

/// Opens a store that was written before.
fn migrate_whole<S: Alter>(
    alloc: Global,
    connection: Connection<S>,
) -> Result<Opened<S>, StoreFault<S>>
    requires outside { connection.in_transaction ≡ false }
    requires there { (state S.Store connection).now.schema ≢ no_schema }
    ensures store { IfOk result
        (λ o. HasCleanDisk (state S.Store o.store) → IsOpened (state S.Store o.store) o.catalog) }
    ensures found { IfOk result
        (λ o. IsUsable (state S.Store o.store) → o.migrated ≡ false
        → (state S.Store o.store).now ≡ (state S.Store connection).now) }
    ensures migrated { IfOk result
        (λ o. HasCleanDisk (state S.Store o.store) → IsTrue o.migrated
        → IsMigratedFrom (state S.Store connection).now (state S.Store o.store) o.catalog) }
    ensures flag { IfOk result
        (λ o. HasCleanDisk (state S.Store o.store)
        → (IsTrue o.migrated ↔ HasFormat FORMAT_1 (state S.Store connection).now)) }
    ensures foreign { IfErr result
        (λ f. IsUsable (state S.Store f.connection) → f.cause ≡ Refusal.ForeignStore
        → IsNoStore (state S.Store connection).now × IsNoFormat1Store (state S.Store connection).now) }
    ensures version { IfErr result
        (λ f. IsUsable (state S.Store f.connection) → f.cause ≡ Refusal.UnknownVersion
        → HasUnknownFormat (state S.Store connection).now) }
    ensures other { IfErr result
        (λ f. IsUsable (state S.Store f.connection) → f.cause ≡ Refusal.ForeignStore
        → HasUnknownFormat (state S.Store connection).now → ⊥) }
    ensures only { IfErr result (λ f. IsOpening f.cause) }
    ensures kept { IfErr result
        (λ f. IsUsable (state S.Store f.connection)
        → (state S.Store f.connection).now ≡ (state S.Store connection).now) }
    ensures outside { IfErr result (λ f. f.connection.in_transaction ≡ false) }
    ensures usable_opened { IfOk result (λ o. IsUsable (state S.Store o.store) → IsUsable (state S.Store connection)) }
    ensures usable_refused { IfErr result
        (λ f. IsUsable (state S.Store f.connection) → IsUsable (state S.Store connection)) }
    ensures durable_migrated { IfOk result
        (λ o. HasCleanDisk (state S.Store o.store) → IsTrue o.migrated → (trees : Trees)
        → (state S.Store o.store).may_leave trees → trees ≡ (state S.Store o.store).now.trees) }
    ensures crash_opened { IfOk result
        (λ o. Survives (state S.Store connection) (state S.Store o.store) (IsMade (state S.Store connection).now)) }
    ensures crash_refused { IfErr result
        (λ f. Survives (state S.Store connection) (state S.Store f.connection)
        (IsMade (state S.Store connection).now)) }
{
    match read_any(alloc, RowStore::over(connection)) {
        Ok(opened) => Ok(opened),
        Err((store, why)) => Err(unopened(store, why)),
    }
}

/// Opens a store of either format, which has the known one afterwards. If it isn't verified, it is
/// returned with the reason.
fn read_any<S: Alter>(
    alloc: Global,
    store: RowStore<S>,
) -> Result<Opened<S>, (RowStore<S>, Unverified)>
    ensures store { IfOk result
        (λ o. HasCleanDisk (state S.Store o.store) → IsOpened (state S.Store o.store) o.catalog) }
    ensures found { IfOk result
        (λ o. IsUsable (state S.Store o.store) → o.migrated ≡ false
        → (state S.Store o.store).now ≡ (state S.Store store).now) }
    ensures migrated { IfOk result
        (λ o. HasCleanDisk (state S.Store o.store) → IsTrue o.migrated
        → IsMigratedFrom (state S.Store store).now (state S.Store o.store) o.catalog) }
    ensures flag { IfOk result
        (λ o. HasCleanDisk (state S.Store o.store)
        → (IsTrue o.migrated ↔ HasFormat FORMAT_1 (state S.Store store).now)) }
    ensures foreign { IfErr result
        (λ f. IsUsable (state S.Store f.0) → f.1 ≡ unverified.ForeignStore → IsNoStore (state S.Store store).now
        × IsNoFormat1Store (state S.Store store).now) }
    ensures version { IfErr result
        (λ f. IsUsable (state S.Store f.0) → f.1 ≡ unverified.OtherFormat
        → HasUnknownFormat (state S.Store store).now) }
    ensures other { IfErr result
        (λ f. IsUsable (state S.Store f.0) → f.1 ≡ unverified.ForeignStore → HasUnknownFormat (state S.Store store).now
        → ⊥) }
    ensures kept { IfErr result
        (λ f. IsUsable (state S.Store f.0) → (state S.Store f.0).now ≡ (state S.Store store).now) }
    ensures usable_opened { IfOk result (λ o. IsUsable (state S.Store o.store) → IsUsable (state S.Store store)) }
    ensures usable_refused { IfErr result (λ f. IsUsable (state S.Store f.0) → IsUsable (state S.Store store)) }
    ensures durable_migrated { IfOk result
        (λ o. HasCleanDisk (state S.Store o.store) → IsTrue o.migrated → (trees : Trees)
        → (state S.Store o.store).may_leave trees → trees ≡ (state S.Store o.store).now.trees) }
    ensures crash_opened { IfOk result
        (λ o. Survives (state S.Store store) (state S.Store o.store) (IsMade (state S.Store store).now)) }
    ensures crash_refused { IfErr result
        (λ f. Survives (state S.Store store) (state S.Store f.0) (IsMade (state S.Store store).now)) }
{
    match read_store(alloc, store) {
        Ok(opened) => Ok(opened),
        Err((store, Unverified::OtherFormat)) => match read_before(alloc, store) {
            Ok((store, catalog)) => Ok(Opened {
                store,
                catalog,
                migrated: true,
            }),
            Err(refused) => Err(refused),
        },
        Err(refused) => Err(refused),
    }
}

/// Reads a store in the previous format, and migrates it to the known one. If it isn't verified, it
/// is returned with the reason.
fn read_before<S: Alter>(
    alloc: Global,
    mut store: RowStore<S>,
) -> Result<(RowStore<S>, Catalog), (RowStore<S>, Unverified)>
    ensures store { IfOk result (λ o. HasCleanDisk (state S.Store o.0) → IsOpened (state S.Store o.0) o.1) }
    ensures migrated { IfOk result
        (λ o. HasCleanDisk (state S.Store o.0) → IsMigratedFrom (state S.Store store).now (state S.Store o.0) o.1) }
    ensures foreign { IfErr result
        (λ f. IsUsable (state S.Store f.0) → f.1 ≡ unverified.ForeignStore
        → IsNoFormat1Store (state S.Store store).now) }
    ensures version { IfErr result
        (λ f. IsUsable (state S.Store f.0) → f.1 ≡ unverified.OtherFormat
        → HasFormatBut FORMAT_1 (state S.Store store).now) }
    ensures other { IfErr result
        (λ f. IsUsable (state S.Store f.0) → f.1 ≡ unverified.ForeignStore
        → HasFormatBut FORMAT_1 (state S.Store store).now → ⊥) }
    ensures kept { IfErr result
        (λ f. IsUsable (state S.Store f.0) → (state S.Store f.0).now ≡ (state S.Store store).now) }
    ensures usable_opened { IfOk result (λ o. IsUsable (state S.Store o.0) → IsUsable (state S.Store store)) }
    ensures usable_refused { IfErr result (λ f. IsUsable (state S.Store f.0) → IsUsable (state S.Store store)) }
    ensures durable { IfOk result
        (λ o. HasCleanDisk (state S.Store o.0) → (trees : Trees) → (state S.Store o.0).may_leave trees
        → trees ≡ (state S.Store o.0).now.trees) }
    ensures crash_opened { IfOk result
        (λ o. Survives (state S.Store store) (state S.Store o.0) (WasMigrated (state S.Store store))) }
    ensures crash_refused { IfErr result
        (λ f. Survives (state S.Store store) (state S.Store f.0) (WasMigrated (state S.Store store))) }
{
    let catalog = match verify_format_1(alloc, &mut store) {
        Ok(catalog) => catalog,
        Err(why) => return Err((store, why)),
    };
    match store.migrate() {
        Ok(()) => Ok((store, catalog)),
        Err(failure) => Err((store, Unverified::Failed(failure))),
    }
}
