//! The format of a store.
ghost use Rattle.std.specs.Prelude.{◌≡◌, ◌↔◌, ℤ, Err, IsTrue, MatchOption, OnOk, IfOk, [], ◌∷◌, codes};
ghost use Rattle.sqlite_value.specs.declared.value.Value.TheVariants.{Int as IntValue, Text as TextValue};
ghost use Rattle.sqlite_value.specs.Value.{owned};
ghost use Rattle.sqlite.specs.Held.{state};
ghost use Rattle.sqlite.specs.State.{HasCleanDisk};
ghost use Rattle.escrow_cells.specs.Formats.{format_number};
ghost use Rattle.escrow_cells.specs.Store.{HasTables, IsStoreSchema, metas, format};
ghost use Rattle.escrow_rows.specs.Answers.{IsUsable, OnlyReads};
ghost use Rattle.escrow_recover.specs.Inside.{IsKnown};
ghost use Rattle.escrow_recover.specs.Stored.{HasFormatBut};
ghost use Rattle.escrow_recover.specs.Format.{IsMetaOf};
ghost use Rattle.escrow_recover.specs.declared.unverified.Unverified.TheVariants as unverified;

use crate::unverified::Unverified;
use escrow_cells::{Format, Sink, failure_of};
use escrow_num::Failure;
use escrow_rows::RowStore;
use sqlite::types::ValueRef;
use sqlite::{Alter, Row};

/// Tests whether a database is a store of the known format: its schema, META, and SQLite's numbers
/// of the rows, in this order.
pub(crate) fn check_format<S: Alter>(
    store: &mut RowStore<S>,
    known: Format,
) -> Result<(), Unverified>
    ensures known { HasCleanDisk (state S.Store store.new)
        → OnOk result (IsTrue (state S.Store store.new).is_open
        × IsKnown (format_number known) (state S.Store store.old).now) }
    ensures foreign { IsUsable (state S.Store store.new) → result ≡ Err unverified.ForeignStore
        → IsKnown (format_number known) (state S.Store store.old).now → ⊥ }
    ensures other { IsUsable (state S.Store store.new) → result ≡ Err unverified.ForeignStore
        → HasFormatBut (format_number known) (state S.Store store.old).now → ⊥ }
    ensures version { IsUsable (state S.Store store.new) → result ≡ Err unverified.OtherFormat
        → HasFormatBut (format_number known) (state S.Store store.old).now }
    ensures only_reads { OnlyReads (state S.Store store.old) (state S.Store store.new) }
{
    if !store.is_store() {
        return Err(Unverified::ForeignStore);
    }
    check_meta(store, known)?;
    if store.are_numbered()? {
        Ok(())
    } else {
        Err(Unverified::ForeignStore)
    }
}

/// Tests whether META has the one row of the known format.
fn check_meta<S: Alter>(store: &mut RowStore<S>, known: Format) -> Result<(), Unverified>
    ensures known { HasCleanDisk (state S.Store store.new)
        → OnOk result (IsTrue (state S.Store store.new).is_open
        × (HasTables (state S.Store store.old).now.schema
        → metas (state S.Store store.old).now ≡ format (format_number known))) }
    ensures foreign { IsUsable (state S.Store store.new) → result ≡ Err unverified.ForeignStore
        → HasTables (state S.Store store.old).now.schema
        → metas (state S.Store store.old).now ≡ format (format_number known) → ⊥ }
    ensures other { IsUsable (state S.Store store.new) → result ≡ Err unverified.ForeignStore
        → HasFormatBut (format_number known) (state S.Store store.old).now → ⊥ }
    ensures version { IsUsable (state S.Store store.new) → result ≡ Err unverified.OtherFormat
        → IsStoreSchema (state S.Store store.old).now.schema
        → HasFormatBut (format_number known) (state S.Store store.old).now }
    ensures only_reads { OnlyReads (state S.Store store.old) (state S.Store store.new) }
{
    let mut meta = Meta::Empty;
    store.metas(&mut meta)?;
    let Meta::Format(number) = meta else {
        return Err(Unverified::ForeignStore);
    };
    let wanted = known.number();
    if number == wanted {
        Ok(())
    } else {
        Err(Unverified::OtherFormat)
    }
}

/// What META says, as it is read.
#[derive(Clone, Copy)]
enum Meta {
    /// Nothing so far.
    Empty,
    /// One row, with the number of a format.
    Format(i64),
    /// Anything else.
    Other,
}

impl Sink for Meta {
    ghost use Rattle.std.specs.Prelude.{◌≡◌};
    ghost use Rattle.escrow_recover.specs.declared.format.Meta.TheVariants.{Empty};
    ghost use Rattle.escrow_recover.specs.Format.{IsMetaOf};

    ghost has_taken = { λ first meta rows. first ≡ Empty → IsMetaOf meta rows };

    fn take(&mut self, row: &Row) -> Result<(), Failure> {
        *self = match *self {
            Meta::Empty => read_meta(row)?,
            _ => Meta::Other,
        };
        Ok(())
    }
}

/// Returns what META says if this is its one row.
fn read_meta(row: &Row) -> Result<Meta, Failure>
    ensures { IfOk result (λ meta. IsMetaOf meta (row.now ∷ [])) }
{
    if row.column_count() != 2 {
        return Ok(Meta::Other);
    }
    let name = row.get_ref(0).map_err(failure_of)?;
    let number = row.get_ref(1).map_err(failure_of)?;
    if !is_format(name) {
        return Ok(Meta::Other);
    }
    match number_in(number) {
        Some(number) => Ok(Meta::Format(number)),
        None => Ok(Meta::Other),
    }
}

/// Returns whether a value is the name of the format.
fn is_format(value: ValueRef<'_>) -> bool
    ensures { IsTrue result ↔ (owned value.entry ≡ TextValue (codes "format")) }
{
    match value {
        ValueRef::Text(name) => name == b"format".as_slice(),
        _ => false,
    }
}

/// Returns the whole number of a value, if it is one.
fn number_in(value: ValueRef<'_>) -> Option<i64>
    ensures { MatchOption result ((n : ℤ) → owned value.entry ≡ IntValue n → ⊥) (λ n. owned value.entry ≡ IntValue n) }
{
    match value {
        ValueRef::Int(number) => Some(number),
        _ => None,
    }
}
