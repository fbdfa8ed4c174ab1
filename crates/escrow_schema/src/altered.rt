//! The table that an ALTER TABLE makes from one. Only its declared checks change.
ghost use Rattle.std.specs.Prelude.{◌≡◌, ◌⊎◌, ◌<◌, Ok, Err, IfOk, IfErr, IfSome, IsErr, bytes_eq, length, position};
ghost use Rattle.escrow_num.specs.declared.refusal.Refusal.TheVariants as refusal;
ghost use Rattle.escrow_schema.specs.Altered.{altered, declared_place, with_check, without_check_at};
ghost use Rattle.escrow_schema.specs.Definition.{IsTable};
ghost use Rattle.escrow_schema.specs.Print.{declared_checks};

use crate::definition::{checks_behind, table_with};
use crate::rules::{declared_checks, reservables};
use crate::table::TableDef;
use escrow_checks::Check;
use escrow_num::{Name, Refusal, Seq, copy_all};
use escrow_statement::{CheckText, TableChange};
use std::alloc::{AllocError, Global};

/// Returns the table that a change makes from one. An added CHECK is refused as a bad definition
/// only if all declared checks together break a rule; reading it takes memory. If a constraint is
/// to be dropped and no declared check has its name, the answer is that there is no such
/// constraint, however little memory there is.
pub fn alter(alloc: Global, table: &TableDef, change: &TableChange) -> Result<TableDef, Refusal>
    requires { IsTable table.now }
    ensures made { IfOk result (λ made. altered table.now change.now ≡ Ok made) }
    ensures table { IfOk result IsTable }
    ensures refused { IfErr (altered table.now change.now) (λ e. IsErr result) }
    ensures missing { altered table.now change.now ≡ Err refusal.NoSuchConstraint
        → result ≡ Err refusal.NoSuchConstraint }
    ensures only { IfErr result (λ e. (altered table.now change.now ≡ Err e) ⊎ (e ≡ Refusal.Memory)) }
{
    match change {
        TableChange::Add(text) => match with_check(alloc, table, text)? {
            Some(made) => Ok(made),
            None => Err(Refusal::BadDefinition),
        },
        TableChange::Drop(name) => match declared_place(table, *name) {
            Some(place) => Ok(without_check_at(alloc, table, place)?),
            None => Err(Refusal::NoSuchConstraint),
        },
    }
}

/// Returns the table with the checks of one more CHECK, after the declared ones and before those of
/// the ranges. Returns `None` if all of them together break a rule of definitions. Fails only if
/// memory is refused.
pub fn with_check(
    alloc: Global,
    table: &TableDef,
    text: &CheckText,
) -> Result<Option<TableDef>, AllocError>
    requires { IsTable table.now }
    ensures made { IfOk result (λ made. made ≡ with_check table.now text.now) }
    ensures table { IfOk result (λ made. IfSome made IsTable) }
{
    let columns = copy_all(alloc, table.columns.as_slice())?;
    let reservable = reservables(alloc, columns.as_slice())?;
    let declared = declared_checks(table);
    match checks_behind(alloc, declared, &[text], reservable.as_slice())? {
        Some(written) => table_with(
            alloc,
            table.name,
            columns,
            reservable.as_slice(),
            table.key,
            written,
        ),
        None => Ok(None),
    }
}

/// Returns the place of the declared check of a name. The check of a range isn't a declared one.
/// Takes no memory.
pub fn declared_place(table: &TableDef, name: Name) -> Option<usize>
    ensures place { result ≡ declared_place table.now name }
    ensures declared { IfSome result (λ place. place < length (declared_checks table.now)) }
{
    place_among(declared_checks(table), name)
}

/// Returns the place of the check of a name among checks.
fn place_among(checks: &[Check], name: Name) -> Option<usize>
    ensures { result ≡ position (λ check. bytes_eq check.name name) checks.now }
{
    checks.iter().position(|check| check.name == name)
}

/// Returns the table without the declared check at a place. Fails only if memory is refused.
pub fn without_check_at(
    alloc: Global,
    table: &TableDef,
    place: usize,
) -> Result<TableDef, AllocError>
    requires table { IsTable table.now }
    requires declared { place < length (declared_checks table.now) }
    ensures made { IfOk result (λ made. made ≡ without_check_at table.now place) }
    ensures table { IfOk result IsTable }
{
    let mut checks = copy_all(alloc, table.checks.as_slice())?.into_vec();
    let _dropped = checks.remove(place);
    with_checks(alloc, table, Seq::from_vec(checks))
}

/// Returns the table with these checks.
fn with_checks(alloc: Global, table: &TableDef, checks: Seq<Check>) -> Result<TableDef, AllocError>
    ensures { IfOk result (λ made. made ≡ record table.now { checks = checks }) }
{
    Ok(TableDef {
        name: table.name,
        columns: copy_all(alloc, table.columns.as_slice())?,
        key: table.key,
        checks,
    })
}
