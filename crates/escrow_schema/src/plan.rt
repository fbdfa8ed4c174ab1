//! What an UPDATE asks of a row: changes of RESERVABLE columns, or new values of plain ones.
ghost use Rattle.std.specs.Prelude.{◌≡◌, ◌⊎◌, Ok, Err, IfOk, IfErr, IsErrOf, IsOk, IsTrue, false, true};
ghost use Rattle.escrow_schema.specs.Assigned.{IsAnswer};
ghost use Rattle.escrow_schema.specs.Definition.{IsTable};
ghost use Rattle.escrow_schema.specs.Plan.{are_changes, are_replacements, is_in_place, planned};

mod assigned;
mod changes;
mod values;

use crate::key::check_key;
use crate::literal::truncated_value;
use crate::table::TableDef;
use changes::{are_changes, whole_changes};
use escrow_num::{Changes, Refusal, Seq, Value};
use escrow_statement::UpdateText;
use std::alloc::Global;
use values::{all_fit, are_replacements, new_values};

/// What an UPDATE asks of a row.
#[derive(Debug, Drop)]
pub enum Plan {
    /// To reserve changes of its RESERVABLE columns.
    Reserve {
        /// The row's key.
        key: Value,
        /// The change of each RESERVABLE column, in units of its scale and in column order, or
        /// `None` if the column isn't assigned.
        changes: Changes,
    },
    /// To write its plain columns: those that are neither RESERVABLE nor the key.
    Plain {
        /// The row's key.
        key: Value,
        /// The new value of each plain column, in column order, or `None` if the column isn't
        /// assigned.
        values: Seq<Option<Value>>,
    },
}

/// Returns what an UPDATE asks of a row. If it can't be planned, the first reason that applies is
/// returned: bad assignments; a WHERE of another column than the key; or a bad value. A bad value
/// is a literal that its column's type doesn't hold, or a change that isn't a whole number of its
/// column's units, or isn't an amount of them. Takes memory only if there is a plan. One that
/// changes RESERVABLE columns takes none if the key is a number and there are at most 4 of these.
pub fn plan_update(alloc: Global, table: &TableDef, text: &UpdateText) -> Result<Plan, Refusal>
    requires { IsTable table.now }
    ensures plan { IfOk result (λ plan. planned table.now text.now ≡ Ok plan) }
    ensures refused { IfErr (planned table.now text.now) (λ e. result ≡ Err e) }
    ensures only { IfErr result (λ e. (planned table.now text.now ≡ Err e) ⊎ (e ≡ Refusal.Memory)) }
    ensures memory { IsErrOf result Refusal.Memory → IsOk (planned table.now text.now) }
    ensures in_place { IfOk (planned table.now text.now) (λ plan. IsTrue (is_in_place plan) → result ≡ Ok plan) }
{
    let assigns = text.assigns.as_slice();
    if are_changes(table.columns.as_slice(), assigns) {
        return plan_changes(alloc, table, text);
    }
    if are_replacements(table, assigns) {
        return plan_values(alloc, table, text);
    }
    Err(Refusal::BadAssignment)
}

/// Returns the plan of an UPDATE whose assignments change RESERVABLE columns, or why there is none.
fn plan_changes(alloc: Global, table: &TableDef, text: &UpdateText) -> Result<Plan, Refusal>
    requires table { IsTable table.now }
    requires changes { are_changes table.now.columns text.now.assigns ≡ true }
    ensures { IsAnswer (planned table.now text.now) result }
{
    check_key(table, &text.row)?;
    let changes = whole_changes(alloc, table.columns.as_slice(), text.assigns.as_slice())?;
    let key = truncated_value(alloc, table.key_scale(), &text.row.literal)?;
    Ok(Plan::Reserve { key, changes })
}

/// Returns the plan of an UPDATE whose assignments replace plain values, or why there is none.
fn plan_values(alloc: Global, table: &TableDef, text: &UpdateText) -> Result<Plan, Refusal>
    requires table { IsTable table.now }
    requires values { are_changes table.now.columns text.now.assigns ≡ false }
    requires replace { are_replacements table.now text.now.assigns ≡ true }
    ensures { IsAnswer (planned table.now text.now) result }
{
    let columns = table.typed_columns();
    let assigns = text.assigns.as_slice();
    check_key(table, &text.row)?;
    if !all_fit(columns, table.key, assigns) {
        return Err(Refusal::BadValue);
    }
    let key = truncated_value(alloc, table.key_scale(), &text.row.literal)?;
    let values = Seq::from_vec(new_values(alloc, columns, table.key, assigns)?);
    Ok(Plan::Plain { key, values })
}
