//! The changes that reservations make, row by row.
ghost use Rattle.std.specs.Prelude.{◌≡◌, IfOk, OnOk, IsPermutation, IsSorted, length, map};
ghost use Rattle.std.specs.List.Sorted.{IsStable};
ghost use Rattle.escrow_tables.specs.RowChanges.{by_row};

use escrow_num::{Amount, Reservation};
use std::alloc::{AllocError, Global};

/// A reservation, and the amounts that its row has.
#[derive(Clone, Copy, Debug)]
pub(crate) struct RowChange<'a> {
    /// The reservation.
    pub(crate) reservation: &'a Reservation,
    /// The amounts that its row has, without its change.
    pub(crate) before: &'a [Amount],
}

/// Returns reservations, in their order, each with the amounts that its row has. Fails only if
/// memory is refused.
pub(crate) fn row_changes<'a>(
    alloc: Global,
    reservations: &'a [&Reservation],
    before: &'a [&[Amount]],
) -> Result<Vec<RowChange<'a>>, AllocError>
    requires { length before.now ≡ length reservations.now }
    ensures reservations { IfOk result
        (λ changes. map (λ c. c.reservation.now) changes.items ≡ map (λ r. r.now) reservations.now) }
    ensures before { IfOk result
        (λ changes. map (λ c. c.before.now) changes.items ≡ map (λ amounts. amounts.now) before.now) }
{
    let mut changes = Vec::with_capacity(alloc, reservations.len())?;
    for (i, reservation) in reservations.iter().enumerate() {
        changes.push(RowChange {
            reservation,
            before: before[i],
        })?;
    }
    Ok(changes)
}

/// Sorts changes by the names of their rows. Those of a row keep their order. Fails only if memory
/// is refused.
pub(crate) fn put_in_order(changes: &mut Vec<RowChange<'_>>) -> Result<(), AllocError>
    ensures same { IsPermutation changes.old.items changes.new.items }
    ensures order { OnOk result (IsSorted by_row changes.new.items) }
    ensures stable { IsStable by_row changes.old.items changes.new.items }
{
    changes.sort_by(|a, b| a.reservation.row.compare(&b.reservation.row))
}
