//! The reservations of several journals, in order of id.
ghost use Rattle.std.specs.Prelude.{◌≡◌, ◌++◌, IfOk, flat_map, map};
ghost use Rattle.std.specs.List.{AllByRecursion};
ghost use Rattle.escrow_num.specs.Ascending.{IsAscending};
ghost use Rattle.escrow_journal.specs.Journal.{IsJournal};
ghost use Rattle.escrow_txn.specs.Joined.{by_id, in_order};

use escrow_journal::Journal;
use escrow_num::Reservation;
use std::alloc::{AllocError, Global};

/// Returns the reservations of journals of different sessions, in order of id. It merges each half
/// of the journals, then the two halves. Fails only if memory is refused.
pub(crate) fn merged<'a>(
    alloc: Global,
    journals: &[&'a Journal],
) -> Result<Vec<&'a Reservation>, AllocError>
    requires { AllByRecursion IsJournal (map (λ log. log.now) journals.now) }
    ensures { IfOk result (λ all.
        map (λ r. r.now) all.items ≡ by_id (flat_map (λ log. log.reservations) (map (λ log. log.now) journals.now))) }
{
    match journals {
        [] => Ok(Vec::new(alloc)),
        [journal] => references(alloc, journal.all()),
        _ => {
            let (front, back) = journals.split_at(journals.len() / 2);
            merge(alloc, &merged(alloc, front)?, &merged(alloc, back)?)
        }
    }
}

/// Returns a reference to each of the reservations.
fn references(alloc: Global, reservations: &[Reservation]) -> Result<Vec<&Reservation>, AllocError>
    ensures { IfOk result (λ all. map (λ r. r.now) all.items ≡ reservations.now) }
{
    reservations.iter().collect(alloc)
}

/// Merges two lists in order of id.
fn merge<'a>(
    alloc: Global,
    front: &[&'a Reservation],
    back: &[&'a Reservation],
) -> Result<Vec<&'a Reservation>, AllocError>
    requires front { IsAscending in_order (map (λ r. r.now) front.now) }
    requires back { IsAscending in_order (map (λ r. r.now) back.now) }
    ensures { IfOk result (λ all.
        map (λ r. r.now) all.items ≡ by_id (map (λ r. r.now) front.now ++ map (λ r. r.now) back.now)) }
{
    let mut all = Vec::with_capacity(alloc, front.len() + back.len())?;
    let (mut i, mut j) = (0, 0);
    while i < front.len() && j < back.len() {
        let (first, second) = (front[i], back[j]);
        if first.id <= second.id {
            all.push(first)?;
            i += 1;
        } else {
            all.push(second)?;
            j += 1;
        }
    }
    all.extend_from_slice(&front[i..])?;
    all.extend_from_slice(&back[j..])?;
    Ok(all)
}
