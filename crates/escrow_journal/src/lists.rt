//! Lists of the reservations and savepoints of one session.
ghost use Rattle.std.specs.Prelude.{◌≡◌, ◌≤◌, IsSome, IsOk, OnOk, OnErr, length, position, find, filter, nat_le, bytes_eq, not};
ghost use Rattle.std.specs.List.{position_or_len};
ghost use Rattle.smallvec.specs.SmallVec.{HasRoomFor};

use escrow_num::{Name, Reservation, Savepoint};
use smallvec::SmallVec;
use std::alloc::AllocError;

/// Returns the place of the first reservation with this id or a greater one, or the length of the
/// list if there is none.
pub(crate) fn first_from(reservations: &[Reservation], id: u64) -> usize
    ensures place { result ≡ position_or_len (λ r. nat_le id r.id) reservations.now }
    ensures within { result ≤ length reservations.now }
{
    place_from(reservations, id).unwrap_or(reservations.len())
}

/// Returns the place of the first reservation with this id or a greater one.
fn place_from(reservations: &[Reservation], id: u64) -> Option<usize>
    ensures { result ≡ position (λ r. nat_le id r.id) reservations.now }
{
    reservations.iter().position(|r| r.id >= id)
}

/// Returns the place of the savepoint of a name.
pub(crate) fn place_of_name(savepoints: &[Savepoint], name: Name) -> Option<usize>
    ensures { result ≡ position (λ p. bytes_eq p.name name) savepoints.now }
{
    savepoints.iter().position(|p| p.name == name)
}

/// Returns the number of savepoints of other names.
pub(crate) fn count_others(savepoints: &[Savepoint], name: Name) -> usize
    ensures { result ≡ length (filter (λ p. not (bytes_eq p.name name)) savepoints.now) }
{
    savepoints.iter().filter(|p| p.name != name).count()
}

/// Removes the savepoint of a name, if there is one. Takes no memory.
fn drop_named(savepoints: &mut SmallVec<Savepoint, 4>, name: Name)
    ensures items { savepoints.new.items ≡ filter (λ p. not (bytes_eq p.name name)) savepoints.old.items }
    ensures capacity { savepoints.new.capacity ≡ savepoints.old.capacity }
{
    savepoints.retain(|p| p.name != name);
}

/// Removes the savepoint of a name, if there is one, and leaves room for one more. Takes memory
/// only if there is none. If memory is refused, the savepoints are unchanged.
pub(crate) fn make_room(
    savepoints: &mut SmallVec<Savepoint, 4>,
    name: Name,
) -> Result<(), AllocError>
    ensures room { OnOk result (HasRoomFor savepoints.new 1) }
    ensures without { OnOk result
        (savepoints.new.items ≡ filter (λ p. not (bytes_eq p.name name)) savepoints.old.items) }
    ensures unchanged { OnErr result (savepoints.new.items ≡ savepoints.old.items) }
    ensures again { IsSome (find (λ p. bytes_eq p.name name) savepoints.old.items) → IsOk result }
{
    let count = savepoints.len();
    drop_named(savepoints, name);
    if savepoints.len() < count {
        return Ok(());
    }
    savepoints.reserve(1)
}
