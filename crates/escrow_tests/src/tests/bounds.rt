//! Worst-case sums of a row, kept between calls.
ghost use Rattle.std.specs.Prelude.{◌≡◌, ◌<◌, ℤ, IsSome, None, List, [], ◌∷◌, length};
ghost use Rattle.escrow_checks.specs.declared.spread.TheConstants.Spread.{MAX_OPEN};
ghost use Rattle.escrow_bounds.specs.Bounds.{place_at};
ghost use Rattle.escrow_tests.specs.Placed.{IsPlaced};

use escrow_bounds::{Bounds, Verdict};
use escrow_checks::{Check, Coefficients, normalise};
use escrow_num::{Amount, End, Name, RowName, Scale, Seq, Side, Value};
use escrow_sql::{Item, Request, Statement, parse};
use std::alloc::Global;
use std::process::Abort;

/// A table with a check of two columns.
const MIX: &str = "CREATE TABLE MIX (CHECK (2 * A + 3 * B <= 100))";

fn name(rt: &impl Abort, text: &str) -> Name {
    Name::new(text.as_bytes()).expect(rt, "a name")
}

/// Returns the check of that table. The program itself calls `normalise_behind`, never
/// [`normalise`].
fn mix(rt: &impl Abort, alloc: Global) -> Check {
    let request = parse(alloc, MIX).expect(rt, "memory");
    let Request::Statement(Statement::Create(create)) = &request else {
        panic!(rt; "no table: {MIX}");
    };
    let Some(Item::Check(condition)) = create.items.as_slice().first() else {
        panic!(rt; "no check: {MIX}");
    };
    let mut columns = [name(rt, "A"); 2];
    columns[1] = name(rt, "B");
    let checks = normalise(alloc, &[condition], &columns, &[Scale::ZERO; 2]);
    let checks = checks.expect(rt, "memory");
    *checks.as_slice().first().expect(rt, "a check")
}

/// Returns a row of that table.
fn row(rt: &impl Abort, key: i64) -> RowName {
    RowName {
        table: name(rt, "MIX"),
        key: Value::Number(Amount::new(key).expect(rt, "a key")),
    }
}

/// Returns a row's amounts, or changes of them.
fn amounts(rt: &impl Abort, alloc: Global, values: &[i64]) -> Seq<Amount> {
    let mut amounts = Seq::new(alloc);
    for value in values {
        let amount = Amount::new(*value).expect(rt, "an amount");
        amounts.push(amount).expect(rt, "memory");
    }
    amounts
}

/// Makes a place for a row that has none, with one check. If memory is refused, the row has no
/// place, and gets one at the second attempt.
fn reserve(rt: &impl Abort, bounds: &mut Bounds, row: &RowName, values: &[Amount], check: &Check)
    requires { place_at bounds.old row.now ≡ None }
    ensures { IsPlaced bounds.new row.now [] }
{
    assert!(rt; values.len() <= Coefficients::MAX_LEN);
    assert!(rt; check.coeffs.as_slice().len() <= values.len());
    if bounds.reserve(row, values, &[*check]).is_err() {
        assert!(rt; !bounds.has_place(row));
        bounds.reserve(row, values, &[*check]).expect(rt, "memory");
    }
}

/// Counts a reservation.
fn add(bounds: &mut Bounds, row: &RowName, changes: &[Amount])
    requires { (held : List (List ℤ)) × IsPlaced bounds.old row.now held × (length held < MAX_OPEN) }
    ensures { (held : List (List ℤ)) → IsPlaced bounds.old row.now held
        → IsPlaced bounds.new row.now (changes.now ∷ held) }
{
    bounds.add(row, changes);
}

/// Ends the first of two reservations that were counted.
fn commit_first(bounds: &mut Bounds, row: &RowName, first: &[Amount], second: &[Amount])
    requires { IsPlaced bounds.old row.now (second.now ∷ first.now ∷ []) }
    ensures { IsPlaced bounds.new row.now (second.now ∷ []) }
{
    bounds.remove(row, first, End::Commit);
}

/// Returns what changes would break of the check, if they can break it: the side, the worst value
/// and the limit.
fn verdict(
    bounds: &Bounds,
    row: &RowName,
    changes: &[Amount],
    check: &Check,
) -> Option<(Side, i128, i128)>
    requires { IsSome (place_at bounds.now row.now) }
{
    let Verdict::Broken {
        check: name,
        side,
        worst,
        limit,
    } = bounds.verdict(row, changes)
    else {
        return None;
    };
    if name != check.name {
        return None;
    }
    Some((side, worst.get(), limit.get()))
}

/// Returns the least and the greatest value of the check.
fn worst(bounds: &Bounds, row: &RowName) -> (i128, i128)
    requires { (held : List (List ℤ)) × IsPlaced bounds.now row.now held }
{
    let (least, greatest) = bounds.worst(row, 0);
    (least.get(), greatest.get())
}

/// A counted reservation moves the worst cases; a commit moves the amounts.
#[test]
fn sums_are_kept_between_calls(rt: HostRuntime) {
    let alloc = rt.alloc();
    let check = mix(&rt, alloc);
    let values = amounts(&rt, alloc, &[10, 20]);
    let (a, b) = (amounts(&rt, alloc, &[5, 0]), amounts(&rt, alloc, &[0, 3]));
    let more = amounts(&rt, alloc, &[0, 4]);
    let row = row(&rt, 0);
    let mut bounds = Bounds::new(alloc);
    reserve(&rt, &mut bounds, &row, values.as_slice(), &check);
    add(&mut bounds, &row, a.as_slice());
    assert_eq!(rt; worst(&bounds, &row), (80, 90));
    let broken = verdict(&bounds, &row, more.as_slice(), &check);
    assert_eq!(rt; broken, Some((Side::High, 102, 100)));
    add(&mut bounds, &row, b.as_slice());
    assert_eq!(rt; worst(&bounds, &row), (80, 99));
    commit_first(&mut bounds, &row, a.as_slice(), b.as_slice());
    assert_eq!(rt; worst(&bounds, &row), (90, 99));
}

/// Only the rows with the first keys have places, each with its own amounts, at which the check is
/// at its limit.
fn are_placed(rt: &impl Abort, bounds: &Bounds, check: &Check, alloc: Global, places: i64) {
    for key in 0..ROWS {
        let row = row(rt, key);
        assert_eq!(rt; bounds.has_place(&row), key < places, "{places}: {key}");
        if bounds.has_place(&row) {
            let change = amounts(rt, alloc, &[51i64.wrapping_sub(key), 0]);
            let broken = verdict(bounds, &row, change.as_slice(), check);
            assert_eq!(rt; broken, Some((Side::High, 102, 100)), "{places}: {key}");
        }
    }
}

/// How many rows get a place.
const ROWS: i64 = 12;

/// A new place leaves the existing ones, even if memory is refused, and so does dropping an empty
/// one.
#[test]
fn places_of_rows(rt: HostRuntime) {
    let alloc = rt.alloc();
    let check = mix(&rt, alloc);
    let mut bounds = Bounds::new(alloc);
    for key in 0..ROWS {
        let values = amounts(&rt, alloc, &[key, 0]);
        let row = row(&rt, key);
        are_placed(&rt, &bounds, &check, alloc, key);
        assert!(rt; !bounds.has_place(&row));
        reserve(&rt, &mut bounds, &row, values.as_slice(), &check);
    }
    are_placed(&rt, &bounds, &check, alloc, ROWS);
    bounds.release(&row(&rt, ROWS - 1));
    are_placed(&rt, &bounds, &check, alloc, ROWS - 1);
}
