ghost use Rattle.std.specs.Prelude.{◌≡◌, ◌<◌, ◌≤◌, ℤ, List, [], ◌∷◌, ◌++◌, IfOk, length, map};
ghost use Rattle.std.specs.List.{AllByRecursion};
ghost use Rattle.escrow_checks.specs.Contribution.{IsContribution};
ghost use Rattle.escrow_checks.specs.Form.{form, IsCovered};
ghost use Rattle.escrow_checks.specs.Grant.{broken};
ghost use Rattle.escrow_checks.specs.Spread.{IsSpread};
ghost use Rattle.escrow_checks.specs.declared.coefficients.TheConstants.Coefficients.{MAX_LEN};
ghost use Rattle.escrow_bounds.specs.Columns.{column_check, column_checks};
ghost use Rattle.escrow_bounds.specs.Counts.{HaveSums};
ghost use Rattle.escrow_bounds.specs.Listed.{listed, all_tracked, AreListed, all_columns};
ghost use Rattle.escrow_bounds.specs.Place.{checks_of};
ghost use Rattle.escrow_bounds.specs.Recounting.{counted_before, counted_after, AreRecounted, HasRoom};

use escrow_checks::{Check, Coefficients, Sparse, Spread};
use escrow_num::{Amount, Name, Scale, Span, Violation, Wide};
use std::alloc::{AllocError, Global};

/// Whether one more reservation is counted, or one is removed from the count.
#[derive(Clone, Copy)]
pub(crate) enum Counting {
    /// One more is counted.
    In,
    /// One is removed.
    Out,
}

impl Counting {
    /// Returns how many are counted after that.
    pub(crate) fn number(self, count: usize) -> usize
        requires { (before : List (List ℤ)) × (changes : List ℤ) × (after : List (List ℤ))
            × (count ≡ length (counted_before self before changes after)) × HasRoom self (before ++ after) }
        ensures { (before : List (List ℤ)) (changes : List ℤ) (after : List (List ℤ))
            → count ≡ length (counted_before self before changes after)
            → result ≡ length (counted_after self before changes after) }
    {
        match self {
            Counting::In => count + 1,
            Counting::Out => count - 1,
        }
    }

    /// Returns the spread after that, if the reservation contributes this much to the form.
    pub(crate) fn spread(self, spread: Spread, contribution: Wide) -> Spread
        requires within { IsContribution contribution }
        requires counted { (coeffs : List ℤ) × (before : List (List ℤ)) × (changes : List ℤ) × (after : List (List ℤ))
            × IsSpread coeffs (counted_before self before changes after) spread × (contribution ≡ form coeffs changes)
            × HasRoom self (before ++ after) }
        ensures { (coeffs : List ℤ) (before : List (List ℤ)) (changes : List ℤ) (after : List (List ℤ))
            → IsSpread coeffs (counted_before self before changes after) spread → contribution ≡ form coeffs changes
            → IsSpread coeffs (counted_after self before changes after) result }
    {
        match self {
            Counting::In => spread.with(contribution),
            Counting::Out => spread.without(contribution),
        }
    }
}

/// What is kept for a check of a row. The checks of a table are in a list, which all its rows
/// share.
#[derive(Clone, Copy, Debug)]
pub(crate) struct Sum {
    /// The index of the check in the list.
    pub(crate) check: usize,
    /// How far the counted reservations can move its form.
    pub(crate) spread: Spread,
}

impl Sum {
    /// Counts one more reservation, or removes one from the count.
    fn recount(&mut self, list: &[Check], changes: &Sparse<'_>, counting: Counting)
        requires listed { self.old.check < length list.now }
        requires counted { (before : List (List ℤ)) × (after : List (List ℤ))
            × IsSpread (listed list.now self.old.check).coeffs
            (counted_before counting before changes.now after) self.old.spread × HasRoom counting (before ++ after) }
        ensures check { self.new.check ≡ self.old.check }
        ensures counted { (before after : List (List ℤ))
            → IsSpread (listed list.now self.old.check).coeffs
            (counted_before counting before changes.now after) self.old.spread
            → IsSpread (listed list.now self.old.check).coeffs
            (counted_after counting before changes.now after) self.new.spread }
    {
        let contribution = list[self.check].form_of(changes);
        self.spread = counting.spread(self.spread, contribution);
    }
}

/// Returns the sums of all checks of a list, with no reservation counted.
pub(crate) fn all_sums(alloc: Global, list: &[Check]) -> Result<Vec<Sum>, AllocError>
    ensures checks { IfOk result (λ sums. checks_of (all_tracked list.now sums.items) ≡ list.now) }
    ensures listed { IfOk result (λ sums. AreListed list.now sums.items) }
    ensures sums { IfOk result (λ sums. HaveSums (all_tracked list.now sums.items) []) }
{
    let mut sums = Vec::with_capacity(alloc, list.len())?;
    for check in 0..list.len() {
        sums.push(Sum {
            check,
            spread: Spread::new(),
        })?;
    }
    Ok(sums)
}

/// Returns the spreads of columns, with no reservation counted.
pub(crate) fn all_spreads(alloc: Global, columns: usize) -> Result<Vec<Spread>, AllocError>
    ensures checks { IfOk result (λ spreads. checks_of (all_columns spreads.items) ≡ column_checks columns columns) }
    ensures sums { IfOk result (λ spreads. HaveSums (all_columns spreads.items) []) }
{
    let mut spreads = Vec::with_capacity(alloc, columns)?;
    for _ in 0..columns {
        spreads.push(Spread::new())?;
    }
    Ok(spreads)
}

/// Returns a check without limits whose form is a column.
pub(crate) fn column_check(columns: usize, place: usize) -> Check
    requires within { place < columns }
    requires few { columns ≤ MAX_LEN }
    ensures { result ≡ column_check columns place }
{
    Check {
        name: Name::new(b"COLUMN").unwrap(),
        coeffs: Coefficients::unit(columns, place),
        scale: Scale::ZERO,
        span: Span { lo: None, hi: None },
    }
}

/// Counts one more reservation in the sum of each check, or removes one from the count.
pub(crate) fn recount(list: &[Check], sums: &mut [Sum], changes: &Sparse<'_>, counting: Counting)
    requires listed { AreListed list.now sums.old }
    requires counted { (before : List (List ℤ)) × (after : List (List ℤ))
        × HaveSums (all_tracked list.now sums.old) (counted_before counting before changes.now after)
        × HasRoom counting (before ++ after) }
    ensures counted { AreRecounted counting changes.now (all_tracked list.now sums.old)
        (all_tracked list.now sums.new) }
    ensures listed { AreListed list.now sums.new }
{
    for sum in sums.iter_mut() {
        sum.recount(list, changes, counting);
    }
}

/// Counts one more reservation in the spread of each column, or removes one from the count.
pub(crate) fn recount_columns(columns: &mut [Spread], changes: &Sparse<'_>, counting: Counting)
    requires few { length columns.old ≤ MAX_LEN }
    requires counted { (before : List (List ℤ)) × (after : List (List ℤ))
        × HaveSums (all_columns columns.old) (counted_before counting before changes.now after)
        × HasRoom counting (before ++ after) }
    ensures { AreRecounted counting changes.now (all_columns columns.old) (all_columns columns.new) }
{
    let count = columns.len();
    for (i, spread) in columns.iter_mut().enumerate() {
        let contribution = column_check(count, i).form_of(changes);
        *spread = counting.spread(*spread, contribution);
    }
}

/// Returns the values of the forms of checks at a row's amounts.
pub(crate) fn all_values(
    alloc: Global,
    checks: &[Check],
    amounts: &[Amount],
) -> Result<Vec<Wide>, AllocError>
    ensures values { IfOk result (λ values. values.items ≡ map (λ check. form check.coeffs amounts.now) checks.now) }
    ensures within { IfOk result (λ values. AllByRecursion IsContribution values.items) }
{
    let mut values = Vec::with_capacity(alloc, checks.len())?;
    let row = Sparse::of(amounts);
    for check in checks {
        values.push(check.form_of(&row))?;
    }
    Ok(values)
}

/// Replaces the values of forms by those at a row's new amounts.
pub(crate) fn revalue(values: &mut [Wide], list: &[Check], sums: &[Sum], amounts: &[Amount])
    requires each { length values.old ≡ length sums.now }
    requires listed { AreListed list.now sums.now }
    ensures values { values.new ≡ map
        (λ check. form check.coeffs amounts.now) (checks_of (all_tracked list.now sums.now)) }
    ensures within { AllByRecursion IsContribution values.new }
{
    let row = Sparse::of(amounts);
    for (i, sum) in sums.iter().enumerate() {
        values[i] = list[sum.check].form_of(&row);
    }
}

/// Returns what changes would break of the first check that they can break, over every choice of
/// the counted reservations. `values` are those of the forms. Returns `None` if they break nothing.
pub(crate) fn first_violation(
    list: &[Check],
    sums: &[Sum],
    values: &[Wide],
    changes: &[Amount],
) -> Option<Violation>
    requires listed { AreListed list.now sums.now }
    requires each { length values.now ≡ length sums.now }
    requires within { AllByRecursion IsContribution values.now }
    ensures { (amounts : List ℤ) (reservations : List (List ℤ))
        → values.now ≡ map (λ check. form check.coeffs amounts) (checks_of (all_tracked list.now sums.now))
        → AllByRecursion (λ check. IsCovered check.coeffs amounts) (checks_of (all_tracked list.now sums.now))
        → HaveSums (all_tracked list.now sums.now) reservations
        → result ≡ broken (checks_of (all_tracked list.now sums.now)) amounts changes.now reservations }
{
    let changed = Sparse::of(changes);
    for (i, sum) in sums.iter().enumerate() {
        let violation = list[sum.check].violation_from(values[i], &changed, &sum.spread);
        if violation.is_some() {
            return violation;
        }
    }
    None
}
