//! What a row without open reservations breaks of its table's checks.
ghost use Rattle.std.specs.Prelude.{◌≡◌, []};
ghost use Rattle.std.specs.List.{AllByRecursion};
ghost use Rattle.escrow_checks.specs.Form.{IsCovered};
ghost use Rattle.escrow_checks.specs.Grant.{broken};

use escrow_checks::{Check, Sparse, Spread};
use escrow_num::{Amount, Violation};

/// Returns what changes of a row's amounts break of the first check, in the table's order, that
/// they can break. No reservation of the row may be open. With no changes, this is what the amounts
/// break. No check may have more coefficients than there are amounts.
pub fn first_violation(
    checks: &[Check],
    amounts: &[Amount],
    changes: &[Amount],
) -> Option<Violation>
    requires { AllByRecursion (λ check. IsCovered check.coeffs amounts.now) checks.now }
    ensures { result ≡ broken checks.now amounts.now changes.now [] }
{
    let row = Sparse::of(amounts);
    let listed = Sparse::of(changes);
    for check in checks {
        let violation = check.violation_from(check.form_of(&row), &listed, &Spread::new());
        if violation.is_some() {
            return violation;
        }
    }
    None
}
