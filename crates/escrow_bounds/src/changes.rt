//! What the changes of a reservation add, held in place.
ghost use Rattle.std.specs.Prelude.{◌≡◌, ◌≤◌, length, take};
ghost use Rattle.escrow_num.specs.Reservation.{deltas};
ghost use Rattle.escrow_checks.specs.declared.coefficients.TheConstants.Coefficients.{MAX_LEN};

use escrow_checks::Coefficients;
use escrow_num::Amount;

/// Returns what changes add, column by column, in an array: zero if the UPDATE doesn't assign the
/// column. The rest of the array isn't used.
pub fn deltas(changes: &[Option<Amount>]) -> [Amount; Coefficients::MAX_LEN]
    requires { length changes.now ≤ MAX_LEN }
    ensures { take (length changes.now) result ≡ deltas changes.now }
{
    let mut amounts = [Amount::ZERO; Coefficients::MAX_LEN];
    for (i, change) in changes.iter().enumerate() {
        amounts[i] = change.unwrap_or(Amount::ZERO);
    }
    amounts
}
