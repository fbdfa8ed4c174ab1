//! Amounts of a row, or changes of them, with the columns of those that aren't zero.
ghost use Rattle.std.specs.Prelude.{◌≡◌, ◌≤◌, length};
ghost use Rattle.escrow_checks.specs.Listed.{AreListed};
ghost use Rattle.escrow_checks.specs.declared.coefficients.TheConstants.Coefficients.{MAX_LEN};

use crate::coefficients::Coefficients;
use escrow_num::Amount;
use std::marker::Model;

/// Amounts of a row, or changes of them, with the columns of those that aren't zero, held in place.
/// The columns are found once, and the form of each check is summed over them. Contracts see the
/// amounts.
#[derive(Drop)]
pub struct Sparse<'a> {
    amounts: &'a [Amount],
    columns: [u8; Coefficients::MAX_LEN],
    count: usize,
}

impl<'a> Model for Sparse<'a> {
    ghost use Rattle.std.specs.Prelude.{List, ℤ, ◌≡◌, ◌≤◌, length, take};
    ghost use Rattle.escrow_checks.specs.Listed.{AreListed};
    ghost use Rattle.escrow_checks.specs.declared.coefficients.TheConstants.Coefficients.{MAX_LEN};

    ghost Value = { List ℤ };

    ghost view = { λ s. s.amounts.now };

    ghost invariant = { λ s. (s.count ≤ MAX_LEN) × (length s.columns ≡ MAX_LEN)
        × AreListed s.amounts.now (take s.count s.columns) };
}

impl<'a> Sparse<'a> {
    /// Returns these amounts, with the columns of those that aren't zero.
    pub fn of(amounts: &'a [Amount]) -> Self
        ensures { result ≡ amounts.now }
    {
        let mut columns = [0; Coefficients::MAX_LEN];
        let mut count = 0;
        for column in 0..amounts.len().min(Coefficients::MAX_LEN) {
            let amount = amounts[column];
            if amount.get() != 0 {
                columns[count] = column as u8;
                count += 1;
            }
        }
        Sparse {
            amounts,
            columns,
            count,
        }
    }

    /// Returns all amounts.
    pub(crate) fn amounts(&self) -> &[Amount]
        ensures { result.now ≡ self.now }
    {
        self.amounts
    }

    /// Returns the columns whose amounts aren't zero, among those that can have a coefficient in a
    /// check.
    pub(crate) fn columns(&self) -> &[u8]
        ensures few { length result.now ≤ MAX_LEN }
        ensures listed { AreListed self.now result.now }
    {
        &self.columns[..self.count]
    }
}
