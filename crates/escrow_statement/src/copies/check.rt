//! Copies of CHECKs, of their conditions and of the parts of these.

use crate::statement::{CheckText, Condition, Term, Test};
use escrow_num::{Copied, are_same, copy_all};
use std::alloc::{AllocError, Global};

impl Copied for Term {
    fn copy(&self, _: Global) -> Result<Term, AllocError> {
        Ok(*self)
    }

    fn is_same(&self, other: &Term) -> bool {
        *self == *other
    }
}

impl Copied for Test {
    fn copy(&self, alloc: Global) -> Result<Test, AllocError> {
        match self {
            Test::Compare { comparison, sum } => Ok(Test::Compare {
                comparison: *comparison,
                sum: copy_all(alloc, sum.as_slice())?,
            }),
            Test::Between { low, high } => Ok(Test::Between {
                low: *low,
                high: *high,
            }),
        }
    }

    fn is_same(&self, other: &Test) -> bool {
        match (self, other) {
            (
                Test::Compare { comparison, sum },
                Test::Compare {
                    comparison: other_comparison,
                    sum: other_sum,
                },
            ) => *comparison == *other_comparison && are_same(sum.as_slice(), other_sum.as_slice()),
            (
                Test::Between { low, high },
                Test::Between {
                    low: other_low,
                    high: other_high,
                },
            ) => *low == *other_low && *high == *other_high,
            _ => false,
        }
    }
}

impl Copied for Condition {
    fn copy(&self, alloc: Global) -> Result<Condition, AllocError> {
        Ok(Condition {
            sum: copy_all(alloc, self.sum.as_slice())?,
            test: self.test.copy(alloc)?,
        })
    }

    fn is_same(&self, other: &Condition) -> bool {
        are_same(self.sum.as_slice(), other.sum.as_slice()) && self.test.is_same(&other.test)
    }
}

impl Copied for CheckText {
    fn copy(&self, alloc: Global) -> Result<CheckText, AllocError> {
        Ok(CheckText {
            name: self.name,
            conditions: copy_all(alloc, self.conditions.as_slice())?,
        })
    }

    fn is_same(&self, other: &CheckText) -> bool {
        self.name == other.name && are_same(self.conditions.as_slice(), other.conditions.as_slice())
    }
}
