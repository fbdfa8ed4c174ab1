ghost use Rattle.std.specs.Prelude.{◌≡◌, IfSome};
ghost use Rattle.escrow_cells.specs.NewCell.{step_of};

use crate::datum::Datum;
use crate::step::Step;

/// A new cell, with the fields of the step that inserts it.
#[derive(Clone, Copy, Debug)]
pub(crate) struct NewCell<'a> {
    /// The table's number.
    pub(crate) table: i64,
    /// The row's key.
    pub(crate) key: Datum<'a>,
    /// The column's place, from 1.
    pub(crate) place: i64,
    /// The value.
    pub(crate) value: Datum<'a>,
}

impl<'a> NewCell<'a> {
    /// Returns the cell that a step inserts, if it inserts one.
    pub(crate) fn of(step: &Step<'a>) -> Option<Self>
        ensures { IfSome result (λ cell. step.now ≡ step_of cell) }
    {
        match *step {
            Step::InsertCell {
                table,
                key,
                place,
                value,
            } => Some(NewCell {
                table,
                key,
                place,
                value,
            }),
            _ => None,
        }
    }
}
