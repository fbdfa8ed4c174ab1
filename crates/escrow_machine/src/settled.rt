use escrow_num::Failure;

/// How many reservations a plan ended.
#[derive(Clone, Copy, Debug, PartialEq, Eq)]
pub struct Settled {
    /// Those that were applied to the committed rows.
    pub committed: u32,
    /// Those that were dropped.
    pub released: u32,
}

/// The place where a plan stopped, and why.
#[derive(Clone, Copy, Debug, PartialEq, Eq)]
pub struct Stop {
    /// How many entries of the plan are done.
    pub place: usize,
    /// Why the COMMIT of the entry at that place failed.
    pub cause: Failure,
}
