use crate::base::Base;
use crate::entry::Entry;
use escrow_num::Seq;

/// What a database was asked, from a base on, and what it replied.
#[derive(Debug, Drop)]
pub struct Transcript {
    /// The state in which it begins.
    pub base: Base,
    /// An entry for each statement that was served, in order.
    pub entries: Seq<Entry>,
}

impl Transcript {
    /// The most entries of a transcript.
    pub const MAX_ENTRIES: usize = 65_536;

    /// The greatest number of an entry.
    pub const MAX_NUMBER: u64 = 999_999_999_999_999;
}
