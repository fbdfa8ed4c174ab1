/// Why a board can't be made.
#[derive(Clone, Copy, Debug, PartialEq, Eq)]
pub enum BoardFault {
    /// More than 8 watchers are asked for.
    TooMany,
    /// Out of memory.
    Memory,
    /// A watcher has no place to read at.
    NoPlace,
}
