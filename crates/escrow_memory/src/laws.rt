//! Laws of stores in memory. Each is the contract of a function that does nothing.
ghost use Rattle.escrow_memory.specs.Laws.{MemoryIsClean};

/// Memory always returns what was written. So what is proved of a store as long as its disk does so
/// holds of one in memory without a premise.
pub fn memory_is_clean()
    ensures { MemoryIsClean }
{}
