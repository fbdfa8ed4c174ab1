//! Laws of the tables that a store holds. Each is the contract of a function that does nothing.
ghost use Rattle.escrow_recover.specs.Laws.{OneIsHeld, HeldIsAStore};
ghost use Rattle.escrow_recover.specs.ReadBack.{TablesAreReadBack};

/// The contents of a disk hold one catalog, and one list of rows. So what a crash leaves determines
/// what is found when the store is opened again.
pub fn one_is_held()
    ensures { OneIsHeld }
{}

/// A database that holds a catalog and rows that meet their checks, each value an amount or a text
/// in UTF-8, is a store of the known format. So what a crash leaves of such rows isn't refused as
/// no store (61) or as one of another format (62).
pub fn held_is_a_store()
    ensures { HeldIsAStore }
{}

/// The canonical text of a table, which `print_table` writes, asks for a CREATE TABLE that defines
/// the same table.
pub fn tables_are_read_back()
    ensures { TablesAreReadBack }
{}
