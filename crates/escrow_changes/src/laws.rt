//! Laws of what a statement changes. Each is the contract of a function that does nothing.

ghost use Rattle.escrow_changes.specs.Laws.{SelectShowsRows, DeleteTakesItsRow, DropTakesItsTable, AlterChangesChecks, UpdateReplacesValues};

/// A SELECT that isn't refused changes nothing. It shows the committed rows of its table, or with a
/// WHERE just the row of its key.
pub fn select_shows_rows()
    ensures { SelectShowsRows }
{}

/// A DELETE that isn't refused takes the row of its key, which nobody has reserved, and nothing
/// else.
pub fn delete_takes_its_row()
    ensures { DeleteTakesItsRow }
{}

/// A DROP TABLE that isn't refused takes its table and the rows of this table, and nothing else.
/// Nobody has reserved any of these rows.
pub fn drop_takes_its_table()
    ensures { DropTakesItsTable }
{}

/// An ALTER TABLE that isn't refused changes the checks of its table, and nothing else. ADD keeps
/// each check, and DROP CONSTRAINT each but the named one.
pub fn alter_changes_checks()
    ensures { AlterChangesChecks }
{}

/// An UPDATE of plain columns that isn't refused replaces values of the row of its key, and nothing
/// else: not the row's amounts, and no column that it doesn't assign.
pub fn update_replaces_values()
    ensures { UpdateReplacesValues }
{}
