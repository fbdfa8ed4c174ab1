//! Laws of every table that a text defines, and of its rows and plans. Each is the contract of a
//! function that does nothing.
ghost use Rattle.escrow_schema.specs.Laws.{NameOfTable, NamesOfChecks, FewReservable, ChecksOfWholeRow, ChecksKeepAmounts, FewChecks, RowsOfTable, ValuesOfRow, ValuesBesideNames, ValuesFit, ChecksMeanConditions, DefinitionsFollowRules, PlansOfWholeRow, PlainPlansFit, ChangesAsAssigned, NewValuesAsAssigned, KeysOfPlans, KeysOfWheres, RefusalsOfPlans, BadAssignmentsAreOfSixKinds, RefusalsOfKeys, Limits};

/// A text defines a table exactly if the two follow the rules of definitions, one by one.
pub fn definitions_follow_rules()
    ensures { DefinitionsFollowRules }
{}

/// Numbers in units of their columns' scales meet every check of a table exactly if, in millionths,
/// they meet every CHECK as written, and each fits its column's type.
pub fn checks_mean_conditions()
    ensures { ChecksMeanConditions }
{}

/// A table has the name that its text writes.
pub fn name_of_table()
    ensures { NameOfTable }
{}

/// The checks of a table have the names that its CHECKs give them, in order. After them comes the
/// range of each RESERVABLE column, under `RANGE_` and the column's name. No two names are the
/// same.
pub fn names_of_checks()
    ensures { NamesOfChecks }
{}

/// A table has 1 to 10 RESERVABLE columns.
pub fn few_reservable()
    ensures { FewReservable }
{}

/// Each check of a table has a coefficient for each of its RESERVABLE columns.
pub fn checks_of_whole_row()
    ensures { ChecksOfWholeRow }
{}

/// Numbers that meet every check of a table are amounts, since each RESERVABLE column has a check
/// of its range.
pub fn checks_keep_amounts()
    ensures { ChecksKeepAmounts }
{}

/// A table has at most 42 checks: 32 declared ones and 10 ranges.
pub fn few_checks()
    ensures { FewChecks }
{}

/// The row that an INSERT makes is a row of its table. Its key and its plain values fit their
/// columns' types, and it has an amount for each RESERVABLE column.
pub fn rows_of_table()
    ensures { RowsOfTable }
{}

/// The values of a row that literals make are the values of the literals, in order.
pub fn values_of_row()
    ensures { ValuesOfRow }
{}

/// In the row of an INSERT with a column list, a column's value is the literal beside its name, in
/// units of the column's scale. Their place in the list doesn't matter.
pub fn values_beside_names()
    ensures { ValuesBesideNames }
{}

/// If a row's amounts meet every check of its table, the row's values fit their columns' types.
pub fn values_fit()
    ensures { ValuesFit }
{}

/// A plan of changes has a change, or none, for each RESERVABLE column.
pub fn plans_of_whole_row()
    ensures { PlansOfWholeRow }
{}

/// A plan of new values has a value that fits, or none, for each column that is neither RESERVABLE
/// nor the key.
pub fn plain_plans_fit()
    ensures { PlainPlansFit }
{}

/// A plan of changes has for each RESERVABLE column the change that is assigned to it, or none. The
/// change is a whole number of units of the column's scale.
pub fn changes_as_assigned()
    ensures { ChangesAsAssigned }
{}

/// A plan of new values has for each column that is neither RESERVABLE nor the key the literal that
/// is assigned to it, or none.
pub fn new_values_as_assigned()
    ensures { NewValuesAsAssigned }
{}

/// A plan's key is the literal of the UPDATE's WHERE, as a whole number of units of the key's
/// scale.
pub fn keys_of_plans()
    ensures { KeysOfPlans }
{}

/// The key that a WHERE names is its literal, as a whole number of units of the key's scale.
pub fn keys_of_wheres()
    ensures { KeysOfWheres }
{}

/// An UPDATE that can't be planned is refused for its assignments, for its WHERE's column, or for a
/// literal or a change.
pub fn refusals_of_plans()
    ensures { RefusalsOfPlans }
{}

/// An UPDATE is refused for its assignments, by 24, exactly if one of six cases applies. It assigns
/// a column that the table doesn't have. It assigns the key. It assigns a column twice. It assigns
/// to a RESERVABLE column anything but that column plus or minus a number. It assigns to a plain
/// column anything but a literal. It mixes RESERVABLE and plain columns.
pub fn bad_assignments_are_of_six_kinds()
    ensures { BadAssignmentsAreOfSixKinds }
{}

/// A WHERE that names no key is refused for its column or for its literal.
pub fn refusals_of_keys()
    ensures { RefusalsOfKeys }
{}

/// The limits of this layer. A database has at most 32 tables. A table has 2 to 30 columns and at
/// most 65,536 rows. A number has at most 15 digits, and a text at most 255 bytes.
pub fn limits()
    ensures { Limits }
{}
