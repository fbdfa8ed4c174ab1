//! Laws of checks and of the grant rule. Each is the contract of a function that does nothing. A
//! database's state stays valid because of them.

ghost use Rattle.escrow_checks.specs.Laws.{ChecksMeanTheirTexts, ChecksAreWhole, ChecksStandBehind, ChecksAreDeclared, ChecksAreNamed, UnitGivesTheAmount, ExtremesAreReached, GrantedWhereAlwaysMet, GrantedWhereAllAlwaysMet, BoundsDecide, GrantedStaysSafe, RefusedNamesAChoice, AnyChoiceCanCommit, AnyChoiceCanRollBack, ChangesKeepTheNumber, OtherRowsStaySafe, NewRowIsSafe, WrittenAreGivenBack, UnitsAreWhole, SumsAreWide, Limits};
ghost use Rattle.escrow_checks.specs.Spread.{OtherRowsAddNothing};

/// A row meets all checks that CHECKs declare exactly if its amounts, in millionths, meet all the
/// CHECKs as written.
pub fn checks_mean_their_texts()
    ensures { ChecksMeanTheirTexts }
{}

/// There is one check for each condition of the CHECKs, with a coefficient for each RESERVABLE
/// column.
pub fn checks_are_whole()
    ensures { ChecksAreWhole }
{}

/// CHECKs that are added to declared checks leave these as they are. They add one check for each
/// condition, which means what the CHECK says.
pub fn checks_stand_behind()
    ensures { ChecksStandBehind }
{}

/// The coefficients, the scale, the limits and the name of each declared check are as the rules
/// demand.
pub fn checks_are_declared()
    ensures { ChecksAreDeclared }
{}

/// Written coefficients can be computed again from scaled ones.
pub fn written_are_given_back()
    ensures { WrittenAreGivenBack }
{}

/// Units of a scale, as millionths, are a whole number of units, and these same units.
pub fn units_are_whole()
    ensures { UnitsAreWhole }
{}

/// The first condition of a CHECK with a name has that name, the second has `_2` after it, and so
/// on. If the CHECK has no name, the n-th condition of the table is called `CHECK_n`.
pub fn checks_are_named()
    ensures { ChecksAreNamed }
{}

/// The form of one column's coefficients is the column's amount.
pub fn unit_gives_the_amount()
    ensures { UnitGivesTheAmount }
{}

/// Every choice of the open reservations gives a form a value from the least to the greatest, and
/// some choice gives it each of the two.
pub fn extremes_are_reached()
    ensures { ExtremesAreReached }
{}

/// A new reservation breaks nothing of a check exactly if every choice of the open reservations,
/// with the new one added, meets the check.
pub fn granted_where_always_met()
    ensures { GrantedWhereAlwaysMet }
{}

/// The grant rule grants exactly if every choice of the open reservations, with the new one added,
/// meets every check.
pub fn granted_where_all_always_met()
    ensures { GrantedWhereAllAlwaysMet }
{}

/// A new reservation moves the least and the greatest value of a check's form by exactly what it
/// adds. It is granted exactly if both are then within the check's limits.
pub fn bounds_decide()
    ensures { BoundsDecide }
{}

/// If a row meets a check whichever of the open reservations are applied, it still does with one
/// more that the grant rule grants.
pub fn granted_stays_safe()
    ensures { GrantedStaysSafe }
{}

/// A refusal names a check, its scale, a side, its limit and a value past it. Some choice of the
/// open reservations with the new one gives the check's form that value.
pub fn refused_names_a_choice()
    ensures { RefusedNamesAChoice }
{}

/// Any of the open reservations can be committed while the others stay open: the row still meets
/// the check, whichever of those are applied. `R` is the type in which the caller keeps
/// reservations.
pub fn any_choice_can_commit<R>()
    ensures { AnyChoiceCanCommit R }
{}

/// Any of the open reservations can be dropped while the others stay open: the row still meets the
/// check, whichever of those are applied.
pub fn any_choice_can_roll_back<R>()
    ensures { AnyChoiceCanRollBack R }
{}

/// Changes don't change the number of a row's amounts.
pub fn changes_keep_the_number()
    ensures { ChangesKeepTheNumber }
{}

/// A reservation of another row doesn't affect a row that always meets a check.
pub fn other_rows_stay_safe()
    ensures { OtherRowsStaySafe }
{}

/// If a new row meets a check, it meets it whichever of the open reservations are applied, since
/// these are of other rows.
pub fn new_row_is_safe()
    ensures { NewRowIsSafe }
{}

/// A reservation of another row adds nothing to a row's spread.
pub fn other_rows_add_nothing()
    ensures { OtherRowsAddNothing }
{}

/// Every sum of a check fits 128 bits, at any scales: its magnitude is at most 10^33.
pub fn sums_are_wide()
    ensures { SumsAreWide }
{}

/// The limits of this layer. A table declares at most 32 conditions. A coefficient is at most
/// 1,000,000 as written, and at most 10^12 as kept. A form has at most 10 coefficients. A wide sum
/// fits 128 bits. At most 16,384 reservations of a row are open.
pub fn limits()
    ensures { Limits }
{}
