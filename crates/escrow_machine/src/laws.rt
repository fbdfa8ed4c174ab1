//! Laws of the machine. Each is the contract of a function that does nothing. They state for its
//! steps what O'Neil's escrow method (1986) promises of transactions.

ghost use Rattle.escrow_machine.specs.Laws.{StepKeepsValid, RunKeepsValid, CommittedRowsMeetChecks, CommittedValuesFit, EveryRunIsSafe, RefusedChangesNothing, MachineNeverFails, EarlyRefusalsStand, CommitIsNeverRefused, QueriesSeeCommitsAlone, IdsNeverFall, IdsAreUsedOnce, IdsTellTheOrder, TransactionsCommute, AnyOrderOfEnds, SettledIsTheRun, SettledStaysValid, SettledInAnyOrder, PassesCommits, HeldCommitsMayComeLast, ReservationsKeepRows, ShownStays, BoundsAreReached, BackAtOnceChangesNothing, BackLeavesWhatWas, BackRefusesNothing, GrantedInEveryChoice, OwnIncrementNotSpent, RefusedByAChoice, BoundsDecideGrants, SessionsFillFirst};

/// Whatever a session asks in a valid state, the state after it is valid: whichever of the open
/// reservations are applied, each row meets each check of its table.
pub fn step_keeps_valid()
    ensures { StepKeepsValid }
{}

/// The state is also valid after any list of events of any sessions, in any order, some of which
/// may fail.
pub fn run_keeps_valid()
    ensures { RunKeepsValid }
{}

/// A refused statement changes nothing: the catalog, the rows, the open reservations, the
/// savepoints and the next id stay as they were.
pub fn refused_changes_nothing()
    ensures { RefusedChangesNothing }
{}

/// The machine itself never runs out of memory, and no store refuses it. None of its replies says
/// so.
pub fn machine_never_fails()
    ensures { MachineNeverFails }
{}

/// A refusal that needs neither memory nor the store is given whatever is left of both. These are:
/// an open transaction; a table that exists or doesn't; a constraint to drop that doesn't exist; a
/// bad value of an INSERT; an UPDATE that has no plan; a WHERE that names no key; and each refusal
/// of DROP TABLE, SELECT, SHOW TABLE, SHOW JOURNAL, SAVEPOINT and ROLLBACK TO.
pub fn early_refusals_stand()
    ensures { EarlyRefusalsStand }
{}

/// COMMIT is never refused, since each reservation was granted over every choice of the open ones.
/// Its reply says how many were applied.
pub fn commit_is_never_refused()
    ensures { CommitIsNeverRefused }
{}

/// A query shows what was committed. A reservation shows in no row, not even to its own session,
/// until its COMMIT adds its changes; a ROLLBACK leaves no trace of it. INSERT, DELETE, CREATE,
/// ALTER and DROP TABLE, and UPDATE of plain values commit their changes at once.
pub fn queries_see_commits_alone()
    ensures { QueriesSeeCommitsAlone }
{}

/// No statement lowers the next id.
pub fn ids_never_fall()
    ensures { IdsNeverFall }
{}

/// No id is used again before a restart: of two reservations, the later one has the greater id.
pub fn ids_are_used_once()
    ensures { IdsAreUsedOnce }
{}

/// In a valid state, the ids of the open reservations rise in the order of grant, from 1 on, and
/// are below the next id. The ids of a session's savepoints, which have different names, never fall
/// in the order in which they were made, and none is above the next id.
pub fn ids_tell_the_order()
    ensures { IdsTellTheOrder }
{}

/// No open reservation loses its row or its table.
pub fn reservations_keep_rows()
    ensures { ReservationsKeepRows }
{}

/// If a reply holds memory, the state is unchanged. So a statement that changes something has a
/// reply that can be copied without memory.
pub fn shown_stays()
    ensures { ShownStays }
{}

/// SHOW BOUNDS shows two bounds of each column and each declared check of the row. Whichever of the
/// open reservations are applied, the value is between the two, and some choice gives it each of
/// the two. The bounds of a check are within its limits. Each is in units of the scale that is
/// shown with it.
pub fn bounds_are_reached()
    ensures { BoundsAreReached }
{}

/// Going back to a savepoint right after it was made drops nothing: the state stays as it is.
pub fn back_at_once_changes_nothing()
    ensures { BackAtOnceChangesNothing }
{}

/// A session makes a savepoint, then anything may happen. If the savepoint still exists, going back
/// to it leaves the session's reservations as they were when it was made. The reservations of other
/// sessions, and all else but savepoints, stay as they are.
pub fn back_leaves_what_was()
    ensures { BackLeavesWhatWas }
{}

/// A ROLLBACK TO makes no grant impossible: what would be granted before it would be granted after
/// it, whoever asks.
pub fn back_refuses_nothing()
    ensures { BackRefusesNothing }
{}

/// The ends of two sessions' transactions, each a commit or a rollback, lead to equal states in
/// either order. Changes are increments, and increments commute.
pub fn transactions_commute()
    ensures { TransactionsCommute }
{}

/// If open transactions are committed or rolled back, in any order, the state is valid after each
/// of them.
pub fn any_order_of_ends()
    ensures { AnyOrderOfEnds }
{}

/// A plan of ends leaves the state that the machine's steps leave: one COMMIT or ROLLBACK for each
/// of its entries, one after another.
pub fn settled_is_the_run()
    ensures { SettledIsTheRun }
{}

/// The state is valid after any number of a plan's first entries.
pub fn settled_stays_valid()
    ensures { SettledStaysValid }
{}

/// What a plan leaves depends on which sessions' transactions it ends, and how, but not on its
/// order.
pub fn settled_in_any_order()
    ensures { SettledInAnyOrder }
{}

/// In a valid state, a statement may pass another session's COMMIT that is held back, if it may be
/// served meanwhile. Its reply is the same before and after that COMMIT, and both orders lead to
/// one state. A grant stays a grant, since the bounds counted that COMMIT as possible.
pub fn passes_commits()
    ensures { PassesCommits }
{}

/// From a valid state, COMMITs that are held back may come last, and some of them may fail then.
/// The replies and the state are those of a run in the order in which everything was asked.
pub fn held_commits_may_come_last()
    ensures { HeldCommitsMayComeLast }
{}

/// In a valid state each committed row meets each check of its table.
pub fn committed_rows_meet_checks()
    ensures { CommittedRowsMeetChecks }
{}

/// In a valid state each value of each committed row fits the type of its column.
pub fn committed_values_fit()
    ensures { CommittedValuesFit }
{}

/// After any list of events of any sessions, in any order, some of which may fail, each committed
/// row meets each check of its table.
pub fn every_run_is_safe()
    ensures { EveryRunIsSafe }
{}

/// A granted reservation is safe: whichever of the open reservations are applied with it, the row
/// meets each check of its table.
pub fn granted_in_every_choice()
    ensures { GrantedInEveryChoice }
{}

/// An increment that isn't committed can't be spent, not even by the session that made it: a
/// granted reservation is safe without any earlier reservation of that session.
pub fn own_increment_not_spent()
    ensures { OwnIncrementNotSpent }
{}

/// A reservation that a check refuses would be unsafe. With it, some choice of the open
/// reservations gives the named check the named worst value, which is past its limit. Both are in
/// units of the check's scale.
pub fn refused_by_a_choice()
    ensures { RefusedByAChoice }
{}

/// The bounds that SHOW BOUNDS shows decide. A reservation that is granted moves the bounds of each
/// check of its table by what it adds to the form, and they stay within the limits. If a check
/// refuses a reservation, some of them would not.
pub fn bounds_decide_grants()
    ensures { BoundsDecideGrants }
{}

/// With at most 64 sessions the limit of a row, 16,384 open reservations, refuses nothing: the limit
/// of the session, 256, refuses it too. So an UPDATE gets the refusal that it would get without the
/// row's limit.
pub fn sessions_fill_first()
    ensures { SessionsFillFirst }
{}
