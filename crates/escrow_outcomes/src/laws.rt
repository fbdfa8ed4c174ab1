//! Laws of what a script writes and leaves. Each is the contract of a function that does nothing.

ghost use Rattle.escrow_outcomes.specs.Laws.{OutputIsAFunction, RestartsShow, CutsAreOutputs, DatabasesStandAlone, OthersMakeNoDifference, ScriptsAreAccountedFor, TextsStayReadable, ReadableCanBeHeld, WhatIsLeftIsOpened};

use sqlite::Alter;

/// Without want of memory and without a store's refusal, what lines write is a function of them and
/// of the states before: two outputs that show no 51 and no 60 are equal, and so are the states.
pub fn output_is_a_function()
    ensures { OutputIsAFunction }
{}

/// The premise of that law is needed, and can be met: a restart may be written as done, which shows
/// no failure, or as failed, which shows one.
pub fn restarts_show()
    ensures { RestartsShow }
{}

/// What lines write is what each of them writes, in their order.
pub fn cuts_are_outputs()
    ensures { CutsAreOutputs }
{}

/// Databases don't disturb each other. The lines of one write the same, and leave it the same state,
/// in a script that has none but these, whatever the other databases are.
pub fn databases_stand_alone()
    ensures { DatabasesStandAlone }
{}

/// So what other databases are asked, hold or fail at makes no difference to one. If two scripts have
/// the same lines for a database that begins in the same state, each of these lines writes the same,
/// and the database ends in the same state, unless one of them shows a 51 or a 60.
pub fn others_make_no_difference()
    ensures { OthersMakeNoDifference }
{}

/// What lines write is the replies to what they ask of the databases, in order. For each database
/// this is a run of the machine, and every unit of it is accounted for.
pub fn scripts_are_accounted_for()
    ensures { ScriptsAreAccountedFor }
{}

/// If the texts of all rows are in UTF-8, they are after any run whose statements put such texts.
pub fn texts_stay_readable()
    ensures { TextsStayReadable }
{}

/// In a valid state whose texts are in UTF-8, a store can hold each value.
pub fn readable_can_be_held()
    ensures { ReadableCanBeHeld }
{}

/// If a database's store can be used, its state is valid and its texts are in UTF-8, whatever a crash
/// leaves of it is a store of the known format, of the tables and rows of its state, and of no
/// others.
pub fn what_is_left_is_opened<S: Alter>()
    ensures { WhatIsLeftIsOpened S.Store }
{}
