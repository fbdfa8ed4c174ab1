//! Laws of the protocol. Each is the contract of a function that does nothing.

ghost use Rattle.escrow_protocol.specs.Laws.{EachChangeOnce, ServerKnows, WhatIsOpenIsReserved, ServerIsValid, WhatIsOpenIsGrantedAgain, NoCheckBreaks, NoFoldIsRefused, LoadsMayComeLater, EachRuleIsNeeded, EachEventComes};

/// In every state that events lead to, the rows with the journal are what the committed
/// transactions say, each change once. After a crash they are what those say that it has left.
pub fn each_change_once()
    ensures { EachChangeOnce }
{}

/// The rows with the journal are the rows of the last owner's server, with the changes of those of
/// its open reservations that PostgreSQL has committed.
pub fn server_knows()
    ensures { ServerKnows }
{}

/// The last owner's server holds all reservations of each transaction that may still commit, and of
/// each hold: also after a crash, and after another owner has loaded the rows.
pub fn what_is_open_is_reserved()
    ensures { WhatIsOpenIsReserved }
{}

/// The last owner's server is in a valid state of the machine: each choice of what is open is legal.
pub fn server_is_valid()
    ensures { ServerIsValid }
{}

/// No check refuses what is open, if a server with the same rows reserves it again in its order, all
/// of it or a part. So a new owner can reserve the holds again before it serves.
pub fn what_is_open_is_granted_again()
    ensures { WhatIsOpenIsGrantedAgain }
{}

/// Whichever of the transactions and holds that may still commit are committed, no CHECK breaks.
pub fn no_check_breaks()
    ensures { NoCheckBreaks }
{}

/// No CHECK over reservable columns refuses a fold. The rows by themselves are late, and break no
/// CHECK either.
pub fn no_fold_is_refused()
    ensures { NoFoldIsRefused }
{}

/// If nothing of a row is reserved, its load reads what the last owner's server has: so a new owner
/// may load each row when it is first asked for, and give a row up.
pub fn loads_may_come_later()
    ensures { LoadsMayComeLater }
{}

/// Without any one of twelve rules there is a run after which a row breaks a CHECK, by itself or with
/// the journal. It begins at a table that the machine makes.
pub fn each_rule_is_needed()
    ensures { EachRuleIsNeeded }
{}

/// There is a run with an event of each kind: no rule keeps one away.
pub fn each_event_comes()
    ensures { EachEventComes }
{}
