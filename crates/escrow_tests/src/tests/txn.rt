//! Open transactions of several sessions, with and without refused memory.
use escrow_num::{Amount, Changes, Name, RowName, Session, Value};
use escrow_txn::TxnTable;
use std::alloc::Global;
use std::process::Abort;

/// Sessions, each with a savepoint that it makes, and the id of the reservation that it is granted
/// after it. Two of them make and hold more than are held in place.
const STEPS: [(u16, &str, u64); 12] = [
    (7, "A", 1),
    (1, "A", 2),
    (64, "A", 3),
    (7, "B", 4),
    (7, "C", 5),
    (1, "B", 6),
    (7, "D", 7),
    (7, "E", 8),
    (1, "C", 9),
    (7, "F", 10),
    (1, "D", 11),
    (1, "E", 12),
];

fn name(rt: &impl Abort, text: &str) -> Name {
    Name::new(text.as_bytes()).expect(rt, "a name")
}

/// Returns the row that a session changes. Its key is the session's number.
fn row(rt: &impl Abort, number: u16) -> RowName {
    RowName {
        table: name(rt, "ACCOUNT"),
        key: Value::Number(Amount::new(i64::from(number)).expect(rt, "a number")),
    }
}

/// Returns the one change of a reservation.
fn change(rt: &impl Abort, alloc: Global) -> Changes {
    let mut changes = Changes::new(alloc);
    changes.push(Amount::new(-1)).expect(rt, "memory");
    changes
}

/// Makes a savepoint of a session, which has none of that name. If memory is refused, it still has
/// none, and gets one at the second attempt.
fn mark(rt: &impl Abort, table: &mut TxnTable, session: Session, name: Name) {
    if table.mark(session, name).is_err() {
        assert!(rt; table.after(session, name).is_none());
        table.mark(session, name).expect(rt, "memory");
    }
    let later = table.after(session, name).expect(rt, "a savepoint");
    assert!(rt; later.is_empty());
}

/// Grants a session a reservation with an id. If memory is refused, no id is taken, and the same
/// reservation is granted at the second attempt.
fn grant(rt: &impl Abort, table: &mut TxnTable, session: Session, id: u64, alloc: Global) {
    let number = session.get();
    let mut granted = table.grant(session, row(rt, number), change(rt, alloc));
    if granted.is_err() {
        assert_eq!(rt; table.next_id(), Some(id));
        granted = table.grant(session, row(rt, number), change(rt, alloc));
    }
    assert_eq!(rt; granted.ok(), Some(id));
}

/// The open reservations are those of these steps, in order, each with its id, its session and its session's row.
fn are_open(rt: &impl Abort, table: &TxnTable, steps: &[(u16, &str, u64)], alloc: Global) {
    let all = table.all_in_order(alloc).expect(rt, "memory");
    assert_eq!(rt; all.len(), steps.len());
    for (r, (number, _, id)) in all.iter().zip(steps) {
        assert_eq!(rt; r.id, *id);
        assert_eq!(rt; r.session.get(), *number, "at {id}");
        assert!(rt; r.row.is_same(&row(rt, *number)), "at {id}");
        assert_eq!(rt; r.changes.len(), 1, "at {id}");
    }
}

/// Each session has a journal, and the journals together are one list in order of grant.
#[test]
fn journals_of_sessions(rt: HostRuntime) {
    let alloc = rt.alloc();
    let mut table = TxnTable::new(alloc).expect(&rt, "memory");
    for (taken, (number, text, id)) in STEPS.iter().enumerate() {
        let session = Session::new(*number).expect(&rt, "a session");
        mark(&rt, &mut table, session, name(&rt, text));
        are_open(&rt, &table, &STEPS[..taken], alloc);
        grant(&rt, &mut table, session, *id, alloc);
        are_open(&rt, &table, &STEPS[..taken + 1], alloc);
    }
}
