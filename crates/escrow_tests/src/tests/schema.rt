//! [`alter`], in whose place the program makes other calls, and the calls of [`Catalog`].
ghost use Rattle.std.specs.Prelude.{IfOk};
ghost use Rattle.escrow_schema.specs.Definition.{IsTable};

use escrow_schema::{Catalog, TableDef, alter, define, print_table};
use escrow_sql::{Request, Statement, parse};
use std::alloc::Global;
use std::process::Abort;
use std::test::Fail;

/// A table.
const CREATE: &str =
    "CREATE TABLE C (K NUMBER PRIMARY KEY, A NUMBER(5,2) RESERVABLE CHECK (A >= 0))";

/// Changes of the table, and its text after each, if the table still exists.
const STEPS: [(&str, Option<&str>); 3] = [
    (
        "ALTER TABLE C ADD CHECK (A < 8.5 AND A > -1)",
        Some(
            "CREATE TABLE C (K NUMBER(15) PRIMARY KEY, A NUMBER(5,2) RESERVABLE, CONSTRAINT CHECK_1 CHECK (A >= 0.00), CONSTRAINT CHECK_2 CHECK (A <= 8.49), CONSTRAINT CHECK_3 CHECK (A >= -0.99))",
        ),
    ),
    (
        "ALTER TABLE C DROP CONSTRAINT CHECK_2",
        Some(
            "CREATE TABLE C (K NUMBER(15) PRIMARY KEY, A NUMBER(5,2) RESERVABLE, CONSTRAINT CHECK_1 CHECK (A >= 0.00), CONSTRAINT CHECK_3 CHECK (A >= -0.99))",
        ),
    ),
    ("DROP TABLE C", None),
];

/// Returns the table that a text defines.
fn defined(rt: &impl Abort, alloc: Global, text: &str) -> Result<TableDef, Fail>
    ensures { IfOk result IsTable }
{
    let request = parse(alloc, text)?;
    match &request {
        Request::Statement(Statement::Create(asked)) => Ok(define(alloc, asked)?),
        _ => panic!(rt; "no table: {text}"),
    }
}

/// Does to a catalog what a statement asks for.
fn step(rt: &impl Abort, alloc: Global, catalog: &mut Catalog, text: &str) -> Result<(), Fail> {
    let request = parse(alloc, text)?;
    match &request {
        Request::Statement(Statement::Alter(asked)) => {
            let table = catalog.find(asked.table).expect(rt, "a table");
            let made = alter(alloc, table, &asked.change)?;
            assert!(rt; catalog.find(made.name).is_some());
            catalog.replace(made);
        }
        Request::Statement(Statement::Drop(name)) => {
            let dropped = catalog.remove(*name)?;
            assert_eq!(rt; dropped.name, *name);
        }
        _ => panic!(rt; "no change of a table: {text}"),
    }
    Ok(())
}

/// A catalog keeps the table that changes leave, with the checks that it must have.
#[test]
fn keeps_altered_tables(rt: HostRuntime) -> Result<(), Fail> {
    let alloc = rt.alloc();
    let table = defined(&rt, alloc, CREATE)?;
    let name = table.name;
    let mut catalog = Catalog::new(alloc);
    let place = catalog.add(1, table)?;
    assert_eq!(rt; catalog.place(name), Some(place));
    catalog.count(place, 7);
    for (text, want) in STEPS {
        step(&rt, alloc, &mut catalog, text)?;
        let Some(place) = catalog.place(name) else {
            assert!(rt; want.is_none(), "{text}");
            continue;
        };
        let counted = catalog.at(place);
        assert_eq!(rt; (counted.stored.id, counted.rows), (1, 7), "{text}");
        let printed = print_table(alloc, &counted.stored.table)?;
        assert_eq!(rt; Some(printed.as_str()), want, "{text}");
    }
    Ok(())
}
