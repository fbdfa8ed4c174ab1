//! Tables and rows of a store, listed and counted.
use super::databases::execute;
use super::opened::ACCOUNT;
use escrow_cells::create;
use escrow_num::{Failure, Refusal};
use escrow_rows::RowStore;
use escrow_schema::{StoredTable, define};
use escrow_sql::{Request, Statement, parse};
use sqlite::{Alter, Connection};
use std::alloc::Global;
use std::process::Abort;
use std::test::Fail;

/// A second table, of another number.
const SECOND: &str =
    "INSERT INTO TAB VALUES (7, 'A', 'CREATE TABLE A (ID NUMBER(3) PRIMARY KEY, N NUMBER(3) RESERVABLE)'); INSERT INTO CELL VALUES (7, 2, 1, 2), (7, 2, 2, 5), (7, -1, 1, -1), (7, -1, 2, 5)";

/// Returns the table that a text defines, with a number.
fn stored(alloc: Global, id: i64, text: &str) -> Result<StoredTable, Refusal> {
    let Ok(Request::Statement(Statement::Create(text))) = &parse(alloc, text) else {
        return Err(Refusal::BadDefinition);
    };
    let table = define(alloc, text)?;
    Ok(StoredTable { id, table })
}

/// Returns the numbers and names of the tables that a store lists.
fn listed<S: Alter>(alloc: Global, store: &mut RowStore<S>) -> Result<String, Failure> {
    let mut text = String::new(alloc);
    for table in store.tables(alloc)?.as_slice() {
        let name = table.name.as_str();
        let line = format!(in alloc; "{} {name};", table.id)?;
        text.push_str(line.as_str())?;
    }
    Ok(text)
}

/// Makes a store with two tables, lists them, and counts the rows of one.
fn list<R: Abort + AllocGlobal, S: Alter + Drop>(
    rt: &R,
    mut conn: Connection<S>,
) -> Result<(), Fail> {
    let alloc = rt.alloc();
    create(&mut conn)?;
    assert!(rt; execute(&mut conn, &[SECOND, ACCOUNT]));
    assert!(rt; conn.is_autocommit());
    let mut store = RowStore::over(conn);
    assert_eq!(rt; listed(alloc, &mut store)?.as_str(), "1 ACCOUNT;7 A;");
    let text = "CREATE TABLE A (ID NUMBER(3) PRIMARY KEY, N NUMBER(3) RESERVABLE)";
    let table = stored(alloc, 7, text).ok().expect(rt, "a table");
    assert_eq!(rt; store.count(&table), Ok(2));
    Ok(())
}

/// Tables are listed in order of their numbers, and rows are counted.
#[test]
fn tables_and_rows_of_a_store(rt: HostRuntime) -> Result<(), Fail> {
    list(&rt, escrow_memory::open(rt.alloc())?)
}

/// The text of a failure.
#[test]
fn failures_say_what_they_are(rt: HostRuntime) -> Result<(), Fail> {
    let shown = format!(in rt.alloc(); "{}: {}", Failure::Memory, Failure::Store)?;
    assert_eq!(rt; shown.as_str(), "out of memory: the store refused a call");
    Ok(())
}
