//! A row of TAB: a table's number, its name, and the text that defines it.
ghost use Rattle.std.specs.Prelude.{◌≡◌, ◌≢◌, ◌<◌, ℕ, ℤ, List, Err, None, Some, IfOk, IfSome, IsUtf8, length};
ghost use Rattle.sqlite_value.specs.declared.value.Value.TheVariants as sql;
ghost use Rattle.sqlite_value.specs.Order.{column};
ghost use Rattle.escrow_sql.specs.Parser.{Asks};
ghost use Rattle.escrow_statement.specs.declared.statement.CreateText.{CreateText as Create};
ghost use Rattle.escrow_statement.specs.declared.statement.Request.TheVariants as requests;
ghost use Rattle.escrow_statement.specs.declared.statement.Statement.TheVariants as statements;
ghost use Rattle.escrow_schema.specs.declared.table.TableDef.{TableDef as Table};
ghost use Rattle.escrow_schema.specs.Definition.{IsTable, definition_of};
ghost use Rattle.escrow_schema.specs.Print.{canonical};
ghost use Rattle.escrow_rows.specs.Image.{tab_row};
ghost use Rattle.escrow_recover.specs.Tabs.{CanStand, Defines, IsTab, tab_with};
ghost use Rattle.escrow_recover.specs.declared.unverified.PartFault.TheVariants.{Foreign};

use crate::unverified::PartFault;
use escrow_num::{Failure, Refusal};
use escrow_schema::{StoredTable, TableDef, define, print_table};
use escrow_sql::{ParseFault, Request, Statement, parse};
use sqlite::Row;
use sqlite::types::ValueRef;
use std::alloc::Global;

/// The columns of a row of TAB.
#[derive(Clone, Copy)]
struct Tab<'a> {
    id: i64,
    name: &'a str,
    text: &'a str,
}

/// Returns the table of a row of TAB: the one whose canonical text this is, under its own name.
pub(super) fn table_of(alloc: Global, row: &Row) -> Result<StoredTable, PartFault>
    ensures table { IfOk result (λ s. CanStand s × (row.now ≡ tab_row s)) }
    ensures foreign { result ≡ Err Foreign → IsTab row.now → ⊥ }
{
    let Some(tab) = tab_of(row) else {
        return Err(PartFault::Foreign);
    };
    let table = defined_by(alloc, tab.text)?;
    if tab.id < 1 || tab.name != table.name.as_str() {
        return Err(PartFault::Foreign);
    }
    Ok(StoredTable { id: tab.id, table })
}

/// Returns the columns of a row of TAB, or `None` if a column has a value that TAB never has there.
fn tab_of(row: &Row) -> Option<Tab<'_>>
    ensures some { IfSome result (λ tab. row.now ≡ tab_with tab.id tab.name.now tab.text.now) }
    ensures none { result ≡ None → (id : ℤ) (name text : List ℕ) → IsUtf8 name → IsUtf8 text
        → row.now ≢ tab_with id name text }
{
    if row.column_count() != 3 {
        return None;
    }
    Some(Tab {
        id: number_at(row, 0)?,
        name: text_at(row, 1)?,
        text: text_at(row, 2)?,
    })
}

/// Returns the number at a place.
fn number_at(row: &Row, place: usize) -> Option<i64>
    requires { place < length row.now }
    ensures some { IfSome result (λ n. column row.now place ≡ sql.Int n) }
    ensures none { result ≡ None → (n : ℤ) → column row.now place ≢ sql.Int n }
{
    match row.get_ref(place) {
        Ok(ValueRef::Int(number)) => Some(number),
        _ => None,
    }
}

/// Returns the text at a place, if it is one in UTF-8.
fn text_at(row: &Row, place: usize) -> Option<&str>
    requires { place < length row.now }
    ensures some { IfSome result (λ text. column row.now place ≡ sql.Text text.now) }
    ensures none { result ≡ None → (text : List ℕ) → IsUtf8 text → column row.now place ≢ sql.Text text }
{
    match row.get_ref(place) {
        Ok(ValueRef::Text(bytes)) => std::str::from_utf8(bytes).ok(),
        _ => None,
    }
}

/// Returns the table whose canonical text this is.
fn defined_by(alloc: Global, text: &str) -> Result<TableDef, PartFault>
    ensures table { IfOk result (λ table. IsTable table × (text.now ≡ canonical table)) }
    ensures foreign { result ≡ Err Foreign → (table : Table) → IsTable table → text.now ≢ canonical table }
{
    let table = created_by(alloc, text)?;
    let printed = print_table(alloc, &table)?;
    if printed.as_str() == text {
        Ok(table)
    } else {
        Err(PartFault::Foreign)
    }
}

/// Returns the table that a text defines.
fn created_by(alloc: Global, text: &str) -> Result<TableDef, PartFault>
    ensures table { IfOk result (Defines text.now) }
    ensures foreign { result ≡ Err Foreign → (table : Table) → Defines text.now table → ⊥ }
{
    match parse(alloc, text) {
        Ok(request) => defined_in(alloc, &request),
        Err(ParseFault::Memory) => Err(PartFault::Failed(Failure::Memory)),
        Err(ParseFault::Syntax { .. }) => Err(PartFault::Foreign),
    }
}

/// Returns the table that a request defines.
fn defined_in(alloc: Global, request: &Request) -> Result<TableDef, PartFault>
    ensures table { IfOk result
        (λ table. (create : Create) × (request.now ≡ requests.Statement (statements.Create create))
        × (definition_of create ≡ Some table)) }
    ensures foreign { result ≡ Err Foreign → (create : Create)
        → request.now ≡ requests.Statement (statements.Create create) → definition_of create ≡ None }
{
    let Request::Statement(Statement::Create(create)) = request else {
        return Err(PartFault::Foreign);
    };
    match define(alloc, create) {
        Ok(table) => Ok(table),
        Err(Refusal::BadDefinition) => Err(PartFault::Foreign),
        Err(_) => Err(PartFault::Failed(Failure::Memory)),
    }
}
