//! Tells the schema of a store from any other.
ghost use Rattle.std.specs.Prelude.{◌≡◌, ◌↔◌, [], ◌∷◌, true, false, IsTrue};
ghost use Rattle.std.specs.List.{AllByRecursion};
ghost use Rattle.sqlite_value.specs.declared.keys.Collation.TheVariants.{Binary};
ghost use Rattle.sqlite_value.specs.declared.value.Value.TheVariants.{Null};
ghost use Rattle.sqlite_value.specs.Keys.{plain};
ghost use Rattle.sqlite_schema.specs.declared.schema.Table.{Table as TableOf};
ghost use Rattle.escrow_cells.specs.Recognised.{IsUnruled};
ghost use Rattle.escrow_cells.specs.Store.{HasTables, IsStoreSchema};
ghost use Rattle.escrow_cells.specs.Tables.{filled, meta, tab, cell};

use sqlite_items::Items;
use sqlite_schema::code::Terms;
use sqlite_schema::schema::{Column, Kind, Schema, Stamps, Table};
use sqlite_value::keys::{Collation, Order};
use sqlite_value::value::Value;

/// Returns whether a schema is that of a store: META, TAB and CELL are its first tables, as their
/// texts make them, and no table has a foreign key.
pub fn is_store_schema(schema: &Schema) -> bool
    ensures { IsTrue result ↔ IsStoreSchema schema.now }
{
    has_tables(schema) && has_no_keys(schema.tables.as_slice())
}

/// Returns whether META, TAB and CELL are the first tables.
fn has_tables(schema: &Schema) -> bool
    ensures { IsTrue result ↔ HasTables schema.now }
{
    let [first, second, third, ..] = schema.tables.as_slice() else {
        return false;
    };
    are_first(first, second, third)
}

/// Returns whether three tables are META, TAB and CELL.
fn are_first(first: &Table, second: &Table, third: &Table) -> bool
    ensures { IsTrue result ↔ ((first.now ≡ meta) × (second.now ≡ tab) × (third.now ≡ cell)) }
{
    is_meta(first) && is_tab(second) && is_cell(third)
}

/// Returns whether no table has a foreign key.
fn has_no_keys(tables: &[Table]) -> bool
    ensures { IsTrue result ↔ AllByRecursion (λ (t : TableOf). t.references ≡ []) tables.now }
{
    tables.iter().all(|table| table.references.is_empty())
}

/// Returns whether a table is META, as its text makes it.
fn is_meta(table: &Table) -> bool
    ensures { IsTrue result ↔ (table.now ≡ meta) }
{
    is_named(table, "META", 0)
        && is_keyed(table, None, &[1], &[1])
        && are_meta_columns(table.columns.as_slice())
        && is_unruled(table)
}

/// Returns whether a table is TAB, as its text makes it.
fn is_tab(table: &Table) -> bool
    ensures { IsTrue result ↔ (table.now ≡ tab) }
{
    is_named(table, "TAB", 2)
        && is_keyed(table, Some(0), &[0], &[2])
        && are_tab_columns(table.columns.as_slice())
        && is_unruled(table)
}

/// Returns whether a table is CELL, as its text makes it.
fn is_cell(table: &Table) -> bool
    ensures { IsTrue result ↔ (table.now ≡ cell) }
{
    is_named(table, "CELL", 4)
        && is_keyed(table, None, &[1, 2, 3], &[1, 2, 3])
        && are_cell_columns(table.columns.as_slice())
        && is_unruled(table)
}

/// Returns whether a table has this name, and its rows are in the tree of this number.
fn is_named(table: &Table, name: &str, tree: u32) -> bool
    ensures { IsTrue result ↔ ((table.now.name ≡ name.now) × (table.now.tree ≡ tree)) }
{
    table.name.as_slice() == name.as_bytes() && table.tree == tree
}

/// Returns whether these are the keys of a table: the INTEGER PRIMARY KEY, the places of the
/// primary key, and those of the one key that an index keeps.
fn is_keyed(table: &Table, key: Option<usize>, primary: &[usize], unique: &[usize]) -> bool
    ensures { IsTrue result ↔ ((table.now.key ≡ key) × (table.now.primary ≡ primary.now)
        × (table.now.uniques ≡ unique.now ∷ []) × (table.now.orders ≡ plain ∷ [])) }
{
    table.key == key
        && table.primary.as_slice() == primary
        && is_only(table.uniques.as_slice(), unique)
        && is_plain(table.orders.as_slice())
}

/// Returns whether these are the places of the one key.
fn is_only(keys: &[Items<usize>], places: &[usize]) -> bool
    ensures { IsTrue result ↔ (keys.now ≡ places.now ∷ []) }
{
    let [key] = keys else {
        return false;
    };
    key.as_slice() == places
}

/// Returns whether the one index of a table ascends by bytes.
fn is_plain(orders: &[Order]) -> bool
    ensures { IsTrue result ↔ (orders.now ≡ plain ∷ []) }
{
    let [order] = orders else {
        return false;
    };
    *order == Order::PLAIN
}

/// Returns whether these are the columns of META.
fn are_meta_columns(columns: &[Column]) -> bool
    ensures { IsTrue result ↔ (columns.now ≡ meta.columns) }
{
    let [k, v] = columns else {
        return false;
    };
    is_column(k, "K", Kind::Text, true) && is_column(v, "V", Kind::Integer, true)
}

/// Returns whether these are the columns of TAB.
fn are_tab_columns(columns: &[Column]) -> bool
    ensures { IsTrue result ↔ (columns.now ≡ tab.columns) }
{
    let [id, name, ddl] = columns else {
        return false;
    };
    is_column(id, "ID", Kind::Integer, false)
        && is_column(name, "NAME", Kind::Text, true)
        && is_column(ddl, "DDL", Kind::Text, true)
}

/// Returns whether these are the columns of CELL.
fn are_cell_columns(columns: &[Column]) -> bool
    ensures { IsTrue result ↔ (columns.now ≡ cell.columns) }
{
    let [table, key, place, value] = columns else {
        return false;
    };
    is_column(table, "TAB", Kind::Integer, true)
        && is_column(key, "K", Kind::Any, true)
        && is_column(place, "C", Kind::Integer, true)
        && is_column(value, "V", Kind::Any, true)
}

/// Returns whether a column is this one of a STRICT table.
fn is_column(column: &Column, name: &str, kind: Kind, not_null: bool) -> bool
    ensures { IsTrue result ↔ (column.now ≡ record (filled name.now kind) { not_null = not_null }) }
{
    column.name.as_slice() == name.as_bytes()
        && column.kind == kind
        && column.not_null == not_null
        && is_strict(column)
}

/// Returns whether a column is of a STRICT table, has no default, and is ordered by bytes.
fn is_strict(column: &Column) -> bool
    ensures { IsTrue result ↔ ((column.now.is_strict ≡ true) × (column.now.default ≡ Null)
        × (column.now.collation ≡ Binary)) }
{
    column.is_strict && is_null(&column.default) && column.collation == Collation::Binary
}

/// Returns whether a value is NULL.
fn is_null(value: &Value) -> bool
    ensures { IsTrue result ↔ (value.now ≡ Null) }
{
    matches!(value, Value::Null)
}

/// Returns whether a table has no CHECK, no foreign key, no computed default and no AUTOINCREMENT.
fn is_unruled(table: &Table) -> bool
    ensures { IsTrue result ↔ IsUnruled table.now }
{
    is_empty(&table.checks)
        && table.references.is_empty()
        && table.computed.is_empty()
        && is_unstamped(&table.stamps)
        && !table.is_counted
}

/// Returns whether there are no terms.
fn is_empty(terms: &Terms) -> bool
    ensures { IsTrue result ↔ (terms.now ≡ []) }
{
    terms.roots.is_empty()
}

/// Returns whether no default reads the time.
fn is_unstamped(stamps: &Stamps) -> bool
    ensures { IsTrue result ↔ (stamps.now ≡ record { places = []; terms = []; formats = [] }) }
{
    stamps.places.is_empty() && is_empty(&stamps.terms) && stamps.formats.is_empty()
}
