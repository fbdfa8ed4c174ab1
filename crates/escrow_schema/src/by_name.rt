//! Tables by name, among tables in order of name.
ghost use Rattle.std.specs.Prelude.{◌≡◌, ◌≤◌, bytes_eq, length, option_copied, position, unwrap_or};
ghost use Rattle.std.specs.Ordering.{is_lt, nat_cmp};
ghost use Rattle.std.specs.Cmp.Lexicographic.{slice_cmp};
ghost use Rattle.escrow_schema.specs.Stored.{counted_named};

use crate::counted_table::CountedTable;
use escrow_num::Name;

/// Returns the table of a name. Takes no memory.
pub fn find_by_name(tables: &[CountedTable], name: Name) -> Option<&CountedTable>
    ensures { option_copied result ≡ counted_named tables.now name }
{
    tables
        .iter()
        .find(|counted| counted.stored.table.name == name)
}

/// Returns the place of the table of a name. Takes no memory.
pub(crate) fn place_by_name(tables: &[CountedTable], name: Name) -> Option<usize>
    ensures { result ≡ position (λ c. bytes_eq c.stored.table.name name) tables.now }
{
    tables
        .iter()
        .position(|counted| counted.stored.table.name == name)
}

/// Returns the place of a name in order: that of the first table whose name is greater, or the end.
/// Takes no memory.
pub(crate) fn place_in_order(tables: &[CountedTable], name: Name) -> usize
    ensures within { result ≤ length tables.now }
    ensures place { result ≡ unwrap_or (position (λ c. is_lt (slice_cmp nat_cmp name c.stored.table.name)) tables.now)
        (length tables.now) }
{
    first_after(tables, name).unwrap_or(tables.len())
}

/// Returns the place of the first table whose name is greater, if there is one.
fn first_after(tables: &[CountedTable], name: Name) -> Option<usize>
    ensures { result ≡ position (λ c. is_lt (slice_cmp nat_cmp name c.stored.table.name)) tables.now }
{
    tables
        .iter()
        .position(|counted| name.cmp(&counted.stored.table.name).is_lt())
}
