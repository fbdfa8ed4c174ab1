//! The columns that a read of amounts covers, of a row or of all rows.
ghost use Rattle.std.specs.Prelude.{◌≡◌, ◌≢◌, ◌<◌, ◌≤◌, ◌+◌, ◌^◌, [], length, take, drop};
ghost use Rattle.escrow_schema.specs.Column.{reservables};

use escrow_schema::Column;

/// Adjacent columns of a table.
#[derive(Clone, Copy, Debug)]
pub struct Span {
    /// How many columns come before them.
    pub start: usize,
    /// How many columns there are.
    pub len: usize,
}

impl Span {
    /// Returns these columns and those after them, up to the column at `place`. If there are none
    /// so far, returns only that one.
    fn up_to(self, place: usize) -> Self
        requires before { self.start + self.len ≤ place }
        requires few { place < 2 ^ 63 }
        ensures first { self.len ≡ 0 → result.start ≡ place }
        ensures more { self.len ≢ 0 → result.start ≡ self.start }
        ensures last { result.start + result.len ≡ place + 1 }
    {
        let start = if self.len == 0 { place } else { self.start };
        Span {
            start,
            len: place + 1 - start,
        }
    }
}

/// Returns the columns from the first RESERVABLE one to the last, or the first column if none is
/// RESERVABLE.
pub fn reservable_span(columns: &[Column]) -> Span
    requires { 0 < length columns.now }
    ensures some { 0 < result.len }
    ensures within { result.start + result.len ≤ length columns.now }
    ensures few { result.start + result.len < 2 ^ 63 }
    ensures before { reservables (take result.start columns.now) ≡ [] }
    ensures behind { reservables (drop (result.start + result.len) columns.now) ≡ [] }
{
    let mut span = Span { start: 0, len: 0 };
    for (i, column) in columns.iter().enumerate() {
        if column.reservable {
            span = span.up_to(i);
        }
    }
    Span {
        start: span.start,
        len: span.len.max(1),
    }
}
