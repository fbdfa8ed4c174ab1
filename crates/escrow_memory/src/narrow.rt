//! Entries with a narrow header: its length takes one byte, and so does the type of each field that
//! is read. This holds for all but long texts and blobs. NULL, integers and texts are read in
//! place; everything else is left to the kit.
ghost use Rattle.std.specs.Prelude.{◌≡◌, ◌≢◌, ◌⊎◌, ◌-◌, ◌<◌, ◌≤◌, ◌^◌, [], ◌∷◌, ◌++◌, length, take, drop, IsTrue, IfOk, IfSome};
ghost use Rattle.sqlite_value.specs.declared.value.Value.{Value};
ghost use Rattle.sqlite_value.specs.declared.value.Value.TheVariants.{Int, Text};
ghost use Rattle.sqlite_value.specs.Value.{owned};
ghost use Rattle.sqlite_value.specs.Keys.{entry_cmp, prefix_cmp, by_key, first_key};
ghost use Rattle.sqlite_record.specs.Serial.{serial_size, serial_value, big_endian, signed};
ghost use Rattle.sqlite_record.specs.Record.{decode, values_of};
ghost use Rattle.sqlite_trees.specs.Tree.{rowid};

use sqlite_record::compare;
use sqlite_value::keys::Order;
use sqlite_value::row::Row;
use sqlite_value::value::ValueRef;
use std::alloc::AllocError;
use std::cmp::Ordering;

/// The fields of a narrow entry that are still to be read.
#[derive(Clone, Copy, Debug)]
struct NarrowFields<'a> {
    types: &'a [u8],
    body: &'a [u8],
}

/// Returns the number of bytes in big-endian order.
#[inline(always)]
fn unsigned(bytes: &[u8]) -> u64
    requires { length bytes.now ≤ 8 }
    ensures value { result ≡ big_endian bytes.now }
    ensures fits { result < 256 ^ length bytes.now }
{
    let mut bits = 0u64;
    for byte in bytes {
        bits = bits * 256 + u64::from(*byte);
    }
    bits
}

/// Returns the integer of bits in two's complement. `top` has every bit set.
#[inline(always)]
fn with_sign(top: u64, bits: u64) -> i64
    requires { bits ≤ top }
    ensures { result ≡ signed top bits }
{
    if top / 2 < bits {
        -1 - (top - bits) as i64
    } else {
        bits as i64
    }
}

/// Returns the integer in the first `width` bytes, and the bytes after them.
#[inline(always)]
fn split_width(bytes: &[u8], width: usize, top: u64) -> Option<(i64, &[u8])>
    requires narrow { width ≤ 8 }
    requires top { top ≡ 256 ^ width - 1 }
    ensures value { IfSome result (λ split. split.0 ≡ signed top (big_endian (take width bytes.now))) }
    ensures behind { IfSome result (λ split. split.1.now ≡ drop width bytes.now) }
{
    let (front, behind) = bytes.split_at_checked(width)?;
    Some((with_sign(top, unsigned(front)), behind))
}

/// Returns the integer at the front of the bytes, if `serial` is the type of one, and the bytes
/// after it.
#[inline(always)]
#[tactic(auto, unfolding(sqlite_record::specs::Serial::serial_size, sqlite_record::specs::Serial::serial_value))]
fn split_int(serial: u8, bytes: &[u8]) -> Option<(i64, &[u8])>
    ensures value { IfSome result (λ split. serial_value serial (take (serial_size serial) bytes.now) ≡ Int split.0) }
    ensures behind { IfSome result (λ split. split.1.now ≡ drop (serial_size serial) bytes.now) }
    ensures narrow { IfSome result (λ _. serial < 128) }
{
    match serial {
        1 => split_width(bytes, 1, 0xff),
        2 => split_width(bytes, 2, 0xffff),
        3 => split_width(bytes, 3, 0xff_ffff),
        4 => split_width(bytes, 4, 0xffff_ffff),
        5 => split_width(bytes, 6, 0xffff_ffff_ffff),
        6 => split_width(bytes, 8, u64::MAX),
        8 => Some((0, bytes)),
        9 => Some((1, bytes)),
        _ => None,
    }
}

/// Returns the text at the front of the bytes, if `serial` is the narrow type of one, and the bytes
/// after it.
#[inline(always)]
#[tactic(auto, unfolding(sqlite_record::specs::Serial::serial_size, sqlite_record::specs::Serial::serial_value))]
fn split_text(serial: u8, bytes: &[u8]) -> Option<(&[u8], &[u8])>
    ensures value { IfSome result
        (λ split. serial_value serial (take (serial_size serial) bytes.now) ≡ Text split.0.now) }
    ensures behind { IfSome result (λ split. split.1.now ≡ drop (serial_size serial) bytes.now) }
    ensures narrow { IfSome result (λ _. serial < 128) }
{
    if serial < 13 || 128 <= serial || serial % 2 == 0 {
        return None;
    }
    bytes.split_at_checked(usize::from((serial - 12) / 2))
}

/// Returns the value at the front of the bytes, if it is NULL, an integer or a narrow text, and the
/// bytes after it.
#[inline(always)]
#[tactic(auto, unfolding(sqlite_record::specs::Serial::serial_size, sqlite_record::specs::Serial::serial_value))]
fn split_value(serial: u8, bytes: &[u8]) -> Option<(ValueRef<'_>, &[u8])>
    ensures value { IfSome result (λ split. serial_value serial (take (serial_size serial) bytes.now) ≡ owned split.0) }
    ensures behind { IfSome result (λ split. split.1.now ≡ drop (serial_size serial) bytes.now) }
    ensures narrow { IfSome result (λ _. serial < 128) }
{
    if serial == 0 {
        return Some((ValueRef::Null, bytes));
    }
    if let Some((n, behind)) = split_int(serial, bytes) {
        return Some((ValueRef::Int(n), behind));
    }
    let (text, behind) = split_text(serial, bytes)?;
    Some((ValueRef::Text(text), behind))
}

/// Returns how integers compare by the key of the first column. Its collation is for texts alone.
#[inline(always)]
fn compare_ints(order: Order, a: i64, b: i64) -> Ordering
    ensures { result ≡ by_key (first_key order) (Int a) (Int b) }
{
    if order.first().descending {
        b.cmp(&a)
    } else {
        a.cmp(&b)
    }
}

impl<'a> NarrowFields<'a> {
    /// Returns the fields of an entry, if the length of its header takes a byte.
    #[inline(always)]
    fn new(entry: &'a [u8]) -> Option<NarrowFields<'a>>
        ensures { IfSome result (λ fields. values_of fields.types.now fields.body.now ≡ decode entry.now) }
    {
        let [len, ..] = entry else {
            return None;
        };
        if 128 <= *len {
            return None;
        }
        let (header, body) = entry.split_at_checked(usize::from(*len))?;
        let [_, types @ ..] = header else {
            return None;
        };
        Some(NarrowFields { types, body })
    }

    /// Returns the first field, if it is an integer, and the fields after it.
    #[inline(always)]
    fn split_int(self) -> Option<(i64, NarrowFields<'a>)>
        ensures { IfSome result (λ split.
            values_of self.entry.types.now self.entry.body.now ≡ Int split.0
            ∷ values_of split.1.types.now split.1.body.now) }
    {
        let [serial, types @ ..] = self.types else {
            return None;
        };
        let (n, body) = split_int(*serial, self.body)?;
        Some((n, NarrowFields { types, body }))
    }

    /// Returns the first field, if it is NULL, an integer or a text, and the fields after it.
    #[inline(always)]
    fn split_first(self) -> Option<(ValueRef<'a>, NarrowFields<'a>)>
        ensures { IfSome result (λ split.
            values_of self.entry.types.now self.entry.body.now ≡ owned split.0
            ∷ values_of split.1.types.now split.1.body.now) }
    {
        let [serial, types @ ..] = self.types else {
            return None;
        };
        let (value, body) = split_value(*serial, self.body)?;
        Some((value, NarrowFields { types, body }))
    }

    /// Compares the first field with a value by the key of the first column. Returns the result and
    /// the fields after it, if the field is read.
    fn compare_first(
        self,
        order: Order,
        value: ValueRef<'_>,
    ) -> Option<(Ordering, NarrowFields<'a>)>
        ensures { IfSome result (λ found. (first : Value)
            × (values_of self.entry.types.now self.entry.body.now ≡ first
            ∷ values_of found.1.types.now found.1.body.now)
            × (found.0 ≡ by_key (first_key order) first (owned value.entry))) }
    {
        let (first, behind) = self.split_first()?;
        Some((order.compare_first(first, value), behind))
    }

    /// [`NarrowFields::compare_first`], if the field and the value are integers.
    #[inline(always)]
    fn compare_int(self, order: Order, value: i64) -> Option<(Ordering, NarrowFields<'a>)>
        ensures { IfSome result (λ found. (first : Value)
            × (values_of self.entry.types.now self.entry.body.now ≡ first
            ∷ values_of found.1.types.now found.1.body.now) × (found.0 ≡ by_key (first_key order) first (Int value))) }
    {
        let (first, behind) = self.split_int()?;
        Some((compare_ints(order, first, value), behind))
    }

    /// Compares the fields with the columns of a row from a given one on. Returns the result and
    /// the fields after those that were read, if each is read.
    #[inline(never)]
    fn compare_from(
        self,
        mut order: Order,
        row: &Row,
        from: usize,
    ) -> Option<(Ordering, NarrowFields<'a>)>
        requires { from ≤ length row.now }
        ensures prefix { IfSome result
            (λ found. found.0 ≡ prefix_cmp order (values_of self.entry.types.now self.entry.body.now)
            (drop from row.now)) }
        ensures entry { IfSome result
            (λ found. (found.0 ≢ Ordering.Equal) ⊎ (values_of found.1.types.now found.1.body.now ≡ [])
            → found.0 ≡ entry_cmp order (values_of self.entry.types.now self.entry.body.now) (drop from row.now)) }
    {
        let mut fields = self;
        for at in from..row.len() {
            match fields.compare_first(order, row.get(at))? {
                (Ordering::Equal, behind) => fields = behind,
                found => return Some(found),
            }
            order = order.later();
        }
        Some((Ordering::Equal, fields))
    }

    /// [`NarrowFields::compare_from`] from the first column on. It compares integers itself, as
    /// most columns are, up to the first other value.
    #[inline(always)]
    fn compare(self, mut order: Order, row: &Row) -> Option<(Ordering, NarrowFields<'a>)>
        ensures prefix { IfSome result
            (λ found. found.0 ≡ prefix_cmp order (values_of self.entry.types.now self.entry.body.now) row.now) }
        ensures entry { IfSome result
            (λ found. (found.0 ≢ Ordering.Equal) ⊎ (values_of found.1.types.now found.1.body.now ≡ [])
            → found.0 ≡ entry_cmp order (values_of self.entry.types.now self.entry.body.now) row.now) }
    {
        let mut fields = self;
        for at in 0..row.len() {
            let ValueRef::Int(n) = row.get(at) else {
                return fields.compare_from(order, row, at);
            };
            match fields.compare_int(order, n)? {
                (Ordering::Equal, behind) => fields = behind,
                found => return Some(found),
            }
            order = order.later();
        }
        Some((Ordering::Equal, fields))
    }
}

/// Returns the first field of a narrow entry, if it is an integer.
#[inline(always)]
pub(crate) fn first_int(entry: &[u8]) -> Option<i64>
    ensures { IfSome result (λ n. rowid (decode entry.now) ≡ Int n) }
{
    let (n, _) = NarrowFields::new(entry)?.split_int()?;
    Some(n)
}

/// Returns how a narrow entry compares with a key, if each field is read.
#[inline(always)]
fn narrow_with_key(order: Order, entry: &[u8], key: &Row) -> Option<Ordering>
    ensures { IfSome result (λ found. found ≡ prefix_cmp order (decode entry.now) key.now) }
{
    let (found, _) = NarrowFields::new(entry)?.compare(order, key)?;
    Some(found)
}

/// Returns how a narrow entry compares with a row, if each field is read and the entry has no more.
#[inline(always)]
fn narrow_with_row(order: Order, entry: &[u8], row: &Row) -> Option<Ordering>
    ensures { IfSome result (λ found. found ≡ entry_cmp order (decode entry.now) row.now) }
{
    match NarrowFields::new(entry)?.compare(order, row)? {
        (Ordering::Equal, behind) if !behind.types.is_empty() => None,
        (found, _) => Some(found),
    }
}

/// [`compare::with_key`], reading in place what it can.
#[inline(never)]
pub(crate) fn with_key(order: Order, entry: &[u8], key: &Row) -> Ordering
    ensures { result ≡ prefix_cmp order (decode entry.now) key.now }
{
    match narrow_with_key(order, entry, key) {
        Some(found) => found,
        None => compare::with_key(order, entry, key),
    }
}

/// [`compare::with_row`], reading in place what it can.
#[inline(never)]
pub(crate) fn with_row(order: Order, entry: &[u8], row: &Row) -> Ordering
    ensures { result ≡ entry_cmp order (decode entry.now) row.now }
{
    match narrow_with_row(order, entry, row) {
        Some(found) => found,
        None => compare::with_row(order, entry, row),
    }
}

/// Appends the fields of a narrow entry to a row. Returns whether each was read.
pub(crate) fn push_fields(entry: &[u8], row: &mut Row) -> Result<bool, AllocError>
    ensures { IfOk result (λ is_whole. IsTrue is_whole → row.new ≡ row.old ++ decode entry.now) }
{
    let Some(mut fields) = NarrowFields::new(entry) else {
        return Ok(false);
    };
    while let Some((value, behind)) = fields.split_first() {
        row.push(value)?;
        fields = behind;
    }
    Ok(fields.types.is_empty())
}
