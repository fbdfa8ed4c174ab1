ghost use Rattle.std.specs.Prelude.{◌≡◌, ◌&&◌, if◌then◌else◌, None, Some, int_le, is_some, pos, unsigned_abs};
ghost use Rattle.escrow_schema.specs.Column.{is_size, number_type, scale_of};

use escrow_num::{Amount, Name, Scale, Text, Value};
use escrow_statement::{Literal, TypeText};

/// The type of a column: the set of values that it can hold.
#[derive(Clone, Copy, Debug, PartialEq, Eq)]
pub enum ColumnType {
    /// Numbers of at most `digits` digits in all, from 1 to [`ColumnType::MAX_DIGITS`]. `scale` of
    /// them are after the point, and there are no more of these than digits in all. The numbers are
    /// whole units of 10^-scale.
    Number { digits: u8, scale: Scale },
    /// Texts in UTF-8 of 1 to this many bytes. The maximum is from 1 to [`ColumnType::MAX_BYTES`].
    Varchar2 { bytes: u8 },
}

impl ColumnType {
    ghost use Rattle.escrow_num.specs.Amount.{IsAmount};
    ghost use Rattle.escrow_num.specs.declared.value.Value.TheVariants as value;
    ghost use Rattle.escrow_schema.specs.Column.{fits, is_numeric, type_of, top_of, value_in};
    ghost use Rattle.escrow_schema.specs.Typed.{IsType};

    /// The most digits of a number. A type that names no digits has as many.
    pub const MAX_DIGITS: u8 = 15;

    /// The most bytes of a text.
    pub const MAX_BYTES: u8 = 255;

    /// Returns the type that a text writes. `NUMBER(p)` has scale 0, and `NUMBER` and `INTEGER` are
    /// `NUMBER(15)`.
    ///
    /// Returns `None` if `NUMBER(p,s)` has a p outside 1 to 15, or an s outside 0 to 6 or above p.
    /// Returns `None` if `VARCHAR2(n)` has an n outside 1 to 255.
    pub fn from_text(text: &TypeText) -> Option<Self>
        ensures { result ≡ type_of text.now }
    {
        match *text {
            TypeText::Integer | TypeText::Number(None) => Some(ColumnType::Number {
                digits: Self::MAX_DIGITS,
                scale: Scale::ZERO,
            }),
            TypeText::Number(Some(size)) => {
                number_type(size.digits, size.scale.unwrap_or(Amount::ZERO))
            }
            TypeText::Varchar2(bytes) => Some(ColumnType::Varchar2 {
                bytes: size_up_to(bytes, Self::MAX_BYTES)?,
            }),
        }
    }

    /// Returns whether it is a type of numbers.
    pub(crate) fn is_numeric(&self) -> bool
        ensures { result ≡ is_numeric self.now }
    {
        match self {
            ColumnType::Number { .. } => true,
            ColumnType::Varchar2 { .. } => false,
        }
    }

    /// Returns the scale of a type of numbers, which are whole units of 10^-scale. A type of texts
    /// has scale 0.
    pub fn scale(&self) -> Scale
        ensures { result ≡ scale_of self.now }
    {
        match *self {
            ColumnType::Number { scale, .. } => scale,
            ColumnType::Varchar2 { .. } => Scale::ZERO,
        }
    }

    #[tactic(auto, using(crate::proofs::ColumnLemmas::power_positive, crate::proofs::ColumnLemmas::power_within))]
    /// Returns the greatest number of a type of numbers, in units of its scale. The least number is
    /// as far below zero. A type of texts has 0.
    pub(crate) fn top(&self) -> i64
        requires { IsType self.now }
        ensures value { result ≡ top_of self.now }
        ensures within { IsAmount result }
    {
        match *self {
            ColumnType::Number { digits, .. } => (10u64.pow(u32::from(digits)) - 1) as i64,
            ColumnType::Varchar2 { .. } => 0,
        }
    }

    /// Returns whether a literal fits the type. A number fits if it is a whole number of the type's
    /// units, from its least to its greatest. A text fits if it has 1 byte to as many as the type
    /// holds.
    pub(crate) fn fits(&self, literal: &Literal) -> bool
        requires { IsType self.now }
        ensures { result ≡ is_some (value_in self.now literal.now) }
    {
        match literal {
            Literal::Number(number) => match number.at_scale(self.scale().get()) {
                Some(units) => self.holds_number(units),
                None => false,
            },
            Literal::Text(text) => self.holds_text(text),
        }
    }

    /// Returns whether a value fits the type. A number of units fits from the type's least to its
    /// greatest. A text fits if it has 1 byte to as many as the type holds.
    pub(crate) fn holds(&self, value: &Value) -> bool
        requires { IsType self.now }
        ensures { result ≡ fits self.now value.now }
    {
        match value {
            Value::Number(number) => self.holds_number(*number),
            Value::Text(text) => self.holds_text(text),
        }
    }

    /// Returns whether a number of units fits the type.
    fn holds_number(&self, number: Amount) -> bool
        requires { IsType self.now }
        ensures { result ≡ fits self.now (value.Number number) }
    {
        match self {
            ColumnType::Number { .. } => {
                let top = self.top();
                -top <= number.get() && number.get() <= top
            }
            ColumnType::Varchar2 { .. } => false,
        }
    }

    /// Returns whether a text fits the type.
    fn holds_text(&self, text: &Text) -> bool
        ensures { result ≡ fits self.now (value.Text text.now) }
    {
        match self {
            ColumnType::Number { .. } => false,
            ColumnType::Varchar2 { bytes } => {
                let length = text.as_str().len();
                1 <= length && length <= usize::from(*bytes)
            }
        }
    }
}

/// Returns the type of numbers with this many digits in all and this many after the point, or
/// `None` if no type has this precision and scale.
fn number_type(digits: Amount, scale: Amount) -> Option<ColumnType>
    ensures { result ≡ number_type digits scale }
{
    if !is_size(digits.get(), scale.get()) {
        return None;
    }
    Some(ColumnType::Number {
        digits: digits.get() as u8,
        scale: Scale::new(scale.get() as u8)?,
    })
}

/// Returns whether two numbers are a precision, from 1 to 15, and a scale, from 0 to 6 and not
/// above the precision.
fn is_size(digits: i64, scale: i64) -> bool
    ensures { result ≡ is_size digits scale }
{
    1 <= digits
        && digits <= i64::from(ColumnType::MAX_DIGITS)
        && 0 <= scale
        && scale <= i64::from(Scale::MAX)
        && scale <= digits
}

/// Returns the size that is written, if it is from 1 to the most.
fn size_up_to(size: Amount, most: u8) -> Option<u8>
    ensures { result ≡ (if int_le (pos 1) size && int_le size (pos most) then Some (unsigned_abs size) else None) }
{
    if 1 <= size.get() && size.get() <= i64::from(most) {
        Some(size.get() as u8)
    } else {
        None
    }
}

/// A column of a table.
#[derive(Clone, Copy, Debug, PartialEq, Eq)]
pub struct Column {
    /// The column's name.
    pub name: Name,
    /// Its type.
    pub kind: ColumnType,
    /// Whether UPDATEs reserve changes of it. If not, they write it.
    pub reservable: bool,
}

impl Column {
    ghost use Rattle.escrow_schema.specs.Column.{scale_of};

    /// Returns the scale of its type. Its numbers are whole units of 10^-scale. A column of texts
    /// has scale 0.
    pub fn scale(&self) -> Scale
        ensures { result ≡ scale_of self.now.kind }
    {
        self.kind.scale()
    }
}
