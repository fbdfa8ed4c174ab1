ghost use Rattle.std.specs.Prelude.{◌≡◌, ◌≢◌, None, Ok, IfSome, IfOk};
ghost use Rattle.sqlite_value.specs.Value.{owned};
ghost use Rattle.escrow_cells.specs.Step.{kept};
ghost use Rattle.escrow_rows.specs.Image.{stored, CanBeHeld};
ghost use Rattle.escrow_num.specs.declared.value.Value.{Value as HeldValue};

use escrow_cells::Datum;
use escrow_num::{Amount, Failure, Text, Value};
use sqlite_value::value::ValueRef;
use std::alloc::{AllocError, Global};

/// Returns a value as a cell holds it.
pub(crate) fn datum(value: &Value) -> Datum<'_>
    ensures { kept result ≡ stored value.now }
{
    match value {
        Value::Number(amount) => Datum::Number(amount.get()),
        Value::Text(text) => Datum::Text(text.as_str()),
    }
}

/// Returns the value that a cell holds, or `None` if no column can hold it: a number past the limit
/// of amounts, a text that isn't UTF-8, or something that is neither.
pub(crate) fn read_value(alloc: Global, value: ValueRef<'_>) -> Result<Option<Value>, AllocError>
    ensures some { IfOk result (λ found. IfSome found (λ v. stored v ≡ owned value.entry)) }
    ensures held { IfOk result (λ found. IfSome found CanBeHeld) }
    ensures none { result ≡ Ok None → (v : HeldValue) → CanBeHeld v → stored v ≢ owned value.entry }
{
    match value {
        ValueRef::Int(number) => Ok(Amount::new(number).map(Value::Number)),
        ValueRef::Text(bytes) => match std::str::from_utf8(bytes) {
            Ok(text) => Ok(Some(Value::Text(Text::from_string(String::from_str(alloc, text)?)))),
            Err(_) => Ok(None),
        },
        _ => Ok(None),
    }
}

/// Returns the value that a cell holds. Fails if no column can hold it.
pub(crate) fn held(alloc: Global, value: ValueRef<'_>) -> Result<Value, Failure>
    ensures { IfOk result (λ v. stored v ≡ owned value.entry) }
{
    match read_value(alloc, value)? {
        Some(value) => Ok(value),
        None => Err(Failure::Store),
    }
}
