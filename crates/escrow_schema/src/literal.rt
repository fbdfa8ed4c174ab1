//! Literals as values.
ghost use Rattle.std.specs.Prelude.{◌≡◌, ◌↔◌, false, IfErr, IfOk, IsSome, IsTrue, Some};
ghost use Rattle.escrow_schema.specs.Column.{is_number, value_at, truncated_value};

use escrow_num::{Scale, Value};
use escrow_statement::Literal;
use std::alloc::{AllocError, Global};

/// Returns whether a value is that of a literal at a scale. Takes no memory.
pub fn is_value(scale: Scale, literal: &Literal, value: &Value) -> bool
    ensures { IsTrue result ↔ (value_at scale literal.now ≡ Some value.now) }
{
    match (literal, value) {
        (Literal::Number(a), Value::Number(b)) => a.at_scale(scale.get()) == Some(*b),
        (Literal::Text(a), Value::Text(b)) => *a == *b,
        _ => false,
    }
}

/// Returns the value of a literal at a scale, which is 0 to 6. A number's value is in units of
/// 10^-scale. Returns `None` if the number isn't a whole number of units, or if they are no amount;
/// nothing is rounded. Only a text takes memory.
pub fn value_at(alloc: Global, scale: Scale, literal: &Literal) -> Result<Option<Value>, AllocError>
    ensures { IfOk result (λ v. v ≡ value_at scale literal.now) }
{
    match literal {
        Literal::Number(number) => match number.at_scale(scale.get()) {
            Some(units) => Ok(Some(Value::Number(units))),
            None => Ok(None),
        },
        Literal::Text(text) => Ok(Some(Value::Text(text.copy(alloc)?))),
    }
}

/// Returns the value of a literal that has no more digits than the scale. A literal that fits a
/// column is so at the column's scale, so nothing is cut off. Only a text takes memory.
pub fn truncated_value(alloc: Global, scale: Scale, literal: &Literal) -> Result<Value, AllocError>
    requires { IsSome (value_at scale literal.now) }
    ensures value { IfOk result (λ v. v ≡ truncated_value scale literal.now) }
    ensures text { IfErr result (λ _. is_number (truncated_value scale literal.now) ≡ false) }
{
    match literal {
        Literal::Number(number) => match number.at_scale(scale.get()) {
            Some(units) => Ok(Value::Number(units)),
            None => unreachable!(),
        },
        Literal::Text(text) => Ok(Value::Text(text.copy(alloc)?)),
    }
}
