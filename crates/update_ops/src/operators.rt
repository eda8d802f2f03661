//! The operators of changes, and their operands.

ghost use Rattle.std.specs.Prelude.{◌≡◌, option_map};
ghost use Rattle.bson_values.specs.View.{datum_of};
ghost use Rattle.query_model.specs.Changes.{edit_operators, has_operator, inc_edit, inc_operator, read_edit};
ghost use Rattle.query_model.specs.Paths.{as_document, begins_with_dollar};
ghost use Rattle.query_model.specs.Queries.{named};
ghost use Rattle.field_paths.specs.ReadFaults.{Gives};
ghost use Rattle.update_ops.specs.View.{edit_of, number_datum, operator_of};

use crate::change::{Edit, Number};
use bson_values::{Document, Value};
use field_paths::ParseFault;

/// An operator of a change.
#[derive(Clone, Copy)]
pub enum Operator {
    Set,
    Unset,
    Inc,
    Min,
    Max,
}

/// Returns the operator of that name, if there is one.
pub fn operator_named(name: &str) -> Option<Operator>
    ensures { option_map operator_of result ≡ named edit_operators name.now }
{
    if "$set" == name {
        Some(Operator::Set)
    } else if "$unset" == name {
        Some(Operator::Unset)
    } else if "$inc" == name {
        Some(Operator::Inc)
    } else if "$min" == name {
        Some(Operator::Min)
    } else if "$max" == name {
        Some(Operator::Max)
    } else {
        None
    }
}

/// Returns the document that a value is, if it is one.
pub fn as_document(value: &Value) -> Option<&Document>
    ensures { option_map (λ d. d.now) result ≡ as_document (datum_of value.now) }
{
    match value {
        Value::Doc(document) => Some(document),
        _ => None,
    }
}

// Returns the number that a value is, if it is one.
fn parse_number(value: &Value) -> Result<Number, ParseFault>
    ensures gives { Gives (λ n. inc_edit (number_datum n)) result (read_edit inc_operator (datum_of value.now)) }
{
    match value {
        Value::Int32(n) => Ok(Number::Int32(n.content)),
        Value::Int64(n) => Ok(Number::Int64(*n)),
        _ => Err(ParseFault::BadOperand),
    }
}

/// Returns the edit of an operator with its operand. Returns `BadOperand` where it takes no such operand, and `Memory` if memory runs out.
pub fn parse_edit(operator: Operator, value: &Value) -> Result<Edit, ParseFault>
    ensures gives { Gives edit_of result (read_edit (operator_of operator) (datum_of value.now)) }
{
    match operator {
        Operator::Set => Ok(Edit::Set(value.copy()?)),
        Operator::Unset => Ok(Edit::Unset),
        Operator::Inc => Ok(Edit::Inc(parse_number(value)?)),
        Operator::Min => Ok(Edit::Min(value.copy()?)),
        Operator::Max => Ok(Edit::Max(value.copy()?)),
    }
}

/// Returns whether a name begins with `$`.
pub fn begins_with_dollar(name: &str) -> bool
    ensures { result ≡ begins_with_dollar name.now }
{
    match name.as_bytes().first() {
        Some(first) => *first == b'$',
        None => false,
    }
}

/// Returns whether an outermost name begins with `$`.
pub fn has_operator(document: &Document) -> bool
    ensures { result ≡ has_operator document.now }
{
    for field in document.fields() {
        if begins_with_dollar(field.name.as_str()) {
            return true;
        }
    }
    false
}
