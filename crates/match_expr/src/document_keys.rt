//! The key that a document targets, before it is read as a filter (MongoDB manual, "Targeted Operations vs. Broadcast Operations").

ghost use Rattle.std.specs.Prelude.{◌≡◌, option_map};
ghost use Rattle.bson_values.specs.Tree as tree;
ghost use Rattle.bson_values.specs.View.{datum_of};
ghost use Rattle.query_model.specs.DocumentKeys.{key_asked_in, value_asked};

use crate::operators::is_operator_document;
use bson_values::{Document, Field, Value};

// Returns the value that a field must equal by its operand.
fn value_asked(value: &Value) -> Option<&Value>
    ensures { option_map (λ v. datum_of v.now) result ≡ value_asked (datum_of value.now) }
{
    match value {
        Value::Doc(document) => {
            if is_operator_document(document) {
                document.get("$eq")
            } else {
                Some(value)
            }
        }
        _ => Some(value),
    }
}

// Returns the value that `_id` must equal by one field.
fn asked_by(field: &Field) -> Option<&Value>
    ensures { option_map (λ v. datum_of v.now) result ≡ key_asked_in (tree.field field.now.name (datum_of field.now.value) tree.no_fields) }
{
    if field.name.as_str() == "_id" {
        value_asked(&field.value)
    } else {
        None
    }
}

/// Returns the operand of the first equality on `_id` among the fields of a document: a plain value, or the first `$eq` of an operator
/// document. The document need be no filter; of one that is, this is the key that the filter targets. Takes no memory.
pub fn key_asked_in(document: &Document) -> Option<&Value>
    ensures { option_map (λ v. datum_of v.now) result ≡ key_asked_in document.now }
{
    for field in document.fields() {
        if let Some(operand) = asked_by(field) {
            return Some(operand);
        }
    }
    None
}
