//! Whether a value at a path meets a visitor, and whether there is a gap. Nothing here allocates memory.

ghost use Rattle.std.specs.Prelude.{◌≡◌, ◌∷◌, Bool};
ghost use Rattle.std.specs.List.{list_any};
ghost use Rattle.bson_values.specs.View.{datum_of};
ghost use Rattle.query_model.specs.Paths.{gap_from, has_gap, values_at, values_from};
ghost use Rattle.bson_model.specs.Tree.{Datum, array_value, document_value};

use crate::path::Path;
use bson_values::{Array, Document, Text, Value};

/// A condition on values at a path.
pub trait Visitor {
    ghost accepts: { Self → Datum → Bool };

    /// Returns whether this value meets it.
    fn meets(&self, value: &Value) -> bool
        ensures { result ≡ accepts self.now (datum_of value.now) };
}

/// Returns whether one of the values at the path meets the visitor.
pub fn any_at<V: Visitor>(path: &Path, document: &Document, visitor: &V) -> bool
    ensures { result ≡ list_any (V.accepts visitor.now) (values_at path.now document.now) }
{
    match path.parts().split_first() {
        Some((part, others)) => any_in_document(part, others, document, visitor),
        None => false,
    }
}

// Returns whether one of the values at the path, starting from a value, meets the visitor.
#[cycle(any)]
fn any_from<V: Visitor>(parts: &[Text], value: &Value, visitor: &V) -> bool
    ensures { result ≡ list_any (V.accepts visitor.now) (values_from parts.now (datum_of value.now)) }
{
    let Some((part, others)) = parts.split_first() else {
        return visitor.meets(value);
    };
    match value {
        Value::Doc(document) => any_in_document(part, others, document, visitor),
        Value::Array(array) => any_in_array(part, others, array, visitor),
        _ => false,
    }
}

// The same from the first field of that name on.
#[cycle(any)]
fn any_in_document<V: Visitor>(
    part: &Text,
    others: &[Text],
    document: &Document,
    visitor: &V,
) -> bool
    ensures { result ≡ list_any (V.accepts visitor.now) (values_from (part.now ∷ others.now) (document_value document.now)) }
{
    match document.get(part.as_str()) {
        Some(value) => any_from(others, value, visitor),
        None => false,
    }
}

// The same for the documents in an array.
#[cycle(any)]
fn any_in_array<V: Visitor>(part: &Text, others: &[Text], array: &Array, visitor: &V) -> bool
    ensures { result ≡ list_any (V.accepts visitor.now) (values_from (part.now ∷ others.now) (array_value array.now)) }
{
    for value in array.values() {
        if let Value::Doc(document) = value {
            if any_in_document(part, others, document, visitor) {
                return true;
            }
        }
    }
    false
}

/// Returns whether there is a gap at the path: a document on the path has no field of the next name, or a value on the path is neither a document nor an
/// array.
pub fn gap_at(path: &Path, document: &Document) -> bool
    ensures { result ≡ has_gap path.now document.now }
{
    match path.parts().split_first() {
        Some((part, others)) => gap_in_document(part, others, document),
        None => false,
    }
}

// Returns whether there is a gap, starting from a value.
#[cycle(gap)]
fn gap_from(parts: &[Text], value: &Value) -> bool
    ensures { result ≡ gap_from parts.now (datum_of value.now) }
{
    let Some((part, others)) = parts.split_first() else {
        return false;
    };
    match value {
        Value::Doc(document) => gap_in_document(part, others, document),
        Value::Array(array) => gap_in_array(part, others, array),
        _ => true,
    }
}

// The same from the first field of that name on.
#[cycle(gap)]
fn gap_in_document(part: &Text, others: &[Text], document: &Document) -> bool
    ensures { result ≡ gap_from (part.now ∷ others.now) (document_value document.now) }
{
    match document.get(part.as_str()) {
        Some(value) => gap_from(others, value),
        None => true,
    }
}

// The same for the documents in an array.
#[cycle(gap)]
fn gap_in_array(part: &Text, others: &[Text], array: &Array) -> bool
    ensures { result ≡ gap_from (part.now ∷ others.now) (array_value array.now) }
{
    for value in array.values() {
        if let Value::Doc(document) = value {
            if gap_in_document(part, others, document) {
                return true;
            }
        }
    }
    false
}
