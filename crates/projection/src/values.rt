//! The value at a path, as an expression evaluates it (MongoDB manual, "Field Path").

ghost use Rattle.std.specs.Prelude.{◌≡◌, ◌∷◌, IfOk, OnOk, option_map};
ghost use Rattle.bson_model.specs.Tree.{Items, array_value, document_value, item, joined_items};
ghost use Rattle.bson_values.specs.View.{datum_of};
ghost use Rattle.pipeline_model.specs.Operands.{value_at, value_from};
ghost use Rattle.projection.specs.View.{values_in};

use bson_values::{Array, Document, Memory, Text, Value};
use field_paths::Path;
use std::alloc::Global;

/// Returns the value at the path in the document: through an array, the array of the values of those of its elements that are documents and have one. Returns
/// `Memory` if memory runs out.
pub fn value_at(alloc: Global, path: &Path, document: &Document) -> Result<Option<Value>, Memory>
    ensures { IfOk result (λ v. option_map datum_of v ≡ value_at path.now document.now) }
{
    match path.parts().split_first() {
        Some((part, others)) => value_in_document(alloc, part, others, document),
        None => Ok(None),
    }
}

// The value at the rest of a path.
#[cycle(value)]
fn value_from(alloc: Global, parts: &[Text], value: &Value) -> Result<Option<Value>, Memory>
    ensures { IfOk result (λ v. option_map datum_of v ≡ value_from parts.now (datum_of value.now)) }
{
    let Some((part, others)) = parts.split_first() else {
        return Ok(Some(value.copy()?));
    };
    match value {
        Value::Doc(document) => value_in_document(alloc, part, others, document),
        Value::Array(array) => {
            let found = values_in_array(alloc, part, others, array)?;
            Ok(Some(Value::Array(found)))
        }
        _ => Ok(None),
    }
}

// The same from the first field of that name on.
#[cycle(value)]
fn value_in_document(
    alloc: Global,
    part: &Text,
    others: &[Text],
    document: &Document,
) -> Result<Option<Value>, Memory>
    ensures { IfOk result (λ v. option_map datum_of v ≡ value_from (part.now ∷ others.now) (document_value document.now)) }
{
    match document.get(part.as_str()) {
        Some(value) => value_from(alloc, others, value),
        None => Ok(None),
    }
}

// The values that the documents in an array have.
#[cycle(value)]
fn values_in_array(
    alloc: Global,
    part: &Text,
    others: &[Text],
    array: &Array,
) -> Result<Array, Memory>
    ensures { IfOk result (λ found. found ≡ values_in (part.now ∷ others.now) array.now) }
{
    let mut found = Array::new(alloc);
    for value in array.values() {
        push_element(alloc, part, others, value, &mut found)?;
    }
    Ok(found)
}

// Appends the value of an element, if it is a document and has one.
#[cycle(value)]
#[tactic(auto, using(bson_model::proofs::Joined::joined_items_one))]
fn push_element(
    alloc: Global,
    part: &Text,
    others: &[Text],
    value: &Value,
    found: &mut Array,
) -> Result<(), Memory>
    ensures { OnOk result ((ds : Items) → joined_items found.new (values_in (part.now ∷ others.now) ds)
        ≡ joined_items found.old (values_in (part.now ∷ others.now) (item (datum_of value.now) ds))) }
{
    let Value::Doc(document) = value else {
        return Ok(());
    };
    let Some(inner) = value_in_document(alloc, part, others, document)? else {
        return Ok(());
    };
    found.push(inner)
}
