//! The values at a path, as a list.

ghost use Rattle.std.specs.Prelude.{◌≡◌, ◌∷◌, ◌++◌, IfOk, OnOk};
ghost use Rattle.bson_values.specs.View.{datum_of};
ghost use Rattle.field_paths.specs.References.{seen};
ghost use Rattle.query_model.specs.Paths.{values_at, values_from};
ghost use Rattle.bson_model.specs.Tree.{array_value, document_value, item, no_items};

use crate::path::Path;
use bson_values::{Array, Document, Memory, Text, Value};
use std::alloc::Global;

/// Returns the values at the path, in order, or `Memory` if memory runs out.
pub fn values_at<'a>(
    alloc: Global,
    path: &Path,
    document: &'a Document,
) -> Result<Vec<&'a Value>, Memory>
    ensures { IfOk result (λ values. seen values.items ≡ values_at path.now document.now) }
{
    let mut values = Vec::new(alloc);
    let Some((part, others)) = path.parts().split_first() else {
        return Ok(values);
    };
    push_in_document(part, others, document, &mut values)?;
    Ok(values)
}

// Appends the values at the path, starting from a value.
#[cycle(push)]
fn push_from<'a>(
    parts: &[Text],
    value: &'a Value,
    values: &mut Vec<&'a Value>,
) -> Result<(), Memory>
    ensures { OnOk result (seen values.new.items ≡ seen values.old.items ++ values_from parts.now (datum_of value.now)) }
{
    let Some((part, others)) = parts.split_first() else {
        values.push(value)?;
        return Ok(());
    };
    match value {
        Value::Doc(document) => push_in_document(part, others, document, values),
        Value::Array(array) => push_in_array(part, others, array, values),
        _ => Ok(()),
    }
}

// The same from the first field of that name on.
#[cycle(push)]
fn push_in_document<'a>(
    part: &Text,
    others: &[Text],
    document: &'a Document,
    values: &mut Vec<&'a Value>,
) -> Result<(), Memory>
    ensures { OnOk result (seen values.new.items ≡ seen values.old.items ++ values_from (part.now ∷ others.now) (document_value document.now)) }
{
    match document.get(part.as_str()) {
        Some(value) => push_from(others, value, values),
        None => Ok(()),
    }
}

// The same for the documents in an array.
#[cycle(push)]
fn push_in_array<'a>(
    part: &Text,
    others: &[Text],
    array: &'a Array,
    values: &mut Vec<&'a Value>,
) -> Result<(), Memory>
    ensures { OnOk result (seen values.new.items ≡ seen values.old.items ++ values_from (part.now ∷ others.now) (array_value array.now)) }
{
    for value in array.values() {
        push_element(part, others, value, values)?;
    }
    Ok(())
}

// The same for an element, if it is a document.
#[cycle(push)]
fn push_element<'a>(
    part: &Text,
    others: &[Text],
    value: &'a Value,
    values: &mut Vec<&'a Value>,
) -> Result<(), Memory>
    ensures { OnOk result (seen values.new.items ≡ seen values.old.items
        ++ values_from (part.now ∷ others.now) (array_value (item (datum_of value.now) no_items))) }
{
    match value {
        Value::Doc(document) => push_in_document(part, others, document, values),
        _ => Ok(()),
    }
}
