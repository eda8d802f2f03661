//! The documents of statements, moved out of a request that is consumed.

ghost use Rattle.std.specs.Prelude.{◌≡◌, IfOk};
ghost use Rattle.std.specs.Option.{option_map};
ghost use Rattle.bson_model.specs.Tree.{get};
ghost use Rattle.bson_values.specs.View.{datum_of, fields_of, items_of};
ghost use Rattle.opmsg_frames.specs.Lists.{pairs_of};
ghost use Rattle.command_replies.specs.Kinds.{kind_view};
ghost use Rattle.command_model.specs.Writes as model;
ghost use Rattle.command_model.specs.Writes.{statement_form};
ghost use Rattle.command_fields.specs.FirstDocuments.{first_documents};

use crate::write_fields::statements_name;
use bson_values::{Document, Field, Memory, Value};
use command_replies::WriteKind;
use opmsg_frames::{Sequence, SequenceList};
use std::alloc::Global;

/// Returns the value of the first field of that name.
pub(crate) fn value_named(fields: Vec<Field>, name: &str) -> Option<Value>
    ensures { option_map datum_of result ≡ get name.now (fields_of fields.items) }
{
    for field in fields {
        if field.name.as_str() == name {
            return Some(field.value);
        }
    }
    None
}

// Returns the documents of an array, or none where a value is not a document.
fn documents_in(alloc: Global, values: Vec<Value>) -> Result<Option<Vec<Document>>, Memory>
    ensures { IfOk result (λ o. option_map (λ v. v.items) o ≡ model.documents_in (items_of values.items)) }
{
    let mut documents = Vec::new(alloc);
    for value in values {
        let Value::Doc(document) = value else {
            return Ok(None);
        };
        documents.push(document)?;
    }
    Ok(Some(documents))
}

// Returns the documents of statements from their field.
fn documents_of_value(alloc: Global, value: Value) -> Result<Option<Vec<Document>>, Memory>
    ensures { IfOk result (λ o. option_map (λ v. v.items) o ≡ model.documents_of_value (datum_of value)) }
{
    match value {
        Value::Array(array) => documents_in(alloc, array.into_values()),
        _ => Ok(None),
    }
}

// Returns the documents of the first sequence.
fn documents_of_first(sequences: Vec<Sequence>) -> Option<Vec<Document>>
    ensures { option_map (λ v. v.items) result ≡ first_documents (pairs_of sequences.items) }
{
    let mut all = sequences.into_iter();
    match all.next() {
        Some(first) => Some(first.documents.into_documents()),
        None => None,
    }
}

// Returns the documents of statements, from their field or from their sequence.
fn documents_asked(
    alloc: Global,
    kind: WriteKind,
    document: Document,
    sequences: SequenceList,
) -> Result<Option<Vec<Document>>, Memory>
    ensures { IfOk result (λ o. option_map (λ v. v.items) o ≡ model.documents_asked (statement_form (kind_view kind)) document sequences) }
{
    match value_named(document.into_fields(), statements_name(kind)) {
        Some(value) => documents_of_value(alloc, value),
        None => Ok(documents_of_first(sequences.into_sequences())),
    }
}

/// Returns the documents of a command's statements, moved out of its request, or none where it has none. Only the list of them is allocated. Returns `Memory`
/// if memory runs out.
pub fn documents_moved(
    alloc: Global,
    kind: WriteKind,
    document: Document,
    sequences: SequenceList,
) -> Result<Vec<Document>, Memory>
    ensures { IfOk result (λ v. v.items ≡ model.or_documents (model.documents_asked (statement_form (kind_view kind)) document sequences)) }
{
    match documents_asked(alloc, kind, document, sequences)? {
        Some(documents) => Ok(documents),
        None => Ok(Vec::new(alloc)),
    }
}
