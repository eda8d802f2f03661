//! The documents of statements, copied from a request that is kept.

ghost use Rattle.std.specs.Prelude.{◌≡◌, IfOk};
ghost use Rattle.std.specs.Option.{option_map};
ghost use Rattle.bson_values.specs.View.{datum_of, items_of};
ghost use Rattle.command_replies.specs.Kinds.{kind_view};
ghost use Rattle.command_model.specs.Writes as model;
ghost use Rattle.command_model.specs.Writes.{statement_form};
ghost use Rattle.opmsg_frames.specs.Lists.{pairs_of};

use crate::write_fields::statements_name;
use bson_values::{Document, Memory, Value};
use command_replies::WriteKind;
use opmsg_frames::Sequence;
use std::alloc::Global;

// Returns copies of the documents of an array, or none where a value is not a document.
fn documents_in(alloc: Global, values: &[Value]) -> Result<Option<Vec<Document>>, Memory>
    ensures { IfOk result (λ o. option_map (λ v. v.items) o ≡ model.documents_in (items_of values.now)) }
{
    let mut documents = Vec::new(alloc);
    for value in values {
        let Value::Doc(document) = value else {
            return Ok(None);
        };
        documents.push(document.copy()?)?;
    }
    Ok(Some(documents))
}

// Returns copies of documents.
fn copies_of(alloc: Global, documents: &[Document]) -> Result<Vec<Document>, Memory>
    ensures { IfOk result (λ v. v.items ≡ documents.now) }
{
    let mut copies = Vec::new(alloc);
    for document in documents {
        copies.push(document.copy()?)?;
    }
    Ok(copies)
}

// Returns the documents of statements from their field.
fn documents_of_value(alloc: Global, value: &Value) -> Result<Option<Vec<Document>>, Memory>
    ensures { IfOk result (λ o. option_map (λ v. v.items) o ≡ model.documents_of_value (datum_of value.now)) }
{
    match value {
        Value::Array(array) => documents_in(alloc, array.values()),
        _ => Ok(None),
    }
}

// Returns the documents of statements, from their field or from their sequence.
fn documents_asked(
    alloc: Global,
    kind: WriteKind,
    document: &Document,
    sequences: &[Sequence],
) -> Result<Option<Vec<Document>>, Memory>
    ensures { IfOk result (λ o. option_map (λ v. v.items) o ≡ model.documents_asked (statement_form (kind_view kind)) document.now (pairs_of sequences.now)) }
{
    match document.get(statements_name(kind)) {
        Some(value) => documents_of_value(alloc, value),
        None => match sequences {
            [] => Ok(None),
            [first, ..] => {
                let documents = copies_of(alloc, first.documents.as_slice())?;
                Ok(Some(documents))
            }
        },
    }
}

/// Returns copies of the documents of a command's statements, from their field or else from its first sequence, or none where it has none. Returns `Memory`
/// if memory runs out.
pub fn documents_or_none(
    alloc: Global,
    kind: WriteKind,
    document: &Document,
    sequences: &[Sequence],
) -> Result<Vec<Document>, Memory>
    ensures { IfOk result (λ v. v.items ≡ model.or_documents (model.documents_asked (statement_form (kind_view kind)) document.now (pairs_of sequences.now))) }
{
    match documents_asked(alloc, kind, document, sequences)? {
        Some(documents) => Ok(documents),
        None => Ok(Vec::new(alloc)),
    }
}
