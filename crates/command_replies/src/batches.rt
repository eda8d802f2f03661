//! The batches of cursors (MongoDB manual, "find", "aggregate", "getMore").

ghost use Rattle.std.specs.Prelude.{◌≡◌, IfOk, IsTrue, map};
ghost use Rattle.std.specs.Arc.{arc_value};
ghost use Rattle.bson_values.specs.Names.{has_no_zero};
ghost use Rattle.command_model.specs.AnswerParts.{document_items};
ghost use Rattle.command_model.specs.Cursors as model;
ghost use Rattle.command_replies.specs.Cursors.{batch_view};

use crate::answer::Batch;
use crate::parts::{add, add_end};
use bson_values::{Array, Document, Memory, Text, Value};
use std::alloc::Global;
use std::sync::Arc;

// Returns copies of the documents, as the values of an array.
fn document_array(alloc: Global, documents: &[Arc<Document, Global>]) -> Result<Array, Memory>
    ensures { IfOk result (λ a. a ≡ document_items (map arc_value documents.now)) }
{
    let mut items = Array::new(alloc);
    for document in documents {
        items.push(Value::Doc(document.copy()?))?;
    }
    Ok(items)
}

// Returns the cursor of a batch, which is shown under that name.
fn cursor_shown(alloc: Global, name: &str, batch: &Batch) -> Result<Document, Memory>
    requires { IsTrue (has_no_zero name.now) }
    ensures { IfOk result (λ d. d ≡ model.cursor_shown name.now (batch_view batch.now)) }
{
    let namespace = Text::of(alloc, batch.namespace.as_str())?;
    let documents = document_array(alloc, &batch.documents)?;
    let mut shown = Document::new(alloc);
    add(&mut shown, alloc, "id", Value::Int64(batch.cursor))?;
    add(&mut shown, alloc, "ns", Value::Text(namespace))?;
    add(&mut shown, alloc, name, Value::Array(documents))?;
    add(
        &mut shown,
        alloc,
        "atClusterTime",
        Value::Timestamp(batch.time.0),
    )?;
    Ok(shown)
}

/// Returns the answer with a batch, under its name, `firstBatch` or `nextBatch`. Returns `Memory` if memory runs out.
pub(crate) fn batch_document(alloc: Global, name: &str, batch: &Batch) -> Result<Document, Memory>
    requires { IsTrue (has_no_zero name.now) }
    ensures { IfOk result (λ d. d ≡ model.batch_document name.now (batch_view batch.now)) }
{
    let cursor = cursor_shown(alloc, name, batch)?;
    let mut answer = Document::new(alloc);
    add(&mut answer, alloc, "cursor", Value::Doc(cursor))?;
    add_end(&mut answer, alloc, batch.time)?;
    Ok(answer)
}
