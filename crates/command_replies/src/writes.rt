//! The answers to writes (MongoDB manual, "insert", "update", "delete").

ghost use Rattle.std.specs.Prelude.{◌≡◌, IfOk, OnOk, codes};
ghost use Rattle.std.specs.Arc.{arc_value};
ghost use Rattle.bson_model.specs.Tree.{field, joined, no_fields};
ghost use Rattle.bson_values.specs.View.{datum_of};
ghost use Rattle.command_model.specs.Writes as model;
ghost use Rattle.base_model.specs.ReplyParts as replies;
ghost use Rattle.command_model.specs.AnswerParts as shown;
ghost use Rattle.command_replies.specs.Errors.{errors_view};
ghost use Rattle.command_replies.specs.Kinds.{kind_view};
ghost use Rattle.command_replies.specs.Refusals.{refusal_view};
ghost use Rattle.command_replies.specs.Upserts.{changes_alone, upserted_view};

use crate::answer::{Upserted, WriteError, WriteKind};
use crate::evidence::add_evidence;
use crate::parts::{add, add_end, add_number, add_text, count_shown};
use bson_values::{Array, Document, Memory, Value};
use cluster_base::Time;
use std::alloc::Global;

// Returns the document of one write error.
fn write_error(alloc: Global, error: &WriteError) -> Result<Document, Memory>
    ensures { IfOk result (λ d. d ≡ replies.write_error error.now.index (refusal_view error.now.refusal)) }
{
    let code = error.refusal.code;
    let mut document = Document::new(alloc);
    add_number(&mut document, alloc, "index", error.index.number() as i32)?;
    add_number(&mut document, alloc, "code", code.number())?;
    add_text(&mut document, alloc, "errmsg", code.name())?;
    add_evidence(&mut document, alloc, &error.refusal.evidence)?;
    Ok(document)
}

// Returns the documents of all write errors.
fn write_errors(alloc: Global, errors: &[WriteError]) -> Result<Array, Memory>
    ensures { IfOk result (λ a. a ≡ model.write_error_items (errors_view errors.now)) }
{
    let mut items = Array::new(alloc);
    for error in errors {
        items.push(Value::Doc(write_error(alloc, error)?))?;
    }
    Ok(items)
}

// Returns the document of one upserted key.
fn upserted_key(alloc: Global, upserted: &Upserted) -> Result<Document, Memory>
    ensures { IfOk result (λ d. d ≡ field (codes "index") (shown.number upserted.now.index) (field (codes "_id") (arc_value upserted.now.key) no_fields)) }
{
    let mut document = Document::new(alloc);
    add_number(
        &mut document,
        alloc,
        "index",
        upserted.index.number() as i32,
    )?;
    add(&mut document, alloc, "_id", upserted.key.value().copy()?)?;
    Ok(document)
}

// Returns the documents of all upserted keys.
fn upserted_keys(alloc: Global, upserted: &[Upserted]) -> Result<Array, Memory>
    ensures { IfOk result (λ a. a ≡ model.upserted_items (upserted_view upserted.now)) }
{
    let mut items = Array::new(alloc);
    for key in upserted {
        items.push(Value::Doc(upserted_key(alloc, key)?))?;
    }
    Ok(items)
}

// Appends the errors, if there are any. Returns `Memory` if memory runs out.
fn add_errors(answer: &mut Document, alloc: Global, errors: &[WriteError]) -> Result<(), Memory>
    ensures { OnOk result (answer.new ≡ joined answer.old (model.write_errors_shown (errors_view errors.now) no_fields)) }
{
    if errors.is_empty() {
        return Ok(());
    }
    let errors = write_errors(alloc, errors)?;
    add(answer, alloc, "writeErrors", Value::Array(errors))
}

// Appends the upserted keys, if there are any. Returns `Memory` if memory runs out.
fn add_upserted(answer: &mut Document, alloc: Global, upserted: &[Upserted]) -> Result<(), Memory>
    ensures { OnOk result (answer.new ≡ joined answer.old (model.upserted_shown (upserted_view upserted.now) no_fields)) }
{
    if upserted.is_empty() {
        return Ok(());
    }
    let upserted = upserted_keys(alloc, upserted)?;
    add(answer, alloc, "upserted", Value::Array(upserted))
}

// Appends the fields after the count: only for an update. Returns `Memory` if memory runs out.
fn add_changes(
    answer: &mut Document,
    alloc: Global,
    kind: WriteKind,
    modified: u32,
    upserted: &[Upserted],
) -> Result<(), Memory>
    ensures { OnOk result (answer.new
        ≡ joined answer.old (model.changes_shown (kind_view kind) (changes_alone modified (upserted_view upserted.now)) no_fields)) }
{
    match kind {
        WriteKind::Insert => Ok(()),
        WriteKind::Update => {
            add(answer, alloc, "nModified", count_shown(u64::from(modified)))?;
            add_upserted(answer, alloc, upserted)
        }
        WriteKind::Delete => Ok(()),
    }
}

/// Returns the answer to a write: how many documents were inserted, matched or deleted, for an update how many were changed and the upserted keys, the
/// errors, and the operation's time. Returns `Memory` if memory runs out.
pub(crate) fn write_document(
    alloc: Global,
    kind: WriteKind,
    count: u32,
    modified: u32,
    upserted: &[Upserted],
    errors: &[WriteError],
    time: Time,
) -> Result<Document, Memory>
    ensures { IfOk result (λ d. d ≡ model.write_document (kind_view kind) (record {
      count = count;
      modified = modified;
      upserted = upserted_view upserted.now;
      errors = errors_view errors.now;
      time = time.0;
    })) }
{
    let mut answer = Document::new(alloc);
    add(&mut answer, alloc, "n", count_shown(u64::from(count)))?;
    add_changes(&mut answer, alloc, kind, modified, upserted)?;
    add_errors(&mut answer, alloc, errors)?;
    add_end(&mut answer, alloc, time)?;
    Ok(answer)
}
