//! The result of a change of a document: edits one after the other, or a replacement. The key is checked at the path `_id`, the size last (MongoDB manual,
//! "Update Operators", "Replace a Document", "Document Field Order and the _id Field").

ghost use Rattle.std.specs.Prelude.{◌≡◌, IfOk, length, nat_lt};
ghost use Rattle.bson_model.specs.Limits.{most_bytes_kept, most_depth_kept};
ghost use Rattle.bson_model.specs.Spelling.{written};
ghost use Rattle.bson_model.specs.Tree.{document_depth};
ghost use Rattle.bson_values.specs.View.{datum_of};
ghost use Rattle.query_model.specs.Changes.{replacement, inc_edit, max_edit, min_edit, set_edit};
ghost use Rattle.query_model.specs.Edits.{changed, changed_by, edited, edited_at, edited_by, if_same_key, is_too_large, same_key, with_old_key};
ghost use Rattle.query_model.specs.KeySpans.{is_id};
ghost use Rattle.value_model.specs.Keys.{key_of};
ghost use Rattle.update_ops.specs.ApplyFaults.{Gives};
ghost use Rattle.update_ops.specs.View.{change_of, edit_of, edits_of, number_datum};

use crate::change::{Edit, Number, PathEdit, Update};
use crate::fault::ApplyFault;
use crate::fields::copy_fields;
use crate::numbers::{greater_of, lesser_of, sum_with};
use crate::puts::{put_at, take_at, value_at};
use bson_values::{Document, MOST_BYTES_KEPT, MOST_DEPTH_KEPT, Memory, Name, Value};
use std::alloc::Global;
use std::cmp::Ordering;
use value_compare::compare;

// Sets the path to a copy of the value.
fn set(
    alloc: Global,
    path: &[Name],
    value: &Value,
    document: &Document,
) -> Result<Document, ApplyFault>
    ensures gives { Gives (λ d. d) result (edited_at path.now (set_edit (datum_of value.now)) document.now) }
{
    put_at(alloc, path, value.copy()?, document)
}

// Adds the number to the value at the path.
fn increment(
    alloc: Global,
    path: &[Name],
    number: Number,
    document: &Document,
) -> Result<Document, ApplyFault>
    ensures gives { Gives (λ d. d) result (edited_at path.now (inc_edit (number_datum number)) document.now) }
{
    let sum = sum_with(number, value_at(path, document))?;
    put_at(alloc, path, sum, document)
}

// Sets the value at the path where it is less than the present one, or there is none.
fn put_lesser(
    alloc: Global,
    path: &[Name],
    value: &Value,
    document: &Document,
) -> Result<Document, ApplyFault>
    ensures gives { Gives (λ d. d) result (edited_at path.now (min_edit (datum_of value.now)) document.now) }
{
    let lesser = lesser_of(value, value_at(path, document))?;
    put_at(alloc, path, lesser, document)
}

// Sets the value at the path where it is greater than the present one, or there is none.
fn put_greater(
    alloc: Global,
    path: &[Name],
    value: &Value,
    document: &Document,
) -> Result<Document, ApplyFault>
    ensures gives { Gives (λ d. d) result (edited_at path.now (max_edit (datum_of value.now)) document.now) }
{
    let greater = greater_of(value, value_at(path, document))?;
    put_at(alloc, path, greater, document)
}

// Applies one edit, without checking the key.
fn edited_at(
    alloc: Global,
    path: &[Name],
    edit: &Edit,
    document: &Document,
) -> Result<Document, ApplyFault>
    ensures gives { Gives (λ d. d) result (edited_at path.now (edit_of edit.now) document.now) }
{
    match edit {
        Edit::Set(value) => set(alloc, path, value, document),
        Edit::Unset => Ok(take_at(alloc, path, document)?),
        Edit::Inc(number) => increment(alloc, path, *number, document),
        Edit::Min(value) => put_lesser(alloc, path, value, document),
        Edit::Max(value) => put_greater(alloc, path, value, document),
    }
}

// Returns whether both documents have keys, which compare equal.
fn same_key(a: &Document, b: &Document) -> bool
    ensures { result ≡ same_key (key_of a.now) (key_of b.now) }
{
    let Some(key) = a.get("_id") else {
        return false;
    };
    match b.get("_id") {
        Some(other) => compare(key, other) == Ordering::Equal,
        None => false,
    }
}

// Returns the document after the change, where it has the key that it had before.
fn if_same_key(before: &Document, after: Document) -> Result<Document, ApplyFault>
    ensures gives { Gives (λ d. d) result (if_same_key before.now after) }
{
    if same_key(&after, before) {
        Ok(after)
    } else {
        Err(ApplyFault::Immutable)
    }
}

// Returns whether a path is `_id`.
fn is_id(path: &[Name]) -> bool
    ensures { result ≡ is_id path.now }
{
    match path.split_first() {
        Some((name, others)) => others.is_empty() && name.as_str() == "_id",
        None => false,
    }
}

// Applies one edit; the key is checked at the path `_id`.
fn edited(alloc: Global, edit: &PathEdit, document: &Document) -> Result<Document, ApplyFault>
    ensures gives { Gives (λ d. d) result (edited edit.now.path.items (edit_of edit.now.edit) document.now) }
{
    let after = edited_at(alloc, &edit.path, &edit.edit, document)?;
    if is_id(&edit.path) {
        if_same_key(document, after)
    } else {
        Ok(after)
    }
}

// Applies the edits one after the other.
fn edited_by(alloc: Global, edits: &[PathEdit], document: &Document) -> Result<Document, ApplyFault>
    ensures gives { Gives (λ d. d) result (edited_by (edits_of edits.now) document.now) }
{
    let mut after = document.copy()?;
    for edit in edits {
        after = edited(alloc, edit, &after)?;
    }
    Ok(after)
}

// Returns a replacement, which gets the old key as its first field where it has none of its own.
fn with_old_key(alloc: Global, document: &Document, before: &Document) -> Result<Document, Memory>
    ensures { IfOk result (λ d. d ≡ with_old_key document.now (key_of document.now) (key_of before.now)) }
{
    if document.get("_id").is_some() {
        return document.copy();
    }
    let Some(key) = before.get("_id") else {
        return document.copy();
    };
    let mut after = Document::new(alloc);
    after.push(Name::of(alloc, "_id")?, key.copy()?)?;
    copy_fields(document.fields(), &mut after)?;
    Ok(after)
}

// Returns the document that replaces another with the same key.
fn replaced(alloc: Global, document: &Document, before: &Document) -> Result<Document, ApplyFault>
    ensures gives { Gives (λ d. d) result (changed_by (replacement document.now) before.now) }
{
    let after = with_old_key(alloc, document, before)?;
    if_same_key(before, after)
}

// Returns the result of the change of a document, of any size.
fn changed_by(alloc: Global, change: &Update, before: &Document) -> Result<Document, ApplyFault>
    ensures gives { Gives (λ d. d) result (changed_by (change_of change.now) before.now) }
{
    match change {
        Update::Replacement(document) => replaced(alloc, document, before),
        Update::Edits(edits) => edited_by(alloc, edits, before),
    }
}

// Returns whether a document has more bytes than a stored one may have.
#[tactic(auto, using(crate::proofs::Limits::past_capped))]
fn is_too_long(document: &Document) -> bool
    ensures { result ≡ nat_lt most_bytes_kept (length (written document.now)) }
{
    MOST_BYTES_KEPT < document.size()
}

// Returns whether a document has more levels than a stored one may have.
#[tactic(auto, using(crate::proofs::Limits::past_capped))]
fn is_too_deep(document: &Document) -> bool
    ensures { result ≡ nat_lt most_depth_kept (document_depth document.now) }
{
    (MOST_DEPTH_KEPT as usize) < document.levels()
}

/// Returns whether a document has more bytes or levels than a stored one may have (MongoDB manual, "MongoDB Limits and Thresholds").
pub fn is_too_large(document: &Document) -> bool
    ensures { result ≡ is_too_large document.now }
{
    is_too_long(document) || is_too_deep(document)
}

/// Returns the result of the change of a document. Returns the first fault of its edits in their order (`NotDocument`, `NotNumber`, `Overflow`, `Immutable`),
/// `TooLarge` where the result is too large, and `Memory` if memory runs out.
pub fn changed(alloc: Global, change: &Update, before: &Document) -> Result<Document, ApplyFault>
    ensures gives { Gives (λ d. d) result (changed (change_of change.now) before.now) }
{
    let after = changed_by(alloc, change, before)?;
    if is_too_large(&after) {
        Err(ApplyFault::TooLarge)
    } else {
        Ok(after)
    }
}
