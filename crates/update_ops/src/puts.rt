//! The value at a path: found, set and removed (MongoDB manual, "$set", "$unset").

ghost use Rattle.std.specs.Prelude.{◌≡◌, ◌∷◌, IfOk, option_map};
ghost use Rattle.bson_values.specs.View.{datum_of};
ghost use Rattle.query_model.specs.Edits.{put_at, take_at, value_at};
ghost use Rattle.update_ops.specs.ApplyFaults.{Gives};
ghost use Rattle.update_ops.specs.Steps.{put_inside};

use crate::fault::ApplyFault;
use crate::fields::{with_field, without_field};
use bson_values::{Document, Memory, Name, Value};
use std::alloc::Global;

// Returns the value at the path that begins with this name, if there is one.
fn value_below<'a>(name: &Name, others: &[Name], document: &'a Document) -> Option<&'a Value>
    ensures { option_map (λ v. datum_of v.now) result ≡ value_at (name.now ∷ others.now) document.now }
{
    let found = document.get(name.as_str());
    let Some((next, rest)) = others.split_first() else {
        return found;
    };
    match found {
        Some(Value::Doc(inner)) => value_below(next, rest, inner),
        _ => None,
    }
}

/// Returns the value at a path, if there is one.
pub fn value_at<'a>(path: &[Name], document: &'a Document) -> Option<&'a Value>
    ensures { option_map (λ v. datum_of v.now) result ≡ value_at path.now document.now }
{
    match path.split_first() {
        Some((name, others)) => value_below(name, others, document),
        None => None,
    }
}

// Returns the document with the value at the path that begins with this name.
#[cycle(put)]
fn put_below(
    alloc: Global,
    name: &Name,
    others: &[Name],
    value: Value,
    document: &Document,
) -> Result<Document, ApplyFault>
    ensures gives { Gives (λ d. d) result (put_at (name.now ∷ others.now) (datum_of value) document.now) }
{
    let Some((next, rest)) = others.split_first() else {
        return Ok(with_field(alloc, name, value, document)?);
    };
    let changed = put_inside(alloc, next, rest, value, document.get(name.as_str()))?;
    Ok(with_field(alloc, name, Value::Doc(changed), document)?)
}

// The same for a document on the path, which is created where there is no value.
#[cycle(put)]
fn put_inside(
    alloc: Global,
    name: &Name,
    others: &[Name],
    value: Value,
    found: Option<&Value>,
) -> Result<Document, ApplyFault>
    ensures gives { Gives (λ d. d) result (put_inside (name.now ∷ others.now) (datum_of value) (option_map (λ v. datum_of v.now) found.entry)) }
{
    match found {
        None => {
            let made = Document::new(alloc);
            put_below(alloc, name, others, value, &made)
        }
        Some(Value::Doc(document)) => put_below(alloc, name, others, value, document),
        Some(_) => Err(ApplyFault::NotDocument),
    }
}

/// Returns the document with the value at the path; documents that are missing on the path are created. Returns `NotDocument` where a value on the path is
/// not a document, and `Memory` if memory runs out.
pub fn put_at(
    alloc: Global,
    path: &[Name],
    value: Value,
    document: &Document,
) -> Result<Document, ApplyFault>
    ensures gives { Gives (λ d. d) result (put_at path.now (datum_of value) document.now) }
{
    match path.split_first() {
        Some((name, others)) => put_below(alloc, name, others, value, document),
        None => Ok(document.copy()?),
    }
}

// Returns the document without the value at the path that begins with this name.
fn take_below(
    alloc: Global,
    name: &Name,
    others: &[Name],
    document: &Document,
) -> Result<Document, Memory>
    ensures { IfOk result (λ d. d ≡ take_at (name.now ∷ others.now) document.now) }
{
    let Some((next, rest)) = others.split_first() else {
        return without_field(alloc, name, document);
    };
    match document.get(name.as_str()) {
        Some(Value::Doc(inner)) => {
            let changed = take_below(alloc, next, rest, inner)?;
            with_field(alloc, name, Value::Doc(changed), document)
        }
        _ => document.copy(),
    }
}

/// Returns the document without the value at the path, or `Memory` if memory runs out.
pub fn take_at(alloc: Global, path: &[Name], document: &Document) -> Result<Document, Memory>
    ensures { IfOk result (λ d. d ≡ take_at path.now document.now) }
{
    match path.split_first() {
        Some((name, others)) => take_below(alloc, name, others, document),
        None => document.copy(),
    }
}
