//! Documents `{_id: value}`, of this one field: the key that a collection is sharded by, and a key of a document (MongoDB manual, "shardCollection", "split").

ghost use Rattle.std.specs.Prelude.{◌≡◌, IfOk, Some, None, if◌then◌else◌, codes};
ghost use Rattle.std.specs.Option.{option_map};
ghost use Rattle.std.specs.Str.{bytes_eq};
ghost use Rattle.bson_model.specs.Tree.{get};
ghost use Rattle.bson_values.specs.View.{datum_of};
ghost use Rattle.command_model.specs.AdminCommands as admin;
ghost use Rattle.command_model.specs.ShardCollection as model;
ghost use Rattle.value_model.specs.Keys.{is_key};
ghost use Rattle.command_fields.specs.Verdicts.{verdict_view};

use crate::checks::{unless_passes, whole_number};
use crate::statements::is_key;
use bson_values::{Document, Field, Memory, Value};
use cluster_base::Code;
use value_compare::Key;

// Returns the value of a field that is named `_id`.
fn id_of(field: &Field) -> Option<&Value>
    ensures { option_map (λ v. datum_of v.now) result ≡ (if bytes_eq field.now.name (codes "_id") then Some (datum_of field.now.value) else None) }
{
    if field.name.as_str() == "_id" {
        Some(&field.value)
    } else {
        None
    }
}

// Returns the value of `_id`, if the document has this one field.
fn only_id(document: &Document) -> Option<&Value>
    ensures { option_map (λ v. datum_of v.now) result ≡ admin.only_id document.now }
{
    match document.fields() {
        [field] => id_of(field),
        [] => None,
        [_, _, ..] => None,
    }
}

// The same, if the value is a key.
fn only_key(document: &Document) -> Option<&Value>
    ensures { option_map (λ v. datum_of v.now) result ≡ admin.only_key document.now }
{
    match only_id(document) {
        Some(value) => { if is_key(value) { Some(value) } else { None } }
        None => None,
    }
}

// Returns whether a value is the number 1.
fn is_one(value: &Value) -> bool
    ensures { result ≡ model.is_one (datum_of value.now) }
{
    match whole_number(value) {
        Some(number) => number == 1,
        None => false,
    }
}

// Returns whether a document is `{_id: 1}`.
fn is_shard_key(document: &Document) -> bool
    ensures { result ≡ model.is_shard_key document.now }
{
    match only_id(document) {
        Some(value) => is_one(value),
        None => false,
    }
}

/// Accepts the document `{_id: 1}`; returns `BadValue` for another document, and `TypeMismatch` for another value.
pub fn shard_key_needed(value: &Value) -> Option<Code>
    ensures { verdict_view result ≡ model.shard_key_needed (datum_of value.now) }
{
    match value {
        Value::Doc(document) => unless_passes(is_shard_key(document), Code::BadValue),
        _ => Some(Code::TypeMismatch),
    }
}

/// Accepts a document `{_id: key}`; returns `BadValue` for another document, and `TypeMismatch` for another value.
pub fn key_needed(value: &Value) -> Option<Code>
    ensures { verdict_view result ≡ admin.key_needed (datum_of value.now) }
{
    match value {
        Value::Doc(document) => unless_passes(only_key(document).is_some(), Code::BadValue),
        _ => Some(Code::TypeMismatch),
    }
}

// Returns a copy of a value as a key; none where it is no key, or `Memory` if memory runs out.
fn as_key(value: &Value) -> Result<Option<Key>, Memory>
    ensures { IfOk result (λ key. key ≡ (if is_key (datum_of value.now) then Some (datum_of value.now) else None)) }
{
    match Key::of(value.copy()?) {
        Ok(key) => Ok(Some(key)),
        Err(_) => Ok(None),
    }
}

// Returns a copy of the key in a document `{_id: key}`; none for another document, or `Memory` if memory runs out.
fn key_copied(document: &Document) -> Result<Option<Key>, Memory>
    ensures { IfOk result (λ key. key ≡ admin.only_key document.now) }
{
    match only_id(document) {
        Some(value) => as_key(value),
        None => Ok(None),
    }
}

/// Returns a copy of the key in the first field of that name, if the field is a document `{_id: key}`; or `Memory` if memory runs out.
pub fn key_in(document: &Document, name: &str) -> Result<Option<Key>, Memory>
    ensures { IfOk result (λ key. key ≡ admin.key_given (get name.now document.now)) }
{
    match document.get(name) {
        Some(value) => match value {
            Value::Doc(given) => key_copied(given),
            _ => Ok(None),
        },
        None => Ok(None),
    }
}
