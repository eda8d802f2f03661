//! Checks of values that all commands share. Each returns the error, if any.

ghost use Rattle.std.specs.Prelude.{◌≡◌, [], None, Some};
ghost use Rattle.bson_model.specs.Tree.{get};
ghost use Rattle.bson_values.specs.View.{datum_of};
ghost use Rattle.cluster_base.specs.Codes.{meaning_of};
ghost use Rattle.command_model.specs.Checks as checks;
ghost use Rattle.command_model.specs.Forms as forms;
ghost use Rattle.command_model.specs.Fields as fields;
ghost use Rattle.command_model.specs.Reading as reading;
ghost use Rattle.pipeline_model.specs.Operands.{whole_number};
ghost use Rattle.pipeline_model.specs.Stages.{as_natural, read_natural};
ghost use Rattle.command_fields.specs.Numbers.{if_read};
ghost use Rattle.command_fields.specs.Verdicts.{ReadsBy, verdict_view};

use crate::fault::CheckFault;
use bson_values::{Document, Value};
use cluster_base::Code;

/// The subtype of a binary that is a UUID (BSON 1.1, `subtype`).
const UUID: u8 = 4;

/// Returns the error, unless the test passes.
pub fn unless_passes(passes: bool, code: Code) -> Option<Code>
    ensures { verdict_view result ≡ checks.unless_passes passes (meaning_of code) }
{
    if passes { None } else { Some(code) }
}

/// Returns the error of a check as an `Err`, if there is one.
pub fn passed(verdict: Option<Code>) -> Result<(), CheckFault>
    ensures { ReadsBy (λ read. Unit {0}) result (verdict_view verdict) }
{
    match verdict {
        Some(code) => Err(CheckFault::Refused(code)),
        None => Ok(()),
    }
}

/// Accepts a boolean; returns `TypeMismatch` for another value.
pub fn boolean_needed(value: &Value) -> Option<Code>
    ensures { verdict_view result ≡ fields.boolean_needed (datum_of value.now) }
{
    match value {
        Value::Bool(_) => None,
        _ => Some(Code::TypeMismatch),
    }
}

/// Accepts only `false`, which is like no field; returns `FailedToParse` for another value.
pub fn false_needed(value: &Value) -> Option<Code>
    ensures { verdict_view result ≡ fields.false_needed (datum_of value.now) }
{
    match value {
        Value::Bool(boolean) => unless_passes(!boolean.content, Code::FailedToParse),
        _ => Some(Code::FailedToParse),
    }
}

/// Accepts a string; returns `TypeMismatch` for another value.
pub fn string_needed(value: &Value) -> Option<Code>
    ensures { verdict_view result ≡ fields.string_needed (datum_of value.now) }
{
    match value {
        Value::Text(_) => None,
        _ => Some(Code::TypeMismatch),
    }
}

/// Accepts any document; returns `TypeMismatch` for another value.
pub fn document_needed(value: &Value) -> Option<Code>
    ensures { verdict_view result ≡ fields.document_needed (λ ms. None) (datum_of value.now) }
{
    match value {
        Value::Doc(_) => None,
        _ => Some(Code::TypeMismatch),
    }
}

/// Requires a field of that name; returns `FailedToParse` where there is none.
pub fn check_required(name: &str, document: &Document) -> Option<Code>
    ensures { verdict_view result ≡ fields.check_required name.now document.now }
{
    match document.get(name) {
        Some(_) => None,
        None => Some(Code::FailedToParse),
    }
}

/// Accepts the identifier of a session: a UUID.
pub(crate) fn session_id(value: &Value) -> Option<Code>
    ensures { verdict_view result ≡ fields.session_id (datum_of value.now) }
{
    match value {
        Value::Binary { subtype, bytes } => unless_passes(
            *subtype == UUID && bytes.as_slice().len() == 16,
            Code::BadValue,
        ),
        _ => Some(Code::TypeMismatch),
    }
}

/// Returns the text of a value, or the empty text for another value.
pub(crate) fn text_in(value: &Value) -> &str
    ensures { result.now ≡ forms.string_or [] (Some (datum_of value.now)) }
{
    match value {
        Value::Text(text) => text.as_str(),
        _ => "",
    }
}

/// Returns the boolean in the first field of that name, or `other` where there is none.
pub fn boolean_or(other: bool, document: &Document, name: &str) -> bool
    ensures { result ≡ fields.boolean_or other (get name.now document.now) }
{
    match document.get(name) {
        Some(value) => match value {
            Value::Bool(boolean) => boolean.content,
            _ => other,
        },
        None => other,
    }
}

pub(crate) fn timestamp_needed(value: &Value) -> Option<Code>
    ensures { verdict_view result ≡ fields.timestamp_needed (datum_of value.now) }
{
    match value {
        Value::Timestamp(_) => None,
        _ => Some(Code::TypeMismatch),
    }
}

/// Returns the whole number that a value is, an int32 or an int64, or none for another value.
pub fn whole_number(value: &Value) -> Option<i64>
    ensures { result ≡ whole_number (datum_of value.now) }
{
    match value {
        Value::Int32(number) => Some(i64::from(number.content)),
        Value::Int64(number) => Some(*number),
        _ => None,
    }
}

// Returns the number, where it is not negative.
fn natural_of(number: i64) -> Option<u64>
    ensures { result ≡ if_read (as_natural number) }
{
    if number < 0 {
        None
    } else {
        Some(number as u64)
    }
}

/// Accepts a whole number that is not negative; returns `BadValue` for a negative one, and `TypeMismatch` for another value.
pub fn natural_needed(value: &Value) -> Option<Code>
    ensures { verdict_view result ≡ reading.natural_needed (datum_of value.now) }
{
    match whole_number(value) {
        Some(number) => unless_passes(natural_of(number).is_some(), Code::BadValue),
        None => Some(Code::TypeMismatch),
    }
}

// Returns the number that a value is, where it is whole and not negative.
fn natural_in(value: &Value) -> Option<u64>
    ensures { result ≡ if_read (read_natural (datum_of value.now)) }
{
    match whole_number(value) {
        Some(number) => natural_of(number),
        None => None,
    }
}

/// Returns the whole number in the first field of that name, where it is there and not negative.
pub fn number_given(document: &Document, name: &str) -> Option<u64>
    ensures { result ≡ reading.number_given name.now document.now }
{
    match document.get(name) {
        Some(value) => natural_in(value),
        None => None,
    }
}

// Returns whether a request may take this number of milliseconds.
fn is_time_limit(number: i64) -> bool
    ensures { result ≡ fields.is_time_limit number }
{
    0 <= number && number < 1 << 31
}

/// Accepts a number of milliseconds, from 0 to 2^31 - 1 (MongoDB manual, "maxTimeMS"); returns `BadValue` for another whole number, and `TypeMismatch` for
/// another value.
pub(crate) fn time_limit_needed(value: &Value) -> Option<Code>
    ensures { verdict_view result ≡ fields.time_limit_needed (datum_of value.now) }
{
    match whole_number(value) {
        Some(number) => unless_passes(is_time_limit(number), Code::BadValue),
        None => Some(Code::TypeMismatch),
    }
}
