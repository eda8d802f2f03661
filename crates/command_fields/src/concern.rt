//! Read concerns: the time of a read (MongoDB manual, "Read Concern").

ghost use Rattle.std.specs.Prelude.{◌≡◌, ◌∷◌, [], Some, codes};
ghost use Rattle.bson_model.specs.Tree.{document_value, get};
ghost use Rattle.bson_values.specs.View.{datum_of};
ghost use Rattle.command_model.specs.Checks as checks;
ghost use Rattle.base_model.specs.Errors.{failed_to_parse};
ghost use Rattle.command_model.specs.Fields as fields;
ghost use Rattle.command_model.specs.Reading as model;
ghost use Rattle.command_model.specs.Reading.{concern_rules};
ghost use Rattle.command_fields.specs.Times.{time_view};
ghost use Rattle.command_fields.specs.Verdicts.{verdict_view};

use crate::checks::{timestamp_needed, unless_passes};
use crate::rules::{Rules, check_fields};
use bson_values::{Document, Value};
use cluster_base::{Code, Time};

// Returns whether the level of a read is one of the supported ones.
fn is_level(level: &str) -> bool
    ensures { result ≡ checks.is_one_of level.now (codes "local" ∷ codes "majority" ∷ codes "available" ∷ codes "snapshot" ∷ []) }
{
    "local" == level || "majority" == level || "available" == level || "snapshot" == level
}

// Checks the level of a read.
fn check_level(value: &Value) -> Option<Code>
    ensures { verdict_view result ≡ model.check_level (datum_of value.now) }
{
    match value {
        Value::Text(level) => unless_passes(is_level(level.as_str()), Code::BadValue),
        _ => Some(Code::TypeMismatch),
    }
}

// Returns whether the level of a read concern is `snapshot`.
fn is_snapshot(concern: &Document) -> bool
    ensures { result ≡ model.is_snapshot (get (codes "level") concern.now) }
{
    match concern.get("level") {
        Some(level) => match level {
            Value::Text(level) => level.as_str() == "snapshot",
            _ => false,
        },
        None => false,
    }
}

/// The rules of a read concern.
#[derive(Clone, Copy)]
struct ConcernRules;

impl Rules for ConcernRules {
    ghost rules = { λ _. concern_rules };

    ghost unlisted_verdict = { λ _. Some failed_to_parse };

    fn ruling(&self, name: &str, value: &Value) -> Option<Option<Code>> {
        if "level" == name {
            Some(check_level(value))
        } else if "atClusterTime" == name || "afterClusterTime" == name {
            Some(timestamp_needed(value))
        } else {
            None
        }
    }

    fn unlisted(&self) -> Option<Code> {
        Some(Code::FailedToParse)
    }
}

// Returns whether a time may be named: only with the level `snapshot`, and not together with a time to be reached.
fn may_name_time(concern: &Document) -> bool
    ensures { result ≡ model.may_name_time concern.now }
{
    is_snapshot(concern) && concern.get("afterClusterTime").is_none()
}

fn check_concern(concern: &Document) -> Option<Code>
    ensures { verdict_view result ≡ model.check_concern concern.now }
{
    if let Some(code) = check_fields(&ConcernRules, concern.fields(), 0) {
        return Some(code);
    }
    match concern.get("atClusterTime") {
        Some(_) => unless_passes(may_name_time(concern), Code::BadValue),
        None => None,
    }
}

/// Accepts a read concern; returns `TypeMismatch` for another value, and for a document the first error of its fields.
pub fn concern_needed(value: &Value) -> Option<Code>
    ensures { verdict_view result ≡ fields.document_needed model.check_concern (datum_of value.now) }
{
    match value {
        Value::Doc(concern) => check_concern(concern),
        _ => Some(Code::TypeMismatch),
    }
}

// Returns the time in a field of a read concern.
fn time_in(concern: &Document, name: &str) -> Option<Time>
    ensures { time_view result ≡ model.time_given name.now (Some (document_value concern.now)) }
{
    match concern.get(name) {
        Some(value) => match value {
            Value::Timestamp(time) => Some(Time(*time)),
            _ => None,
        },
        None => None,
    }
}

/// Returns the time in the field of that name of a command's read concern, if any.
pub fn time_given(document: &Document, name: &str) -> Option<Time>
    ensures { time_view result ≡ model.time_given name.now (get (codes "readConcern") document.now) }
{
    match document.get("readConcern") {
        Some(value) => match value {
            Value::Doc(concern) => time_in(concern, name),
            _ => None,
        },
        None => None,
    }
}
