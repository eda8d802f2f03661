//! Which fields a document may have: each by a rule, and none twice. Each check returns the error, if any.

ghost use Rattle.std.specs.Prelude.{◌≡◌, ℕ, List, [], ◌∷◌, take, drop, Some, None, codes};
ghost use Rattle.std.specs.List.{list_any};
ghost use Rattle.std.specs.Option.{option_map};
ghost use Rattle.std.specs.Str.{bytes_eq};
ghost use Rattle.bson_model.specs.Tree.{Datum, Fields, field};
ghost use Rattle.base_model.specs.Errors.{failed_to_parse};
ghost use Rattle.bson_values.specs.View.{datum_of, fields_of};
ghost use Rattle.command_model.specs.Checks.{Verdict};
ghost use Rattle.command_model.specs.Fields as model;
ghost use Rattle.command_model.specs.Fields.{Rule, by_rule, common_rules, find_rule, session_rules};
ghost use Rattle.command_fields.specs.Verdicts.{ruling_view, verdict_view};
ghost use Rattle.command_fields.specs.FieldNames.{names_given};

use crate::checks::{boolean_needed, check_required, session_id, string_needed, time_limit_needed};
use bson_values::{Document, Field, Value};
use cluster_base::Code;

/// Rules by their names.
pub trait Rules {
    // The rules.
    ghost rules: { Self → List Rule };

    // The error of a field without a rule.
    ghost unlisted_verdict: { Self → Verdict };

    /// Returns the result of the rule of that name for a value, if there is one.
    fn ruling(&self, name: &str, value: &Value) -> Option<Option<Code>>
        ensures { ruling_view result ≡ option_map (λ r. r.check (datum_of value.now)) (find_rule name.now (rules self.now)) };

    /// Returns the error of a field without a rule.
    fn unlisted(&self) -> Option<Code>
        ensures { verdict_view result ≡ unlisted_verdict self.now };
}

// Returns whether one of these fields has that name.
fn is_given(given: &[Field], name: &str) -> bool
    ensures { result ≡ list_any (λ m. bytes_eq m.name name.now) given.now }
{
    for field in given {
        if field.name.as_str() == name {
            return true;
        }
    }
    false
}

// Checks one field, after those before it.
fn check_field<R: Rules>(rules: &R, given: &[Field], field: &Field) -> Option<Code>
    ensures { verdict_view result ≡ by_rule (R.unlisted_verdict rules.now) (find_rule field.now.name (R.rules rules.now))
        (list_any (λ m. bytes_eq m.name field.now.name) given.now) (datum_of field.now.value) }
{
    let name = field.name.as_str();
    match rules.ruling(name, &field.value) {
        None => rules.unlisted(),
        Some(told) => {
            if is_given(given, name) {
                Some(Code::FailedToParse)
            } else {
                told
            }
        }
    }
}

/// Returns the first error of the fields from an index on, after those before it: the result of a field's rule, `FailedToParse` for a name that occurred
/// before, or the error of a field without a rule.
pub fn check_fields<R: Rules>(rules: &R, fields: &[Field], from: usize) -> Option<Code>
    ensures { verdict_view result ≡ model.check_fields (R.unlisted_verdict rules.now) (R.rules rules.now)
        (names_given [] (take from fields.now)) (fields_of (drop from fields.now)) }
{
    for i in from..fields.len() {
        if let Some(code) = check_field(rules, &fields[..i], &fields[i]) {
            return Some(code);
        }
    }
    None
}

/// The same for the fields of a command after its own.
pub fn check_behind_own<R: Rules>(rules: &R, document: &Document) -> Option<Code>
    ensures { (own : List ℕ) (value : Datum) (others : Fields) → document.now ≡ field own value others →
        verdict_view result ≡ model.check_fields (R.unlisted_verdict rules.now) (R.rules rules.now) (own ∷ []) others }
{
    check_fields(rules, document.fields(), 1)
}

/// The rules of a session's document.
#[derive(Clone, Copy)]
struct SessionRules;

impl Rules for SessionRules {
    ghost rules = { λ _. session_rules };

    ghost unlisted_verdict = { λ _. Some failed_to_parse };

    fn ruling(&self, name: &str, value: &Value) -> Option<Option<Code>> {
        if "id" == name {
            Some(session_id(value))
        } else {
            None
        }
    }

    fn unlisted(&self) -> Option<Code> {
        Some(Code::FailedToParse)
    }
}

fn check_session(session: &Document) -> Option<Code>
    ensures { verdict_view result ≡ model.check_session session.now }
{
    if let Some(code) = check_fields(&SessionRules, session.fields(), 0) {
        return Some(code);
    }
    check_required("id", session)
}

fn session_needed(value: &Value) -> Option<Code>
    ensures { verdict_view result ≡ model.document_needed model.check_session (datum_of value.now) }
{
    match value {
        Value::Doc(session) => check_session(session),
        _ => Some(Code::TypeMismatch),
    }
}

/// Returns the result of the rules that all commands have for a value, if there is one of that name.
pub fn common_ruling(name: &str, value: &Value) -> Option<Option<Code>>
    ensures { ruling_view result ≡ option_map (λ r. r.check (datum_of value.now)) (find_rule name.now common_rules) }
{
    if "$db" == name {
        Some(string_needed(value))
    } else if "lsid" == name {
        Some(session_needed(value))
    } else if "$clusterTime" == name || "$readPreference" == name || "comment" == name {
        Some(None)
    } else if "maxTimeMS" == name {
        Some(time_limit_needed(value))
    } else if "apiVersion" == name {
        Some(string_needed(value))
    } else if "apiStrict" == name || "apiDeprecationErrors" == name {
        Some(boolean_needed(value))
    } else {
        None
    }
}
