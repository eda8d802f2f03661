//! The fields of a write: its statements, its session and its number (MongoDB manual, "insert", "update", "delete").

ghost use Rattle.std.specs.Prelude.{◌≡◌, None, Some, codes, length, pos};
ghost use Rattle.std.specs.Option.{is_some, unwrap_or};
ghost use Rattle.bson_model.specs.Tree.{get};
ghost use Rattle.bson_values.specs.View.{datum_of, items_of};
ghost use Rattle.command_replies.specs.Kinds.{given_view, kind_view};
ghost use Rattle.command_model.specs.Checks.{unless_passes};
ghost use Rattle.base_model.specs.Errors.{bad_value};
ghost use Rattle.command_model.specs.Writes as model;
ghost use Rattle.command_model.specs.Writes.{statement_form};
ghost use Rattle.opmsg_frames.specs.Lists.{pairs_of};
ghost use Rattle.pipeline_model.specs.Operands.{whole_number};
ghost use Rattle.command_fields.specs.Sessions.{HasSession};
ghost use Rattle.command_fields.specs.Verdicts.{verdict_view};

use crate::checks::{check_required, unless_passes, whole_number};
use bson_values::{Document, Value};
use cluster_base::Code;
use command_replies::{ClientNumber, MOST_STATEMENTS, WriteKind};
use opmsg_frames::Sequence;

/// Returns the name of the field, or document sequence, with a command's statements.
pub fn statements_name(kind: WriteKind) -> &'static str
    ensures { result.now ≡ (statement_form (kind_view kind)).identifier }
{
    match kind {
        WriteKind::Insert => "documents",
        WriteKind::Update => "updates",
        WriteKind::Delete => "deletes",
    }
}

// Returns whether all values are documents.
fn are_documents(values: &[Value]) -> bool
    ensures { result ≡ is_some (model.documents_in (items_of values.now)) }
{
    for value in values {
        let Value::Doc(_) = value else {
            return false;
        };
    }
    true
}

/// Accepts a number of statements that a command may have; returns `BadValue` for another one.
pub fn check_count(count: usize) -> Option<Code>
    ensures { verdict_view result ≡ unless_passes (model.is_statement_count count) bad_value }
{
    unless_passes(
        1 <= count && count <= MOST_STATEMENTS as usize,
        Code::BadValue,
    )
}

/// Accepts the statements of a command in their field: an array of documents, else `TypeMismatch`, whose number is one that a command may have, else
/// `BadValue`.
pub fn documents_needed(value: &Value) -> Option<Code>
    ensures { verdict_view result ≡ model.documents_needed (datum_of value.now) }
{
    match value {
        Value::Array(array) => {
            let values = array.values();
            if are_documents(values) {
                check_count(array.len())
            } else {
                Some(Code::TypeMismatch)
            }
        }
        _ => Some(Code::TypeMismatch),
    }
}

/// Accepts a whole number, also below 0; returns `TypeMismatch` for another value.
pub fn whole_needed(value: &Value) -> Option<Code>
    ensures { verdict_view result ≡ model.whole_needed (datum_of value.now) }
{
    match whole_number(value) {
        Some(_) => None,
        None => Some(Code::TypeMismatch),
    }
}

/// Requires a session for a transaction's number: returns `FailedToParse` where there is none.
pub fn session_needed(document: &Document) -> Option<Code>
    ensures { verdict_view result ≡ model.session_needed document.now }
{
    match document.get("txnNumber") {
        Some(_) => check_required("lsid", document),
        None => None,
    }
}

// Returns the bytes of a binary, or no bytes for another value.
fn bytes_in(value: &Value) -> &[u8]
    ensures { result.now ≡ model.session_bytes (Some (datum_of value.now)) }
{
    match value {
        Value::Binary { bytes, .. } => bytes.as_slice(),
        _ => &[],
    }
}

// Returns the identifier of a session, or no bytes where it has none.
fn id_in(session: &Document) -> &[u8]
    ensures { result.now ≡ model.session_bytes (get (codes "id") session.now) }
{
    match session.get("id") {
        Some(value) => bytes_in(value),
        None => &[],
    }
}

// The same for a value, or no bytes where it is not a document.
fn session_in(value: &Value) -> &[u8]
    ensures { result.now ≡ model.session_in (Some (datum_of value.now)) }
{
    match value {
        Value::Doc(session) => id_in(session),
        _ => &[],
    }
}

// Returns the identifier of the session that a document names, where it has 16 bytes.
fn session_of(document: &Document) -> [u8; 16]
    ensures { length (model.session_in (get (codes "lsid") document.now)) ≡ 16 → result ≡ model.session_in (get (codes "lsid") document.now) }
{
    let mut session = [0; 16];
    if let Some(value) = document.get("lsid") {
        let found = session_in(value);
        if found.len() == 16 {
            session.copy_from_slice(found);
        }
    }
    session
}

// Returns the whole number that a value is, or 0.
fn whole_or_zero(value: &Value) -> i64
    ensures { result ≡ unwrap_or (whole_number (datum_of value.now)) (pos 0) }
{
    match whole_number(value) {
        Some(number) => number,
        None => 0,
    }
}

/// Returns the number that a client gives its statements, if it gives one, from a document whose session passes.
pub fn client_number(document: &Document) -> Option<ClientNumber>
    ensures { HasSession document.now → model.session_needed document.now ≡ None → given_view result ≡ model.number_given document.now }
{
    match document.get("txnNumber") {
        Some(value) => Some(ClientNumber {
            session: session_of(document),
            transaction: whole_or_zero(value),
        }),
        None => None,
    }
}

/// Returns whether there are statements, in the field or in a sequence.
pub fn has_documents(kind: WriteKind, document: &Document, sequences: &[Sequence]) -> bool
    ensures { result ≡ is_some (model.documents_asked (statement_form (kind_view kind)) document.now (pairs_of sequences.now)) }
{
    match document.get(statements_name(kind)) {
        Some(value) => match value {
            Value::Array(array) => are_documents(array.values()),
            _ => false,
        },
        None => match sequences {
            [] => false,
            [_, ..] => true,
        },
    }
}
