//! Statements: the fields of each, its key and its operands (MongoDB manual, "insert", "update", "delete").

ghost use Rattle.std.specs.Prelude.{◌≡◌, map, None, Some, codes};
ghost use Rattle.std.specs.Option.{option_map, option_or};
ghost use Rattle.bson_model.specs.Tree.{get};
ghost use Rattle.bson_values.specs.View.{datum_of, fields_of};
ghost use Rattle.command_replies.specs.Kinds.{kind_view};
ghost use Rattle.command_model.specs.Delete as deletes;
ghost use Rattle.base_model.specs.Errors.{failed_to_parse};
ghost use Rattle.command_model.specs.Fields.{check_inner_fields};
ghost use Rattle.value_model.specs.Keys as keys;
ghost use Rattle.command_model.specs.Statements as model;
ghost use Rattle.command_model.specs.Update as updates;
ghost use Rattle.command_model.specs.Writes.{statement_form};
ghost use Rattle.command_fields.specs.Verdicts.{ReadsBy, verdict_view};
ghost use Rattle.statement_views.specs.Views.{operation_view};

use crate::checks::{boolean_needed, boolean_or, check_required, document_needed, unless_passes};
use crate::documents::value_named;
use crate::fault::CheckFault;
use crate::rules::{Rules, check_fields};
use bson_values::{Document, Field, Value};
use cluster_base::Code;
use command_replies::WriteKind;
use match_expr::key_asked_in;
use std::alloc::Global;
use update_ops::Op;
use value_compare::OpWords;

/// The rules of an update's statement.
#[derive(Clone, Copy)]
struct UpdateRules;

impl Rules for UpdateRules {
    ghost rules = { λ _. updates.update_rules };

    ghost unlisted_verdict = { λ _. Some failed_to_parse };

    fn ruling(&self, name: &str, value: &Value) -> Option<Option<Code>> {
        if "q" == name || "u" == name {
            Some(document_needed(value))
        } else if "upsert" == name || "multi" == name {
            Some(boolean_needed(value))
        } else {
            None
        }
    }

    fn unlisted(&self) -> Option<Code> {
        Some(Code::FailedToParse)
    }
}

// Checks a delete's limit, which is 0 or 1.
fn limit_needed(value: &Value) -> Option<Code>
    ensures { verdict_view result ≡ deletes.limit_needed (datum_of value.now) }
{
    match value {
        Value::Int32(limit) => unless_passes(
            limit.content == 0 || limit.content == 1,
            Code::BadValue,
        ),
        Value::Int64(limit) => unless_passes(*limit == 0 || *limit == 1, Code::BadValue),
        _ => Some(Code::TypeMismatch),
    }
}

/// The rules of a delete's statement.
#[derive(Clone, Copy)]
struct DeleteRules;

impl Rules for DeleteRules {
    ghost rules = { λ _. deletes.delete_rules };

    ghost unlisted_verdict = { λ _. Some failed_to_parse };

    fn ruling(&self, name: &str, value: &Value) -> Option<Option<Code>> {
        if "q" == name {
            Some(document_needed(value))
        } else if "limit" == name {
            Some(limit_needed(value))
        } else {
            None
        }
    }

    fn unlisted(&self) -> Option<Code> {
        Some(Code::FailedToParse)
    }
}

// Checks the fields of an update's statement.
fn check_update(statement: &Document) -> Option<Code>
    ensures { verdict_view result ≡ updates.check_update statement.now }
{
    if let Some(code) = check_fields(&UpdateRules, statement.fields(), 0) {
        return Some(code);
    }
    if let Some(code) = check_required("q", statement) {
        return Some(code);
    }
    check_required("u", statement)
}

// Checks the fields of a delete's statement.
fn check_delete(statement: &Document) -> Option<Code>
    ensures { verdict_view result ≡ deletes.check_delete statement.now }
{
    if let Some(code) = check_fields(&DeleteRules, statement.fields(), 0) {
        return Some(code);
    }
    if let Some(code) = check_required("q", statement) {
        return Some(code);
    }
    check_required("limit", statement)
}

// Checks the fields of a statement.
fn check_form(kind: WriteKind, statement: &Document) -> Option<Code>
    ensures { verdict_view result ≡ (statement_form (kind_view kind)).check statement.now }
{
    match kind {
        WriteKind::Insert => None,
        WriteKind::Update => check_update(statement),
        WriteKind::Delete => check_delete(statement),
    }
}

// Returns the document that a value is, or the empty document for another value or none.
fn document_or_none(alloc: Global, value: Option<Value>) -> Document
    ensures { result ≡ model.document_or_none (option_map datum_of value) }
{
    match value {
        Some(value) => match value {
            Value::Doc(document) => document,
            _ => Document::new(alloc),
        },
        None => Document::new(alloc),
    }
}

// Stores a value, unless one was found before it.
fn keep_first(found: &mut Option<Value>, value: Value)
    ensures { option_map datum_of found.new ≡ option_or (option_map datum_of found.old) (Some (datum_of value)) }
{
    if found.is_none() {
        *found = Some(value);
    }
}

// Returns the first values that are named `q` and `u`.
fn filter_and_change(fields: Vec<Field>) -> (Option<Value>, Option<Value>)
    ensures filter { option_map datum_of result.0 ≡ get (codes "q") (fields_of fields.items) }
    ensures change { option_map datum_of result.1 ≡ get (codes "u") (fields_of fields.items) }
{
    let mut filter = None;
    let mut change = None;
    for field in fields {
        let name = field.name.as_str();
        if name == "q" {
            keep_first(&mut filter, field.value);
        } else if name == "u" {
            keep_first(&mut change, field.value);
        }
    }
    (filter, change)
}

// Returns the operands of an update, moved out of its statement.
fn update_of(alloc: Global, statement: Document) -> OpWords
    ensures { operation_view result ≡ updates.update_of statement }
{
    let upsert = boolean_or(false, &statement, "upsert");
    let (filter, change) = filter_and_change(statement.into_fields());
    OpWords::Update {
        filter: document_or_none(alloc, filter),
        change: document_or_none(alloc, change),
        upsert,
    }
}

// Returns the operands of a delete, moved out of its statement.
fn delete_of(alloc: Global, statement: Document) -> OpWords
    ensures { operation_view result ≡ deletes.delete_of statement }
{
    let filter = value_named(statement.into_fields(), "q");
    OpWords::Delete {
        filter: document_or_none(alloc, filter),
    }
}

// Returns the operands of a statement.
fn words_of(alloc: Global, kind: WriteKind, statement: Document) -> OpWords
    ensures { operation_view result ≡ (statement_form (kind_view kind)).operation statement }
{
    match kind {
        WriteKind::Insert => OpWords::Insert(statement),
        WriteKind::Update => update_of(alloc, statement),
        WriteKind::Delete => delete_of(alloc, statement),
    }
}

/// Returns whether a value may be a key.
pub(crate) fn is_key(value: &Value) -> bool
    ensures { result ≡ keys.is_key (datum_of value.now) }
{
    !matches!(
        value,
        Value::Doc(_) | Value::Array(_) | Value::MinKey | Value::MaxKey
    )
}

// Returns the key that operands require, before they are read.
fn key_asked_by(words: &OpWords) -> Option<&Value>
    ensures { option_map (λ v. datum_of v.now) result ≡ model.key_asked_by (operation_view words.now) }
{
    match words {
        OpWords::Insert(document) => document.get("_id"),
        OpWords::Update { filter, .. } => key_asked_in(filter),
        OpWords::Delete { filter } => key_asked_in(filter),
    }
}

// Checks the key that operands require.
fn check_key(words: &OpWords) -> Option<Code>
    ensures { verdict_view result ≡ model.check_key (model.key_asked_by (operation_view words.now)) }
{
    match key_asked_by(words) {
        Some(key) => unless_passes(is_key(key), Code::BadValue),
        None => Some(Code::ShardKeyNotFound),
    }
}

// Reads the operands. Returns their first fault, and `Memory` if memory runs out.
fn read_words(alloc: Global, words: &OpWords) -> Result<(), CheckFault>
    ensures { ReadsBy (λ read. Unit {0}) result (model.check_words (operation_view words.now)) }
{
    let _op = Op::read(alloc, words)?;
    Ok(())
}

// Checks the operands of a statement whose key passes; those of an insert need not be read. Returns their first fault, and `Memory` if memory runs out.
fn check_words(alloc: Global, words: &OpWords) -> Result<(), CheckFault>
    requires { model.check_key (model.key_asked_by (operation_view words.now)) ≡ None }
    ensures { ReadsBy (λ read. Unit {0}) result (model.check_words (operation_view words.now)) }
{
    match words {
        OpWords::Insert(_) => Ok(()),
        _ => read_words(alloc, words),
    }
}

// Returns the operands of a statement that passes. Returns its first error, and `Memory` if memory runs out.
fn statement_of(alloc: Global, kind: WriteKind, statement: Document) -> Result<OpWords, CheckFault>
    ensures { ReadsBy (λ words. operation_view words ≡ (statement_form (kind_view kind)).operation statement) result
        (model.check_statement (statement_form (kind_view kind)) statement) }
{
    if let Some(code) = check_form(kind, &statement) {
        return Err(CheckFault::Refused(code));
    }
    let words = words_of(alloc, kind, statement);
    if let Some(code) = check_key(&words) {
        return Err(CheckFault::Refused(code));
    }
    match check_words(alloc, &words) {
        Ok(()) => Ok(words),
        Err(fault) => Err(fault),
    }
}

/// Returns the operands of statements that all pass, in order. Returns the first error: of a statement the first of its fields, of its key and of its
/// operands; and `Memory` if memory runs out.
pub fn operations_of(
    alloc: Global,
    kind: WriteKind,
    statements: Vec<Document>,
) -> Result<Vec<OpWords>, CheckFault>
    ensures { ReadsBy (λ operations. map operation_view operations.items ≡ map (statement_form (kind_view kind)).operation statements.items) result
        (model.check_statements (statement_form (kind_view kind)) statements.items) }
{
    let mut operations = Vec::new(alloc);
    for statement in statements {
        match statement_of(alloc, kind, statement) {
            Ok(words) => operations.push(words)?,
            Err(fault) => return Err(fault),
        }
    }
    Ok(operations)
}
