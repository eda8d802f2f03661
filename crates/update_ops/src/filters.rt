//! The document that an upsert begins with, by the document of its filter (MongoDB manual, "Upsert Behavior").

ghost use Rattle.std.specs.Prelude.{◌≡◌, IfOk, OnOk, codes, if◌then◌else◌};
ghost use Rattle.std.specs.Str.{bytes_eq};
ghost use Rattle.bson_model.specs.Tree.{Fields, document_value, field, joined};
ghost use Rattle.bson_values.specs.View.{datum_of};
ghost use Rattle.query_model.specs.Queries.{named, operators};
ghost use Rattle.query_model.specs.Reading.{is_operator_document};
ghost use Rattle.update_ops.specs.Starts.{are_plain_operators, equalities_before, equalities_in, has_dot, is_equality, is_plain_asked, is_plain_filter, is_plain_name, is_plain_operand, operands_before};

use crate::operators::begins_with_dollar;
use bson_values::{Document, Memory, Name, Value};
use std::alloc::Global;

// Returns whether a name has a dot.
fn has_dot(name: &str) -> bool
    ensures { result ≡ has_dot name.now }
{
    for b in name.as_bytes() {
        if *b == b'.' {
            return true;
        }
    }
    false
}

// Returns whether a name is not a logical operator's, and has one part.
fn is_plain_name(name: &str) -> bool
    ensures { result ≡ is_plain_name name.now }
{
    !begins_with_dollar(name) && !has_dot(name)
}

// Returns whether the first name of a document begins with `$`.
fn is_operator_document(document: &Document) -> bool
    ensures { result ≡ is_operator_document document.now }
{
    match document.fields().first() {
        Some(field) => begins_with_dollar(field.name.as_str()),
        None => false,
    }
}

/// Returns whether a document may begin from the filter: it has no dotted path and no logical operator, at any level. Takes no memory.
#[cycle(plain)]
pub fn is_plain_filter(filter: &Document) -> bool
    ensures { result ≡ is_plain_filter filter.now }
{
    for field in filter.fields() {
        if !is_plain_name(field.name.as_str()) || !is_plain_asked(&field.value) {
            return false;
        }
    }
    true
}

// The same for the condition of a path.
#[cycle(plain)]
fn is_plain_asked(value: &Value) -> bool
    ensures { result ≡ is_plain_asked (datum_of value.now) }
{
    match value {
        Value::Doc(document) => !is_operator_document(document) || are_plain_operators(document),
        _ => true,
    }
}

// The same for an operator document.
#[cycle(plain)]
fn are_plain_operators(document: &Document) -> bool
    ensures { result ≡ are_plain_operators document.now }
{
    for field in document.fields() {
        if !is_plain_operand(field.name.as_str(), &field.value) {
            return false;
        }
    }
    true
}

// The same for an operand.
#[cycle(plain)]
#[tactic(auto, using(crate::proofs::FilterNames::operand_scalar))]
fn is_plain_operand(name: &str, value: &Value) -> bool
    ensures { result ≡ is_plain_operand (named operators name.now) (datum_of value.now) }
{
    match value {
        Value::Doc(document) => is_plain_inside(name, document),
        _ => true,
    }
}

// The same for an operand that is a document: only `$elemMatch` and `$not` contain what a filter contains.
#[cycle(plain)]
fn is_plain_inside(name: &str, document: &Document) -> bool
    ensures { result ≡ is_plain_operand (named operators name.now) (document_value document.now) }
{
    if is_element_match(name) {
        return is_plain_element(document);
    }
    if is_negation(name) {
        are_plain_operators(document)
    } else {
        true
    }
}

// The same for the condition on an element.
#[cycle(plain)]
fn is_plain_element(document: &Document) -> bool
    ensures { result ≡ (if is_operator_document document.now then are_plain_operators document.now else is_plain_filter document.now) }
{
    if is_operator_document(document) {
        are_plain_operators(document)
    } else {
        is_plain_filter(document)
    }
}

// Returns whether a name is that of `$elemMatch`.
fn is_element_match(name: &str) -> bool
    ensures { result ≡ bytes_eq (codes "$elemMatch") name.now }
{
    "$elemMatch" == name
}

// Returns whether a name is that of `$not`.
fn is_negation(name: &str) -> bool
    ensures { result ≡ bytes_eq (codes "$not") name.now }
{
    "$not" == name
}

// Returns whether an operator is that of equality.
#[tactic(auto, using(crate::proofs::FilterNames::equality_named))]
fn is_equality(operator: &str) -> bool
    ensures { result ≡ is_equality (named operators operator.now) }
{
    "$eq" == operator
}

// Appends a field of that name with the value. Returns `Memory` if memory runs out.
#[tactic(auto, using(bson_model::proofs::Joined::joined_one))]
fn push_value(name: &Name, value: &Value, start: &mut Document) -> Result<(), Memory>
    ensures { OnOk result ((rest : Fields) → joined start.new rest ≡ joined start.old (field name.now (datum_of value.now) rest)) }
{
    start.push(name.copy()?, value.copy()?)
}

// Appends a field of that name for each `$eq`. Returns `Memory` if memory runs out.
fn push_operands(name: &Name, operators: &Document, start: &mut Document) -> Result<(), Memory>
    ensures { OnOk result ((rest : Fields) → joined start.new rest ≡ joined start.old (operands_before name.now operators.now rest)) }
{
    for field in operators.fields() {
        if is_equality(field.name.as_str()) {
            push_value(name, &field.value, start)?;
        }
    }
    Ok(())
}

// Appends the equalities of one field. Returns `Memory` if memory runs out.
fn push_equalities(name: &Name, value: &Value, start: &mut Document) -> Result<(), Memory>
    ensures { OnOk result ((rest : Fields) → joined start.new rest ≡ joined start.old (equalities_before name.now (datum_of value.now) rest)) }
{
    match value {
        Value::Doc(document) => {
            if is_operator_document(document) {
                push_operands(name, document, start)
            } else {
                push_value(name, value, start)
            }
        }
        _ => push_value(name, value, start),
    }
}

/// Returns the equalities at the top of a filter, in its order, or `Memory` if memory runs out.
pub fn equalities(alloc: Global, filter: &Document) -> Result<Document, Memory>
    ensures { IfOk result (λ d. d ≡ equalities_in filter.now) }
{
    let mut start = Document::new(alloc);
    for field in filter.fields() {
        push_equalities(&field.name, &field.value, &mut start)?;
    }
    Ok(start)
}
