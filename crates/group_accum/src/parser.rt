//! Reading documents as specifications of groups: the fields in order, and then that there is one `_id`.

ghost use Rattle.std.specs.Prelude.{◌≡◌, IfErr, OnOk, Result, codes, option_map};
ghost use Rattle.std.specs.Str.{bytes_eq};
ghost use Rattle.bson_model.specs.Tree.{string_value};
ghost use Rattle.bson_values.specs.View.{datum_of};
ghost use Rattle.field_paths.specs.ReadFaults.{Fails, Gives};
ghost use Rattle.query_model.specs.Queries.{QueryFault, named};
ghost use Rattle.pipeline_model.specs.Operands.{read_operand};
ghost use Rattle.pipeline_model.specs.GroupSpecs.{GroupParts, accumulate, accumulators, count_name, read_accumulator, read_group, read_group_field, read_group_fields, sum_name, with_one_key};
ghost use Rattle.group_accum.specs.View.{accumulator_of, direction_of, name_of, operand_of};
ghost use Rattle.group_accum.specs.PartReading.{parts_of, read_extreme, read_named, then_field, with_parts};

use crate::spec::{Accumulator, Extreme, GroupField, GroupSpec, Operand};
use bson_values::{Document, Field, Text, Value};
use field_paths::{ParseFault, parse_path};
use std::alloc::Global;

// An accumulator without its operand.
#[derive(Clone, Copy)]
pub(crate) enum AccumulatorName {
    Sum,
    Min,
    Max,
    Count,
}

// The keys and the other fields that were read.
#[derive(Drop)]
pub(crate) struct Parts {
    pub(crate) keys: Vec<Operand>,
    pub(crate) fields: Vec<GroupField>,
}

// Returns the operand that a text is: a path after a `$`, or the text itself.
fn parse_text(alloc: Global, text: &str) -> Result<Operand, ParseFault>
    ensures gives { Gives operand_of result (read_operand (string_value text.now)) }
{
    match text.strip_prefix('$') {
        Some(name) => {
            let path = parse_path(alloc, name)?;
            Ok(Operand::Path(path))
        }
        None => {
            let text = Text::of(alloc, text)?;
            Ok(Operand::Constant(Value::Text(text)))
        }
    }
}

// Returns the operand that a value is.
fn parse_operand(alloc: Global, value: &Value) -> Result<Operand, ParseFault>
    ensures gives { Gives operand_of result (read_operand (datum_of value.now)) }
{
    match value {
        Value::Text(text) => parse_text(alloc, text.as_str()),
        Value::Doc(_) | Value::Array(_) => Err(ParseFault::BadOperand),
        _ => Ok(Operand::Constant(value.copy()?)),
    }
}

// Returns the accumulator of that name.
fn accumulator_named(name: &str) -> Option<AccumulatorName>
    ensures { option_map name_of result ≡ named accumulators name.now }
{
    if "$sum" == name {
        Some(AccumulatorName::Sum)
    } else if "$min" == name {
        Some(AccumulatorName::Min)
    } else if "$max" == name {
        Some(AccumulatorName::Max)
    } else if "$count" == name {
        Some(AccumulatorName::Count)
    } else {
        None
    }
}

// Reads `$count`, whose operand is the document without fields.
fn parse_count(value: &Value) -> Result<Accumulator, ParseFault>
    ensures gives { Gives accumulator_of result (accumulate count_name (datum_of value.now)) }
{
    let Value::Doc(document) = value else {
        return Err(ParseFault::BadOperand);
    };
    match document.fields() {
        [] => Ok(Accumulator::Count),
        _ => Err(ParseFault::BadOperand),
    }
}

// Reads `$sum` with its operand.
fn parse_sum(alloc: Global, value: &Value) -> Result<Accumulator, ParseFault>
    ensures gives { Gives accumulator_of result (accumulate sum_name (datum_of value.now)) }
{
    let operand = parse_operand(alloc, value)?;
    Ok(Accumulator::Sum(operand))
}

// Reads `$min` or `$max` with its operand.
fn parse_extreme(alloc: Global, extreme: Extreme, value: &Value) -> Result<Accumulator, ParseFault>
    ensures gives { Gives accumulator_of result (read_extreme (direction_of extreme) (datum_of value.now)) }
{
    let operand = parse_operand(alloc, value)?;
    Ok(Accumulator::Extreme { extreme, operand })
}

// Returns the accumulator of that name with an operand.
fn accumulate(
    alloc: Global,
    name: AccumulatorName,
    value: &Value,
) -> Result<Accumulator, ParseFault>
    ensures gives { Gives accumulator_of result (accumulate (name_of name) (datum_of value.now)) }
{
    match name {
        AccumulatorName::Sum => parse_sum(alloc, value),
        AccumulatorName::Min => parse_extreme(alloc, Extreme::Least, value),
        AccumulatorName::Max => parse_extreme(alloc, Extreme::Greatest, value),
        AccumulatorName::Count => parse_count(value),
    }
}

// Returns the accumulator that a document of one field is.
fn parse_named(alloc: Global, field: &Field) -> Result<Accumulator, ParseFault>
    ensures gives { Gives accumulator_of result (read_named field.now.name (datum_of field.now.value)) }
{
    match accumulator_named(field.name.as_str()) {
        Some(name) => accumulate(alloc, name, &field.value),
        None => Err(ParseFault::UnknownOperator),
    }
}

// Returns the accumulator that a value is: a document of one field.
fn parse_accumulator(alloc: Global, value: &Value) -> Result<Accumulator, ParseFault>
    ensures gives { Gives accumulator_of result (read_accumulator (datum_of value.now)) }
{
    let Value::Doc(document) = value else {
        return Err(ParseFault::BadOperand);
    };
    match document.fields() {
        [field] => parse_named(alloc, field),
        [] => Err(ParseFault::BadOperand),
        [_, _, ..] => Err(ParseFault::BadOperand),
    }
}

// Returns whether a field is what documents are grouped by.
fn is_key(name: &str) -> bool
    ensures { result ≡ bytes_eq name.now (codes "_id") }
{
    name == "_id"
}

// Appends a field to the parts already read.
fn push_part(alloc: Global, field: &Field, parts: &mut Parts) -> Result<(), ParseFault>
    ensures pushed { OnOk result ((others : Result GroupParts QueryFault) → with_parts (parts_of parts.new) others
        ≡ with_parts (parts_of parts.old) (then_field (read_group_field field.now.name (datum_of field.now.value)) others)) }
    ensures fault { IfErr result (λ e. Fails e (read_group_field field.now.name (datum_of field.now.value))) }
{
    if is_key(field.name.as_str()) {
        let key = parse_operand(alloc, &field.value)?;
        parts.keys.push(key)?;
        return Ok(());
    }
    let accumulator = parse_accumulator(alloc, &field.value)?;
    let name = field.name.copy()?;
    parts.fields.push(GroupField { name, accumulator })?;
    Ok(())
}

// Returns the parts that the fields of a document are.
fn parse_parts(alloc: Global, document: &Document) -> Result<Parts, ParseFault>
    ensures gives { Gives parts_of result (read_group_fields document.now) }
{
    let mut parts = Parts {
        keys: Vec::new(alloc),
        fields: Vec::new(alloc),
    };
    for field in document.fields() {
        push_part(alloc, field, &mut parts)?;
    }
    Ok(parts)
}

// Returns the specification of parts with one key.
fn with_one_key(parts: Parts) -> Result<GroupSpec, ParseFault>
    ensures gives { Gives (λ s. s) result (with_one_key (parts_of parts)) }
{
    let Parts { mut keys, fields } = parts;
    let Some(key) = keys.pop() else {
        return Err(ParseFault::BadOperand);
    };
    if !keys.is_empty() {
        return Err(ParseFault::BadOperand);
    }
    Ok(GroupSpec { key, fields })
}

/// Returns the specification that a document is.
pub(crate) fn parse_group(alloc: Global, document: &Document) -> Result<GroupSpec, ParseFault>
    ensures gives { Gives (λ s. s) result (read_group document.now) }
{
    let parts = parse_parts(alloc, document)?;
    with_one_key(parts)
}
