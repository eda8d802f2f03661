//! Reading arrays as pipelines: the stages in order.

ghost use Rattle.std.specs.Prelude.{◌≡◌, ◌<◌, ℤ, ◌||◌, ◌==◌, length, map, option_map};
ghost use Rattle.std.specs.List.{list_any};
ghost use Rattle.std.specs.Str.{byte};
ghost use Rattle.bson_model.specs.Tree.{string_value};
ghost use Rattle.bson_values.specs.View.{datum_of};
ghost use Rattle.field_paths.specs.ReadFaults.{Gives};
ghost use Rattle.query_model.specs.Paths.{begins_with_dollar, elements};
ghost use Rattle.query_model.specs.Queries.{named};
ghost use Rattle.pipeline_model.specs.Stages.{as_natural, count_name, group_name, limit_name, match_name, may_count, project_name, read_natural, read_pipeline, read_stage, read_stage_of, read_stages, skip_name, sort_name, stage_names};
ghost use Rattle.pipeline_lang.specs.View.{at_least_one, name_of, read_named, stage_of};

use crate::stage::{Pipeline, Stage};
use bson_values::{Array, Field, Name, Value};
use field_paths::ParseFault;
use group_accum::GroupSpec;
use match_expr::Expr;
use projection::Projection;
use sort_keys::SortSpec;
use std::alloc::Global;
use std::sync::Arc;

/// The greatest number of stages of a pipeline.
pub const MOST_STAGES: usize = 1000;

// A stage without its operand.
#[derive(Clone, Copy)]
pub(crate) enum StageName {
    Match,
    Project,
    Group,
    Sort,
    Skip,
    Limit,
    Count,
}

// Returns the stage of that name.
fn stage_named(name: &str) -> Option<StageName>
    ensures { option_map name_of result ≡ named stage_names name.now }
{
    if "$match" == name {
        Some(StageName::Match)
    } else if "$project" == name {
        Some(StageName::Project)
    } else if "$group" == name {
        Some(StageName::Group)
    } else if "$sort" == name {
        Some(StageName::Sort)
    } else if "$skip" == name {
        Some(StageName::Skip)
    } else if "$limit" == name {
        Some(StageName::Limit)
    } else if "$count" == name {
        Some(StageName::Count)
    } else {
        None
    }
}

// Returns the number, where it is not negative.
fn natural_of(number: i64) -> Result<u64, ParseFault>
    ensures gives { Gives (λ n. n) result (as_natural number) }
{
    if number < 0 {
        return Err(ParseFault::BadOperand);
    }
    Ok(number as u64)
}

// Returns the whole number that a value is, where it is not negative.
fn parse_natural(value: &Value) -> Result<u64, ParseFault>
    ensures gives { Gives (λ n. n) result (read_natural (datum_of value.now)) }
{
    match value {
        Value::Int32(n) => natural_of(i64::from(n.content)),
        Value::Int64(n) => natural_of(*n),
        _ => Err(ParseFault::BadOperand),
    }
}

fn parse_match(alloc: Global, value: &Value) -> Result<Stage, ParseFault>
    ensures gives { Gives stage_of result (read_stage_of match_name (datum_of value.now)) }
{
    let Value::Doc(document) = value else {
        return Err(ParseFault::BadOperand);
    };
    let asked = Expr::parse(alloc, document)?;
    let asked = Arc::new(alloc, asked)?;
    Ok(Stage::Match(asked))
}

fn parse_project(alloc: Global, value: &Value) -> Result<Stage, ParseFault>
    ensures gives { Gives stage_of result (read_stage_of project_name (datum_of value.now)) }
{
    let Value::Doc(document) = value else {
        return Err(ParseFault::BadOperand);
    };
    let rules = Projection::parse(alloc, document)?;
    let rules = Arc::new(alloc, rules)?;
    Ok(Stage::Project(rules))
}

fn parse_group(alloc: Global, value: &Value) -> Result<Stage, ParseFault>
    ensures gives { Gives stage_of result (read_stage_of group_name (datum_of value.now)) }
{
    let Value::Doc(document) = value else {
        return Err(ParseFault::BadOperand);
    };
    let spec = GroupSpec::parse(alloc, document)?;
    let spec = Arc::new(alloc, spec)?;
    Ok(Stage::Group(spec))
}

fn parse_sort(alloc: Global, value: &Value) -> Result<Stage, ParseFault>
    ensures gives { Gives stage_of result (read_stage_of sort_name (datum_of value.now)) }
{
    let Value::Doc(document) = value else {
        return Err(ParseFault::BadOperand);
    };
    let spec = SortSpec::parse(alloc, document)?;
    let spec = Arc::new(alloc, spec)?;
    Ok(Stage::Sort(spec))
}

fn parse_skip(value: &Value) -> Result<Stage, ParseFault>
    ensures gives { Gives stage_of result (read_stage_of skip_name (datum_of value.now)) }
{
    let number = parse_natural(value)?;
    Ok(Stage::Skip(number))
}

// Returns `$limit` with the number, which must not be 0.
fn some_of(number: u64) -> Result<Stage, ParseFault>
    ensures gives { Gives stage_of result (at_least_one number) }
{
    if number == 0 {
        return Err(ParseFault::BadOperand);
    }
    Ok(Stage::Limit(number))
}

fn parse_limit(value: &Value) -> Result<Stage, ParseFault>
    ensures gives { Gives stage_of result (read_stage_of limit_name (datum_of value.now)) }
{
    let number = parse_natural(value)?;
    some_of(number)
}

// Returns whether the bytes contain a dot or 00.
fn has_dot_or_zero(bytes: &[u8]) -> bool
    ensures { result ≡ list_any (λ b. (b == byte ".") || (b == 0)) bytes.now }
{
    for b in bytes {
        if *b == b'.' || *b == 0 {
            return true;
        }
    }
    false
}

// Returns whether a name begins with `$`.
fn begins_with_dollar(name: &[u8]) -> bool
    ensures { result ≡ begins_with_dollar name.now }
{
    match name.first() {
        Some(first) => *first == b'$',
        None => false,
    }
}

// Returns whether a count may be returned under that name.
fn may_count(name: &[u8]) -> bool
    ensures { result ≡ may_count name.now }
{
    !name.is_empty() && !begins_with_dollar(name) && !has_dot_or_zero(name)
}

#[tactic(auto, using(crate::proofs::StagesRead::counting_name))]
fn count_under(alloc: Global, name: &str) -> Result<Stage, ParseFault>
    ensures gives { Gives stage_of result (read_stage_of count_name (string_value name.now)) }
{
    if !may_count(name.as_bytes()) {
        return Err(ParseFault::BadOperand);
    }
    let name = Name::of(alloc, name)?;
    Ok(Stage::Count(name))
}

fn parse_count(alloc: Global, value: &Value) -> Result<Stage, ParseFault>
    ensures gives { Gives stage_of result (read_stage_of count_name (datum_of value.now)) }
{
    match value {
        Value::Text(text) => count_under(alloc, text.as_str()),
        _ => Err(ParseFault::BadOperand),
    }
}

// Returns the stage of that name with an operand.
fn parse_stage_of(alloc: Global, name: StageName, value: &Value) -> Result<Stage, ParseFault>
    ensures gives { Gives stage_of result (read_stage_of (name_of name) (datum_of value.now)) }
{
    match name {
        StageName::Match => parse_match(alloc, value),
        StageName::Project => parse_project(alloc, value),
        StageName::Group => parse_group(alloc, value),
        StageName::Sort => parse_sort(alloc, value),
        StageName::Skip => parse_skip(value),
        StageName::Limit => parse_limit(value),
        StageName::Count => parse_count(alloc, value),
    }
}

// Returns the stage that a document of one field is.
fn parse_named(alloc: Global, field: &Field) -> Result<Stage, ParseFault>
    ensures gives { Gives stage_of result (read_named field.now.name (datum_of field.now.value)) }
{
    match stage_named(field.name.as_str()) {
        Some(name) => parse_stage_of(alloc, name, &field.value),
        None => Err(ParseFault::UnknownOperator),
    }
}

// Returns the stage that a value is: a document of one field.
fn parse_stage(alloc: Global, value: &Value) -> Result<Stage, ParseFault>
    ensures gives { Gives stage_of result (read_stage (datum_of value.now)) }
{
    let Value::Doc(document) = value else {
        return Err(ParseFault::BadOperand);
    };
    match document.fields() {
        [field] => parse_named(alloc, field),
        [] => Err(ParseFault::BadOperand),
        [_, _, ..] => Err(ParseFault::BadOperand),
    }
}

// Returns the stages that the values of an array are.
fn parse_stages(alloc: Global, array: &Array) -> Result<Vec<Stage>, ParseFault>
    ensures gives { Gives (λ stages. map stage_of stages.items) result (read_stages (elements array.now)) }
{
    let mut stages = Vec::new(alloc);
    for value in array.values() {
        let stage = parse_stage(alloc, value)?;
        stages.push(stage)?;
    }
    Ok(stages)
}

/// Returns the pipeline that an array is.
#[tactic(auto, using(crate::proofs::StagesRead::too_many, crate::proofs::StagesRead::few_enough))]
pub(crate) fn parse_pipeline(alloc: Global, array: &Array) -> Result<Pipeline, ParseFault>
    ensures gives { Gives (λ p. p) result (read_pipeline array.now) }
{
    if array.len() > MOST_STAGES {
        return Err(ParseFault::BadOperand);
    }
    let stages = parse_stages(alloc, array)?;
    Ok(Pipeline { stages })
}
