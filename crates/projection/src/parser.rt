//! Reading documents as projections: the fields in order, of each first its name and then its value, and then the whole.

ghost use Rattle.std.specs.Prelude.{◌≡◌, ◌||◌, List, codes};
ghost use Rattle.std.specs.List.{list_all};
ghost use Rattle.bson_model.specs.Tree.{string_value};
ghost use Rattle.bson_values.specs.View.{datum_of};
ghost use Rattle.field_paths.specs.ReadFaults.{Gives};
ghost use Rattle.pipeline_model.specs.Projections as model;
ghost use Rattle.pipeline_model.specs.Projections.{computes, has_rule, includes, is_excluding, is_projection, may_stand, read_rules, read_treatment, switch};
ghost use Rattle.projection.specs.RuleReading.{read_rule};
ghost use Rattle.projection.specs.View.{rule_of, rules_of, treatment_of};

use crate::rules::{Kind, NameRule, Treatment, has_rule};
use bson_values::{Document, Field, Value};
use field_paths::{ParseFault, parse_path};
use std::alloc::Global;

// Included or excluded.
fn switch(is_shown: bool) -> Treatment
    ensures { treatment_of result ≡ switch is_shown }
{
    if is_shown {
        Treatment::Include
    } else {
        Treatment::Exclude
    }
}

// Computed, from the path after the text's `$`.
fn parse_computed(alloc: Global, text: &str) -> Result<Treatment, ParseFault>
    ensures gives { Gives treatment_of result (read_treatment (string_value text.now)) }
{
    let Some(name) = text.strip_prefix('$') else {
        return Err(ParseFault::BadOperand);
    };
    let path = parse_path(alloc, name)?;
    Ok(Treatment::Compute(path))
}

// Returns what a value says to do with its field's name.
fn parse_treatment(alloc: Global, value: &Value) -> Result<Treatment, ParseFault>
    ensures gives { Gives treatment_of result (read_treatment (datum_of value.now)) }
{
    match value {
        Value::Bool(is_shown) => Ok(switch(is_shown.content)),
        Value::Int32(n) => Ok(switch(n.content != 0)),
        Value::Int64(n) => Ok(switch(*n != 0)),
        Value::Text(text) => parse_computed(alloc, text.as_str()),
        _ => Err(ParseFault::BadOperand),
    }
}

// Returns the rule that a field is.
fn parse_rule(alloc: Global, field: &Field) -> Result<NameRule, ParseFault>
    ensures gives { Gives rule_of result (read_rule field.now.name (datum_of field.now.value)) }
{
    let path = parse_path(alloc, field.name.as_str())?;
    if path.parts().len() != 1 {
        return Err(ParseFault::BadOperand);
    }
    let treatment = parse_treatment(alloc, &field.value)?;
    let name = field.name.copy()?;
    Ok(NameRule { name, treatment })
}

/// Returns the rules that the fields of a document are.
pub fn parse_rules(alloc: Global, document: &Document) -> Result<Vec<NameRule>, ParseFault>
    ensures gives { Gives (λ rules. rules_of rules.items) result (read_rules document.now) }
{
    let mut rules = Vec::new(alloc);
    for field in document.fields() {
        let rule = parse_rule(alloc, field)?;
        rules.push(rule)?;
    }
    Ok(rules)
}

// Returns whether a rule is allowed where names are included or computed: no other name than `_id` is excluded, nor is `_id` where it has another rule too.
fn may_stand(rule: &NameRule, is_id_shown: bool) -> bool
    ensures { (rules : List model.NameRule) →
        is_id_shown ≡ (has_rule includes rules (codes "_id") || has_rule computes rules (codes "_id")) → result ≡ may_stand rules (rule_of rule.now) }
{
    !rule.treatment.has_kind(Kind::Exclude) || (rule.name.as_str() == "_id" && !is_id_shown)
}

// Returns whether each rule is allowed where names are included or computed.
fn all_may_stand(rules: &[NameRule]) -> bool
    ensures { result ≡ list_all (may_stand (rules_of rules.now)) (rules_of rules.now) }
{
    let is_id_shown = has_rule(rules, Kind::Include, "_id")
        || has_rule(rules, Kind::Compute, "_id");
    for rule in rules {
        if !may_stand(rule, is_id_shown) {
            return false;
        }
    }
    true
}

/// Returns whether there are rules and they are allowed together, given whether each excludes its name.
pub fn is_projection(rules: &[NameRule], all_excluded: bool) -> bool
    requires { all_excluded ≡ is_excluding (rules_of rules.now) }
    ensures { result ≡ is_projection (rules_of rules.now) }
{
    !rules.is_empty() && (all_excluded || all_may_stand(rules))
}
