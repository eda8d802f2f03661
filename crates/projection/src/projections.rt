//! Projections, and the document that they make.

ghost use Rattle.std.specs.Prelude.{◌≡◌, ◌≤◌, ◌∷◌, IfErr, IfOk, List, Ok, OnOk};
ghost use Rattle.field_paths.specs.ReadFaults.{Fails};
ghost use Rattle.bson_model.specs.Tree.{Fields, document_depth, field, joined};
ghost use Rattle.bson_values.specs.View.{datum_of};
ghost use Rattle.pipeline_model.specs.Projections as model;
ghost use Rattle.pipeline_model.specs.Projections.{computed_fields, fields_named, project, read_projection, stays};
ghost use Rattle.projection.specs.View.{rule_of};

use crate::parser::{is_projection, parse_rules};
use crate::rules::{Kind, NameRule, Treatment, has_rule, is_excluding};
use crate::values::value_at;
use bson_values::{Document, Field, Memory};
use field_paths::ParseFault;
use std::alloc::Global;
use std::marker::Model;

/// A projection, seen as its rules.
#[derive(Drop)]
pub struct Projection {
    pub(crate) rules: Vec<NameRule>,
    pub(crate) all_excluded: bool,
}

impl Model for Projection {
    ghost use Rattle.std.specs.Prelude.{◌≡◌, List};
    ghost use Rattle.pipeline_model.specs.Projections as model;
    ghost use Rattle.pipeline_model.specs.Projections.{is_excluding};
    ghost use Rattle.projection.specs.Code.{rules_code};
    ghost use Rattle.projection.specs.View.{rules_of};

    ghost Value = { List model.NameRule };

    ghost coded = { rules_code };

    ghost view = { λ p. rules_of p.rules.items };

    ghost invariant = { λ p. p.all_excluded ≡ is_excluding (rules_of p.rules.items) };
}

impl Projection {
    /// Returns the projection that a document is. Returns its first fault where it is none: of the fields in order, of each first its name (`Path`, then
    /// `BadOperand` where it has more than one part) and then its value (`BadOperand`, or `Path` for the path after its `$`); after them `BadOperand` for
    /// what concerns the whole. Returns `Memory` if memory runs out.
    pub fn parse(alloc: Global, document: &Document) -> Result<Projection, ParseFault>
        // A projection is what the definitions read from the document.
        ensures projection { IfOk result (λ p. read_projection document.now ≡ Ok p) }
        // A fault is the first, unless memory runs out.
        ensures fault { IfErr result (λ e. Fails e (read_projection document.now)) }
    {
        let rules = parse_rules(alloc, document)?;
        let all_excluded = is_excluding(&rules);
        if !is_projection(&rules, all_excluded) {
            return Err(ParseFault::BadOperand);
        }
        Ok(Projection {
            rules,
            all_excluded,
        })
    }
}

// Returns whether a stored field of that name is kept.
fn stays(projection: &Projection, name: &str) -> bool
    ensures { result ≡ stays projection.now name.now }
{
    let rules = projection.rules.as_slice();
    if projection.all_excluded {
        !has_rule(rules, Kind::Exclude, name)
    } else {
        !has_rule(rules, Kind::Compute, name)
            && (has_rule(rules, Kind::Include, name)
                || (name == "_id" && !has_rule(rules, Kind::Exclude, name)))
    }
}

// Appends a field, if it is kept.
#[tactic(auto, using(bson_model::proofs::Joined::joined_one))]
fn push_stored(projection: &Projection, stored: &Field, left: &mut Document) -> Result<(), Memory>
    ensures { OnOk result ((rest : Fields) → joined left.new (fields_named (stays projection.now) rest)
        ≡ joined left.old (fields_named (stays projection.now) (field stored.now.name (datum_of stored.now.value) rest))) }
{
    if !stays(projection, stored.name.as_str()) {
        return Ok(());
    }
    let name = stored.name.copy()?;
    let value = stored.value.copy()?;
    left.push(name, value)
}

// Appends the field that a rule computes, if it computes one and there is a value.
#[tactic(auto, using(bson_model::proofs::Joined::joined_one))]
fn push_computed(
    alloc: Global,
    rule: &NameRule,
    document: &Document,
    left: &mut Document,
) -> Result<(), Memory>
    ensures { OnOk result ((rules : List model.NameRule) → joined left.new (computed_fields rules document.now)
        ≡ joined left.old (computed_fields (rule_of rule.now ∷ rules) document.now)) }
{
    let Treatment::Compute(path) = &rule.treatment else {
        return Ok(());
    };
    let Some(value) = value_at(alloc, path, document)? else {
        return Ok(());
    };
    let name = rule.name.copy()?;
    left.push(name, value)
}

// Returns the stored fields that are kept.
fn stored_fields(
    alloc: Global,
    projection: &Projection,
    document: &Document,
) -> Result<Document, Memory>
    ensures { IfOk result (λ left. left ≡ fields_named (stays projection.now) document.now) }
{
    let mut left = Document::new(alloc);
    for stored in document.fields() {
        push_stored(projection, stored, &mut left)?;
    }
    Ok(left)
}

/// Returns the result of the projection of a document: the stored fields that are kept, in their order, and then the computed ones, in the projection's.
/// Returns `Memory` if memory runs out.
pub fn project(
    alloc: Global,
    projection: &Projection,
    document: &Document,
) -> Result<Document, Memory>
    ensures document { IfOk result (λ left. left ≡ project projection.now document.now) }
    // No document gets deeper.
    ensures depth { IfOk result (λ left. document_depth left ≤ document_depth document.now) }
{
    let mut left = stored_fields(alloc, projection, document)?;
    for rule in &projection.rules {
        push_computed(alloc, rule, document, &mut left)?;
    }
    Ok(left)
}
