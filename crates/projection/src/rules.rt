//! Projections as rules for names.

ghost use Rattle.std.specs.Prelude.{◌≡◌};
ghost use Rattle.pipeline_model.specs.Projections.{has_rule, is_excluding};
ghost use Rattle.projection.specs.View.{has_kind, rules_of, treatment_of};

use bson_values::Name;
use field_paths::Path;

/// What a projection does with a name.
#[derive(Drop)]
pub enum Treatment {
    Include,
    Exclude,
    /// The value at a path replaces it.
    Compute(Path),
}

/// A treatment without its path.
#[derive(Clone, Copy)]
pub enum Kind {
    Include,
    Exclude,
    Compute,
}

/// What a projection does with the fields of one name.
#[derive(Drop)]
pub struct NameRule {
    pub name: Name,
    pub treatment: Treatment,
}

impl Treatment {
    // Returns whether it is of that kind.
    pub fn has_kind(&self, kind: Kind) -> bool
        ensures { result ≡ has_kind kind (treatment_of self.now) }
    {
        match (kind, self) {
            (Kind::Include, Treatment::Include) => true,
            (Kind::Exclude, Treatment::Exclude) => true,
            (Kind::Compute, Treatment::Compute(_)) => true,
            _ => false,
        }
    }
}

/// Returns whether there is a rule of that name and that kind.
pub fn has_rule(rules: &[NameRule], kind: Kind, name: &str) -> bool
    ensures { result ≡ has_rule (has_kind kind) (rules_of rules.now) name.now }
{
    for rule in rules {
        if rule.name.as_str() == name && rule.treatment.has_kind(kind) {
            return true;
        }
    }
    false
}

/// Returns whether each rule excludes its name.
pub fn is_excluding(rules: &[NameRule]) -> bool
    ensures { result ≡ is_excluding (rules_of rules.now) }
{
    for rule in rules {
        if !rule.treatment.has_kind(Kind::Exclude) {
            return false;
        }
    }
    true
}
