//! The key that a filter targets (MongoDB manual, "Targeted Operations vs. Broadcast Operations").

ghost use Rattle.std.specs.Prelude.{◌≡◌, IfOk, None, Some, if◌then◌else◌, option_map};
ghost use Rattle.bson_values.specs.View.{datum_of};
ghost use Rattle.query_model.specs.KeySpans.{equality_in, is_id, key_asked};
ghost use Rattle.query_model.specs.Queries as queries;
ghost use Rattle.value_compare.specs.Keys.{is_key};
ghost use Rattle.match_expr.specs.View.{clause_of};

use crate::tree::{Clause, Clauses, Test, Tests};
use bson_values::{Memory, Value};
use field_paths::Path;
use value_compare::Key;

/// Returns whether a path is `_id`.
pub fn is_id(path: &Path) -> bool
    ensures { result ≡ is_id path.now }
{
    match path.parts().split_first() {
        Some((part, others)) => others.is_empty() && part.as_str() == "_id",
        None => false,
    }
}

// Returns the operand of the first `$eq`.
fn equality_in(tests: &Tests) -> Option<&Value>
    ensures { option_map (λ v. datum_of v.now) result ≡ equality_in tests.now }
{
    for test in tests.tests() {
        if let Test::Eq(operand) = test {
            return Some(operand);
        }
    }
    None
}

// Returns the value that `_id` must equal by a clause: the operand of its first equality.
fn asked_by(clause: &Clause) -> Option<&Value>
    ensures { option_map (λ v. datum_of v.now) result ≡ key_asked (queries.clause (clause_of clause.now) queries.no_clauses) }
{
    match clause {
        Clause::At { path, tests } => {
            if is_id(path) {
                equality_in(tests)
            } else {
                None
            }
        }
        Clause::Equal { path, operand } => { if is_id(path) { Some(operand) } else { None } }
        Clause::Joined { .. } => None,
    }
}

/// Returns the operand of the first equality on `_id` at the top of a query.
pub fn key_asked(query: &Clauses) -> Option<&Value>
    ensures { option_map (λ v. datum_of v.now) result ≡ key_asked query.now }
{
    for clause in query.clauses() {
        if let Some(operand) = asked_by(clause) {
            return Some(operand);
        }
    }
    None
}

/// Returns a copy of a value as a key; none where it is no key, or `Memory` if memory runs out.
pub fn as_key(value: &Value) -> Result<Option<Key>, Memory>
    ensures { IfOk result (λ k. k ≡ (if is_key (datum_of value.now) then Some (datum_of value.now) else None)) }
{
    match Key::of(value.copy()?) {
        Ok(key) => Ok(Some(key)),
        Err(_) => Ok(None),
    }
}
