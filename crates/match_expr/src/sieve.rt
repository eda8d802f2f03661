//! An equality that is tested before a filter.

ghost use Rattle.std.specs.Prelude.{◌≡◌, IfSome, true};
ghost use Rattle.bson_values.specs.Tree.{Fields};
ghost use Rattle.bson_values.specs.View.{datum_of};
ghost use Rattle.query_model.specs.Holds.{clause_holds, holds, is_null};
ghost use Rattle.match_expr.specs.Sieves.{NeedsEqual, lets_pass};
ghost use Rattle.match_expr.specs.View.{clause_of};

use crate::expr::Expr;
use crate::tests::Equals;
use crate::tree::{Clause, Test, Tests};
use bson_values::{Document, Value};
use field_paths::{Path, any_at};

/// A path and a value that equals one there, or an element of one, in each document that matches a filter. To test it alone takes
/// a part of what the filter takes.
#[derive(Clone, Copy, Drop)]
pub struct Sieve<'a> {
    path: &'a Path,
    operand: &'a Value,
}

impl<'a> Sieve<'a> {
    /// Returns whether the document has such a value. Takes no memory.
    #[tactic(auto, using(crate::proofs::Candidates::at_path))]
    pub fn lets_pass(&self, document: &Document) -> bool
        ensures { result ≡ lets_pass self.now document.now }
    {
        let operand = self.operand;
        any_at(self.path, document, &Equals { operand })
    }
}

// Returns whether a value is null.
fn is_null(value: &Value) -> bool
    ensures { result ≡ is_null (datum_of value.now) }
{
    matches!(value, Value::Null)
}

// Returns what tests begin with, if that is an equality with a value that is not null.
fn first_equality(tests: &Tests) -> Option<&Value>
    ensures { IfSome result (λ x. NeedsEqual tests.now (datum_of x.now)) }
{
    match tests.tests().split_first() {
        Some((Test::Eq(operand), _rest)) => {
            if is_null(operand) {
                None
            } else {
                Some(operand)
            }
        }
        _ => None,
    }
}

// Returns the sieve of a clause.
fn clause_sieve(clause: &Clause) -> Option<Sieve<'_>>
    ensures { IfSome result (λ s. (document : Fields) → clause_holds (clause_of clause.now) document ≡ true → lets_pass s document ≡ true) }
{
    match clause {
        Clause::At { path, tests } => {
            let operand = first_equality(tests)?;
            Some(Sieve { path, operand })
        }
        Clause::Equal { path, operand } => {
            if !is_null(operand) {
                Some(Sieve { path, operand })
            } else {
                None
            }
        }
        Clause::Joined { .. } => None,
    }
}

/// Returns the equality that the filter begins with, if it begins with one, and not with null.
pub fn sieve_of(filter: &Expr) -> Option<Sieve<'_>>
    ensures { IfSome result (λ s. (document : Fields) → holds filter.now document ≡ true → lets_pass s document ≡ true) }
{
    match filter.clauses().split_first() {
        Some((clause, _rest)) => clause_sieve(clause),
        None => None,
    }
}
