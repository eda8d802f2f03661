//! Whether a query holds of a document. Nothing here takes memory, parses or builds a list.

ghost use Rattle.std.specs.Prelude.{◌≡◌, ◌∷◌};
ghost use Rattle.std.specs.List.{list_any};
ghost use Rattle.bson_values.specs.Tree.{array_value, document_value};
ghost use Rattle.bson_values.specs.View.{datum_of};
ghost use Rattle.query_model.specs.Holds.{clause_holds, holds, test_holds, tests_hold};
ghost use Rattle.query_model.specs.Paths.{elements, values_from};
ghost use Rattle.match_expr.specs.Elements.{element_passes, same_answer, some_answer, value_passes};
ghost use Rattle.match_expr.specs.Looks.{found_of};
ghost use Rattle.match_expr.specs.View.{clause_of, test_of};

use crate::tests;
use crate::tests::{Comparison, Place};
use crate::tree::{Clause, Clauses, Connective, Queries, Test, Tests};
use bson_values::{Array, Document, Text, Value};

/// Returns whether the document matches the query.
#[cycle(holds)]
pub fn query_holds(query: &Clauses, document: &Document) -> bool
    ensures { result ≡ holds query.now document.now }
{
    for clause in query.clauses() {
        if !clause_holds(clause, document) {
            return false;
        }
    }
    true
}

// Returns whether the document matches one clause.
#[cycle(holds)]
#[tactic(auto, using(crate::proofs::Elemental::some_hold, crate::proofs::Elemental::none_fails))]
fn clause_holds(clause: &Clause, document: &Document) -> bool
    ensures { result ≡ clause_holds (clause_of clause.now) document.now }
{
    match clause {
        Clause::At { path, tests } => tests_hold(tests, &Place::At { path, document }),
        Clause::Equal { path, operand } => tests::is_equal(operand, &Place::At { path, document }),
        Clause::Joined {
            connective,
            queries,
        } => match connective {
            Connective::And => !some_answer(queries, document, false),
            Connective::Or => some_answer(queries, document, true),
            Connective::Nor => !some_answer(queries, document, true),
        },
    }
}

// Returns whether one of the queries has this result.
#[cycle(holds)]
fn some_answer(queries: &Queries, document: &Document, answer: bool) -> bool
    ensures { result ≡ some_answer answer queries.now document.now }
{
    for query in queries.queries() {
        if is_answer(answer, query_holds(query, document)) {
            return true;
        }
    }
    false
}

// Returns whether a query that matches so has this result.
fn is_answer(answer: bool, holds: bool) -> bool
    ensures { result ≡ same_answer answer holds }
{
    if answer { holds } else { !holds }
}

// Returns whether the tests hold of what is there.
#[cycle(holds)]
fn tests_hold(tests: &Tests, place: &Place) -> bool
    ensures { result ≡ tests_hold tests.now (found_of place.now) }
{
    for test in tests.tests() {
        if !test_holds(test, place) {
            return false;
        }
    }
    true
}

// Returns whether one test holds.
#[cycle(holds)]
#[tactic(auto, using(crate::proofs::Elemental::query_passes, crate::proofs::Elemental::tests_pass))]
fn test_holds(test: &Test, place: &Place) -> bool
    ensures { result ≡ test_holds (test_of test.now) (found_of place.now) }
{
    match test {
        Test::Eq(operand) => tests::is_equal(operand, place),
        Test::Ne(operand) => !tests::is_equal(operand, place),
        Test::Gt(operand) => tests::compares(Comparison::Greater, operand, place),
        Test::Gte(operand) => tests::compares_or_null(Comparison::GreaterOrEqual, operand, place),
        Test::Lt(operand) => tests::compares(Comparison::Less, operand, place),
        Test::Lte(operand) => tests::compares_or_null(Comparison::LessOrEqual, operand, place),
        Test::In(operands) => tests::equals_one(operands, place),
        Test::Nin(operands) => !tests::equals_one(operands, place),
        Test::All(operands) => tests::equals_all(operands, place),
        Test::Size(n) => tests::has_size(*n, place),
        Test::Exists(expected) => tests::exists(*expected, place),
        Test::ElementQuery(_) => any_element(test, place),
        Test::ElementTests(_) => any_element(test, place),
        Test::Not(tests) => !tests_hold(tests, place),
    }
}

// Returns whether an element of the arrays that are there passes a test of elements.
#[cycle(holds)]
fn any_element(test: &Test, place: &Place) -> bool
    ensures { result ≡ list_any (value_passes (test_of test.now)) (found_of place.now).values }
{
    match place {
        Place::At { path, document } => match path.parts().split_first() {
            Some((part, others)) => any_in_document(part, others, document, test),
            None => false,
        },
        Place::Alone(value) => has_element(value, test),
    }
}

// Returns whether one passes among the values at the path from a value on.
#[cycle(holds)]
fn any_from(parts: &[Text], value: &Value, test: &Test) -> bool
    ensures { result ≡ list_any (value_passes (test_of test.now)) (values_from parts.now (datum_of value.now)) }
{
    let Some((part, others)) = parts.split_first() else {
        return has_element(value, test);
    };
    match value {
        Value::Doc(document) => any_in_document(part, others, document, test),
        Value::Array(array) => any_in_array(part, others, array, test),
        _ => false,
    }
}

// Returns the same from the first field of that name on.
#[cycle(holds)]
fn any_in_document(part: &Text, others: &[Text], document: &Document, test: &Test) -> bool
    ensures { result ≡ list_any (value_passes (test_of test.now)) (values_from (part.now ∷ others.now) (document_value document.now)) }
{
    match document.get(part.as_str()) {
        Some(value) => any_from(others, value, test),
        None => false,
    }
}

// Returns the same of the documents in an array.
#[cycle(holds)]
fn any_in_array(part: &Text, others: &[Text], array: &Array, test: &Test) -> bool
    ensures { result ≡ list_any (value_passes (test_of test.now)) (values_from (part.now ∷ others.now) (array_value array.now)) }
{
    for value in array.values() {
        if let Value::Doc(document) = value {
            if any_in_document(part, others, document, test) {
                return true;
            }
        }
    }
    false
}

// Returns whether a value is an array with an element that passes.
#[cycle(holds)]
fn has_element(value: &Value, test: &Test) -> bool
    ensures { result ≡ value_passes (test_of test.now) (datum_of value.now) }
{
    match value {
        Value::Array(array) => any_passes(array, test),
        _ => false,
    }
}

// Returns whether an element of an array passes.
#[cycle(holds)]
fn any_passes(array: &Array, test: &Test) -> bool
    ensures { result ≡ list_any (element_passes (test_of test.now)) (elements array.now) }
{
    for value in array.values() {
        if element_passes(value, test) {
            return true;
        }
    }
    false
}

// Returns whether an element passes.
#[cycle(holds)]
fn element_passes(value: &Value, test: &Test) -> bool
    ensures { result ≡ element_passes (test_of test.now) (datum_of value.now) }
{
    match test {
        Test::ElementQuery(query) => match value {
            Value::Doc(document) => query_holds(query, document),
            _ => false,
        },
        Test::ElementTests(tests) => tests_hold(tests, &Place::Alone(value)),
        _ => false,
    }
}
