//! Reading documents as queries. Fields are read from the left, and of each first its name, then its operand by itself, then how
//! deep the query or the operator document is in it, then what it has.

ghost use Rattle.std.specs.Prelude.{◌≡◌, Ok, filter_map, if◌then◌else◌};
ghost use Rattle.bson_values.specs.Tree.{document_value};
ghost use Rattle.bson_values.specs.View.{datum_of};
ghost use Rattle.query_model.specs.Paths.{as_document, begins_with_dollar, elements};
ghost use Rattle.query_model.specs.Reading.{read_clauses, read_connective, read_path_clause, read_queries, read_test, read_tests, read_tests_within, read_within};
ghost use Rattle.match_expr.specs.FieldTests.{read_clause_at, read_field_test};
ghost use Rattle.match_expr.specs.OperatorNames.{nested_of};
ghost use Rattle.field_paths.specs.ReadFaults.{Gives};
ghost use Rattle.match_expr.specs.View.{clause_of, test_of};

use crate::operators;
use crate::operators::{Nested, Operator};
use crate::tree::{Clause, Clauses, Queries, Test, Tests};
use bson_values::{Array, Document, Value};
use field_paths::{ParseFault, Path, parse_path};
use std::alloc::Global;

/// Returns the query that a document is, with so many levels left for it and what is in it. Fails with its first fault, with `Deep` where
/// no level is left, and with `Memory` if memory runs out.
#[cycle(parse)]
pub fn parse_within(
    alloc: Global,
    levels: usize,
    document: &Document,
) -> Result<Clauses, ParseFault>
    ensures gives { Gives (λ q. q) result (read_within levels document.now) }
{
    if levels == 0 {
        return Err(ParseFault::Deep);
    }
    parse_clauses(alloc, levels - 1, document)
}

// Returns the clauses of a query, with so many levels left for what is in them.
#[cycle(parse)]
fn parse_clauses(alloc: Global, levels: usize, document: &Document) -> Result<Clauses, ParseFault>
    ensures gives { Gives (λ q. q) result (read_clauses (read_within levels) (read_tests_within levels) document.now) }
{
    let Ok(mut clauses) = Vec::with_capacity(alloc, document.len()) else {
        return Err(ParseFault::Memory);
    };
    for field in document.fields() {
        let clause = parse_clause(alloc, levels, field.name.as_str(), &field.value)?;
        clauses.push(clause)?;
    }
    Ok(Clauses { clauses })
}

// Reads one field of a query.
#[cycle(parse)]
fn parse_clause(
    alloc: Global,
    levels: usize,
    name: &str,
    value: &Value,
) -> Result<Clause, ParseFault>
    ensures gives { Gives clause_of result
        (if begins_with_dollar name.now then read_connective (read_within levels) (read_tests_within levels) name.now (datum_of value.now)
        else read_path_clause (read_within levels) (read_tests_within levels) name.now (datum_of value.now)) }
{
    if operators::begins_with_dollar(name) {
        return parse_connective(alloc, levels, name, value);
    }
    let path = parse_path(alloc, name)?;
    parse_asked(alloc, levels, path, value)
}

// Reads a field `$and`, `$or` or `$nor`.
#[cycle(parse)]
fn parse_connective(
    alloc: Global,
    levels: usize,
    name: &str,
    value: &Value,
) -> Result<Clause, ParseFault>
    ensures gives { Gives clause_of result (read_connective (read_within levels) (read_tests_within levels) name.now (datum_of value.now)) }
{
    let Some(connective) = operators::connective_named(name) else {
        return Err(ParseFault::UnknownOperator);
    };
    let Some(documents) = operators::some_documents(value) else {
        return Err(ParseFault::BadOperand);
    };
    let queries = parse_queries(alloc, levels, documents)?;
    Ok(Clause::Joined {
        connective,
        queries,
    })
}

// Returns the queries that the documents of an array are.
#[cycle(parse)]
fn parse_queries(alloc: Global, levels: usize, documents: &Array) -> Result<Queries, ParseFault>
    ensures gives { Gives (λ q. q) result
        (read_queries (read_within levels) (read_tests_within levels) (filter_map as_document (elements documents.now))) }
{
    let Ok(mut queries) = Vec::with_capacity(alloc, documents.len()) else {
        return Err(ParseFault::Memory);
    };
    for value in documents.values() {
        let Value::Doc(document) = value else {
            continue;
        };
        let query = parse_within(alloc, levels, document)?;
        queries.push(query)?;
    }
    Ok(Queries { queries })
}

// Returns the tests of a path: those of an operator document, or equality with any other value.
#[cycle(parse)]
fn parse_asked(
    alloc: Global,
    levels: usize,
    path: Path,
    value: &Value,
) -> Result<Clause, ParseFault>
    ensures gives { Gives clause_of result (read_clause_at (read_within levels) (read_tests_within levels) path (datum_of value.now)) }
{
    if let Some(document) = operators::operator_document(value) {
        let tests = parse_tests(alloc, levels, document)?;
        return Ok(Clause::At { path, tests });
    }
    let operand = value.copy()?;
    Ok(Clause::Equal { path, operand })
}

// Returns the tests of an operator document inside another, with so many levels left for it and what is in it.
#[cycle(parse)]
fn parse_tests_within(
    alloc: Global,
    levels: usize,
    document: &Document,
) -> Result<Tests, ParseFault>
    ensures gives { Gives (λ t. t) result (read_tests_within levels document.now) }
{
    if levels == 0 {
        return Err(ParseFault::Deep);
    }
    parse_tests(alloc, levels - 1, document)
}

// Returns the tests of an operator document, with so many levels left for what is in it.
#[cycle(parse)]
fn parse_tests(alloc: Global, levels: usize, document: &Document) -> Result<Tests, ParseFault>
    ensures gives { Gives (λ t. t) result (read_tests (read_within levels) (read_tests_within levels) document.now) }
{
    let Ok(mut tests) = Vec::with_capacity(alloc, document.len()) else {
        return Err(ParseFault::Memory);
    };
    for field in document.fields() {
        let test = parse_test(alloc, levels, field.name.as_str(), &field.value)?;
        tests.push(test)?;
    }
    Ok(Tests { tests })
}

// Reads one field of an operator document.
#[cycle(parse)]
fn parse_test(alloc: Global, levels: usize, name: &str, value: &Value) -> Result<Test, ParseFault>
    ensures gives { Gives test_of result (read_field_test (read_within levels) (read_tests_within levels) name.now (datum_of value.now)) }
{
    match operators::operator_named(name) {
        Some(Operator::Plain(operator)) => operators::plain_test(alloc, operator, value),
        Some(Operator::Nested(operator)) => match value {
            Value::Doc(document) => parse_nested(alloc, levels, operator, document),
            _ => Err(ParseFault::BadOperand),
        },
        None => Err(ParseFault::UnknownOperator),
    }
}

// `$elemMatch` and `$not` of a document.
#[cycle(parse)]
fn parse_nested(
    alloc: Global,
    levels: usize,
    operator: Nested,
    document: &Document,
) -> Result<Test, ParseFault>
    ensures gives { Gives test_of result (read_test (read_within levels) (read_tests_within levels) (nested_of operator) (document_value document.now)) }
{
    if operators::is_operator_document(document) {
        let tests = parse_tests_within(alloc, levels, document)?;
        return match operator {
            Nested::ElemMatch => Ok(Test::ElementTests(tests)),
            Nested::Not => Ok(Test::Not(tests)),
        };
    }
    match operator {
        Nested::ElemMatch => {
            let query = parse_within(alloc, levels, document)?;
            Ok(Test::ElementQuery(query))
        }
        Nested::Not => Err(ParseFault::BadOperand),
    }
}
