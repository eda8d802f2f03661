//! The names of operators, and the operands of those that hold no queries and no tests.

ghost use Rattle.std.specs.Prelude.{◌≡◌, Result, drop, filter_map, is_some, option_map};
ghost use Rattle.bson_values.specs.View.{datum_of};
ghost use Rattle.bson_values.specs.Tree.{Fields};
ghost use Rattle.query_model.specs.Paths.{as_document, begins_with_dollar, elements};
ghost use Rattle.query_model.specs.Queries as queries;
ghost use Rattle.query_model.specs.Queries.{Query, QueryFault, connectives, named, operators};
ghost use Rattle.query_model.specs.Reading.{all_documents, is_operator_document, read_test, some_documents};
ghost use Rattle.match_expr.specs.OperatorNames.{operator_document, operator_of, plain_of};
ghost use Rattle.field_paths.specs.ReadFaults.{Gives};
ghost use Rattle.match_expr.specs.View.{connective_of, test_of};

use crate::operand_list::OperandList;
use crate::tree::{Connective, Test};
use bson_values::{Array, Document, Value};
use field_paths::ParseFault;
use std::alloc::Global;

/// An operator whose operand holds no queries and no tests.
#[derive(Clone, Copy)]
pub enum Plain {
    Eq,
    Ne,
    Gt,
    Gte,
    Lt,
    Lte,
    In,
    Nin,
    All,
    Size,
    Exists,
}

/// An operator whose operand is a query or an operator document.
#[derive(Clone, Copy)]
pub enum Nested {
    ElemMatch,
    Not,
}

/// An operator of an operator document.
#[derive(Clone, Copy)]
pub enum Operator {
    Plain(Plain),
    Nested(Nested),
}

/// Returns the operator of that name.
pub fn operator_named(name: &str) -> Option<Operator>
    ensures { option_map operator_of result ≡ named operators name.now }
{
    if "$eq" == name {
        Some(Operator::Plain(Plain::Eq))
    } else if "$ne" == name {
        Some(Operator::Plain(Plain::Ne))
    } else if "$gt" == name {
        Some(Operator::Plain(Plain::Gt))
    } else if "$gte" == name {
        Some(Operator::Plain(Plain::Gte))
    } else if "$lt" == name {
        Some(Operator::Plain(Plain::Lt))
    } else if "$lte" == name {
        Some(Operator::Plain(Plain::Lte))
    } else {
        further_operator_named(name)
    }
}

// Returns the operator of that name, of those that do more than compare with one value.
fn further_operator_named(name: &str) -> Option<Operator>
    ensures { option_map operator_of result ≡ named (drop 6 operators) name.now }
{
    if "$in" == name {
        Some(Operator::Plain(Plain::In))
    } else if "$nin" == name {
        Some(Operator::Plain(Plain::Nin))
    } else if "$all" == name {
        Some(Operator::Plain(Plain::All))
    } else if "$size" == name {
        Some(Operator::Plain(Plain::Size))
    } else if "$exists" == name {
        Some(Operator::Plain(Plain::Exists))
    } else if "$elemMatch" == name {
        Some(Operator::Nested(Nested::ElemMatch))
    } else if "$not" == name {
        Some(Operator::Nested(Nested::Not))
    } else {
        None
    }
}

/// Returns the connective of that name.
pub fn connective_named(name: &str) -> Option<Connective>
    ensures { option_map connective_of result ≡ named connectives name.now }
{
    if "$and" == name {
        Some(Connective::And)
    } else if "$or" == name {
        Some(Connective::Or)
    } else if "$nor" == name {
        Some(Connective::Nor)
    } else {
        None
    }
}

/// Returns whether a name begins with `$`.
pub fn begins_with_dollar(name: &str) -> bool
    ensures { result ≡ begins_with_dollar name.now }
{
    match name.as_bytes().first() {
        Some(first) => *first == b'$',
        None => false,
    }
}

/// Returns whether the first name of a document begins with `$`.
pub fn is_operator_document(document: &Document) -> bool
    ensures { result ≡ is_operator_document document.now }
{
    match document.fields().first() {
        Some(field) => begins_with_dollar(field.name.as_str()),
        None => false,
    }
}

/// Returns the operator document that a value is, if it is one.
pub fn operator_document(value: &Value) -> Option<&Document>
    ensures { option_map (λ d. d.now) result ≡ operator_document (datum_of value.now) }
{
    match value {
        Value::Doc(document) => {
            if is_operator_document(document) {
                Some(document)
            } else {
                None
            }
        }
        _ => None,
    }
}

// Returns whether each value of an array is a document.
fn has_documents_only(array: &Array) -> bool
    ensures { result ≡ is_some (all_documents (elements array.now)) }
{
    for value in array.values() {
        let Value::Doc(_) = value else {
            return false;
        };
    }
    true
}

/// Returns the array of documents, with at least one, that a value is.
#[tactic(auto, using(crate::proofs::Operands::documents_alone))]
pub fn some_documents(value: &Value) -> Option<&Array>
    ensures { option_map (λ a. filter_map as_document (elements a.now)) result ≡ some_documents (datum_of value.now) }
{
    match value {
        Value::Array(array) => {
            if !array.is_empty() && has_documents_only(array) {
                Some(array)
            } else {
                None
            }
        }
        _ => None,
    }
}

/// Returns the test by an operator that holds no queries and no tests. Fails with `BadOperand` where it takes no such operand, and with
/// `Memory` if memory runs out.
pub fn plain_test(alloc: Global, operator: Plain, value: &Value) -> Result<Test, ParseFault>
    ensures gives { (inner : Fields → Result Query QueryFault) (tests : Fields → Result queries.Tests QueryFault) →
        Gives test_of result (read_test inner tests (plain_of operator) (datum_of value.now)) }
{
    match operator {
        Plain::Eq => Ok(Test::Eq(value.copy()?)),
        Plain::Ne => Ok(Test::Ne(value.copy()?)),
        Plain::Gt => Ok(Test::Gt(value.copy()?)),
        Plain::Gte => Ok(Test::Gte(value.copy()?)),
        Plain::Lt => Ok(Test::Lt(value.copy()?)),
        Plain::Lte => Ok(Test::Lte(value.copy()?)),
        Plain::In => match value {
            Value::Array(array) => Ok(Test::In(OperandList::of(alloc, array)?)),
            _ => Err(ParseFault::BadOperand),
        },
        Plain::Nin => match value {
            Value::Array(array) => Ok(Test::Nin(OperandList::of(alloc, array)?)),
            _ => Err(ParseFault::BadOperand),
        },
        Plain::All => match value {
            Value::Array(array) => Ok(Test::All(array.copy()?)),
            _ => Err(ParseFault::BadOperand),
        },
        Plain::Size => match value {
            Value::Int32(n) => Ok(Test::Size(i64::from(n.content))),
            Value::Int64(n) => Ok(Test::Size(*n)),
            _ => Err(ParseFault::BadOperand),
        },
        Plain::Exists => match value {
            Value::Bool(b) => Ok(Test::Exists(b.content)),
            _ => Err(ParseFault::BadOperand),
        },
    }
}
