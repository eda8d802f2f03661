//! Pipelines, documents and faults in the words of a row.

use bson_values::{Array, Document, Value};
use field_paths::{ParseFault, PathFault};
use fixtures::{RowFault, spelled_value};
use pipeline_eval::EvalFault;
use pipeline_lang::Pipeline;
use std::alloc::Global;
use std::sync::Arc;

/// Returns the array that words encode, the byte of its type first. Returns `Form` where they encode none, and `Memory` if memory runs out.
pub fn array_of(alloc: Global, words: &str) -> Result<Array, RowFault> {
    array_in(spelled_value(alloc, words)?)
}

/// Returns the array that a value is, or `Form` where it is none.
pub fn array_in(value: Value) -> Result<Array, RowFault> {
    match value {
        Value::Array(array) => Ok(array),
        _ => Err(RowFault::Form),
    }
}

/// Returns the documents of an array, in order. Returns `Form` where another value is in it, and `Memory` if memory runs out.
pub fn documents_in(alloc: Global, array: Array) -> Result<Vec<Arc<Document, Global>>, RowFault> {
    let mut documents = Vec::new(alloc);
    for value in array.into_values() {
        documents.push(document_in(alloc, value)?)?;
    }
    Ok(documents)
}

fn document_in(alloc: Global, value: Value) -> Result<Arc<Document, Global>, RowFault> {
    match value {
        Value::Doc(document) => Ok(Arc::new(alloc, document)?),
        _ => Err(RowFault::Form),
    }
}

/// Returns the documents of the array that words encode. Returns `Form` where they encode none, and `Memory` if memory runs out.
pub fn documents_of(alloc: Global, words: &str) -> Result<Vec<Arc<Document, Global>>, RowFault> {
    documents_in(alloc, array_of(alloc, words)?)
}

/// Returns the pipeline of the array that words encode. Returns `Form` where they encode none, and `Memory` if memory runs out.
pub fn pipeline_of(alloc: Global, words: &str) -> Result<Pipeline, RowFault> {
    let array = array_of(alloc, words)?;
    match Pipeline::parse(alloc, &array) {
        Ok(pipeline) => Ok(pipeline),
        Err(ParseFault::Memory) => Err(RowFault::Memory),
        Err(_fault) => Err(RowFault::Form),
    }
}

/// Returns why a row can't be used, where a half has no rows.
pub fn row_fault(fault: EvalFault) -> RowFault {
    match fault {
        EvalFault::Memory => RowFault::Memory,
        _ => RowFault::Form,
    }
}

/// Returns the word for a fault of reading.
pub fn parse_word(fault: ParseFault) -> &'static str {
    match fault {
        ParseFault::UnknownOperator => "operator",
        ParseFault::BadOperand => "operand",
        ParseFault::Path(PathFault::Empty) => "empty",
        ParseFault::Path(PathFault::Digits) => "digits",
        ParseFault::Path(PathFault::Dollar) => "dollar",
        ParseFault::Path(PathFault::Long) => "long",
        ParseFault::Path(PathFault::Memory) => "memory",
        ParseFault::Deep => "deep",
        ParseFault::Memory => "memory",
    }
}
