//! Nested queries and operator documents.

use crate::filter_documents::{document_of, word_of};
use bson_values::{Array, Document, Name, Value, is_name};
use fixtures::{RowFault, Rows, field, number};
use std::alloc::Global;

/// `NAME | DOCUMENT | N | WORD`: what the document reads as when it is nested in N operators of that name.
#[derive(Drop)]
pub struct Levels;

impl Rows for Levels {
    fn holds(&mut self, alloc: Global, row: &str) -> Result<bool, RowFault> {
        let (name, rest) = field(row);
        let (words, rest) = field(rest);
        let (count, wanted) = field(rest);
        let count = number::<u32>(count)?;
        let innermost = document_of(alloc, words)?;
        let document = filter_around(alloc, name, count, innermost)?;
        Ok(word_of(alloc, &document) == wanted)
    }
}

// Returns the filter with this number of operators of that name around a document.
fn filter_around(
    alloc: Global,
    name: &str,
    count: u32,
    innermost: Document,
) -> Result<Document, RowFault> {
    let mut document = innermost;
    for _ in 0..count {
        document = within(alloc, name, document)?;
    }
    match name {
        "$not" | "$elemMatch" => single(alloc, "a", Value::Doc(document)),
        _ => Ok(document),
    }
}

// Returns the document nested in one operator of that name.
fn within(alloc: Global, name: &str, document: Document) -> Result<Document, RowFault> {
    match name {
        "$and" | "$or" | "$nor" => within_connective(alloc, name, document),
        "$not" | "$elemMatch" => single(alloc, name, Value::Doc(document)),
        "query" => within_element(alloc, document),
        _ => Err(RowFault::Form),
    }
}

// `{name: [document]}`.
fn within_connective(alloc: Global, name: &str, document: Document) -> Result<Document, RowFault> {
    let mut queries = Array::new(alloc);
    queries.push(Value::Doc(document))?;
    single(alloc, name, Value::Array(queries))
}

// `{a: {$elemMatch: document}}`.
fn within_element(alloc: Global, document: Document) -> Result<Document, RowFault> {
    let tests = single(alloc, "$elemMatch", Value::Doc(document))?;
    single(alloc, "a", Value::Doc(tests))
}

// Returns the document with this one field. Returns `Form` where no field may have the name, and `Memory` if memory runs out.
fn single(alloc: Global, name: &str, value: Value) -> Result<Document, RowFault> {
    if !is_name(name) {
        return Err(RowFault::Form);
    }
    let name = Name::of(alloc, name)?;
    let mut document = Document::new(alloc);
    document.push(name, value)?;
    Ok(document)
}
