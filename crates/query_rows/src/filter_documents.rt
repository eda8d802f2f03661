//! Documents that are filters, and documents that are not.

use bson_values::{Document, read};
use field_paths::{ParseFault, PathFault};
use fixtures::{RowFault, Rows, bytes_of, field};
use match_expr::Expr;
use std::alloc::Global;

/// Returns the document that words encode. Returns `Form` where they encode none, and `Memory` if memory runs out.
pub fn document_of(alloc: Global, words: &str) -> Result<Document, RowFault> {
    let bytes = bytes_of(alloc, words)?;
    let (document, _length) = read(alloc, &bytes)?;
    Ok(document)
}

/// Returns the filter that words encode. Returns `Form` where they encode none, and `Memory` if memory runs out.
pub fn filter_of(alloc: Global, words: &str) -> Result<Expr, RowFault> {
    let document = document_of(alloc, words)?;
    match Expr::parse(alloc, &document) {
        Ok(filter) => Ok(filter),
        Err(ParseFault::Memory) => Err(RowFault::Memory),
        Err(_fault) => Err(RowFault::Form),
    }
}

/// Returns what a document reads as, in a word.
pub fn word_of(alloc: Global, document: &Document) -> &'static str {
    match Expr::parse(alloc, document) {
        Ok(_filter) => "filter",
        Err(ParseFault::UnknownOperator) => "operator",
        Err(ParseFault::BadOperand) => "operand",
        Err(ParseFault::Path(PathFault::Empty)) => "empty",
        Err(ParseFault::Path(PathFault::Digits)) => "digits",
        Err(ParseFault::Path(PathFault::Dollar)) => "dollar",
        Err(ParseFault::Path(PathFault::Long)) => "long",
        Err(ParseFault::Path(PathFault::Memory)) => "memory",
        Err(ParseFault::Deep) => "deep",
        Err(ParseFault::Memory) => "memory",
    }
}

/// `DOCUMENT | filter`, or in place of `filter` its first fault, in a word.
#[derive(Drop)]
pub struct Faults;

impl Rows for Faults {
    fn holds(&mut self, alloc: Global, row: &str) -> Result<bool, RowFault> {
        let (words, wanted) = field(row);
        let document = document_of(alloc, words)?;
        Ok(word_of(alloc, &document) == wanted)
    }
}
