//! Documents in the words of a row, and faults as words.

use bson_values::{Document, read};
use field_paths::{ParseFault, PathFault};
use fixtures::{RowFault, bytes_of};
use std::alloc::Global;
use update_ops::ApplyFault;

/// Returns the document that words encode. Returns `Form` where they encode none, and `Memory` if memory runs out.
pub fn document_of(alloc: Global, words: &str) -> Result<Document, RowFault> {
    let bytes = bytes_of(alloc, words)?;
    let (document, _length) = read(alloc, &bytes)?;
    Ok(document)
}

/// Returns the document that words encode, or none, where they are `none`.
pub fn document_if_any(alloc: Global, words: &str) -> Result<Option<Document>, RowFault> {
    if words == "none" {
        return Ok(None);
    }
    let document = document_of(alloc, words)?;
    Ok(Some(document))
}

/// Returns the word for a fault of reading.
pub fn parse_word(fault: ParseFault) -> &'static str {
    match fault {
        ParseFault::UnknownOperator => "operator",
        ParseFault::BadOperand => "operand",
        ParseFault::Path(PathFault::Empty) => "empty",
        ParseFault::Path(PathFault::Digits) => "digits",
        ParseFault::Path(PathFault::Dollar) => "dollar",
        ParseFault::Path(PathFault::Long) => "long",
        ParseFault::Path(PathFault::Memory) => "memory",
        ParseFault::Deep => "deep",
        ParseFault::Memory => "memory",
    }
}

/// Returns the word for a fault of a statement.
pub fn apply_word(fault: ApplyFault) -> &'static str {
    match fault {
        ApplyFault::Duplicate => "duplicate",
        ApplyFault::Immutable => "immutable",
        ApplyFault::Overflow => "overflow",
        ApplyFault::TooLarge => "too large",
        ApplyFault::NotNumber => "no number",
        ApplyFault::NotDocument => "no document",
        ApplyFault::Memory => "memory",
    }
}
