//! Rows on whether two documents are the same data.

use bson_values::{Document, read};
use fixtures::{RowFault, Rows, bytes_of, field};
use std::alloc::Global;

/// `DOCUMENT | DOCUMENT | same` or `other`: whether both are the same data. Each is the same data as its copy.
#[derive(Drop)]
pub struct Equality;

impl Rows for Equality {
    fn holds(&mut self, alloc: Global, row: &str) -> Result<bool, RowFault> {
        let (first, rest) = field(row);
        let (second, wanted) = field(rest);
        let first = spelled_document(alloc, first)?;
        let second = spelled_document(alloc, second)?;
        let is_copied = is_its_copy(&first)? && is_its_copy(&second)?;
        let found = first.same_data(&second);
        let turned = second.same_data(&first);
        match wanted {
            "same" => Ok(is_copied && found && turned),
            "other" => Ok(is_copied && !found && !turned),
            _ => Err(RowFault::Form),
        }
    }
}

fn is_its_copy(document: &Document) -> Result<bool, RowFault> {
    let copy = document.copy()?;
    Ok(document.same_data(&copy))
}

/// Returns the document that these words encode. Returns `Form` where they encode none, and `Memory` if memory runs out.
pub fn spelled_document(alloc: Global, words: &str) -> Result<Document, RowFault> {
    let bytes = bytes_of(alloc, words)?;
    let (document, length) = read(alloc, &bytes)?;
    if length == bytes.len() {
        Ok(document)
    } else {
        Err(RowFault::Form)
    }
}
