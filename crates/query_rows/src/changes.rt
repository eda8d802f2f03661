//! Documents that are changes, and documents that are not.

use crate::update_words::{document_of, parse_word};
use bson_values::Document;
use fixtures::{RowFault, Rows, field};
use std::alloc::Global;
use update_ops::Update;

/// `DOCUMENT | replacement` or `edits`, or instead its first fault, in a word.
#[derive(Drop)]
pub struct Changes;

impl Rows for Changes {
    fn holds(&mut self, alloc: Global, row: &str) -> Result<bool, RowFault> {
        let (words, wanted) = field(row);
        let document = document_of(alloc, words)?;
        Ok(word_of(alloc, &document) == wanted)
    }
}

// Returns what a document reads as, in a word.
fn word_of(alloc: Global, document: &Document) -> &'static str {
    match Update::parse(alloc, document) {
        Ok(Update::Replacement(_)) => "replacement",
        Ok(Update::Edits(_)) => "edits",
        Err(fault) => parse_word(fault),
    }
}
