//! Which documents match a filter.

use crate::filter_documents::{document_of, filter_of};
use bson_values::Document;
use fixtures::{RowFault, Rows, field};
use match_expr::{Expr, holds};
use std::alloc::Global;

/// `DOCUMENT`: it is stored; `FILTER | ANSWERS`: which of the stored documents match it, in order, `y` or `n`.
#[derive(Drop)]
pub struct Filters {
    documents: Vec<Document>,
}

impl Filters {
    /// Without documents.
    pub fn new(alloc: Global) -> Filters {
        Filters {
            documents: Vec::new(alloc),
        }
    }
}

impl Rows for Filters {
    fn holds(&mut self, alloc: Global, row: &str) -> Result<bool, RowFault> {
        let (words, answers) = field(row);
        if answers.is_empty() {
            let document = document_of(alloc, words)?;
            self.documents.push(document)?;
            return Ok(true);
        }
        let filter = filter_of(alloc, words)?;
        Ok(are_answers(&filter, &self.documents, answers.as_bytes()))
    }
}

// Returns whether these are the answers, one for each document.
fn are_answers(filter: &Expr, documents: &[Document], answers: &[u8]) -> bool {
    let mut left = answers;
    for document in documents {
        let wanted = if holds(filter, document) { b'y' } else { b'n' };
        let Some((first, others)) = left.split_first() else {
            return false;
        };
        if *first != wanted {
            return false;
        }
        left = others;
    }
    left.is_empty()
}
