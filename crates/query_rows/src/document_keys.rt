//! The keys that documents require, before they are read as filters.

use crate::filter_documents::document_of;
use bson_values::{Document, Value};
use fixtures::{RowFault, Rows, field, spelled_value};
use match_expr::{Expr, key_asked, key_asked_in};
use std::alloc::Global;
use std::cmp::Ordering;
use value_compare::compare;

/// `DOCUMENT | VALUE`, or `none` in place of the value. Where the document is a filter, the filter requires the same key.
#[derive(Drop)]
pub struct DocumentKeys;

impl Rows for DocumentKeys {
    fn holds(&mut self, alloc: Global, row: &str) -> Result<bool, RowFault> {
        let (words, wanted) = field(row);
        let document = document_of(alloc, words)?;
        if wanted == "none" {
            return Ok(is_asked(alloc, &document, None));
        }
        let value = spelled_value(alloc, wanted)?;
        Ok(is_asked(alloc, &document, Some(&value)))
    }
}

// Returns whether the document requires this key, and the filter does, where it is one.
fn is_asked(alloc: Global, document: &Document, wanted: Option<&Value>) -> bool {
    is_same(key_asked_in(document), wanted)
        && match Expr::parse(alloc, document) {
            Ok(filter) => is_same(key_asked(&filter), wanted),
            Err(_fault) => true,
        }
}

// Returns whether both exist and are equal, or neither exists.
fn is_same(found: Option<&Value>, wanted: Option<&Value>) -> bool {
    match (found, wanted) {
        (Some(found), Some(wanted)) => compare(found, wanted) == Ordering::Equal,
        (None, None) => true,
        _ => false,
    }
}
