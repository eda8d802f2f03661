//! Outcomes of pipelines, compared with a row.

use crate::words::documents_of;
use bson_values::Document;
use fixtures::{RowFault, field};
use pipeline_eval::EvalFault;
use std::alloc::Global;
use std::sync::Arc;

/// The result of a pipeline.
pub type Outcome = Result<Vec<Arc<Document, Global>>, EvalFault>;

/// Returns whether an outcome is one that the rest of a row allows: `ordered | LIST | LIST ..`, one of these lists; `any | LIST | LIST ..`, the documents of
/// one of these lists in any order; or `overflow`. Returns `Form` where the row is in no such form, and `Memory` if memory runs out.
pub fn is_allowed(alloc: Global, outcome: &Outcome, wanted: &str) -> Result<bool, RowFault> {
    match outcome {
        Ok(documents) => is_listed(alloc, documents, wanted),
        Err(EvalFault::Overflow) => Ok(wanted == "overflow"),
        Err(EvalFault::TooMuch { .. }) => Ok(false),
        Err(EvalFault::Memory) => Err(RowFault::Memory),
    }
}

fn is_listed(
    alloc: Global,
    documents: &[Arc<Document, Global>],
    wanted: &str,
) -> Result<bool, RowFault> {
    let (order, lists) = field(wanted);
    match order {
        "ordered" => is_one_of(alloc, documents, true, lists),
        "any" => is_one_of(alloc, documents, false, lists),
        "overflow" => Ok(false),
        _ => Err(RowFault::Form),
    }
}

// Returns whether the documents are those of one of the lists, in that order if it matters.
fn is_one_of(
    alloc: Global,
    documents: &[Arc<Document, Global>],
    in_order: bool,
    lists: &str,
) -> Result<bool, RowFault> {
    for words in lists.split('|') {
        let list = documents_of(alloc, words.trim())?;
        if is_list(documents, in_order, &list) {
            return Ok(true);
        }
    }
    Ok(false)
}

fn is_list(
    documents: &[Arc<Document, Global>],
    in_order: bool,
    list: &[Arc<Document, Global>],
) -> bool {
    if documents.len() != list.len() {
        return false;
    }
    if in_order {
        return are_same(documents, list);
    }
    are_as_often(documents, list)
}

// Returns whether each document equals the other list's at its position.
fn are_same(documents: &[Arc<Document, Global>], list: &[Arc<Document, Global>]) -> bool {
    for (document, other) in documents.iter().zip(list) {
        if !document.same_data(other) {
            return false;
        }
    }
    true
}

// Returns whether each document of the list occurs among the documents as often as in the list.
fn are_as_often(documents: &[Arc<Document, Global>], list: &[Arc<Document, Global>]) -> bool {
    for one in list {
        if count_of(documents, one) != count_of(list, one) {
            return false;
        }
    }
    true
}

fn count_of(documents: &[Arc<Document, Global>], one: &Document) -> usize {
    let mut count = 0usize;
    for document in documents {
        if document.same_data(one) {
            count = count.saturating_add(1);
        }
    }
    count
}
