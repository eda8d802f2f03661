//! Halves of pipelines.

use crate::words::{array_in, documents_in, row_fault};
use bson_values::{Array, Document, Value};
use fixtures::RowFault;
use pipeline_eval::{Rows, eval_half, share_all};
use pipeline_lang::Half;
use std::alloc::Global;
use std::sync::Arc;

/// Returns the result of the half on each part, where a part is an array of documents. Returns `Form` where a part is not an array or has no rows, and
/// `Memory` if memory runs out.
pub fn rows_of_parts(alloc: Global, half: &Half, parts: Array) -> Result<Vec<Rows>, RowFault> {
    let mut all = Vec::new(alloc);
    for part in parts.into_values() {
        all.push(rows_of_part(alloc, half, part)?)?;
    }
    Ok(all)
}

fn rows_of_part(alloc: Global, half: &Half, part: Value) -> Result<Rows, RowFault> {
    let array = array_in(part)?;
    let documents = documents_in(alloc, array)?;
    eval_half(alloc, half, documents).map_err(row_fault)
}

/// Returns the result of the half on each document by itself. Returns `Form` where one has no rows, and `Memory` if memory runs out.
pub fn rows_of_each(
    alloc: Global,
    half: &Half,
    documents: &[Arc<Document, Global>],
) -> Result<Vec<Rows>, RowFault> {
    let mut all = Vec::new(alloc);
    for document in documents.chunks(1) {
        let one = share_all(alloc, document)?;
        let rows = eval_half(alloc, half, one).map_err(row_fault)?;
        all.push(rows)?;
    }
    Ok(all)
}

/// Returns the number of documents in the longest list of documents among the rows.
pub fn most_documents(all: &[Rows]) -> usize {
    let mut most = 0usize;
    for rows in all {
        most = most.max(document_count(rows));
    }
    most
}

fn document_count(rows: &Rows) -> usize {
    match rows {
        Rows::Docs(documents) => documents.len(),
        Rows::Partials(_) => 0,
        Rows::Counted(_) => 0,
    }
}
