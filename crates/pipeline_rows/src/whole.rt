//! Results of whole pipelines.

use crate::halves::rows_of_each;
use crate::outcomes::is_allowed;
use crate::words::{documents_of, pipeline_of};
use bson_values::Document;
use fixtures::{RowFault, Rows, field};
use group_merge::merge;
use pipeline_eval::eval;
use pipeline_lang::Pipeline;
use pipeline_split::split;
use std::alloc::Global;
use std::sync::Arc;

/// `PIPELINE | DOCUMENTS | OUTCOME`: the result of the pipeline on the documents; and the result of merging its halves, each document being a part by itself,
/// which is allowed too.
#[derive(Drop)]
pub struct Answers;

impl Rows for Answers {
    fn holds(&mut self, alloc: Global, row: &str) -> Result<bool, RowFault> {
        let (words, rest) = field(row);
        let (list, wanted) = field(rest);
        let pipeline = pipeline_of(alloc, words)?;
        let documents = documents_of(alloc, list)?;
        if !are_merged(alloc, &pipeline, &documents, wanted)? {
            return Ok(false);
        }
        let outcome = eval(alloc, &pipeline, documents);
        is_allowed(alloc, &outcome, wanted)
    }
}

fn are_merged(
    alloc: Global,
    pipeline: &Pipeline,
    documents: &[Arc<Document, Global>],
    wanted: &str,
) -> Result<bool, RowFault> {
    let (half, by) = split(alloc, pipeline)?;
    let parts = rows_of_each(alloc, &half, documents)?;
    let outcome = merge(alloc, &by, parts);
    is_allowed(alloc, &outcome, wanted)
}
