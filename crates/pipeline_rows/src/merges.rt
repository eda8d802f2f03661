//! What halves are merged to.

use crate::halves::{most_documents, rows_of_parts};
use crate::outcomes::is_allowed;
use crate::words::{array_of, pipeline_of};
use fixtures::{RowFault, Rows, field, number};
use group_merge::merge;
use pipeline_split::split;
use std::alloc::Global;

/// `PIPELINE | PARTS | MOST | OUTCOME`: what the halves of the parts are merged to, where each part is an array of documents, and how many documents the
/// longest half has.
#[derive(Drop)]
pub struct Merges;

impl Rows for Merges {
    fn holds(&mut self, alloc: Global, row: &str) -> Result<bool, RowFault> {
        let (words, rest) = field(row);
        let (list, rest) = field(rest);
        let (most, wanted) = field(rest);
        let most = number::<usize>(most)?;
        let parts = array_of(alloc, list)?;
        let pipeline = pipeline_of(alloc, words)?;
        let (half, by) = split(alloc, &pipeline)?;
        let parts = rows_of_parts(alloc, &half, parts)?;
        if most_documents(&parts) != most {
            return Ok(false);
        }
        let outcome = merge(alloc, &by, parts);
        is_allowed(alloc, &outcome, wanted)
    }
}

/// `PIPELINE | PIPELINE | PARTS | OUTCOME`: what the halves of the first pipeline are merged to by the merge of the other.
#[derive(Drop)]
pub struct ForeignRows;

impl Rows for ForeignRows {
    fn holds(&mut self, alloc: Global, row: &str) -> Result<bool, RowFault> {
        let (words, rest) = field(row);
        let (others, rest) = field(rest);
        let (list, wanted) = field(rest);
        let parts = rows_of(alloc, words, list)?;
        let other = pipeline_of(alloc, others)?;
        let (_half, by) = split(alloc, &other)?;
        let outcome = merge(alloc, &by, parts);
        is_allowed(alloc, &outcome, wanted)
    }
}

// Returns the results of the pipeline's half on the parts.
fn rows_of(alloc: Global, words: &str, list: &str) -> Result<Vec<pipeline_eval::Rows>, RowFault> {
    let parts = array_of(alloc, list)?;
    let pipeline = pipeline_of(alloc, words)?;
    let (half, _by) = split(alloc, &pipeline)?;
    rows_of_parts(alloc, &half, parts)
}
