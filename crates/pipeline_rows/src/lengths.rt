//! Results that are too long.

use crate::halves::rows_of_each;
use crate::long_documents::long_documents;
use bson_values::Document;
use fixtures::{RowFault, Rows, field, number};
use group_merge::merge;
use pipeline_eval::{EvalFault, eval, eval_half, share_all};
use pipeline_lang::Pipeline;
use pipeline_split::split;
use std::alloc::Global;
use std::sync::Arc;

/// `LENGTHS | ANSWER | HALF`: for documents of these lengths, the outcome of the pipeline without stages, and the same for the merge, where each document is
/// a part by itself; and the outcome of its half. An outcome is `fits`, or the number of bytes that is too great.
#[derive(Drop)]
pub struct Lengths;

impl Rows for Lengths {
    fn holds(&mut self, alloc: Global, row: &str) -> Result<bool, RowFault> {
        let (lengths, rest) = field(row);
        let (answer, half) = field(rest);
        let documents = long_documents(alloc, lengths)?;
        if !half_tells(alloc, &documents, half)? {
            return Ok(false);
        }
        if !merge_tells(alloc, &documents, answer)? {
            return Ok(false);
        }
        whole_tells(alloc, documents, answer)
    }
}

// Returns the pipeline without stages.
fn no_stages(alloc: Global) -> Pipeline {
    Pipeline::of(Vec::new(alloc))
}

fn whole_tells(
    alloc: Global,
    documents: Vec<Arc<Document, Global>>,
    wanted: &str,
) -> Result<bool, RowFault> {
    let pipeline = no_stages(alloc);
    match eval(alloc, &pipeline, documents) {
        Ok(_documents) => Ok(wanted == "fits"),
        Err(fault) => is_told(fault, wanted),
    }
}

fn half_tells(
    alloc: Global,
    documents: &[Arc<Document, Global>],
    wanted: &str,
) -> Result<bool, RowFault> {
    let pipeline = no_stages(alloc);
    let (half, _by) = split(alloc, &pipeline)?;
    let all = share_all(alloc, documents)?;
    match eval_half(alloc, &half, all) {
        Ok(_rows) => Ok(wanted == "fits"),
        Err(fault) => is_told(fault, wanted),
    }
}

fn merge_tells(
    alloc: Global,
    documents: &[Arc<Document, Global>],
    wanted: &str,
) -> Result<bool, RowFault> {
    let pipeline = no_stages(alloc);
    let (half, by) = split(alloc, &pipeline)?;
    let parts = rows_of_each(alloc, &half, documents)?;
    match merge(alloc, &by, parts) {
        Ok(_documents) => Ok(wanted == "fits"),
        Err(fault) => is_told(fault, wanted),
    }
}

// Returns whether the fault is this number of bytes, which is too great.
fn is_told(fault: EvalFault, wanted: &str) -> Result<bool, RowFault> {
    match fault {
        EvalFault::TooMuch { bytes } => is_number(bytes, wanted),
        EvalFault::Overflow => Ok(false),
        EvalFault::Memory => Err(RowFault::Memory),
    }
}

fn is_number(bytes: u64, wanted: &str) -> Result<bool, RowFault> {
    if wanted == "fits" {
        return Ok(false);
    }
    let most = number::<u64>(wanted)?;
    Ok(bytes == most)
}
