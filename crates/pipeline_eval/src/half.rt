//! Halves.

ghost use Rattle.std.specs.Prelude.{◌≡◌, IfOk, map};
ghost use Rattle.std.specs.Arc.{arc_value};
ghost use Rattle.pipeline_model.specs.Halves.{EndsIn, counted_rows, partials_end};
ghost use Rattle.pipeline_lang.specs.Halves.{end_of, half_of};
ghost use Rattle.pipeline_eval.specs.Evals.{HalfAnswers};
ghost use Rattle.pipeline_eval.specs.Rows.{rows_of};

use crate::fault::EvalFault;
use crate::lengths::excess_of_rows;
use crate::rows::{PartCount, Rows};
use crate::runs::run_stages;
use crate::steps::grouped;
use bson_values::{Document, Memory};
use group_accum::GroupSpec;
use pipeline_lang::{Half, HalfEnd};
use std::alloc::Global;
use std::sync::Arc;

/// Returns the documents, each shared. Returns `Memory` if memory runs out.
pub fn share_all(
    alloc: Global,
    documents: &[Arc<Document, Global>],
) -> Result<Vec<Arc<Document, Global>>, Memory>
    ensures { IfOk result (λ all. map arc_value all.items ≡ map arc_value documents.now) }
{
    let mut all = Vec::with_capacity(alloc, documents.len())?;
    for document in documents {
        let shared = Arc::try_clone(document)?;
        all.push(shared)?;
    }
    Ok(all)
}

fn partial_rows(
    alloc: Global,
    spec: &Arc<GroupSpec, Global>,
    left: &[Arc<Document, Global>],
) -> Result<Rows, Memory>
    ensures { IfOk result (λ rows. EndsIn (partials_end (arc_value spec.now)) (map arc_value left.now) (rows_of rows)) }
{
    let shared = Arc::try_clone(spec)?;
    let groups = grouped(alloc, shared, left)?;
    let list = groups.partial()?;
    Ok(Rows::Partials(list))
}

fn counted_rows(count: usize) -> Result<Rows, Memory>
    ensures { IfOk result (λ rows. rows_of rows ≡ counted_rows count) }
{
    match PartCount::of(count as u64) {
        Some(count) => Ok(Rows::Counted(count)),
        None => Err(Memory),
    }
}

// Returns what the half returns after its stages, or `Memory` if memory runs out.
fn ended(alloc: Global, last: &HalfEnd, left: Vec<Arc<Document, Global>>) -> Result<Rows, Memory>
    ensures { IfOk result (λ rows. EndsIn (end_of last.now) (map arc_value left.items) (rows_of rows)) }
{
    match last {
        HalfEnd::Docs => Ok(Rows::Docs(left)),
        HalfEnd::Partials(spec) => partial_rows(alloc, spec, &left),
        HalfEnd::Counted => counted_rows(left.len()),
    }
}

/// Returns the result of a half on the documents in this order. Returns `Overflow` only where an outcome of its stages is that a sum is outside int64;
/// `TooMuch` where the rows have more than 104,857,600 bytes; and `Memory` if memory runs out, also where there are 2^58 documents or more to group or count.
pub fn eval_half(
    alloc: Global,
    half: &Half,
    documents: Vec<Arc<Document, Global>>,
) -> Result<Rows, EvalFault>
    ensures answers { HalfAnswers rows_of (half_of half.now) (map arc_value documents.items) result }
{
    let left = run_stages(alloc, half.stages.stages(), documents)?;
    let rows = ended(alloc, &half.last, left)?;
    match excess_of_rows(&rows) {
        Some(bytes) => Err(EvalFault::TooMuch {
            bytes: bytes as u64,
        }),
        None => Ok(rows),
    }
}
