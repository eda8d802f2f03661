//! Results of whole pipelines.

ghost use Rattle.std.specs.Prelude.{◌≡◌, map};
ghost use Rattle.std.specs.Arc.{arc_value};
ghost use Rattle.pipeline_eval.specs.Evals.{Answers};

use crate::fault::EvalFault;
use crate::lengths::excess_of_answer;
use crate::runs::run_stages;
use bson_values::Document;
use pipeline_lang::Pipeline;
use std::alloc::Global;
use std::sync::Arc;

/// Returns the result of a pipeline on the documents in this order: an outcome that the pipeline has for them. Returns `Overflow` only where an outcome for
/// them is that a sum is outside int64; `TooMuch` where the outcome has more than 104,857,600 bytes, or a document of it more than 16,777,216; and `Memory`
/// if memory runs out.
pub fn eval(
    alloc: Global,
    pipeline: &Pipeline,
    documents: Vec<Arc<Document, Global>>,
) -> Result<Vec<Arc<Document, Global>>, EvalFault>
    ensures answers { Answers (λ ds. map arc_value ds.items) pipeline.now (map arc_value documents.items) result }
{
    let shown = run_stages(alloc, pipeline.stages(), documents)?;
    match excess_of_answer(&shown) {
        Some(bytes) => Err(EvalFault::TooMuch {
            bytes: bytes as u64,
        }),
        None => Ok(shown),
    }
}
