//! Halves of reads.

ghost use Rattle.std.specs.Prelude.{IfOk, map};
ghost use Rattle.std.specs.Arc.{arc_value};
ghost use Rattle.pipeline_lang.specs.Halves.{half_of};
ghost use Rattle.protocol_model.specs.Bodies.{rows_view};
ghost use Rattle.shard_requests.specs.Halves.{TellsHalf};

use bson_values::{Document, Memory};
use pipeline_eval::{EvalFault, Rows, eval_half};
use pipeline_lang::Half;
use protocol_model::HalfFault;
use std::alloc::Global;
use std::sync::Arc;

/// Returns the rows of a half of documents, or why there are none. Returns `Memory` if memory runs out.
pub fn answer_half(
    alloc: Global,
    half: &Half,
    documents: Vec<Arc<Document, Global>>,
) -> Result<Result<Rows, HalfFault>, Memory>
    ensures { IfOk result (λ told. TellsHalf (half_of half.now) (map arc_value documents.items) (rows_view told)) }
{
    match eval_half(alloc, half, documents) {
        Ok(rows) => Ok(Ok(rows)),
        Err(EvalFault::Overflow) => Ok(Err(HalfFault::Overflow)),
        Err(EvalFault::TooMuch { bytes }) => Ok(Err(HalfFault::TooMuch { bytes })),
        Err(EvalFault::Memory) => Err(Memory),
    }
}
