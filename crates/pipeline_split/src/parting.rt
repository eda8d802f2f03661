//! Splitting.

ghost use Rattle.std.specs.Prelude.{◌≡◌, IfOk};
ghost use Rattle.pipeline_model.specs.Split.{split};
ghost use Rattle.pipeline_lang.specs.Halves.{half_of, merge_of};

use crate::cuts::{Cut, cut_stages, share_all};
use crate::front::{front_length, span_of_stages};
use bson_values::Memory;
use pipeline_lang::{Half, Merge, Pipeline};
use std::alloc::Global;

/// Returns the half that each part of the documents gets of a pipeline, and the merge that proceeds from what the halves
/// return. What the stages need is shared. Returns `Memory` if memory runs out.
pub fn split(alloc: Global, pipeline: &Pipeline) -> Result<(Half, Merge), Memory>
    ensures half { IfOk result (λ parts. half_of parts.0 ≡ (split pipeline.now).0) }
    ensures merge { IfOk result (λ parts. merge_of parts.1 ≡ (split pipeline.now).1) }
{
    let stages = pipeline.stages();
    let length = front_length(stages);
    let span = span_of_stages(alloc, stages)?;
    let mut front = share_all(alloc, &stages[..length])?;
    let Cut {
        stages: mut own,
        last,
        merge,
    } = cut_stages(alloc, &stages[length..])?;
    front.append(&mut own)?;
    let half = Half {
        span,
        stages: Pipeline::of(front),
        last,
    };
    Ok((half, merge))
}
