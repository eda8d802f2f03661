//! The stages at the front that act on each document by itself, and the keys that they target.

ghost use Rattle.std.specs.Prelude.{◌≡◌, ◌≤◌, IfOk, drop, length, map, take};
ghost use Rattle.pipeline_model.specs.Split.{behind_front, front, span_of_stages};
ghost use Rattle.pipeline_lang.specs.View.{stage_of};
ghost use Rattle.pipeline_split.specs.Cuts.{acts_alone};

use bson_values::Memory;
use match_expr::KeyLimits;
use pipeline_lang::Stage;
use std::alloc::Global;
use value_compare::SpanList;

// Returns whether a stage acts on each document by itself.
fn acts_alone(stage: &Stage) -> bool
    ensures { result ≡ acts_alone (stage_of stage.now) }
{
    match stage {
        Stage::Match(_) => true,
        Stage::Project(_) => true,
        _ => false,
    }
}

/// Returns how many stages at the front act on each document by itself.
pub(crate) fn front_length(stages: &[Stage]) -> usize
    ensures within { result ≤ length stages.now }
    ensures front { front (map stage_of stages.now) ≡ map stage_of (take result stages.now) }
    ensures behind { behind_front (map stage_of stages.now) ≡ map stage_of (drop result stages.now) }
{
    for (i, stage) in stages.iter().enumerate() {
        if !acts_alone(stage) {
            return i;
        }
    }
    stages.len()
}

/// Returns the ranges and points where the keys of the documents are that pass the leading filters, or `Memory` if memory runs out.
pub(crate) fn span_of_stages(alloc: Global, stages: &[Stage]) -> Result<SpanList, Memory>
    ensures { IfOk result (λ s. s ≡ span_of_stages (map stage_of stages.now)) }
{
    let mut limits = KeyLimits::new(alloc);
    let mut rest = stages;
    'stages: while let Some((stage, others)) = rest.split_first() {
        let Stage::Match(asked) = stage else {
            return limits.into_spans();
        };
        limits.narrow(asked)?;
        rest = others;
    }
    limits.into_spans()
}
