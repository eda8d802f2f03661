//! How the stages after the front are cut.

ghost use Rattle.std.specs.Prelude.{◌≡◌, ◌∷◌, ◌++◌, IfOk, map};
ghost use Rattle.std.specs.Arc.{arc_value};
ghost use Rattle.pipeline_model.specs.Split.{cut};
ghost use Rattle.pipeline_model.specs.Stages.{count_stage, group_stage, skip_stage, sort_stage};
ghost use Rattle.pipeline_lang.specs.View.{stage_of};
ghost use Rattle.pipeline_split.specs.Cuts.{cut_of, limit_in, limit_stages, plain_cut};

use bson_values::{Memory, Name};
use group_accum::GroupSpec;
use pipeline_lang::{HalfEnd, Joining, Merge, Pipeline, Stage};
use sort_keys::SortSpec;
use std::alloc::Global;
use std::sync::Arc;

// What of the stages the half has, what it gives, and the merge.
#[derive(Drop)]
pub(crate) struct Cut {
    pub(crate) stages: Vec<Stage>,
    pub(crate) last: HalfEnd,
    pub(crate) merge: Merge,
}

/// Returns a copy of the stages; what they request is shared. Returns `Memory` if memory runs out.
pub(crate) fn share_all(alloc: Global, stages: &[Stage]) -> Result<Vec<Stage>, Memory>
    ensures { IfOk result (λ all. map stage_of all.items ≡ map stage_of stages.now) }
{
    let mut all = Vec::with_capacity(alloc, stages.len())?;
    for stage in stages {
        let shared = stage.share()?;
        all.push(shared)?;
    }
    Ok(all)
}

// Returns how many documents at the front are enough for stages that begin with so many to be skipped.
fn limit_behind(skipped: u64, stages: &[Stage]) -> Option<u64>
    ensures { result ≡ limit_in (skip_stage skipped ∷ map stage_of stages.now) }
{
    let Some((first, _rest)) = stages.split_first() else {
        return None;
    };
    match first {
        Stage::Limit(taken) => Some(skipped.saturating_add(*taken)),
        _ => None,
    }
}

// Returns how many documents at the front are enough, where the stages begin with a limit, or with a skip and a limit.
fn limit_in(stages: &[Stage]) -> Option<u64>
    ensures { result ≡ limit_in (map stage_of stages.now) }
{
    let Some((first, rest)) = stages.split_first() else {
        return None;
    };
    match first {
        Stage::Limit(taken) => Some(*taken),
        Stage::Skip(skipped) => limit_behind(*skipped, rest),
        _ => None,
    }
}

// Returns the stages, and a limit after them, if there is one. Returns `Memory` if memory runs out.
fn with_limit(stages: Vec<Stage>, limit: Option<u64>) -> Result<Vec<Stage>, Memory>
    ensures { IfOk result (λ all. map stage_of all.items ≡ map stage_of stages.items ++ limit_stages limit) }
{
    let mut all = stages;
    if let Some(limit) = limit {
        all.push(Stage::Limit(limit))?;
    }
    Ok(all)
}

fn cut_sort(alloc: Global, spec: &Arc<SortSpec, Global>, rest: &[Stage]) -> Result<Cut, Memory>
    ensures { IfOk result (λ c. cut_of c ≡ cut (sort_stage (arc_value spec.now) ∷ map stage_of rest.now)) }
{
    let mut sort = Vec::new(alloc);
    sort.push(Stage::Sort(Arc::try_clone(spec)?))?;
    let stages = with_limit(sort, limit_in(rest))?;
    let behind = share_all(alloc, rest)?;
    let joining = Joining::InOrder(Arc::try_clone(spec)?);
    Ok(Cut {
        stages,
        last: HalfEnd::Docs,
        merge: Merge {
            joining,
            stages: Pipeline::of(behind),
        },
    })
}

fn cut_group(alloc: Global, spec: &Arc<GroupSpec, Global>, rest: &[Stage]) -> Result<Cut, Memory>
    ensures { IfOk result (λ c. cut_of c ≡ cut (group_stage (arc_value spec.now) ∷ map stage_of rest.now)) }
{
    let behind = share_all(alloc, rest)?;
    let last = HalfEnd::Partials(Arc::try_clone(spec)?);
    let joining = Joining::Groups(Arc::try_clone(spec)?);
    Ok(Cut {
        stages: Vec::new(alloc),
        last,
        merge: Merge {
            joining,
            stages: Pipeline::of(behind),
        },
    })
}

fn cut_count(alloc: Global, name: &Name, rest: &[Stage]) -> Result<Cut, Memory>
    ensures { IfOk result (λ c. cut_of c ≡ cut (count_stage name.now ∷ map stage_of rest.now)) }
{
    let behind = share_all(alloc, rest)?;
    let joining = Joining::Counts(name.copy()?);
    Ok(Cut {
        stages: Vec::new(alloc),
        last: HalfEnd::Counted,
        merge: Merge {
            joining,
            stages: Pipeline::of(behind),
        },
    })
}

// Where the half gives the documents, and the merge has all the stages.
fn cut_plain(alloc: Global, stages: &[Stage]) -> Result<Cut, Memory>
    ensures { IfOk result (λ c. cut_of c ≡ plain_cut (map stage_of stages.now)) }
{
    let limited = with_limit(Vec::new(alloc), limit_in(stages))?;
    let behind = share_all(alloc, stages)?;
    Ok(Cut {
        stages: limited,
        last: HalfEnd::Docs,
        merge: Merge {
            joining: Joining::AsTheyCome,
            stages: Pipeline::of(behind),
        },
    })
}

/// Returns which of the stages after the front the half has, what it returns, and the merge. Returns `Memory` if memory runs out.
pub(crate) fn cut_stages(alloc: Global, stages: &[Stage]) -> Result<Cut, Memory>
    ensures { IfOk result (λ c. cut_of c ≡ cut (map stage_of stages.now)) }
{
    let Some((first, rest)) = stages.split_first() else {
        return cut_plain(alloc, stages);
    };
    match first {
        Stage::Sort(spec) => cut_sort(alloc, spec, rest),
        Stage::Group(spec) => cut_group(alloc, spec, rest),
        Stage::Count(name) => cut_count(alloc, name, rest),
        Stage::Match(_) | Stage::Project(_) | Stage::Skip(_) | Stage::Limit(_) => {
            cut_plain(alloc, stages)
        }
    }
}
