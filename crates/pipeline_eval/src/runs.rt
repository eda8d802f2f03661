//! The result of stages, one after the other, on a list of documents.

ghost use Rattle.std.specs.Prelude.{◌≡◌, ◌<◌, map};
ghost use Rattle.std.specs.Arc.{arc_value};
ghost use Rattle.pipeline_model.specs.Stages.{count_stage, group_stage, project_stage, sort_stage};
ghost use Rattle.pipeline_eval.specs.Evals.{Does, DoesBefore, RunsTo, limit_in_front};
ghost use Rattle.pipeline_lang.specs.View.{stage_of};

use crate::fault::EvalFault;
use crate::sorting::sorted;
use crate::steps::{counted, grouped, limited, matching, projected, skipped};
use crate::tops::first_sorted;
use bson_values::{Document, Name};
use group_accum::{GroupFault, GroupSpec};
use pipeline_lang::Stage;
use projection::Projection;
use sort_keys::SortSpec;
use std::alloc::Global;
use std::sync::Arc;

fn run_group(
    alloc: Global,
    spec: &Arc<GroupSpec, Global>,
    documents: &[Arc<Document, Global>],
) -> Result<Vec<Arc<Document, Global>>, EvalFault>
    ensures does { Does (λ ds. map arc_value ds.items) (group_stage (arc_value spec.now)) (map arc_value documents.now) result }
{
    let shared = Arc::try_clone(spec)?;
    let groups = grouped(alloc, shared, documents)?;
    match groups.finish() {
        Ok(shown) => Ok(shown),
        Err(GroupFault::Overflow) => Err(EvalFault::Overflow),
        Err(GroupFault::Memory) => Err(EvalFault::Memory),
    }
}

fn run_project(
    alloc: Global,
    rules: &Projection,
    documents: &[Arc<Document, Global>],
) -> Result<Vec<Arc<Document, Global>>, EvalFault>
    ensures does { Does (λ ds. map arc_value ds.items) (project_stage rules.now) (map arc_value documents.now) result }
{
    let left = projected(alloc, rules, documents)?;
    Ok(left)
}

fn sort_all(
    alloc: Global,
    spec: &SortSpec,
    documents: Vec<Arc<Document, Global>>,
) -> Result<Vec<Arc<Document, Global>>, EvalFault>
    ensures does { Does (λ ds. map arc_value ds.items) (sort_stage spec.now) (map arc_value documents.items) result }
{
    let left = sorted(alloc, spec, documents)?;
    Ok(left)
}

fn sort_first(
    alloc: Global,
    spec: &SortSpec,
    count: usize,
    documents: Vec<Arc<Document, Global>>,
) -> Result<Vec<Arc<Document, Global>>, EvalFault>
    requires { 0 < count }
    ensures does { DoesBefore (Some count) (λ ds. map arc_value ds.items) (sort_stage spec.now) (map arc_value documents.items) result }
{
    let left = first_sorted(alloc, spec, count, documents)?;
    Ok(left)
}

// Returns the documents in order, or only the first of them, as many as the next stage keeps.
fn run_sort(
    alloc: Global,
    spec: &SortSpec,
    limit: Option<u64>,
    documents: Vec<Arc<Document, Global>>,
) -> Result<Vec<Arc<Document, Global>>, EvalFault>
    ensures does { DoesBefore limit (λ ds. map arc_value ds.items) (sort_stage spec.now) (map arc_value documents.items) result }
{
    match limit {
        Some(count) => {
            if count == 0 || count >= documents.len() as u64 {
                return sort_all(alloc, spec, documents);
            }
            sort_first(alloc, spec, count as usize, documents)
        }
        None => sort_all(alloc, spec, documents),
    }
}

fn run_count(
    alloc: Global,
    name: &Name,
    documents: &[Arc<Document, Global>],
) -> Result<Vec<Arc<Document, Global>>, EvalFault>
    ensures does { Does (λ ds. map arc_value ds.items) (count_stage name.now) (map arc_value documents.now) result }
{
    let one = counted(alloc, name, documents.len())?;
    Ok(one)
}

// Returns the result of one stage on the documents. Before a limit, a sort returns only the first of them.
fn run_stage(
    alloc: Global,
    stage: &Stage,
    limit: Option<u64>,
    documents: Vec<Arc<Document, Global>>,
) -> Result<Vec<Arc<Document, Global>>, EvalFault>
    ensures does { DoesBefore limit (λ ds. map arc_value ds.items) (stage_of stage.now) (map arc_value documents.items) result }
{
    match stage {
        Stage::Match(asked) => Ok(matching(asked, documents)),
        Stage::Project(rules) => run_project(alloc, rules, &documents),
        Stage::Group(spec) => run_group(alloc, spec, &documents),
        Stage::Sort(spec) => run_sort(alloc, spec, limit, documents),
        Stage::Skip(count) => Ok(skipped(documents, *count)),
        Stage::Limit(count) => Ok(limited(documents, *count)),
        Stage::Count(name) => run_count(alloc, name, &documents),
    }
}

// Returns how many documents a limit keeps that comes first.
fn limit_in_front(stages: &[Stage]) -> Option<u64>
    ensures { result ≡ limit_in_front (map stage_of stages.now) }
{
    let Some((first, _rest)) = stages.split_first() else {
        return None;
    };
    match first {
        Stage::Limit(count) => Some(*count),
        _ => None,
    }
}

/// Returns the result of the stages on the documents, one after the other. Returns `Overflow` where an outcome of them is that a sum is outside int64, and
/// `Memory` if memory runs out.
pub(crate) fn run_stages(
    alloc: Global,
    stages: &[Stage],
    documents: Vec<Arc<Document, Global>>,
) -> Result<Vec<Arc<Document, Global>>, EvalFault>
    ensures runs { RunsTo (λ ds. map arc_value ds.items) (map stage_of stages.now) (map arc_value documents.items) result }
{
    let mut left = documents;
    let mut behind = stages;
    'stages: while let Some((stage, rest)) = behind.split_first() {
        let limit = limit_in_front(rest);
        left = run_stage(alloc, stage, limit, left)?;
        behind = rest;
    }
    Ok(left)
}
