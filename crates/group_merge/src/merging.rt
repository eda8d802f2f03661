//! Merging.

ghost use Rattle.std.specs.Prelude.{◌≡◌, map};
ghost use Rattle.std.specs.Arc.{arc_value};
ghost use Rattle.pipeline_model.specs.Halves.{joined_as_they_come, joined_counts, joined_groups, joined_in_order};
ghost use Rattle.pipeline_lang.specs.Halves.{joining_of, merge_of};
ghost use Rattle.pipeline_eval.specs.Rows.{rows_of};
ghost use Rattle.group_merge.specs.Merged.{JoinsTo, MergeAnswers};

use crate::joins::{all_documents, all_groups, count_of_all};
use bson_values::{Document, Name};
use group_accum::{GroupFault, GroupSpec};
use pipeline_eval::{EvalFault, Rows, counted, eval, sorted};
use pipeline_lang::{Joining, Merge};
use sort_keys::SortSpec;
use std::alloc::Global;
use std::sync::Arc;

// Returns the documents of the parts in order; those that compare equal are in the order of their parts, and then of their positions.
fn join_in_order(
    alloc: Global,
    spec: &SortSpec,
    parts: Vec<Rows>,
) -> Result<Vec<Arc<Document, Global>>, EvalFault>
    ensures joins { JoinsTo (λ ds. map arc_value ds.items) (joined_in_order spec.now) (map rows_of parts.items) result }
{
    let all = all_documents(alloc, parts)?;
    let in_order = sorted(alloc, spec, all)?;
    Ok(in_order)
}

// Returns the document of each group.
fn join_groups(
    alloc: Global,
    spec: &Arc<GroupSpec, Global>,
    parts: Vec<Rows>,
) -> Result<Vec<Arc<Document, Global>>, EvalFault>
    ensures joins { JoinsTo (λ ds. map arc_value ds.items) (joined_groups (arc_value spec.now)) (map rows_of parts.items) result }
{
    let shared = Arc::try_clone(spec)?;
    let groups = all_groups(alloc, shared, parts)?;
    match groups.finish() {
        Ok(shown) => Ok(shown),
        Err(GroupFault::Overflow) => Err(EvalFault::Overflow),
        Err(GroupFault::Memory) => Err(EvalFault::Memory),
    }
}

// Returns one document with the sum of the numbers.
fn join_counts(
    alloc: Global,
    name: &Name,
    parts: Vec<Rows>,
) -> Result<Vec<Arc<Document, Global>>, EvalFault>
    ensures joins { JoinsTo (λ ds. map arc_value ds.items) (joined_counts name.now) (map rows_of parts.items) result }
{
    let count = count_of_all(&parts)?;
    let one = counted(alloc, name, count as usize)?;
    Ok(one)
}

// Returns the documents of the parts, one part after the other.
fn join_as_they_come(
    alloc: Global,
    parts: Vec<Rows>,
) -> Result<Vec<Arc<Document, Global>>, EvalFault>
    ensures joins { JoinsTo (λ ds. map arc_value ds.items) joined_as_they_come (map rows_of parts.items) result }
{
    let all = all_documents(alloc, parts)?;
    Ok(all)
}

// Returns what the rows of the parts are joined to.
fn join_rows(
    alloc: Global,
    joining: &Joining,
    parts: Vec<Rows>,
) -> Result<Vec<Arc<Document, Global>>, EvalFault>
    ensures joins { JoinsTo (λ ds. map arc_value ds.items) (joining_of joining.now) (map rows_of parts.items) result }
{
    match joining {
        Joining::InOrder(spec) => join_in_order(alloc, spec, parts),
        Joining::Groups(spec) => join_groups(alloc, spec, parts),
        Joining::Counts(name) => join_counts(alloc, name, parts),
        Joining::AsTheyCome => join_as_they_come(alloc, parts),
    }
}

/// Returns the result that the rows of the parts are merged to: an outcome of the merge for them, in which documents that compare equal in a sort of the
/// merge are in the order of their parts, and then of their positions. Returns `Overflow` only where the merge has it for these rows; `TooMuch` where the
/// outcome has more than 104,857,600 bytes, or a document of it more than 16,777,216; and `Memory` if memory runs out, also where the numbers of documents
/// are 2^62 or more in all. A part of another form than the merge's adds nothing.
pub fn merge(
    alloc: Global,
    by: &Merge,
    parts: Vec<Rows>,
) -> Result<Vec<Arc<Document, Global>>, EvalFault>
    ensures answers { MergeAnswers (λ ds. map arc_value ds.items) (merge_of by.now) (map rows_of parts.items) result }
{
    let start = join_rows(alloc, &by.joining, parts)?;
    eval(alloc, &by.stages, start)
}
