//! Joining the rows of parts.

ghost use Rattle.std.specs.Prelude.{◌≡◌, ◌<◌, ◌^◌, ◌++◌, IfOk, List, OnOk, flat_map, map, sum_by};
ghost use Rattle.std.specs.Arc.{arc_value};
ghost use Rattle.group_accum.specs.GroupParts.{rows_in, spec_in};
ghost use Rattle.pipeline_model.specs.Groups.{IsJoined, PartialRow};
ghost use Rattle.pipeline_model.specs.Halves.{count_in_part, documents_in_part, partials_in_part};
ghost use Rattle.pipeline_eval.specs.Rows.{rows_of};

use bson_values::{Document, Memory};
use group_accum::{GroupSpec, Groups};
use pipeline_eval::Rows;
use std::alloc::Global;
use std::collections::VecDeque;
use std::sync::Arc;

/// The sum of the numbers of documents is less than this.
const DOCUMENTS_OF_ALL: u64 = 1 << 62;

// Appends the documents of a part. Returns `Memory` if memory runs out.
fn put_documents(part: Rows, all: &mut Vec<Arc<Document, Global>>) -> Result<(), Memory>
    ensures { OnOk result (map arc_value all.new.items ≡ map arc_value all.old.items ++ documents_in_part (rows_of part)) }
{
    match part {
        Rows::Docs(mut documents) => {
            all.append(&mut documents)?;
            Ok(())
        }
        Rows::Partials(_) => Ok(()),
        Rows::Counted(_) => Ok(()),
    }
}

/// Returns the documents of the parts, one part after the other, or `Memory` if memory runs out.
pub(crate) fn all_documents(
    alloc: Global,
    parts: Vec<Rows>,
) -> Result<Vec<Arc<Document, Global>>, Memory>
    ensures { IfOk result (λ all. map arc_value all.items ≡ flat_map documents_in_part (map rows_of parts.items)) }
{
    let mut all = Vec::new(alloc);
    let mut rest = VecDeque::from(parts);
    'parts: while let Some(part) = rest.pop_front() {
        put_documents(part, &mut all)?;
    }
    Ok(all)
}

// Joins the rows of a part. Returns `Memory` if memory runs out.
fn join_rows(part: Rows, groups: &mut Groups) -> Result<(), Memory>
    ensures spec { spec_in groups.new ≡ spec_in groups.old }
    ensures rows { OnOk result ((before : List PartialRow) → IsJoined (spec_in groups.old) before (rows_in groups.old)
        → IsJoined (spec_in groups.old) (before ++ partials_in_part (rows_of part)) (rows_in groups.new)) }
{
    match part {
        Rows::Partials(list) => groups.join(list),
        Rows::Docs(_) => Ok(()),
        Rows::Counted(_) => Ok(()),
    }
}

/// Returns the rows of the parts, joined, or `Memory` if memory runs out.
pub(crate) fn all_groups(
    alloc: Global,
    spec: Arc<GroupSpec, Global>,
    parts: Vec<Rows>,
) -> Result<Groups, Memory>
    ensures spec { IfOk result (λ g. spec_in g ≡ arc_value spec) }
    ensures rows { IfOk result (λ g. IsJoined (arc_value spec) (flat_map partials_in_part (map rows_of parts.items)) (rows_in g)) }
{
    let mut groups = Groups::new(alloc, spec);
    let mut rest = VecDeque::from(parts);
    'parts: while let Some(part) = rest.pop_front() {
        join_rows(part, &mut groups)?;
    }
    Ok(groups)
}

// Returns the number of documents that a part counted.
fn count_in(part: &Rows) -> u64
    ensures count { result ≡ count_in_part (rows_of part.now) }
    ensures bound { result < 2 ^ 58 }
{
    match part {
        Rows::Counted(count) => count.get(),
        Rows::Docs(_) => 0,
        Rows::Partials(_) => 0,
    }
}

/// Returns the sum of the numbers of documents that the parts counted, or `Memory` where it is 2^62 or more.
pub(crate) fn count_of_all(parts: &[Rows]) -> Result<u64, Memory>
    ensures { IfOk result (λ n. n ≡ sum_by count_in_part (map rows_of parts.now)) }
{
    let mut count = 0u64;
    for part in parts {
        count += count_in(part);
        if count >= DOCUMENTS_OF_ALL {
            return Err(Memory);
        }
    }
    Ok(count)
}
