//! The result of each stage on a list of documents.

ghost use Rattle.std.specs.Prelude.{◌≡◌, ◌++◌, IfOk, drop, filter, map, take};
ghost use Rattle.std.specs.Arc.{arc_value};
ghost use Rattle.bson_values.specs.View.{datum_of};
ghost use Rattle.query_model.specs.Holds.{holds};
ghost use Rattle.group_accum.specs.GroupParts.{rows_in, spec_in};
ghost use Rattle.pipeline_model.specs.Groups.{IsGrouped, count_value};
ghost use Rattle.pipeline_model.specs.Projections.{project};
ghost use Rattle.pipeline_model.specs.Runs.{count_documents};

use bson_values::{Aligned, Document, Memory, Name, Value};
use group_accum::{GroupSpec, Groups};
use match_expr::{Expr, holds};
use projection::{Projection, project};
use std::alloc::Global;
use std::collections::VecDeque;
use std::sync::Arc;

/// Returns the documents that match the filter. Takes no memory.
pub(crate) fn matching(
    asked: &Expr,
    documents: Vec<Arc<Document, Global>>,
) -> Vec<Arc<Document, Global>>
    ensures { map arc_value result.items ≡ filter (holds asked.now) (map arc_value documents.items) }
{
    let mut left = documents;
    left.retain(|document| holds(asked, document));
    left
}

/// Returns the projection of each document, or `Memory` if memory runs out.
pub(crate) fn projected(
    alloc: Global,
    rules: &Projection,
    documents: &[Arc<Document, Global>],
) -> Result<Vec<Arc<Document, Global>>, Memory>
    ensures { IfOk result (λ ds. map arc_value ds.items ≡ map (project rules.now) (map arc_value documents.now)) }
{
    let mut left = Vec::with_capacity(alloc, documents.len())?;
    for document in documents {
        let shown = project(alloc, rules, document)?;
        let shared = Arc::new(alloc, shown)?;
        left.push(shared)?;
    }
    Ok(left)
}

/// Returns the documents without the first `count`. Takes no memory.
pub(crate) fn skipped(
    documents: Vec<Arc<Document, Global>>,
    count: u64,
) -> Vec<Arc<Document, Global>>
    ensures { result.items ≡ drop count documents.items }
{
    let mut left = VecDeque::from(documents);
    for _ in 0..count {
        match left.pop_front() {
            Some(_document) => {}
            None => return Vec::from(left),
        }
    }
    Vec::from(left)
}

/// Returns the first `count` documents. Takes no memory.
pub(crate) fn limited(
    documents: Vec<Arc<Document, Global>>,
    count: u64,
) -> Vec<Arc<Document, Global>>
    ensures { result.items ≡ take count documents.items }
{
    let mut first = documents;
    first.truncate(count as usize);
    first
}

// Returns a number as a value: int32 where it fits, else int64; `Memory` where it is outside int64.
fn count_value(count: usize) -> Result<Value, Memory>
    ensures { IfOk result (λ v. datum_of v ≡ count_value count) }
{
    if count < 0x8000_0000 {
        return Ok(Value::Int32(Aligned::of(count as i32)));
    }
    if count < 0x8000_0000_0000_0000 {
        return Ok(Value::Int64(count as i64));
    }
    Err(Memory)
}

/// Returns one document with the number under the name, or none for 0. Returns `Memory` if memory runs out.
pub fn counted(
    alloc: Global,
    name: &Name,
    count: usize,
) -> Result<Vec<Arc<Document, Global>>, Memory>
    ensures { IfOk result (λ ds. map arc_value ds.items ≡ count_documents name.now count) }
{
    let mut documents = Vec::new(alloc);
    if count == 0 {
        return Ok(documents);
    }
    let value = count_value(count)?;
    let mut document = Document::new(alloc);
    document.push(name.copy()?, value)?;
    let shared = Arc::new(alloc, document)?;
    documents.push(shared)?;
    Ok(documents)
}

/// Returns the groups of the documents, or `Memory` if memory runs out.
pub(crate) fn grouped(
    alloc: Global,
    spec: Arc<GroupSpec, Global>,
    documents: &[Arc<Document, Global>],
) -> Result<Groups, Memory>
    ensures spec { IfOk result (λ g. spec_in g ≡ arc_value spec) }
    ensures rows { IfOk result (λ g. IsGrouped (arc_value spec) (map arc_value documents.now) (rows_in g)) }
{
    let mut groups = Groups::new(alloc, spec);
    for document in documents {
        groups.add(document)?;
    }
    Ok(groups)
}
