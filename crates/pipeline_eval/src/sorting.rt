//! Documents in the order of a sort. Each key is computed once, and stored with its document meanwhile.

ghost use Rattle.std.specs.Prelude.{◌≡◌, IfOk, IsPermutation, IsSortedBy, OnOk, map};
ghost use Rattle.std.specs.Arc.{arc_value};
ghost use Rattle.std.specs.List.{AllByRecursion};
ghost use Rattle.std.specs.List.Sorted.{IsStableBy};
ghost use Rattle.pipeline_model.specs.SortKeys.{comes_before};
ghost use Rattle.pipeline_eval.specs.Keyed.{HasKey, document_of, keys_before};

use bson_values::{Document, Memory};
use sort_keys::{SortKey, SortSpec, compare_keys, sort_key};
use std::alloc::Global;
use std::collections::VecDeque;
use std::sync::Arc;

// A document with its key.
#[derive(Drop)]
pub(crate) struct Keyed {
    pub(crate) key: SortKey,
    pub(crate) document: Arc<Document, Global>,
}

// Returns each document with its key, or `Memory` if memory runs out.
fn with_keys(
    alloc: Global,
    spec: &SortSpec,
    documents: Vec<Arc<Document, Global>>,
) -> Result<Vec<Keyed>, Memory>
    ensures documents { IfOk result (λ rows. map document_of rows.items ≡ map arc_value documents.items) }
    ensures keys { IfOk result (λ rows. AllByRecursion (HasKey spec.now) rows.items) }
{
    let mut rows = Vec::with_capacity(alloc, documents.len())?;
    let mut rest = VecDeque::from(documents);
    'rows: while let Some(document) = rest.pop_front() {
        let key = sort_key(alloc, spec, &document)?;
        rows.push(Keyed { key, document })?;
    }
    Ok(rows)
}

/// Returns the documents without their keys, or `Memory` if memory runs out.
pub(crate) fn without_keys(
    alloc: Global,
    rows: Vec<Keyed>,
) -> Result<Vec<Arc<Document, Global>>, Memory>
    ensures { IfOk result (λ ds. map arc_value ds.items ≡ map document_of rows.items) }
{
    let mut documents = Vec::with_capacity(alloc, rows.len())?;
    let mut rest = VecDeque::from(rows);
    'rows: while let Some(row) = rest.pop_front() {
        documents.push(row.document)?;
    }
    Ok(documents)
}

/// Sorts the rows by their keys. Returns `Memory` if memory runs out.
pub(crate) fn sort_rows(spec: &SortSpec, rows: &mut Vec<Keyed>) -> Result<(), Memory>
    ensures permutes { IsPermutation rows.old.items rows.new.items }
    ensures sorted { OnOk result (IsSortedBy (keys_before spec.now) rows.new.items) }
    ensures stable { IsStableBy (keys_before spec.now) rows.old.items rows.new.items }
{
    rows.sort_by(|a, b| compare_keys(spec, &a.key, &b.key))?;
    Ok(())
}

/// Returns the documents in order; those that compare equal keep their order. Returns `Memory` if memory runs out.
pub fn sorted(
    alloc: Global,
    spec: &SortSpec,
    documents: Vec<Arc<Document, Global>>,
) -> Result<Vec<Arc<Document, Global>>, Memory>
    ensures permutes { IfOk result (λ ds. IsPermutation (map arc_value documents.items) (map arc_value ds.items)) }
    ensures sorted { IfOk result (λ ds. IsSortedBy (comes_before spec.now) (map arc_value ds.items)) }
    ensures stable { IfOk result (λ ds. IsStableBy (comes_before spec.now) (map arc_value documents.items) (map arc_value ds.items)) }
{
    let mut rows = with_keys(alloc, spec, documents)?;
    sort_rows(spec, &mut rows)?;
    let sorted = without_keys(alloc, rows)?;
    Ok(sorted)
}
