//! The first `count` documents in the order of a sort: what is kept while they are read.

ghost use Rattle.std.specs.Prelude.{◌≡◌, ◌<◌, ◌≤◌, ◌++◌, ◌∷◌, [], IfOk, IsTrue, List, OnOk, cond, length, map, true};
ghost use Rattle.std.specs.Arc.{arc_value};
ghost use Rattle.std.specs.List.{AllByRecursion};
ghost use Rattle.pipeline_model.specs.SortKeys.{comes_before};
ghost use Rattle.pipeline_model.proofs.TopRows.{AreFirst};
ghost use Rattle.pipeline_eval.specs.declared.sorting.Keyed.{Keyed};
ghost use Rattle.pipeline_eval.specs.Keyed.{HasKey, document_of};
ghost use Rattle.pipeline_eval.specs.Tops.{AreTop, CameLate};

use crate::sorting::{Keyed, sort_rows, without_keys};
use bson_values::{Document, Memory};
use sort_keys::{SortKey, SortSpec, compare_keys, sort_key};
use std::alloc::Global;
use std::collections::VecDeque;
use std::sync::Arc;

// Rows that are kept while documents are read. Once they are cut, the first `count` of them are the first of the documents read before the other rows.
#[derive(Drop)]
pub(crate) struct Top {
    pub(crate) rows: Vec<Keyed>,
    pub(crate) is_cut: bool,
}

// Returns whether the rows are cut, and the key does not sort before the last of the first `count` rows.
fn comes_late(spec: &SortSpec, count: usize, top: &Top, key: &SortKey) -> bool
    requires some { 0 < count }
    requires cut { cond top.now.is_cut count 0 ≤ length top.now.rows.items }
    ensures cut { IsTrue result → top.now.is_cut ≡ true }
    ensures late { IsTrue result → CameLate spec.now count top.now.rows.items key.now }
{
    if !top.is_cut {
        return false;
    }
    !compare_keys(spec, key, &top.rows[count - 1].key).is_lt()
}

// Sorts the rows, and keeps the first `count`. Returns `Memory` if memory runs out.
fn cut_rows(spec: &SortSpec, count: usize, top: &mut Top) -> Result<(), Memory>
    requires some { 0 < count }
    requires many { count ≤ length top.old.rows.items }
    ensures cut { OnOk result (cond top.new.is_cut count 0 ≤ length top.new.rows.items) }
    ensures top { OnOk result ((seen : List Keyed) → AreTop spec.now count top.old.is_cut seen top.old.rows.items
        → AreTop spec.now count top.new.is_cut seen top.new.rows.items) }
{
    sort_rows(spec, &mut top.rows)?;
    top.rows.truncate(count);
    top.is_cut = true;
    Ok(())
}

// Adds the row of the next document. Returns `Memory` if memory runs out.
fn put(spec: &SortSpec, count: usize, top: &mut Top, row: Keyed) -> Result<(), Memory>
    requires some { 0 < count }
    requires cut { cond top.old.is_cut count 0 ≤ length top.old.rows.items }
    ensures cut { OnOk result (cond top.new.is_cut count 0 ≤ length top.new.rows.items) }
    ensures top { OnOk result ((seen : List Keyed) → AreTop spec.now count top.old.is_cut seen top.old.rows.items
        → AreTop spec.now count top.new.is_cut (seen ++ row ∷ []) top.new.rows.items) }
{
    if comes_late(spec, count, top, &row.key) {
        return Ok(());
    }
    top.rows.push(row)?;
    if top.rows.len() / 2 < count {
        return Ok(());
    }
    cut_rows(spec, count, top)?;
    Ok(())
}

// Returns the rows that are kept of all documents: at most twice `count`. Returns `Memory` if memory runs out.
fn kept_rows(
    alloc: Global,
    spec: &SortSpec,
    count: usize,
    documents: Vec<Arc<Document, Global>>,
) -> Result<Top, Memory>
    requires { 0 < count }
    ensures { IfOk result (λ top. (seen : List Keyed) × (map document_of seen ≡ map arc_value documents.items) × AllByRecursion (HasKey spec.now) seen
        × AreTop spec.now count top.is_cut seen top.rows.items) }
{
    let mut top = Top {
        rows: Vec::new(alloc),
        is_cut: false,
    };
    let mut rest = VecDeque::from(documents);
    'rows: while let Some(document) = rest.pop_front() {
        let key = sort_key(alloc, spec, &document)?;
        put(spec, count, &mut top, Keyed { key, document })?;
    }
    Ok(top)
}

/// Returns the first `count` documents in order. At most twice `count` are kept meanwhile, with their keys. Returns `Memory` if memory runs out.
pub(crate) fn first_sorted(
    alloc: Global,
    spec: &SortSpec,
    count: usize,
    documents: Vec<Arc<Document, Global>>,
) -> Result<Vec<Arc<Document, Global>>, Memory>
    requires { 0 < count }
    ensures { IfOk result (λ ds. AreFirst (comes_before spec.now) count (map arc_value documents.items) (map arc_value ds.items)) }
{
    let Top {
        mut rows,
        is_cut: _is_cut,
    } = kept_rows(alloc, spec, count, documents)?;
    sort_rows(spec, &mut rows)?;
    rows.truncate(count);
    let first = without_keys(alloc, rows)?;
    Ok(first)
}
