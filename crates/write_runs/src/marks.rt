//! Which statements are in runs, by marks at their indices.

ghost use Rattle.std.specs.Prelude.{◌≡◌, ◌==◌, ◌||◌, ℕ, ◌<◌, IfOk, false, length, replicate, slice_index_or as get_or};
ghost use Rattle.node_model.specs.RouterRequests as requested;
ghost use Rattle.write_runs.specs.Marks.{AreMarks, in_one_of};
ghost use Rattle.write_runs.specs.Runs.{runs_view};

use crate::run::Run;
use bson_values::Memory;
use std::alloc::Global;

/// Returns whether one of these indices is this one.
fn has_index(indices: &[u32], index: u32) -> bool
    ensures { result ≡ requested.has_index indices.now index }
{
    for other in indices {
        if *other == index {
            return true;
        }
    }
    false
}

/// Returns whether one of these runs has an index.
fn have_index(runs: &[Run], index: u32) -> bool
    ensures { result ≡ in_one_of (runs_view runs.now) index }
{
    for run in runs {
        if has_index(&run.indices, index) {
            return true;
        }
    }
    false
}

/// Marks the place of an index, if there is one.
fn mark(marks: &mut Vec<bool>, index: u32)
    ensures length { length marks.new.items ≡ length marks.old.items }
    ensures marks { (i : ℕ) → i < length marks.old.items →
        get_or marks.new.items i false ≡ (get_or marks.old.items i false || (index == i)) }
{
    let place = index as usize;
    if place < marks.len() {
        marks[place] = true;
    }
}

/// Marks the places of these indices, as far as there are some.
fn mark_all(marks: &mut Vec<bool>, indices: &[u32])
    ensures length { length marks.new.items ≡ length marks.old.items }
    ensures marks { (i : ℕ) → i < length marks.old.items →
        get_or marks.new.items i false ≡ (get_or marks.old.items i false || requested.has_index indices.now i) }
{
    for index in indices {
        mark(marks, *index);
    }
}

/// Returns a place for each index below `count`, none of them marked. Returns `Memory` if memory runs out.
fn no_marks(alloc: Global, count: usize) -> Result<Vec<bool>, Memory>
    ensures { IfOk result (λ marks. marks.items ≡ replicate count false) }
{
    let mut marks = Vec::new(alloc);
    marks.resize(count, false)?;
    Ok(marks)
}

/// Returns a place for each index below `count`, with whether a run has it. Returns `Memory` if memory runs out.
pub(crate) fn marks_of_run(alloc: Global, count: usize, run: &Run) -> Result<Vec<bool>, Memory>
    ensures { IfOk result (λ marks. AreMarks marks.items (requested.has_index run.now.indices.items)) }
{
    let mut marks = no_marks(alloc, count)?;
    mark_all(&mut marks, &run.indices);
    Ok(marks)
}

/// Returns a place for each index below `count`, with whether one of these runs has it. Returns `Memory` if memory runs out.
pub(crate) fn marks_of(alloc: Global, count: usize, runs: &[Run]) -> Result<Vec<bool>, Memory>
    ensures { IfOk result (λ marks. AreMarks marks.items (in_one_of (runs_view runs.now))) }
{
    let mut marks = no_marks(alloc, count)?;
    for run in runs {
        mark_all(&mut marks, &run.indices);
    }
    Ok(marks)
}

/// Returns whether a run has an index, by the marks of the run.
pub(crate) fn is_in_run(marks: &[bool], run: &Run, index: u32) -> bool
    requires { AreMarks marks.now (requested.has_index run.now.indices.items) }
    ensures { result ≡ requested.has_index run.now.indices.items index }
{
    let place = index as usize;
    if place < marks.len() {
        marks[place]
    } else {
        has_index(&run.indices, index)
    }
}

/// Returns whether one of these runs has an index, by their marks.
pub(crate) fn is_in_runs(marks: &[bool], runs: &[Run], index: u32) -> bool
    requires { AreMarks marks.now (in_one_of (runs_view runs.now)) }
    ensures { result ≡ in_one_of (runs_view runs.now) index }
{
    let place = index as usize;
    if place < marks.len() {
        marks[place]
    } else {
        have_index(runs, index)
    }
}
