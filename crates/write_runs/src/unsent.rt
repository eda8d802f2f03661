//! Which statements of a write are to be sent, and which are in a run.

ghost use Rattle.std.specs.Prelude.{◌≡◌, ◌≢◌, ◌==◌, ◌&&◌, [], IfOk, List, Option, false, true, filter, length, map, not};
ghost use Rattle.std.specs.List.{list_any};
ghost use Rattle.base_model.specs.Identities.{RequestId};
ghost use Rattle.command_model.specs.Writes.{ClientNumber};
ghost use Rattle.node_model.specs.RouterRequests as requested;
ghost use Rattle.protocol_model.specs.Statements.{statement_view};
ghost use Rattle.write_runs.specs.Marks.{AreMarks, in_one_of, is_new};
ghost use Rattle.reply_model.specs.Outcomes.{Try};
ghost use Rattle.write_runs.specs.Runs.{answers_view, course_by, run_view, runs_view};

use crate::answered::has_outcome;
use crate::marks::{is_in_run, is_in_runs, marks_of, marks_of_run};
use crate::run::Run;
use bson_values::Memory;
use protocol_model::{Statement, StatementList, StatementOutcome};
use std::alloc::Global;

/// Returns whether a statement has no outcome and is in none of these runs, by their marks.
#[tactic(auto, using(crate::proofs::News::new_by_index))]
pub(crate) fn is_new(
    answers: &[Option<StatementOutcome>],
    runs: &[Run],
    marks: &[bool],
    statement: &Statement,
) -> bool
    requires { AreMarks marks.now (in_one_of (runs_view runs.now)) }
    ensures { (given : Option ClientNumber) (id : RequestId) →
        result ≡ is_new (answers_view answers.now) (runs_view runs.now) (statement_view given id statement.now) }
{
    !has_outcome(answers, statement.index) && !is_in_runs(marks, runs, statement.index)
}

/// Returns whether one of the statements has no outcome and is in none of these runs, by their marks.
fn are_new(
    answers: &[Option<StatementOutcome>],
    runs: &[Run],
    marks: &[bool],
    statements: &[Statement],
) -> bool
    requires { AreMarks marks.now (in_one_of (runs_view runs.now)) }
    ensures { (given : Option ClientNumber) (id : RequestId) → result ≡ list_any (is_new (answers_view answers.now) (runs_view runs.now))
        (map (λ s. statement_view given id s) statements.now) }
{
    for statement in statements {
        if is_new(answers, runs, marks, statement) {
            return true;
        }
    }
    false
}

/// Returns whether a write is to send nothing as long as these runs are under way.
fn waits(ordered: bool, runs: &[Run]) -> bool
    ensures { result ≡ (ordered && not (length runs.now == 0)) }
{
    ordered && !runs.is_empty()
}

/// Returns whether statements are left that are to be sent: that are not answered and in none of these runs; of an ordered write only where there are no runs.
/// Returns `Memory` if memory runs out.
pub fn are_unsent(
    alloc: Global,
    ordered: bool,
    statements: &[Statement],
    answers: &[Option<StatementOutcome>],
    runs: &[Run],
) -> Result<bool, Memory>
    ensures none { (given : Option ClientNumber) (id : RequestId) (tries : List (List Try)) → IfOk result (λ some. some ≡ false →
        requested.unsent ordered (map (λ s. statement_view given id s) statements.now) (course_by answers.now tries runs.now) ≡ []) }
    ensures some { (given : Option ClientNumber) (id : RequestId) (tries : List (List Try)) → IfOk result (λ some. some ≡ true →
        requested.unsent ordered (map (λ s. statement_view given id s) statements.now) (course_by answers.now tries runs.now) ≢ []) }
{
    if waits(ordered, runs) {
        return Ok(false);
    }
    let marks = marks_of(alloc, statements.len(), runs)?;
    Ok(are_new(answers, runs, &marks, statements))
}

/// Returns the indices of the statements that are not answered, in order, or `Memory` if memory runs out.
pub fn unanswered_indices(
    alloc: Global,
    statements: &[Statement],
    answers: &[Option<StatementOutcome>],
) -> Result<Vec<u32>, Memory>
    ensures { (given : Option ClientNumber) (id : RequestId) → IfOk result (λ indices. indices.items
        ≡ requested.indices_of (requested.unanswered (map (λ s. statement_view given id s) statements.now) (answers_view answers.now))) }
{
    let mut indices = Vec::new(alloc);
    for statement in statements {
        if !has_outcome(answers, statement.index) {
            indices.push(statement.index)?;
        }
    }
    Ok(indices)
}

/// Returns the indices of the statements that have no outcome and are in none of these runs, by their marks, in order. Returns `Memory` if memory runs out.
fn new_indices(
    alloc: Global,
    statements: &[Statement],
    answers: &[Option<StatementOutcome>],
    runs: &[Run],
    marks: &[bool],
) -> Result<Vec<u32>, Memory>
    requires { AreMarks marks.now (in_one_of (runs_view runs.now)) }
    ensures { (given : Option ClientNumber) (id : RequestId) → IfOk result (λ indices. indices.items ≡ requested.indices_of
        (filter (is_new (answers_view answers.now) (runs_view runs.now)) (map (λ s. statement_view given id s) statements.now))) }
{
    let mut indices = Vec::new(alloc);
    for statement in statements {
        if is_new(answers, runs, marks, statement) {
            indices.push(statement.index)?;
        }
    }
    Ok(indices)
}

/// Returns the indices of the statements that are to be sent, in order: that are not answered and in none of these runs; of an ordered write only where there
/// are no runs. Returns `Memory` if memory runs out.
pub fn unsent_indices(
    alloc: Global,
    ordered: bool,
    statements: &[Statement],
    answers: &[Option<StatementOutcome>],
    runs: &[Run],
) -> Result<Vec<u32>, Memory>
    ensures { (given : Option ClientNumber) (id : RequestId) (tries : List (List Try)) → IfOk result (λ indices. indices.items ≡ requested.indices_of
        (requested.unsent ordered (map (λ s. statement_view given id s) statements.now) (course_by answers.now tries runs.now))) }
{
    if waits(ordered, runs) {
        return Ok(Vec::new(alloc));
    }
    let marks = marks_of(alloc, statements.len(), runs)?;
    let indices = new_indices(alloc, statements, answers, runs, &marks)?;
    Ok(indices)
}

/// Returns the statements of a run, in order; their documents are shared. Returns `Memory` if memory runs out.
pub fn in_run(alloc: Global, run: &Run, statements: &[Statement]) -> Result<StatementList, Memory>
    ensures { (given : Option ClientNumber) (id : RequestId) → IfOk result (λ list. map (λ s. statement_view given id s) list.items
        ≡ requested.in_run (run_view run.now) (map (λ s. statement_view given id s) statements.now)) }
{
    let marks = marks_of_run(alloc, statements.len(), run)?;
    let mut list = Vec::with_capacity(alloc, run.indices.len())?;
    for statement in statements {
        if is_in_run(&marks, run, statement.index) {
            list.push(statement.copy()?)?;
        }
    }
    Ok(list)
}
