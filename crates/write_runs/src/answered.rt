//! Which statements have outcomes, and what of runs is not answered.

ghost use Rattle.std.specs.Prelude.{◌≡◌, ◌++◌, ◌∷◌, [], IfOk, OnOk, filter, not};
ghost use Rattle.std.specs.List.{list_any};
ghost use Rattle.node_model.specs.RouterNext as nexts;
ghost use Rattle.reply_model.specs.Outcomes as outcomes;
ghost use Rattle.write_runs.specs.Runs.{answers_view, run_view, runs_view};

use crate::run::Run;
use bson_values::Memory;
use protocol_model::StatementOutcome;
use std::alloc::Global;

/// Returns whether the statement with an index has an outcome.
#[tactic(auto, using(crate::proofs::Outcomes::outcome_at, crate::proofs::Outcomes::outcome_past))]
pub fn has_outcome(answers: &[Option<StatementOutcome>], index: u32) -> bool
    ensures { result ≡ outcomes.has_outcome (answers_view answers.now) index }
{
    let place = index as usize;
    if place < answers.len() {
        answers[place].is_some()
    } else {
        false
    }
}

/// Returns whether one of the statements with these indices has an outcome.
fn is_served(answers: &[Option<StatementOutcome>], indices: &[u32]) -> bool
    ensures { result ≡ list_any (outcomes.has_outcome (answers_view answers.now)) indices.now }
{
    for index in indices {
        if has_outcome(answers, *index) {
            return true;
        }
    }
    false
}

/// Returns those of these indices whose statements have no outcome, in order, or `Memory` if memory runs out.
fn left_in(
    alloc: Global,
    answers: &[Option<StatementOutcome>],
    indices: &[u32],
) -> Result<Vec<u32>, Memory>
    ensures { IfOk result (λ left. left.items ≡ filter (λ i. not (outcomes.has_outcome (answers_view answers.now) i)) indices.now) }
{
    let mut left = Vec::new(alloc);
    for index in indices {
        if !has_outcome(answers, *index) {
            left.push(*index)?;
        }
    }
    Ok(left)
}

/// Appends what is not answered of a run, if there is something. Returns `Memory` if memory runs out.
#[tactic(auto, using(crate::proofs::Lefts::nothing_left, crate::proofs::Lefts::rest_pushed))]
fn add_left(
    alloc: Global,
    list: &mut Vec<Run>,
    answers: &[Option<StatementOutcome>],
    run: &Run,
) -> Result<(), Memory>
    ensures { OnOk result (runs_view list.new.items
        ≡ runs_view list.old.items ++ nexts.left_of (answers_view answers.now) (run_view run.now ∷ [])) }
{
    let indices = left_in(alloc, answers, &run.indices)?;
    if indices.is_empty() {
        return Ok(());
    }
    list.push(Run {
        shard: run.shard,
        sent: run.sent,
        indices,
    })?;
    Ok(())
}

/// Appends what is not answered of a run, if some of its statements are answered. Returns `Memory` if memory runs out.
fn add_rest(
    alloc: Global,
    list: &mut Vec<Run>,
    answers: &[Option<StatementOutcome>],
    run: &Run,
) -> Result<(), Memory>
    ensures { OnOk result (runs_view list.new.items ≡ runs_view list.old.items
        ++ nexts.left_of (answers_view answers.now) (nexts.served_in_part (answers_view answers.now) (run_view run.now ∷ []))) }
{
    if !is_served(answers, &run.indices) {
        return Ok(());
    }
    add_left(alloc, list, answers, run)?;
    Ok(())
}

/// Returns what is not answered of runs, in order, or `Memory` if memory runs out.
pub fn left_of(
    alloc: Global,
    answers: &[Option<StatementOutcome>],
    runs: &[Run],
) -> Result<Vec<Run>, Memory>
    ensures { IfOk result (λ left. runs_view left.items ≡ nexts.left_of (answers_view answers.now) (runs_view runs.now)) }
{
    let mut left = Vec::new(alloc);
    for run in runs {
        add_left(alloc, &mut left, answers, run)?;
    }
    Ok(left)
}

/// Returns what is not answered of the runs of which some statements are answered, in order, or `Memory` if memory runs out.
pub fn rest_of_served(
    alloc: Global,
    answers: &[Option<StatementOutcome>],
    runs: &[Run],
) -> Result<Vec<Run>, Memory>
    ensures { IfOk result (λ rest. runs_view rest.items
        ≡ nexts.left_of (answers_view answers.now) (nexts.served_in_part (answers_view answers.now) (runs_view runs.now))) }
{
    let mut rest = Vec::new(alloc);
    for run in runs {
        add_rest(alloc, &mut rest, answers, run)?;
    }
    Ok(rest)
}
