//! Answers to writes.

ghost use Rattle.std.specs.Prelude.{◌≡◌, ◌+◌, ◌++◌, ◌∷◌, [], IfOk, OnOk, map};
ghost use Rattle.std.specs.Option.{option_map};
ghost use Rattle.reply_model.specs.Outcomes as outcomes;
ghost use Rattle.command_replies.specs.AnswerMeanings.{answer_view};
ghost use Rattle.command_replies.specs.Kinds.{kind_view};
ghost use Rattle.protocol_model.specs.Statements as told;
ghost use Rattle.protocol_model.specs.Statements.{done_view};
ghost use Rattle.router_writes.specs.Counts as counts;
ghost use Rattle.write_runs.specs.Runs.{answers_view};

use crate::told::{errors_of, upserted_by};
use bson_values::Memory;
use cluster_base::Time;
use command_replies::{Answer, WriteKind};
use protocol_model::{Done, DoneList, StatementOutcome};
use std::alloc::Global;

/// Returns the sum of two counts, or `Memory` where that exceeds 32 bits, which no command reaches.
fn plus(sum: u32, more: u32) -> Result<u32, Memory>
    ensures { IfOk result (λ whole. whole ≡ sum + more) }
{
    match sum.checked_add(more) {
        Some(whole) => Ok(whole),
        None => Err(Memory),
    }
}

/// Returns how many documents a statement inserted, matched or deleted.
fn count_of(answer: &StatementOutcome) -> u32
    ensures { result ≡ (outcomes.outcome_in (told.answer_view answer.now)).count }
{
    match answer {
        StatementOutcome::WasDone { outcome, .. } => outcome.count,
        StatementOutcome::Older(_) | StatementOutcome::WasRefused(_) => 0,
    }
}

/// Returns how many documents a statement changed.
fn changed_by(answer: &StatementOutcome) -> u32
    ensures { result ≡ (outcomes.outcome_in (told.answer_view answer.now)).modified }
{
    match answer {
        StatementOutcome::WasDone { outcome, .. } => outcome.modified,
        StatementOutcome::Older(_) | StatementOutcome::WasRefused(_) => 0,
    }
}

/// Returns how many documents were inserted, matched or deleted, or `Memory` where that exceeds 32 bits, which no command reaches.
fn sum_of(dones: &[Done]) -> Result<u32, Memory>
    ensures { IfOk result (λ sum. sum ≡ outcomes.sum_of (map done_view dones.now)) }
{
    let mut sum: u32 = 0;
    for done in dones {
        sum = plus(sum, count_of(&done.answer))?;
    }
    Ok(sum)
}

/// Returns how many documents were changed, or `Memory` where that exceeds 32 bits, which no command reaches.
fn modified_by(dones: &[Done]) -> Result<u32, Memory>
    ensures { IfOk result (λ sum. sum ≡ outcomes.modified_by (map done_view dones.now)) }
{
    let mut sum: u32 = 0;
    for done in dones {
        sum = plus(sum, changed_by(&done.answer))?;
    }
    Ok(sum)
}

/// Returns the greatest of a time, if there is one, and of the time of an outcome's entry, if it has one.
fn greatest(time: Option<Time>, answer: &StatementOutcome) -> Option<Time>
    ensures { option_map (λ t. t.0) result ≡ counts.greatest (option_map (λ t. t.0) time) (told.answer_view answer.now) }
{
    match answer {
        StatementOutcome::WasDone { time: next, .. } => match time {
            Some(time) => Some(Time(next.0.max(time.0))),
            None => Some(*next),
        },
        StatementOutcome::Older(_) | StatementOutcome::WasRefused(_) => time,
    }
}

/// Returns the greatest time of the entries, if there are any.
#[tactic(auto, using(crate::proofs::Times::latest_goes_on, crate::proofs::Times::latest_of_all))]
fn time_of(dones: &[Done]) -> Option<Time>
    ensures { option_map (λ t. t.0) result ≡ outcomes.time_of (map done_view dones.now) }
{
    let mut time = None;
    for done in dones {
        time = greatest(time, &done.answer);
    }
    time
}

/// Appends the outcome of the statement with an index, if it has one. Returns `Memory` if memory runs out.
fn add_done(
    dones: &mut DoneList,
    index: u32,
    answer: &Option<StatementOutcome>,
) -> Result<(), Memory>
    ensures { OnOk result (map done_view dones.new.items ≡ map done_view dones.old.items ++ outcomes.dones_from index (option_map told.answer_view answer.now ∷ [])) }
{
    if let Some(outcome) = answer {
        let answer = outcome.copy()?;
        dones.push(Done { index, answer })?;
    }
    Ok(())
}

/// Returns the outcomes that there are, with the indices of their statements. Returns `Memory` if memory runs out, and where an index exceeds 32 bits.
fn dones_of(alloc: Global, answers: &[Option<StatementOutcome>]) -> Result<DoneList, Memory>
    ensures { IfOk result (λ dones. map done_view dones.items ≡ outcomes.dones_from 0 (answers_view answers.now)) }
{
    let mut dones = Vec::new(alloc);
    let mut index: u32 = 0;
    for answer in answers {
        let next = plus(index, 1)?;
        add_done(&mut dones, index, answer)?;
        index = next;
    }
    Ok(dones)
}

/// Returns the joint answer of these outcomes of a write of this kind, with this time where there is no entry. Returns `Memory` if memory runs out, and where
/// there are more statements than a command can have, or their keys are longer than an answer can have.
#[tactic(auto, using(crate::proofs::Times::time_told))]
fn answer_by(alloc: Global, kind: WriteKind, time: Time, dones: &[Done]) -> Result<Answer, Memory>
    ensures { IfOk result (λ answer. answer_view answer ≡ outcomes.answer_of (kind_view kind) time.0 (map done_view dones.now)) }
{
    let count = sum_of(dones)?;
    let modified = modified_by(dones)?;
    let upserted = upserted_by(alloc, dones)?;
    let errors = errors_of(alloc, dones)?;
    Ok(Answer::Write {
        kind,
        count,
        modified,
        upserted,
        errors,
        time: time_of(dones).unwrap_or(time),
    })
}

/// Returns the joint answer of the statements of a write of this kind, with this time where there is no entry. Returns `Memory` if memory runs out, and where
/// there are more statements than a command can have, or their keys are longer than an answer can have.
pub fn answer_of(
    alloc: Global,
    kind: WriteKind,
    time: Time,
    answers: &[Option<StatementOutcome>],
) -> Result<Answer, Memory>
    ensures { IfOk result (λ answer. answer_view answer
        ≡ outcomes.answer_of (kind_view kind) time.0 (outcomes.dones_from 0 (answers_view answers.now))) }
{
    let dones = dones_of(alloc, answers)?;
    answer_by(alloc, kind, time, &dones)
}
