//! What a table sends of a write.

ghost use Rattle.std.specs.Prelude.{◌≡◌, IfOk, Option, Some, false, map};
ghost use Rattle.std.specs.Option.{option_map};
ghost use Rattle.base_model.specs.Identities.{RequestId};
ghost use Rattle.command_model.specs.Writes.{ClientNumber};
ghost use Rattle.node_model.specs.RouterRequests as requested;
ghost use Rattle.protocol_model.specs.Statements.{statement_view};
ghost use Rattle.write_runs.specs.Places.{first_in};
ghost use Rattle.write_runs.specs.Runs.{all_tries_view, answers_view, course_view, run_view, runs_view};

use crate::answered::has_outcome;
use crate::marks::marks_of;
use crate::owners::shard_for;
use crate::places::{places_of, runs_of};
use crate::run::Run;
use bson_values::Memory;
use chunk_table::{Sent, Table};
use cluster_base::NodeId;
use protocol_model::{Statement, StatementOutcome, Try};
use std::alloc::Global;

/// Returns the first of the statements that has no outcome, if there is one.
fn first_left<'a>(
    statements: &'a [Statement],
    answers: &[Option<StatementOutcome>],
) -> Option<&'a Statement>
    ensures { (given : Option ClientNumber) (id : RequestId) → option_map (λ s. statement_view given id s.now) result
        ≡ first_in (requested.unanswered (map (λ s. statement_view given id s) statements.now) (answers_view answers.now)) }
{
    for statement in statements {
        if !has_outcome(answers, statement.index) {
            return Some(statement);
        }
    }
    None
}

/// Returns whether a statement can be sent to a shard by a table, or `Memory` if memory runs out.
fn goes_to(
    alloc: Global,
    table: &Table,
    tries: &[Vec<Try>],
    shard: NodeId,
    statement: &Statement,
) -> Result<bool, Memory>
    ensures { (given : Option ClientNumber) (id : RequestId) → IfOk result (λ there.
        requested.is_on shard.0 (requested.shard_for table.now (all_tries_view tries.now) (statement_view given id statement.now)) ≡ there) }
{
    match shard_for(alloc, table, tries, statement)? {
        None => Ok(false),
        Some(owner) => Ok(owner.0 == shard.0),
    }
}

/// Returns the indices of the first of the statements that have no outcome, as far as they can be sent to a shard by a table. Returns `Memory` if memory runs
/// out.
fn run_to(
    alloc: Global,
    table: &Table,
    tries: &[Vec<Try>],
    shard: NodeId,
    statements: &[Statement],
    answers: &[Option<StatementOutcome>],
) -> Result<Vec<u32>, Memory>
    ensures { (given : Option ClientNumber) (id : RequestId) → IfOk result (λ indices. indices.items
        ≡ requested.indices_of (requested.run_to table.now (all_tries_view tries.now) shard.0
        (requested.unanswered (map (λ s. statement_view given id s) statements.now) (answers_view answers.now)))) }
{
    let mut indices = Vec::new(alloc);
    for statement in statements {
        if !has_outcome(answers, statement.index) {
            if !goes_to(alloc, table, tries, shard, statement)? {
                return Ok(indices);
            }
            indices.push(statement.index)?;
        }
    }
    Ok(indices)
}

/// Returns the run to a shard, by a table, of the first of the statements that have no outcome, as far as they can be sent there. Returns `Memory` if memory
/// runs out.
#[tactic(auto, using(crate::proofs::Sends::run_is))]
fn run_by(
    alloc: Global,
    table: &Table,
    tries: &[Vec<Try>],
    shard: NodeId,
    statements: &[Statement],
    answers: &[Option<StatementOutcome>],
) -> Result<Run, Memory>
    ensures { (given : Option ClientNumber) (id : RequestId) → IfOk result (λ run. run_view run
        ≡ requested.run_of table.now shard.0 (requested.run_to table.now (all_tries_view tries.now) shard.0
        (requested.unanswered (map (λ s. statement_view given id s) statements.now) (answers_view answers.now)))) }
{
    let indices = run_to(alloc, table, tries, shard, statements, answers)?;
    Ok(Run {
        shard,
        sent: Sent::of(table, shard),
        indices,
    })
}

/// Returns the next run of an ordered write of which no run is under way, by a table; none where all statements are answered, or the table cannot send the
/// next. Returns `Memory` if memory runs out.
fn next_run(
    alloc: Global,
    table: &Table,
    statements: &[Statement],
    answers: &[Option<StatementOutcome>],
    tries: &[Vec<Try>],
) -> Result<Vec<Run>, Memory>
    ensures { (given : Option ClientNumber) (id : RequestId) → IfOk result (λ more. runs_view more.items
        ≡ requested.next_run table.now (all_tries_view tries.now)
        (requested.unanswered (map (λ s. statement_view given id s) statements.now) (answers_view answers.now))) }
{
    let Some(first) = first_left(statements, answers) else {
        return Ok(Vec::new(alloc));
    };
    let Some(shard) = shard_for(alloc, table, tries, first)? else {
        return Ok(Vec::new(alloc));
    };
    let run = run_by(alloc, table, tries, shard, statements, answers)?;
    let mut runs = Vec::new(alloc);
    runs.push(run)?;
    Ok(runs)
}

/// Returns a run to each shard that statements of an unordered write can be sent to by a table, which have no outcome and are in none of these runs. Returns
/// `Memory` if memory runs out.
fn all_runs(
    alloc: Global,
    table: &Table,
    statements: &[Statement],
    answers: &[Option<StatementOutcome>],
    tries: &[Vec<Try>],
    runs: &[Run],
) -> Result<Vec<Run>, Memory>
    ensures { (given : Option ClientNumber) (id : RequestId) → IfOk result (λ more. runs_view more.items
        ≡ requested.all_runs table.now (all_tries_view tries.now)
        (requested.unsent false (map (λ s. statement_view given id s) statements.now) (course_view answers.now tries.now runs.now))) }
{
    let marks = marks_of(alloc, statements.len(), runs)?;
    let places = places_of(alloc, table, statements, answers, tries, runs, &marks)?;
    let more = runs_of(alloc, table, places)?;
    Ok(more)
}

/// Returns the runs that a table sends of a write that has these tries, of which these runs are under way: of an ordered write the next run, where none is
/// under way; of another one a run to each shard that statements can be sent to which have no outcome and are in no run. Returns `Memory` if memory runs out.
pub fn runs_by(
    alloc: Global,
    ordered: bool,
    table: &Table,
    statements: &[Statement],
    answers: &[Option<StatementOutcome>],
    tries: &[Vec<Try>],
    runs: &[Run],
) -> Result<Vec<Run>, Memory>
    ensures { (given : Option ClientNumber) (id : RequestId) → IfOk result (λ more. runs_view more.items
        ≡ requested.runs_by ordered (Some table.now) (map (λ s. statement_view given id s) statements.now)
        (course_view answers.now tries.now runs.now)) }
{
    if !ordered {
        let more = all_runs(alloc, table, statements, answers, tries, runs)?;
        return Ok(more);
    }
    if !runs.is_empty() {
        return Ok(Vec::new(alloc));
    }
    let next = next_run(alloc, table, statements, answers, tries)?;
    Ok(next)
}
