//! Runs by their turns.

ghost use Rattle.std.specs.Prelude.{◌≡◌, ◌==◌, ◌&&◌, ◌++◌, [], ◌∷◌, IfOk, List, OnOk, Option, length, nat_lt};
ghost use Rattle.std.specs.List.{list_any};
ghost use Rattle.std.specs.Option.{option_map};
ghost use Rattle.node_model.specs.RouterRequests as requested;
ghost use Rattle.node_model.specs.RouterNext as nexts;
ghost use Rattle.node_model.specs.States as states;
ghost use Rattle.protocol_model.specs.declared.statement.StatementOutcome.{StatementOutcome};
ghost use Rattle.write_runs.specs.Runs.{all_tries_view, course_view, run_view, runs_view};

use crate::run::Run;
use crate::tries::{is_turn, tries_at, turn_after};
use bson_values::Memory;
use protocol_model::Try;
use std::alloc::Global;

/// Returns the turn of a run of a write with these tries, or `Memory` where it exceeds 32 bits, which none does.
pub fn turn_of(tries: &[Vec<Try>], run: &Run) -> Result<u32, Memory>
    ensures { IfOk result (λ turn. turn
        ≡ requested.turn_after (requested.tries_at (requested.first_index run.now.indices.items) (all_tries_view tries.now))) }
{
    turn_after(tries_at(tries, run.first()))
}

/// Returns whether a run of a write with these tries begins with this statement, and has this turn.
fn is_about(turn: u32, first: u32, tries: &[Vec<Try>], run: &Run) -> bool
    ensures { result ≡ ((requested.first_index run.now.indices.items == first)
        && (requested.turn_after (requested.tries_at (requested.first_index run.now.indices.items) (all_tries_view tries.now)) == turn)) }
{
    let own = run.first();
    own == first && is_turn(turn, tries_at(tries, own))
}

/// Returns the run that a message was about, by its turn and its first statement, if it is one of these, of a write with these tries.
pub fn run_with<'a>(turn: u32, first: u32, tries: &[Vec<Try>], runs: &'a [Run]) -> Option<&'a Run>
    ensures { (answers : List (Option StatementOutcome)) → option_map (λ run. run_view run.now) result
        ≡ nexts.run_with turn first (course_view answers tries.now runs.now) (runs_view runs.now) }
{
    for run in runs {
        if is_about(turn, first, tries, run) {
            return Some(run);
        }
    }
    None
}

/// Appends a copy of a run, unless its first statement has this index. Returns `Memory` if memory runs out.
fn add_other(list: &mut Vec<Run>, first: u32, run: &Run) -> Result<(), Memory>
    ensures { OnOk result (runs_view list.new.items ≡ runs_view list.old.items ++ nexts.without_run first (run_view run.now ∷ [])) }
{
    if run.first() != first {
        list.push(run.copy()?)?;
    }
    Ok(())
}

/// Returns the runs but the one whose first statement has this index, or `Memory` if memory runs out.
pub fn without_run(alloc: Global, first: u32, runs: &[Run]) -> Result<Vec<Run>, Memory>
    ensures { IfOk result (λ list. runs_view list.items ≡ nexts.without_run first (runs_view runs.now)) }
{
    let mut list = Vec::new(alloc);
    for run in runs {
        add_other(&mut list, first, run)?;
    }
    Ok(list)
}

/// Returns whether a run has several statements.
fn is_long(run: &Run) -> bool
    ensures { result ≡ nat_lt 1 (length run.now.indices.items) }
{
    run.indices.len() > 1
}

/// Returns whether one of these runs has several statements.
fn any_is_long(runs: &[Run]) -> bool
    ensures { result ≡ list_any (λ (run : states.Run). nat_lt 1 (length run.indices)) (runs_view runs.now) }
{
    for run in runs {
        if is_long(run) {
            return true;
        }
    }
    false
}

/// Returns whether several statements of a write are bound together in a run: where the first were given up, the shard might still apply the others.
pub fn binds_run(ordered: bool, run: &Run) -> bool
    ensures { result ≡ nexts.is_bound ordered (run_view run.now ∷ []) }
{
    ordered && is_long(run)
}

/// Returns whether several statements of a write are bound together in one of its runs.
pub fn binds(ordered: bool, runs: &[Run]) -> bool
    ensures { result ≡ nexts.is_bound ordered (runs_view runs.now) }
{
    ordered && any_is_long(runs)
}
