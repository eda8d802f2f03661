//! Tries that met a later table (MongoDB manual, "Sharded Cluster Query Routing"; how many there are is own).

ghost use Rattle.std.specs.Prelude.{◌≡◌, ◌==◌, [], IfOk, OnOk, Option, length, map};
ghost use Rattle.std.specs.Option.{option_map};
ghost use Rattle.base_model.specs.Identities.{RequestId};
ghost use Rattle.chunk_model.specs.Versions.{is_later};
ghost use Rattle.chunk_table.specs.Meanings.{version_view};
ghost use Rattle.command_model.specs.Writes.{ClientNumber};
ghost use Rattle.node_model.specs.RouterRequests as requested;
ghost use Rattle.node_model.specs.RouterNext as nexts;
ghost use Rattle.protocol_model.specs.Refusals.{try_view};
ghost use Rattle.protocol_model.specs.Statements.{statement_view};
ghost use Rattle.reply_model.specs.Outcomes.{most_tries};
ghost use Rattle.write_runs.specs.Runs.{all_tries_view, tries_view};

use bson_values::Memory;
use chunk_table::{Table, Version};
use protocol_model::{Statement, Try};
use std::alloc::Global;

/// So many tries are made.
const MOST_TRIES: usize = 10;

/// Returns whether the first version comes after the second: a later collection of the name, or more moves.
fn is_later(version: Version, other: Version) -> bool
    ensures { result ≡ is_later (version_view version) (version_view other) }
{
    version.epoch > other.epoch || (version.epoch == other.epoch && version.major > other.major)
}

/// Returns the version that the last of these tries met.
fn last_met(tries: &[Try]) -> Option<Version>
    ensures { option_map version_view result ≡ requested.last_met (tries_view tries.now) }
{
    let last = tries.last()?;
    Some(last.met)
}

/// Returns whether a table is not older than what the last of these tries met.
pub fn reaches(table: &Table, tries: &[Try]) -> bool
    ensures { result ≡ requested.reaches table.now (tries_view tries.now) }
{
    match last_met(tries) {
        None => true,
        Some(met) => !is_later(met, table.version()),
    }
}

/// Returns whether the table of a collection, if one is known, is older than a version.
pub fn is_below(table: Option<&Table>, met: Version) -> bool
    ensures { result ≡ nexts.is_below (option_map (λ t. t.now) table.entry) (version_view met) }
{
    match table {
        None => true,
        Some(table) => is_later(met, table.version()),
    }
}

/// Returns whether these are all the tries that are made.
#[tactic(auto, using(crate::proofs::Trying::tries_long))]
pub fn has_all_tries(tries: &[Try]) -> bool
    ensures { result ≡ (length (tries_view tries.now) == most_tries) }
{
    tries.len() == MOST_TRIES
}

/// Returns the number of the turn after these tries, from 1 on, or `Memory` where it exceeds 32 bits, which none does.
pub fn turn_after(tries: &[Try]) -> Result<u32, Memory>
    ensures { IfOk result (λ turn. turn ≡ requested.turn_after (tries_view tries.now)) }
{
    match u32::try_from(tries.len() + 1) {
        Ok(turn) => Ok(turn),
        Err(_) => Err(Memory),
    }
}

/// Returns whether a turn is the one after these tries.
pub fn is_turn(turn: u32, tries: &[Try]) -> bool
    ensures { result ≡ (turn == requested.turn_after (tries_view tries.now)) }
{
    turn as usize == tries.len() + 1
}

/// Returns the tries of the statement with an index.
#[tactic(auto, using(crate::proofs::Trying::tries_here, crate::proofs::Trying::tries_past))]
pub fn tries_at(tries: &[Vec<Try>], index: u32) -> &[Try]
    ensures { tries_view result.now ≡ requested.tries_at index (all_tries_view tries.now) }
{
    let place = index as usize;
    if place < tries.len() {
        tries[place].as_slice()
    } else {
        &[]
    }
}

/// Returns no try for each of these statements, or `Memory` if memory runs out.
pub fn no_tries(alloc: Global, statements: &[Statement]) -> Result<Vec<Vec<Try>>, Memory>
    ensures { (given : Option ClientNumber) (id : RequestId) → IfOk result (λ tries. all_tries_view tries.items
        ≡ map (λ s. []) (map (λ s. statement_view given id s) statements.now)) }
{
    let mut tries = Vec::with_capacity(alloc, statements.len())?;
    for _statement in statements {
        tries.push(Vec::new(alloc))?;
    }
    Ok(tries)
}

/// Returns a copy of the tries of the statements, or `Memory` if memory runs out.
pub fn copy_tries(alloc: Global, tries: &[Vec<Try>]) -> Result<Vec<Vec<Try>>, Memory>
    ensures { IfOk result (λ copy. all_tries_view copy.items ≡ all_tries_view tries.now) }
{
    let mut copy = Vec::with_capacity(alloc, tries.len())?;
    for own in tries {
        copy.push(Vec::from_slice(alloc, own.as_slice())?)?;
    }
    Ok(copy)
}

/// Adds a try to the statement with an index, if there is one. Returns `Memory` if memory runs out.
#[tactic(auto, using(crate::proofs::Trying::one_added, crate::proofs::Trying::none_added))]
fn add_try(tries: &mut Vec<Vec<Try>>, index: u32, one: Try) -> Result<(), Memory>
    ensures { OnOk result (all_tries_view tries.new.items ≡ requested.with_try (try_view one) index (all_tries_view tries.old.items)) }
{
    let place = index as usize;
    if place < tries.len() {
        tries[place].push(one)?;
    }
    Ok(())
}

/// Returns the tries of the statements with one more of those with these indices. Returns `Memory` if memory runs out.
pub fn with_tries(
    alloc: Global,
    tries: &[Vec<Try>],
    indices: &[u32],
    one: Try,
) -> Result<Vec<Vec<Try>>, Memory>
    ensures { IfOk result (λ more. all_tries_view more.items
        ≡ requested.with_tries (try_view one) indices.now (all_tries_view tries.now)) }
{
    let mut more = copy_tries(alloc, tries)?;
    for index in indices {
        add_try(&mut more, *index, one)?;
    }
    Ok(more)
}
