//! Statements that are to be sent, with the shards that they can be sent to.

ghost use Rattle.std.specs.Prelude.{◌≡◌, ◌==◌, ◌++◌, ◌∷◌, [], IfOk, OnOk, Option, filter, map};
ghost use Rattle.std.specs.List.{list_any};
ghost use Rattle.base_model.specs.Identities.{RequestId};
ghost use Rattle.chunk_table.specs.Shards.{shard_number};
ghost use Rattle.command_model.specs.Writes.{ClientNumber};
ghost use Rattle.protocol_model.specs.Statements.{statement_view};
ghost use Rattle.write_runs.specs.Marks.{AreMarks, in_one_of, is_new};
ghost use Rattle.write_runs.specs.Places.{all_placed, indices_to, place_view, runs_to, shards_among};
ghost use Rattle.write_runs.specs.Runs.{all_tries_view, answers_view, runs_view};

use crate::owners::shard_for;
use crate::run::Run;
use crate::unsent::is_new;
use bson_values::Memory;
use chunk_table::{Sent, Table};
use cluster_base::NodeId;
use protocol_model::{Statement, StatementOutcome, Try};
use std::alloc::Global;

/// A statement by its index, and the shard that it can be sent to.
#[derive(Clone, Copy, Debug, PartialEq, Eq)]
pub(crate) struct Place {
    pub(crate) index: u32,
    pub(crate) shard: NodeId,
}

/// Appends the place of a statement, if it can be sent by a table. Returns `Memory` if memory runs out.
fn add_place(
    alloc: Global,
    places: &mut Vec<Place>,
    table: &Table,
    tries: &[Vec<Try>],
    statement: &Statement,
) -> Result<(), Memory>
    ensures { (given : Option ClientNumber) (id : RequestId) → OnOk result (map place_view places.new.items ≡ map place_view places.old.items
        ++ all_placed table.now (all_tries_view tries.now) (statement_view given id statement.now ∷ [])) }
{
    if let Some(shard) = shard_for(alloc, table, tries, statement)? {
        places.push(Place {
            index: statement.index,
            shard,
        })?;
    }
    Ok(())
}

/// Returns the statements that have no outcome and are in none of these runs, by their marks, and that can be sent by a table, each with its shard. Returns
/// `Memory` if memory runs out.
pub(crate) fn places_of(
    alloc: Global,
    table: &Table,
    statements: &[Statement],
    answers: &[Option<StatementOutcome>],
    tries: &[Vec<Try>],
    runs: &[Run],
    marks: &[bool],
) -> Result<Vec<Place>, Memory>
    requires { AreMarks marks.now (in_one_of (runs_view runs.now)) }
    ensures { (given : Option ClientNumber) (id : RequestId) → IfOk result (λ places. map place_view places.items
        ≡ all_placed table.now (all_tries_view tries.now)
        (filter (is_new (answers_view answers.now) (runs_view runs.now)) (map (λ s. statement_view given id s) statements.now))) }
{
    let mut places = Vec::new(alloc);
    for statement in statements {
        if is_new(answers, runs, marks, statement) {
            add_place(alloc, &mut places, table, tries, statement)?;
        }
    }
    Ok(places)
}

/// Returns whether a shard is one of these.
fn is_among(shards: &[NodeId], shard: NodeId) -> bool
    ensures { result ≡ list_any (λ other. other == shard.0) (map shard_number shards.now) }
{
    for other in shards {
        if other.0 == shard.0 {
            return true;
        }
    }
    false
}

/// Returns the shards of these places, each once, in order of the first place of each. Returns `Memory` if memory runs out.
fn shards_of(alloc: Global, places: &[Place]) -> Result<Vec<NodeId>, Memory>
    ensures { IfOk result (λ shards. map shard_number shards.items ≡ shards_among (map place_view places.now)) }
{
    let mut shards = Vec::new(alloc);
    for place in places {
        if !is_among(&shards, place.shard) {
            shards.push(place.shard)?;
        }
    }
    Ok(shards)
}

/// Returns the indices at the places of a shard, in order, or `Memory` if memory runs out.
fn indices_to(alloc: Global, shard: NodeId, places: &[Place]) -> Result<Vec<u32>, Memory>
    ensures { IfOk result (λ indices. indices.items ≡ indices_to shard.0 (map place_view places.now)) }
{
    let mut indices = Vec::new(alloc);
    for place in places {
        if place.shard.0 == shard.0 {
            indices.push(place.index)?;
        }
    }
    Ok(indices)
}

/// Returns a run to each of these shards, with what is at its places, and with its versions by a table. Returns `Memory` if memory runs out.
fn runs_to(
    alloc: Global,
    table: &Table,
    shards: &[NodeId],
    places: &[Place],
) -> Result<Vec<Run>, Memory>
    ensures { IfOk result (λ runs. runs_view runs.items ≡ runs_to table.now (map shard_number shards.now) (map place_view places.now)) }
{
    let mut runs = Vec::with_capacity(alloc, shards.len())?;
    for shard in shards {
        let indices = indices_to(alloc, *shard, places)?;
        runs.push(Run {
            shard: *shard,
            sent: Sent::of(table, *shard),
            indices,
        })?;
    }
    Ok(runs)
}

/// Returns a run to each shard of these places, with its versions by a table. Returns `Memory` if memory runs out.
pub(crate) fn runs_of(alloc: Global, table: &Table, places: Vec<Place>) -> Result<Vec<Run>, Memory>
    ensures { IfOk result (λ runs. runs_view runs.items
        ≡ runs_to table.now (shards_among (map place_view places.items)) (map place_view places.items)) }
{
    let shards = shards_of(alloc, &places)?;
    runs_to(alloc, table, &shards, &places)
}
