//! To which shards a read is sent, by a table.

ghost use Rattle.std.specs.Prelude.{◌≡◌, List, [], IfOk, map};
ghost use Rattle.std.specs.List.{list_all};
ghost use Rattle.chunk_model.specs.Targets.{targets};
ghost use Rattle.chunk_table.specs.Meanings.{chunk_view};
ghost use Rattle.chunk_table.specs.Shards.{shard_number};
ghost use Rattle.node_model.specs.RouterRequests as requested;
ghost use Rattle.pipeline_lang.specs.Halves.{half_of};
ghost use Rattle.read_parts.specs.Parts.{target_view, targets_by, targets_to};
ghost use Rattle.value_model.specs.Keys.{Span};

use crate::parts::Target;
use bson_values::{Memory, Value};
use chunk_table::{Chunk, Sent, Table};
use cluster_base::{NodeId, Time};
use pipeline_lang::Half;
use std::alloc::Global;

/// Returns whether a chunk has an owner at a time.
fn has_owner(chunk: &Chunk, at: Time) -> bool
    ensures { result ≡ requested.has_owner at.0 (chunk_view chunk.now) }
{
    chunk.history.at(at).is_some()
}

/// Returns whether each of these chunks has an owner at a time.
fn are_owned(chunks: &[Chunk], at: Time) -> bool
    ensures { result ≡ list_all (requested.has_owner at.0) (map chunk_view chunks.now) }
{
    for chunk in chunks {
        if !has_owner(chunk, at) {
            return false;
        }
    }
    true
}

/// Returns whether a table says who owned each key at a time.
pub fn is_owned(table: &Table, at: Time) -> bool
    ensures { result ≡ requested.is_owned_at table.now at.0 }
{
    are_owned(table.chunks(), at)
}

/// Returns the owner of the least key at a time, if it has one: that of a span without keys. Returns `Memory` if memory runs out.
#[tactic(auto, using(crate::proofs::Owners::least_owns, crate::proofs::Owners::none_owns))]
fn least_owner(alloc: Global, table: &Table, at: Time) -> Result<Vec<NodeId>, Memory>
    ensures { (span : List Span) → targets table.now span at.0 ≡ [] →
        IfOk result (λ owners. map shard_number owners.items ≡ requested.owners_of_span table.now at.0 span) }
{
    let Some(shard) = table.owner_of_value(&Value::Null, at) else {
        return Ok(Vec::new(alloc));
    };
    let mut owners = Vec::new(alloc);
    owners.push(shard)?;
    Ok(owners)
}

/// Returns the shards that own keys of the span of a half at a time, rising; where it has no key, the owner of the least one. Returns `Memory` if memory
/// runs out.
#[tactic(auto, using(crate::proofs::Owners::some_own))]
fn owners_of(alloc: Global, table: &Table, at: Time, half: &Half) -> Result<Vec<NodeId>, Memory>
    ensures { IfOk result (λ owners. map shard_number owners.items ≡ requested.owners_of_span table.now at.0 (half_of half.now).span) }
{
    let owners = table.targets(half.span.spans(), at)?;
    if owners.is_empty() {
        least_owner(alloc, table, at)
    } else {
        Ok(owners)
    }
}

/// Returns these shards, each with the versions of a table that are sent to it. Returns `Memory` if memory runs out.
fn all_targets(alloc: Global, table: &Table, shards: &[NodeId]) -> Result<Vec<Target>, Memory>
    ensures { IfOk result (λ targets. map target_view targets.items ≡ targets_to table.now (map shard_number shards.now)) }
{
    let mut targets = Vec::with_capacity(alloc, shards.len())?;
    for shard in shards {
        targets.push(Target {
            shard: *shard,
            sent: Sent::of(table, *shard),
        })?;
    }
    Ok(targets)
}

/// Returns the shards that a read with this half is sent to at a time, by a table, with the versions that are sent along: the owners of its span. Returns
/// `Memory` if memory runs out.
pub fn targets_of(
    alloc: Global,
    table: &Table,
    at: Time,
    half: &Half,
) -> Result<Vec<Target>, Memory>
    ensures { IfOk result (λ targets. map target_view targets.items ≡ targets_by table.now at.0 (half_of half.now).span) }
{
    let owners = owners_of(alloc, table, at, half)?;
    all_targets(alloc, table, &owners)
}
