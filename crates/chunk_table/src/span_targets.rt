//! Which shards have keys of some spans (MongoDB manual, "Sharded Cluster Query Routing", targeted operations).

ghost use Rattle.std.specs.Prelude.{◌≡◌, [], IfOk, map};
ghost use Rattle.value_compare.specs.Spans.{span_of};
ghost use Rattle.chunk_model.specs.Targets.{meets, meets_any, overlap, targets, targets_among, with_shard};
ghost use Rattle.chunk_table.specs.Meanings.{chunk_view};
ghost use Rattle.chunk_table.specs.Shards.{PlacesShard, shard_number};

use crate::chunk::Chunk;
use crate::table::Table;
use bson_values::Memory;
use cluster_base::{NodeId, Time};
use std::alloc::Global;
use std::cmp::Ordering;
use value_compare::{KeyRange, Span};

// Returns whether two ranges overlap, by their bounds.
fn overlap(range: &KeyRange, other: &KeyRange) -> bool
    ensures { result ≡ overlap range.now other.now }
{
    range.min().compare(other.max()) == Ordering::Less
        && other.min().compare(range.max()) == Ordering::Less
}

// Returns whether a range overlaps a span.
fn meets(range: &KeyRange, span: &Span) -> bool
    ensures { result ≡ meets range.now (span_of span.now) }
{
    match span {
        Span::Range(other) => overlap(range, other),
        Span::Point(key) => range.contains(key),
    }
}

// Returns whether a range overlaps one of the spans.
fn meets_any(range: &KeyRange, spans: &[Span]) -> bool
    ensures { result ≡ meets_any range.now (map span_of spans.now) }
{
    for span in spans {
        if meets(range, span) {
            return true;
        }
    }
    false
}

// Returns where a shard goes among others that rise; `None` where it is one of them.
fn place_of(found: &[NodeId], shard: NodeId) -> Option<usize>
    ensures { PlacesShard shard.0 (map shard_number found.now) result }
{
    for (place, own) in found.iter().enumerate() {
        if own.0 == shard.0 {
            return None;
        }
        if shard.0 < own.0 {
            return Some(place);
        }
    }
    Some(found.len())
}

// Adds a shard to others that rise, each once. Fails if memory runs out; then they are as before.
fn add_shard(found: &mut Vec<NodeId>, shard: NodeId) -> Result<(), Memory>
    ensures { IfOk result (λ _. map shard_number found.new.items ≡ with_shard shard.0 (map shard_number found.old.items)) }
{
    if let Some(place) = place_of(found, shard) {
        found.insert(place, shard)?;
    }
    Ok(())
}

// Returns the owners at a time of the chunks that overlap the spans, rising, each once. Fails if memory runs out.
fn targets_among(
    alloc: Global,
    chunks: &[Chunk],
    spans: &[Span],
    time: Time,
) -> Result<Vec<NodeId>, Memory>
    ensures { IfOk result (λ found. map shard_number found.items ≡ targets_among (map span_of spans.now) time.0 [] (map chunk_view chunks.now)) }
{
    let mut found = Vec::new(alloc);
    for chunk in chunks {
        if meets_any(&chunk.range, spans)
            && let Some(shard) = chunk.history.at(time)
        {
            add_shard(&mut found, shard)?;
        }
    }
    Ok(found)
}

impl Table {
    /// Returns the shards that own keys of the spans at a time, by the bounds of the chunks that overlap these, rising, each once. Fails out of
    /// memory.
    pub fn targets(&self, spans: &[Span], time: Time) -> Result<Vec<NodeId>, Memory>
        ensures { IfOk result (λ found. map shard_number found.items ≡ targets self.now (map span_of spans.now) time.0) }
    {
        targets_among(*self.chunks.allocator(), &self.chunks, spans, time)
    }
}
