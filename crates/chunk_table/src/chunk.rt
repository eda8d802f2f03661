//! Chunks of keys, and who has them (MongoDB manual, "Data Partitioning with Chunks"; that a chunk keeps its owners of the past is
//! own).

ghost use Rattle.std.specs.Prelude.{◌≡◌, ◌<◌, ◌^◌, ◌∷◌, IfOk, length, map, true};
ghost use Rattle.std.specs.List.{AllByRecursion};
ghost use Rattle.std.specs.Option.{option_map};
ghost use Rattle.chunk_model.specs.Tables.{chunk_of, chunks_on, greatest_version, is_owner, newest, owner_among};
ghost use Rattle.chunk_table.specs.Meanings.{chunk_view, owned_view, version_view};
ghost use Rattle.chunk_table.specs.Whole.{HasRange, follow_from};
ghost use Rattle.std.specs.Ordering.{is_eq};
ghost use Rattle.bson_values.specs.View.{datum_of};
ghost use Rattle.value_compare.specs.Bounds.{bound_of};
ghost use Rattle.value_model.specs.Keys.{min_bound, order_bounds};

use crate::version::Version;
use bson_values::{Memory, Value};
use cluster_base::{NodeId, Time};
use std::alloc::Global;
use std::cmp::Ordering;
use std::marker::Model;
use value_compare::{Bound, KeyRange};

/// The most owners of a chunk that a journal can encode.
const MOST_OWNERS: usize = 0xffff_ffff;

/// A shard has the keys of a chunk, from a time on.
#[derive(Clone, Copy, Debug, PartialEq, Eq)]
pub struct Owned {
    /// From when on, that time being the first.
    pub valid_after: Time,
    /// The shard.
    pub shard: NodeId,
}

/// The owners of a chunk, newest first.
#[derive(Drop)]
pub struct OwnedList {
    owners: Vec<Owned>,
}

impl Model for OwnedList {
    ghost use Rattle.std.specs.Prelude.{List, map};
    ghost use Rattle.chunk_model.specs.Tables as tables;
    ghost use Rattle.chunk_table.specs.Code.{owners_code};

    ghost Value = { List tables.Owned };

    ghost coded = { owners_code };

    ghost use Rattle.chunk_table.specs.Meanings.{owned_view};

    ghost view = { λ list. map owned_view list.owners.items };
}

impl OwnedList {
    /// Returns the list of these owners, newest first.
    pub fn of(owners: Vec<Owned>) -> OwnedList
        ensures { result ≡ map owned_view owners.items }
    {
        OwnedList { owners }
    }

    /// Returns the owners, newest first.
    pub fn as_slice(&self) -> &[Owned]
        ensures { map owned_view result.now ≡ self.now }
    {
        &self.owners
    }

    /// Returns the newest owner.
    pub fn newest(&self) -> Option<NodeId>
        ensures { option_map (λ shard. shard.0) result ≡ newest self.now }
    {
        match self.owners.first() {
            Some(owned) => Some(owned.shard),
            None => None,
        }
    }

    /// Returns the owner at a time: the newest that is not later, if there is one.
    pub fn at(&self, time: Time) -> Option<NodeId>
        ensures { option_map (λ shard. shard.0) result ≡ owner_among time.0 self.now }
    {
        owner_among(&self.owners, time)
    }

    /// Returns whether the shard is the newest owner.
    pub(crate) fn has(&self, shard: NodeId) -> bool
        ensures { result ≡ is_owner shard.0 self.now }
    {
        match self.owners.first() {
            Some(owned) => owned.shard == shard,
            None => false,
        }
    }

    /// Returns a copy of the owners, after one that is newer. Fails if memory runs out, and where a journal could not encode their number.
    pub(crate) fn followed_by(&self, alloc: Global, owned: Owned) -> Result<OwnedList, Memory>
        ensures owners { IfOk result (λ list. list ≡ owned_view owned ∷ self.now) }
        ensures count { IfOk result (λ list. length list < 2 ^ 32) }
    {
        if self.owners.len() >= MOST_OWNERS {
            return Err(Memory);
        }
        let mut owners = Vec::with_capacity(alloc, self.owners.len() + 1)?;
        owners.push(owned)?;
        owners.extend_from_slice(&self.owners)?;
        Ok(OwnedList { owners })
    }

    /// Returns a copy of the owners, or `Memory` if memory runs out.
    pub(crate) fn copy(&self, alloc: Global) -> Result<OwnedList, Memory>
        ensures { IfOk result (λ list. list ≡ self.now) }
    {
        let owners = Vec::from_slice(alloc, &self.owners)?;
        Ok(OwnedList { owners })
    }
}

// Returns the first of the owners that is not later than the time.
fn owner_among(owners: &[Owned], time: Time) -> Option<NodeId>
    ensures { option_map (λ shard. shard.0) result ≡ owner_among time.0 (map owned_view owners.now) }
{
    for owned in owners {
        if owned.valid_after.0 <= time.0 {
            return Some(owned.shard);
        }
    }
    None
}

/// The keys of a range, with their owners.
#[derive(Drop)]
pub struct Chunk {
    /// The keys.
    pub range: KeyRange,
    /// How much of the collection's changes it has seen.
    pub version: Version,
    /// Its owners, newest first.
    pub history: OwnedList,
}

impl Chunk {
    /// Returns a copy of the chunk, or `Memory` if memory runs out.
    pub(crate) fn copy(&self, alloc: Global) -> Result<Chunk, Memory>
        ensures { IfOk result (λ chunk. chunk_view chunk ≡ chunk_view self.now) }
    {
        let range = self.range.copy()?;
        let history = self.history.copy(alloc)?;
        Ok(Chunk {
            range,
            version: self.version,
            history,
        })
    }
}

/// Returns the first of the chunks between whose bounds the value is, if there is one.
pub(crate) fn chunk_of<'a>(chunks: &'a [Chunk], value: &Value) -> Option<&'a Chunk>
    ensures { option_map (λ chunk. chunk_view chunk.now) result ≡ chunk_of (datum_of value.now) (map chunk_view chunks.now) }
{
    for chunk in chunks {
        if chunk.range.contains_value(value) {
            return Some(chunk);
        }
    }
    None
}

/// Returns the greatest of the version and those of the chunks.
pub(crate) fn greatest_version(so_far: Version, chunks: &[Chunk]) -> Version
    ensures { version_view result ≡ greatest_version (version_view so_far) (map chunk_view chunks.now) }
{
    let mut greatest = so_far;
    for chunk in chunks {
        greatest = greatest.greater(chunk.version);
    }
    greatest
}

/// Returns the greatest of the version and those of the chunks that the shard has now.
pub(crate) fn greatest_on(shard: NodeId, so_far: Version, chunks: &[Chunk]) -> Version
    ensures { version_view result ≡ greatest_version (version_view so_far) (chunks_on shard.0 (map chunk_view chunks.now)) }
{
    let mut greatest = so_far;
    for chunk in chunks {
        if chunk.history.has(shard) {
            greatest = greatest.greater(chunk.version);
        }
    }
    greatest
}

/// Returns a copy of the chunks, or `Memory` if memory runs out.
pub(crate) fn copy_all(alloc: Global, chunks: &[Chunk]) -> Result<Vec<Chunk>, Memory>
    ensures { IfOk result (λ copy. map chunk_view copy.items ≡ map chunk_view chunks.now) }
{
    let mut copy = Vec::with_capacity(alloc, chunks.len())?;
    for chunk in chunks {
        copy.push(chunk.copy(alloc)?)?;
    }
    Ok(copy)
}

// Returns whether the two bounds are one.
fn is_at(bound: &Bound, other: &Bound) -> bool
    ensures { result ≡ is_eq (order_bounds (bound_of bound.now) (bound_of other.now)) }
{
    bound.compare(other) == Ordering::Equal
}

/// Returns whether the chunks follow one another from below all keys to above them, and each has an owner.
pub(crate) fn follow(chunks: &[Chunk]) -> bool
    ensures follow { result ≡ follow_from min_bound (map chunk_view chunks.now) }
    ensures ranges { result ≡ true → AllByRecursion HasRange (map chunk_view chunks.now) }
{
    let least = Bound::MinKey;
    let mut start = &least;
    for chunk in chunks {
        if !is_at(start, chunk.range.min()) || chunk.history.newest().is_none() {
            return false;
        }
        start = chunk.range.max();
    }
    is_at(start, &Bound::MaxKey)
}
