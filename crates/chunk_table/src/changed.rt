//! Tables after changes (MongoDB manual, "Split Chunks in a Sharded Cluster" and "Sharded Cluster Balancer").

ghost use Rattle.std.specs.Prelude.{◌≡◌, ◌↔◌, false, IfOk, IfSome, None, Some, map};
ghost use Rattle.std.specs.Option.{option_map};
ghost use Rattle.value_model.specs.Keys.{key_bound};
ghost use Rattle.chunk_model.specs.Changes.{can_split, chunk_with, move_table, split_table};
ghost use Rattle.chunk_table.specs.Meanings.{chunk_view, owned_view};
ghost use Rattle.chunk_table.specs.Whole.{IsWritableBound};

use crate::changes::{can_split, chunk_with, moved_chunks, split_chunks};
use crate::chunk::{Chunk, Owned};
use crate::table::Table;
use crate::version::Version;
use bson_values::Memory;
use cluster_base::NodeId;
use std::alloc::Global;
use value_compare::{Key, KeyRange};

/// The most chunks of a table that a journal can encode.
const MOST_CHUNKS: usize = 0xffff_ffff;

impl Table {
    /// Returns the table after a split at `middle`: the chunk that has it, and does not begin with it, becomes two. `None` where there is no
    /// such chunk, which is where a bound is at `middle`.
    ///
    /// Fails if memory runs out; and so where a number that a table keeps would pass the end of its type: its changes, a minor number, or
    /// the chunks that a journal can encode.
    pub fn split(&self, alloc: Global, middle: &Key) -> Result<Option<Table>, Memory>
        requires writable { IsWritableBound (key_bound middle.now) }
        ensures some { IfOk result (λ table. IfSome table (λ t. t ≡ split_table middle.now self.now)) }
        ensures none { IfOk result (λ table. (table ≡ None) ↔ (can_split middle.now self.now.chunks ≡ false)) }
    {
        if !can_split(&self.chunks, middle) {
            return Ok(None);
        }
        let Some(changes) = self.changes.checked_add(1) else {
            return Err(Memory);
        };
        let chunks = split_chunks(alloc, &self.chunks, middle)?;
        if chunks.len() > MOST_CHUNKS {
            return Err(Memory);
        }
        Ok(Some(Table {
            namespace: self.namespace.copy()?,
            epoch: self.epoch,
            changes,
            oldest: self.oldest,
            chunks,
        }))
    }

    /// Returns the chunk that has just this range, bounds being compared.
    pub fn chunk_with(&self, range: &KeyRange) -> Option<&Chunk>
        ensures { option_map (λ chunk. chunk_view chunk.now) result ≡ chunk_with range.now self.now.chunks }
    {
        chunk_with(&self.chunks, range)
    }

    /// Returns the table after the chunk of this range got a new owner: it gets the next major number, and so does the lowest chunk that the
    /// donor still has.
    ///
    /// Fails if memory runs out; and so where a number that a table keeps would pass the end of its type: its changes, the major number, or
    /// the owners of a chunk that a journal can encode.
    pub fn moved(
        &self,
        alloc: Global,
        range: &KeyRange,
        donor: NodeId,
        owned: Owned,
    ) -> Result<Table, Memory>
        ensures { IfOk result (λ table. table ≡ move_table range.now donor.0 (owned_view owned) self.now) }
    {
        let epoch = self.epoch;
        let Some(changes) = self.changes.checked_add(1) else {
            return Err(Memory);
        };
        let Some(major) = self.version().major.checked_add(1) else {
            return Err(Memory);
        };
        let moved = Version {
            epoch,
            major,
            minor: 0,
        };
        let lowest = Version {
            epoch,
            major,
            minor: 1,
        };
        let chunks = moved_chunks(alloc, &self.chunks, range, donor, owned, moved, lowest)?;
        Ok(Table {
            namespace: self.namespace.copy()?,
            epoch,
            changes,
            oldest: self.oldest,
            chunks,
        })
    }
}
