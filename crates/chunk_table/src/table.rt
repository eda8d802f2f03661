//! Tables: the chunks of a collection.

ghost use Rattle.std.specs.Prelude.{◌≡◌, ◌<◌, ◌^◌, ◌↔◌, false, true, IfOk, IfSome, None, Some, length, map};
ghost use Rattle.std.specs.List.{AllByRecursion};
ghost use Rattle.std.specs.Option.{option_map};
ghost use Rattle.bson_model.specs.Tree.{Datum};
ghost use Rattle.bson_values.specs.View.{datum_of};
ghost use Rattle.chunk_model.specs.Tables.{collection_version, first_table, is_longer, owner_at, owner_now, shard_version};
ghost use Rattle.chunk_table.specs.Meanings.{chunk_view, table_of_parts, version_view};
ghost use Rattle.chunk_table.specs.Whole.{HasRange, IsWritableChunk, follow_from};
ghost use Rattle.value_model.specs.Keys.{is_key, min_bound};

use crate::chunk::{
    Chunk, Owned, OwnedList, chunk_of, copy_all, follow, greatest_on, greatest_version,
};
use crate::version::Version;
use bson_values::{Memory, Value};
use cluster_base::{Namespace, NodeId, Time};
use std::alloc::Global;
use std::marker::Model;
use value_compare::{Bound, Key, KeyRange};

/// The first shard, which has all keys of a collection when it begins.
const FIRST_SHARD: NodeId = NodeId(1);

/// The chunks of a collection. They follow one another, each key has an owner, and a journal can encode it.
#[derive(Drop)]
pub struct Table {
    pub(crate) namespace: Namespace,
    pub(crate) epoch: u64,
    pub(crate) changes: u64,
    pub(crate) oldest: Time,
    pub(crate) chunks: Vec<Chunk>,
}

impl Model for Table {
    ghost use Rattle.std.specs.Prelude.{map};
    ghost use Rattle.chunk_model.specs.Tables as tables;
    ghost use Rattle.chunk_table.specs.Code.{table_code};
    ghost use Rattle.chunk_table.specs.Whole.{IsWhole};

    ghost Value = { tables.Table };

    ghost coded = { table_code };

    ghost use Rattle.chunk_table.specs.Meanings.{table_of_parts};

    ghost view = { λ t. table_of_parts t.namespace t.epoch t.changes t.oldest t.chunks.items };

    ghost invariant = { λ t. IsWhole (table_of_parts t.namespace t.epoch t.changes t.oldest t.chunks.items) };
}

impl Table {
    /// Returns the table of a collection that is created at `at`, as the collection of this epoch. Returns `Memory` if memory runs out.
    pub fn first(alloc: Global, namespace: Namespace, epoch: u64, at: Time) -> Result<Table, Memory>
        ensures { IfOk result (λ table. table ≡ first_table (record { namespace = namespace; epoch = epoch; at = at.0 })) }
    {
        let Some(range) = KeyRange::new(Bound::MinKey, Bound::MaxKey) else {
            unreachable!()
        };
        let mut owners = Vec::new(alloc);
        owners.push(Owned {
            valid_after: at,
            shard: FIRST_SHARD,
        })?;
        let history = OwnedList::of(owners);
        let version = Version {
            epoch,
            major: 1,
            minor: 0,
        };
        let mut chunks = Vec::new(alloc);
        chunks.push(Chunk {
            range,
            version,
            history,
        })?;
        Ok(Table {
            namespace,
            epoch,
            changes: 1,
            oldest: Time(0),
            chunks,
        })
    }

    /// Returns the table of these chunks. Each can be encoded by a journal, and so can their number.
    ///
    /// `None` where the chunks do not follow one another from below all keys to above them, each with an owner.
    pub fn of(
        namespace: Namespace,
        epoch: u64,
        changes: u64,
        oldest: Time,
        chunks: Vec<Chunk>,
    ) -> Option<Table>
        requires count { length chunks.items < 2 ^ 32 }
        requires writable { AllByRecursion IsWritableChunk (map chunk_view chunks.items) }
        ensures some { IfSome result (λ table. table ≡ table_of_parts namespace epoch changes oldest chunks.items) }
        ensures none { (result ≡ None) ↔ (follow_from min_bound (map chunk_view chunks.items) ≡ false) }
    {
        if follow(&chunks) {
            Some(Table {
                namespace,
                epoch,
                changes,
                oldest,
                chunks,
            })
        } else {
            None
        }
    }

    /// Returns a copy of the table, or `Memory` if memory runs out.
    pub fn copy(&self, alloc: Global) -> Result<Table, Memory>
        ensures { IfOk result (λ table. table ≡ self.now) }
    {
        let namespace = self.namespace.copy()?;
        let chunks = copy_all(alloc, &self.chunks)?;
        Ok(Table {
            namespace,
            epoch: self.epoch,
            changes: self.changes,
            oldest: self.oldest,
            chunks,
        })
    }

    /// Returns the name of the collection.
    pub fn namespace(&self) -> &Namespace
        ensures { result.now ≡ self.now.namespace }
    {
        &self.namespace
    }

    /// Returns which of the collections of the name it is, from 1 on.
    pub fn epoch(&self) -> u64
        ensures { result ≡ self.now.epoch }
    {
        self.epoch
    }

    /// Returns how many changes the table has seen, from 1 on.
    pub fn changes(&self) -> u64
        ensures { result ≡ self.now.changes }
    {
        self.changes
    }

    /// Returns the time from which on it has owners.
    pub fn oldest(&self) -> Time
        ensures { result.0 ≡ self.now.oldest }
    {
        self.oldest
    }

    /// Returns the chunks, which follow one another from below all keys to above them. A journal can encode each, and their number.
    pub fn chunks(&self) -> &[Chunk]
        ensures chunks { map chunk_view result.now ≡ self.now.chunks }
        ensures ranges { AllByRecursion HasRange self.now.chunks }
        ensures follow { follow_from min_bound self.now.chunks ≡ true }
        ensures count { length self.now.chunks < 2 ^ 32 }
        ensures writable { AllByRecursion IsWritableChunk self.now.chunks }
    {
        &self.chunks
    }

    /// Returns the shard that has the key now.
    pub fn owner_now(&self, key: &Key) -> NodeId
        ensures { owner_now self.now key.now ≡ Some result.0 }
    {
        let newest = match chunk_of(&self.chunks, key.value()) {
            Some(chunk) => chunk.history.newest(),
            None => None,
        };
        match newest {
            Some(shard) => shard,
            None => unreachable!(),
        }
    }

    /// Returns the shard that has every key now, where the table has one chunk.
    pub fn sole_owner(&self) -> Option<NodeId>
        ensures { IfSome result (λ shard. (key : Datum) → is_key key ≡ true → owner_now self.now key ≡ Some shard.0) }
    {
        match self.chunks.as_slice() {
            [chunk] => chunk.history.newest(),
            _ => None,
        }
    }

    /// Returns the shard that had the key at a time; none before the collection was created.
    pub fn owner_at(&self, key: &Key, time: Time) -> Option<NodeId>
        ensures { option_map (λ shard. shard.0) result ≡ owner_at self.now key.now time.0 }
    {
        self.owner_of_value(key.value(), time)
    }

    /// Returns the shard that had what would be stored under the value at a time, were it a key; none before the collection was created. A read may
    /// name a value that is no key.
    pub fn owner_of_value(&self, value: &Value, time: Time) -> Option<NodeId>
        ensures { option_map (λ shard. shard.0) result ≡ owner_at self.now (datum_of value.now) time.0 }
    {
        match chunk_of(&self.chunks, value) {
            Some(chunk) => chunk.history.at(time),
            None => None,
        }
    }

    /// Returns the version of the whole table: the greatest of its chunks.
    pub fn version(&self) -> Version
        ensures { version_view result ≡ collection_version self.now }
    {
        greatest_version(Version::no_chunk(self.epoch), &self.chunks)
    }

    /// Returns the version of a shard: the greatest of the chunks that it has now; major number 0 where it has none.
    pub fn shard_version(&self, shard: NodeId) -> Version
        ensures { version_view result ≡ shard_version self.now shard.0 }
    {
        greatest_on(shard, Version::no_chunk(self.epoch), &self.chunks)
    }

    /// Returns whether it has seen more changes than the other.
    pub fn longer_than(&self, other: &Table) -> bool
        ensures { result ≡ is_longer self.now other.now }
    {
        self.changes > other.changes
    }
}
