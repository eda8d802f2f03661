//! Changes of the catalogue, and what a donor requests.

use chunk_table::{Table, Version};
use cluster_base::{Namespace, NodeId, RequestId, Time};
use std::alloc::Global;
use std::sync::Arc;
use value_compare::{Key, KeyRange};

/// What a donor requests: that the chunk of this range and version is another shard's.
#[derive(Drop)]
pub struct CommitWords {
    /// The move.
    pub id: RequestId,
    /// The collection.
    pub namespace: Namespace,
    /// The keys of the chunk.
    pub range: KeyRange,
    /// The version that the donor has of the chunk.
    pub version: Version,
    /// The shard that has it.
    pub from: NodeId,
    /// The shard that is to have it.
    pub to: NodeId,
}

/// A change, as the catalogue's records have it.
#[derive(Drop)]
pub enum ChangeFields {
    /// A collection begins.
    Create {
        /// Its name.
        namespace: Namespace,
        /// Which of the collections of that name it is.
        epoch: u64,
        /// When it begins.
        at: Time,
    },
    /// A chunk is split.
    Split {
        /// The collection.
        namespace: Namespace,
        /// Where the upper half begins.
        middle: Key,
        /// When.
        at: Time,
    },
    /// A move of a chunk is committed: the chunk is another shard's.
    Commit {
        /// The move.
        id: RequestId,
        /// The collection.
        namespace: Namespace,
        /// The keys of the chunk.
        range: KeyRange,
        /// The shard that had it.
        from: NodeId,
        /// The shard that has it.
        to: NodeId,
        /// From when on.
        at: Time,
    },
}

/// A change, and the table of its collection after it.
#[derive(Drop)]
pub struct Change {
    /// The change.
    pub fields: ChangeFields,
    /// The table after it.
    pub table: Arc<Table, Global>,
}
