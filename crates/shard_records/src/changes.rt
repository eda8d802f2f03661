//! What the catalogue stores of its changes, as values (MongoDB manual, "Data Partitioning with Chunks", "Sharded Cluster Balancer").

use cluster_base::{Namespace, NodeId, RequestId, Time};
use value_compare::{Key, KeyRange};

/// A chunk is split.
#[derive(Drop)]
pub struct SplitChange {
    /// The collection.
    pub namespace: Namespace,
    /// Where the upper half begins.
    pub middle: Key,
    /// When.
    pub at: Time,
}

/// A move of a chunk is committed: the chunk is another shard's.
#[derive(Drop)]
pub struct CommitChange {
    /// The move.
    pub id: RequestId,
    /// The collection.
    pub namespace: Namespace,
    /// The keys of the chunk.
    pub range: KeyRange,
    /// The shard that had it.
    pub from: NodeId,
    /// The shard that has it.
    pub to: NodeId,
    /// From when on.
    pub at: Time,
}

/// A move is not committed, and never will be.
#[derive(Drop)]
pub struct ResolveChange {
    /// The move.
    pub id: RequestId,
    /// The collection.
    pub namespace: Namespace,
    /// The keys of the chunk.
    pub range: KeyRange,
    /// When.
    pub at: Time,
}

/// Owners of chunks that were followed by others at a time or before are forgotten.
#[derive(Drop)]
pub struct PurgeChange {
    /// The collection.
    pub namespace: Namespace,
    /// The time.
    pub below: Time,
    /// When.
    pub at: Time,
}
