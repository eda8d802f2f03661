//! What the shards of a move of a chunk store, as values (MongoDB manual, "Sharded Cluster Balancer", chunk migration procedure).

use crate::batch::MoveBatch;
use chunk_table::{Table, Version};
use cluster_base::{Namespace, NodeId, RequestId, Time};
use statement_views::Sessions;
use value_compare::KeyRange;

/// The donor begins to give a chunk to a shard.
#[derive(Drop)]
pub struct MoveStart {
    /// The move.
    pub id: RequestId,
    /// The collection.
    pub namespace: Namespace,
    /// The keys of the chunk.
    pub range: KeyRange,
    /// The shard that takes it.
    pub to: NodeId,
    /// The version of the chunk.
    pub version: Version,
    /// When it begins.
    pub time: Time,
}

/// The donor takes no write of the range from this time on.
#[derive(Drop)]
pub struct SectionStart {
    /// The move.
    pub id: RequestId,
    /// The time.
    pub time: Time,
}

/// A shard's part in a move ends.
#[derive(Drop)]
pub struct MoveEnd {
    /// The move.
    pub id: RequestId,
    /// Whether it was committed.
    pub committed: bool,
    /// The table as of then.
    pub table: Table,
    /// When it ends.
    pub time: Time,
    /// The moment from which on what is left of the range may be deleted, in milliseconds since 1970.
    pub due: u64,
}

/// The recipient begins to take a chunk.
#[derive(Drop)]
pub struct ReceiveStart {
    /// The move.
    pub id: RequestId,
    /// The collection.
    pub namespace: Namespace,
    /// The keys of the chunk.
    pub range: KeyRange,
    /// The donor.
    pub from: NodeId,
    /// The table as of then.
    pub table: Table,
    /// When it begins.
    pub time: Time,
}

/// The recipient stores a batch of documents.
#[derive(Drop)]
pub struct ReceivedBatch {
    /// The move.
    pub id: RequestId,
    /// The time of its documents there.
    pub time: Time,
    /// The documents.
    pub batch: MoveBatch,
}

/// The recipient has all documents, and what the donor stores of sessions.
#[derive(Drop)]
pub struct ReceiveDone {
    /// The move.
    pub id: RequestId,
    /// The sessions, in order.
    pub sessions: Sessions,
}

/// What a shard stores of a range below a time is deleted.
#[derive(Drop)]
pub struct Deletion {
    /// The collection.
    pub namespace: Namespace,
    /// The keys.
    pub range: KeyRange,
    /// The time.
    pub until: Time,
}
