//! The records of a shard.

ghost use Rattle.std.specs.Prelude.{◌≡◌};
ghost use Rattle.shard_records.specs.Meanings.{record_view};
ghost use Rattle.shard_replay.specs.ShardParts.{IsKind};
ghost use Rattle.shard_replay.specs.declared.kind.ShardRecord.TheVariants.{Other};

use chunk_table::Table;
use cluster_base::{Namespace, Stmt, Time};
use shard_records::Record;
use value_compare::{OpWords, Reply};

/// The entry of a statement.
#[derive(Drop)]
pub(crate) struct EntryRecord {
    pub(crate) time: Time,
    pub(crate) namespace: Namespace,
    pub(crate) statement: Stmt,
    pub(crate) op: OpWords,
    pub(crate) reply: Reply,
}

/// What a record says to a shard.
#[derive(Drop)]
pub(crate) enum ShardRecord {
    Table(Table),
    Entry(EntryRecord),
    Ceiling(Time),
    /// A record of another node, or of a move.
    Other,
}

// Lets a part of a record go.
fn other<T: Drop>(_read: T) -> ShardRecord
    ensures { result ≡ Other }
{
    ShardRecord::Other
}

// Returns what a record says to a shard.
pub(crate) fn kind_of(kept: Record) -> ShardRecord
    ensures { IsKind (record_view kept) result }
{
    match kept {
        Record::Table(table) => ShardRecord::Table(table),
        Record::Entry {
            time,
            namespace,
            statement,
            op,
            reply,
        } => ShardRecord::Entry(EntryRecord {
            time,
            namespace,
            statement,
            op,
            reply,
        }),
        Record::Ceiling(time) => ShardRecord::Ceiling(time),
        Record::MoveStart(start) => other(start),
        Record::MoveEnd(end) => other(end),
        Record::ReceiveStart(start) => other(start),
        Record::Batch(batch) => other(batch),
        Record::ReceiveDone(done) => other(done),
        Record::ReceiveEnd(end) => other(end),
        Record::Deleted(deletion) => other(deletion),
        Record::Create { namespace, .. } => other(namespace),
        Record::Split(split) => other(split),
        Record::Commit(commit) => other(commit),
        Record::Resolve(resolve) => other(resolve),
        Record::Purge(purge) => other(purge),
        Record::Floor(_)
        | Record::Section(_)
        | Record::Released(_)
        | Record::CatalogueCeiling(_)
        | Record::Life(_)
        | Record::Block(_) => ShardRecord::Other,
    }
}
