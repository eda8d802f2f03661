//! Reading what the catalogue stores of its changes.

ghost use Rattle.std.specs.Prelude.{IfOk};
ghost use Rattle.shard_records.specs.Meanings.{record_view};
ghost use Rattle.record_reader.specs.RecordReaders.{commit_at, creation_at, purge_at, resolve_at, split_at};
ghost use Rattle.record_parts.specs.Finds.{Finds};
ghost use Rattle.shard_records.specs.Readable.{IsHeld};

use crate::moves::read_request;
use cluster_base::{NodeId, Time};
use record_parts::{RecordFault, read_key, read_namespace, read_range, read_u32, read_u64};
use shard_records::{CommitChange, PurgeChange, Record, ResolveChange, SplitChange};
use std::alloc::Global;

/// Reads a collection that begins.
#[tactic(auto, unfolding(crate::specs::RecordReaders::creation_at))]
pub(crate) fn read_creation(alloc: Global, bytes: &[u8]) -> Result<Record, RecordFault>
    ensures found { Finds (λ r. record_view r) result (creation_at bytes.now) }
    ensures held { IfOk result (λ r. IsHeld (record_view r)) }
{
    let (namespace, rest) = read_namespace(alloc, bytes)?;
    let (epoch, rest) = read_u64(rest)?;
    let (at, _rest) = read_u64(rest)?;
    Ok(Record::Create {
        namespace,
        epoch,
        at: Time(at),
    })
}

/// Reads a split.
#[tactic(auto, unfolding(crate::specs::RecordReaders::split_at))]
pub(crate) fn read_split(alloc: Global, bytes: &[u8]) -> Result<Record, RecordFault>
    ensures found { Finds (λ r. record_view r) result (split_at bytes.now) }
    ensures held { IfOk result (λ r. IsHeld (record_view r)) }
{
    let (namespace, rest) = read_namespace(alloc, bytes)?;
    let (middle, rest) = read_key(alloc, rest)?;
    let (at, _rest) = read_u64(rest)?;
    Ok(Record::Split(SplitChange {
        namespace,
        middle,
        at: Time(at),
    }))
}

/// Reads a commit.
#[tactic(auto, unfolding(crate::specs::RecordReaders::commit_at))]
pub(crate) fn read_commit(alloc: Global, bytes: &[u8]) -> Result<Record, RecordFault>
    ensures found { Finds (λ r. record_view r) result (commit_at bytes.now) }
    ensures held { IfOk result (λ r. IsHeld (record_view r)) }
{
    let (id, rest) = read_request(bytes)?;
    let (namespace, rest) = read_namespace(alloc, rest)?;
    let (range, rest) = read_range(alloc, rest)?;
    let (from, rest) = read_u32(rest)?;
    let (to, rest) = read_u32(rest)?;
    let (at, _rest) = read_u64(rest)?;
    Ok(Record::Commit(CommitChange {
        id,
        namespace,
        range,
        from: NodeId(from),
        to: NodeId(to),
        at: Time(at),
    }))
}

/// Reads the end of a move that is not committed.
#[tactic(auto, unfolding(crate::specs::RecordReaders::resolve_at))]
pub(crate) fn read_resolve(alloc: Global, bytes: &[u8]) -> Result<Record, RecordFault>
    ensures found { Finds (λ r. record_view r) result (resolve_at bytes.now) }
    ensures held { IfOk result (λ r. IsHeld (record_view r)) }
{
    let (id, rest) = read_request(bytes)?;
    let (namespace, rest) = read_namespace(alloc, rest)?;
    let (range, rest) = read_range(alloc, rest)?;
    let (at, _rest) = read_u64(rest)?;
    Ok(Record::Resolve(ResolveChange {
        id,
        namespace,
        range,
        at: Time(at),
    }))
}

/// Reads a purge.
#[tactic(auto, unfolding(crate::specs::RecordReaders::purge_at))]
pub(crate) fn read_purge(alloc: Global, bytes: &[u8]) -> Result<Record, RecordFault>
    ensures found { Finds (λ r. record_view r) result (purge_at bytes.now) }
    ensures held { IfOk result (λ r. IsHeld (record_view r)) }
{
    let (namespace, rest) = read_namespace(alloc, bytes)?;
    let (below, rest) = read_u64(rest)?;
    let (at, _rest) = read_u64(rest)?;
    Ok(Record::Purge(PurgeChange {
        namespace,
        below: Time(below),
        at: Time(at),
    }))
}
