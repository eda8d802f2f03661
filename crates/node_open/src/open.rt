//! Opening a node.

ghost use Rattle.std.specs.Prelude.{◌≡◌, IfErr, IfOk};
ghost use Rattle.config_node.specs.State as catalogue;
ghost use Rattle.router_node.specs.RouterStates as router;
ghost use Rattle.shard_node.specs.State as shard;
ghost use Rattle.journal_replay.specs.Replayed.{IsFault};
ghost use Rattle.journal_starts.specs.Records.{IsOpened};
ghost use Rattle.node_replay.specs.Durable.{durable_catalogue, durable_router, durable_shard, empty_catalogue, empty_router, empty_shard};

use catalogue_replay::CataloguePart;
use cluster_base::NodeId;
use config_node::ConfigNode;
use journal_replay::{OpenFault, replay};
use outside::log::RecordList;
use router_node::RouterNode;
use router_replay::RouterPart;
use shard_node::ShardNode;
use shard_replay::{ShardPart, ShardParts};
use std::alloc::Global;

/// Returns the catalogue of this number, opened on the records of its journal: with the changes that they store, at the greatest time in them, before its
/// first step.
///
/// # Errors
/// - `Refused` exactly where the record at the index is the first that is no record or may not follow, unless memory runs out.
/// - `Memory` if memory runs out, and where a number would pass the end of its type.
pub fn open_catalogue(
    alloc: Global,
    me: NodeId,
    records: RecordList,
) -> Result<ConfigNode, OpenFault>
    ensures opened { IfOk result (λ node. IsOpened (durable_catalogue (empty_catalogue me.0)) records (catalogue.state_of node)) }
    ensures steps { IfOk result (λ node. node.steps ≡ 0) }
    ensures fault { IfErr result (λ fault. IsFault (durable_catalogue (empty_catalogue me.0)) records fault) }
{
    let part = replay(alloc, CataloguePart::empty(alloc, me), records.as_slice())?;
    let (me, time, catalogue) = part.into_parts();
    Ok(ConfigNode::restored(alloc, me, time, catalogue))
}

/// Returns the shard of this number, opened on the records of its journal: with the tables and entries that they store, at the greatest time in them, before
/// its first step. Nothing is parked.
///
/// # Errors
/// - `Refused` exactly where the record at the index is the first that is no record or may not follow, unless memory runs out.
/// - `Memory` if memory runs out, and where the operands of an entry are none that can be stored.
pub fn open_shard(alloc: Global, me: NodeId, records: RecordList) -> Result<ShardNode, OpenFault>
    ensures opened { IfOk result (λ node. IsOpened (durable_shard (empty_shard me.0)) records (shard.state_of node)) }
    ensures steps { IfOk result (λ node. node.steps ≡ 0) }
    ensures fault { IfErr result (λ fault. IsFault (durable_shard (empty_shard me.0)) records fault) }
{
    let part = replay(alloc, ShardPart::empty(alloc, me), records.as_slice())?;
    let ShardParts {
        me,
        time,
        tables,
        store,
        ceiling,
    } = part.into_parts();
    Ok(ShardNode::restored(alloc, me, time, tables, store, ceiling))
}

/// Returns the router of this number, in a cluster with this number of shards, opened on the records of its journal: with the life that it will begin, and the
/// cursor numbers that are not used, before its first step. Its time is 0, and it has no table, request or cursor.
///
/// # Errors
/// - `Refused` exactly where the record at the index is the first that is no record or may not follow, unless memory runs out.
/// - `Memory` if memory runs out, and where lives or blocks are exhausted.
pub fn open_router(
    alloc: Global,
    me: NodeId,
    shards: u32,
    records: RecordList,
) -> Result<RouterNode, OpenFault>
    ensures opened { IfOk result (λ node. IsOpened (durable_router (empty_router me.0 shards)) records (router.state_of node)) }
    ensures steps { IfOk result (λ node. node.steps ≡ 0) }
    ensures fault { IfErr result (λ fault. IsFault (durable_router (empty_router me.0 shards)) records fault) }
{
    let part = replay(alloc, RouterPart::empty(me, shards), records.as_slice())?;
    Ok(RouterNode::restored(alloc, part.me(), part.shards(), part.life(), part.blocks()))
}
