//! The nodes of the cluster, opened on the records of their journals.

ghost use Rattle.std.specs.Prelude.{◌≡◌, ◌≤◌, ◌-◌, [], IfErr, IfOk, map, vec_capacity, vec_len};
ghost use Rattle.std.specs.List.{AllByRecursion};
ghost use Rattle.any_node.specs.Kinds.{state_of, steps_of};
ghost use Rattle.journal_replay.specs.declared.fault.OpenFault.{OpenFault};
ghost use Rattle.journal_starts.specs.Records.{AreOpened, IsOpened, SomeRefused, part_at};
ghost use Rattle.node_open.specs.Faults.{IfRefused};
ghost use Rattle.journal_replay.specs.Replayed.{IsFault};

use crate::open::{open_catalogue, open_router, open_shard};
use any_node::AnyNode;
use bson_values::Memory;
use cluster_base::NodeId;
use journal_replay::OpenFault;
use outside::log::RecordList;
use std::alloc::Global;

/// Returns the node of a number, in a cluster with this number of shards, opened on the records of its journal: node 0 is the catalogue, then the shards
/// follow, and all after them are routers.
pub fn open_node(
    alloc: Global,
    shards: u32,
    me: u32,
    records: RecordList,
) -> Result<AnyNode, OpenFault>
    requires { 1 ≤ shards }
    ensures opened { IfOk result (λ node. IsOpened (part_at (shards - 1) me) records (state_of node)) }
    ensures new { IfOk result (λ node. steps_of node ≡ 0) }
    ensures fault { IfErr result (λ fault. IsFault (part_at (shards - 1) me) records fault) }
{
    if me == 0 {
        return Ok(AnyNode::Catalogue(open_catalogue(alloc, NodeId(me), records)?));
    }
    if me <= shards {
        return Ok(AnyNode::Shard(open_shard(alloc, NodeId(me), records)?));
    }
    Ok(AnyNode::Router(open_router(alloc, NodeId(me), shards, records)?))
}

// Returns an empty list with room for this many nodes, or `Memory` if memory runs out.
fn room_for(alloc: Global, count: usize) -> Result<Vec<AnyNode>, Memory>
    ensures none { IfOk result (λ nodes. nodes.items ≡ []) }
    ensures room { IfOk result (λ nodes. count ≤ vec_capacity nodes) }
{
    Ok(Vec::with_capacity(alloc, count)?)
}

/// Returns the nodes of a cluster with this number of shards, 64 at most, in order of their numbers, each opened on the records that were found in its journal,
/// before its first step.
///
/// # Errors
/// - `Refused` exactly where a record of some node is none or may not follow, unless memory runs out. No clause says of which node the index is.
/// - `Memory` if memory runs out, and as `open_catalogue`, `open_shard` and `open_router` have it.
pub fn open_nodes(
    alloc: Global,
    shards: u32,
    found: Vec<RecordList>,
) -> Result<Vec<AnyNode>, OpenFault>
    requires some { 1 ≤ shards }
    requires few { vec_len found ≤ 64 }
    ensures opened { IfOk result (λ nodes. AreOpened (shards - 1) 0 found.items (map state_of nodes.items)) }
    ensures len { IfOk result (λ nodes. vec_len nodes ≡ vec_len found) }
    ensures new { IfOk result (λ nodes. AllByRecursion (λ node. steps_of node ≡ 0) nodes.items) }
    ensures fault { IfErr result (λ fault. IfRefused fault (SomeRefused (shards - 1) 0 found.items)) }
{
    let mut nodes = room_for(alloc, found.len())?;
    let mut me = 0;
    for records in found {
        nodes.push_reserved(open_node(alloc, shards, me, records)?);
        me += 1;
    }
    Ok(nodes)
}
