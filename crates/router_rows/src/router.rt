//! A router with its log.

ghost use Rattle.std.specs.Prelude.{IfOk, IfSome, IsTrue};

use crate::outcome::Sent;
use cluster_base::NodeId;
use fixtures::RowFault;
use journal_frames::Journal;
use node_traits::Node;
use outside::log::Log;
use outside_memory::MemDisk;
use protocol_model::Input;
use router_node::RouterNode;
use std::alloc::Global;

/// A router with its log, which is open.
#[derive(Drop)]
pub struct Hosted<L: Log> {
    node: RouterNode,
    log: L,
    ghost open: { IsTrue (L.facts.is_open log) },
}

/// Returns the router of this number in its first life, in a cluster of so many shards, on an empty disk. `None` where memory runs out.
pub fn first_router(alloc: Global, me: NodeId, shards: u32) -> Option<Hosted<Journal<MemDisk>>> {
    let disk = MemDisk::new(Vec::new(alloc), Vec::new(alloc));
    let Ok((log, _none)) = Journal::open(alloc, disk) else {
        return None;
    };
    let node = RouterNode::restored(alloc, me, shards, 1, 0);
    Some(Hosted { node, log })
}

impl<L: Log + Drop> Hosted<L> {
    /// Takes a step on the input, and returns the router after it with what it sent. Returns `Memory` where the step was not taken.
    pub fn step(self, alloc: Global, input: Input) -> Result<(Hosted<L>, Sent), RowFault> {
        let Hosted { mut node, mut log } = self;
        match node.step(&mut log, input) {
            Ok(outputs) => {
                let sent = Sent::of(alloc, outputs)?;
                Ok((Hosted { node, log }, sent))
            }
            Err(fault) => Err(without(fault, RowFault::Memory)),
        }
    }
}

// Lets a value go that is not used, and returns the other.
fn without<T: Drop>(_value: T, other: RowFault) -> RowFault {
    other
}
