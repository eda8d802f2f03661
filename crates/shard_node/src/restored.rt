//! A shard that was started again.

ghost use Rattle.std.specs.Prelude.{◌≡◌, ◌≤◌, []};
ghost use Rattle.node_model.specs.States.{shard_state};
ghost use Rattle.shard_store.specs.Stores.{entries_of, last_of, shard_of};
ghost use Rattle.shard_node.specs.State.{state_of};

use crate::node::ShardNode;
use cluster_base::{NodeId, Time};
use node_traits::StepCount;
use route_cache::RouteCache;
use shard_store::ShardStore;
use std::alloc::Global;

impl ShardNode {
    /// Returns the shard with this number, these tables and entries, none of which is later than the time, and this ceiling, before its first step. Nothing is
    /// parked.
    pub fn restored(
        alloc: Global,
        me: NodeId,
        time: Time,
        tables: RouteCache,
        store: ShardStore,
        ceiling: Time,
    ) -> ShardNode
        requires entered { last_of store ≤ time.0 }
        requires own { shard_of store ≡ me.0 }
        ensures state { state_of result ≡ shard_state (record {
          me = me.0;
          time = time.0;
          tables = tables.tables;
          entries = entries_of store;
          ceiling = ceiling.0;
          parked = [];
        }) }
        ensures steps { result.steps ≡ 0 }
    {
        ShardNode {
            alloc,
            me,
            steps: StepCount::new(),
            time,
            tables,
            store,
            ceiling,
            parked: Vec::new(alloc),
        }
    }
}
