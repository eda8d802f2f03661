//! A router that was started again.

ghost use Rattle.std.specs.Prelude.{◌≡◌, ◌≤◌, ◌*◌, ◌^◌, [], false};
ghost use Rattle.router_node.specs.RouterStates.{router_of, state_of};

use crate::node::RouterNode;
use cluster_base::{NodeId, Time};
use node_traits::StepCount;
use route_cache::RouteCache;
use router_cursors::CursorList;
use router_requests::OpenList;
use std::alloc::Global;

impl RouterNode {
    /// Returns the router of this number, in a cluster with this number of shards, before its first step in this life, which it will begin, where it wrote
    /// this number of blocks of cursor numbers in earlier ones.
    pub fn restored(alloc: Global, me: NodeId, shards: u32, life: u64, blocks: u64) -> RouterNode
        requires { blocks ≤ 2 ^ 56 }
        ensures state { router_of result ≡ record {
          me = me.0;
          shards = shards;
          time = 0;
          life = life;
          begun = false;
          moment = 0;
          count = 0;
          tables = [];
          requests = [];
          cursors = [];
          blocks = blocks;
          gave = 64 * blocks;
        } }
        ensures steps { result.steps ≡ 0 }
    {
        RouterNode {
            alloc,
            me,
            shards,
            time: Time(0),
            life,
            begun: false,
            moment: 0,
            tables: RouteCache::new(alloc),
            requests: OpenList::new(alloc),
            cursors: CursorList::restored(alloc, blocks),
            steps: StepCount::new(),
        }
    }

    /// Returns how many steps it has taken.
    pub fn counted(&self) -> &StepCount
        ensures { result.now ≡ self.now.steps }
    {
        &self.steps
    }

    /// Goes on with the count of a node that stopped.
    pub fn count_from(&mut self, before: &StepCount)
        ensures state { state_of self.new ≡ state_of self.old }
        ensures steps { self.new.steps ≡ before.now }
    {
        self.steps.keep(before);
    }
}
