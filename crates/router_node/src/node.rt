//! The router.

ghost use Rattle.std.specs.Prelude.{◌≡◌, false};
ghost use Rattle.router_requests.specs.Lists.{taken_of};

use chunk_table::Table;
use cluster_base::{Namespace, NodeId, RequestId, Time};
use node_traits::StepCount;
use route_cache::RouteCache;
use router_cursors::CursorList;
use router_replies::known_in;
use router_requests::{Asker, OpenList, OpenRequest};
use std::alloc::Global;

/// A router of a cluster.
#[derive(Drop)]
pub struct RouterNode {
    pub(crate) alloc: Global,
    pub(crate) me: NodeId,
    // How many shards there are, from node 1 on.
    pub(crate) shards: u32,
    pub(crate) time: Time,
    // The life that it is in, or will begin where `begun` is false.
    pub(crate) life: u64,
    pub(crate) begun: bool,
    // The last moment that it got.
    pub(crate) moment: u64,
    pub(crate) tables: RouteCache,
    pub(crate) requests: OpenList,
    pub(crate) cursors: CursorList,
    pub(crate) steps: StepCount,
    ghost quiet: { begun ≡ false → taken_of requests ≡ 0 },
}

impl RouterNode {
    ghost use Rattle.std.specs.Prelude.{◌≡◌};
    ghost use Rattle.std.specs.Option.{option_map};
    ghost use Rattle.chunk_model.specs.Tables.{table_of};
    ghost use Rattle.node_model.specs.RouterRows as rows;
    ghost use Rattle.node_traits.specs.Ids.{id_view};
    ghost use Rattle.router_requests.specs.Askers.{asker_view};
    ghost use Rattle.router_requests.specs.Works.{open_view};
    ghost use Rattle.router_node.specs.RouterStates.{router_of};

    // Returns itself, as the sender of requests.
    pub(crate) fn asker(&self) -> Asker
        ensures { asker_view result ≡ asker_view (record { me = self.now.me; shards = self.now.shards; life = self.now.life }) }
    {
        Asker {
            me: self.me,
            shards: self.shards,
            life: self.life,
        }
    }

    // Returns the open request with this id, where it is open in this life.
    pub(crate) fn open_of(&self, id: RequestId) -> Option<&OpenRequest>
        ensures { option_map (λ q. open_view self.now.me.0 self.now.life q.now) result ≡ rows.open_of (router_of self.now) (id_view id) }
    {
        if id == self.asker().id(id.count) {
            self.requests.find(id.count)
        } else {
            None
        }
    }

    // Returns the table that is known of a collection, if one is.
    pub(crate) fn table_of(&self, namespace: &Namespace) -> Option<&Table>
        ensures { option_map (λ t. t.now) result ≡ table_of namespace.now self.now.tables.tables }
    {
        known_in(&self.tables, namespace)
    }
}
