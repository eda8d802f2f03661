//! What open requests request of the catalogue.

use crate::asker::Asker;
use crate::work::Work;
use bson_values::Memory;
use cluster_base::{Namespace, Time};
use protocol_model::Message;

impl Asker {
    ghost use Rattle.std.specs.Prelude.{◌≡◌, ◌∷◌, [], IfOk, Some};
    ghost use Rattle.base_model.specs.Identities as identities;
    ghost use Rattle.node_model.specs.RouterRequests as requested;
    ghost use Rattle.router_requests.specs.Askers.{asker_view, letters_of};
    ghost use Rattle.router_requests.specs.Works.{work_view};

    /// Returns what work requests of the catalogue: its table, and a write that its collection is created; or a split. Returns `Memory` if memory
    /// runs out.
    pub fn asks_catalogue(
        self,
        time: Time,
        count: u64,
        namespace: &Namespace,
        work: &Work,
    ) -> Result<Message, Memory>
        ensures { (id : identities.RequestId) → IfOk result (λ m. letters_of (Some m)
            ≡ requested.asks_catalogue (asker_view self) time.0 count namespace.now (work_view id work.now) ∷ []) }
    {
        match work {
            Work::Writing(_) => self.asks_to_begin(time, namespace),
            Work::Reading(read) => self.asks_table_at(time, namespace, read.at),
            Work::Sharding => self.asks_to_begin(time, namespace),
            Work::Splitting(middle) => self.asks_split(time, count, namespace, middle),
        }
    }
}
