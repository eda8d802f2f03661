//! What open reads request of the shards.

use crate::asker::Asker;
use bson_values::Memory;
use cluster_base::{Namespace, Time};
use pipeline_lang::Half;
use protocol_model::{Body, Message, ReadAsk};
use read_parts::{Part, Target, has_part};
use std::alloc::Global;
use std::sync::Arc;

impl Asker {
    ghost use Rattle.std.specs.Prelude.{◌≡◌, ◌++◌, ◌∷◌, [], IfOk, OnOk, map};
    ghost use Rattle.std.specs.Arc.{arc_value};
    ghost use Rattle.node_model.specs.RouterRequests as requested;
    ghost use Rattle.node_model.specs.RouterNext as nexts;
    ghost use Rattle.node_model.specs.RouterRows as rows;
    ghost use Rattle.pipeline_lang.specs.Halves.{half_of};
    ghost use Rattle.protocol_model.specs.Messages.{letter_of};
    ghost use Rattle.read_parts.specs.Parts.{part_view, target_view};
    ghost use Rattle.router_requests.specs.Askers.{asker_view};

    // Returns what a read requests in a turn of a shard that it is sent to, or `Memory` if memory runs out.
    fn asks_target(
        self,
        time: Time,
        count: u64,
        namespace: &Namespace,
        turn: u32,
        at: Time,
        half: &Arc<Half, Global>,
        target: Target,
    ) -> Result<Message, Memory>
        ensures { IfOk result (λ m. letter_of m ∷ []
            ≡ requested.asks_to_read (asker_view self) time.0 (requested.id_of (asker_view self) count) namespace.now turn at.0 (half_of (arc_value half.now))
            (target_view target ∷ [])) }
    {
        let ask = ReadAsk {
            id: self.id(count),
            turn,
            namespace: namespace.copy()?,
            at,
            half: Arc::try_clone(half)?,
            sent: target.sent,
        };
        Ok(self.says(target.shard, time, Body::ReadAsk(ask)))
    }

    /// Returns what a read requests in a turn of each shard that it was sent to and that has not returned its part. Returns `Memory` if memory runs out.
    pub fn asks_to_read(
        self,
        alloc: Global,
        time: Time,
        count: u64,
        namespace: &Namespace,
        turn: u32,
        at: Time,
        half: &Arc<Half, Global>,
        targets: &[Target],
        parts: &[Part],
    ) -> Result<Vec<Message>, Memory>
        ensures { IfOk result (λ ms. map (λ m. letter_of m) ms.items
            ≡ requested.asks_to_read (asker_view self) time.0 (requested.id_of (asker_view self) count) namespace.now turn at.0 (half_of (arc_value half.now))
            (nexts.awaited (map target_view targets.now) (map part_view parts.now))) }
    {
        let mut asks = Vec::with_capacity(alloc, targets.len())?;
        for target in targets {
            if !has_part(target.shard, parts) {
                asks.push(self.asks_target(time, count, namespace, turn, at, half, *target)?)?;
            }
        }
        Ok(asks)
    }
}
