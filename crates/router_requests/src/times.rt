//! The times of shards: who returned theirs, and who is requested to.

ghost use Rattle.std.specs.Prelude.{◌≡◌, ◌==◌, IfOk};
ghost use Rattle.std.specs.List.{list_any};
ghost use Rattle.node_model.specs.RouterRequests as requested;
ghost use Rattle.node_model.specs.RouterNext as nexts;
ghost use Rattle.router_requests.specs.Works.{numbers_of};

use crate::asker::Asker;
use bson_values::Memory;
use cluster_base::{NodeId, Time};
use protocol_model::{Body, Message, TimeAsk};
use std::alloc::Global;

/// The number of the first shard.
const FIRST_SHARD: u32 = 1;

/// Returns whether a shard is among those that returned their time.
pub(crate) fn has_told(told: &[NodeId], shard: NodeId) -> bool
    ensures { result ≡ list_any (λ t. t == shard.0) (numbers_of told.now) }
{
    told.contains(&shard)
}

/// Returns the shards that returned their time, after one did. Returns `Memory` if memory runs out.
pub fn also_told(alloc: Global, told: &[NodeId], shard: NodeId) -> Result<Vec<NodeId>, Memory>
    ensures { IfOk result (λ list. numbers_of list.items ≡ nexts.also_told (numbers_of told.now) shard.0) }
{
    let mut list = Vec::from_slice(alloc, told)?;
    if !has_told(told, shard) {
        list.push(shard)?;
    }
    Ok(list)
}

impl Asker {
    ghost use Rattle.std.specs.Prelude.{◌≡◌, ◌≢◌, ◌<◌, ◌≤◌, ◌+◌, ◌∷◌, ◌++◌, [], IfOk, true, false, map};
    ghost use Rattle.std.specs.Vec.{vec_capacity, vec_len};
    ghost use Rattle.node_model.specs.Letters.{time_ask};
    ghost use Rattle.node_model.specs.RouterRequests as requested;
    ghost use Rattle.node_model.specs.RouterNext as nexts;
    ghost use Rattle.protocol_model.specs.Messages.{letter_of};
    ghost use Rattle.router_requests.specs.Askers.{asker_view};
    ghost use Rattle.router_requests.specs.Works.{numbers_of};

    // Returns what a read of a time that is ahead requests of a shard: its time.
    fn asks_time(self, shard: NodeId, time: Time, count: u64) -> Message
        ensures { letter_of result ≡ requested.says (asker_view self) shard.0 time.0 (time_ask (requested.id_of (asker_view self) count)) }
    {
        let ask = TimeAsk { id: self.id(count) };
        self.says(shard, time, Body::TimeAsk(ask))
    }

    // Appends what a read of a time that is ahead requests of a shard, where that has not returned its time. Takes no memory.
    fn ask_untold(
        self,
        asks: &mut Vec<Message>,
        time: Time,
        count: u64,
        told: &[NodeId],
        shard: NodeId,
    )
        requires room { vec_len asks.old < vec_capacity asks.old }
        ensures asks { map (λ m. letter_of m) asks.new.items ≡ map (λ m. letter_of m) asks.old.items
            ++ map (λ s. requested.says (asker_view self) s time.0 (time_ask (requested.id_of (asker_view self) count)))
            (requested.untold (numbers_of told.now) (shard.0 ∷ [])) }
        ensures few { vec_len asks.new ≤ vec_len asks.old + 1 }
        ensures room { vec_capacity asks.new ≡ vec_capacity asks.old }
    {
        if !has_told(told, shard) {
            asks.push_reserved(self.asks_time(shard, time, count));
        }
    }

    /// Returns what a read of a time that is ahead requests of each shard that has not returned its time: that. Returns `Memory` if memory runs out.
    pub fn asks_times(
        self,
        alloc: Global,
        time: Time,
        count: u64,
        told: &[NodeId],
    ) -> Result<Vec<Message>, Memory>
        ensures { IfOk result (λ asks. map (λ m. letter_of m) asks.items
            ≡ requested.asks_times (asker_view self) time.0 (requested.id_of (asker_view self) count) (numbers_of told.now)) }
    {
        let mut asks = Vec::with_capacity(alloc, self.shards as usize)?;
        for i in 0..self.shards {
            self.ask_untold(&mut asks, time, count, told, NodeId(FIRST_SHARD + i));
        }
        Ok(asks)
    }

    /// Returns whether these are all shards.
    pub fn have_all_told(self, told: &[NodeId]) -> bool
        ensures all { result ≡ true → requested.untold (numbers_of told.now) (requested.shards_of (asker_view self)) ≡ [] }
        ensures some { result ≡ false → requested.untold (numbers_of told.now) (requested.shards_of (asker_view self)) ≢ [] }
    {
        for i in 0..self.shards {
            if !has_told(told, NodeId(FIRST_SHARD + i)) {
                return false;
            }
        }
        true
    }
}
