//! The node that sends requests.

use bson_values::Memory;
use cluster_base::{Namespace, NodeId, RequestId, Time};
use protocol_model::{At, Body, Message, SplitAsk, TableAsk};
use value_compare::Key;

/// The catalogue.
const CATALOGUE: NodeId = NodeId(0);

/// A router, in one of its lives, and how many shards there are.
#[derive(Clone, Copy, Debug, PartialEq, Eq)]
pub struct Asker {
    pub me: NodeId,
    pub shards: u32,
    pub life: u64,
}

impl Asker {
    ghost use Rattle.std.specs.Prelude.{◌≡◌, IfOk, true, false};
    ghost use Rattle.node_model.specs.Letters.{no_time, at_time, split_ask, table_ask};
    ghost use Rattle.node_model.specs.RouterRequests as requested;
    ghost use Rattle.node_traits.specs.Ids.{id_view};
    ghost use Rattle.protocol_model.specs.Bodies.{body_view};
    ghost use Rattle.protocol_model.specs.Messages.{letter_of};
    ghost use Rattle.router_requests.specs.Askers.{asker_view};

    /// Returns the id of the request that it took with this count.
    pub fn id(self, count: u64) -> RequestId
        ensures { id_view result ≡ requested.id_of (asker_view self) count }
    {
        RequestId {
            router: self.me,
            life: self.life,
            count,
        }
    }

    /// Returns the message that it sends to a node at a time.
    pub(crate) fn says(self, receiver: NodeId, time: Time, body: Body) -> Message
        ensures { letter_of result ≡ requested.says (asker_view self) receiver.0 time.0 (body_view body) }
    {
        Message {
            sender: self.me,
            receiver,
            time,
            body,
        }
    }

    /// Returns what a write requests of the catalogue, and what creates a collection: its table, and that it is created where it does not exist.
    /// Returns `Memory` if memory runs out.
    pub fn asks_to_begin(self, time: Time, namespace: &Namespace) -> Result<Message, Memory>
        ensures { IfOk result (λ m. letter_of m ≡ requested.says (asker_view self) 0 time.0 (table_ask namespace.now true no_time)) }
    {
        let ask = TableAsk {
            namespace: namespace.copy()?,
            create: true,
            at: At::NoTime,
        };
        Ok(self.says(CATALOGUE, time, Body::TableAsk(ask)))
    }

    /// Returns what a read at a time requests of the catalogue: its table. Returns `Memory` if memory runs out.
    pub fn asks_table_at(
        self,
        time: Time,
        namespace: &Namespace,
        at: Time,
    ) -> Result<Message, Memory>
        ensures { IfOk result (λ m. letter_of m ≡ requested.says (asker_view self) 0 time.0 (table_ask namespace.now false (at_time at.0))) }
    {
        let ask = TableAsk {
            namespace: namespace.copy()?,
            create: false,
            at: At::Time(at),
        };
        Ok(self.says(CATALOGUE, time, Body::TableAsk(ask)))
    }

    /// Returns what a split requests of the catalogue, or `Memory` if memory runs out.
    pub fn asks_split(
        self,
        time: Time,
        count: u64,
        namespace: &Namespace,
        middle: &Key,
    ) -> Result<Message, Memory>
        ensures { IfOk result (λ m. letter_of m
            ≡ requested.says (asker_view self) 0 time.0 (split_ask (requested.id_of (asker_view self) count) namespace.now middle.now)) }
    {
        let ask = SplitAsk {
            id: self.id(count),
            namespace: namespace.copy()?,
            middle: middle.copy()?,
        };
        Ok(self.says(CATALOGUE, time, Body::SplitAsk(ask)))
    }
}
