//! Messages.

ghost use Rattle.protocol_model.specs.Messages.{letter_of};

use crate::body::Body;
use bson_values::Memory;
use cluster_base::{NodeId, Time};
use node_traits::Mail;
use std::alloc::Global;

/// A message between nodes.
#[derive(Drop)]
pub struct Message {
    pub sender: NodeId,
    pub receiver: NodeId,
    /// The sender's time after the step that sent it.
    pub time: Time,
    pub body: Body,
}

impl Mail for Message {
    ghost letter = { letter_of };

    fn to(&self) -> NodeId {
        self.receiver
    }

    fn kind(&self) -> &'static str {
        self.body.kind()
    }

    fn copy(&self, alloc: Global) -> Result<Message, Memory> {
        let body = self.body.copy(alloc)?;
        Ok(Message {
            sender: self.sender,
            receiver: self.receiver,
            time: self.time,
            body,
        })
    }
}
