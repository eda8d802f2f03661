//! Messages on writes.

ghost use Rattle.std.specs.Prelude.{◌≡◌, IfOk};
ghost use Rattle.protocol_model.specs.Bodies.{write_ask_view, write_done_view};

use crate::lists::{DoneList, StatementList, copy_dones, copy_statements};
use bson_values::Memory;
use chunk_table::Sent;
use cluster_base::{Namespace, RequestId};
use command_replies::ClientNumber;
use std::alloc::Global;

/// To a shard: consecutive statements of a request that go to this shard, with the number from the client, if it gave one.
#[derive(Drop)]
pub struct WriteAsk {
    pub id: RequestId,
    pub turn: u32,
    pub ordered: bool,
    pub namespace: Namespace,
    pub number: Option<ClientNumber>,
    pub statements: StatementList,
    pub sent: Sent,
}

impl WriteAsk {
    /// Returns a copy, which shares the documents, or `Memory` if memory runs out.
    pub fn copy(&self, alloc: Global) -> Result<WriteAsk, Memory>
        ensures { IfOk result (λ ask. write_ask_view ask ≡ write_ask_view self.now) }
    {
        let namespace = self.namespace.copy()?;
        let statements = copy_statements(alloc, &self.statements)?;
        Ok(WriteAsk {
            id: self.id,
            turn: self.turn,
            ordered: self.ordered,
            namespace,
            number: self.number,
            statements,
            sent: self.sent,
        })
    }
}

/// The answer: the outcomes of the statements, in order.
#[derive(Drop)]
pub struct WriteDone {
    pub id: RequestId,
    pub dones: DoneList,
}

impl WriteDone {
    /// Returns a copy, or `Memory` if memory runs out.
    pub fn copy(&self, alloc: Global) -> Result<WriteDone, Memory>
        ensures { IfOk result (λ done. write_done_view done ≡ write_done_view self.now) }
    {
        let dones = copy_dones(alloc, &self.dones)?;
        Ok(WriteDone { id: self.id, dones })
    }
}
