//! Messages on reads.

ghost use Rattle.std.specs.Prelude.{◌≡◌, IfOk};
ghost use Rattle.protocol_model.specs.Bodies.{half_ask_view, read_ask_view, read_rows_view};

use crate::lists::DocumentList;
use bson_values::Memory;
use chunk_table::Sent;
use cluster_base::{Namespace, RequestId, Time};
use pipeline_eval::{Rows, share_all};
use pipeline_lang::Half;
use std::alloc::Global;
use std::sync::Arc;

/// Why a half returns no rows.
#[derive(Clone, Copy, Debug, PartialEq, Eq, Drop)]
pub enum HalfFault {
    /// A sum is outside int64.
    Overflow,
    /// The rows have this number of bytes, which is too great.
    TooMuch { bytes: u64 },
}

/// To a shard: the result of a half on its documents at a time is requested. The half is shared.
#[derive(Drop)]
pub struct ReadAsk {
    pub id: RequestId,
    pub turn: u32,
    pub namespace: Namespace,
    pub at: Time,
    pub half: Arc<Half, Global>,
    pub sent: Sent,
}

impl ReadAsk {
    /// Returns a copy, which shares the half, or `Memory` if memory runs out.
    pub fn copy(&self) -> Result<ReadAsk, Memory>
        ensures { IfOk result (λ ask. read_ask_view ask ≡ read_ask_view self.now) }
    {
        let namespace = self.namespace.copy()?;
        let half = Arc::try_clone(&self.half)?;
        Ok(ReadAsk {
            id: self.id,
            turn: self.turn,
            namespace,
            at: self.at,
            half,
            sent: self.sent,
        })
    }
}

/// From a shard to itself: the documents on which a half is to run.
#[derive(Drop)]
pub struct HalfAsk {
    pub id: RequestId,
    pub turn: u32,
    pub namespace: Namespace,
    pub at: Time,
    pub half: Arc<Half, Global>,
    pub documents: DocumentList,
}

impl HalfAsk {
    /// Returns a copy, which shares the half and the documents, or `Memory` if memory runs out.
    pub fn copy(&self, alloc: Global) -> Result<HalfAsk, Memory>
        ensures { IfOk result (λ ask. half_ask_view ask ≡ half_ask_view self.now) }
    {
        let namespace = self.namespace.copy()?;
        let half = Arc::try_clone(&self.half)?;
        let documents = share_all(alloc, &self.documents)?;
        Ok(HalfAsk {
            id: self.id,
            turn: self.turn,
            namespace,
            at: self.at,
            half,
            documents,
        })
    }
}

/// The answer to a read: the rows of its half, or why there are none.
#[derive(Drop)]
pub struct ReadRows {
    pub id: RequestId,
    pub turn: u32,
    pub rows: Result<Rows, HalfFault>,
}

impl ReadRows {
    /// Returns a copy, which shares the documents, or `Memory` if memory runs out.
    pub fn copy(&self, alloc: Global) -> Result<ReadRows, Memory>
        ensures { IfOk result (λ told. read_rows_view told ≡ read_rows_view self.now) }
    {
        let rows = match &self.rows {
            Ok(rows) => Ok(rows.copy(alloc)?),
            Err(fault) => Err(*fault),
        };
        Ok(ReadRows {
            id: self.id,
            turn: self.turn,
            rows,
        })
    }
}

/// To a shard, for a read of a time that the router has not reached: its time is requested.
#[derive(Clone, Copy, Debug, PartialEq, Eq, Drop)]
pub struct TimeAsk {
    pub id: RequestId,
}

/// The answer: the time is in the message.
#[derive(Clone, Copy, Debug, PartialEq, Eq, Drop)]
pub struct TimeTold {
    pub id: RequestId,
}
