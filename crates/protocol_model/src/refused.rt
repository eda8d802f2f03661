//! Answers to requests that are not served.

ghost use Rattle.std.specs.Prelude.{◌≡◌, IfOk};
ghost use Rattle.protocol_model.specs.Refusals.{about_view, refused_view};

use crate::tables::At;
use bson_values::Memory;
use chunk_table::Version;
use cluster_base::{Namespace, NodeId, RequestId};

/// A try of a part of a request with an older table than the shard's: the versions of the collection by the router's table and by the shard's.
#[derive(Clone, Copy, Debug, PartialEq, Eq, Drop)]
pub struct Try {
    pub sent: Version,
    pub met: Version,
}

/// Why a node takes no step.
#[derive(Clone, Copy, Debug, PartialEq, Eq, Drop)]
pub enum Lack {
    /// It is out of memory.
    Memory,
    /// It is at its last step, after so many.
    Steps { steps: u64 },
}

/// Why a request is refused.
#[derive(Clone, Copy, Debug, PartialEq, Eq, Drop)]
pub enum Cause {
    /// It was sent with an older table than the shard's, which has this version.
    Stale { met: Version },
    /// This node took no step.
    Lack { node: NodeId, lack: Lack },
}

/// What is refused.
#[derive(Drop)]
pub enum About {
    /// Of a client's request, what was sent in a turn from the statement with this index on; 0 and 0 where it has none.
    Request {
        id: RequestId,
        turn: u32,
        first: u32,
    },
    /// The request for a table.
    Table {
        namespace: Namespace,
        create: bool,
        at: At,
    },
}

impl About {
    /// Returns a copy, or `Memory` if memory runs out.
    pub fn copy(&self) -> Result<About, Memory>
        ensures { IfOk result (λ about. about_view about ≡ about_view self.now) }
    {
        match self {
            About::Request { id, turn, first } => Ok(About::Request {
                id: *id,
                turn: *turn,
                first: *first,
            }),
            About::Table {
                namespace,
                create,
                at,
            } => Ok(About::Table {
                namespace: namespace.copy()?,
                create: *create,
                at: *at,
            }),
        }
    }
}

/// The answer to a request that is not served.
#[derive(Drop)]
pub struct Refused {
    pub about: About,
    pub cause: Cause,
}

impl Refused {
    /// Returns a copy, or `Memory` if memory runs out.
    pub fn copy(&self) -> Result<Refused, Memory>
        ensures { IfOk result (λ refused. refused_view refused ≡ refused_view self.now) }
    {
        let about = self.about.copy()?;
        Ok(Refused {
            about,
            cause: self.cause,
        })
    }
}
