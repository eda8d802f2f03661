//! Messages on splits of chunks (MongoDB manual, "split").

ghost use Rattle.std.specs.Prelude.{◌≡◌, IfOk};
ghost use Rattle.protocol_model.specs.Bodies.{split_ask_view};

use bson_values::Memory;
use cluster_base::{Namespace, RequestId};
use value_compare::Key;

/// To the catalogue: the chunk of a collection that has the key is to be split there.
#[derive(Drop)]
pub struct SplitAsk {
    pub id: RequestId,
    pub namespace: Namespace,
    pub middle: Key,
}

impl SplitAsk {
    /// Returns a copy, or `Memory` if memory runs out.
    pub fn copy(&self) -> Result<SplitAsk, Memory>
        ensures { IfOk result (λ ask. split_ask_view ask ≡ split_ask_view self.now) }
    {
        let namespace = self.namespace.copy()?;
        let middle = self.middle.copy()?;
        Ok(SplitAsk {
            id: self.id,
            namespace,
            middle,
        })
    }
}

/// The answer: whether there is such a collection. Where there is, a chunk begins at the key now.
#[derive(Clone, Copy, Debug, PartialEq, Eq, Drop)]
pub struct SplitDone {
    pub id: RequestId,
    pub found: bool,
}
