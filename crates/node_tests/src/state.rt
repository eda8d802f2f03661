//! The node.

ghost use Rattle.std.specs.Prelude.{◌<◌, ◌^◌};

use cluster_base::NodeId;
use std::alloc::Global;

/// A catalogue that has memory to be opened, and for nothing else.
#[derive(Drop)]
pub struct Idle {
    pub(crate) alloc: Global,
    pub(crate) me: NodeId,
    pub(crate) steps: u64,
    ghost few: { steps < 2 ^ 56 },
}

impl Idle {
    /// Returns the node of this number, before its first step.
    pub fn new(alloc: Global, me: NodeId) -> Idle {
        Idle {
            alloc,
            me,
            steps: 0,
        }
    }
}
