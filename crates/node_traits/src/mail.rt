//! Messages between nodes.

ghost use Rattle.std.specs.Prelude.{◌≡◌, IfOk};
ghost use Rattle.node_model.specs.Letters.{Letter};
ghost use Rattle.node_traits.specs.Kinds.{kind_of};

use bson_values::Memory;
use cluster_base::NodeId;
use std::alloc::Global;

/// A message between nodes.
pub trait Mail: Sized + Drop {
    // The message of the definitions that it is.
    ghost letter: { Self → Letter };

    /// Returns the node that it is sent to.
    fn to(&self) -> NodeId
        ensures { result.0 ≡ (letter self.now).receiver };

    /// Returns the name of its kind in scripts.
    fn kind(&self) -> &'static str
        ensures { result.now ≡ kind_of (letter self.now).body };

    /// Returns a copy of the message, or `Memory` if memory runs out.
    fn copy(&self, alloc: Global) -> Result<Self, Memory>
        ensures { IfOk result (λ message. letter message ≡ letter self.now) };
}
