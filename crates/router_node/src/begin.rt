//! The records of a router: a life that begins, and blocks of numbers of cursors.

use crate::node::RouterNode;
use bson_values::{Blob, Memory};
use router_replies::life_record;

impl RouterNode {
    ghost use Rattle.std.specs.Prelude.{◌≡◌, IfOk, OnOk};
    ghost use Rattle.node_traits.specs.Effects.{AreReadable, spellings};
    ghost use Rattle.router_node.specs.RouterStates.{router_of};
    ghost use Rattle.router_node.specs.Rows.{life_kept};

    // Returns the records of a life that begins, if it did not begin. Returns `Memory` if memory runs out.
    pub(crate) fn life_records(&self) -> Result<Vec<Blob>, Memory>
        ensures records { IfOk result (λ records. records.items ≡ spellings (life_kept (router_of self.now))) }
        ensures readable { OnOk result (AreReadable (life_kept (router_of self.now))) }
    {
        let mut records = Vec::new(self.alloc);
        if !self.begun {
            records.push(life_record(self.alloc, self.life)?)?;
        }
        Ok(records)
    }
}
