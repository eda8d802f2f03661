//! Records in memory.

ghost use Rattle.std.specs.Prelude.{◌≡◌, ◌++◌, [], IfOk, OnErr, OnOk};

use bson_values::{Blob, Memory};
use std::alloc::Global;
use std::marker::Model;

/// Records in memory, in order.
#[derive(Drop)]
pub(crate) struct Records {
    items: Vec<Blob>,
}

impl Model for Records {
    ghost use Rattle.std.specs.Prelude.{List, ℕ};

    ghost Value = { List (List ℕ) };

    ghost view = { λ r. r.items.items };
}

/// Returns copies of these, or `Memory` if memory runs out.
fn copies_of(alloc: Global, bodies: &[Blob]) -> Result<Vec<Blob>, Memory>
    ensures { IfOk result (λ copies. copies.items ≡ bodies.now) }
{
    let mut copies = Vec::new(alloc);
    for body in bodies {
        copies.push(body.copy()?)?;
    }
    Ok(copies)
}

impl Records {
    /// Returns no records.
    pub(crate) fn new(alloc: Global) -> Records
        ensures { result ≡ [] }
    {
        Records {
            items: Vec::new(alloc),
        }
    }

    /// The records, in order.
    pub(crate) fn as_slice(&self) -> &[Blob]
        ensures { result.now ≡ self.now }
    {
        self.items.as_slice()
    }

    /// Appends copies of records, in order. Returns `Memory` if memory runs out, and then changes nothing.
    pub(crate) fn append(&mut self, alloc: Global, bodies: &[Blob]) -> Result<(), Memory>
        ensures ok { OnOk result (self.new ≡ self.old ++ bodies.now) }
        ensures err { OnErr result (self.new ≡ self.old) }
    {
        let mut copies = copies_of(alloc, bodies)?;
        self.items.append(&mut copies)?;
        Ok(())
    }
}
