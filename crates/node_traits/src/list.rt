//! Lists of what a step sends.

ghost use Rattle.std.specs.Prelude.{◌≡◌, ◌++◌, ◌∷◌, [], OnErr, OnOk};
ghost use Rattle.node_traits.specs.Lists.{listed};

use bson_values::Memory;
use std::alloc::Global;
use std::marker::Model;

/// A list of items, with room of its own for one, its last, which needs no memory.
#[derive(Drop)]
pub struct SpareList<T: Drop> {
    items: Vec<T>,
    last: Option<T>,
}

impl<T: Drop> Model for SpareList<T> {
    ghost use Rattle.std.specs.Prelude.{List, ◌++◌};
    ghost use Rattle.node_traits.specs.Lists.{listed};

    ghost Value = { List T };

    ghost view = { λ l. l.items.items ++ listed l.last };
}

impl<T: Drop> SpareList<T> {
    /// Returns the empty list.
    pub fn new(alloc: Global) -> SpareList<T>
        ensures { result ≡ [] }
    {
        SpareList {
            items: Vec::new(alloc),
            last: None,
        }
    }

    /// Returns a list of one item, in the room that needs no memory.
    pub fn of_one(alloc: Global, item: T) -> SpareList<T>
        ensures { result ≡ item ∷ [] }
    {
        SpareList {
            items: Vec::new(alloc),
            last: Some(item),
        }
    }

    /// Appends an item. Returns `Memory` if memory runs out, and then changes nothing.
    pub fn push(&mut self, item: T) -> Result<(), Memory>
        ensures ok { OnOk result (self.new ≡ self.old ++ item ∷ []) }
        ensures err { OnErr result (self.new ≡ self.old) }
    {
        self.items.reserve(2)?;
        match self.last.take() {
            Some(last) => self.items.push_reserved(last),
            None => {}
        }
        self.items.push_reserved(item);
        Ok(())
    }

    /// Appends the items, in order, to others. Returns `Memory` if memory runs out, and then those are unchanged.
    pub fn append_to(self, items: &mut Vec<T>) -> Result<(), Memory>
        ensures ok { OnOk result (items.new.items ≡ items.old.items ++ self) }
        ensures err { OnErr result (items.new.items ≡ items.old.items) }
    {
        let mut own = self.items;
        items.reserve(own.len().saturating_add(1))?;
        items.append(&mut own)?;
        match self.last {
            Some(last) => items.push_reserved(last),
            None => {}
        }
        Ok(())
    }

    /// Returns the items in order, and the last one where it is in the room of its own.
    pub fn into_parts(self) -> (Vec<T>, Option<T>)
        ensures { self ≡ result.0.items ++ listed result.1 }
    {
        (self.items, self.last)
    }
}
