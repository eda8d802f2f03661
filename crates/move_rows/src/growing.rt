//! A collection in which each version is later than those before.

ghost use Rattle.std.specs.Prelude.{◌≡◌, ◌<◌, ℕ, Some};
ghost use Rattle.bson_values.specs.Tree.{Datum};
ghost use Rattle.mvcc_collection.specs.Collections.{last_in};

use bson_values::Document;
use cluster_base::Time;
use fixtures::RowFault;
use mvcc_collection::Collection;
use std::alloc::Global;
use std::sync::Arc;
use value_compare::Key;

/// A collection in which each version is later than those before.
#[derive(Drop)]
pub struct Growing {
    /// The documents.
    pub collection: Collection,
    // the least time that may be put next
    next: u64,
    ghost below: { (k : Datum) (t : ℕ) → last_in collection k ≡ Some t → t < next },
}

impl Growing {
    /// Returns a collection of no documents.
    pub fn new(alloc: Global) -> Growing {
        Growing {
            collection: Collection::new(alloc),
            next: 0,
        }
    }

    /// Stores the document, or none, and returns whether there is a time left for it.
    pub fn put(
        &mut self,
        key: &Key,
        document: Option<Arc<Document, Global>>,
    ) -> Result<bool, RowFault> {
        if self.next == u64::MAX {
            return Ok(false);
        }
        self.collection.reserve(key)?;
        self.collection.put(key, Time(self.next), document);
        self.next += 1;
        Ok(true)
    }
}
