//! The shelf: cursors by their ids.
#![tactic(auto, unfolding(crate::specs::Shelves::cursor_in))]

ghost use Rattle.std.specs.Prelude.{◌≡◌, ◌≢◌, ◌↔◌, ℤ, Err, IfOk, None, OnErr, OnOk, Some, drop, false, is_some, length, map, option_map, true, ◌==◌};
ghost use Rattle.std.specs.Arc.{arc_value};
ghost use Rattle.cursor_shelf.specs.Cursors.{OpenCursor, left_with};
ghost use Rattle.cursor_shelf.specs.declared.shelf.ShelfFault.TheVariants.{NotFound};
ghost use Rattle.pipeline_model.specs.Batches.{IsBatch};

use crate::cursor::Cursor;
use bson_values::{Document, Memory};
use cluster_base::{Namespace, Time};
use std::alloc::Global;
use std::collections::{BTreeMap, VecDeque};
use std::sync::Arc;

/// The next documents of a cursor.
#[derive(Drop)]
pub struct Batch {
    /// The documents, in order, shared with their other owners.
    pub documents: Vec<Arc<Document, Global>>,
    /// Whether no document remains after them.
    pub is_last: bool,
    /// The time at which the documents were read.
    pub time: Time,
}

/// Why there is no batch.
#[derive(Clone, Copy, Debug, PartialEq, Eq)]
pub enum ShelfFault {
    /// No cursor of that id is open on that namespace.
    NotFound,
    /// Out of memory.
    Memory,
}

impl From<Memory> for ShelfFault {
    ghost use Rattle.cursor_shelf.specs.declared.shelf.ShelfFault.TheVariants as faults;

    ghost from_gives = { λ _ e. e ≡ faults.Memory };

    fn from(_e: Memory) -> ShelfFault {
        ShelfFault::Memory
    }
}

/// The open cursors, each under its id.
#[derive(Drop)]
pub struct Shelf {
    alloc: Global,
    cursors: BTreeMap<i64, Cursor>,
}

impl Shelf {
    ghost use Rattle.cursor_shelf.specs.Shelves.{cursor_in, cursor_under};

    /// Returns a shelf without cursors.
    pub fn new(alloc: Global) -> Shelf
        ensures { (i : ℤ) → cursor_in result i ≡ None }
    {
        Shelf {
            alloc,
            cursors: BTreeMap::new(alloc),
        }
    }

    /// Opens a cursor under the id, in place of one that has it, on the documents that were read in the namespace at the time. Returns `Memory` if memory
    /// runs out, and then changes nothing.
    pub fn put(
        &mut self,
        id: i64,
        namespace: Namespace,
        time: Time,
        rest: VecDeque<Arc<Document, Global>>,
    ) -> Result<(), Memory>
        ensures put { OnOk result (cursor_in self.new id ≡ Some (record { namespace = namespace; time = time.0; remaining = map arc_value rest.items })) }
        ensures others { (i : ℤ) → i ≢ id → cursor_in self.new i ≡ cursor_in self.old i }
        ensures err { OnErr result (cursor_in self.new id ≡ cursor_in self.old id) }
    {
        let cursor = Cursor::new(namespace, time, rest);
        self.cursors.insert(id, cursor)?;
        Ok(())
    }

    /// Replaces the documents that remain of the cursor of that id, if there is one. Takes no memory.
    pub fn fill(&mut self, id: i64, rest: VecDeque<Arc<Document, Global>>)
        ensures filled { (c : OpenCursor) → cursor_in self.old id ≡ Some c →
            cursor_in self.new id ≡ Some (record { namespace = c.namespace; time = c.time; remaining = map arc_value rest.items }) }
        ensures others { (i : ℤ) → i ≢ id → cursor_in self.new i ≡ cursor_in self.old i }
    {
        if let Some(cursor) = self.cursors.get_mut(&id) {
            cursor.fill(rest);
        }
    }

    /// Returns the next batch of the cursor of that id, if it is open on the namespace: as many of its documents as the size, if one is given, and 16,777,216
    /// bytes allow, or one (MongoDB manual, "Cursor Batches"). The documents are shared, and remain on the cursor until it is advanced. Returns `NotFound`
    /// where there is no such cursor, and `Memory` if memory runs out.
    pub fn next(
        &self,
        id: i64,
        namespace: &Namespace,
        size: Option<u64>,
    ) -> Result<Batch, ShelfFault>
        ensures documents { IfOk result (λ b. (c : OpenCursor) → cursor_under self.now id namespace.now ≡ Some c → IsBatch size c.remaining (map arc_value b.documents.items)) }
        ensures time { IfOk result (λ b. (c : OpenCursor) → cursor_under self.now id namespace.now ≡ Some c → b.time.0 ≡ c.time) }
        ensures last { IfOk result (λ b. (c : OpenCursor) → cursor_under self.now id namespace.now ≡ Some c →
            b.is_last ≡ (length c.remaining == length (map arc_value b.documents.items))) }
        ensures found { IfOk result (λ b. is_some (cursor_under self.now id namespace.now) ≡ true) }
        ensures not_found { (result ≡ Err NotFound) ↔ (cursor_under self.now id namespace.now ≡ None) }
    {
        let Some(cursor) = self.find(id, namespace) else {
            return Err(ShelfFault::NotFound);
        };
        let documents = cursor.next(self.alloc, size)?;
        Ok(Batch {
            is_last: cursor.count() == documents.len(),
            documents,
            time: cursor.time(),
        })
    }

    /// Removes the first `count` documents of the cursor of that id, if there is one. A cursor without documents is closed. Takes no memory.
    pub fn advance(&mut self, id: i64, count: usize)
        ensures rest { (c : OpenCursor) → cursor_in self.old id ≡ Some c → cursor_in self.new id ≡ left_with c (drop count c.remaining) }
        ensures none { cursor_in self.old id ≡ None → cursor_in self.new id ≡ None }
        ensures others { (i : ℤ) → i ≢ id → cursor_in self.new i ≡ cursor_in self.old i }
    {
        let Some(cursor) = self.cursors.get_mut(&id) else {
            return;
        };
        cursor.advance(count);
        if cursor.count() == 0 {
            self.cursors.remove(&id);
        }
    }

    /// Closes the cursor of that id, if there is one. Takes no memory.
    pub fn close(&mut self, id: i64)
        ensures closed { cursor_in self.new id ≡ None }
        ensures others { (i : ℤ) → i ≢ id → cursor_in self.new i ≡ cursor_in self.old i }
    {
        self.cursors.remove(&id);
    }

    // Returns the cursor of that id, if it is open on the namespace.
    fn find(&self, id: i64, namespace: &Namespace) -> Option<&Cursor>
        ensures { option_map (λ c. c.now) result ≡ cursor_under self.now id namespace.now }
    {
        match self.cursors.get(&id) {
            Some(cursor) => {
                if cursor.is_of(namespace) {
                    Some(cursor)
                } else {
                    None
                }
            }
            None => None,
        }
    }

    /// Returns whether the cursor of that id is open on the namespace.
    pub fn has(&self, id: i64, namespace: &Namespace) -> bool
        ensures { result ≡ is_some (cursor_under self.now id namespace.now) }
    {
        self.find(id, namespace).is_some()
    }
}
