//! The cursors that a router opened in its life.

ghost use Rattle.std.specs.Prelude.{◌≡◌, ◌≤◌, ◌*◌, ◌^◌, true};
ghost use Rattle.cursor_shelf.specs.Shelves.{cursor_in};
ghost use Rattle.router_cursors.specs.Marks.{AreKept, rises};

use crate::mark::Mark;
use crate::number::{NewNumber, as_signed, number_behind};
use bson_values::{Document, Memory};
use cluster_base::{Namespace, Time};
use cursor_shelf::{Batch, Shelf, ShelfFault};
use ghost_list::GhostList;
use std::alloc::Global;
use std::collections::VecDeque;
use std::sync::Arc;

/// The cursors that a router opened in its life, and the numbers that it used in all its lives.
#[derive(Drop)]
pub struct CursorList {
    pub(crate) alloc: Global,
    pub(crate) shelf: Shelf,
    // How many blocks of numbers were written.
    pub(crate) blocks: u64,
    // The last number that was used.
    pub(crate) gave: u64,
    // The cursors that were opened, for proofs only.
    pub(crate) opened: GhostList<Namespace, Mark>,
    ghost few: { blocks ≤ 2 ^ 56 },
    ghost within: { gave ≤ 64 * blocks },
    ghost rising: { rises 0 gave opened.items ≡ true },
    ghost kept: { AreKept (λ i. cursor_in shelf i) gave opened.items },
}

impl CursorList {
    ghost use Rattle.std.specs.Prelude.{◌≡◌, ◌+◌, ◌*◌, ◌^◌, ◌<◌, ◌≤◌, ◌++◌, ◌∷◌, [], ℕ, ℤ, pos, IfErr, IfNone, IfOk, IfSome, OnOk, None, Some, int_le, length, map, true};
    ghost use Rattle.std.specs.Arc.{arc_value};
    ghost use Rattle.cursor_shelf.specs.declared.shelf.ShelfFault.TheVariants.{NotFound};
    ghost use Rattle.reply_model.specs.Cursors.{Cursor, ShowsNext, open_cursor};
    ghost use Rattle.router_cursors.specs.CursorLists.{HasRoomFor, advanced, batch_of, blocks_of, cursors_of, gave_of};
    ghost use Rattle.router_cursors.specs.Marks.{is_left};
    ghost use Rattle.router_cursors.specs.Numbers.{block_given, blocks_then, number_given};

    /// Returns the number of the next cursor, or none where the numbers are exhausted.
    pub fn next_number(&self) -> Option<NewNumber>
        ensures number { IfSome result (λ n. n.number ≡ number_given (blocks_of self.now) (gave_of self.now)) }
        ensures block { IfSome result (λ n. n.block ≡ block_given (blocks_of self.now) (gave_of self.now)) }
        ensures blocks { IfSome result (λ n. n.blocks ≡ blocks_then (blocks_of self.now) (gave_of self.now)) }
        ensures behind { IfSome result (λ n. n.number ≡ gave_of self.now + 1) }
        ensures inside { IfSome result (λ n. n.number ≤ 64 * n.blocks) }
        ensures few { IfSome result (λ n. n.blocks ≤ 2 ^ 56) }
        ensures none { IfNone result (2 ^ 62 < number_given (blocks_of self.now) (gave_of self.now)) }
    {
        number_behind(self.blocks, self.gave)
    }

    /// Reserves room for the next cursor, on documents of a namespace at a time. Returns `Memory` if memory runs out, and where the numbers are exhausted.
    /// The cursors are the same either way.
    pub fn make_room(&mut self, namespace: &Namespace, time: Time) -> Result<(), Memory>
        ensures room { OnOk result (HasRoomFor self.new namespace.now time.0) }
        ensures cursors { (router life : ℕ) → cursors_of router life self.new ≡ cursors_of router life self.old }
        ensures blocks { blocks_of self.new ≡ blocks_of self.old }
        ensures gave { gave_of self.new ≡ gave_of self.old }
    {
        let Some(next) = self.next_number() else {
            return Err(Memory);
        };
        let none = VecDeque::new(self.alloc);
        let namespace = namespace.copy()?;
        self.shelf
            .put(as_signed(next.number), namespace, time, none)?;
        Ok(())
    }

    /// Opens the next cursor on documents that remain, where there is room for it. Takes no memory.
    pub fn open(&mut self, namespace: &Namespace, time: Time, rest: VecDeque<Arc<Document, Global>>)
        requires room { HasRoomFor self.old namespace.now time.0 }
        requires left { is_left (map arc_value rest.items) ≡ true }
        ensures cursors { (router life : ℕ) → cursors_of router life self.new ≡ cursors_of router life self.old ++ record {
          router = router;
          life = life;
          number = pos (number_given (blocks_of self.old) (gave_of self.old));
          namespace = namespace.now;
          time = time.0;
          remaining = map arc_value rest.items;
        } ∷ [] }
        ensures blocks { blocks_of self.new ≡ blocks_then (blocks_of self.old) (gave_of self.old) }
        ensures gave { gave_of self.new ≡ number_given (blocks_of self.old) (gave_of self.old) }
    {
        if let Some(next) = self.next_number() {
            let number = next.number;
            self.shelf.fill(as_signed(number), rest);
            self.opened = self.opened.with(namespace, &Mark { number, time });
            self.gave = number;
            self.blocks = next.blocks;
        }
    }

    // Returns whether a number is at most the last one that was used.
    pub(crate) fn is_given(&self, number: i64) -> bool
        ensures { result ≡ int_le number (pos self.now.gave) }
    {
        number <= as_signed(self.gave)
    }

    /// Returns the next batch of the cursor of that number, if it is open on the namespace, of at most this many documents, where a size is given; they are
    /// shared. Returns `NotFound` where there is no such cursor, and `Memory` if memory runs out.
    pub fn next_batch(
        &self,
        number: i64,
        namespace: &Namespace,
        size: Option<u64>,
    ) -> Result<Batch, ShelfFault>
        ensures shows { (router life count : ℕ) → IfOk result (λ b. (c : Cursor)
            × (open_cursor (record { router = router; life = life; count = count }) number namespace.now (cursors_of router life self.now) ≡ Some c)
            × ShowsNext (record { router = router; life = life; count = count }) size (cursors_of router life self.now) c (batch_of number namespace.now b)
            (advanced (record { router = router; life = life; count = count }) number (length b.documents.items) (cursors_of router life self.now))) }
        ensures none { (router life count : ℕ) → IfErr result (λ fault. fault ≡ NotFound →
            open_cursor (record { router = router; life = life; count = count }) number namespace.now (cursors_of router life self.now) ≡ None) }
    {
        if !self.is_given(number) {
            return Err(ShelfFault::NotFound);
        }
        self.shelf.next(number, namespace, size)
    }

    /// Removes the first `count` documents of the cursor of that number. Takes no memory.
    pub fn advance(&mut self, number: i64, count: usize)
        ensures cursors { (router life request : ℕ) → cursors_of router life self.new
            ≡ advanced (record { router = router; life = life; count = request }) number count (cursors_of router life self.old) }
        ensures blocks { blocks_of self.new ≡ blocks_of self.old }
        ensures gave { gave_of self.new ≡ gave_of self.old }
    {
        self.shelf.advance(number, count);
    }
}
