//! Closing cursors.

ghost use Rattle.std.specs.Prelude.{◌≡◌};

use crate::list::CursorList;
use bson_values::Memory;
use cluster_base::Namespace;
use std::collections::BTreeSet;

/// Numbers that a request named, in order: those of open cursors, each once, and the others.
#[derive(Drop)]
pub struct Closing {
    pub killed: Vec<i64>,
    pub missing: Vec<i64>,
}

impl CursorList {
    ghost use Rattle.std.specs.Prelude.{◌≡◌, [], ◌∷◌, ◌&&◌, ◌||◌, ℕ, ℤ, List, IfOk, OnOk, is_some, not};
    ghost use Rattle.std.specs.BTreeSet.{contains};
    ghost use Rattle.std.specs.Ordering.{int_cmp, int_eq};
    ghost use Rattle.reply_model.specs.Cursors.{Kills, open_cursor, with_remaining};
    ghost use Rattle.router_cursors.specs.Closing.{CloseSoFar, Has};
    ghost use Rattle.router_cursors.specs.CursorLists.{blocks_of, closed_all, cursors_of, gave_of};

    // Returns whether the cursor of that number is open on the namespace.
    fn has(&self, number: i64, namespace: &Namespace) -> bool
        ensures { (router life count : ℕ) → result ≡ is_some (open_cursor (record { router = router; life = life; count = count }) number namespace.now (cursors_of router life self.now)) }
    {
        self.is_given(number) && self.shelf.has(number, namespace)
    }

    // Returns whether the cursor of that number is open on the namespace, and not among those to be closed, to which it is then added. Returns `Memory` if
    // memory runs out.
    fn is_new(
        &self,
        closed: &mut BTreeSet<i64>,
        namespace: &Namespace,
        number: i64,
    ) -> Result<bool, Memory>
        ensures is { (router life count : ℕ) → IfOk result (λ new. new
            ≡ (is_some (open_cursor (record { router = router; life = life; count = count }) number namespace.now (cursors_of router life self.now)) && not (contains int_cmp closed.old number))) }
        ensures closed { IfOk result (λ new. (i : ℤ) → contains int_cmp closed.new i ≡ (contains int_cmp closed.old i || (new && int_eq i number))) }
    {
        if self.has(number, namespace) {
            Ok(closed.insert(number)?)
        } else {
            Ok(false)
        }
    }

    // Appends a number to those to be closed, if its cursor is open and not among them yet, else to the others. Returns `Memory` if memory runs out.
    fn sort_out(
        &self,
        closed: &mut BTreeSet<i64>,
        closing: &mut Closing,
        namespace: &Namespace,
        number: i64,
    ) -> Result<(), Memory>
        requires { Has closed.old closing.old.killed.items }
        ensures closed { OnOk result (Has closed.new closing.new.killed.items) }
        ensures goes_on { OnOk result ((router life count : ℕ) (numbers all : List ℤ) →
            CloseSoFar (record { router = router; life = life; count = count }) namespace.now (cursors_of router life self.now) (number ∷ numbers) all closing.old.killed.items closing.old.missing.items →
            CloseSoFar (record { router = router; life = life; count = count }) namespace.now (cursors_of router life self.now) numbers all closing.new.killed.items closing.new.missing.items) }
    {
        if self.is_new(closed, namespace, number)? {
            closing.killed.push(number)?;
        } else {
            closing.missing.push(number)?;
        }
        Ok(())
    }

    /// Returns which of these numbers are to be closed, in order, and which are not those of open cursors of the namespace. Returns `Memory` if memory runs
    /// out.
    pub fn closing(&self, namespace: &Namespace, numbers: &[i64]) -> Result<Closing, Memory>
        ensures { (router life count : ℕ) → IfOk result (λ closing. Kills (record { router = router; life = life; count = count }) namespace.now (cursors_of router life self.now)
            numbers.now closing.killed.items closing.missing.items (closed_all (record { router = router; life = life; count = count }) closing.killed.items (cursors_of router life self.now))) }
    {
        let mut closed = BTreeSet::new(self.alloc);
        let mut closing = Closing {
            killed: Vec::new(self.alloc),
            missing: Vec::new(self.alloc),
        };
        for number in numbers {
            self.sort_out(&mut closed, &mut closing, namespace, *number)?;
        }
        Ok(closing)
    }

    // Closes the cursor of that number.
    fn close_one(&mut self, number: i64)
        ensures cursors { (router life count : ℕ) → cursors_of router life self.new
            ≡ with_remaining (record { router = router; life = life; count = count }) number [] (cursors_of router life self.old) }
        ensures blocks { blocks_of self.new ≡ blocks_of self.old }
        ensures gave { gave_of self.new ≡ gave_of self.old }
    {
        self.shelf.close(number);
    }

    /// Closes the cursors of these numbers. Takes no memory.
    pub fn close(&mut self, numbers: &[i64])
        ensures cursors { (router life count : ℕ) → cursors_of router life self.new
            ≡ closed_all (record { router = router; life = life; count = count }) numbers.now (cursors_of router life self.old) }
        ensures blocks { blocks_of self.new ≡ blocks_of self.old }
        ensures gave { gave_of self.new ≡ gave_of self.old }
    {
        for number in numbers {
            self.close_one(*number);
        }
    }
}
