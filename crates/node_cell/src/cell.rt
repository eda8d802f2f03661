//! A node under its lock.

ghost use Rattle.std.specs.Prelude.{◌≡◌, map, IfOk, IfSome};
ghost use Rattle.node_model.specs.Letters.{client_input, moment_input, opened_input};
ghost use Rattle.node_cell.specs.Deliveries.{AreDeliveries};

use crate::deliveries::{Delivered, prepare_all};
use crate::fault::CellFault;
use crate::guarded::Guarded;
use crate::letter::{Letter, Stepped};
use crate::numbers::Book;
use crate::view::Numbering;
use node_traits::Node;
use outside::log::Log;
use std::alloc::Global;
use std::collections::VecDeque;
use std::marker::Sync;
use std::sync::{Mutex, Wait};
use std::thread::Threads;

/// A node with its log under its lock. Each step is taken under the lock, and gets its number there, once its records are in the log.
#[derive(Drop)]
pub struct Cell<N: Node, L: Log, K: Numbering> {
    guarded: Mutex<Guarded<N, L, K>>,
}

impl<N: Node, L: Log, K: Numbering> Cell<N, L, K> {
    pub(crate) fn new(guarded: Guarded<N, L, K>) -> Cell<N, L, K> {
        Cell {
            guarded: Mutex::new(guarded),
        }
    }

    /// Passes a request of a link to the node; the number is that of its reply. `None` if the node is no router.
    ///
    /// # Errors
    /// Why the step was not taken. After `CellFault::Halted` the node takes no more steps.
    pub fn ask<R: Wait>(
        &self,
        rt: &R,
        alloc: Global,
        book: &Book<N, L, K>,
        link: u32,
        number: i32,
        request: N::Request,
    ) -> Result<Option<Stepped<N, L, K>>, CellFault>
        ensures { IfOk result (λ o. IfSome o (λ s. N.meaning s.taken.input ≡ client_input link number (N.asks request))) }
    {
        self.guarded
            .lock(rt)
            .ask(rt, alloc, book, link, number, request)
    }

    /// Advances the clock of the node to the moment, in milliseconds since 1970.
    ///
    /// # Errors
    /// As `ask` has them.
    pub fn give_moment<R: Wait>(
        &self,
        rt: &R,
        alloc: Global,
        book: &Book<N, L, K>,
        moment: u64,
    ) -> Result<Stepped<N, L, K>, CellFault>
        ensures { IfOk result (λ s. N.meaning s.taken.input ≡ moment_input moment) }
    {
        self.guarded
            .lock(rt)
            .take(rt, alloc, book, N::moment(moment))
    }

    /// Reports to the node that it was opened.
    ///
    /// # Errors
    /// As `ask` has them.
    pub fn report_opening<R: Wait>(
        &self,
        rt: &R,
        alloc: Global,
        book: &Book<N, L, K>,
    ) -> Result<Stepped<N, L, K>, CellFault>
        ensures { IfOk result (λ s. N.meaning s.taken.input ≡ opened_input) }
    {
        self.guarded.lock(rt).take(rt, alloc, book, N::opened())
    }

    /// Delivers those messages that go to the node, in order, until it can take no more steps. What depends on the messages alone is computed before the lock
    /// is taken.
    pub fn deliver<R: Threads + Wait + Sync>(
        &self,
        rt: &R,
        alloc: Global,
        book: &Book<N, L, K>,
        letters: VecDeque<Letter<N, L, K>>,
    ) -> Delivered<N, L, K>
        ensures { AreDeliveries N.meaning (map (λ m. N.Mail.letter m) letters.items) result.steps.items }
    {
        match prepare_all(rt, alloc, letters) {
            Ok(prepared) => self.guarded.lock(rt).deliver(rt, alloc, book, prepared),
            Err(_) => Delivered::nothing(alloc),
        }
    }

    /// Returns the node at a place, once no thread has the lock. With a node at another place it waits forever, which never comes about.
    pub(crate) fn into_guarded<R: Wait>(self, rt: &R, at: u64) -> Guarded<N, L, K>
        ensures { result.at ≡ at }
    {
        let guarded = self.guarded.into_inner();
        if guarded.at() != at {
            for _ in rt.forever() {}
            unreachable!()
        }
        guarded
    }
}
