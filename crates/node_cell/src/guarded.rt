//! A node with the pass that knows it.

ghost use Rattle.std.specs.Prelude.{◌≡◌, ◌<◌, ◌∷◌, [], List, None, IfNone, IfOk, IfSome, IsTrue};
ghost use Rattle.node_model.specs.Letters.{Letter as Message, client_input};
ghost use Rattle.node_cell.specs.Courses.{node_facts};
ghost use Rattle.node_cell.specs.Deliveries.{AreStepsOn};
ghost use Rattle.node_cell.specs.Standing.{IsKnown, Sits};
ghost use Rattle.node_cell.specs.Views.{IsFree};

use crate::deliveries::{Delivered, deliver_all, take_one};
use crate::fault::CellFault;
use crate::letter::{Prepared, Stepped};
use crate::numbers::Book;
use crate::view::{Numbering, Pass, Placed};
use driver_steps::Seat;
use node_traits::Node;
use outside::log::Log;
use std::alloc::Global;
use std::marker::{Model, PhantomData};
use std::sync::Wait;

/// A node with its log at its place, and the pass that has it alone.
#[derive(Drop)]
pub(crate) struct Guarded<N: Node, L: Log, K: Numbering> {
    placed: Placed<N, L>,
    pass: Pass<N, L>,
    of: PhantomData<K>,
}

impl<N: Node, L: Log, K: Numbering> Model for Guarded<N, L, K> {
    ghost use Rattle.std.specs.Prelude.{◌≡◌};
    ghost use Rattle.node_cell.specs.Courses.{node_facts};
    ghost use Rattle.node_cell.specs.Standing.{Sits};
    ghost use Rattle.node_cell.specs.Views.{IsFree};
    ghost use Rattle.node_cell.specs.declared.view.Placed.{Placed};

    ghost Value = { Placed N L };

    ghost view = { λ c. c.placed };

    ghost invariant = { λ c. (c.pass.table_id ≡ K.table) × IsFree c.pass.me
        × Sits (node_facts N.state N.steps (λ m. N.Mail.letter m) N.meaning L.facts) K.routers c.placed c.pass.me.0 };
}

impl<N: Node, L: Log, K: Numbering> Guarded<N, L, K> {
    /// Returns the node at a place with the pass that has it.
    pub(crate) fn new(at: u64, seat: Seat<N, L>, pass: Pass<N, L>) -> Guarded<N, L, K>
        requires table { (pass.table_id ≡ K.table) × IsFree pass.me }
        requires held { pass.me.0.held ≡ (at, seat) ∷ [] }
        requires open { IsTrue (L.facts.is_open seat.log) }
        ensures { result ≡ record { at = at; halt = None; seat = seat } }
    {
        Guarded {
            placed: Placed {
                at,
                halt: None,
                seat,
            },
            pass,
            of: PhantomData,
        }
    }

    /// Returns its place among the nodes.
    pub(crate) fn at(&self) -> u64
        ensures { result ≡ self.now.at }
    {
        self.placed.at
    }

    /// Returns the node, and its pass.
    pub(crate) fn into_parts(self) -> (Placed<N, L>, Pass<N, L>)
        ensures node { result.0 ≡ self }
        ensures pass { (result.1.table_id ≡ K.table) × IsFree result.1.me }
        ensures sits { Sits (node_facts N.state N.steps (λ m. N.Mail.letter m) N.meaning L.facts) K.routers result.0 result.1.me.0 }
    {
        let Guarded { placed, pass, .. } = self;
        (placed, pass)
    }

    /// Takes a step on an input that delivers no message.
    pub(crate) fn take<R: Wait>(
        &mut self,
        rt: &R,
        alloc: Global,
        book: &Book<N, L, K>,
        input: N::Input,
    ) -> Result<Stepped<N, L, K>, CellFault>
        requires { (seen : List Message) → IsKnown K.routers seen self.old.at (N.meaning input) }
        ensures place { self.new.at ≡ self.old.at }
        ensures taken { IfOk result (λ s. (s.taken.at ≡ self.old.at) × (s.taken.input ≡ input)) }
    {
        let Guarded { placed, pass, .. } = self;
        match take_one(rt, alloc, book, pass, placed, input) {
            Ok(step) => Ok(step),
            Err(e) => Err(e),
        }
    }

    /// Passes a request of a link to the node, if it is a router.
    pub(crate) fn ask<R: Wait>(
        &mut self,
        rt: &R,
        alloc: Global,
        book: &Book<N, L, K>,
        link: u32,
        number: i32,
        request: N::Request,
    ) -> Result<Option<Stepped<N, L, K>>, CellFault>
        ensures place { self.new.at ≡ self.old.at }
        ensures taken { IfOk result (λ o. IfSome o (λ s. N.meaning s.taken.input ≡ client_input link number (N.asks request))) }
        ensures none { IfOk result (λ o. IfNone o (self.old.at < K.routers)) }
    {
        if self.placed.at < book.routers {
            return Ok(None);
        }
        match self.take(rt, alloc, book, N::client(link, number, request)) {
            Ok(stepped) => Ok(Some(stepped)),
            Err(e) => Err(e),
        }
    }

    /// Delivers those messages that go to this node, in order.
    pub(crate) fn deliver<R: Wait>(
        &mut self,
        rt: &R,
        alloc: Global,
        book: &Book<N, L, K>,
        letters: Vec<Prepared<N, L, K>>,
    ) -> Delivered<N, L, K>
        ensures place { self.new.at ≡ self.old.at }
        ensures steps { AreStepsOn letters.items result.steps.items }
    {
        let Guarded { placed, pass, .. } = self;
        deliver_all(rt, alloc, book, pass, placed, letters)
    }
}
