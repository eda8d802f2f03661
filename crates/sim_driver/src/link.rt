//! The link of a router.

ghost use Rattle.std.specs.Prelude.{◌≡◌, ◌≢◌, ◌⊎◌, ℕ, ◌++◌, ◌<◌, List, Ok, true, false, vec_len, IfErr, IfOk, OnOk, Err, IsTrue};
ghost use Rattle.node_model.specs.World.{IsRouter, World};
ghost use Rattle.node_traits.specs.declared.outputs.ToLink.{ToLink};
ghost use Rattle.driver_steps.specs.Crashes.{Since};
ghost use Rattle.driver_steps.specs.Seats.{AreOpen, HasMore, faults_of, places_of, seat_since};
ghost use Rattle.driver_steps.specs.Together.{hosted};
ghost use Rattle.driver_steps.specs.Worlds.{StandsFor, network_view};
ghost use Rattle.pipe_driver.specs.Counts.{HaveRisenWhere};
ghost use Rattle.pipe_driver.specs.Progress.{AreAskedAsRead};
ghost use Rattle.pipe_driver.specs.declared.status.Status.TheVariants as statuses;
ghost use Rattle.sim_driver.specs.Links.{new_link, next_link};
ghost use Rattle.sim_driver.specs.Moves.{HasAsked, IsCut, IsFirstAsked};

use crate::client::ask_all;
use driver_steps::{Network, Seat};
use node_traits::Node;
use opmsg_frames::{Framer, Request};
use outside::log::Log;
use outside::witness::Witness;
use pipe_driver::Status;
use std::alloc::Global;
use std::marker::Model;
use std::mem;

/// The bytes that came on a link, and which reply is the next one. Where it is not open, it is opened by the next bytes.
#[derive(Drop)]
pub struct Link {
    framer: Framer,
    number: u32,
    replied: u64,
    is_open: bool,
}

impl Model for Link {
    ghost use Rattle.sim_driver.specs.Links.{LinkView};

    ghost Value = { LinkView };

    ghost use Rattle.std.specs.Prelude.{◌≡◌, None};

    ghost view = { λ l. record { number = l.number; left = l.framer.bytes; replied = l.replied; is_open = l.is_open } };

    ghost invariant = { λ l. l.framer.fault ≡ None };
}

impl Link {
    /// Returns an open link with this number, on which nothing came.
    pub fn new(alloc: Global, number: u32) -> Link
        ensures { result ≡ new_link number }
    {
        Link {
            framer: Framer::new(alloc),
            number,
            replied: 0,
            is_open: true,
        }
    }

    /// Returns a link with this number that is not open yet.
    pub fn next(alloc: Global, number: u32) -> Link
        ensures { result ≡ next_link number }
    {
        Link {
            framer: Framer::new(alloc),
            number,
            replied: 0,
            is_open: false,
        }
    }

    /// Returns whether it is open.
    pub fn is_open(&self) -> bool
        ensures { result ≡ self.now.is_open }
    {
        self.is_open
    }

    /// Returns its number.
    pub fn number(&self) -> u32
        ensures { result ≡ self.now.number }
    {
        self.number
    }

    /// Bytes come, and the link is open: each whole request goes to the router at a place, in order. Returns whether what comes after them is no request; then the
    /// link must be closed.
    ///
    /// # Errors
    /// As `ask_all` has them; `Status::OutOfMemory` also if memory runs out for the bytes.
    pub fn take<N: Node<Request = Request>, L: Log, K: Witness<L::Of>>(
        &mut self,
        alloc: Global,
        at: usize,
        bytes: &[u8],
        seats: &mut Vec<Seat<N, L>>,
        out: &mut K,
        network: &mut Network<N::Mail>,
    ) -> Result<bool, Status>
        requires at { at < vec_len seats.old }
        requires open { AreOpen L.facts.is_open seats.old.items }
        ensures asked { AreAskedAsRead N.asks → (since : Since L) (w : World) (handed : List ToLink) → IsRouter w.nodes at →
            StandsFor (seat_since N.state N.steps L.facts since) (hosted K.tells L.facts since (K.noted out.old) seats.old.items) (network_view
            (λ m. N.Mail.letter m) network.old) handed w 0 →
            result ≡ Ok false → HasAsked (seat_since N.state N.steps L.facts since) (hosted K.tells L.facts since (K.noted out.new) seats.new.items)
            (network_view
            (λ m. N.Mail.letter m) network.new) handed w
            at self.old.number self.old.replied (self.old.left ++ bytes.now) self.new.left self.new.replied false }
        ensures malformed { AreAskedAsRead N.asks → (since : Since L) (w : World) (handed : List ToLink) → IsRouter w.nodes at →
            StandsFor (seat_since N.state N.steps L.facts since) (hosted K.tells L.facts since (K.noted out.old) seats.old.items) (network_view
            (λ m. N.Mail.letter m) network.old) handed w 0 →
            result ≡ Ok true → (left : List ℕ) × (replied : ℕ) × HasAsked (seat_since N.state N.steps L.facts since)
            (hosted K.tells L.facts since (K.noted out.new) seats.new.items) (network_view
            (λ m. N.Mail.letter m) network.new) handed w
            at self.old.number self.old.replied (self.old.left ++ bytes.now) left replied true }
        ensures cut { AreAskedAsRead N.asks → (since : Since L) (w : World) (handed : List ToLink) → IsRouter w.nodes at →
            StandsFor (seat_since N.state N.steps L.facts since) (hosted K.tells L.facts since (K.noted out.old) seats.old.items) (network_view
            (λ m. N.Mail.letter m) network.old) handed w 0 →
            IfErr result (λ status. IsCut (seat_since N.state N.steps L.facts since) (hosted K.tells L.facts since (K.noted out.new) seats.new.items) w
            (IsFirstAsked at self.old.number self.old.replied (self.old.left ++ bytes.now)) status) }
        ensures number { self.new.number ≡ self.old.number }
        ensures opened { result ≡ Ok false → self.new.is_open ≡ true }
        ensures len { vec_len seats.new ≡ vec_len seats.old }
        ensures open { result ≢ Err statuses.DiskFailed → AreOpen L.facts.is_open seats.new.items }

        // Of the sink: notes alone.
        ensures held { K.held out.new ≡ K.held out.old }
        ensures sink { K.fault_count out.new ≡ K.fault_count out.old }
        ensures noted { IsTrue K.tells → HasMore (K.noted out.old) (K.noted out.new) }

        // Of the logs' disks.
        ensures other { IfErr result (λ status. (status ≡ statuses.DiskFailed) ⊎ (status ≡ statuses.OutOfMemory)) }
        ensures disk_fault { HaveRisenWhere (result ≡ Err statuses.DiskFailed) (faults_of L.facts.fault_count seats.old.items)
            (faults_of L.facts.fault_count seats.new.items) }
        ensures places { places_of L.facts.place seats.new.items ≡ places_of L.facts.place seats.old.items }
    {
        let mut framer = mem::replace(&mut self.framer, Framer::new(alloc));
        match framer.feed(bytes) {
            Ok(()) => {}
            Err(_) => return Err(Status::OutOfMemory),
        }
        let asked = match ask_all(
            &mut framer,
            seats,
            out,
            network,
            at,
            self.number,
            self.replied,
        ) {
            Ok(asked) => asked,
            Err(status) => return Err(status),
        };
        if asked.malformed {
            return Ok(true);
        }
        self.framer = framer;
        self.replied = asked.replied;
        self.is_open = true;
        Ok(false)
    }
}
