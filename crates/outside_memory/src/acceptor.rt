//! An acceptor in memory.
ghost use Rattle.std.specs.Prelude.{◌≡◌, ◌≤◌, ◌⊎◌, [], ◌++◌, option_to_list, true, IsTrue, IsSome, IsErr, IsOk, IfOk, OnOk, OnErr, if◌then◌else◌};
ghost use Rattle.std.specs.Bool.{MatchBool};
ghost use Rattle.outside.specs.Causes.{Rose};
ghost use Rattle.outside_memory.specs.FaultPlan.{fresh_plan, fails_now, after_call, after_fault};
ghost use Rattle.outside_memory.specs.Memory.{acceptor_passed, acceptor_failed};

use super::link::MemLink;
use super::plan::FaultPlan;
use outside::streams::{Acceptor, Failed};
use std::marker::Model;
use std::vec::IntoIter;

/// An acceptor whose links lie in memory.
#[derive(Drop)]
pub struct MemAcceptor {
    links: IntoIter<MemLink>,
    plan: FaultPlan,
}

impl Model for MemAcceptor {
    ghost use Rattle.std.specs.Vec.Iter.{into_iter_items};
    ghost use Rattle.outside_memory.specs.Memory.{AcceptorState};

    ghost Value = { AcceptorState };

    ghost view = { λ a. record { links = into_iter_items a.links; plan = a.plan } };
}

impl MemAcceptor {
    /// Returns an acceptor of these links, in their order. `failing` holds the numbers, from 0, of the calls that fail, of
    /// `listen` and `next` together.
    pub fn new(links: Vec<MemLink>, failing: Vec<u64>) -> MemAcceptor
        ensures { result ≡ record { links = links.items; plan = fresh_plan failing.items } }
    {
        MemAcceptor {
            links: links.into_iter(),
            plan: FaultPlan::new(failing),
        }
    }
}

impl Acceptor for MemAcceptor {
    type Link = MemLink;

    ghost tells = { true };

    ghost left = { λ a. a.links };

    ghost fault_count = { λ a. a.plan.faults };

    fn listen(&mut self, _port: u16) -> Result<(), Failed>
        ensures left { self.new.links ≡ self.old.links }
        ensures cause { OnErr result (Rose self.old.plan.faults self.new.plan.faults) }
        ensures calm { OnOk result (self.new.plan.faults ≡ self.old.plan.faults) }
        ensures later { self.old.plan.faults ≤ self.new.plan.faults }
        ensures answer { MatchBool (fails_now self.old.plan) (IsErr result) (IsOk result) }
        ensures state { self.new ≡ (if fails_now self.old.plan then acceptor_failed self.old
            else acceptor_passed self.old) }
    {
        if self.plan.fails() {
            return Err(Failed);
        }
        Ok(())
    }

    fn next(&mut self) -> Result<Option<MemLink>, Failed>
        ensures took { IfOk result (λ link. self.old.links ≡ option_to_list link ++ self.new.links) }
        ensures cause { OnErr result (Rose self.old.plan.faults self.new.plan.faults) }
        ensures calm { OnOk result (self.new.plan.faults ≡ self.old.plan.faults) }
        ensures later { self.old.plan.faults ≤ self.new.plan.faults }

        // It gives the links in order, and fails exactly where the plan says so or no link is left.
        ensures some { IfOk result (λ link. IsSome link) }
        ensures nothing { OnErr result (self.new.links ≡ self.old.links) }
        ensures planned { IsTrue (fails_now self.old.plan) → IsErr result }
        ensures only { OnErr result (IsTrue (fails_now self.old.plan) ⊎ (self.old.links ≡ [])) }
        ensures plan { OnOk result (self.new.plan ≡ after_call self.old.plan) }
        ensures fault { OnErr result (self.new.plan ≡ after_fault self.old.plan) }
    {
        if self.plan.fails() {
            return Err(Failed);
        }
        match self.links.next() {
            Some(link) => Ok(Some(link)),
            None => {
                self.plan.fault();
                Err(Failed)
            }
        }
    }
}
