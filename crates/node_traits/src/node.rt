//! Nodes: machines that take one step on each input.

ghost use Rattle.std.specs.Prelude.{◌≡◌, ℕ, ◌+◌, ◌<◌, ◌≤◌, ◌^◌, false, map, IfErr, IfOk, IsTrue, OnOk};
ghost use Rattle.outside.specs.Causes.{Rose};
ghost use Rattle.node_model.specs.Lacks.{is_last};
ghost use Rattle.node_model.specs.Letters.{Input, client_input, letter_input, moment_input, opened_input};
ghost use Rattle.node_model.specs.Requests.{Request};
ghost use Rattle.node_model.specs.States.{NodeState};
ghost use Rattle.node_model.specs.Steps.{number_of};
ghost use Rattle.node_traits.specs.Calls.{log_call};
ghost use Rattle.node_traits.specs.Effects.{ByNotTaken, StepBroken, StepDone, is_at_last, steps_after};
ghost use Rattle.node_traits.specs.Faults.{ByStepFault, StepMissed, cause_of};

use crate::mail::Mail;
use crate::outputs::{Outputs, StepFault};
use cluster_base::NodeId;
use outside::log::Log;
use std::alloc::Global;
use std::marker::Sync;
use std::thread::Threads;

/// A node: one machine that takes one step on each input, and stores in a log what has to survive it.
pub trait Node: Drop {
    /// Its inputs.
    type Input: Drop;

    /// Its messages.
    type Mail: Mail;

    /// The requests of its clients.
    type Request: Drop;

    // The state of the definitions that it is in.
    ghost state: { Self → NodeState };

    // How many steps it has taken.
    ghost steps: { Self → ℕ };

    // The input of the definitions that an input is.
    ghost meaning: { Self.Input → Input };

    // The request of the definitions that a request is.
    ghost asks: { Self.Request → Request };

    /// Returns its number among the nodes.
    fn me(&self) -> NodeId
        ensures { result.0 ≡ number_of (state self.now) };

    /// Returns the input with a request of a link, whose reply has this number.
    fn client(link: u32, number: i32, request: Self::Request) -> Self::Input
        ensures { meaning result ≡ client_input link number (asks request) };

    /// Returns the input with the moment, in milliseconds since 1970.
    fn moment(ms: u64) -> Self::Input
        ensures { meaning result ≡ moment_input ms };

    /// Returns the input of the opening of the node.
    fn opened() -> Self::Input
        ensures { meaning result ≡ opened_input };

    /// Returns the input that delivers a message. What depends on the message alone is computed here, so that it needs no node.
    fn prepare<R: Threads + Sync>(rt: &R, alloc: Global, mail: Self::Mail) -> Self::Input
        ensures { meaning result ≡ letter_input (Self.Mail.letter mail) };

    /// Goes on with the count of steps of a node that stopped, in whose place this one is opened.
    fn keep_count(&mut self, before: &Self)
        ensures state { state self.new ≡ state self.old }
        ensures steps { steps self.new ≡ steps before.now };

    /// Takes one step on an input: its records are appended at once, and its messages and replies are returned.
    ///
    /// # Errors
    /// - `StepFault::Disk` only if the disk of the log met a fault: then all records of a step are stored or none is, and the log and the node must be
    ///   reopened.
    /// - `StepFault::Steps` exactly at the last step: node and log are unchanged.
    /// - `StepFault::Memory` if memory runs out: node and log are unchanged, but the step is counted.
    ///
    /// With the last two, who sent a request learns that it was not served.
    fn step<L: Log>(
        &mut self,
        log: &mut L,
        input: Self::Input,
    ) -> Result<Outputs<Self::Mail>, StepFault<Self::Mail>>
        requires open { IsTrue (L.facts.is_open log.old) }
        ensures done { IfOk result (λ outputs. StepDone (state self.old) (meaning input)
            (map (λ message. Self.Mail.letter message) outputs.mail) outputs.replies
            (log_call L.facts log.old log.new) (state self.new)) }
        ensures failed { IfErr result (λ e. ByNotTaken (cause_of e)
            (λ faults. StepBroken (state self.old) (meaning input)
            (log_call L.facts log.old log.new))
            ((state self.new ≡ state self.old) × (log.new ≡ log.old))) }
        ensures missed { IfErr result (λ e. ByStepFault (steps self.old) e (λ faults. Unit {0})
            (λ lack told. StepMissed (state self.old) (meaning input) lack (map (λ message. Self.Mail.letter message) told.mail) told.replies)) }
        ensures goes { OnOk result (is_last (steps self.old) (state self.old) (meaning input) ≡ false) }
        ensures last { IfErr result (λ e. is_last (steps self.old) (state self.old) (meaning input) ≡ is_at_last (cause_of e)) }
        ensures open { OnOk result (IsTrue (L.facts.is_open log.new)) }
        ensures kept { L.facts.holds log.old (L.facts.records log.old) → OnOk result (L.facts.holds log.new (L.facts.records log.new)) }

        // Each step is counted, except the last, which is refused.
        ensures counted { OnOk result (steps self.new ≡ steps self.old + 1) }
        ensures counted_err { IfErr result (λ e. steps self.new ≡ steps_after (cause_of e) (steps self.old)) }
        ensures below { steps self.new < 2 ^ 56 }

        // The log's disk.
        ensures cause { IfErr result (λ e. ByNotTaken (cause_of e)
            (λ faults. (faults ≡ L.facts.fault_count log.new) × Rose (L.facts.fault_count log.old) (L.facts.fault_count log.new))
            (Unit {0})) }
        ensures calm { OnOk result (L.facts.fault_count log.new ≡ L.facts.fault_count log.old) }
        ensures later { L.facts.fault_count log.old ≤ L.facts.fault_count log.new }
        ensures place { L.facts.place log.new ≡ L.facts.place log.old };
}
