//! One step of one node.

ghost use Rattle.std.specs.Prelude.{◌≡◌, ◌++◌, ℕ, ◌+◌, ◌<◌, ◌^◌, List, [], map, vec_len, IfErr, IfOk, IsTrue, OnErr, OnOk};
ghost use Rattle.node_model.specs.World.{Moves, World};
ghost use Rattle.node_traits.specs.Calls.{log_call};
ghost use Rattle.node_traits.specs.Effects.{ByNotTaken, steps_after};
ghost use Rattle.node_traits.specs.Faults.{ByStepFault, cause_of};
ghost use Rattle.node_traits.specs.declared.outputs.NotTaken.TheVariants.{Memory as out_of_memory};
ghost use Rattle.node_traits.specs.declared.outputs.ToLink.{ToLink};
ghost use Rattle.driver_steps.specs.Crashes.{Since};
ghost use Rattle.driver_steps.specs.Seats.{
  AreCounted,
  AreHeld,
  AreOpen,
  LeaveKept,
  TellsFaults,
  UnlessDiskFailed,
  HasMore,
  faults_of,
  left_of,
  places_of,
  seat_since,
};
ghost use Rattle.driver_steps.specs.Moves.{BeginWith, HasMissed, HasMoved, HasStepped, IsBroken, IsCutShort, IsLess, IsNoRequest, cost_in, costs_of};
ghost use Rattle.driver_steps.specs.OneSeat.{BreaksOn, IsCountedAt, MissesAt, StandsAt, StepsOn, TellsFault};
ghost use Rattle.driver_steps.specs.Together.{hosted};
ghost use Rattle.driver_steps.specs.Told.{OfTold, by_cause};
ghost use Rattle.driver_steps.specs.Worlds.{StandsFor, network_view};

use crate::network::Network;
use crate::notes::note_cut;
use crate::seat::Seat;
use node_traits::{Node, NotTaken, Outputs, StepFault};
use outside::log::Log;
use outside::witness::Witness;

/// A node with its log takes a step on the input, at whatever place in a world it stands; what it sends and returns is the result.
///
/// # Errors
/// The fault of the step: `StepFault::Disk` only if the disk of the log met one. With each other fault node and log are unchanged, and what it returns
/// is to be sent.
pub fn step_seat<N: Node, L: Log>(
    seat: &mut Seat<N, L>,
    input: N::Input,
) -> Result<Outputs<N::Mail>, StepFault<N::Mail>>
    requires open { IsTrue (L.facts.is_open seat.old.log) }
    ensures stepped { (since : Since L) (w : World) (at : ℕ) →
        StandsAt (seat_since N.state N.steps L.facts since seat.old) w at →
        IfOk result (λ outputs. StepsOn (log_call L.facts seat.old.log seat.new.log) (seat_since N.state N.steps L.facts since seat.new) w at
        (N.meaning input) (map (λ message. N.Mail.letter message) outputs.mail) outputs.replies) }
    ensures failed { (since : Since L) (w : World) (at : ℕ) →
        StandsAt (seat_since N.state N.steps L.facts since seat.old) w at →
        IfErr result (λ e. ByNotTaken (cause_of e)
        (λ faults. BreaksOn (log_call L.facts seat.old.log seat.new.log) (seat_since N.state N.steps L.facts since seat.new) w at (N.meaning input))
        (StandsAt (seat_since N.state N.steps L.facts since seat.new) w at)) }
    ensures missed { (since : Since L) (w : World) (at : ℕ) →
        StandsAt (seat_since N.state N.steps L.facts since seat.old) w at → IsCountedAt (seat_since N.state N.steps L.facts since seat.old) w at →
        IfErr result (λ e. ByStepFault (N.steps seat.old.node) e (λ faults. Unit {0})
        (λ lack told. MissesAt (seat_since N.state N.steps L.facts since seat.new) w at (N.meaning input) lack
        (map (λ message. N.Mail.letter message) told.mail))) }
    ensures unchanged { IfErr result (λ e. ByNotTaken (cause_of e)
        (λ faults. Unit {0})
        ((N.state seat.new.node ≡ N.state seat.old.node) × (seat.new.log ≡ seat.old.log))) }
    ensures open { UnlessDiskFailed (by_cause result) (IsTrue (L.facts.is_open seat.new.log)) }

    // Each step is counted, except the last, which is refused.
    ensures counted { OnOk result (N.steps seat.new.node ≡ N.steps seat.old.node + 1) }
    ensures counted_err { IfErr result (λ e. N.steps seat.new.node ≡ steps_after (cause_of e) (N.steps seat.old.node)) }
    ensures below { N.steps seat.new.node < 2 ^ 56 }

    // What is returned of a step that is not taken costs less than what came, and has no reply.
    ensures cheap { IfErr result (λ e. OfTold e (λ told. costs_of (map (λ message. N.Mail.letter message) told.mail) < cost_in (N.meaning input))) }
    ensures silent { IfErr result (λ e. OfTold e (λ told. told.replies ≡ [])) }

    // Of the log's disk.
    ensures faults { TellsFault (by_cause result) (L.facts.fault_count seat.old.log) (L.facts.fault_count seat.new.log) }
    ensures place { L.facts.place seat.new.log ≡ L.facts.place seat.old.log }
{
    match seat.node.step(&mut seat.log, input) {
        Ok(outputs) => Ok(outputs),
        Err(e) => Err(e),
    }
}

/// The node at a place takes a step on the input; what it sends and returns is the result. Then the disks of all are shown to the sink, in a cut.
///
/// # Errors
/// The fault of the step: `StepFault::Disk` only if the disk of that node's log met one.
pub fn step_node<N: Node, L: Log, K: Witness<L::Of>>(
    seats: &mut Vec<Seat<N, L>>,
    out: &mut K,
    at: usize,
    input: N::Input,
) -> Result<Outputs<N::Mail>, StepFault<N::Mail>>
    requires at { at < vec_len seats.old }
    requires open { AreOpen L.facts.is_open seats.old.items }
    ensures stepped { (since : Since L) (w : World) →
        AreHeld (seat_since N.state N.steps L.facts since) seats.old.items w.nodes →
        LeaveKept (seat_since N.state N.steps L.facts since) (hosted K.tells L.facts since (K.noted out.old) seats.old.items) w →
        IfOk result (λ outputs. HasStepped (seat_since N.state N.steps L.facts since) (hosted K.tells L.facts since (K.noted out.new) seats.new.items) w at
        (N.meaning input) (map (λ message. N.Mail.letter message) outputs.mail) outputs.replies) }
    ensures failed { (since : Since L) (w : World) →
        AreHeld (seat_since N.state N.steps L.facts since) seats.old.items w.nodes →
        LeaveKept (seat_since N.state N.steps L.facts since) (hosted K.tells L.facts since (K.noted out.old) seats.old.items) w →
        IfErr result (λ e. ByNotTaken (cause_of e)
        (λ faults. IsBroken (seat_since N.state N.steps L.facts since) (hosted K.tells L.facts since (K.noted out.new) seats.new.items) w at (N.meaning input))
        (AreHeld (seat_since N.state N.steps L.facts since) seats.new.items w.nodes
        × LeaveKept (seat_since N.state N.steps L.facts since) (hosted K.tells L.facts since (K.noted out.new) seats.new.items) w)) }
    ensures counted { (since : Since L) (w v : World) →
        AreCounted (seat_since N.state N.steps L.facts since) seats.old.items w.nodes → Moves w at (N.meaning input) v →
        OnOk result (AreCounted (seat_since N.state N.steps L.facts since) seats.new.items v.nodes) }
    ensures missed { (since : Since L) (w : World) →
        AreHeld (seat_since N.state N.steps L.facts since) seats.old.items w.nodes →
        AreCounted (seat_since N.state N.steps L.facts since) seats.old.items w.nodes →
        LeaveKept (seat_since N.state N.steps L.facts since) (hosted K.tells L.facts since (K.noted out.old) seats.old.items) w →
        IfErr result (λ e. OfTold e (λ told. HasMissed (seat_since N.state N.steps L.facts since)
        (hosted K.tells L.facts since (K.noted out.new) seats.new.items) w at (N.meaning input) (map (λ message. N.Mail.letter message) told.mail))) }
    ensures len { vec_len seats.new ≡ vec_len seats.old }
    ensures open { UnlessDiskFailed (by_cause result) (AreOpen L.facts.is_open seats.new.items) }

    // One step less is left, or as many, and then what is returned of a step that is not taken costs less than what came. It has no reply.
    ensures falls { OnOk result (left_of N.steps seats.new.items + 1 ≡ left_of N.steps seats.old.items) }
    ensures falls_err { IfErr result (λ e. OfTold e (λ told. IsLess (left_of N.steps seats.old.items) (left_of N.steps seats.new.items) []
        (cost_in (N.meaning input)) (map (λ message. N.Mail.letter message) told.mail))) }
    ensures silent { IfErr result (λ e. OfTold e (λ told. told.replies ≡ [])) }

    // Of the sink: notes alone.
    ensures held { K.held out.new ≡ K.held out.old }
    ensures sink { K.fault_count out.new ≡ K.fault_count out.old }
    ensures noted { IsTrue K.tells → HasMore (K.noted out.old) (K.noted out.new) }

    // Of the logs' disks.
    ensures faults { TellsFaults (by_cause result) (faults_of L.facts.fault_count seats.old.items) (faults_of L.facts.fault_count seats.new.items) }
    ensures places { places_of L.facts.place seats.new.items ≡ places_of L.facts.place seats.old.items }
{
    let seat = &mut seats[at];
    match step_seat(seat, input) {
        Ok(outputs) => {
            note_cut(out, seats);
            Ok(outputs)
        }
        Err(e) => {
            note_cut(out, seats);
            Err(e)
        }
    }
}

/// Queues what a node sends and returns. After `NotTaken::Memory`, where memory runs out for it, some of it may be missing.
fn queue<M: Drop>(network: &mut Network<M>, given: Outputs<M>) -> Result<(), NotTaken>
    ensures waiting { OnOk result (network.new.waiting.items ≡ network.old.waiting.items ++ given.mail) }
    ensures replies { OnOk result (network.new.replies.items ≡ network.old.replies.items ++ given.replies) }
    ensures cause { IfErr result (λ e. e ≡ out_of_memory) }
    ensures missing { OnErr result ((missing : List ToLink) × (network.old.replies.items ++ given.replies ≡ network.new.replies.items ++ missing)) }
{
    match network.take(given) {
        Ok(()) => Ok(()),
        Err(_) => Err(NotTaken::Memory),
    }
}

/// An input, which is no client's request, comes to the node at a place; what it sends and returns is queued. Where it takes no step, since it is out of memory
/// or at its last one, its refusal is queued: who sent it a request learns that it is not served.
///
/// # Errors
/// `NotTaken::Disk` only if the disk of that node's log met a fault; `NotTaken::Memory` if memory runs out for messages or replies.
pub fn happen<N: Node, L: Log, K: Witness<L::Of>>(
    seats: &mut Vec<Seat<N, L>>,
    out: &mut K,
    network: &mut Network<N::Mail>,
    at: usize,
    input: N::Input,
) -> Result<(), NotTaken>
    requires at { at < vec_len seats.old }
    requires open { AreOpen L.facts.is_open seats.old.items }
    requires request { IsNoRequest (N.meaning input) }
    ensures moved { (since : Since L) (w : World) (next : ℕ) (handed : List ToLink) →
        StandsFor (seat_since N.state N.steps L.facts since) (hosted K.tells L.facts since (K.noted out.old) seats.old.items)
        (network_view (λ m. N.Mail.letter m) network.old) handed w next →
        OnOk result (HasMoved (seat_since N.state N.steps L.facts since) (hosted K.tells L.facts since (K.noted out.new) seats.new.items)
        (network_view (λ m. N.Mail.letter m) network.new) handed w next at (N.meaning input)) }
    ensures cut { (since : Since L) (w : World) (next : ℕ) (handed : List ToLink) →
        StandsFor (seat_since N.state N.steps L.facts since) (hosted K.tells L.facts since (K.noted out.old) seats.old.items)
        (network_view (λ m. N.Mail.letter m) network.old) handed w next →
        IfErr result (λ e. IsCutShort (seat_since N.state N.steps L.facts since) (hosted K.tells L.facts since (K.noted out.new) seats.new.items)
        network.new.replies.items handed w at (N.meaning input) e) }
    ensures len { vec_len seats.new ≡ vec_len seats.old }
    ensures open { UnlessDiskFailed result (AreOpen L.facts.is_open seats.new.items) }
    ensures falls { OnOk result (IsLess (left_of N.steps seats.old.items) (left_of N.steps seats.new.items)
        (map (λ m. N.Mail.letter m) network.old.waiting.items) (cost_in (N.meaning input)) (map (λ m. N.Mail.letter m) network.new.waiting.items)) }
    ensures sends { OnOk result (BeginWith network.old.waiting.items network.new.waiting.items) }

    // Of the sink: notes alone.
    ensures held { K.held out.new ≡ K.held out.old }
    ensures sink { K.fault_count out.new ≡ K.fault_count out.old }
    ensures noted { IsTrue K.tells → HasMore (K.noted out.old) (K.noted out.new) }

    // Of the logs' disks.
    ensures faults { TellsFaults result (faults_of L.facts.fault_count seats.old.items) (faults_of L.facts.fault_count seats.new.items) }
    ensures places { places_of L.facts.place seats.new.items ≡ places_of L.facts.place seats.old.items }
{
    match step_node(seats, out, at, input) {
        Ok(outputs) => queue(network, outputs),
        Err(StepFault::Disk { faults }) => Err(NotTaken::Disk { faults }),
        Err(StepFault::Steps { told }) => queue(network, told),
        Err(StepFault::Memory { told }) => queue(network, told),
    }
}
