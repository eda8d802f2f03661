//! A node that stops, and is started again on its journal.

ghost use Rattle.std.specs.Prelude.{◌≡◌, ℕ, ◌<◌, List, Option, vec_len, IfErr, IsTrue, OnOk};
ghost use Rattle.std.specs.Option.{option_map};
ghost use Rattle.node_model.specs.World.{Event, World};
ghost use Rattle.node_traits.specs.Effects.{ByNotTaken};
ghost use Rattle.node_traits.specs.declared.outputs.ToLink.{ToLink};
ghost use Rattle.driver_steps.specs.Crashes.{Since};
ghost use Rattle.driver_steps.specs.Seats.{AreCounted, AreHeld, AreOpen, LeaveKept, TellsFaults, UnlessDiskFailed, HasMore, faults_of, places_of, seat_since};
ghost use Rattle.driver_steps.specs.OneSeat.{TellsFault};
ghost use Rattle.driver_steps.specs.Restarts.{
  BeginToStop,
  HasFailed,
  HasStarted,
  HasStartedAgain,
  IsOpenedAs,
  IsReread,
  IsStartedAgain,
  IsStopped,
  IsStoppedAtDisk,
  MayGive,
  MayStop,
};
ghost use Rattle.driver_steps.specs.Together.{hosted};
ghost use Rattle.driver_steps.specs.Worlds.{StandsFor, network_view};

use crate::network::Network;
use crate::notes::note_cut;
use crate::opens::Opens;
use crate::seat::Seat;
use crate::steps::happen;
use node_traits::{Node, NotTaken, StepFault};
use outside::log::{Log, LogFault};
use outside::witness::Witness;
use std::alloc::Global;

/// The records of the log are read again, and the node is opened on them. It counts its steps on.
///
/// # Errors
/// `NotTaken::Disk` only if the disk of the log met a fault.
fn start_again<N: Node, L: Log, O: Opens<N, L>>(
    opener: &O,
    alloc: Global,
    seat: &mut Seat<N, L>,
    at: usize,
) -> Result<(), NotTaken>
    requires { IsTrue (L.facts.is_open seat.old.log) }
    ensures reread { IsReread L.facts seat.old.log seat.new.log }
    ensures opened { OnOk result (IsTrue L.facts.tells → IsOpenedAs (O.part opener.now at) (L.facts.records seat.old.log) (N.state seat.new.node)) }
    ensures counted { N.steps seat.new.node ≡ N.steps seat.old.node }
    ensures open { UnlessDiskFailed result (IsTrue (L.facts.is_open seat.new.log)) }
    ensures faults { TellsFault result (L.facts.fault_count seat.old.log) (L.facts.fault_count seat.new.log) }
    ensures place { L.facts.place seat.new.log ≡ L.facts.place seat.old.log }
{
    let records = match opener.reopen(&mut seat.log) {
        Ok(records) => records,
        Err(LogFault::Disk { faults }) => return Err(NotTaken::Disk { faults }),
        Err(LogFault::Memory) => return Err(NotTaken::Memory),
    };
    match opener.node(alloc, at, records) {
        Ok(mut node) => {
            node.keep_count(&seat.node);
            seat.node = node;
            Ok(())
        }
        Err(_) => Err(NotTaken::Memory),
    }
}

/// A node stops, in the step on the input if there is one, and is started again on its journal. What it sends and returns in that step is dropped. Where it
/// can't take the step it stops before it.
///
/// # Errors
/// `NotTaken::Disk` only if the disk of the log met a fault.
fn stop_seat<N: Node, L: Log, O: Opens<N, L>>(
    opener: &O,
    alloc: Global,
    seat: &mut Seat<N, L>,
    at: usize,
    input: Option<N::Input>,
) -> Result<(), NotTaken>
    requires { IsTrue (L.facts.is_open seat.old.log) }
    ensures started { OnOk result (IsStartedAgain N.state N.steps L.facts (O.part opener.now at) (option_map (λ i. N.meaning i) input) seat.old seat.new) }
    ensures failed { IfErr result (λ e. ByNotTaken e
        (λ faults. IsStoppedAtDisk N.state N.steps L.facts (option_map (λ i. N.meaning i) input) seat.old seat.new)
        (IsStopped N.state N.steps L.facts (option_map (λ i. N.meaning i) input) seat.old seat.new)) }
    ensures open { UnlessDiskFailed result (IsTrue (L.facts.is_open seat.new.log)) }
    ensures faults { TellsFault result (L.facts.fault_count seat.old.log) (L.facts.fault_count seat.new.log) }
    ensures place { L.facts.place seat.new.log ≡ L.facts.place seat.old.log }
{
    match input {
        Some(input) => match seat.node.step(&mut seat.log, input) {
            Ok(_) => start_again(opener, alloc, seat, at),
            Err(StepFault::Disk { faults }) => Err(NotTaken::Disk { faults }),
            Err(StepFault::Steps { .. }) => start_again(opener, alloc, seat, at),
            Err(StepFault::Memory { .. }) => start_again(opener, alloc, seat, at),
        },
        None => start_again(opener, alloc, seat, at),
    }
}

/// The node at a place stops and is started again, as `stop_seat` has it. Then the disks of all are shown to the sink, in a cut.
///
/// # Errors
/// `NotTaken::Disk` only if the disk of that node's log met a fault.
fn stop_node<N: Node, L: Log, K: Witness<L::Of>, O: Opens<N, L>>(
    opener: &O,
    alloc: Global,
    seats: &mut Vec<Seat<N, L>>,
    out: &mut K,
    at: usize,
    input: Option<N::Input>,
) -> Result<(), NotTaken>
    requires at { at < vec_len seats.old }
    requires open { AreOpen L.facts.is_open seats.old.items }
    ensures started { IsTrue L.facts.tells → (since : Since L) (w : World) (e : Option Event) →
        MayStop (O.part opener.now) w → MayGive w at e (option_map (λ i. N.meaning i) input) →
        AreHeld (seat_since N.state N.steps L.facts since) seats.old.items w.nodes →
        AreCounted (seat_since N.state N.steps L.facts since) seats.old.items w.nodes →
        LeaveKept (seat_since N.state N.steps L.facts since) (hosted K.tells L.facts since (K.noted out.old) seats.old.items) w →
        OnOk result (HasStarted (seat_since N.state N.steps L.facts since) (hosted K.tells L.facts since (K.noted out.new) seats.new.items) w at e) }
    ensures failed { IsTrue L.facts.tells → (since : Since L) (w : World) (e : Option Event) →
        MayStop (O.part opener.now) w → MayGive w at e (option_map (λ i. N.meaning i) input) →
        AreHeld (seat_since N.state N.steps L.facts since) seats.old.items w.nodes →
        LeaveKept (seat_since N.state N.steps L.facts since) (hosted K.tells L.facts since (K.noted out.old) seats.old.items) w →
        IfErr result (HasFailed (seat_since N.state N.steps L.facts since) (hosted K.tells L.facts since (K.noted out.new) seats.new.items) w (BeginToStop at e)) }
    ensures len { vec_len seats.new ≡ vec_len seats.old }
    ensures open { UnlessDiskFailed result (AreOpen L.facts.is_open seats.new.items) }

    // Of the sink: notes alone.
    ensures held { K.held out.new ≡ K.held out.old }
    ensures sink { K.fault_count out.new ≡ K.fault_count out.old }
    ensures noted { IsTrue K.tells → HasMore (K.noted out.old) (K.noted out.new) }

    // Of the logs' disks.
    ensures faults { TellsFaults result (faults_of L.facts.fault_count seats.old.items) (faults_of L.facts.fault_count seats.new.items) }
    ensures places { places_of L.facts.place seats.new.items ≡ places_of L.facts.place seats.old.items }
{
    let seat = &mut seats[at];
    match stop_seat(opener, alloc, seat, at, input) {
        Ok(()) => {
            note_cut(out, seats);
            Ok(())
        }
        Err(e) => {
            note_cut(out, seats);
            Err(e)
        }
    }
}

/// The node at a place stops, in the step on the input if there is one, is started again on its journal, and is opened. What it sends and returns in that step
/// is dropped. Where it can't take that step, or no memory is found for it, it stops before it.
///
/// # Errors
/// `NotTaken::Disk` only if a disk met a fault. As `happen` has them of the step in which it is opened; `NotTaken::Memory` also if memory runs out while the
/// journal is read.
pub fn restart<N: Node, L: Log, K: Witness<L::Of>, O: Opens<N, L>>(
    opener: &O,
    alloc: Global,
    seats: &mut Vec<Seat<N, L>>,
    out: &mut K,
    network: &mut Network<N::Mail>,
    at: usize,
    input: Option<N::Input>,
) -> Result<(), NotTaken>
    requires at { at < vec_len seats.old }
    requires open { AreOpen L.facts.is_open seats.old.items }
    ensures started { IsTrue L.facts.tells → (since : Since L) (w : World) (next : ℕ) (handed : List ToLink) (e : Option Event) →
        MayStop (O.part opener.now) w → MayGive w at e (option_map (λ i. N.meaning i) input) →
        StandsFor (seat_since N.state N.steps L.facts since) (hosted K.tells L.facts since (K.noted out.old) seats.old.items)
        (network_view (λ m. N.Mail.letter m) network.old) handed w next →
        OnOk result (HasStartedAgain (seat_since N.state N.steps L.facts since) (hosted K.tells L.facts since (K.noted out.new) seats.new.items)
        (network_view (λ m. N.Mail.letter m) network.new) handed w next at e) }
    ensures failed { IsTrue L.facts.tells → (since : Since L) (w : World) (next : ℕ) (handed : List ToLink) (e : Option Event) →
        MayStop (O.part opener.now) w → MayGive w at e (option_map (λ i. N.meaning i) input) →
        StandsFor (seat_since N.state N.steps L.facts since) (hosted K.tells L.facts since (K.noted out.old) seats.old.items)
        (network_view (λ m. N.Mail.letter m) network.old) handed w next →
        IfErr result (HasFailed (seat_since N.state N.steps L.facts since) (hosted K.tells L.facts since (K.noted out.new) seats.new.items) w (BeginToStop at e)) }
    ensures len { vec_len seats.new ≡ vec_len seats.old }
    ensures open { UnlessDiskFailed result (AreOpen L.facts.is_open seats.new.items) }

    // Of the sink: notes alone.
    ensures held { K.held out.new ≡ K.held out.old }
    ensures sink { K.fault_count out.new ≡ K.fault_count out.old }
    ensures noted { IsTrue K.tells → HasMore (K.noted out.old) (K.noted out.new) }

    // Of the logs' disks.
    ensures faults { TellsFaults result (faults_of L.facts.fault_count seats.old.items) (faults_of L.facts.fault_count seats.new.items) }
    ensures places { places_of L.facts.place seats.new.items ≡ places_of L.facts.place seats.old.items }
{
    match stop_node(opener, alloc, seats, out, at, input) {
        Ok(()) => {}
        Err(e) => return Err(e),
    }
    match happen(seats, out, network, at, N::opened()) {
        Ok(()) => Ok(()),
        Err(e) => Err(e),
    }
}
