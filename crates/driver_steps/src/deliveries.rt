//! Deliveries.

ghost use Rattle.std.specs.Prelude.{◌≡◌, ℕ, Some, List, [], ◌∷◌, map, vec_len, IfErr, OnOk, IsTrue};
ghost use Rattle.std.specs.List.{slice_get};
ghost use Rattle.node_model.specs.World.{World, deliver_event};
ghost use Rattle.node_traits.specs.declared.outputs.ToLink.{ToLink};
ghost use Rattle.driver_steps.specs.Crashes.{Since};
ghost use Rattle.driver_steps.specs.Seats.{AreOpen, TellsFaults, UnlessDiskFailed, HasMore, faults_of, left_of, places_of, seat_since};
ghost use Rattle.driver_steps.specs.Moves.{AreDeliveries, BeginWith, HasDelivered, HasSettled, HasStopped, IsLess, cost_of};
ghost use Rattle.driver_steps.specs.Together.{hosted};
ghost use Rattle.driver_steps.specs.Worlds.{StandsFor, network_view};

use crate::network::Network;
use crate::seat::Seat;
use crate::steps::happen;
use node_traits::{Mail, Node, NotTaken};
use outside::log::Log;
use outside::witness::Witness;
use std::alloc::Global;
use std::marker::Sync;
use std::thread::Threads;

/// Delivers a message that was sent, also where it was delivered before. One that goes to no node is lost. One step less is left then, or as many, and what waits
/// costs less than before with this message.
///
/// # Errors
/// As `happen` has them.
pub fn deliver<R: Threads + Sync, N: Node, L: Log, K: Witness<L::Of>>(
    rt: &R,
    alloc: Global,
    seats: &mut Vec<Seat<N, L>>,
    out: &mut K,
    network: &mut Network<N::Mail>,
    message: N::Mail,
) -> Result<(), NotTaken>
    requires { AreOpen L.facts.is_open seats.old.items }
    ensures delivered { (since : Since L) (w : World) (next which : ℕ) (handed : List ToLink) →
        StandsFor (seat_since N.state N.steps L.facts since) (hosted K.tells L.facts since (K.noted out.old) seats.old.items)
        (network_view (λ m. N.Mail.letter m) network.old) handed w next →
        slice_get w.sent which ≡ Some (N.Mail.letter message) →
        OnOk result (HasDelivered (seat_since N.state N.steps L.facts since) (hosted K.tells L.facts since (K.noted out.new) seats.new.items)
        (network_view (λ m. N.Mail.letter m) network.new) handed w next which (N.Mail.letter message).receiver) }
    ensures stopped { (since : Since L) (w : World) (next which : ℕ) (handed : List ToLink) →
        StandsFor (seat_since N.state N.steps L.facts since) (hosted K.tells L.facts since (K.noted out.old) seats.old.items)
        (network_view (λ m. N.Mail.letter m) network.old) handed w next →
        slice_get w.sent which ≡ Some (N.Mail.letter message) →
        IfErr result (λ e. HasStopped (seat_since N.state N.steps L.facts since) (hosted K.tells L.facts since (K.noted out.new) seats.new.items)
        network.new.replies.items handed w (λ events. BeginWith events (deliver_event (N.Mail.letter message).receiver which ∷ [])) e) }
    ensures len { vec_len seats.new ≡ vec_len seats.old }
    ensures open { UnlessDiskFailed result (AreOpen L.facts.is_open seats.new.items) }
    ensures falls { OnOk result (IsLess (left_of N.steps seats.old.items) (left_of N.steps seats.new.items)
        (map (λ m. N.Mail.letter m) network.old.waiting.items) (cost_of (N.Mail.letter message).body) (map (λ m. N.Mail.letter m) network.new.waiting.items)) }
    ensures sends { OnOk result (BeginWith network.old.waiting.items network.new.waiting.items) }

    // Of the sink: notes alone.
    ensures held { K.held out.new ≡ K.held out.old }
    ensures sink { K.fault_count out.new ≡ K.fault_count out.old }
    ensures noted { IsTrue K.tells → HasMore (K.noted out.old) (K.noted out.new) }

    // Of the logs' disks.
    ensures faults { TellsFaults result (faults_of L.facts.fault_count seats.old.items) (faults_of L.facts.fault_count seats.new.items) }
    ensures places { places_of L.facts.place seats.new.items ≡ places_of L.facts.place seats.old.items }
{
    let at = message.to().0 as usize;
    if at >= seats.len() {
        return Ok(());
    }
    match happen(seats, out, network, at, N::prepare(rt, alloc, message)) {
        Ok(()) => Ok(()),
        Err(e) => Err(e),
    }
}

/// Delivers the messages that wait, in order of sending, and those that are sent meanwhile, until none is left.
///
/// # Errors
/// The first fault of a delivery, as `deliver` has it.
pub fn settle<R: Threads + Sync, N: Node, L: Log, K: Witness<L::Of>>(
    rt: &R,
    alloc: Global,
    seats: &mut Vec<Seat<N, L>>,
    out: &mut K,
    network: &mut Network<N::Mail>,
) -> Result<(), NotTaken>
    requires { AreOpen L.facts.is_open seats.old.items }
    ensures settled { (since : Since L) (w : World) (next : ℕ) (handed : List ToLink) →
        StandsFor (seat_since N.state N.steps L.facts since) (hosted K.tells L.facts since (K.noted out.old) seats.old.items)
        (network_view (λ m. N.Mail.letter m) network.old) handed w next →
        OnOk result (HasSettled (seat_since N.state N.steps L.facts since) (hosted K.tells L.facts since (K.noted out.new) seats.new.items)
        (network_view (λ m. N.Mail.letter m) network.new) handed w next) }
    ensures stopped { (since : Since L) (w : World) (next : ℕ) (handed : List ToLink) →
        StandsFor (seat_since N.state N.steps L.facts since) (hosted K.tells L.facts since (K.noted out.old) seats.old.items)
        (network_view (λ m. N.Mail.letter m) network.old) handed w next →
        IfErr result (λ e. HasStopped (seat_since N.state N.steps L.facts since) (hosted K.tells L.facts since (K.noted out.new) seats.new.items)
        network.new.replies.items handed w AreDeliveries e) }
    ensures len { vec_len seats.new ≡ vec_len seats.old }
    ensures open { UnlessDiskFailed result (AreOpen L.facts.is_open seats.new.items) }

    // Of the sink: notes alone.
    ensures held { K.held out.new ≡ K.held out.old }
    ensures sink { K.fault_count out.new ≡ K.fault_count out.old }
    ensures noted { IsTrue K.tells → HasMore (K.noted out.old) (K.noted out.new) }

    // Of the logs' disks.
    ensures faults { TellsFaults result (faults_of L.facts.fault_count seats.old.items) (faults_of L.facts.fault_count seats.new.items) }
    ensures places { places_of L.facts.place seats.new.items ≡ places_of L.facts.place seats.old.items }
{
    'messages: while let Some(message) = network.waiting.pop_front() {
        match deliver(rt, alloc, seats, out, network, message) {
            Ok(()) => {}
            Err(e) => return Err(e),
        }
    }
    Ok(())
}
