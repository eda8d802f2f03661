//! Openings, moments and requests.

ghost use Rattle.std.specs.Prelude.{◌≡◌, ℕ, ◌<◌, List, [], ◌∷◌, vec_len, IfErr, OnOk, IsTrue};
ghost use Rattle.node_model.specs.Schedule.{moments_given, openings};
ghost use Rattle.node_model.specs.World.{IsRouter, World, client_event, moment_event};
ghost use Rattle.node_traits.specs.declared.outputs.ToLink.{ToLink};
ghost use Rattle.driver_steps.specs.Crashes.{Since};
ghost use Rattle.driver_steps.specs.Seats.{AreOpen, TellsFaults, UnlessDiskFailed, HasMore, faults_of, places_of, seat_since};
ghost use Rattle.driver_steps.specs.Moves.{BeginWith, HasHappened, HasRun, HasStopped};
ghost use Rattle.driver_steps.specs.Together.{hosted};
ghost use Rattle.driver_steps.specs.Worlds.{StandsFor, network_view};

use crate::network::Network;
use crate::seat::Seat;
use crate::steps::{happen, step_node};
use node_traits::{Node, NotTaken};
use outside::log::Log;
use outside::witness::Witness;

/// Reports to each node that it was opened, in order of their numbers.
///
/// # Errors
/// The first fault, as `happen` has it.
pub fn open_all<N: Node, L: Log, K: Witness<L::Of>>(
    seats: &mut Vec<Seat<N, L>>,
    out: &mut K,
    network: &mut Network<N::Mail>,
) -> Result<(), NotTaken>
    requires { AreOpen L.facts.is_open seats.old.items }
    ensures opened { (since : Since L) (w : World) (next : ℕ) (handed : List ToLink) →
        StandsFor (seat_since N.state N.steps L.facts since) (hosted K.tells L.facts since (K.noted out.old) seats.old.items)
        (network_view (λ m. N.Mail.letter m) network.old) handed w next →
        OnOk result (HasRun (seat_since N.state N.steps L.facts since) (hosted K.tells L.facts since (K.noted out.new) seats.new.items)
        (network_view (λ m. N.Mail.letter m) network.new) handed w next
        (openings 0 (vec_len seats.old))) }
    ensures stopped { (since : Since L) (w : World) (next : ℕ) (handed : List ToLink) →
        StandsFor (seat_since N.state N.steps L.facts since) (hosted K.tells L.facts since (K.noted out.old) seats.old.items)
        (network_view (λ m. N.Mail.letter m) network.old) handed w next →
        IfErr result (λ e. HasStopped (seat_since N.state N.steps L.facts since) (hosted K.tells L.facts since (K.noted out.new) seats.new.items)
        network.new.replies.items handed w (λ events. BeginWith events (openings 0 (vec_len seats.old))) e) }
    ensures len { vec_len seats.new ≡ vec_len seats.old }
    ensures open { UnlessDiskFailed result (AreOpen L.facts.is_open seats.new.items) }

    // Of the sink: notes alone.
    ensures held { K.held out.new ≡ K.held out.old }
    ensures sink { K.fault_count out.new ≡ K.fault_count out.old }
    ensures noted { IsTrue K.tells → HasMore (K.noted out.old) (K.noted out.new) }

    // Of the logs' disks.
    ensures faults { TellsFaults result (faults_of L.facts.fault_count seats.old.items) (faults_of L.facts.fault_count seats.new.items) }
    ensures places { places_of L.facts.place seats.new.items ≡ places_of L.facts.place seats.old.items }
{
    let count = seats.len();
    'nodes: for at in 0..count {
        match happen(seats, out, network, at, N::opened()) {
            Ok(()) => {}
            Err(e) => return Err(e),
        }
    }
    Ok(())
}

/// Advances the clock of each node to the moment, in milliseconds since 1970, in order of their numbers.
///
/// # Errors
/// The first fault, as `happen` has it.
pub fn give_moments<N: Node, L: Log, K: Witness<L::Of>>(
    seats: &mut Vec<Seat<N, L>>,
    out: &mut K,
    network: &mut Network<N::Mail>,
    moment: u64,
) -> Result<(), NotTaken>
    requires { AreOpen L.facts.is_open seats.old.items }
    ensures given { (since : Since L) (w : World) (next : ℕ) (handed : List ToLink) →
        StandsFor (seat_since N.state N.steps L.facts since) (hosted K.tells L.facts since (K.noted out.old) seats.old.items)
        (network_view (λ m. N.Mail.letter m) network.old) handed w next →
        OnOk result (HasRun (seat_since N.state N.steps L.facts since) (hosted K.tells L.facts since (K.noted out.new) seats.new.items)
        (network_view (λ m. N.Mail.letter m) network.new) handed w next
        (moments_given 0 (vec_len seats.old) moment)) }
    ensures stopped { (since : Since L) (w : World) (next : ℕ) (handed : List ToLink) →
        StandsFor (seat_since N.state N.steps L.facts since) (hosted K.tells L.facts since (K.noted out.old) seats.old.items)
        (network_view (λ m. N.Mail.letter m) network.old) handed w next →
        IfErr result (λ e. HasStopped (seat_since N.state N.steps L.facts since) (hosted K.tells L.facts since (K.noted out.new) seats.new.items)
        network.new.replies.items handed w (λ events. BeginWith events (moments_given 0 (vec_len seats.old) moment)) e) }
    ensures len { vec_len seats.new ≡ vec_len seats.old }
    ensures open { UnlessDiskFailed result (AreOpen L.facts.is_open seats.new.items) }

    // Of the sink: notes alone.
    ensures held { K.held out.new ≡ K.held out.old }
    ensures sink { K.fault_count out.new ≡ K.fault_count out.old }
    ensures noted { IsTrue K.tells → HasMore (K.noted out.old) (K.noted out.new) }

    // Of the logs' disks.
    ensures faults { TellsFaults result (faults_of L.facts.fault_count seats.old.items) (faults_of L.facts.fault_count seats.new.items) }
    ensures places { places_of L.facts.place seats.new.items ≡ places_of L.facts.place seats.old.items }
{
    let count = seats.len();
    'nodes: for at in 0..count {
        match happen(seats, out, network, at, N::moment(moment)) {
            Ok(()) => {}
            Err(e) => return Err(e),
        }
    }
    Ok(())
}

/// Advances the clock of one node to the moment, in milliseconds since 1970.
///
/// # Errors
/// As `happen` has them.
pub fn give_moment<N: Node, L: Log, K: Witness<L::Of>>(
    seats: &mut Vec<Seat<N, L>>,
    out: &mut K,
    network: &mut Network<N::Mail>,
    at: usize,
    moment: u64,
) -> Result<(), NotTaken>
    requires at { at < vec_len seats.old }
    requires open { AreOpen L.facts.is_open seats.old.items }
    ensures given { (since : Since L) (w : World) (next : ℕ) (handed : List ToLink) →
        StandsFor (seat_since N.state N.steps L.facts since) (hosted K.tells L.facts since (K.noted out.old) seats.old.items)
        (network_view (λ m. N.Mail.letter m) network.old) handed w next →
        OnOk result (HasHappened (seat_since N.state N.steps L.facts since) (hosted K.tells L.facts since (K.noted out.new) seats.new.items)
        (network_view (λ m. N.Mail.letter m) network.new) handed w next (moment_event at moment)) }
    ensures stopped { (since : Since L) (w : World) (next : ℕ) (handed : List ToLink) →
        StandsFor (seat_since N.state N.steps L.facts since) (hosted K.tells L.facts since (K.noted out.old) seats.old.items)
        (network_view (λ m. N.Mail.letter m) network.old) handed w next →
        IfErr result (λ e. HasStopped (seat_since N.state N.steps L.facts since) (hosted K.tells L.facts since (K.noted out.new) seats.new.items)
        network.new.replies.items handed w (λ events. BeginWith events (moment_event at moment ∷ [])) e) }
    ensures len { vec_len seats.new ≡ vec_len seats.old }
    ensures open { UnlessDiskFailed result (AreOpen L.facts.is_open seats.new.items) }

    // Of the sink: notes alone.
    ensures held { K.held out.new ≡ K.held out.old }
    ensures sink { K.fault_count out.new ≡ K.fault_count out.old }
    ensures noted { IsTrue K.tells → HasMore (K.noted out.old) (K.noted out.new) }

    // Of the logs' disks.
    ensures faults { TellsFaults result (faults_of L.facts.fault_count seats.old.items) (faults_of L.facts.fault_count seats.new.items) }
    ensures places { places_of L.facts.place seats.new.items ≡ places_of L.facts.place seats.old.items }
{
    match happen(seats, out, network, at, N::moment(moment)) {
        Ok(()) => Ok(()),
        Err(e) => Err(e),
    }
}

/// Passes a request to the router at a place, on a link; the number is that of its reply.
///
/// # Errors
/// - `NotTaken::Disk` only if the disk of that node's log met a fault.
/// - `NotTaken::Steps` if the router is at its last step, and `NotTaken::Memory` if it is out of memory: the request is not taken, and not answered.
/// - `NotTaken::Memory` also if memory runs out for messages or replies.
pub fn ask<N: Node, L: Log, K: Witness<L::Of>>(
    seats: &mut Vec<Seat<N, L>>,
    out: &mut K,
    network: &mut Network<N::Mail>,
    at: usize,
    link: u32,
    number: i32,
    request: N::Request,
) -> Result<(), NotTaken>
    requires at { at < vec_len seats.old }
    requires open { AreOpen L.facts.is_open seats.old.items }
    ensures asked { (since : Since L) (w : World) (next : ℕ) (handed : List ToLink) →
        StandsFor (seat_since N.state N.steps L.facts since) (hosted K.tells L.facts since (K.noted out.old) seats.old.items)
        (network_view (λ m. N.Mail.letter m) network.old) handed w next
        → IsRouter w.nodes at →
        OnOk result (HasHappened (seat_since N.state N.steps L.facts since) (hosted K.tells L.facts since (K.noted out.new) seats.new.items)
        (network_view (λ m. N.Mail.letter m) network.new) handed w next (client_event at link number (N.asks request))) }
    ensures stopped { (since : Since L) (w : World) (next : ℕ) (handed : List ToLink) →
        StandsFor (seat_since N.state N.steps L.facts since) (hosted K.tells L.facts since (K.noted out.old) seats.old.items)
        (network_view (λ m. N.Mail.letter m) network.old) handed w next
        → IsRouter w.nodes at →
        IfErr result (λ e. HasStopped (seat_since N.state N.steps L.facts since) (hosted K.tells L.facts since (K.noted out.new) seats.new.items)
        network.new.replies.items handed w (λ events. BeginWith events (client_event at link number (N.asks request) ∷ [])) e) }
    ensures len { vec_len seats.new ≡ vec_len seats.old }
    ensures open { UnlessDiskFailed result (AreOpen L.facts.is_open seats.new.items) }

    // Of the sink: notes alone.
    ensures held { K.held out.new ≡ K.held out.old }
    ensures sink { K.fault_count out.new ≡ K.fault_count out.old }
    ensures noted { IsTrue K.tells → HasMore (K.noted out.old) (K.noted out.new) }

    // Of the logs' disks.
    ensures faults { TellsFaults result (faults_of L.facts.fault_count seats.old.items) (faults_of L.facts.fault_count seats.new.items) }
    ensures places { places_of L.facts.place seats.new.items ≡ places_of L.facts.place seats.old.items }
{
    let outputs = match step_node(seats, out, at, N::client(link, number, request)) {
        Ok(outputs) => outputs,
        Err(e) => return Err(e.cause()),
    };
    match network.take(outputs) {
        Ok(()) => Ok(()),
        Err(_) => Err(NotTaken::Memory),
    }
}
