//! One round of the schedule.

ghost use Rattle.std.specs.Prelude.{◌≡◌, ℕ, ◌<◌, List, vec_len, IfErr, IsTrue, OnOk};
ghost use Rattle.node_model.specs.Schedule.{Pipes, Round};
ghost use Rattle.node_model.specs.World.{Event, World};
ghost use Rattle.node_traits.specs.declared.outputs.ToLink.{ToLink};
ghost use Rattle.driver_steps.specs.Crashes.{Since};
ghost use Rattle.driver_steps.specs.Seats.{AreOpen, HasMore, TellsFaults, UnlessDiskFailed, faults_of, places_of, seat_since};
ghost use Rattle.driver_steps.specs.Moves.{HasStopped};
ghost use Rattle.driver_steps.specs.Together.{hosted};
ghost use Rattle.driver_steps.specs.Worlds.{StandsFor, network_view};
ghost use Rattle.pipe_driver.specs.Schedules.{HasServed, IsPart, MayServe, round_of};

use driver_steps::{Network, Seat, ask, give_moments, settle};
use node_traits::{Node, NotTaken};
use outside::log::Log;
use outside::witness::Witness;
use std::alloc::Global;
use std::marker::Sync;
use std::thread::Threads;

/// The number of the connection's link.
const FIRST_LINK: u32 = 0;

/// Serves a round: all nodes get the moment, in milliseconds since 1970, the router with this number takes the request, whose reply has this number, and all
/// messages are delivered. The replies wait to be handed on.
///
/// # Errors
/// The first fault of a step, as driver_steps has it.
pub fn serve_round<R: Threads + Sync, N: Node, L: Log, K: Witness<L::Of>>(
    rt: &R,
    alloc: Global,
    seats: &mut Vec<Seat<N, L>>,
    out: &mut K,
    network: &mut Network<N::Mail>,
    router: usize,
    moment: u64,
    number: i32,
    request: N::Request,
) -> Result<(), NotTaken>
    requires at { router < vec_len seats.old }
    requires open { AreOpen L.facts.is_open seats.old.items }
    ensures served { (since : Since L) (first : World) (rounds : List Round) (events : List Event) (w : World) (next : ℕ) (handed : List ToLink) →
        MayServe first router → Pipes first rounds events w next →
        StandsFor (seat_since N.state N.steps L.facts since) (hosted K.tells L.facts since (K.noted out.old) seats.old.items)
        (network_view (λ m. N.Mail.letter m) network.old) handed w next →
        OnOk result (HasServed (seat_since N.state N.steps L.facts since) (hosted K.tells L.facts since (K.noted out.new) seats.new.items)
        (network_view (λ m. N.Mail.letter m) network.new) handed w next
        (round_of router moment number (N.asks request))) }
    ensures stopped { (since : Since L) (first : World) (rounds : List Round) (events : List Event) (w : World) (next : ℕ) (handed : List ToLink) →
        MayServe first router → Pipes first rounds events w next →
        StandsFor (seat_since N.state N.steps L.facts since) (hosted K.tells L.facts since (K.noted out.old) seats.old.items)
        (network_view (λ m. N.Mail.letter m) network.old) handed w next →
        IfErr result (λ e. HasStopped (seat_since N.state N.steps L.facts since) (hosted K.tells L.facts since (K.noted out.new) seats.new.items)
        network.new.replies.items handed w (IsPart (vec_len seats.old) (round_of router moment number (N.asks request))) e) }
    ensures len { vec_len seats.new ≡ vec_len seats.old }
    ensures open { UnlessDiskFailed result (AreOpen L.facts.is_open seats.new.items) }

    // Of the sink: notes alone.
    ensures held { K.held out.new ≡ K.held out.old }
    ensures sink { K.fault_count out.new ≡ K.fault_count out.old }
    ensures noted { IsTrue K.tells → HasMore (K.noted out.old) (K.noted out.new) }

    // Of the logs' disks.
    ensures faults { TellsFaults result (faults_of L.facts.fault_count seats.old.items) (faults_of L.facts.fault_count seats.new.items) }
    ensures places { places_of L.facts.place seats.new.items ≡ places_of L.facts.place seats.old.items }
{
    match give_moments(seats, out, network, moment) {
        Ok(()) => {}
        Err(e) => return Err(e),
    }
    match ask(seats, out, network, router, FIRST_LINK, number, request) {
        Ok(()) => {}
        Err(e) => return Err(e),
    }
    match settle(rt, alloc, seats, out, network) {
        Ok(()) => Ok(()),
        Err(e) => Err(e),
    }
}
