//! The requests of a connection, one after another.

ghost use Rattle.std.specs.Prelude.{◌≡◌, ◌≢◌, ℕ, ◌+◌, ◌<◌, ◌≤◌, ◌++◌, ◌^◌, List, length, vec_len};
ghost use Rattle.std.specs.Prelude.{None, Err, OnOk, IfErr, IfOk};
ghost use Rattle.opmsg_frames.specs.Outline.{outline, partial_outline};
ghost use Rattle.opmsg_frames.specs.Requests as wire;
ghost use Rattle.opmsg_frames.specs.RequestMeanings.{IsMeant};
ghost use Rattle.node_model.specs.World.{World};
ghost use Rattle.driver_steps.specs.Crashes.{Since, with_notes};
ghost use Rattle.driver_steps.specs.Seats.{AreOpen, faults_of, places_of, seat_since};
ghost use Rattle.driver_steps.specs.Together.{hosted};
ghost use Rattle.driver_steps.specs.Worlds.{network_view};
ghost use Rattle.pipe_driver.specs.Acknowledgements.{AreNoted, WithNotes};
ghost use Rattle.pipe_driver.specs.Counts.{HaveRisenWhere, RoseWhere};
ghost use Rattle.pipe_driver.specs.Endings.{most_taken};
ghost use Rattle.pipe_driver.specs.Progress.{AreAskedAsRead, Serving};
ghost use Rattle.pipe_driver.specs.Schedules.{MayServe};
ghost use Rattle.pipe_driver.specs.Stops.{AfterOne, AfterRequests, IsOfServing};
ghost use Rattle.pipe_driver.specs.declared.status.Status.TheVariants as statuses;

use crate::replies::{next_number, put_replies, replied_after};
use crate::round::serve_round;
use crate::status::Status;
use driver_steps::{Network, Seat};
use node_traits::Node;
use opmsg_frames::{FrameFault, Framer, Request};
use outside::clock::Clock;
use outside::log::Log;
use outside::witness::Witness;
use std::alloc::Global;
use std::marker::Sync;
use std::thread::Threads;

/// Serves a request in a round at the clock's moment, where so many replies were put before, and puts the replies of the round; returns how many
/// replies there are then.
///
/// # Errors
/// - `Status::WriteFailed` if a write of a reply failed.
/// - `Status::DiskFailed` if a disk failed: no reply of the round was put.
/// - `Status::OutOfMemory` if memory ran out, or the router was at its last step: no reply of the round was put.
pub fn answer_one<
    R: Threads + Sync,
    N: Node<Request = Request>,
    L: Log,
    K: Witness<L::Of>,
    C: Clock,
>(
    rt: &R,
    alloc: Global,
    request: Request,
    seats: &mut Vec<Seat<N, L>>,
    network: &mut Network<N::Mail>,
    replied: u64,
    out: &mut K,
    clock: &C,
    router: usize,
) -> Result<u64, Status>
    requires at { router < vec_len seats.old }
    requires open { AreOpen L.facts.is_open seats.old.items }
    requires count { replied < 2 ^ 63 }
    ensures served { AreAskedAsRead N.asks → (meant : wire.Request) → IsMeant request meant → wire.IsRequest meant →
        (since : Since L) (first : World) → MayServe first router → (held_before consumed : List ℕ) →
        Serving (seat_since N.state N.steps L.facts since) (hosted K.tells L.facts since (K.noted out.old) seats.old.items) (network_view (λ m. N.Mail.letter m) network.old)
        (C.gives clock.now) router first K.tells since.noted held_before (K.held out.old) consumed replied →
        AreNoted K.tells (K.noted out.old) (places_of L.facts.place seats.old.items) since.noted →
        WithNotes K.tells (K.noted out.new) (places_of L.facts.place seats.new.items)
        (λ noted. AfterOne result (seat_since N.state N.steps L.facts (with_notes since noted)) (hosted K.tells L.facts since (K.noted out.new) seats.new.items)
        (network_view (λ m. N.Mail.letter m) network.new)
        (C.gives clock.now) router first K.tells noted held_before (K.held out.new) (consumed ++ meant.bytes)) }
    ensures replied { IfOk result (λ after. after ≤ replied + 1) }
    ensures len { vec_len seats.new ≡ vec_len seats.old }
    ensures open { OnOk result (AreOpen L.facts.is_open seats.new.items) }
    ensures open_err { IfErr result (λ status. status ≢ statuses.DiskFailed → AreOpen L.facts.is_open seats.new.items) }
    ensures other { IfErr result IsOfServing }

    // Of the devices.
    ensures write_fault { RoseWhere (result ≡ Err statuses.WriteFailed) (K.fault_count out.old) (K.fault_count out.new) }
    ensures disk_fault { HaveRisenWhere (result ≡ Err statuses.DiskFailed) (faults_of L.facts.fault_count seats.old.items) (faults_of L.facts.fault_count seats.new.items) }
    ensures places { places_of L.facts.place seats.new.items ≡ places_of L.facts.place seats.old.items }
{
    let more = request.more;
    let moment = clock.now();
    let number = next_number(replied);
    match serve_round(
        rt, alloc, seats, out, network, router, moment, number, request,
    ) {
        Ok(()) => {}
        Err(e) => return Err(Status::of(e)),
    }
    let replies = network.hand_on(alloc);
    match put_replies(out, seats, &replies) {
        Ok(()) => Ok(replied_after(more, replied)),
        Err(_) => Err(Status::WriteFailed),
    }
}

/// Serves the requests that the framer returns, one after another, up to the last that is whole, where so many replies were put before; returns
/// how many there are then.
///
/// # Errors
/// - `Status::BadInput` if what is left begins with no request; those before it were served.
/// - `Status::WriteFailed`, `Status::DiskFailed` and `Status::OutOfMemory` as `answer_one`; the last also if the framer runs out of memory.
pub fn answer_all<
    R: Threads + Sync,
    N: Node<Request = Request>,
    L: Log,
    K: Witness<L::Of>,
    C: Clock,
>(
    rt: &R,
    alloc: Global,
    framer: &mut Framer,
    seats: &mut Vec<Seat<N, L>>,
    network: &mut Network<N::Mail>,
    replied: u64,
    out: &mut K,
    clock: &C,
    router: usize,
) -> Result<u64, Status>
    requires at { router < vec_len seats.old }
    requires open { AreOpen L.facts.is_open seats.old.items }
    requires fed { framer.old.offset + length framer.old.bytes ≤ most_taken }
    requires fault { framer.old.fault ≡ None }
    requires count { replied ≤ framer.old.offset }
    ensures served { AreAskedAsRead N.asks → (since : Since L) (first : World) → MayServe first router → (held_before consumed : List ℕ) →
        Serving (seat_since N.state N.steps L.facts since) (hosted K.tells L.facts since (K.noted out.old) seats.old.items) (network_view (λ m. N.Mail.letter m) network.old)
        (C.gives clock.now) router first K.tells since.noted held_before (K.held out.old) consumed replied →
        AreNoted K.tells (K.noted out.old) (places_of L.facts.place seats.old.items) since.noted →
        WithNotes K.tells (K.noted out.new) (places_of L.facts.place seats.new.items)
        (λ noted. AfterRequests result (seat_since N.state N.steps L.facts (with_notes since noted)) (hosted K.tells L.facts since (K.noted out.new) seats.new.items)
        (network_view (λ m. N.Mail.letter m) network.new)
        (C.gives clock.now) router first K.tells noted held_before (K.held out.new) (consumed ++ framer.old.bytes) framer.new.bytes) }
    ensures partial { OnOk result (outline framer.new.bytes ≡ partial_outline) }
    ensures fed { framer.new.offset + length framer.new.bytes ≡ framer.old.offset + length framer.old.bytes }
    ensures fault { OnOk result (framer.new.fault ≡ None) }
    ensures replied { IfOk result (λ after. after ≤ framer.new.offset) }
    ensures len { vec_len seats.new ≡ vec_len seats.old }
    ensures open { OnOk result (AreOpen L.facts.is_open seats.new.items) }
    ensures open_err { IfErr result (λ status. status ≢ statuses.DiskFailed → AreOpen L.facts.is_open seats.new.items) }
    ensures other { IfErr result IsOfServing }

    // Of the devices.
    ensures write_fault { RoseWhere (result ≡ Err statuses.WriteFailed) (K.fault_count out.old) (K.fault_count out.new) }
    ensures disk_fault { HaveRisenWhere (result ≡ Err statuses.DiskFailed) (faults_of L.facts.fault_count seats.old.items) (faults_of L.facts.fault_count seats.new.items) }
    ensures places { places_of L.facts.place seats.new.items ≡ places_of L.facts.place seats.old.items }
{
    let mut replied = replied;
    'requests: loop {
        let request = match framer.next() {
            Ok(Some(request)) => request,
            Ok(None) => return Ok(replied),
            Err(FrameFault::Malformed { .. }) => return Err(Status::BadInput),
            Err(FrameFault::Memory) => return Err(Status::OutOfMemory),
        };
        match answer_one(
            rt, alloc, request, seats, network, replied, out, clock, router,
        ) {
            Ok(after) => replied = after,
            Err(status) => return Err(status),
        }
    }
}
