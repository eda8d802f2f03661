//! One connection, from its first byte to its last.

ghost use Rattle.std.specs.Prelude.{◌≡◌, ◌≢◌, ℕ, ◌<◌, ◌≤◌, [], IsTrue, vec_len};
ghost use Rattle.outside.specs.Devices.{sink_call, source_call};
ghost use Rattle.node_model.specs.World.{World};
ghost use Rattle.driver_steps.specs.Crashes.{Since, with_notes};
ghost use Rattle.driver_steps.specs.Seats.{AreCounted, AreHeld, AreKept, AreOpen, LeaveKept, faults_of, places_of, seat_since, seat_view, since_noted, since_then};
ghost use Rattle.driver_steps.specs.Together.{hosted};
ghost use Rattle.driver_steps.specs.Worlds.{network_view};
ghost use Rattle.pipe_driver.specs.Acknowledgements.{AreAcknowledgedBy, AreCovered, AreNoted, WithNotes};
ghost use Rattle.pipe_driver.specs.Counts.{HaveRisenWhere, RoseWhere};
ghost use Rattle.pipe_driver.specs.Endings.{IsPiped, most_taken};
ghost use Rattle.pipe_driver.specs.Progress.{AreAskedAsRead, Serving, all_replies};
ghost use Rattle.pipe_driver.specs.Schedules.{MayServe};
ghost use Rattle.pipe_driver.specs.declared.status.Status.TheVariants as statuses;

use crate::requests::answer_all;
use crate::rest::unframed;
use crate::status::Status;
use crate::streams::{PIECE, new_piece, take_more};
use driver_steps::{Network, Seat, note_cut, open_all};
use node_traits::Node;
use opmsg_frames::{Framer, Request};
use outside::clock::Clock;
use outside::log::Log;
use outside::streams::Source;
use outside::witness::Witness;
use std::alloc::Global;
use std::marker::Sync;
use std::thread::Threads;

/// How a connection ended: its status, and how many of the bytes taken come after the last whole request.
#[derive(Clone, Copy, Debug, PartialEq, Eq)]
pub struct Ending {
    pub status: Status,
    pub rest: u64,
}

fn ended(status: Status, rest: usize) -> Ending
    ensures status { result.status ≡ status }
    ensures rest { result.rest ≡ rest }
{
    Ending {
        status,
        rest: rest as u64,
    }
}

/// Serves one connection from `input` to `out`, in which at most `limit` bytes are taken, by the nodes in order of their numbers, whose logs
/// are open and keep what they keep in the world that the call begins in. All nodes are opened; then each whole request is served in a round of
/// its own, at one moment of the clock, by the router with this number, before more is taken, and the replies of the round are put.
///
/// The status is `DiskFailed` where the disk of a log failed: the logs must be opened again. It is `OutOfMemory` also where the router is at
/// its last step.
pub fn pipe<
    R: Threads + Sync,
    N: Node<Request = Request>,
    L: Log,
    S: Source,
    K: Witness<L::Of>,
    C: Clock,
>(
    rt: &R,
    alloc: Global,
    input: &mut S,
    out: &mut K,
    seats: &mut Vec<Seat<N, L>>,
    clock: &C,
    router: usize,
    limit: u64,
) -> Ending
    requires at { router < vec_len seats.old }
    requires open { AreOpen L.facts.is_open seats.old.items }
    requires limit { limit ≤ most_taken }
    ensures piped { AreAskedAsRead N.asks → (first : World) → MayServe first router →
        AreHeld (seat_view N.state N.steps L.facts) seats.old.items first.nodes →
        AreCounted (seat_view N.state N.steps L.facts) seats.old.items first.nodes →
        IsPiped (source_call S.tells S.left S.fault_count input.old input.new) (sink_call K.tells K.held K.fault_count out.old out.new)
        (C.gives clock.now) router (AreKept (seat_view N.state N.steps L.facts) seats.new.items)
        (LeaveKept (seat_since N.state N.steps L.facts (since_then seats.old.items first))
        (hosted K.tells L.facts (since_noted seats.old.items first (K.noted out.old)) (K.noted out.new) seats.new.items))
        (AreAcknowledgedBy L.facts K.tells (all_replies first) first (K.noted out.new) (K.held out.old) seats.new.items)
        first limit result.status result.rest }

    // But where a disk failed, records can be appended to each log.
    ensures open { result.status ≢ statuses.DiskFailed → AreOpen L.facts.is_open seats.new.items }
    ensures len { vec_len seats.new ≡ vec_len seats.old }

    // Each fault of a device has its own status.
    ensures read_fault { RoseWhere (result.status ≡ statuses.ReadFailed) (S.fault_count input.old) (S.fault_count input.new) }
    ensures write_fault { RoseWhere (result.status ≡ statuses.WriteFailed) (K.fault_count out.old) (K.fault_count out.new) }
    ensures disk_fault { HaveRisenWhere (result.status ≡ statuses.DiskFailed) (faults_of L.facts.fault_count seats.old.items)
        (faults_of L.facts.fault_count seats.new.items) }
    ensures places { places_of L.facts.place seats.new.items ≡ places_of L.facts.place seats.old.items }
{
    let mut network = Network::new(alloc);
    note_cut(out, seats);
    match open_all(seats, out, &mut network) {
        Ok(()) => serve(rt, alloc, input, out, seats, network, clock, router, limit),
        Err(e) => ended(Status::of(e), 0),
    }
}

/// Serves one connection by nodes that were opened.
fn serve<
    R: Threads + Sync,
    N: Node<Request = Request>,
    L: Log,
    S: Source,
    K: Witness<L::Of>,
    C: Clock,
>(
    rt: &R,
    alloc: Global,
    input: &mut S,
    out: &mut K,
    seats: &mut Vec<Seat<N, L>>,
    network: Network<N::Mail>,
    clock: &C,
    router: usize,
    limit: u64,
) -> Ending
    requires at { router < vec_len seats.old }
    requires open { AreOpen L.facts.is_open seats.old.items }
    requires limit { limit ≤ most_taken }
    ensures piped { AreAskedAsRead N.asks → (since : Since L) (first : World) → MayServe first router →
        Serving (seat_since N.state N.steps L.facts since) (hosted K.tells L.facts since (K.noted out.old) seats.old.items) (network_view (λ m. N.Mail.letter m) network)
        (C.gives clock.now) router first K.tells since.noted (K.held out.old) (K.held out.old) [] 0 →
        AreNoted K.tells (K.noted out.old) (places_of L.facts.place seats.old.items) since.noted →
        WithNotes K.tells (K.noted out.new) (places_of L.facts.place seats.new.items)
        (λ noted. IsPiped (source_call S.tells S.left S.fault_count input.old input.new) (sink_call K.tells K.held K.fault_count out.old out.new)
        (C.gives clock.now) router (AreKept (seat_since N.state N.steps L.facts (with_notes since noted)) seats.new.items)
        (LeaveKept (seat_since N.state N.steps L.facts (with_notes since noted)) (hosted K.tells L.facts since (K.noted out.new) seats.new.items))
        (λ last put. IsTrue K.tells → AreCovered (all_replies first) first noted (K.held out.old) put last) first limit
        result.status result.rest) }
    ensures open { result.status ≢ statuses.DiskFailed → AreOpen L.facts.is_open seats.new.items }
    ensures len { vec_len seats.new ≡ vec_len seats.old }
    ensures read_fault { RoseWhere (result.status ≡ statuses.ReadFailed) (S.fault_count input.old) (S.fault_count input.new) }
    ensures write_fault { RoseWhere (result.status ≡ statuses.WriteFailed) (K.fault_count out.old) (K.fault_count out.new) }
    ensures disk_fault { HaveRisenWhere (result.status ≡ statuses.DiskFailed) (faults_of L.facts.fault_count seats.old.items)
        (faults_of L.facts.fault_count seats.new.items) }
    ensures places { places_of L.facts.place seats.new.items ≡ places_of L.facts.place seats.old.items }
{
    let mut network = network;
    let mut framer = Framer::new(alloc);
    let Ok(mut piece) = new_piece(alloc) else {
        return ended(Status::OutOfMemory, 0);
    };
    let mut taken = 0;
    let mut puts = 0;
    'pieces: while taken < limit {
        let room = (limit - taken).min(PIECE as u64) as usize;
        // Room is made before anything is taken, so that all that was taken is fed.
        if framer.reserve(room).is_err() {
            return ended(Status::OutOfMemory, framer.rest().len());
        }
        let count = match take_more(input, &mut piece, room) {
            Ok(count) => count,
            Err(status) => return ended(status, framer.rest().len()),
        };
        taken += count as u64;
        let Ok(()) = framer.feed(&piece[..count]) else {
            return ended(Status::OutOfMemory, framer.rest().len());
        };
        match answer_all(
            rt,
            alloc,
            &mut framer,
            seats,
            &mut network,
            puts,
            out,
            clock,
            router,
        ) {
            Ok(after) => puts = after,
            Err(status) => return ended(status, unframed(framer.rest())),
        }
    }
    ended(Status::InputTooLong, framer.rest().len())
}
