//! A script, from its first byte to its last.

ghost use Rattle.std.specs.Prelude.{◌≡◌, ◌≢◌, ◌⊎◌, ℕ, ◌<◌, [], None, IsTrue, vec_len};
ghost use Rattle.outside.specs.Devices.{sink_call, source_call};
ghost use Rattle.node_model.specs.World.{World};
ghost use Rattle.driver_steps.specs.Crashes.{Since, with_notes};
ghost use Rattle.driver_steps.specs.Restarts.{HaveParts};
ghost use Rattle.driver_steps.specs.Seats.{AreCounted, AreHeld, AreKept, AreOpen, LeaveKept, faults_of, places_of, seat_since, seat_view, since_noted, since_then};
ghost use Rattle.driver_steps.specs.Together.{hosted};
ghost use Rattle.driver_steps.specs.Worlds.{network_view};
ghost use Rattle.pipe_driver.specs.Acknowledgements.{AreAcknowledgedBy, AreCovered, AreNoted, WithNotes};
ghost use Rattle.pipe_driver.specs.Counts.{HaveRisenWhere, RoseWhere};
ghost use Rattle.pipe_driver.specs.Progress.{AreAskedAsRead};
ghost use Rattle.pipe_driver.specs.declared.status.Status.TheVariants as statuses;
ghost use Rattle.sim_driver.specs.Moves.{MayPlay};
ghost use Rattle.sim_driver.specs.Progress.{Playing};
ghost use Rattle.sim_driver.specs.Scripts.{new_script};
ghost use Rattle.sim_driver.specs.Simulations.{IsSimulated, all_printed, router_count};

use crate::lines::play_piece;
use crate::script::Script;
use driver_steps::{Network, Opens, Seat, note_cut, open_all};
use node_traits::Node;
use opmsg_frames::Request;
use outside::log::Log;
use outside::streams::Source;
use outside::witness::Witness;
use pipe_driver::{PIECE, Status, new_piece, take_more};
use std::alloc::Global;
use std::marker::Sync;
use std::thread::Threads;

/// Returns the status of a script whose input has no more, with this cause, after the beginning of a line.
fn unended(cause: Status, begun: &[u8]) -> Status
    ensures none { begun.now ≡ [] → result ≡ cause }
    ensures some { begun.now ≢ [] → cause ≡ statuses.InputEnded → result ≡ statuses.BadInput }
    ensures other { cause ≢ statuses.InputEnded → result ≡ cause }
    ensures either { (result ≡ cause) ⊎ (result ≡ statuses.BadInput) }
{
    match cause {
        Status::InputEnded if !begun.is_empty() => Status::BadInput,
        _ => cause,
    }
}

/// Plays the script in `input`, of which at most `limit` bytes are taken, for the nodes in order of their numbers, whose logs are open and keep
/// what they keep in the world that the call begins in; those from a place on are routers. All nodes are opened; then each line is played, and
/// what it prints is put into `out`, before the next.
///
/// A node that stops in a line is opened again by `opener`.
///
/// The status is `BadInput` where the next line is refused, and `DiskFailed` where the disk of a log failed: the logs must be opened again. It
/// is `OutOfMemory` also where a router is at its last step.
pub fn simulate<
    R: Threads + Sync,
    N: Node<Request = Request>,
    L: Log,
    S: Source,
    K: Witness<L::Of>,
    O: Opens<N, L>,
>(
    rt: &R,
    opener: &O,
    alloc: Global,
    input: &mut S,
    out: &mut K,
    seats: &mut Vec<Seat<N, L>>,
    first_router: usize,
    limit: u64,
) -> Status
    requires at { first_router < vec_len seats.old }
    requires open { AreOpen L.facts.is_open seats.old.items }
    ensures simulated { AreAskedAsRead N.asks → IsTrue L.facts.tells → (first : World) → MayPlay first_router first →
        HaveParts (O.part opener.now) first.nodes →
        AreHeld (seat_view N.state N.steps L.facts) seats.old.items first.nodes →
        AreCounted (seat_view N.state N.steps L.facts) seats.old.items first.nodes →
        IsSimulated (source_call S.tells S.left S.fault_count input.old input.new) (sink_call K.tells K.held K.fault_count out.old out.new)
        first_router (AreKept (seat_view N.state N.steps L.facts) seats.new.items)
        (LeaveKept (seat_since N.state N.steps L.facts (since_then seats.old.items first))
        (hosted K.tells L.facts (since_noted seats.old.items first (K.noted out.old)) (K.noted out.new) seats.new.items))
        (AreAcknowledgedBy L.facts K.tells (all_printed first_router first) first (K.noted out.new) (K.held out.old) seats.new.items)
        first limit result }

    // But where a disk failed, records can be appended to each log.
    ensures open { result ≢ statuses.DiskFailed → AreOpen L.facts.is_open seats.new.items }
    ensures len { vec_len seats.new ≡ vec_len seats.old }

    // Each fault of a device has its own status.
    ensures read_fault { RoseWhere (result ≡ statuses.ReadFailed) (S.fault_count input.old) (S.fault_count input.new) }
    ensures write_fault { RoseWhere (result ≡ statuses.WriteFailed) (K.fault_count out.old) (K.fault_count out.new) }
    ensures disk_fault { HaveRisenWhere (result ≡ statuses.DiskFailed) (faults_of L.facts.fault_count seats.old.items)
        (faults_of L.facts.fault_count seats.new.items) }
    ensures places { places_of L.facts.place seats.new.items ≡ places_of L.facts.place seats.old.items }
{
    let mut network = Network::new(alloc);
    note_cut(out, seats);
    match open_all(seats, out, &mut network) {
        Ok(()) => play_all(
            rt,
            opener,
            alloc,
            input,
            out,
            seats,
            network,
            first_router,
            limit,
        ),
        Err(e) => Status::of(e),
    }
}

/// Plays the script for nodes that were opened.
fn play_all<
    R: Threads + Sync,
    N: Node<Request = Request>,
    L: Log,
    S: Source,
    K: Witness<L::Of>,
    O: Opens<N, L>,
>(
    rt: &R,
    opener: &O,
    alloc: Global,
    input: &mut S,
    out: &mut K,
    seats: &mut Vec<Seat<N, L>>,
    network: Network<N::Mail>,
    first_router: usize,
    limit: u64,
) -> Status
    requires at { first_router < vec_len seats.old }
    requires open { AreOpen L.facts.is_open seats.old.items }
    ensures simulated { AreAskedAsRead N.asks → IsTrue L.facts.tells → (since : Since L) (first : World) → MayPlay first_router first →
        HaveParts (O.part opener.now) first.nodes →
        Playing (seat_since N.state N.steps L.facts since) (hosted K.tells L.facts since (K.noted out.old) seats.old.items)
        (network_view (λ m. N.Mail.letter m) network)
        first_router first K.tells since.noted (K.held out.old) (K.held out.old) (new_script first_router (router_count first_router first)) [] →
        AreNoted K.tells (K.noted out.old) (places_of L.facts.place seats.old.items) since.noted →
        WithNotes K.tells (K.noted out.new) (places_of L.facts.place seats.new.items)
        (λ noted. IsSimulated (source_call S.tells S.left S.fault_count input.old input.new) (sink_call K.tells K.held K.fault_count out.old out.new)
        first_router (AreKept (seat_since N.state N.steps L.facts (with_notes since noted)) seats.new.items)
        (LeaveKept (seat_since N.state N.steps L.facts (with_notes since noted)) (hosted K.tells L.facts since (K.noted out.new) seats.new.items))
        (λ last put. IsTrue K.tells → AreCovered (all_printed first_router first) first noted (K.held out.old) put last) first limit result) }
    ensures open { result ≢ statuses.DiskFailed → AreOpen L.facts.is_open seats.new.items }
    ensures len { vec_len seats.new ≡ vec_len seats.old }
    ensures read_fault { RoseWhere (result ≡ statuses.ReadFailed) (S.fault_count input.old) (S.fault_count input.new) }
    ensures write_fault { RoseWhere (result ≡ statuses.WriteFailed) (K.fault_count out.old) (K.fault_count out.new) }
    ensures disk_fault { HaveRisenWhere (result ≡ statuses.DiskFailed) (faults_of L.facts.fault_count seats.old.items)
        (faults_of L.facts.fault_count seats.new.items) }
    ensures places { places_of L.facts.place seats.new.items ≡ places_of L.facts.place seats.old.items }
{
    let mut network = network;
    let Ok(mut script) = Script::new(alloc, first_router, seats.len() - first_router) else {
        return Status::OutOfMemory;
    };
    let Ok(mut piece) = new_piece(alloc) else {
        return Status::OutOfMemory;
    };
    let mut begun = Vec::new(alloc);
    let mut taken = 0;
    'pieces: while taken < limit {
        let room = (limit - taken).min(PIECE as u64) as usize;
        let count = match take_more(input, &mut piece, room) {
            Ok(count) => count,
            Err(status) => return unended(status, begun.as_slice()),
        };
        taken += count as u64;
        match play_piece(
            rt,
            opener,
            alloc,
            &piece[..count],
            &mut begun,
            seats,
            &mut network,
            &mut script,
            out,
        ) {
            Ok(()) => {}
            Err(status) => return status,
        }
    }
    Status::InputTooLong
}
