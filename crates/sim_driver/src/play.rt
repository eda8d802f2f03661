//! Lines that are played.

ghost use Rattle.std.specs.Prelude.{◌≡◌, ◌≢◌, ◌+◌, ◌≤◌, List, length, vec_len, IfErr, IfOk, Err, IsTrue};
ghost use Rattle.node_model.specs.World.{World};
ghost use Rattle.node_traits.specs.declared.outputs.ToLink.{ToLink};
ghost use Rattle.driver_steps.specs.Crashes.{Since};
ghost use Rattle.driver_steps.specs.Restarts.{MayStop};
ghost use Rattle.driver_steps.specs.Seats.{AreOpen, HasMore, faults_of, places_of, seat_since};
ghost use Rattle.driver_steps.specs.Together.{hosted};
ghost use Rattle.driver_steps.specs.Worlds.{StandsFor, network_view};
ghost use Rattle.pipe_driver.specs.Counts.{HaveRisenWhere};
ghost use Rattle.pipe_driver.specs.Progress.{AreAskedAsRead};
ghost use Rattle.pipe_driver.specs.declared.status.Status.TheVariants as statuses;
ghost use Rattle.script_lines.specs.Meanings.{meaning_of};
ghost use Rattle.sim_driver.specs.LineOutcomes.{HasPlayed, HasPlayedBytes, IsOfLine, StopsBytes, StopsLine};
ghost use Rattle.sim_driver.specs.Moves.{HasRouters};
ghost use Rattle.sim_driver.specs.Scripts.{script_view};

use crate::events::{play_client, play_moment};
use crate::messages::{play_deliver, play_next, play_settle};
use crate::restarts::{play_kept, play_lost, play_restart};
use crate::script::Script;
use driver_steps::{Network, Opens, Seat};
use node_traits::Node;
use opmsg_frames::Request;
use outside::log::Log;
use outside::witness::Witness;
use pipe_driver::Status;
use script_lines::{Line, LineFault, read_line};
use std::alloc::Global;
use std::marker::Sync;
use std::thread::Threads;

/// A line is played. Returns the router whose link was closed, if one was.
///
/// # Errors
/// As `play_client`, `play_deliver`, `play_moment`, `play_settle`, `play_next`, `play_restart`, `play_kept` and `play_lost` have them.
pub fn play_said<
    R: Threads + Sync,
    N: Node<Request = Request>,
    L: Log,
    K: Witness<L::Of>,
    O: Opens<N, L>,
>(
    rt: &R,
    opener: &O,
    alloc: Global,
    line: Line,
    seats: &mut Vec<Seat<N, L>>,
    out: &mut K,
    network: &mut Network<N::Mail>,
    script: &mut Script,
) -> Result<Option<u64>, Status>
    requires open { AreOpen L.facts.is_open seats.old.items }
    requires links { script.old.first_router + vec_len script.old.links ≡ vec_len seats.old }
    ensures played { AreAskedAsRead N.asks → IsTrue L.facts.tells → (since : Since L) (w : World) (handed : List ToLink) →
        MayStop (O.part opener.now) w → HasRouters script.old.first_router w →
        length script.old.delivered ≤ length w.sent →
        StandsFor (seat_since N.state N.steps L.facts since) (hosted K.tells L.facts since (K.noted out.old) seats.old.items) (network_view
        (λ m. N.Mail.letter m) network.old) handed w 0 →
        IfOk result (λ closed. HasPlayed (seat_since N.state N.steps L.facts since) (hosted K.tells L.facts since (K.noted out.new) seats.new.items)
        (network_view
        (λ m. N.Mail.letter m) network.new) handed w
        (meaning_of line) (script_view script.old) (script_view script.new) closed) }
    ensures stops { AreAskedAsRead N.asks → IsTrue L.facts.tells → (since : Since L) (w : World) (handed : List ToLink) →
        MayStop (O.part opener.now) w → HasRouters script.old.first_router w →
        length script.old.delivered ≤ length w.sent →
        StandsFor (seat_since N.state N.steps L.facts since) (hosted K.tells L.facts since (K.noted out.old) seats.old.items) (network_view
        (λ m. N.Mail.letter m) network.old) handed w 0 →
        IfErr result (StopsLine (seat_since N.state N.steps L.facts since) (hosted K.tells L.facts since (K.noted out.new) seats.new.items) w (meaning_of line)
        (script_view script.old)) }
    ensures len { vec_len seats.new ≡ vec_len seats.old }
    ensures router { script.new.first_router ≡ script.old.first_router }
    ensures links { vec_len script.new.links ≡ vec_len script.old.links }
    ensures open { result ≢ Err statuses.DiskFailed → AreOpen L.facts.is_open seats.new.items }
    ensures other { IfErr result IsOfLine }

    // Of the sink: notes alone.
    ensures held { K.held out.new ≡ K.held out.old }
    ensures sink { K.fault_count out.new ≡ K.fault_count out.old }
    ensures noted { IsTrue K.tells → HasMore (K.noted out.old) (K.noted out.new) }

    // Of the logs' disks.
    ensures disk_fault { HaveRisenWhere (result ≡ Err statuses.DiskFailed) (faults_of L.facts.fault_count seats.old.items)
        (faults_of L.facts.fault_count seats.new.items) }
    ensures places { places_of L.facts.place seats.new.items ≡ places_of L.facts.place seats.old.items }
{
    match line {
        Line::Client { router, bytes } => {
            play_client(alloc, router, &bytes, seats, out, network, script)
        }
        Line::Deliver { node, k } => {
            play_deliver(rt, alloc, node, k, seats, out, network, script)?;
            Ok(None)
        }
        Line::Moment { node, moment } => {
            play_moment(node, moment, seats, out, network, script)?;
            Ok(None)
        }
        Line::Settle => {
            play_settle(rt, alloc, None, seats, out, network, script)?;
            Ok(None)
        }
        Line::SettleExcept { kind } => {
            let except = Some(kind.as_slice());
            play_settle(rt, alloc, except, seats, out, network, script)?;
            Ok(None)
        }
        Line::Next { kind } => {
            play_next(rt, alloc, kind.as_slice(), seats, out, network, script)?;
            Ok(None)
        }
        Line::Restart { node } => play_restart(opener, alloc, node, seats, out, network, script),
        Line::RestartKept { node, k } => {
            play_kept(rt, opener, alloc, node, k, seats, out, network, script)
        }
        Line::RestartLost { node, k } => {
            play_lost(opener, alloc, node, k, seats, out, network, script)
        }
    }
}

/// The line that bytes encode is played. Returns the router whose link was closed, if one was.
///
/// # Errors
/// - `Status::BadInput` if the bytes say no line, or one that names what does not exist; nothing happened.
/// - `Status::DiskFailed` if a disk failed.
/// - `Status::OutOfMemory` if out of memory, or where a router is at its last step, or links or replies can't be counted.
pub fn play_line<
    R: Threads + Sync,
    N: Node<Request = Request>,
    L: Log,
    K: Witness<L::Of>,
    O: Opens<N, L>,
>(
    rt: &R,
    opener: &O,
    alloc: Global,
    line: &[u8],
    seats: &mut Vec<Seat<N, L>>,
    out: &mut K,
    network: &mut Network<N::Mail>,
    script: &mut Script,
) -> Result<Option<u64>, Status>
    requires open { AreOpen L.facts.is_open seats.old.items }
    requires links { script.old.first_router + vec_len script.old.links ≡ vec_len seats.old }
    ensures played { AreAskedAsRead N.asks → IsTrue L.facts.tells → (since : Since L) (w : World) (handed : List ToLink) →
        MayStop (O.part opener.now) w → HasRouters script.old.first_router w →
        length script.old.delivered ≤ length w.sent →
        StandsFor (seat_since N.state N.steps L.facts since) (hosted K.tells L.facts since (K.noted out.old) seats.old.items) (network_view
        (λ m. N.Mail.letter m) network.old) handed w 0 →
        IfOk result (λ closed. HasPlayedBytes (seat_since N.state N.steps L.facts since) (hosted K.tells L.facts since (K.noted out.new) seats.new.items)
        (network_view
        (λ m. N.Mail.letter m) network.new) handed w
        line.now (script_view script.old) (script_view script.new) closed) }
    ensures stops { AreAskedAsRead N.asks → IsTrue L.facts.tells → (since : Since L) (w : World) (handed : List ToLink) →
        MayStop (O.part opener.now) w → HasRouters script.old.first_router w →
        length script.old.delivered ≤ length w.sent →
        StandsFor (seat_since N.state N.steps L.facts since) (hosted K.tells L.facts since (K.noted out.old) seats.old.items) (network_view
        (λ m. N.Mail.letter m) network.old) handed w 0 →
        IfErr result (StopsBytes (seat_since N.state N.steps L.facts since) (hosted K.tells L.facts since (K.noted out.new) seats.new.items) w line.now
        (script_view script.old)) }
    ensures len { vec_len seats.new ≡ vec_len seats.old }
    ensures router { script.new.first_router ≡ script.old.first_router }
    ensures links { vec_len script.new.links ≡ vec_len script.old.links }
    ensures open { result ≢ Err statuses.DiskFailed → AreOpen L.facts.is_open seats.new.items }
    ensures other { IfErr result IsOfLine }

    // Of the sink: notes alone.
    ensures held { K.held out.new ≡ K.held out.old }
    ensures sink { K.fault_count out.new ≡ K.fault_count out.old }
    ensures noted { IsTrue K.tells → HasMore (K.noted out.old) (K.noted out.new) }

    // Of the logs' disks.
    ensures disk_fault { HaveRisenWhere (result ≡ Err statuses.DiskFailed) (faults_of L.facts.fault_count seats.old.items)
        (faults_of L.facts.fault_count seats.new.items) }
    ensures places { places_of L.facts.place seats.new.items ≡ places_of L.facts.place seats.old.items }
{
    match read_line(alloc, line) {
        Ok(said) => match play_said(rt, opener, alloc, said, seats, out, network, script) {
            Ok(closed) => Ok(closed),
            Err(status) => Err(status),
        },
        Err(LineFault::Refused) => Err(Status::BadInput),
        Err(LineFault::Memory) => Err(Status::OutOfMemory),
    }
}
