//! Deliveries of a line.

ghost use Rattle.std.specs.Prelude.{◌≡◌, ◌≢◌, ◌≤◌, List, None, length, option_map, vec_len, IfErr, IfOk, OnOk, Err, IsTrue};
ghost use Rattle.node_model.specs.World.{World};
ghost use Rattle.node_traits.specs.declared.outputs.ToLink.{ToLink};
ghost use Rattle.driver_steps.specs.Crashes.{Since};
ghost use Rattle.driver_steps.specs.Seats.{AreOpen, HasMore, faults_of, places_of, seat_since};
ghost use Rattle.driver_steps.specs.Together.{hosted};
ghost use Rattle.driver_steps.specs.Worlds.{StandsFor, network_view};
ghost use Rattle.pipe_driver.specs.Counts.{HaveRisenWhere};
ghost use Rattle.pipe_driver.specs.declared.status.Status.TheVariants as statuses;
ghost use Rattle.script_lines.specs.Lines.{deliver_line, next_line, settle_line};
ghost use Rattle.sim_driver.specs.LineOutcomes.{HasPlayedWhole, IsOfLine, StopsWhole};
ghost use Rattle.sim_driver.specs.Scripts.{script_view};

use crate::deliver::{deliver_and_mark, find, find_next, settle_but};
use crate::script::Script;
use driver_steps::{Network, Seat};
use node_traits::Node;
use outside::log::Log;
use outside::witness::Witness;
use pipe_driver::Status;
use std::alloc::Global;
use std::marker::Sync;
use std::thread::Threads;

/// The k-th message, from 0, that was ever sent to a node is delivered, also where it was delivered before.
///
/// # Errors
/// - `Status::BadInput` if the node or the message does not exist; nothing happened.
/// - `Status::DiskFailed` if a disk failed.
/// - `Status::OutOfMemory` if out of memory.
pub fn play_deliver<R: Threads + Sync, N: Node, L: Log, K: Witness<L::Of>>(
    rt: &R,
    alloc: Global,
    node: u64,
    k: u64,
    seats: &mut Vec<Seat<N, L>>,
    out: &mut K,
    network: &mut Network<N::Mail>,
    script: &mut Script,
) -> Result<(), Status>
    requires open { AreOpen L.facts.is_open seats.old.items }
    ensures played { (since : Since L) (w : World) (handed : List ToLink) →
        StandsFor (seat_since N.state N.steps L.facts since) (hosted K.tells L.facts since (K.noted out.old) seats.old.items) (network_view
        (λ m. N.Mail.letter m) network.old) handed w 0 →
        OnOk result (HasPlayedWhole (seat_since N.state N.steps L.facts since) (hosted K.tells L.facts since (K.noted out.new) seats.new.items) (network_view
        (λ m. N.Mail.letter m) network.new) handed w
        (deliver_line node k) (script_view script.old) (script_view script.new) None) }
    ensures stops { (since : Since L) (w : World) (handed : List ToLink) →
        StandsFor (seat_since N.state N.steps L.facts since) (hosted K.tells L.facts since (K.noted out.old) seats.old.items) (network_view
        (λ m. N.Mail.letter m) network.old) handed w 0 →
        IfErr result (StopsWhole (seat_since N.state N.steps L.facts since) (hosted K.tells L.facts since (K.noted out.new) seats.new.items) w
        (deliver_line node k)
        (script_view script.old)) }
    ensures len { vec_len seats.new ≡ vec_len seats.old }
    ensures router { script.new.first_router ≡ script.old.first_router }
    ensures links { vec_len script.new.links ≡ vec_len script.old.links }
    ensures open { result ≢ Err statuses.DiskFailed → AreOpen L.facts.is_open seats.new.items }
    ensures other { IfErr result IsOfLine }

    // Of the sink: notes alone.
    ensures held { K.held out.new ≡ K.held out.old }
    ensures sink { K.fault_count out.new ≡ K.fault_count out.old }
    ensures noted { IsTrue K.tells → HasMore (K.noted out.old) (K.noted out.new) }

    // Of the logs' disks.
    ensures disk_fault { HaveRisenWhere (result ≡ Err statuses.DiskFailed) (faults_of L.facts.fault_count seats.old.items)
        (faults_of L.facts.fault_count seats.new.items) }
    ensures places { places_of L.facts.place seats.new.items ≡ places_of L.facts.place seats.old.items }
{
    if node >= seats.len() as u64 {
        return Err(Status::BadInput);
    }
    let at = match find(&network.waiting, node, k) {
        Some(at) => at,
        None => return Err(Status::BadInput),
    };
    match deliver_and_mark(rt, alloc, seats, out, network, at, &mut script.delivered) {
        Ok(()) => Ok(()),
        Err(status) => Err(status),
    }
}

/// What was not delivered is delivered, in order of sending, until nothing is left but messages of the kind that is excepted, if there is one.
///
/// # Errors
/// - `Status::DiskFailed` if a disk failed.
/// - `Status::OutOfMemory` if out of memory.
pub fn play_settle<R: Threads + Sync, N: Node, L: Log, K: Witness<L::Of>>(
    rt: &R,
    alloc: Global,
    except: Option<&[u8]>,
    seats: &mut Vec<Seat<N, L>>,
    out: &mut K,
    network: &mut Network<N::Mail>,
    script: &mut Script,
) -> Result<(), Status>
    requires open { AreOpen L.facts.is_open seats.old.items }
    ensures played { (since : Since L) (w : World) (handed : List ToLink) →
        length script.old.delivered ≤ length w.sent →
        StandsFor (seat_since N.state N.steps L.facts since) (hosted K.tells L.facts since (K.noted out.old) seats.old.items) (network_view
        (λ m. N.Mail.letter m) network.old) handed w 0 →
        OnOk result (HasPlayedWhole (seat_since N.state N.steps L.facts since) (hosted K.tells L.facts since (K.noted out.new) seats.new.items) (network_view
        (λ m. N.Mail.letter m) network.new) handed w
        (settle_line (option_map (λ k. k.now) except.entry)) (script_view script.old) (script_view script.new) None) }
    ensures stops { (since : Since L) (w : World) (handed : List ToLink) →
        length script.old.delivered ≤ length w.sent →
        StandsFor (seat_since N.state N.steps L.facts since) (hosted K.tells L.facts since (K.noted out.old) seats.old.items) (network_view
        (λ m. N.Mail.letter m) network.old) handed w 0 →
        IfErr result (StopsWhole (seat_since N.state N.steps L.facts since) (hosted K.tells L.facts since (K.noted out.new) seats.new.items) w
        (settle_line (option_map (λ k. k.now) except.entry))
        (script_view script.old)) }
    ensures len { vec_len seats.new ≡ vec_len seats.old }
    ensures router { script.new.first_router ≡ script.old.first_router }
    ensures links { vec_len script.new.links ≡ vec_len script.old.links }
    ensures open { result ≢ Err statuses.DiskFailed → AreOpen L.facts.is_open seats.new.items }
    ensures other { IfErr result IsOfLine }

    // Of the sink: notes alone.
    ensures held { K.held out.new ≡ K.held out.old }
    ensures sink { K.fault_count out.new ≡ K.fault_count out.old }
    ensures noted { IsTrue K.tells → HasMore (K.noted out.old) (K.noted out.new) }

    // Of the logs' disks.
    ensures disk_fault { HaveRisenWhere (result ≡ Err statuses.DiskFailed) (faults_of L.facts.fault_count seats.old.items)
        (faults_of L.facts.fault_count seats.new.items) }
    ensures places { places_of L.facts.place seats.new.items ≡ places_of L.facts.place seats.old.items }
{
    let first = script.delivered.next();
    match settle_but(
        rt,
        alloc,
        seats,
        out,
        network,
        first,
        except,
        &mut script.delivered,
    ) {
        Ok(()) => Ok(()),
        Err(status) => Err(status),
    }
}

/// The earliest message of the kind that was not delivered is delivered.
///
/// # Errors
/// - `Status::BadInput` if there is none; nothing happened.
/// - `Status::DiskFailed` if a disk failed.
/// - `Status::OutOfMemory` if out of memory.
pub fn play_next<R: Threads + Sync, N: Node, L: Log, K: Witness<L::Of>>(
    rt: &R,
    alloc: Global,
    kind: &[u8],
    seats: &mut Vec<Seat<N, L>>,
    out: &mut K,
    network: &mut Network<N::Mail>,
    script: &mut Script,
) -> Result<(), Status>
    requires open { AreOpen L.facts.is_open seats.old.items }
    ensures played { (since : Since L) (w : World) (handed : List ToLink) →
        StandsFor (seat_since N.state N.steps L.facts since) (hosted K.tells L.facts since (K.noted out.old) seats.old.items) (network_view
        (λ m. N.Mail.letter m) network.old) handed w 0 →
        OnOk result (HasPlayedWhole (seat_since N.state N.steps L.facts since) (hosted K.tells L.facts since (K.noted out.new) seats.new.items) (network_view
        (λ m. N.Mail.letter m) network.new) handed w
        (next_line kind.now) (script_view script.old) (script_view script.new) None) }
    ensures stops { (since : Since L) (w : World) (handed : List ToLink) →
        StandsFor (seat_since N.state N.steps L.facts since) (hosted K.tells L.facts since (K.noted out.old) seats.old.items) (network_view
        (λ m. N.Mail.letter m) network.old) handed w 0 →
        IfErr result (StopsWhole (seat_since N.state N.steps L.facts since) (hosted K.tells L.facts since (K.noted out.new) seats.new.items) w
        (next_line kind.now)
        (script_view script.old)) }
    ensures len { vec_len seats.new ≡ vec_len seats.old }
    ensures router { script.new.first_router ≡ script.old.first_router }
    ensures links { vec_len script.new.links ≡ vec_len script.old.links }
    ensures open { result ≢ Err statuses.DiskFailed → AreOpen L.facts.is_open seats.new.items }
    ensures other { IfErr result IsOfLine }

    // Of the sink: notes alone.
    ensures held { K.held out.new ≡ K.held out.old }
    ensures sink { K.fault_count out.new ≡ K.fault_count out.old }
    ensures noted { IsTrue K.tells → HasMore (K.noted out.old) (K.noted out.new) }

    // Of the logs' disks.
    ensures disk_fault { HaveRisenWhere (result ≡ Err statuses.DiskFailed) (faults_of L.facts.fault_count seats.old.items)
        (faults_of L.facts.fault_count seats.new.items) }
    ensures places { places_of L.facts.place seats.new.items ≡ places_of L.facts.place seats.old.items }
{
    let first = script.delivered.next();
    let at = match find_next(&network.waiting, first, kind, &script.delivered) {
        Some(at) => at,
        None => return Err(Status::BadInput),
    };
    match deliver_and_mark(rt, alloc, seats, out, network, at, &mut script.delivered) {
        Ok(()) => Ok(()),
        Err(status) => Err(status),
    }
}
