//! Lines in which a node stops, and is started again.

ghost use Rattle.std.specs.Prelude.{◌≡◌, ◌≢◌, ◌⊎◌, ℕ, ◌<◌, ◌≤◌, List, None, Option, Some, map, option_map, vec_len, IfErr, IfOk, Err, IsTrue};
ghost use Rattle.node_model.specs.World.{Event, World};
ghost use Rattle.node_traits.specs.declared.outputs.ToLink.{ToLink};
ghost use Rattle.driver_steps.specs.Crashes.{Since};
ghost use Rattle.driver_steps.specs.Restarts.{BeginToStop, MayGive, MayStop};
ghost use Rattle.driver_steps.specs.Seats.{AreOpen, HasMore, faults_of, places_of, seat_since};
ghost use Rattle.driver_steps.specs.Together.{hosted};
ghost use Rattle.driver_steps.specs.Worlds.{StandsFor, network_view};
ghost use Rattle.pipe_driver.specs.Counts.{HaveRisenWhere};
ghost use Rattle.pipe_driver.specs.declared.status.Status.TheVariants as statuses;
ghost use Rattle.script_lines.specs.Lines.{kept_line, lost_line, restart_line};
ghost use Rattle.sim_driver.specs.LineOutcomes.{HasPlayed, IsCutIn, IsOfLine, StopsLine};
ghost use Rattle.sim_driver.specs.Moves.{HasReturned, IsTakenAt};
ghost use Rattle.sim_driver.specs.Scripts.{place_from, script_view};

use crate::deliver::{copy_at, find};
use crate::script::Script;
use driver_steps::{Network, Opens, Seat, restart};
use node_traits::{Mail, Node};
use outside::log::Log;
use outside::witness::Witness;
use pipe_driver::Status;
use std::alloc::Global;
use std::collections::VecDeque;
use std::marker::Sync;
use std::thread::Threads;

/// The node at a place stops, in the step on the input if there is one, is started again and opened. Returns the router whose link was closed, if it is one
/// whose link was open.
///
/// # Errors
/// - `Status::DiskFailed` if a disk failed.
/// - `Status::OutOfMemory` if out of memory, or where links can't be counted.
fn play_stop<N: Node, L: Log, K: Witness<L::Of>, O: Opens<N, L>>(
    opener: &O,
    alloc: Global,
    at: usize,
    input: Option<N::Input>,
    seats: &mut Vec<Seat<N, L>>,
    out: &mut K,
    network: &mut Network<N::Mail>,
    script: &mut Script,
) -> Result<Option<u64>, Status>
    requires at { at < vec_len seats.old }
    requires open { AreOpen L.facts.is_open seats.old.items }
    ensures returned { IsTrue L.facts.tells → (since : Since L) (w : World) (handed : List ToLink) (e : Option Event) →
        MayStop (O.part opener.now) w → MayGive w at e (option_map (λ i. N.meaning i) input) →
        StandsFor (seat_since N.state N.steps L.facts since) (hosted K.tells L.facts since (K.noted out.old) seats.old.items)
        (network_view (λ m. N.Mail.letter m) network.old) handed w 0 →
        IfOk result (λ closed. HasReturned (seat_since N.state N.steps L.facts since) (hosted K.tells L.facts since (K.noted out.new) seats.new.items)
        (network_view (λ m. N.Mail.letter m) network.new) handed w at e (script_view script.old) (script_view script.new) closed) }
    ensures cut { IsTrue L.facts.tells → (since : Since L) (w : World) (handed : List ToLink) (e : Option Event) →
        MayStop (O.part opener.now) w → MayGive w at e (option_map (λ i. N.meaning i) input) →
        StandsFor (seat_since N.state N.steps L.facts since) (hosted K.tells L.facts since (K.noted out.old) seats.old.items)
        (network_view (λ m. N.Mail.letter m) network.old) handed w 0 →
        IfErr result (IsCutIn (seat_since N.state N.steps L.facts since) (hosted K.tells L.facts since (K.noted out.new) seats.new.items) w
        (BeginToStop at e)) }
    ensures len { vec_len seats.new ≡ vec_len seats.old }
    ensures router { script.new.first_router ≡ script.old.first_router }
    ensures links { vec_len script.new.links ≡ vec_len script.old.links }
    ensures open { result ≢ Err statuses.DiskFailed → AreOpen L.facts.is_open seats.new.items }
    ensures other { IfErr result (λ status. (status ≡ statuses.DiskFailed) ⊎ (status ≡ statuses.OutOfMemory)) }

    // Of the sink: notes alone.
    ensures held { K.held out.new ≡ K.held out.old }
    ensures sink { K.fault_count out.new ≡ K.fault_count out.old }
    ensures noted { IsTrue K.tells → HasMore (K.noted out.old) (K.noted out.new) }

    // Of the logs' disks.
    ensures disk_fault { HaveRisenWhere (result ≡ Err statuses.DiskFailed) (faults_of L.facts.fault_count seats.old.items)
        (faults_of L.facts.fault_count seats.new.items) }
    ensures places { places_of L.facts.place seats.new.items ≡ places_of L.facts.place seats.old.items }
{
    let closed = match script.close_at(alloc, at) {
        Ok(closed) => closed,
        Err(_) => return Err(Status::OutOfMemory),
    };
    match restart(opener, alloc, seats, out, network, at, input) {
        Ok(()) => Ok(closed),
        Err(e) => Err(Status::of(e)),
    }
}

/// A node stops between two steps, is started again on its journal, and is opened. Returns the router whose link was closed, if it is one whose link was open.
///
/// # Errors
/// - `Status::BadInput` if the node does not exist; nothing happened.
/// - `Status::DiskFailed` if a disk failed.
/// - `Status::OutOfMemory` if out of memory, or where links can't be counted.
pub fn play_restart<N: Node, L: Log, K: Witness<L::Of>, O: Opens<N, L>>(
    opener: &O,
    alloc: Global,
    node: u64,
    seats: &mut Vec<Seat<N, L>>,
    out: &mut K,
    network: &mut Network<N::Mail>,
    script: &mut Script,
) -> Result<Option<u64>, Status>
    requires open { AreOpen L.facts.is_open seats.old.items }
    ensures played { IsTrue L.facts.tells → (since : Since L) (w : World) (handed : List ToLink) → MayStop (O.part opener.now) w →
        StandsFor (seat_since N.state N.steps L.facts since) (hosted K.tells L.facts since (K.noted out.old) seats.old.items)
        (network_view (λ m. N.Mail.letter m) network.old) handed w 0 →
        IfOk result (λ closed. HasPlayed (seat_since N.state N.steps L.facts since) (hosted K.tells L.facts since (K.noted out.new) seats.new.items)
        (network_view (λ m. N.Mail.letter m) network.new) handed w (restart_line node) (script_view script.old) (script_view script.new) closed) }
    ensures stops { IsTrue L.facts.tells → (since : Since L) (w : World) (handed : List ToLink) → MayStop (O.part opener.now) w →
        StandsFor (seat_since N.state N.steps L.facts since) (hosted K.tells L.facts since (K.noted out.old) seats.old.items)
        (network_view (λ m. N.Mail.letter m) network.old) handed w 0 →
        IfErr result (StopsLine (seat_since N.state N.steps L.facts since) (hosted K.tells L.facts since (K.noted out.new) seats.new.items) w
        (restart_line node)
        (script_view script.old)) }
    ensures len { vec_len seats.new ≡ vec_len seats.old }
    ensures router { script.new.first_router ≡ script.old.first_router }
    ensures links { vec_len script.new.links ≡ vec_len script.old.links }
    ensures open { result ≢ Err statuses.DiskFailed → AreOpen L.facts.is_open seats.new.items }
    ensures other { IfErr result IsOfLine }

    // Of the sink: notes alone.
    ensures held { K.held out.new ≡ K.held out.old }
    ensures sink { K.fault_count out.new ≡ K.fault_count out.old }
    ensures noted { IsTrue K.tells → HasMore (K.noted out.old) (K.noted out.new) }

    // Of the logs' disks.
    ensures disk_fault { HaveRisenWhere (result ≡ Err statuses.DiskFailed) (faults_of L.facts.fault_count seats.old.items)
        (faults_of L.facts.fault_count seats.new.items) }
    ensures places { places_of L.facts.place seats.new.items ≡ places_of L.facts.place seats.old.items }
{
    if node >= seats.len() as u64 {
        return Err(Status::BadInput);
    }
    match play_stop(
        opener,
        alloc,
        node as usize,
        None,
        seats,
        out,
        network,
        script,
    ) {
        Ok(closed) => Ok(closed),
        Err(status) => Err(status),
    }
}

/// Returns the place of the k-th message, from 0, to a node among all that were sent, and marks it as delivered.
///
/// # Errors
/// - `Status::BadInput` if there is none; nothing is marked.
/// - `Status::OutOfMemory` if out of memory.
fn take_message<M: Mail>(
    sent: &VecDeque<M>,
    node: u64,
    k: u64,
    script: &mut Script,
) -> Result<usize, Status>
    ensures taken { IfOk result (λ at. IsTakenAt (map M.letter sent.now.items) node k (script_view script.old) (script_view script.new) at) }
    ensures none { result ≡ Err statuses.BadInput → place_from 0 node k (map M.letter sent.now.items) ≡ None }
    ensures found { result ≡ Err statuses.OutOfMemory → (at : ℕ) × (place_from 0 node k (map M.letter sent.now.items) ≡ Some at) }
    ensures either { IfErr result (λ status. (status ≡ statuses.BadInput) ⊎ (status ≡ statuses.OutOfMemory)) }
    ensures router { script.new.first_router ≡ script.old.first_router }
    ensures links { vec_len script.new.links ≡ vec_len script.old.links }
{
    let at = match find(sent, node, k) {
        Some(at) => at,
        None => return Err(Status::BadInput),
    };
    match script.delivered.mark(at) {
        Ok(()) => Ok(at),
        Err(_) => Err(Status::OutOfMemory),
    }
}

/// A node stops in the step that delivers the k-th message to it, from 0, is started again on its journal, and is opened. What that step sends and returns is
/// dropped. Where it can't take that step it stops before it. Returns the router whose link was closed, if it is one whose link was open.
///
/// # Errors
/// - `Status::BadInput` if the node or the message does not exist; nothing happened.
/// - `Status::DiskFailed` if a disk failed.
/// - `Status::OutOfMemory` if out of memory, or where links can't be counted.
pub fn play_kept<R: Threads + Sync, N: Node, L: Log, K: Witness<L::Of>, O: Opens<N, L>>(
    rt: &R,
    opener: &O,
    alloc: Global,
    node: u64,
    k: u64,
    seats: &mut Vec<Seat<N, L>>,
    out: &mut K,
    network: &mut Network<N::Mail>,
    script: &mut Script,
) -> Result<Option<u64>, Status>
    requires open { AreOpen L.facts.is_open seats.old.items }
    ensures played { IsTrue L.facts.tells → (since : Since L) (w : World) (handed : List ToLink) → MayStop (O.part opener.now) w →
        StandsFor (seat_since N.state N.steps L.facts since) (hosted K.tells L.facts since (K.noted out.old) seats.old.items)
        (network_view (λ m. N.Mail.letter m) network.old) handed w 0 →
        IfOk result (λ closed. HasPlayed (seat_since N.state N.steps L.facts since) (hosted K.tells L.facts since (K.noted out.new) seats.new.items)
        (network_view (λ m. N.Mail.letter m) network.new) handed w (kept_line node k) (script_view script.old) (script_view script.new) closed) }
    ensures stops { IsTrue L.facts.tells → (since : Since L) (w : World) (handed : List ToLink) → MayStop (O.part opener.now) w →
        StandsFor (seat_since N.state N.steps L.facts since) (hosted K.tells L.facts since (K.noted out.old) seats.old.items)
        (network_view (λ m. N.Mail.letter m) network.old) handed w 0 →
        IfErr result (StopsLine (seat_since N.state N.steps L.facts since) (hosted K.tells L.facts since (K.noted out.new) seats.new.items) w (kept_line node k)
        (script_view script.old)) }
    ensures len { vec_len seats.new ≡ vec_len seats.old }
    ensures router { script.new.first_router ≡ script.old.first_router }
    ensures links { vec_len script.new.links ≡ vec_len script.old.links }
    ensures open { result ≢ Err statuses.DiskFailed → AreOpen L.facts.is_open seats.new.items }
    ensures other { IfErr result IsOfLine }

    // Of the sink: notes alone.
    ensures held { K.held out.new ≡ K.held out.old }
    ensures sink { K.fault_count out.new ≡ K.fault_count out.old }
    ensures noted { IsTrue K.tells → HasMore (K.noted out.old) (K.noted out.new) }

    // Of the logs' disks.
    ensures disk_fault { HaveRisenWhere (result ≡ Err statuses.DiskFailed) (faults_of L.facts.fault_count seats.old.items)
        (faults_of L.facts.fault_count seats.new.items) }
    ensures places { places_of L.facts.place seats.new.items ≡ places_of L.facts.place seats.old.items }
{
    if node >= seats.len() as u64 {
        return Err(Status::BadInput);
    }
    let at = match take_message(&network.waiting, node, k, script) {
        Ok(at) => at,
        Err(status) => return Err(status),
    };
    let message = match copy_at(alloc, &network.waiting, at) {
        Ok(message) => message,
        Err(_) => return Err(Status::OutOfMemory),
    };
    let input = N::prepare(rt, alloc, message);
    match play_stop(
        opener,
        alloc,
        node as usize,
        Some(input),
        seats,
        out,
        network,
        script,
    ) {
        Ok(closed) => Ok(closed),
        Err(status) => Err(status),
    }
}

/// A node stops before the step that delivers the k-th message to it, from 0, which is lost; it is started again on its journal, and is opened. Returns the
/// router whose link was closed, if it is one whose link was open.
///
/// # Errors
/// As `play_kept` has them.
pub fn play_lost<N: Node, L: Log, K: Witness<L::Of>, O: Opens<N, L>>(
    opener: &O,
    alloc: Global,
    node: u64,
    k: u64,
    seats: &mut Vec<Seat<N, L>>,
    out: &mut K,
    network: &mut Network<N::Mail>,
    script: &mut Script,
) -> Result<Option<u64>, Status>
    requires open { AreOpen L.facts.is_open seats.old.items }
    ensures played { IsTrue L.facts.tells → (since : Since L) (w : World) (handed : List ToLink) → MayStop (O.part opener.now) w →
        StandsFor (seat_since N.state N.steps L.facts since) (hosted K.tells L.facts since (K.noted out.old) seats.old.items)
        (network_view (λ m. N.Mail.letter m) network.old) handed w 0 →
        IfOk result (λ closed. HasPlayed (seat_since N.state N.steps L.facts since) (hosted K.tells L.facts since (K.noted out.new) seats.new.items)
        (network_view (λ m. N.Mail.letter m) network.new) handed w (lost_line node k) (script_view script.old) (script_view script.new) closed) }
    ensures stops { IsTrue L.facts.tells → (since : Since L) (w : World) (handed : List ToLink) → MayStop (O.part opener.now) w →
        StandsFor (seat_since N.state N.steps L.facts since) (hosted K.tells L.facts since (K.noted out.old) seats.old.items)
        (network_view (λ m. N.Mail.letter m) network.old) handed w 0 →
        IfErr result (StopsLine (seat_since N.state N.steps L.facts since) (hosted K.tells L.facts since (K.noted out.new) seats.new.items) w (lost_line node k)
        (script_view script.old)) }
    ensures len { vec_len seats.new ≡ vec_len seats.old }
    ensures router { script.new.first_router ≡ script.old.first_router }
    ensures links { vec_len script.new.links ≡ vec_len script.old.links }
    ensures open { result ≢ Err statuses.DiskFailed → AreOpen L.facts.is_open seats.new.items }
    ensures other { IfErr result IsOfLine }

    // Of the sink: notes alone.
    ensures held { K.held out.new ≡ K.held out.old }
    ensures sink { K.fault_count out.new ≡ K.fault_count out.old }
    ensures noted { IsTrue K.tells → HasMore (K.noted out.old) (K.noted out.new) }

    // Of the logs' disks.
    ensures disk_fault { HaveRisenWhere (result ≡ Err statuses.DiskFailed) (faults_of L.facts.fault_count seats.old.items)
        (faults_of L.facts.fault_count seats.new.items) }
    ensures places { places_of L.facts.place seats.new.items ≡ places_of L.facts.place seats.old.items }
{
    if node >= seats.len() as u64 {
        return Err(Status::BadInput);
    }
    match take_message(&network.waiting, node, k, script) {
        Ok(_) => {}
        Err(status) => return Err(status),
    }
    match play_stop(
        opener,
        alloc,
        node as usize,
        None,
        seats,
        out,
        network,
        script,
    ) {
        Ok(closed) => Ok(closed),
        Err(status) => Err(status),
    }
}
