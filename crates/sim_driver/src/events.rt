//! Requests and moments of a line.

ghost use Rattle.std.specs.Prelude.{◌≡◌, ◌≢◌, ◌+◌, ◌≤◌, List, None, Some, length, vec_len, IfErr, IfOk, OnOk, Err, IsTrue};
ghost use Rattle.node_model.specs.World.{World};
ghost use Rattle.node_traits.specs.declared.outputs.ToLink.{ToLink};
ghost use Rattle.driver_steps.specs.Crashes.{Since};
ghost use Rattle.driver_steps.specs.Seats.{AreOpen, HasMore, faults_of, places_of, seat_since};
ghost use Rattle.driver_steps.specs.Together.{hosted};
ghost use Rattle.driver_steps.specs.Worlds.{StandsFor, network_view};
ghost use Rattle.pipe_driver.specs.Counts.{HaveRisenWhere};
ghost use Rattle.pipe_driver.specs.Progress.{AreAskedAsRead};
ghost use Rattle.pipe_driver.specs.declared.status.Status.TheVariants as statuses;
ghost use Rattle.script_lines.specs.Lines.{client_line, moment_line};
ghost use Rattle.sim_driver.specs.LineOutcomes.{HasPlayedWhole, IsOfLine, StopsWhole};
ghost use Rattle.sim_driver.specs.Moves.{HasRouters};
ghost use Rattle.sim_driver.specs.Scripts.{script_view};

use crate::script::Script;
use driver_steps::{Network, Seat, give_moment};
use node_traits::Node;
use opmsg_frames::Request;
use outside::log::Log;
use outside::witness::Witness;
use pipe_driver::Status;
use std::alloc::Global;

/// Bytes come to a router's link. Returns the router if the link was closed, since what comes after its requests is none.
///
/// # Errors
/// - `Status::BadInput` if the router does not exist; nothing happened.
/// - `Status::DiskFailed` if a disk failed.
/// - `Status::OutOfMemory` if out of memory, or where the router is at its last step, or links or replies can't be counted.
pub fn play_client<N: Node<Request = Request>, L: Log, K: Witness<L::Of>>(
    alloc: Global,
    router: u64,
    bytes: &[u8],
    seats: &mut Vec<Seat<N, L>>,
    out: &mut K,
    network: &mut Network<N::Mail>,
    script: &mut Script,
) -> Result<Option<u64>, Status>
    requires open { AreOpen L.facts.is_open seats.old.items }
    requires links { script.old.first_router + vec_len script.old.links ≡ vec_len seats.old }
    ensures played { AreAskedAsRead N.asks → (since : Since L) (w : World) (handed : List ToLink) → HasRouters script.old.first_router w →
        StandsFor (seat_since N.state N.steps L.facts since) (hosted K.tells L.facts since (K.noted out.old) seats.old.items) (network_view
        (λ m. N.Mail.letter m) network.old) handed w 0 →
        IfOk result (λ closed. HasPlayedWhole (seat_since N.state N.steps L.facts since) (hosted K.tells L.facts since (K.noted out.new) seats.new.items)
        (network_view
        (λ m. N.Mail.letter m) network.new) handed w
        (client_line router bytes.now) (script_view script.old) (script_view script.new) closed) }
    ensures stops { AreAskedAsRead N.asks → (since : Since L) (w : World) (handed : List ToLink) → HasRouters script.old.first_router w →
        StandsFor (seat_since N.state N.steps L.facts since) (hosted K.tells L.facts since (K.noted out.old) seats.old.items) (network_view
        (λ m. N.Mail.letter m) network.old) handed w 0 →
        IfErr result (StopsWhole (seat_since N.state N.steps L.facts since) (hosted K.tells L.facts since (K.noted out.new) seats.new.items) w
        (client_line router bytes.now)
        (script_view script.old)) }
    ensures len { vec_len seats.new ≡ vec_len seats.old }
    ensures router { script.new.first_router ≡ script.old.first_router }
    ensures links { vec_len script.new.links ≡ vec_len script.old.links }
    ensures open { result ≢ Err statuses.DiskFailed → AreOpen L.facts.is_open seats.new.items }
    ensures other { IfErr result IsOfLine }

    // Of the sink: notes alone.
    ensures held { K.held out.new ≡ K.held out.old }
    ensures sink { K.fault_count out.new ≡ K.fault_count out.old }
    ensures noted { IsTrue K.tells → HasMore (K.noted out.old) (K.noted out.new) }

    // Of the logs' disks.
    ensures disk_fault { HaveRisenWhere (result ≡ Err statuses.DiskFailed) (faults_of L.facts.fault_count seats.old.items)
        (faults_of L.facts.fault_count seats.new.items) }
    ensures places { places_of L.facts.place seats.new.items ≡ places_of L.facts.place seats.old.items }
{
    if router >= script.links.len() as u64 {
        return Err(Status::BadInput);
    }
    let place = router as usize;
    let at = script.first_router + place;
    let link = &mut script.links[place];
    let malformed = match link.take(alloc, at, bytes, seats, out, network) {
        Ok(malformed) => malformed,
        Err(status) => return Err(status),
    };
    if !malformed {
        return Ok(None);
    }
    match script.close(alloc, place) {
        Ok(()) => Ok(Some(router)),
        Err(_) => Err(Status::OutOfMemory),
    }
}

/// A node gets a moment, in milliseconds since 1970.
///
/// # Errors
/// - `Status::BadInput` if the node does not exist; nothing happened.
/// - `Status::DiskFailed` if a disk failed.
/// - `Status::OutOfMemory` if out of memory.
pub fn play_moment<N: Node, L: Log, K: Witness<L::Of>>(
    node: u64,
    moment: u64,
    seats: &mut Vec<Seat<N, L>>,
    out: &mut K,
    network: &mut Network<N::Mail>,
    script: &Script,
) -> Result<(), Status>
    requires open { AreOpen L.facts.is_open seats.old.items }
    ensures played { (since : Since L) (w : World) (handed : List ToLink) →
        StandsFor (seat_since N.state N.steps L.facts since) (hosted K.tells L.facts since (K.noted out.old) seats.old.items) (network_view
        (λ m. N.Mail.letter m) network.old) handed w 0 →
        OnOk result (HasPlayedWhole (seat_since N.state N.steps L.facts since) (hosted K.tells L.facts since (K.noted out.new) seats.new.items) (network_view
        (λ m. N.Mail.letter m) network.new) handed w
        (moment_line node moment) (script_view script.now) (script_view script.now) None) }
    ensures stops { (since : Since L) (w : World) (handed : List ToLink) →
        StandsFor (seat_since N.state N.steps L.facts since) (hosted K.tells L.facts since (K.noted out.old) seats.old.items) (network_view
        (λ m. N.Mail.letter m) network.old) handed w 0 →
        IfErr result (StopsWhole (seat_since N.state N.steps L.facts since) (hosted K.tells L.facts since (K.noted out.new) seats.new.items) w
        (moment_line node moment)
        (script_view script.now)) }
    ensures len { vec_len seats.new ≡ vec_len seats.old }
    ensures open { result ≢ Err statuses.DiskFailed → AreOpen L.facts.is_open seats.new.items }
    ensures other { IfErr result IsOfLine }

    // Of the sink: notes alone.
    ensures held { K.held out.new ≡ K.held out.old }
    ensures sink { K.fault_count out.new ≡ K.fault_count out.old }
    ensures noted { IsTrue K.tells → HasMore (K.noted out.old) (K.noted out.new) }

    // Of the logs' disks.
    ensures disk_fault { HaveRisenWhere (result ≡ Err statuses.DiskFailed) (faults_of L.facts.fault_count seats.old.items)
        (faults_of L.facts.fault_count seats.new.items) }
    ensures places { places_of L.facts.place seats.new.items ≡ places_of L.facts.place seats.old.items }
{
    if node >= seats.len() as u64 {
        return Err(Status::BadInput);
    }
    match give_moment(seats, out, network, node as usize, moment) {
        Ok(()) => Ok(()),
        Err(e) => Err(Status::of(e)),
    }
}
