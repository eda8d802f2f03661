//! Requests that come on a link.

ghost use Rattle.std.specs.Prelude.{◌≡◌, ◌≢◌, ◌⊎◌, ◌<◌, List, None, false, vec_len, IfErr, IfOk, Err, IsTrue};
ghost use Rattle.node_model.specs.World.{IsRouter, World};
ghost use Rattle.node_traits.specs.declared.outputs.ToLink.{ToLink};
ghost use Rattle.driver_steps.specs.Crashes.{Since};
ghost use Rattle.driver_steps.specs.Seats.{AreOpen, HasMore, faults_of, places_of, seat_since};
ghost use Rattle.driver_steps.specs.Together.{hosted};
ghost use Rattle.driver_steps.specs.Worlds.{StandsFor, network_view};
ghost use Rattle.pipe_driver.specs.Counts.{HaveRisenWhere};
ghost use Rattle.pipe_driver.specs.Progress.{AreAskedAsRead};
ghost use Rattle.pipe_driver.specs.declared.status.Status.TheVariants as statuses;
ghost use Rattle.sim_driver.specs.Moves.{HasAsked, IsCut, IsFirstAsked};

use driver_steps::{Network, Seat, ask};
use node_traits::Node;
use opmsg_frames::{FrameFault, Framer, Request};
use outside::log::Log;
use outside::witness::Witness;
use pipe_driver::{Status, next_number, replied_after};

/// So many replies are not counted on one link.
const MOST_REPLIES: u64 = 1 << 62;

/// The result of the bytes on a link: how many replies its requests get, and whether what comes after them is no request.
#[derive(Clone, Copy, Debug, PartialEq, Eq)]
pub struct Asked {
    pub replied: u64,
    pub malformed: bool,
}

/// The whole requests that the framer returns are passed to the router at a place, in order, on a link whose requests got so many replies.
///
/// # Errors
/// - `Status::DiskFailed` if a disk failed.
/// - `Status::OutOfMemory` if out of memory, or where the router is at its last step, or 2^62 requests of the link got a reply.
pub fn ask_all<N: Node<Request = Request>, L: Log, K: Witness<L::Of>>(
    framer: &mut Framer,
    seats: &mut Vec<Seat<N, L>>,
    out: &mut K,
    network: &mut Network<N::Mail>,
    at: usize,
    link: u32,
    replied: u64,
) -> Result<Asked, Status>
    requires at { at < vec_len seats.old }
    requires open { AreOpen L.facts.is_open seats.old.items }
    requires fault { framer.old.fault ≡ None }
    ensures asked { AreAskedAsRead N.asks → (since : Since L) (w : World) (handed : List ToLink) → IsRouter w.nodes at →
        StandsFor (seat_since N.state N.steps L.facts since) (hosted K.tells L.facts since (K.noted out.old) seats.old.items) (network_view
        (λ m. N.Mail.letter m) network.old) handed w 0 →
        IfOk result (λ asked. HasAsked (seat_since N.state N.steps L.facts since) (hosted K.tells L.facts since (K.noted out.new) seats.new.items) (network_view
        (λ m. N.Mail.letter m) network.new) handed w
        at link replied framer.old.bytes framer.new.bytes asked.replied asked.malformed) }
    ensures cut { AreAskedAsRead N.asks → (since : Since L) (w : World) (handed : List ToLink) → IsRouter w.nodes at →
        StandsFor (seat_since N.state N.steps L.facts since) (hosted K.tells L.facts since (K.noted out.old) seats.old.items) (network_view
        (λ m. N.Mail.letter m) network.old) handed w 0 →
        IfErr result (λ status. IsCut (seat_since N.state N.steps L.facts since) (hosted K.tells L.facts since (K.noted out.new) seats.new.items) w
        (IsFirstAsked at link replied framer.old.bytes) status) }
    ensures fault { IfOk result (λ asked. asked.malformed ≡ false → framer.new.fault ≡ None) }
    ensures len { vec_len seats.new ≡ vec_len seats.old }
    ensures open { result ≢ Err statuses.DiskFailed → AreOpen L.facts.is_open seats.new.items }

    // Of the sink: notes alone.
    ensures held { K.held out.new ≡ K.held out.old }
    ensures sink { K.fault_count out.new ≡ K.fault_count out.old }
    ensures noted { IsTrue K.tells → HasMore (K.noted out.old) (K.noted out.new) }

    // Of the logs' disks.
    ensures other { IfErr result (λ status. (status ≡ statuses.DiskFailed) ⊎ (status ≡ statuses.OutOfMemory)) }
    ensures disk_fault { HaveRisenWhere (result ≡ Err statuses.DiskFailed) (faults_of L.facts.fault_count seats.old.items)
        (faults_of L.facts.fault_count seats.new.items) }
    ensures places { places_of L.facts.place seats.new.items ≡ places_of L.facts.place seats.old.items }
{
    let mut replied = replied;
    'requests: loop {
        let request = match framer.next() {
            Ok(Some(request)) => request,
            Ok(None) => return Ok(Asked {
                replied,
                malformed: false,
            }),
            Err(FrameFault::Malformed { .. }) => return Ok(Asked {
                replied,
                malformed: true,
            }),
            Err(FrameFault::Memory) => return Err(Status::OutOfMemory),
        };
        if replied >= MOST_REPLIES {
            return Err(Status::OutOfMemory);
        }
        let more = request.more;
        let number = next_number(replied);
        match ask(seats, out, network, at, link, number, request) {
            Ok(()) => replied = replied_after(more, replied),
            Err(e) => return Err(Status::of(e)),
        }
    }
}
