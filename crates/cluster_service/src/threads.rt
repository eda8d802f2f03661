//! Connections to a port, by nodes on threads, each with its journal on a disk.

ghost use Rattle.std.specs.Prelude.{◌≡◌, ◌≢◌, ◌+◌, ◌<◌, ◌≤◌, ◌^◌, [], List, map, IsTrue, vec_capacity, vec_len};
ghost use Rattle.std.specs.List.{AllByRecursion};
ghost use Rattle.outside.specs.Causes.{Rose};
ghost use Rattle.outside.specs.Devices.{NoneFell};
ghost use Rattle.journal_frames.specs.Files.{Stands};
ghost use Rattle.journal_frames.specs.Views.{journal_facts};
ghost use Rattle.node_model.specs.World.{World, journal_at};
ghost use Rattle.node_traits.specs.Effects.{spellings};
ghost use Rattle.driver_steps.specs.Seats.{AreHeld, seat_view};
ghost use Rattle.conn_server.specs.Conversations.{link_facts};
ghost use Rattle.sim_driver.specs.Moves.{MayPlay};
ghost use Rattle.cluster_service.specs.Counts.{OneRoseWhere};
ghost use Rattle.cluster_service.specs.Crashes.{LeaveSuch, LeaveTheWay};
ghost use Rattle.cluster_service.specs.OpenJournals.{AreAllOpen, AreOpenWith, IsDurable, disks_of};
ghost use Rattle.cluster_service.specs.Servers.{AreKeptFrom, AreOfSomeWorld, AreSeatedSomewhere, IsServerEnd, LeaveUpTo, ServerHeadline};
ghost use Rattle.cluster_service.specs.declared.status.Status.TheVariants as statuses;

use crate::arguments::Server;
use crate::journals::close_all;
use crate::seats::{put_in, take_disks};
use crate::status::Status;
use conn_server::{Served, Unserved, serve};
use driver_steps::Seat;
use journal_frames::Journal;
use node_cell::Placed;
use node_traits::Node;
use outside::clock::Clock;
use outside::disk::Disk;
use outside::exchange::Spoken;
use outside::streams::Acceptor;
use outside::witness::DiskLink;
use std::alloc::Global;
use std::sync::Wait;
use std::thread::Threads;
use wire_nodes::WireRequests;

/// How a server ended: its status, the disks, and what was said on each link.
#[derive(Drop)]
pub struct ServerEnd<D: Drop, S: Drop> {
    pub status: Status,
    pub disks: Vec<D>,
    pub links: Vec<Spoken<S>>,
}

/// Returns the end of a call in which no link was accepted.
pub fn not_served<D: Drop, S: Drop>(alloc: Global, status: Status, disks: Vec<D>) -> ServerEnd<D, S>
    ensures status { result.status ≡ status }
    ensures disks { result.disks ≡ disks }
    ensures links { result.links.items ≡ [] }
{
    ServerEnd {
        status,
        disks,
        links: Vec::new(alloc),
    }
}

/// Returns the disk of a node's journal.
fn placed_disk<N: Drop, D: Disk>(placed: Placed<N, Journal<D>>) -> D
    ensures disk { result ≡ placed.seat.log.disk }
    ensures durable { IsTrue placed.seat.log.is_open → IsTrue D.tells → IsDurable D.content D.may_leave result }
{
    let Placed { seat, .. } = placed;
    let Seat { log, .. } = seat;
    log.into_disk()
}

/// Moves the disks of the journals of nodes, in order of their numbers, into an empty vector that has room for them.
fn take_placed<N: Drop, D: Disk>(nodes: Vec<Placed<N, Journal<D>>>, back: &mut Vec<D>)
    requires empty { back.old.items ≡ [] }
    requires room { vec_len nodes ≤ vec_capacity back.old }
    ensures disks { back.new.items ≡ map (λ p. p.seat.log.disk) nodes.items }
    ensures durable { IsTrue D.tells → AllByRecursion (λ p. IsTrue p.seat.log.is_open) nodes.items → AllByRecursion (IsDurable D.content D.may_leave) back.new.items }
{
    for placed in nodes {
        back.push_reserved(placed_disk(placed));
    }
}

/// Serves so many connections to a port, on which the acceptor listens, to their ends, by nodes with their journals, which are open. `back` is an empty vector
/// with room for the disks.
fn serve_seats<N, D, Q, A, C, R>(
    rt: &R,
    alloc: Global,
    server: Server,
    acceptor: &mut A,
    seats: Vec<Seat<N, Journal<D>>>,
    back: Vec<D>,
    clock: &C,
) -> ServerEnd<D, A::Link>
where
    N: Node + Send,
    N::Input: Send,
    N::Mail: Send,
    N::Request: Send,
    D: Disk + Send,
    Q: WireRequests<N> + Send,
    A: Acceptor,
    A::Link: DiskLink<D> + Send,
    C: Clock + Sync,
    R: Threads + Wait + Sync,
    requires few { vec_len seats ≤ 64 }
    requires somewhere { AreSeatedSomewhere (1 + server.shards)
        (seat_view N.state N.steps (journal_facts D.tells D.content D.moment D.left_at D.fault_count D.place)) seats.items }
    requires small { AllByRecursion (λ seat. N.steps seat.node < 2 ^ 56) seats.items }
    requires open { AllByRecursion (λ seat. IsTrue seat.log.is_open) seats.items }
    requires back { back.items ≡ [] }
    requires room { vec_len seats ≤ vec_capacity back }
    ensures headline { (first : World) → MayPlay (1 + server.shards) first →
        AreHeld (seat_view N.state N.steps (journal_facts D.tells D.content D.moment D.left_at D.fault_count D.place)) seats.items first.nodes → (disks : List D) →
        (IsTrue D.tells → LeaveSuch D.moment D.left_at (λ at file. Stands file (spellings (journal_at first.nodes at))) disks (map (λ seat. seat.log.disk) seats.items)) →
        ServerHeadline N.meaning (link_facts A.Link.Source.tells A.Link.Source.left A.Link.Sink.tells A.Link.Sink.held A.Link.Sink.noted A.Link.is_closed)
        first D.tells (result.status ≡ statuses.DiskFailed)
        (map D.content result.disks.items) (map D.place result.disks.items) (LeaveTheWay first D.tells D.moment D.left_at disks result.disks.items)
        (LeaveUpTo first D.tells D.moment D.left_at disks result.disks.items) (AreKeptFrom first D.tells D.moment D.left_at result.disks.items)
        result.links.items }
    ensures durable { IsTrue D.tells → result.status ≢ statuses.DiskFailed → AllByRecursion (IsDurable D.content D.may_leave) result.disks.items }
    ensures status { IsServerEnd result.status }
    ensures disk_fault { OneRoseWhere (result.status ≡ statuses.DiskFailed) (map (λ seat. D.fault_count seat.log.disk) seats.items) (map D.fault_count result.disks.items) }
    ensures later { NoneFell (map (λ seat. D.fault_count seat.log.disk) seats.items) (map D.fault_count result.disks.items) }
    ensures places { map D.place result.disks.items ≡ map (λ seat. D.place seat.log.disk) seats.items }
    ensures done { result.status ≡ statuses.InputEnded → vec_len result.links ≡ server.sessions }
    ensures accept_fault { result.status ≡ statuses.AcceptFailed → Rose (A.fault_count acceptor.old) (A.fault_count acceptor.new) }
    ensures accept_later { A.fault_count acceptor.old ≤ A.fault_count acceptor.new }
{
    let mut back = back;
    match serve::<N, Journal<D>, Q, A, C, R>(
        rt,
        alloc,
        acceptor,
        clock,
        seats,
        1 + server.shards as u64,
        server.sessions,
    ) {
        Ok(Served { end, nodes, links }) => {
            take_placed(nodes, &mut back);
            ServerEnd {
                status: Status::of_server(end),
                disks: back,
                links,
            }
        }
        Err(Unserved { end, seats }) => {
            take_disks(seats, &mut back);
            not_served(alloc, Status::of_server(end), back)
        }
    }
}

/// Serves so many connections to a port, on which the acceptor listens, to their ends, by nodes in order of their numbers, with their journals, which are open.
/// `back` is an empty vector with room for the disks.
pub fn serve_links<N, D, Q, A, C, R>(
    rt: &R,
    alloc: Global,
    server: Server,
    acceptor: &mut A,
    nodes: Vec<N>,
    journals: Vec<Journal<D>>,
    back: Vec<D>,
    clock: &C,
) -> ServerEnd<D, A::Link>
where
    N: Node + Send,
    N::Input: Send,
    N::Mail: Send,
    N::Request: Send,
    D: Disk + Send,
    Q: WireRequests<N> + Send,
    A: Acceptor,
    A::Link: DiskLink<D> + Send,
    C: Clock + Sync,
    R: Threads + Wait + Sync,
    requires few { vec_len journals ≤ 64 }
    requires nodes { vec_len nodes ≡ vec_len journals }
    requires somewhere { AreOfSomeWorld (1 + server.shards) D.tells D.content (map N.state nodes.items) journals.items }
    requires small { AllByRecursion (λ node. N.steps node < 2 ^ 56) nodes.items }
    requires open { AreAllOpen journals.items }
    requires back { back.items ≡ [] }
    requires room { vec_len journals ≤ vec_capacity back }

    // The headline, in each world that a call may begin in, whose nodes these are, and which has stored what the journals have. `disks` are those of before
    // the journals were opened.
    ensures headline { (first : World) → MayPlay (1 + server.shards) first → map N.state nodes.items ≡ map (λ h. h.state) first.nodes →
        AreOpenWith D.tells D.content journals.items first.nodes → (disks : List D) →
        (IsTrue D.tells → LeaveSuch D.moment D.left_at (λ at file. Stands file (spellings (journal_at first.nodes at))) disks (disks_of journals.items)) →
        ServerHeadline N.meaning (link_facts A.Link.Source.tells A.Link.Source.left A.Link.Sink.tells A.Link.Sink.held A.Link.Sink.noted A.Link.is_closed)
        first D.tells (result.status ≡ statuses.DiskFailed)
        (map D.content result.disks.items) (map D.place result.disks.items) (LeaveTheWay first D.tells D.moment D.left_at disks result.disks.items)
        (LeaveUpTo first D.tells D.moment D.left_at disks result.disks.items) (AreKeptFrom first D.tells D.moment D.left_at result.disks.items)
        result.links.items }
    ensures durable { IsTrue D.tells → result.status ≢ statuses.DiskFailed → AllByRecursion (IsDurable D.content D.may_leave) result.disks.items }
    ensures status { IsServerEnd result.status }
    ensures disk_fault { OneRoseWhere (result.status ≡ statuses.DiskFailed) (map D.fault_count (disks_of journals.items)) (map D.fault_count result.disks.items) }
    ensures later { NoneFell (map D.fault_count (disks_of journals.items)) (map D.fault_count result.disks.items) }
    ensures places { map D.place result.disks.items ≡ map D.place (disks_of journals.items) }
    ensures done { result.status ≡ statuses.InputEnded → vec_len result.links ≡ server.sessions }
    ensures accept_fault { result.status ≡ statuses.AcceptFailed → Rose (A.fault_count acceptor.old) (A.fault_count acceptor.new) }
    ensures accept_later { A.fault_count acceptor.old ≤ A.fault_count acceptor.new }
{
    let mut back = back;
    let mut seats = Vec::new(alloc);
    if seats.reserve(journals.len()).is_err() {
        close_all(journals, &mut back);
        return not_served(alloc, Status::OutOfMemory, back);
    }
    put_in(&mut seats, nodes, journals);
    serve_seats::<N, D, Q, A, C, R>(rt, alloc, server, acceptor, seats, back, clock)
}
