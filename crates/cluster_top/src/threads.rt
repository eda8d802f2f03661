//! The command `serve`: the nodes of the cluster on threads, each with its journal on a disk, and connections to a port.

ghost use Rattle.std.specs.Prelude.{◌≡◌, ◌≢◌, ◌⊎◌, ◌+◌, ◌-◌, ◌<◌, ◌≤◌, [], List, map, IsTrue, vec_capacity, vec_len};
ghost use Rattle.std.specs.List.{AllByRecursion};
ghost use Rattle.outside.specs.Causes.{Rose};
ghost use Rattle.outside.specs.Devices.{NoneFell};
ghost use Rattle.node_model.specs.World.{World};
ghost use Rattle.opmsg_frames.specs.RequestMeanings.{IsMeant};
ghost use Rattle.opmsg_frames.specs.Requests as wire;
ghost use Rattle.protocol_model.specs.Inputs.{input_of};
ghost use Rattle.protocol_model.specs.Requests.{request_of};
ghost use Rattle.conn_server.specs.Conversations.{link_facts};
ghost use Rattle.cluster_service.specs.Counts.{OneRoseWhere};
ghost use Rattle.cluster_service.specs.Crashes.{LeaveTheWay};
ghost use Rattle.cluster_service.specs.OpenJournals.{AreAllOpen, IsDurable, disks_of};
ghost use Rattle.cluster_service.specs.Openings.{AreAsTheyWere, InThrees, IsOpenedOn, disk_facts};
ghost use Rattle.cluster_service.specs.Servers.{AreKeptFrom, IsServerEnd, LeaveUpTo, ServerHeadline};
ghost use Rattle.cluster_service.specs.declared.status.Status.TheVariants as statuses;
ghost use Rattle.journal_starts.specs.Records.{AreRefused};
ghost use Rattle.journal_starts.specs.Starts.{BeginsOnFiles};

use crate::service::status_of;
use any_node::AnyNode;
use cluster_service::{
    AllUnopened, Opened, Server, ServerEnd, Status, close_all, not_served, open_all, serve_links,
};
use node_open::open_nodes;
use opmsg_frames::Request;
use outside::clock::Clock;
use outside::disk::Disk;
use outside::streams::Acceptor;
use outside::witness::DiskLink;
use std::alloc::Global;
use std::sync::Wait;
use std::thread::Threads;
use wire_nodes::WireRequests;

/// Returns the request that was read, as a node takes it.
fn as_read(request: Request) -> Request
    ensures { (meant : wire.Request) → IsMeant request meant → request_of result ≡ meant }
{
    request
}

/// Requests are taken as they are read.
struct AsRead;

impl WireRequests<AnyNode> for AsRead {
    fn request(request: Request) -> Request {
        as_read(request)
    }
}

/// Serves so many connections to a port, on which the acceptor listens, to their ends, by nodes that are opened on the records of their journals, which are
/// open.
fn serve_opened<R, D, A, C>(
    rt: &R,
    alloc: Global,
    server: Server,
    acceptor: &mut A,
    opened: Opened<D>,
    clock: &C,
) -> ServerEnd<D, A::Link>
where
    R: Threads + Wait + Sync,
    D: Disk + Send,
    A: Acceptor,
    A::Link: DiskLink<D> + Send,
    C: Clock + Sync,
    requires some_shards { 0 < server.shards }
    requires few_shards { server.shards ≤ 16 }
    requires few { server.routers ≤ 8 }
    requires journals { vec_len opened.journals ≡ 1 + server.shards + server.routers }
    requires found { vec_len opened.found ≡ 1 + server.shards + server.routers }
    requires opened { (disks : List D) ×
        InThrees (IsOpenedOn (disk_facts D.tells D.content D.may_leave D.moment D.left_at D.place D.fault_count)) disks opened.journals.items opened.found.items }
    requires open { AreAllOpen opened.journals.items }
    requires back { opened.back.items ≡ [] }
    requires room { 1 + server.shards + server.routers ≤ vec_capacity opened.back }

    // `disks` are those of before the journals were opened.
    ensures headline { (disks : List D) (first : World) → IsTrue D.tells →
        InThrees (IsOpenedOn (disk_facts D.tells D.content D.may_leave D.moment D.left_at D.place D.fault_count)) disks opened.journals.items opened.found.items →
        BeginsOnFiles (server.shards - 1) server.routers (map D.content disks) first →
        ServerHeadline input_of (link_facts A.Link.Source.tells A.Link.Source.left A.Link.Sink.tells A.Link.Sink.held A.Link.Sink.noted A.Link.is_closed)
        first D.tells (result.status ≡ statuses.DiskFailed)
        (map D.content result.disks.items) (map D.place result.disks.items)
        (LeaveTheWay first D.tells D.moment D.left_at disks result.disks.items)
        (LeaveUpTo first D.tells D.moment D.left_at disks result.disks.items)
        (AreKeptFrom first D.tells D.moment D.left_at result.disks.items) result.links.items }
    ensures durable { IsTrue D.tells → result.status ≢ statuses.DiskFailed → AllByRecursion (IsDurable D.content D.may_leave) result.disks.items }
    ensures status { IsServerEnd result.status ⊎ (result.status ≡ statuses.DamagedJournal) }
    ensures damaged { result.status ≡ statuses.DamagedJournal →
        (result.links.items ≡ []) × (acceptor.new ≡ acceptor.old) × ((disks : List D) → IsTrue D.tells →
        InThrees (IsOpenedOn (disk_facts D.tells D.content D.may_leave D.moment D.left_at D.place D.fault_count)) disks opened.journals.items opened.found.items →
        AreRefused (server.shards - 1) (map D.content disks)) }
    ensures refused { (disks : List D) → IsTrue D.tells →
        InThrees (IsOpenedOn (disk_facts D.tells D.content D.may_leave D.moment D.left_at D.place D.fault_count)) disks opened.journals.items opened.found.items →
        AreRefused (server.shards - 1) (map D.content disks) →
        ((result.status ≡ statuses.DamagedJournal) ⊎ (result.status ≡ statuses.OutOfMemory)) × (result.links.items ≡ []) × (acceptor.new ≡ acceptor.old)
        × AreAsTheyWere (disk_facts D.tells D.content D.may_leave D.moment D.left_at D.place D.fault_count) disks result.disks.items }
    ensures disk_fault { OneRoseWhere (result.status ≡ statuses.DiskFailed) (map D.fault_count (disks_of opened.journals.items)) (map D.fault_count result.disks.items) }
    ensures later { NoneFell (map D.fault_count (disks_of opened.journals.items)) (map D.fault_count result.disks.items) }
    ensures places { map D.place result.disks.items ≡ map D.place (disks_of opened.journals.items) }
    ensures done { result.status ≡ statuses.InputEnded → vec_len result.links ≡ server.sessions }
    ensures accept_fault { result.status ≡ statuses.AcceptFailed → Rose (A.fault_count acceptor.old) (A.fault_count acceptor.new) }
    ensures accept_later { A.fault_count acceptor.old ≤ A.fault_count acceptor.new }
{
    let Opened {
        journals,
        found,
        mut back,
    } = opened;
    match open_nodes(alloc, server.shards, found) {
        Ok(nodes) => serve_links::<AnyNode, D, AsRead, A, C, R>(
            rt, alloc, server, acceptor, nodes, journals, back, clock,
        ),
        Err(fault) => {
            close_all(journals, &mut back);
            not_served(alloc, status_of(fault), back)
        }
    }
}

/// Serves so many connections to a port to their ends, by the catalogue and as many shards and routers as the server has, each with the disk in its place.
/// First the acceptor listens. Then the files are opened as journals, in order of the nodes, and then the nodes on the records in them; what the nodes write
/// is stored after these. Connections are accepted after that.
pub fn serve_nodes<R, D, A, C>(
    rt: &R,
    alloc: Global,
    server: Server,
    acceptor: &mut A,
    disks: Vec<D>,
    clock: &C,
) -> ServerEnd<D, A::Link>
where
    R: Threads + Wait + Sync,
    D: Disk + Send,
    A: Acceptor,
    A::Link: DiskLink<D> + Send,
    C: Clock + Sync,
    requires some_shards { 0 < server.shards }
    requires few_shards { server.shards ≤ 16 }
    requires few { server.routers ≤ 8 }
    requires disks { vec_len disks ≡ 1 + server.shards + server.routers }
    ensures headline { (first : World) → IsTrue D.tells → BeginsOnFiles (server.shards - 1) server.routers (map D.content disks.items) first →
        ServerHeadline input_of (link_facts A.Link.Source.tells A.Link.Source.left A.Link.Sink.tells A.Link.Sink.held A.Link.Sink.noted A.Link.is_closed)
        first D.tells (result.status ≡ statuses.DiskFailed)
        (map D.content result.disks.items) (map D.place result.disks.items)
        (LeaveTheWay first D.tells D.moment D.left_at disks.items result.disks.items)
        (LeaveUpTo first D.tells D.moment D.left_at disks.items result.disks.items)
        (AreKeptFrom first D.tells D.moment D.left_at result.disks.items) result.links.items }

    // Where the acceptor did not listen, the disks are as they were.
    ensures durable { IsTrue D.tells → result.status ≢ statuses.DiskFailed → AllByRecursion (IsDurable D.content D.may_leave) result.disks.items
        ⊎ ((((result.status ≡ statuses.DamagedJournal) ⊎ (result.status ≡ statuses.OutOfMemory))
        × AreAsTheyWere (disk_facts D.tells D.content D.may_leave D.moment D.left_at D.place D.fault_count) disks.items result.disks.items)
        ⊎ ((result.status ≡ statuses.AcceptFailed) × (result.disks ≡ disks))) }
    ensures status { IsServerEnd result.status ⊎ (result.status ≡ statuses.DamagedJournal) }
    ensures damaged { result.status ≡ statuses.DamagedJournal → (result.links.items ≡ []) × (A.left acceptor.new ≡ A.left acceptor.old)
        × (IsTrue D.tells → AreRefused (server.shards - 1) (map D.content disks.items)) }
    ensures refused { IsTrue D.tells → AreRefused (server.shards - 1) (map D.content disks.items) →
        (((result.status ≡ statuses.DamagedJournal) ⊎ ((result.status ≡ statuses.DiskFailed) ⊎ (result.status ≡ statuses.OutOfMemory)))
        ⊎ ((result.status ≡ statuses.AcceptFailed) × (result.disks ≡ disks)))
        × (result.links.items ≡ []) × (A.left acceptor.new ≡ A.left acceptor.old)
        × AreAsTheyWere (disk_facts D.tells D.content D.may_leave D.moment D.left_at D.place D.fault_count) disks.items result.disks.items }
    ensures disk_fault { OneRoseWhere (result.status ≡ statuses.DiskFailed) (map D.fault_count disks.items) (map D.fault_count result.disks.items) }
    ensures later { NoneFell (map D.fault_count disks.items) (map D.fault_count result.disks.items) }
    ensures places { map D.place result.disks.items ≡ map D.place disks.items }
    ensures done { result.status ≡ statuses.InputEnded → vec_len result.links ≡ server.sessions }
    ensures accept_fault { result.status ≡ statuses.AcceptFailed → Rose (A.fault_count acceptor.old) (A.fault_count acceptor.new) }
    ensures accept_later { A.fault_count acceptor.old ≤ A.fault_count acceptor.new }
{
    match acceptor.listen(server.port) {
        Ok(()) => {}
        Err(_) => return not_served(alloc, Status::AcceptFailed, disks),
    }
    match open_all(alloc, disks) {
        Ok(opened) => serve_opened(rt, alloc, server, acceptor, opened, clock),
        Err(AllUnopened { status, disks }) => not_served(alloc, status, disks),
    }
}
