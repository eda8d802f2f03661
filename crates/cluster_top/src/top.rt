//! The top call.

ghost use Rattle.std.specs.Prelude.{◌≡◌, ◌≢◌, ◌⊎◌, ◌↔◌, ◌≤◌, [], map, IfSome, IsSome, IsSomeAnd, IsNone, IsTrue, vec_len};
ghost use Rattle.std.specs.List.{AllByRecursion};
ghost use Rattle.outside.specs.Causes.{Rose};
ghost use Rattle.outside.specs.Devices.{NoneFell, SinkIsUntouched, SourceIsUntouched, sink_call, source_call};
ghost use Rattle.node_model.specs.World.{World};
ghost use Rattle.pipe_driver.specs.Counts.{RoseWhere};
ghost use Rattle.protocol_model.specs.Inputs.{input_of};
ghost use Rattle.conn_server.specs.Conversations.{link_facts};
ghost use Rattle.cluster_service.specs.Arguments.{IsServer, command_of, node_count_of, others_of, routers_of, sessions_of};
ghost use Rattle.cluster_service.specs.Counts.{OneRoseWhere};
ghost use Rattle.cluster_service.specs.Crashes.{AreDurableBefore, LeaveAll, LeaveTheWay};
ghost use Rattle.cluster_service.specs.Headline.{HeadlineOf};
ghost use Rattle.cluster_service.specs.OpenJournals.{IsDurable};
ghost use Rattle.cluster_service.specs.Openings.{IsNotBegun, disk_facts};
ghost use Rattle.cluster_service.specs.Servers.{AreKeptFrom, IsServerEnd, LeaveUpTo, ServerHeadline};
ghost use Rattle.cluster_service.specs.Statuses.{OfConnection, OfStatus, number_of};
ghost use Rattle.cluster_service.specs.declared.status.Status.TheVariants as statuses;
ghost use Rattle.journal_starts.specs.Records.{AreRefused};
ghost use Rattle.journal_starts.specs.Starts.{BeginsOnFiles};

use crate::service::run_nodes;
use crate::threads::serve_nodes;
use bson_values::Text;
use cluster_service::{RunEnd, ServerEnd, Status, read_command};
use outside::clock::Clock;
use outside::disk::Disk;
use outside::exchange::Spoken;
use outside::gate::Gate;
use outside::streams::{Acceptor, Source};
use outside::witness::{DiskLink, Witness};
use std::alloc::Global;
use std::sync::Wait;
use std::thread::Threads;

/// The result of a call: the number of its status, how many of the bytes taken come after the last whole request, the disks in order of
/// their nodes, and what was said on each link.
#[derive(Drop)]
pub struct Ended<D: Drop, L: Drop> {
    pub status: u8,
    pub rest: u64,
    pub disks: Vec<D>,
    pub links: Vec<Spoken<L>>,
}

/// Returns the result of a server, of which no byte is left.
fn after_server<D: Drop, L: Drop>(served: ServerEnd<D, L>) -> Ended<D, L>
    ensures status { result.status ≡ number_of served.status }
    ensures rest { result.rest ≡ 0 }
    ensures disks { result.disks ≡ served.disks }
    ensures links { result.links ≡ served.links }
{
    Ended {
        status: served.status.number(),
        rest: 0,
        disks: served.disks,
        links: served.links,
    }
}

/// Returns the result of a connection or a script, without links.
fn after_run<D: Drop, L: Drop>(alloc: Global, ending: RunEnd<D>) -> Ended<D, L>
    ensures status { result.status ≡ number_of ending.status }
    ensures rest { result.rest ≡ ending.rest }
    ensures disks { result.disks ≡ ending.disks }
    ensures links { result.links.items ≡ [] }
{
    Ended {
        status: ending.status.number(),
        rest: ending.rest,
        disks: ending.disks,
        links: Vec::new(alloc),
    }
}

/// Runs the cluster as the arguments say: with `pipe` one connection from `input` to `out` is served to its end, with `sim` the script in `input` is played
/// to its end, and with `serve` so many connections to a port are served to their ends, on threads; by as many shards and routers as `--shards` and
/// `--routers` say. What the requests change is stored on the disks, one for each node. On files without records all nodes are new; on the journals that
/// earlier calls left, with as many shards and routers, they go on where these stopped. On files that are damaged, or have a record that may not follow,
/// nothing is served. Of other files nothing is said but `durable`. Only `serve` uses the acceptor, and the gate is not used. `Status` has the statuses; with
/// 2 and 6 nothing was taken or put, with 8 no connection could be accepted, and with 10 2^40 bytes were taken.
pub fn run<R, S, K, A, D, C, G>(
    rt: &R,
    alloc: Global,
    words: &[Text],
    input: &mut S,
    out: &mut K,
    acceptor: &mut A,
    disks: Vec<D>,
    clock: &C,
    _gate: &G,
) -> Ended<D, A::Link>
where
    R: Threads + Wait + Sync,
    S: Source,
    K: Witness<D>,
    A: Acceptor,
    D: Disk + Send,
    C: Clock + Sync,
    G: Gate + Sync,
    A::Link: DiskLink<D> + Send,
    requires { IfSome (node_count_of words.now) (λ count. vec_len disks ≡ count) }

    // The arguments are refused exactly where they start no nodes. Then, and where a file is damaged or a record in it may not follow, nothing is taken or put.
    ensures words { (result.status ≡ 2) ↔ IsNone (node_count_of words.now) }
    ensures arguments { result.status ≡ 2 → result.disks ≡ disks }
    ensures number { OfStatus result.status (λ status. status ≡ statuses.AcceptFailed → IsSomeAnd (command_of words.now) IsServer) }
    ensures untouched { (result.status ≡ 2) ⊎ (result.status ≡ 6) → (result.rest ≡ 0)
        × SourceIsUntouched (source_call S.tells S.left S.fault_count input.old input.new)
        × SinkIsUntouched (sink_call K.tells K.held K.fault_count out.old out.new) }
    ensures six { result.status ≡ 6 → IsTrue D.tells →
        IsSomeAnd (command_of words.now) (λ command. AreRefused (others_of command) (map D.content disks.items)) }
    ensures refused { IfSome (command_of words.now) (λ command. IsTrue D.tells → AreRefused (others_of command) (map D.content disks.items) →
        (((result.status ≡ 6) ⊎ ((result.status ≡ 5) ⊎ (result.status ≡ 7))) ⊎ ((result.status ≡ 8) × (result.disks ≡ disks)))
        × IsNotBegun (disk_facts D.tells D.content D.may_leave D.moment D.left_at D.place D.fault_count)
        (source_call S.tells S.left S.fault_count input.old input.new)
        (sink_call K.tells K.held K.fault_count out.old out.new) result.rest disks.items result.disks.items) }

    // Each disk comes back in its place. The fault of a device has its own status; with each other status its count is as before.
    ensures places { map D.place result.disks.items ≡ map D.place disks.items }
    ensures read_fault { RoseWhere (result.status ≡ 3) (S.fault_count input.old) (S.fault_count input.new) }
    ensures write_fault { RoseWhere (result.status ≡ 4) (K.fault_count out.old) (K.fault_count out.new) }
    ensures disk_fault { OneRoseWhere (result.status ≡ 5) (map D.fault_count disks.items) (map D.fault_count result.disks.items) }
    ensures none_fell { NoneFell (map D.fault_count disks.items) (map D.fault_count result.disks.items) }

    // The headline, in the world that the call begins in: the files have no record, or are the journals that earlier calls left. A run of the nodes from
    // there on, by the schedule or as a script says, took these bytes and put these replies, its journals are what the disks store, and they form one legal
    // history with those of all calls before, in which each reply is a right one. The file of each disk after a crash at any moment of the call is one that
    // was possible before, or what the disk's node wrote in a world on the way of that run.
    ensures headline { IfSome (command_of words.now) (λ command. ¬ IsServer command → (first : World) → IsTrue D.tells →
        BeginsOnFiles (others_of command) (routers_of command) (map D.content disks.items) first →
        OfStatus result.status (λ status. OfConnection status (λ ending. HeadlineOf command first
        (source_call S.tells S.left S.fault_count input.old input.new)
        (sink_call K.tells K.held K.fault_count out.old out.new)
        D.tells (map D.content result.disks.items)
        (LeaveAll first K.tells D.tells D.place D.moment D.left_at (K.noted out.old) (K.noted out.new) disks.items result.disks.items)
        (AreDurableBefore K.tells D.tells D.place D.moment D.left_at command first (K.noted out.new) (K.held out.old) result.disks.items)
        (C.gives clock.now) ending result.rest))) }

    // Unless a disk failed, each file is a journal, byte for byte, with nothing after its closed gate, and a crash results in just that; or the nodes were
    // not started, and then nothing was taken or put, and each file has the records that it had; or a port was refused, and no disk was used.
    ensures durable { IsSome (node_count_of words.now) → IsTrue D.tells → result.status ≢ 5 → AllByRecursion (IsDurable D.content D.may_leave) result.disks.items
        ⊎ ((((result.status ≡ 6) ⊎ (result.status ≡ 7))
        × IsNotBegun (disk_facts D.tells D.content D.may_leave D.moment D.left_at D.place D.fault_count)
        (source_call S.tells S.left S.fault_count input.old input.new)
        (sink_call K.tells K.held K.fault_count out.old out.new) result.rest disks.items result.disks.items)
        ⊎ ((result.status ≡ 8) × (result.disks ≡ disks))) }

    // A server takes and puts nothing. In the world that the call begins in there is a run of its nodes from there on, which makes one legal history with all
    // calls before; on its links each request was taken in a step of that run, and its reply returned by one. Its journals are what the disks store, and of a
    // crash it says what the headline says; where a disk failed each disk may be several events further.
    ensures server { IfSome (command_of words.now) (λ command. IsServer command →
        SourceIsUntouched (source_call S.tells S.left S.fault_count input.old input.new)
        × SinkIsUntouched (sink_call K.tells K.held K.fault_count out.old out.new) × (result.rest ≡ 0)) }
    ensures server_end { IfSome (command_of words.now) (λ command. IsServer command →
        OfStatus result.status (λ status. IsServerEnd status ⊎ (status ≡ statuses.DamagedJournal))) }
    ensures served { IfSome (command_of words.now) (λ command. IsServer command → (first : World) → IsTrue D.tells →
        BeginsOnFiles (others_of command) (routers_of command) (map D.content disks.items) first → ServerHeadline input_of
        (link_facts A.Link.Source.tells A.Link.Source.left A.Link.Sink.tells A.Link.Sink.held A.Link.Sink.noted A.Link.is_closed)
        first D.tells (result.status ≡ 5)
        (map D.content result.disks.items) (map D.place result.disks.items)
        (LeaveTheWay first D.tells D.moment D.left_at disks.items result.disks.items)
        (LeaveUpTo first D.tells D.moment D.left_at disks.items result.disks.items)
        (AreKeptFrom first D.tells D.moment D.left_at result.disks.items) result.links.items) }
    ensures sessions { IfSome (command_of words.now) (λ command. IsServer command → result.status ≡ 0 → vec_len result.links ≡ sessions_of command) }
    ensures accept_fault { result.status ≡ 8 → Rose (A.fault_count acceptor.old) (A.fault_count acceptor.new) }
    ensures accept_later { A.fault_count acceptor.old ≤ A.fault_count acceptor.new }

    // With another command the acceptor comes back as it was, and no link was accepted. Nor is one where a file is damaged or a record in it may not follow.
    ensures acceptor { ¬ IsSomeAnd (command_of words.now) IsServer → acceptor.new ≡ acceptor.old }
    ensures links { ¬ IsSomeAnd (command_of words.now) IsServer → result.links.items ≡ [] }
    ensures not_accepted { result.status ≡ 6 → (A.left acceptor.new ≡ A.left acceptor.old) × (result.links.items ≡ []) }
    ensures none_accepted { IfSome (command_of words.now) (λ command. IsTrue D.tells → AreRefused (others_of command) (map D.content disks.items) →
        (A.left acceptor.new ≡ A.left acceptor.old) × (result.links.items ≡ [])) }
{
    let command = match read_command(words) {
        Some(command) => command,
        None => {
            return Ended {
                status: Status::BadArguments.number(),
                rest: 0,
                disks,
                links: Vec::new(alloc),
            };
        }
    };
    match command.server() {
        Some(server) => after_server(serve_nodes(rt, alloc, server, acceptor, disks, clock)),
        None => {
            let ending = run_nodes(rt, alloc, command, input, out, disks, clock);
            after_run(alloc, ending)
        }
    }
}
