//! From the arguments to the status.

ghost use Rattle.std.specs.Prelude.{◌≡◌, ◌↔◌, ◌⊎◌, [], ℕ, Err, IfOk, IfSome, IsNone, IsOkAnd, IsSome, IsTrue, map, vec_len};
ghost use Rattle.outside.specs.Causes.{Rose};
ghost use Rattle.outside.specs.Devices.{SinkIsUntouched, SourceIsUntouched, sink_call, source_call};
ghost use Rattle.pipe_driver.specs.Counts.{RoseWhere};
ghost use Rattle.protocol_model.specs.Inputs.{input_of};
ghost use Rattle.conn_server.specs.Conversations.{link_facts};
ghost use Rattle.node_model.specs.World.{World};
ghost use Rattle.journal_starts.specs.Starts.{BeginsOnFiles};
ghost use Rattle.cluster_service.specs.Arguments.{IsServer, node_count_of, others_of, routers_of};
ghost use Rattle.cluster_service.specs.Crashes.{LeaveTheWay};
ghost use Rattle.cluster_service.specs.Openings.{disk_facts};
ghost use Rattle.cluster_service.specs.Servers.{AreKeptFrom, LeaveUpTo, ServerHeadline};
ghost use Rattle.cluster_service.specs.Statuses.{number_of};
ghost use Rattle.std.specs.Process.{exit_status};
ghost use Rattle.cluster_main.specs.Disks.{IsLeft, command_in};
ghost use Rattle.cluster_main.specs.declared.arguments.NoArguments.TheVariants as none;

use crate::arguments::NoArguments;
use crate::line::told;
use bson_values::Text;
use cluster_top::{Spoken, Status, run};
use outside::clock::Clock;
use outside::disk::Disk;
use outside::streams::{Acceptor, Source};
use outside::witness::{DiskLink, Witness};
use outside_memory::OpenGate;
use std::alloc::Global;
use std::io::Eprint;
use std::process::ExitCode;
use std::sync::Wait;
use std::thread::Threads;

/// The number of the status that a run ended with, the disks, in order of their nodes, and what was said on each link.
#[derive(Drop)]
struct Stopped<D: Drop, L: Drop> {
    status: u8,
    disks: Vec<D>,
    links: Vec<Spoken<L>>,
}

/// How the program ends: the status of the process, the disks, in order of their nodes, and what was said on each link.
#[derive(Drop)]
pub struct Served<D: Drop, L: Drop> {
    pub code: ExitCode,
    pub disks: Vec<D>,
    pub links: Vec<Spoken<L>>,
}

/// Returns the result of a run that ended before its start.
fn unstarted<D: Drop, L: Drop>(alloc: Global, status: Status, disks: Vec<D>) -> Stopped<D, L>
    ensures status { result.status ≡ number_of status }
    ensures disks { result.disks ≡ disks }
    ensures links { result.links.items ≡ [] }
{
    Stopped {
        status: status.number(),
        disks,
        links: Vec::new(alloc),
    }
}

/// Runs the cluster as the arguments say, over these streams and disks.
fn status_of<R, S, D, K, A, C>(
    rt: &R,
    alloc: Global,
    words: Result<Vec<Text>, NoArguments>,
    input: &mut S,
    out: &mut K,
    acceptor: &mut A,
    disks: Vec<D>,
    clock: &C,
) -> Stopped<D, A::Link>
where
    R: Threads + Wait + Sync,
    S: Source,
    D: Disk + Send,
    K: Witness<D>,
    A: Acceptor,
    A::Link: DiskLink<D> + Send,
    C: Clock + Sync,
    requires { IfOk words (λ given. IfSome (node_count_of given.items) (λ count. vec_len disks ≡ count)) }
    ensures unreadable { words ≡ Err none.Unreadable → result.status ≡ 2 }
    ensures no_memory { words ≡ Err none.Memory → result.status ≡ 7 }
    ensures words { IfOk words (λ given. (result.status ≡ 2) ↔ IsNone (node_count_of given.items)) }
    ensures untouched { (result.status ≡ 2) ⊎ (result.status ≡ 6) →
        SourceIsUntouched (source_call S.tells S.left S.fault_count input.old input.new)
        × SinkIsUntouched (sink_call K.tells K.held K.fault_count out.old out.new) }
    ensures read_fault { RoseWhere (result.status ≡ 3) (S.fault_count input.old) (S.fault_count input.new) }
    ensures write_fault { RoseWhere (result.status ≡ 4) (K.fault_count out.old) (K.fault_count out.new) }
    ensures accept_fault { result.status ≡ 8 → Rose (A.fault_count acceptor.old) (A.fault_count acceptor.new) }

    // Of the disks that come back it says what `run` says of its own.
    ensures disks { (rest : ℕ) × IsLeft result.status (IsOkAnd words (λ given. IsSome (node_count_of given.items)))
        (command_in words (λ given. given.items))
        (source_call S.tells S.left S.fault_count input.old input.new)
        (sink_call K.tells K.held K.fault_count out.old out.new) (K.noted out.old) (K.noted out.new)
        (C.gives clock.now) (disk_facts D.tells D.content D.may_leave D.moment D.left_at D.place D.fault_count)
        disks.items result.disks.items rest }

    // Of a server too.
    ensures server { IfSome (command_in words (λ given. given.items)) (λ command. IsServer command →
        SourceIsUntouched (source_call S.tells S.left S.fault_count input.old input.new)
        × SinkIsUntouched (sink_call K.tells K.held K.fault_count out.old out.new)) }
    ensures served { IfSome (command_in words (λ given. given.items)) (λ command. IsServer command → (first : World) → IsTrue D.tells →
        BeginsOnFiles (others_of command) (routers_of command) (map D.content disks.items) first → ServerHeadline input_of
        (link_facts A.Link.Source.tells A.Link.Source.left A.Link.Sink.tells A.Link.Sink.held A.Link.Sink.noted A.Link.is_closed)
        first D.tells (result.status ≡ 5) (map D.content result.disks.items) (map D.place result.disks.items)
        (LeaveTheWay first D.tells D.moment D.left_at disks.items result.disks.items)
        (LeaveUpTo first D.tells D.moment D.left_at disks.items result.disks.items)
        (AreKeptFrom first D.tells D.moment D.left_at result.disks.items) result.links.items) }
{
    let words = match words {
        Ok(words) => words,
        Err(NoArguments::Unreadable) => return unstarted(alloc, Status::BadArguments, disks),
        Err(NoArguments::Memory) => return unstarted(alloc, Status::OutOfMemory, disks),
    };
    let ended = run(
        rt, alloc, &words, input, out, acceptor, disks, clock, &OpenGate,
    );
    Stopped {
        status: ended.status,
        disks: ended.disks,
        links: ended.links,
    }
}

/// Runs the cluster as the arguments say, which were read from the command line, over these streams and over the disks of its nodes,
/// in their order, and writes the line of its status. The disks come back.
pub fn serve<R, S, D, K, A, C>(
    rt: &R,
    alloc: Global,
    words: Result<Vec<Text>, NoArguments>,
    input: &mut S,
    out: &mut K,
    acceptor: &mut A,
    disks: Vec<D>,
    clock: &C,
) -> Served<D, A::Link>
where
    R: Eprint + Threads + Wait + Sync,
    S: Source,
    D: Disk + Send,
    K: Witness<D>,
    A: Acceptor,
    A::Link: DiskLink<D> + Send,
    C: Clock + Sync,
    requires { IfOk words (λ given. IfSome (node_count_of given.items) (λ count. vec_len disks ≡ count)) }
    ensures unreadable { words ≡ Err none.Unreadable → exit_status result.code ≡ 2 }
    ensures no_memory { words ≡ Err none.Memory → exit_status result.code ≡ 7 }
    ensures words { IfOk words (λ given. (exit_status result.code ≡ 2) ↔ IsNone (node_count_of given.items)) }
    ensures untouched { (exit_status result.code ≡ 2) ⊎ (exit_status result.code ≡ 6) →
        SourceIsUntouched (source_call S.tells S.left S.fault_count input.old input.new)
        × SinkIsUntouched (sink_call K.tells K.held K.fault_count out.old out.new) }
    ensures read_fault { RoseWhere (exit_status result.code ≡ 3) (S.fault_count input.old) (S.fault_count input.new) }
    ensures write_fault { RoseWhere (exit_status result.code ≡ 4) (K.fault_count out.old) (K.fault_count out.new) }
    ensures accept_fault { exit_status result.code ≡ 8 → Rose (A.fault_count acceptor.old) (A.fault_count acceptor.new) }

    // Of the disks that come back it says what `run` says of its own.
    ensures disks { (rest : ℕ) × IsLeft (exit_status result.code) (IsOkAnd words (λ given. IsSome (node_count_of given.items)))
        (command_in words (λ given. given.items))
        (source_call S.tells S.left S.fault_count input.old input.new)
        (sink_call K.tells K.held K.fault_count out.old out.new) (K.noted out.old) (K.noted out.new)
        (C.gives clock.now) (disk_facts D.tells D.content D.may_leave D.moment D.left_at D.place D.fault_count)
        disks.items result.disks.items rest }

    // Of a server too.
    ensures server { IfSome (command_in words (λ given. given.items)) (λ command. IsServer command →
        SourceIsUntouched (source_call S.tells S.left S.fault_count input.old input.new)
        × SinkIsUntouched (sink_call K.tells K.held K.fault_count out.old out.new)) }
    ensures served { IfSome (command_in words (λ given. given.items)) (λ command. IsServer command → (first : World) → IsTrue D.tells →
        BeginsOnFiles (others_of command) (routers_of command) (map D.content disks.items) first → ServerHeadline input_of
        (link_facts A.Link.Source.tells A.Link.Source.left A.Link.Sink.tells A.Link.Sink.held A.Link.Sink.noted A.Link.is_closed)
        first D.tells (exit_status result.code ≡ 5) (map D.content result.disks.items) (map D.place result.disks.items)
        (LeaveTheWay first D.tells D.moment D.left_at disks.items result.disks.items)
        (LeaveUpTo first D.tells D.moment D.left_at disks.items result.disks.items)
        (AreKeptFrom first D.tells D.moment D.left_at result.disks.items) result.links.items) }
{
    let stopped = status_of(rt, alloc, words, input, out, acceptor, disks, clock);
    Served {
        code: told(rt, stopped.status),
        disks: stopped.disks,
        links: stopped.links,
    }
}
