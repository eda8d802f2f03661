//! One connection or a script, by nodes whose journals are open.

ghost use Rattle.std.specs.Prelude.{◌≡◌, ◌≢◌, ◌<◌, ◌≤◌, [], List, map, IsTrue, vec_capacity, vec_len};
ghost use Rattle.std.specs.List.{AllByRecursion};
ghost use Rattle.outside.specs.Devices.{NoneFell, sink_call, source_call};
ghost use Rattle.journal_frames.specs.Files.{Stands};
ghost use Rattle.driver_steps.specs.Restarts.{HaveParts};
ghost use Rattle.node_model.specs.World.{World, journal_at};
ghost use Rattle.node_traits.specs.Effects.{spellings};
ghost use Rattle.pipe_driver.specs.Counts.{RoseWhere};
ghost use Rattle.pipe_driver.specs.Progress.{AreAskedAsRead};
ghost use Rattle.sim_driver.specs.Moves.{MayPlay};
ghost use Rattle.cluster_service.specs.Arguments.{IsServer, first_router_of, nodes_of, routers_of};
ghost use Rattle.cluster_service.specs.Counts.{OneRoseWhere};
ghost use Rattle.cluster_service.specs.Crashes.{AreDurableBefore, LeaveAll, LeaveSuch};
ghost use Rattle.cluster_service.specs.Headline.{HeadlineOf};
ghost use Rattle.cluster_service.specs.OpenJournals.{AreAllOpen, AreOpenWith, IsDurable, disks_of};
ghost use Rattle.cluster_service.specs.Statuses.{OfConnection};
ghost use Rattle.cluster_service.specs.declared.status.Status.TheVariants as statuses;

use crate::arguments::Command;
use crate::drive::drive;
use crate::journals::close_all;
use crate::seats::{put_in, take_disks};
use crate::status::Status;
use driver_steps::Opens;
use journal_frames::Journal;
use node_traits::Node;
use opmsg_frames::Request;
use outside::clock::Clock;
use outside::disk::Disk;
use outside::streams::Source;
use outside::witness::Witness;
use std::alloc::Global;
use std::marker::Sync;
use std::thread::Threads;

/// How it ended: its status, how many of the bytes taken come after the last whole request, and the disks.
#[derive(Drop)]
pub struct RunEnd<D: Drop> {
    pub status: Status,
    pub rest: u64,
    pub disks: Vec<D>,
}

/// Returns the end of a call in which nothing was served.
pub fn unserved<D: Drop>(status: Status, disks: Vec<D>) -> RunEnd<D>
    ensures status { result.status ≡ status }
    ensures rest { result.rest ≡ 0 }
    ensures disks { result.disks ≡ disks }
{
    RunEnd {
        status,
        rest: 0,
        disks,
    }
}

/// Serves one connection, or plays a script, to its end, by nodes in order of their numbers, with their journals, which are open. `back` is an empty vector
/// with room for the disks. A node that stops in a line of a script is opened again by `opener`.
pub fn serve<
    R: Threads + Sync,
    N: Node<Request = Request>,
    S: Source,
    D: Disk,
    K: Witness<D>,
    C: Clock,
    O: Opens<N, Journal<D>>,
>(
    rt: &R,
    opener: &O,
    alloc: Global,
    command: Command,
    input: &mut S,
    out: &mut K,
    nodes: Vec<N>,
    journals: Vec<Journal<D>>,
    back: Vec<D>,
    clock: &C,
) -> RunEnd<D>
    requires some { 0 < routers_of command }
    requires driver { ¬ IsServer command }
    requires nodes { vec_len nodes ≡ nodes_of command }
    requires journals { vec_len journals ≡ nodes_of command }
    requires open { AreAllOpen journals.items }
    requires back { back.items ≡ [] }
    requires room { nodes_of command ≤ vec_capacity back }

    // The headline, in each world that a call may begin in, whose nodes these are, before their first step, and which has stored what the journals have. `disks` are those of before
    // the journals were opened.
    ensures headline { AreAskedAsRead N.asks → IsTrue D.tells → (first : World) → MayPlay (first_router_of command) first →
        HaveParts (O.part opener.now) first.nodes →
        map N.state nodes.items ≡ map (λ h. h.state) first.nodes → AllByRecursion (λ n. N.steps n ≡ 0) nodes.items →
        AreOpenWith D.tells D.content journals.items first.nodes → (disks : List D) →
        (IsTrue D.tells → LeaveSuch D.moment D.left_at (λ at file. Stands file (spellings (journal_at first.nodes at))) disks (disks_of journals.items)) →
        OfConnection result.status (λ ending. HeadlineOf command first
        (source_call S.tells S.left S.fault_count input.old input.new)
        (sink_call K.tells K.held K.fault_count out.old out.new)
        D.tells (map D.content result.disks.items)
        (LeaveAll first K.tells D.tells D.place D.moment D.left_at (K.noted out.old) (K.noted out.new) disks result.disks.items)
        (AreDurableBefore K.tells D.tells D.place D.moment D.left_at command first (K.noted out.new) (K.held out.old) result.disks.items)
        (C.gives clock.now) ending result.rest) }
    ensures durable { IsTrue D.tells → result.status ≢ statuses.DiskFailed → AllByRecursion (IsDurable D.content D.may_leave) result.disks.items }
    ensures status { (result.status ≢ statuses.BadArguments) × (result.status ≢ statuses.DamagedJournal) × (result.status ≢ statuses.AcceptFailed) }
    ensures read_fault { RoseWhere (result.status ≡ statuses.ReadFailed) (S.fault_count input.old) (S.fault_count input.new) }
    ensures write_fault { RoseWhere (result.status ≡ statuses.WriteFailed) (K.fault_count out.old) (K.fault_count out.new) }
    ensures disk_fault { OneRoseWhere (result.status ≡ statuses.DiskFailed) (map D.fault_count (disks_of journals.items)) (map D.fault_count result.disks.items) }
    ensures later { NoneFell (map D.fault_count (disks_of journals.items)) (map D.fault_count result.disks.items) }
    ensures places { map D.place result.disks.items ≡ map D.place (disks_of journals.items) }
{
    let mut back = back;
    let mut seats = Vec::new(alloc);
    if seats.reserve(journals.len()).is_err() {
        close_all(journals, &mut back);
        return unserved(Status::OutOfMemory, back);
    }
    put_in(&mut seats, nodes, journals);
    let ending = drive(rt, opener, alloc, command, input, out, &mut seats, clock);
    take_disks(seats, &mut back);
    RunEnd {
        status: Status::of(ending.status),
        rest: ending.rest,
        disks: back,
    }
}
