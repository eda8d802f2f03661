//! The commands `pipe` and `sim`: the nodes of the cluster, each with its journal on a disk.

ghost use Rattle.std.specs.Prelude.{◌≡◌, ◌≢◌, ◌⊎◌, ◌<◌, ◌≤◌, ℕ, [], List, map, IsTrue, vec_capacity, vec_len};
ghost use Rattle.std.specs.List.{AllByRecursion};
ghost use Rattle.outside.specs.Devices.{NoneFell, SinkIsUntouched, SourceIsUntouched, sink_call, source_call};
ghost use Rattle.node_model.specs.World.{World};
ghost use Rattle.pipe_driver.specs.Counts.{RoseWhere};
ghost use Rattle.cluster_service.specs.Arguments.{IsServer, nodes_of, others_of, routers_of, shards_of};
ghost use Rattle.cluster_service.specs.Counts.{OneRoseWhere};
ghost use Rattle.cluster_service.specs.Crashes.{AreDurableBefore, LeaveAll};
ghost use Rattle.cluster_service.specs.Headline.{HeadlineOf};
ghost use Rattle.cluster_service.specs.OpenJournals.{AreAllOpen, IsDurable, disks_of};
ghost use Rattle.cluster_service.specs.Openings.{InThrees, IsNotBegun, IsOpenedOn, disk_facts};
ghost use Rattle.cluster_service.specs.Statuses.{OfConnection};
ghost use Rattle.cluster_service.specs.declared.status.Status.TheVariants as statuses;
ghost use Rattle.journal_starts.specs.Records.{AreRefused};
ghost use Rattle.journal_starts.specs.Starts.{BeginsOnFiles};
ghost use Rattle.journal_replay.specs.declared.fault.OpenFault.TheVariants.{Refused};

use crate::opener::Opener;
use cluster_service::{
    AllUnopened, Command, Opened, RunEnd, Status, close_all, open_all, serve, unserved,
};
use node_open::{OpenFault, open_nodes};
use outside::clock::Clock;
use outside::disk::Disk;
use outside::streams::Source;
use outside::witness::Witness;
use std::alloc::Global;
use std::marker::Sync;
use std::thread::Threads;

/// Why no node was opened, as the status of a run.
pub(crate) fn status_of(fault: OpenFault) -> Status
    ensures refused { result ≡ statuses.DamagedJournal → (index : ℕ) × (fault ≡ Refused index) }
    ensures two { (result ≡ statuses.DamagedJournal) ⊎ (result ≡ statuses.OutOfMemory) }
{
    match fault {
        OpenFault::Refused { .. } => Status::DamagedJournal,
        OpenFault::Memory => Status::OutOfMemory,
    }
}

/// Serves one connection, or plays a script, to its end, by the catalogue and as many shards and routers as the command has, each with the disk in its
/// place. The files are opened as journals, in order of the nodes, and then the nodes on the records in them; what the nodes write is stored after these.
pub fn run_nodes<R: Threads + Sync, S: Source, D: Disk, K: Witness<D>, C: Clock>(
    rt: &R,
    alloc: Global,
    command: Command,
    input: &mut S,
    out: &mut K,
    disks: Vec<D>,
    clock: &C,
) -> RunEnd<D>
    requires some_shards { 0 < shards_of command }
    requires few_shards { shards_of command ≤ 16 }
    requires some { 0 < routers_of command }
    requires driver { ¬ IsServer command }
    requires few { routers_of command ≤ 8 }
    requires disks { vec_len disks ≡ nodes_of command }
    ensures headline { (first : World) → IsTrue D.tells → BeginsOnFiles (others_of command) (routers_of command) (map D.content disks.items) first →
        OfConnection result.status (λ ending. HeadlineOf command first
        (source_call S.tells S.left S.fault_count input.old input.new)
        (sink_call K.tells K.held K.fault_count out.old out.new)
        D.tells (map D.content result.disks.items)
        (LeaveAll first K.tells D.tells D.place D.moment D.left_at (K.noted out.old) (K.noted out.new) disks.items result.disks.items)
        (AreDurableBefore K.tells D.tells D.place D.moment D.left_at command first (K.noted out.new) (K.held out.old) result.disks.items)
        (C.gives clock.now) ending result.rest) }
    ensures durable { IsTrue D.tells → result.status ≢ statuses.DiskFailed → AllByRecursion (IsDurable D.content D.may_leave) result.disks.items
        ⊎ (((result.status ≡ statuses.DamagedJournal) ⊎ (result.status ≡ statuses.OutOfMemory))
        × IsNotBegun (disk_facts D.tells D.content D.may_leave D.moment D.left_at D.place D.fault_count)
        (source_call S.tells S.left S.fault_count input.old input.new)
        (sink_call K.tells K.held K.fault_count out.old out.new) result.rest disks.items result.disks.items) }
    ensures status { (result.status ≢ statuses.BadArguments) × (result.status ≢ statuses.AcceptFailed) }
    ensures damaged { result.status ≡ statuses.DamagedJournal → (result.rest ≡ 0)
        × SourceIsUntouched (source_call S.tells S.left S.fault_count input.old input.new)
        × SinkIsUntouched (sink_call K.tells K.held K.fault_count out.old out.new)
        × (IsTrue D.tells → AreRefused (others_of command) (map D.content disks.items)) }
    ensures refused { IsTrue D.tells → AreRefused (others_of command) (map D.content disks.items) →
        ((result.status ≡ statuses.DamagedJournal) ⊎ ((result.status ≡ statuses.DiskFailed) ⊎ (result.status ≡ statuses.OutOfMemory)))
        × IsNotBegun (disk_facts D.tells D.content D.may_leave D.moment D.left_at D.place D.fault_count)
        (source_call S.tells S.left S.fault_count input.old input.new)
        (sink_call K.tells K.held K.fault_count out.old out.new) result.rest disks.items result.disks.items }

    // Each fault has its own status.
    ensures read_fault { RoseWhere (result.status ≡ statuses.ReadFailed) (S.fault_count input.old) (S.fault_count input.new) }
    ensures write_fault { RoseWhere (result.status ≡ statuses.WriteFailed) (K.fault_count out.old) (K.fault_count out.new) }
    ensures disk_fault { OneRoseWhere (result.status ≡ statuses.DiskFailed) (map D.fault_count disks.items) (map D.fault_count result.disks.items) }
    ensures later { NoneFell (map D.fault_count disks.items) (map D.fault_count result.disks.items) }
    ensures places { map D.place result.disks.items ≡ map D.place disks.items }
{
    match open_all(alloc, disks) {
        Ok(opened) => run_opened(rt, alloc, command, input, out, opened, clock),
        Err(AllUnopened { status, disks }) => unserved(status, disks),
    }
}

/// Serves one connection, or plays a script, to its end, by nodes that are opened on the records of their journals, which are open.
fn run_opened<R: Threads + Sync, S: Source, D: Disk, K: Witness<D>, C: Clock>(
    rt: &R,
    alloc: Global,
    command: Command,
    input: &mut S,
    out: &mut K,
    opened: Opened<D>,
    clock: &C,
) -> RunEnd<D>
    requires some_shards { 0 < shards_of command }
    requires few_shards { shards_of command ≤ 16 }
    requires some { 0 < routers_of command }
    requires driver { ¬ IsServer command }
    requires few { routers_of command ≤ 8 }
    requires journals { vec_len opened.journals ≡ nodes_of command }
    requires found { vec_len opened.found ≡ nodes_of command }
    requires open { AreAllOpen opened.journals.items }
    requires back { opened.back.items ≡ [] }
    requires room { nodes_of command ≤ vec_capacity opened.back }

    // `disks` are those of before the journals were opened.
    ensures headline { (disks : List D) (first : World) → IsTrue D.tells →
        InThrees (IsOpenedOn (disk_facts D.tells D.content D.may_leave D.moment D.left_at D.place D.fault_count)) disks opened.journals.items opened.found.items →
        BeginsOnFiles (others_of command) (routers_of command) (map D.content disks) first →
        OfConnection result.status (λ ending. HeadlineOf command first
        (source_call S.tells S.left S.fault_count input.old input.new)
        (sink_call K.tells K.held K.fault_count out.old out.new)
        D.tells (map D.content result.disks.items)
        (LeaveAll first K.tells D.tells D.place D.moment D.left_at (K.noted out.old) (K.noted out.new) disks result.disks.items)
        (AreDurableBefore K.tells D.tells D.place D.moment D.left_at command first (K.noted out.new) (K.held out.old) result.disks.items)
        (C.gives clock.now) ending result.rest) }
    ensures durable { IsTrue D.tells → result.status ≢ statuses.DiskFailed → AllByRecursion (IsDurable D.content D.may_leave) result.disks.items }
    ensures status { (result.status ≢ statuses.BadArguments) × (result.status ≢ statuses.AcceptFailed) }
    ensures damaged { result.status ≡ statuses.DamagedJournal → (result.rest ≡ 0)
        × SourceIsUntouched (source_call S.tells S.left S.fault_count input.old input.new)
        × SinkIsUntouched (sink_call K.tells K.held K.fault_count out.old out.new)
        × ((disks : List D) → IsTrue D.tells →
        InThrees (IsOpenedOn (disk_facts D.tells D.content D.may_leave D.moment D.left_at D.place D.fault_count)) disks opened.journals.items opened.found.items →
        AreRefused (others_of command) (map D.content disks)) }
    ensures refused { (disks : List D) → IsTrue D.tells →
        InThrees (IsOpenedOn (disk_facts D.tells D.content D.may_leave D.moment D.left_at D.place D.fault_count)) disks opened.journals.items opened.found.items →
        AreRefused (others_of command) (map D.content disks) →
        ((result.status ≡ statuses.DamagedJournal) ⊎ (result.status ≡ statuses.OutOfMemory))
        × IsNotBegun (disk_facts D.tells D.content D.may_leave D.moment D.left_at D.place D.fault_count)
        (source_call S.tells S.left S.fault_count input.old input.new)
        (sink_call K.tells K.held K.fault_count out.old out.new) result.rest disks result.disks.items }
    ensures read_fault { RoseWhere (result.status ≡ statuses.ReadFailed) (S.fault_count input.old) (S.fault_count input.new) }
    ensures write_fault { RoseWhere (result.status ≡ statuses.WriteFailed) (K.fault_count out.old) (K.fault_count out.new) }
    ensures disk_fault { OneRoseWhere (result.status ≡ statuses.DiskFailed) (map D.fault_count (disks_of opened.journals.items)) (map D.fault_count result.disks.items) }
    ensures later { NoneFell (map D.fault_count (disks_of opened.journals.items)) (map D.fault_count result.disks.items) }
    ensures places { map D.place result.disks.items ≡ map D.place (disks_of opened.journals.items) }
{
    let Opened {
        journals,
        found,
        mut back,
    } = opened;
    match open_nodes(alloc, command.shards(), found) {
        Ok(nodes) => {
            let opener = Opener {
                shards: command.shards(),
            };
            serve(
                rt, &opener, alloc, command, input, out, nodes, journals, back, clock,
            )
        },
        Err(fault) => {
            close_all(journals, &mut back);
            unserved(status_of(fault), back)
        }
    }
}
