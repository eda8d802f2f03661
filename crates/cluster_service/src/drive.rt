//! The drivers of the nodes.

ghost use Rattle.std.specs.Prelude.{◌≡◌, ◌≢◌, ◌<◌, IsTrue, vec_len};
ghost use Rattle.outside.specs.Devices.{sink_call, source_call};
ghost use Rattle.node_model.specs.World.{World};
ghost use Rattle.driver_steps.specs.Restarts.{HaveParts};
ghost use Rattle.driver_steps.specs.Seats.{AreCounted, AreHeld, AreKept, AreOpen, LeaveKept, faults_of, places_of, seat_since, seat_view, since_noted, since_then};
ghost use Rattle.driver_steps.specs.Together.{hosted};
ghost use Rattle.pipe_driver.specs.Acknowledgements.{AreAcknowledgedBy};
ghost use Rattle.pipe_driver.specs.Counts.{HaveRisenWhere, RoseWhere};
ghost use Rattle.pipe_driver.specs.Progress.{AreAskedAsRead};
ghost use Rattle.pipe_driver.specs.declared.status.Status.TheVariants as statuses;
ghost use Rattle.sim_driver.specs.Moves.{MayPlay};
ghost use Rattle.cluster_service.specs.Arguments.{IsServer, first_router_of};
ghost use Rattle.cluster_service.specs.Drivers.{IsDriven, output_of};

use crate::arguments::Command;
use driver_steps::{Opens, Seat};
use node_traits::Node;
use opmsg_frames::Request;
use outside::clock::Clock;
use outside::log::Log;
use outside::streams::Source;
use outside::witness::Witness;
use pipe_driver::Ending;
use sim_driver::simulate;
use std::alloc::Global;
use std::marker::Sync;
use std::thread::Threads;

/// The most bytes that are taken of one input.
const MOST_TAKEN: u64 = 1 << 40;

/// Serves one connection, or plays a script, as the command says, which is no server, by the nodes in order of their numbers, whose logs are open and keep what
/// they keep in the world that the call begins in. A node that stops in a line of a script is opened again by `opener`.
pub fn drive<
    R: Threads + Sync,
    N: Node<Request = Request>,
    L: Log,
    S: Source,
    K: Witness<L::Of>,
    C: Clock,
    O: Opens<N, L>,
>(
    rt: &R,
    opener: &O,
    alloc: Global,
    command: Command,
    input: &mut S,
    out: &mut K,
    seats: &mut Vec<Seat<N, L>>,
    clock: &C,
) -> Ending
    requires at { first_router_of command < vec_len seats.old }
    requires driver { ¬ IsServer command }
    requires open { AreOpen L.facts.is_open seats.old.items }
    ensures driven { AreAskedAsRead N.asks → IsTrue L.facts.tells → (first : World) → MayPlay (first_router_of command) first →
        HaveParts (O.part opener.now) first.nodes →
        AreHeld (seat_view N.state N.steps L.facts) seats.old.items first.nodes →
        AreCounted (seat_view N.state N.steps L.facts) seats.old.items first.nodes →
        IsDriven command first (source_call S.tells S.left S.fault_count input.old input.new) (sink_call K.tells K.held K.fault_count out.old out.new)
        (C.gives clock.now) (AreKept (seat_view N.state N.steps L.facts) seats.new.items)
        (LeaveKept (seat_since N.state N.steps L.facts (since_then seats.old.items first))
        (hosted K.tells L.facts (since_noted seats.old.items first (K.noted out.old)) (K.noted out.new) seats.new.items))
        (AreAcknowledgedBy L.facts K.tells (output_of command first) first (K.noted out.new) (K.held out.old) seats.new.items)
        result.status result.rest }
    ensures open { result.status ≢ statuses.DiskFailed → AreOpen L.facts.is_open seats.new.items }
    ensures len { vec_len seats.new ≡ vec_len seats.old }
    ensures read_fault { RoseWhere (result.status ≡ statuses.ReadFailed) (S.fault_count input.old) (S.fault_count input.new) }
    ensures write_fault { RoseWhere (result.status ≡ statuses.WriteFailed) (K.fault_count out.old) (K.fault_count out.new) }
    ensures disk_fault { HaveRisenWhere (result.status ≡ statuses.DiskFailed) (faults_of L.facts.fault_count seats.old.items)
        (faults_of L.facts.fault_count seats.new.items) }
    ensures places { places_of L.facts.place seats.new.items ≡ places_of L.facts.place seats.old.items }
{
    let first_router = command.first_router();
    match command {
        Command::Pipe { .. } => pipe_driver::pipe(
            rt,
            alloc,
            input,
            out,
            seats,
            clock,
            first_router,
            MOST_TAKEN,
        ),
        Command::Sim { .. } => Ending {
            status: simulate(
                rt,
                opener,
                alloc,
                input,
                out,
                seats,
                first_router,
                MOST_TAKEN,
            ),
            rest: 0,
        },
        Command::Serve(_) => unreachable!(),
    }
}
