//! The results of a run.

use bson_values::Text;
use cluster_top::{Ended, node_count, run};
use outside_memory::{MemDisk, OpenGate};
use row_disks::{RowFault, both};
use serve_lines::{TurnAcceptor, TurnLink};
use std::alloc::Global;
use std::sync::Wait;
use std::thread::Threads;
use wire_lines::{Devices, Left, NarrowSink, PieceSource, RowClock, Serves};

/// The cluster.
#[derive(Drop)]
pub struct Cluster;

/// Runs the cluster over these devices, without links.
fn run_over<'a, R: Threads + Wait + Sync>(
    rt: &'a R,
    alloc: Global,
    arguments: &[Text],
    source: &mut PieceSource,
    sink: &mut NarrowSink,
    disks: Vec<MemDisk>,
    clock: &RowClock<'_>,
) -> Result<Ended<MemDisk, TurnLink<'a, R>>, RowFault> {
    if node_count(arguments) != Some(disks.len()) {
        return Err(RowFault::Failed);
    }
    let mut acceptor = TurnAcceptor::<'a, R>::new(Vec::new(alloc), true);
    Ok(run(
        rt,
        alloc,
        arguments,
        source,
        sink,
        &mut acceptor,
        disks,
        clock,
        &OpenGate,
    ))
}

/// Returns what a run left.
fn left_by<'a, R: Wait>(
    ended: Result<Ended<MemDisk, TurnLink<'a, R>>, RowFault>,
    source: PieceSource,
    sink: NarrowSink,
) -> Result<Left, RowFault> {
    let (ended, (source, sink)) = both(ended, Ok((source, sink)))?;
    Ok(Left {
        status: ended.status,
        rest: ended.rest,
        source,
        sink,
        disks: ended.disks,
    })
}

impl Serves for Cluster {
    fn serve<R: Threads + Wait + Sync>(
        &self,
        rt: &R,
        alloc: Global,
        devices: Devices,
        clock: &RowClock<'_>,
    ) -> Result<Left, RowFault> {
        let Devices {
            arguments,
            mut source,
            mut sink,
            disks,
        } = devices;
        let ended = run_over(rt, alloc, &arguments, &mut source, &mut sink, disks, clock);
        left_by(ended, source, sink)
    }
}
