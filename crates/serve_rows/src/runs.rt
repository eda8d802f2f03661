//! The results of a server.

use bson_values::Text;
use cluster_top::{Ended, node_count, run};
use outside_memory::{FixedClock, MemDisk, MemSink, MemSource, OpenGate};
use row_disks::RowFault;
use serve_lines::{Served, Server, TurnAcceptor, TurnLink};
use std::alloc::Global;
use std::sync::Wait;
use std::thread::Threads;

/// The moment of the clock.
const MOMENT: u64 = 1_000_000;

/// The cluster.
#[derive(Drop)]
pub struct Cluster;

/// Serves links as these arguments say, by nodes on these disks.
fn served_on<'a, R: Threads + Wait + Sync>(
    rt: &R,
    alloc: Global,
    arguments: &[Text],
    acceptor: &mut TurnAcceptor<'a, R>,
    disks: Vec<MemDisk>,
) -> Result<Ended<MemDisk, TurnLink<'a, R>>, RowFault> {
    if node_count(arguments) != Some(disks.len()) {
        return Err(RowFault::Failed);
    }
    let mut input = MemSource::new(Vec::new(alloc), Vec::new(alloc));
    let mut out = MemSink::new(Vec::new(alloc));
    let clock = FixedClock(MOMENT);
    Ok(run(
        rt, alloc, arguments, &mut input, &mut out, acceptor, disks, &clock, &OpenGate,
    ))
}

impl Server for Cluster {
    fn serve<'a, R: Threads + Wait + Sync>(
        &self,
        rt: &R,
        alloc: Global,
        arguments: &[Text],
        acceptor: &mut TurnAcceptor<'a, R>,
        disks: Vec<MemDisk>,
    ) -> Result<Served<'a, R>, RowFault> {
        let ended = served_on(rt, alloc, arguments, acceptor, disks)?;
        Ok(Served {
            status: ended.status,
            links: ended.links,
            disks: ended.disks,
        })
    }
}
