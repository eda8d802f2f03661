//! The devices of a call, and what it leaves.
ghost use Rattle.std.specs.Prelude.{⊤};
ghost use Rattle.std.specs.Thread.{IsSync};

use crate::pieces::{Cutting, NarrowSink, PieceSource};
use crate::row::Row;
use bson_values::Text;
use outside::clock::Clock;
use outside_memory::{MemDisk, MemSink, MemSource};
use row_disks::{RowFault, both, disks_of};
use std::alloc::Global;
use std::sync::Wait;
use std::sync::atomic::{AtomicU64, Ordering};
use std::thread::Threads;

/// The moment where the row names none.
const MOMENT: u64 = 1_000_000;

/// A clock that gives these moments in turn, and then `MOMENT`.
#[derive(Drop)]
pub struct RowClock<'a> {
    moments: &'a [u64],
    calls: AtomicU64,
}

impl<'a> RowClock<'a> {
    /// Returns a clock that gives these moments first.
    pub fn new(moments: &'a [u64]) -> RowClock<'a> {
        RowClock {
            moments,
            calls: AtomicU64::new(0),
        }
    }
}

impl Clock for RowClock<'_> {
    ghost gives = { λ _ _. ⊤ };

    fn now(&self) -> u64 {
        let call = self.calls.fetch_add(1, Ordering::SeqCst);
        self.moments.get(call as usize).copied().unwrap_or(MOMENT)
    }
}

/// What a call is given: its arguments, the bytes that arrive, what takes its replies, and the disks of its nodes.
#[derive(Drop)]
pub struct Devices {
    pub arguments: Vec<Text>,
    pub source: PieceSource,
    pub sink: NarrowSink,
    pub disks: Vec<MemDisk>,
}

/// What a call left: its status, how many bytes follow the last whole request, the bytes that were not taken, those that it wrote, and the disks.
#[derive(Drop)]
pub struct Left {
    pub status: u8,
    pub rest: u64,
    pub source: PieceSource,
    pub sink: NarrowSink,
    pub disks: Vec<MemDisk>,
}

/// A server of connections and scripts.
pub trait Serves {
    /// Makes a call on these devices, on this runtime. Returns `Failed` where the arguments start no nodes, or not as many as there are disks.
    fn serve<R: Threads + Wait + Sync>(
        &self,
        rt: &R,
        alloc: Global,
        devices: Devices,
        clock: &RowClock<'_>,
    ) -> Result<Left, RowFault>
        requires { IsSync R.row };
}

/// Returns the source of the row's bytes, which arrive in these pieces.
fn source_of(alloc: Global, row: &Row, cutting: Cutting) -> Result<PieceSource, RowFault> {
    let failing = Vec::from_slice(alloc, &row.failing_takes)?;
    let source = MemSource::new(Vec::from_slice(alloc, &row.asked)?, failing);
    Ok(PieceSource { source, cutting })
}

/// Returns the sink of the row.
fn sink_of(alloc: Global, row: &Row) -> Result<NarrowSink, RowFault> {
    Ok(NarrowSink {
        sink: MemSink::new(Vec::from_slice(alloc, &row.failing_puts)?),
        most: row.most_put as usize,
    })
}

/// Returns the devices of the row, whose bytes arrive in these pieces.
fn devices_of(alloc: Global, row: &Row, cutting: Cutting) -> Result<Devices, RowFault> {
    let streams = both(source_of(alloc, row, cutting), sink_of(alloc, row));
    let others = both(row.arguments(alloc), disks_of(alloc, &row.disks));
    let ((source, sink), (arguments, disks)) = both(streams, others)?;
    Ok(Devices {
        arguments,
        source,
        sink,
        disks,
    })
}

/// Serves the row's bytes, which arrive in these pieces.
pub fn served<R: Threads + Wait + Sync, S: Serves>(
    rt: &R,
    server: &S,
    alloc: Global,
    row: &Row,
    cutting: Cutting,
) -> Result<Left, RowFault> {
    let devices = devices_of(alloc, row, cutting)?;
    server.serve(rt, alloc, devices, &RowClock::new(&row.moments))
}
