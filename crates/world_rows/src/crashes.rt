//! Crashes at each moment of a journal.

use crate::disks::{call_again, disk_of};
use crate::journals::found_in;
use crate::records::run;
use fixtures::{RowFault, Rows, field};
use outside::disk::Disk;
use outside_memory::{Call, MemDisk};
use std::alloc::Global;

/// The effect of a crash on the last call, where no sync follows it.
#[derive(Clone, Copy)]
enum Crash {
    /// Nothing of it was written.
    Undone,
    /// The first half of a write was written.
    Half,
    /// Each byte in the range of a write is this one.
    Torn(u8),
    /// All of it was written.
    Done,
}

/// `STEP | CRASH`: whether at each moment of a step of a journal such a crash results in records that an opening finds: those that were acknowledged, or
/// these with one more, or with all records that were appended at once.
#[derive(Drop)]
pub struct Crashes;

impl Rows for Crashes {
    fn holds(&mut self, alloc: Global, row: &str) -> Result<bool, RowFault> {
        let (step, crash) = field(row);
        let crash = read_crash(crash)?;
        let disk = disk_of(alloc, b"")?;
        let (_told, disk) = run(alloc, disk, step);
        each_moment(alloc, disk.calls(), step, crash)
    }
}

fn read_crash(words: &str) -> Result<Crash, RowFault> {
    match words {
        "undone" => Ok(Crash::Undone),
        "half" => Ok(Crash::Half),
        "torn 01" => Ok(Crash::Torn(1)),
        "torn ff" => Ok(Crash::Torn(255)),
        "done" => Ok(Crash::Done),
        _ => Err(RowFault::Form),
    }
}

fn each_moment(alloc: Global, calls: &[Call], step: &str, crash: Crash) -> Result<bool, RowFault> {
    for moment in 0..=calls.len() {
        if !stands(alloc, &calls[..moment], step, crash)? {
            return Ok(false);
        }
    }
    Ok(true)
}

fn stands(alloc: Global, calls: &[Call], step: &str, crash: Crash) -> Result<bool, RowFault> {
    let left = image(alloc, calls, crash)?;
    let found = found_in(alloc, left.bytes())?;
    Ok(found.word == "ok" && are_right(step, calls.len(), found.count))
}

// Opening makes three calls that are listed, and an append four.
fn are_right(step: &str, moment: usize, count: usize) -> bool {
    if step == "once" {
        return count == 3 || count == 0 && moment < 7;
    }
    let acknowledged = moment.saturating_sub(3) / 4;
    acknowledged <= count && count <= acknowledged.saturating_add(1)
}

// Returns the disk after a crash after these calls. Each change is synced before the next, so only the last can be torn.
fn image(alloc: Global, calls: &[Call], crash: Crash) -> Result<MemDisk, RowFault> {
    let mut disk = disk_of(alloc, b"")?;
    if let Some((last, before)) = calls.split_last() {
        call_all(&mut disk, before);
        crash_call(alloc, &mut disk, last, crash)?;
    }
    Ok(disk)
}

fn call_all<D: Disk>(disk: &mut D, calls: &[Call]) {
    for call in calls {
        let _done = call_again(disk, call);
    }
}

fn crash_call<D: Disk>(
    alloc: Global,
    disk: &mut D,
    call: &Call,
    crash: Crash,
) -> Result<(), RowFault> {
    match (call, crash) {
        (_, Crash::Done) => {
            let _done = call_again(disk, call);
            Ok(())
        }
        (Call::Write { at, piece }, _) => crash_write(alloc, disk, *at, piece.as_slice(), crash),
        (Call::Cut { .. } | Call::Sync, _) => Ok(()),
    }
}

// Writes a piece as it is after the crash.
fn crash_write<D: Disk>(
    alloc: Global,
    disk: &mut D,
    at: u64,
    piece: &[u8],
    crash: Crash,
) -> Result<(), RowFault> {
    match crash {
        Crash::Undone | Crash::Done => Ok(()),
        Crash::Half => {
            let _done = disk.write_at(at, &piece[..piece.len() / 2]);
            Ok(())
        }
        Crash::Torn(byte) => write_torn(alloc, disk, at, piece.len(), byte),
    }
}

fn write_torn<D: Disk>(
    alloc: Global,
    disk: &mut D,
    at: u64,
    len: usize,
    byte: u8,
) -> Result<(), RowFault> {
    let torn = vec![in alloc; byte; len]?;
    let _done = disk.write_at(at, torn.as_slice());
    Ok(())
}
