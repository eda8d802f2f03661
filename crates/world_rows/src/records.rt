//! Records of a journal, and steps with them.
ghost use Rattle.std.specs.Prelude.{IsTrue};

use bson_values::{Blob, Memory};
use journal_frames::{Journal, OpenFault};
use outside::disk::Disk;
use outside::log::{Log, LogFault, RecordList};
use std::alloc::Global;

/// How many records are acknowledged or found, and `ok` or the fault.
#[derive(Clone, Copy, PartialEq, Eq)]
pub struct Told {
    pub count: usize,
    pub word: &'static str,
}

/// The records, by their number.
pub fn record(i: usize) -> &'static [u8] {
    match i {
        0 => b"ab".as_slice(),
        1 => b"".as_slice(),
        _ => b"c".as_slice(),
    }
}

/// Opens a journal on a disk and makes a step there: `each` appends the three records one after another, `once` all at once, `none` no record, and `open`
/// does nothing more. Returns the result, and the disk.
pub fn run<D: Disk>(alloc: Global, disk: D, step: &str) -> (Told, D) {
    match Journal::open(alloc, disk) {
        Ok((journal, records)) => done(alloc, journal, told_of(&records), step),
        Err(fault) => refused(fault),
    }
}

fn done<D: Disk>(alloc: Global, journal: Journal<D>, found: Told, step: &str) -> (Told, D)
    requires { IsTrue journal.is_open }
{
    let mut journal = journal;
    let told = match step {
        "each" => append_each(&mut journal),
        "once" => append_at_once(alloc, &mut journal),
        "none" => acknowledged(journal.append_all(&[]), 0),
        _ => found,
    };
    (told, journal.into_disk())
}

// Appends the records until a disk fails.
fn append_each<D: Disk>(journal: &mut Journal<D>) -> Told
    requires { IsTrue journal.old.is_open }
{
    for count in 0..3usize {
        if let Err(fault) = journal.append(record(count)) {
            return failed(fault, count);
        }
    }
    acknowledged(Ok(()), 3)
}

fn append_at_once<D: Disk>(alloc: Global, journal: &mut Journal<D>) -> Told
    requires { IsTrue journal.old.is_open }
{
    match bodies(alloc) {
        Ok(bodies) => acknowledged(journal.append_all(&bodies), 3),
        Err(Memory) => failed(LogFault::Memory, 0),
    }
}

// The records as the parts of one step.
fn bodies(alloc: Global) -> Result<Vec<Blob>, Memory> {
    let mut bodies = Vec::new(alloc);
    for i in 0..3usize {
        bodies.push(Blob::of(alloc, record(i))?)?;
    }
    Ok(bodies)
}

fn acknowledged(done: Result<(), LogFault>, count: usize) -> Told {
    match done {
        Ok(()) => Told { count, word: "ok" },
        Err(fault) => failed(fault, 0),
    }
}

fn failed(fault: LogFault, count: usize) -> Told {
    let word = match fault {
        LogFault::Disk { faults: 1 } => "disk",
        LogFault::Disk { .. } => "another count of faults",
        LogFault::Memory => "memory",
    };
    Told { count, word }
}

// Returns the result of an opening that failed, and its disk.
fn refused<D: Disk>(fault: OpenFault<D>) -> (Told, D) {
    let (word, disk) = match fault {
        OpenFault::Disk(disk) => ("not opened", disk),
        OpenFault::Damaged { place: _, disk } => ("damaged", disk),
        OpenFault::Memory(disk) => ("memory", disk),
    };
    (Told { count: 0, word }, disk)
}

// Returns the result for the records, which must be the first of the table.
fn told_of(records: &RecordList) -> Told {
    let found = records.as_slice();
    let count = found.len();
    let word = if are_first(found) {
        "ok"
    } else {
        "other records"
    };
    Told { count, word }
}

fn are_first(found: &[Blob]) -> bool {
    for (i, body) in found.iter().enumerate() {
        if i >= 3 || body.as_slice() != record(i) {
            return false;
        }
    }
    true
}
