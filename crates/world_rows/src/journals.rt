//! Journals on disks in memory, one of whose calls fails.

use crate::disks::{disk_of, lists, spelled_disk};
use crate::records::{Told, run};
use fixtures::{RowFault, Rows, bytes_of, field, number};
use outside::disk::Disk;
use outside_memory::MemDisk;
use std::alloc::Global;

// A file with all three records.
const WHOLE: &str = "01 0200000000000000 'ab' 01 0000000000000000 01 0100000000000000 'c' 00";

/// `FILE | FAILING | STEP | ANSWER | FAULTS | FOUND | CALLS`: the result of a step of a journal on an empty or a whole file, where one call of the disk
/// fails; how many faults the disk met; how many records are there afterwards; and its listed calls, or `any`.
#[derive(Drop)]
pub struct Journals;

impl Rows for Journals {
    fn holds(&mut self, alloc: Global, row: &str) -> Result<bool, RowFault> {
        let (file, rest) = field(row);
        let (failing, rest) = field(rest);
        let (step, rest) = field(rest);
        let disk = file_disk(alloc, file, failing)?;
        let (told, disk) = run(alloc, disk, step);
        is_told(alloc, told, &disk, rest)
    }
}

fn file_disk(alloc: Global, file: &str, failing: &str) -> Result<MemDisk, RowFault> {
    match file {
        "empty" => spelled_disk(alloc, "", failing),
        "whole" => spelled_disk(alloc, WHOLE, failing),
        _ => Err(RowFault::Form),
    }
}

fn is_told(alloc: Global, told: Told, disk: &MemDisk, row: &str) -> Result<bool, RowFault> {
    let (answer, rest) = field(row);
    let (faults, rest) = field(rest);
    let faults: u64 = number(faults)?;
    Ok(tells(told, answer)? && disk.faults() == faults && stands(alloc, disk, rest)?)
}

/// Returns whether this is the result: a count, and `ok` or a fault.
pub fn tells(told: Told, answer: &str) -> Result<bool, RowFault> {
    let Some((count, word)) = answer.split_once(' ') else {
        return Err(RowFault::Form);
    };
    let count: usize = number(count)?;
    Ok(told.count == count && told.word == word)
}

// Returns whether the disk has this number of records and lists these calls. With all records it is whole.
fn stands(alloc: Global, disk: &MemDisk, row: &str) -> Result<bool, RowFault> {
    let (count, calls) = field(row);
    let count: usize = number(count)?;
    let found = found_in(alloc, disk.bytes())?;
    let right = found == Told { count, word: "ok" };
    Ok(
        right
            && (calls == "any" || lists(alloc, disk, calls)?)
            && (count < 3 || is_whole(alloc, disk.bytes())?),
    )
}

fn is_whole(alloc: Global, bytes: &[u8]) -> Result<bool, RowFault> {
    let whole = bytes_of(alloc, WHOLE)?;
    Ok(bytes == whole.as_slice())
}

/// Returns what an opening of these bytes on a new disk finds.
pub fn found_in(alloc: Global, bytes: &[u8]) -> Result<Told, RowFault> {
    let disk = disk_of(alloc, bytes)?;
    let (told, _disk) = run(alloc, disk, "open");
    Ok(told)
}
