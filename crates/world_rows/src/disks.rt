//! Calls of disks, and disks in memory.

use crate::answers::{
    buffer_of, count_words, done_word, failing_calls, first_word, push_answer, read_words,
};
use fixtures::{RowFault, Rows, bytes_of, field, number};
use outside::disk::Disk;
use outside::streams::Failed;
use outside_memory::{Call, MemDisk};
use std::alloc::{AllocError, Global};

/// `BYTES | FAILING | CALLS | ANSWERS | BYTES | LISTED`: the results of calls of a disk of these bytes, where one of them may fail; the bytes afterwards, and
/// the calls that are listed. Making these calls again on the first bytes results in the same bytes.
#[derive(Drop)]
pub struct Disks;

impl Rows for Disks {
    fn holds(&mut self, alloc: Global, row: &str) -> Result<bool, RowFault> {
        let (start, rest) = field(row);
        let (failing, rest) = field(rest);
        let mut disk = spelled_disk(alloc, start, failing)?;
        let answered = answers_hold(alloc, &mut disk, rest)?;
        Ok(answered && is_replayed(alloc, start, &disk)?)
    }
}

/// Returns a disk of the bytes that these words encode, whose call of that number fails.
pub fn spelled_disk(alloc: Global, words: &str, failing: &str) -> Result<MemDisk, RowFault> {
    let bytes = bytes_of(alloc, words)?;
    Ok(MemDisk::new(bytes, failing_calls(alloc, failing)?))
}

/// Returns a disk of these bytes, no call of which fails.
pub fn disk_of(alloc: Global, bytes: &[u8]) -> Result<MemDisk, AllocError> {
    let bytes = Vec::from_slice(alloc, bytes)?;
    Ok(MemDisk::new(bytes, Vec::new(alloc)))
}

fn answers_hold(alloc: Global, disk: &mut MemDisk, row: &str) -> Result<bool, RowFault> {
    let (calls, rest) = field(row);
    let (wanted, left) = field(rest);
    let found = answers(alloc, disk, calls)?;
    Ok(found.as_str() == wanted && is_left(alloc, disk, left)?)
}

fn is_left(alloc: Global, disk: &MemDisk, row: &str) -> Result<bool, RowFault> {
    let (bytes, listed) = field(row);
    let bytes = bytes_of(alloc, bytes)?;
    Ok(disk.bytes() == bytes.as_slice() && lists(alloc, disk, listed)?)
}

// Returns whether making the listed calls again results in the bytes of the disk.
fn is_replayed(alloc: Global, start: &str, disk: &MemDisk) -> Result<bool, RowFault> {
    let mut again = spelled_disk(alloc, start, "none")?;
    for call in disk.calls() {
        if call_again(&mut again, call) != Ok(()) {
            return Ok(false);
        }
    }
    Ok(again.bytes() == disk.bytes())
}

/// Makes a listed call on a disk.
pub fn call_again<D: Disk>(disk: &mut D, call: &Call) -> Result<(), Failed> {
    match call {
        Call::Write { at, piece } => disk.write_at(*at, piece.as_slice()),
        Call::Cut { len } => disk.cut(*len),
        Call::Sync => disk.sync(),
    }
}

/// Returns whether these are the calls that are listed.
pub fn lists(alloc: Global, disk: &MemDisk, wanted: &str) -> Result<bool, AllocError> {
    let mut names = String::new(alloc);
    for call in disk.calls() {
        let name = call_name(alloc, call)?;
        push_answer(&mut names, name.as_str())?;
    }
    // The name of a write of no byte ends in a blank.
    Ok(names.as_str().trim_end() == wanted)
}

fn call_name(alloc: Global, call: &Call) -> Result<String, AllocError> {
    match call {
        Call::Write { at, piece } => write_name(alloc, *at, piece.as_slice()),
        Call::Cut { len } => format!(in alloc; "cut {len}"),
        Call::Sync => String::from_str(alloc, "sync"),
    }
}

fn write_name(alloc: Global, at: u64, piece: &[u8]) -> Result<String, AllocError> {
    let digits = hex::encode(alloc, piece)?;
    format!(in alloc; "write {at} {digits}")
}

/// Returns the results of these calls of a disk.
pub fn answers<D: Disk>(alloc: Global, disk: &mut D, calls: &str) -> Result<String, RowFault> {
    let mut answers = String::new(alloc);
    for call in calls.split(", ") {
        let answer = answer(alloc, disk, call)?;
        push_answer(&mut answers, answer.as_str())?;
    }
    Ok(answers)
}

fn answer<D: Disk>(alloc: Global, disk: &mut D, call: &str) -> Result<String, RowFault> {
    let (name, rest) = first_word(call);
    match name {
        "len" => Ok(count_words(alloc, disk.len())?),
        "read" => read(alloc, disk, rest),
        "write" => write(alloc, disk, rest),
        "cut" => cut(alloc, disk, rest),
        "sync" => Ok(String::from_str(alloc, done_word(disk.sync()))?),
        "faults" => Ok(count_words(alloc, Ok(disk.faults()))?),
        _ => Err(RowFault::Form),
    }
}

fn read<D: Disk>(alloc: Global, disk: &mut D, words: &str) -> Result<String, RowFault> {
    let (at, room) = first_word(words);
    let at = number(at)?;
    let mut buffer = buffer_of(alloc, room)?;
    let count = read_into(disk, at, buffer.as_mut_slice());
    Ok(read_words(alloc, count, buffer.as_slice())?)
}

// Callers need no clause about the disk.
fn read_into<D: Disk>(disk: &mut D, at: u64, buffer: &mut [u8]) -> Result<usize, Failed> {
    disk.read(at, buffer)
}

fn write<D: Disk>(alloc: Global, disk: &mut D, words: &str) -> Result<String, RowFault> {
    let (at, piece) = first_word(words);
    let at = number(at)?;
    let piece = bytes_of(alloc, piece)?;
    let done = disk.write_at(at, piece.as_slice());
    Ok(String::from_str(alloc, done_word(done))?)
}

fn cut<D: Disk>(alloc: Global, disk: &mut D, words: &str) -> Result<String, RowFault> {
    let done = disk.cut(number(words)?);
    Ok(String::from_str(alloc, done_word(done))?)
}
