//! The disks before and after a call.

use crate::fault::{RowFault, both};
use crate::plans::DiskPlan;
use bson_values::Blob;
use byteorder::{ByteOrder, LittleEndian};
use journal_frames::{Journal, OpenFault};
use outside::disk::Disk;
use outside::log::RecordList;
use outside_memory::MemDisk;
use record_reader::{RecordFault, read_record};
use std::alloc::Global;

fn copied<T: Copy>(alloc: Global, all: &[T]) -> Result<Vec<T>, RowFault> {
    Ok(Vec::from_slice(alloc, all)?)
}

/// Returns a disk of these bytes, some calls of which fail.
fn disk_of(alloc: Global, bytes: &[u8], failing: &[u64]) -> Result<MemDisk, RowFault> {
    let (bytes, failing) = both(copied(alloc, bytes), copied(alloc, failing))?;
    Ok(MemDisk::new(bytes, failing))
}

/// Returns the disks as the plans have them at the start.
pub fn disks_of(alloc: Global, plans: &[DiskPlan]) -> Result<Vec<MemDisk>, RowFault> {
    let mut disks = Vec::new(alloc);
    for plan in plans {
        disks.push(disk_of(alloc, &plan.file, &plan.failing)?)?;
    }
    Ok(disks)
}

/// Returns whether the disk's file has the length that it must have.
fn is_sized(plan: &DiskPlan, disk: &MemDisk) -> bool {
    let size = disk.bytes().len() as u64;
    plan.size.unwrap_or(size) == size
}

/// Returns whether the disk's file is that of the start, where the row says so.
fn is_same(plan: &DiskPlan, disk: &MemDisk) -> bool {
    !plan.is_same || disk.bytes() == plan.file.as_slice()
}

/// Returns whether the disk's file is the one that it must be.
fn is_kept(plan: &DiskPlan, disk: &MemDisk) -> bool {
    match &plan.kept {
        Some(bytes) => disk.bytes() == bytes.as_slice(),
        None => true,
    }
}

/// Returns whether each disk's file is that of the start, and no call changed or synced it.
pub fn are_untouched(plans: &[DiskPlan], disks: &[MemDisk]) -> bool {
    for (plan, disk) in plans.iter().zip(disks) {
        if disk.bytes() != plan.file.as_slice() || !disk.calls().is_empty() {
            return false;
        }
    }
    true
}

/// Returns the records that an opening of the journal in these bytes finds, or none if it is not opened.
fn records_in(alloc: Global, file: &[u8]) -> Result<Option<RecordList>, RowFault> {
    found_in(Journal::open(alloc, disk_of(alloc, file, &[])?))
}

/// Returns what an opening found. The journal is let go here, in a function of any type.
fn found_in<J: Drop, T: Drop, D: Disk>(
    opened: Result<(J, T), OpenFault<D>>,
) -> Result<Option<T>, RowFault> {
    match opened {
        Ok((_journal, found)) => Ok(Some(found)),
        Err(OpenFault::Memory(_)) => Err(RowFault::Memory),
        Err(OpenFault::Damaged { .. } | OpenFault::Disk(_)) => Ok(None),
    }
}

/// Returns the record that the bytes from a gate on begin with, and the bytes from the next gate on, by its length; none after a gate that is not open.
fn split_record(file: &[u8]) -> Option<(&[u8], &[u8])> {
    if file.len() < 9 || file[0] != 1 {
        return None;
    }
    let (head, behind) = file.split_at(9);
    let length = LittleEndian::read_u64(&head[1..]);
    if length >= behind.len() as u64 {
        return None;
    }
    Some(behind.split_at(length as usize))
}

/// Returns whether something was read. It is let go here, in a function of any type: the drop of a record is long to prove.
fn was_read<T: Drop>(found: Result<T, RecordFault>) -> Result<bool, RowFault> {
    match found {
        Ok(_found) => Ok(true),
        Err(RecordFault::NoRecord) => Ok(false),
        Err(RecordFault::Memory) => Err(RowFault::Memory),
    }
}

/// Returns whether all of the bytes are read as one record.
fn is_record(alloc: Global, bytes: &[u8]) -> Result<bool, RowFault> {
    was_read(read_record(alloc, bytes))
}

/// Returns whether these are just the records in the bytes, by their gates and lengths, and each is read.
fn are_read(alloc: Global, found: &[Blob], file: &[u8]) -> Result<bool, RowFault> {
    let mut rest = file;
    for bytes in found {
        let Some((record, behind)) = split_record(rest) else {
            return Ok(false);
        };
        if bytes.as_slice() != record || !is_record(alloc, record)? {
            return Ok(false);
        }
        rest = behind;
    }
    Ok(rest.len() < 2 || rest[0] != 1)
}

/// Returns whether these are the first of the records.
fn are_first(found: &[Blob], records: &[Vec<u8>]) -> bool {
    if records.len() < found.len() {
        return false;
    }
    for (bytes, record) in found.iter().zip(records) {
        if bytes.as_slice() != record.as_slice() {
            return false;
        }
    }
    true
}

/// Returns whether as many records were found as the row says, and these are the first of its records.
fn are_counted(plan: &DiskPlan, found: &[Blob]) -> bool {
    let Some((least, most)) = plan.found else {
        return true;
    };
    let count = found.len() as u64;
    least <= count && count <= most && are_first(found, &plan.records)
}

/// Returns whether an opening of the disk's journal finds just the records in its file, each of which is read, and those of the row, where the row says so.
fn is_found(alloc: Global, plan: &DiskPlan, disk: &MemDisk) -> Result<bool, RowFault> {
    if !plan.is_read && plan.found.is_none() {
        return Ok(true);
    }
    let Some(found) = records_in(alloc, disk.bytes())? else {
        return Ok(false);
    };
    let is_read = !plan.is_read || are_read(alloc, found.as_slice(), disk.bytes())?;
    Ok(is_read && are_counted(plan, found.as_slice()))
}

/// Returns whether a disk has the content that its plan says.
fn is_left(alloc: Global, plan: &DiskPlan, disk: &MemDisk) -> Result<bool, RowFault> {
    let is_right = is_kept(plan, disk) && is_sized(plan, disk) && is_same(plan, disk);
    Ok(is_right && is_found(alloc, plan, disk)?)
}

/// Returns whether the disks have the content that the plans say, one for each.
pub fn are_left(alloc: Global, plans: &[DiskPlan], disks: &[MemDisk]) -> Result<bool, RowFault> {
    for (plan, disk) in plans.iter().zip(disks) {
        if !is_left(alloc, plan, disk)? {
            return Ok(false);
        }
    }
    Ok(plans.len() == disks.len())
}
