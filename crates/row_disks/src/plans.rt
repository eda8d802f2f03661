//! What a row says of disks.

use crate::fault::RowFault;
use crate::words::{bytes_of, number, place, put_number, split};
use outside_memory::MemDisk;
use std::alloc::Global;

/// A disk: its file at the start and the numbers of its calls that fail; and, where the row says so, its file at the end, whether the records in that are
/// read, or the length of that, whether that is the file of the start, and the records of which an opening of its journal finds the first ones, at least and
/// at most how many.
#[derive(Drop)]
pub struct DiskPlan {
    pub file: Vec<u8>,
    pub failing: Vec<u64>,
    pub kept: Option<Vec<u8>>,
    pub is_read: bool,
    pub size: Option<u64>,
    pub is_same: bool,
    pub records: Vec<Vec<u8>>,
    pub found: Option<(u64, u64)>,
}

impl DiskPlan {
    /// An empty disk that doesn't fail.
    pub fn new(alloc: Global) -> DiskPlan {
        DiskPlan::on(Vec::new(alloc), alloc)
    }

    /// A disk of this file that doesn't fail.
    fn on(file: Vec<u8>, alloc: Global) -> DiskPlan {
        DiskPlan {
            file,
            failing: Vec::new(alloc),
            kept: None,
            is_read: false,
            size: None,
            is_same: false,
            records: Vec::new(alloc),
            found: None,
        }
    }

    /// Reads the number of a call that fails.
    pub fn fail(&mut self, call: &str) -> Result<(), RowFault> {
        put_number(&mut self.failing, call)
    }

    /// Reads a line: its first word, and what follows it. Returns `Memory` if memory runs out, and an error where no line begins with the word.
    pub fn take(&mut self, alloc: Global, word: &str, rest: &str) -> Result<(), RowFault> {
        if word == "size" {
            self.size = Some(number(rest)?);
            return Ok(());
        }
        if word == "finds" {
            return self.take_found(rest);
        }
        self.take_bytes(alloc, word, rest)
    }

    /// Reads the least and the greatest number of records.
    fn take_found(&mut self, rest: &str) -> Result<(), RowFault> {
        let (least, most) = split(rest)?;
        self.found = Some((number(least)?, number(most)?));
        Ok(())
    }

    /// Reads a line of bytes.
    fn take_bytes(&mut self, alloc: Global, word: &str, pieces: &str) -> Result<(), RowFault> {
        let bytes = bytes_of(alloc, pieces)?;
        if word == "file" {
            self.file = bytes;
        } else if word == "keeps" || word == "has" {
            self.kept = Some(bytes);
            self.is_read = word == "keeps";
        } else if word == "record" {
            self.records.push(bytes)?;
        } else {
            return Err(RowFault::BadLine);
        }
        Ok(())
    }
}

/// Appends plans of empty disks, until there are so many plans.
pub fn add_plans(alloc: Global, plans: &mut Vec<DiskPlan>, count: u64) -> Result<(), RowFault> {
    for _ in plans.len() as u64..count {
        plans.push(DiskPlan::new(alloc))?;
    }
    Ok(())
}

/// Returns plans that have at the start what these disks have, and say nothing else.
pub fn plans_on(alloc: Global, disks: &[MemDisk]) -> Result<Vec<DiskPlan>, RowFault> {
    let mut plans = Vec::new(alloc);
    for disk in disks {
        plans.push(DiskPlan::on(Vec::from_slice(alloc, disk.bytes())?, alloc))?;
    }
    Ok(plans)
}

/// Returns the plan of the disk of that number.
pub fn plan_of<'a>(
    plans: &'a mut Vec<DiskPlan>,
    digits: &str,
) -> Result<&'a mut DiskPlan, RowFault> {
    let index = place(digits)?;
    plans.get_mut(index).ok_or(RowFault::BadLine)
}
