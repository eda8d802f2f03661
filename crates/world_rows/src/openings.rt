//! What opening finds in the files of journals. A row is `records N:` or `damage N:`, the number of records or the offset of the damage, and then the file's
//! bytes in hexadecimal.

use fixtures::{RowFault, Rows};
use journal_frames::{Journal, OpenFault};
use outside_memory::MemDisk;
use std::alloc::{AllocError, Global};

/// The content of a file.
#[derive(Drop)]
enum Found {
    /// This number of records.
    Records(usize),
    /// Damage at this offset, and the file is unchanged.
    Damage(u64),
    /// Neither.
    Neither,
}

/// Returns damage at an offset, where the file is unchanged.
fn damage_at(offset: u64, stayed: bool) -> Found {
    if stayed {
        Found::Damage(offset)
    } else {
        Found::Neither
    }
}

/// Returns what an opening finds in a file.
fn found_in(alloc: Global, file: &[u8]) -> Result<Found, AllocError> {
    let disk = MemDisk::new(Vec::from_slice(alloc, file)?, Vec::new(alloc));
    match Journal::open(alloc, disk) {
        Ok((_, records)) => Ok(Found::Records(records.as_slice().len())),
        Err(OpenFault::Damaged { place, disk }) => Ok(damage_at(place, disk.bytes() == file)),
        Err(OpenFault::Disk(_) | OpenFault::Memory(_)) => Ok(Found::Neither),
    }
}

/// Returns what was found, in words.
fn words_of(alloc: Global, found: &Found) -> Result<String, AllocError> {
    match found {
        Found::Records(count) => format!(in alloc; "records {count}"),
        Found::Damage(offset) => format!(in alloc; "damage {offset}"),
        Found::Neither => String::from_str(alloc, "neither"),
    }
}

/// Returns whether what an opening finds in a file is what the words say.
fn is_found(alloc: Global, wanted: &str, file: &[u8]) -> Result<bool, AllocError> {
    let found = found_in(alloc, file)?;
    let words = words_of(alloc, &found)?;
    Ok(words.as_str() == wanted)
}

/// Returns whether a row says what an opening finds.
fn is_right(alloc: Global, row: &str) -> Result<bool, AllocError> {
    let Some((wanted, digits)) = row.split_once(':') else {
        return Ok(false);
    };
    match hex::decode(alloc, digits.trim()) {
        Ok(file) => is_found(alloc, wanted, file.as_slice()),
        Err(_) => Ok(false),
    }
}

/// The files of journals, each with what opening finds in it.
#[derive(Drop)]
pub struct Openings;

impl Rows for Openings {
    fn holds(&mut self, alloc: Global, row: &str) -> Result<bool, RowFault> {
        Ok(is_right(alloc, row)?)
    }
}
