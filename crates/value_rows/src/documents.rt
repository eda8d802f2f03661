//! What bytes are read as, and how the result is written.

use bson_values::{BsonFault, read, write};
use fixtures::{RowFault, Rows, bytes_of, field, number};
use std::alloc::{AllocError, Global};

/// `BYTES | OUTCOME`. The outcome is a fault with its offset, as `short 13`, and for `bad_type` the byte; or `same` where all bytes are read, and written as
/// they were; or else how many bytes are read, and what is written in their place, as `16 bytes 0500..`.
#[derive(Drop)]
pub struct Documents;

impl Rows for Documents {
    fn holds(&mut self, alloc: Global, row: &str) -> Result<bool, RowFault> {
        let (words, wanted) = field(row);
        let bytes = bytes_of(alloc, words)?;
        has_outcome(alloc, &bytes, wanted)
    }
}

/// `BYTES | LENGTH | OUTCOME`: each prefix up to that length is short at its own end, and the longer ones have the outcome.
#[derive(Drop)]
pub struct Prefixes;

impl Rows for Prefixes {
    fn holds(&mut self, alloc: Global, row: &str) -> Result<bool, RowFault> {
        let (words, rest) = field(row);
        let (length, wanted) = field(rest);
        let length = number(length)?;
        let bytes = bytes_of(alloc, words)?;
        have_outcomes(alloc, &bytes, length, wanted)
    }
}

fn have_outcomes(
    alloc: Global,
    bytes: &[u8],
    length: usize,
    wanted: &str,
) -> Result<bool, RowFault> {
    for end in 0..=bytes.len() {
        if !prefix_has(alloc, &bytes[..end], length, wanted)? {
            return Ok(false);
        }
    }
    Ok(true)
}

fn prefix_has(alloc: Global, prefix: &[u8], length: usize, wanted: &str) -> Result<bool, RowFault> {
    let end = prefix.len();
    if end > length {
        return has_outcome(alloc, prefix, wanted);
    }
    let short = format!(in alloc; "short {end}")?;
    has_outcome(alloc, prefix, short.as_str())
}

fn has_outcome(alloc: Global, bytes: &[u8], wanted: &str) -> Result<bool, RowFault> {
    let found = match read_and_write(alloc, bytes) {
        Ok(found) => outcome_of(alloc, bytes, &found),
        Err(fault) => fault_outcome(alloc, fault),
    };
    let found = found?;
    Ok(found.as_str() == wanted)
}

// What is read, and how a copy of it is written.
#[derive(Drop)]
struct Respelled {
    // How many bytes are read.
    length: usize,
    // How many bytes are to be written.
    size: usize,
    // The byte aa, and then those that are written.
    out: Vec<u8>,
}

fn read_and_write(alloc: Global, bytes: &[u8]) -> Result<Respelled, BsonFault> {
    let (document, length) = read(alloc, bytes)?;
    let copy = document.copy()?;
    let mut out = Vec::from_slice(alloc, &[0xaa])?;
    let size = copy.size();
    if size <= 200_000_000 {
        write(&copy, &mut out)?;
    }
    Ok(Respelled { length, size, out })
}

fn outcome_of(alloc: Global, bytes: &[u8], found: &Respelled) -> Result<String, RowFault> {
    let length = found.length;
    let [0xaa, spelled @ ..] = found.out.as_slice() else {
        return Ok(String::from_str(alloc, "something else before it")?);
    };
    if spelled.len() != found.size {
        return Ok(String::from_str(alloc, "another size")?);
    }
    if length == bytes.len() && spelled == bytes {
        return Ok(String::from_str(alloc, "same")?);
    }
    let digits = hex::encode(alloc, spelled)?;
    Ok(format!(in alloc; "{length} bytes {digits}")?)
}

fn fault_outcome(alloc: Global, fault: BsonFault) -> Result<String, RowFault> {
    let Some(offset) = fault.place() else {
        return Err(RowFault::Memory);
    };
    let name = match fault {
        BsonFault::BadType { byte, .. } => return Ok(bad_type(alloc, offset, byte)?),
        BsonFault::Short { .. } => "short",
        BsonFault::BadLength { .. } => "bad_length",
        BsonFault::BadText { .. } => "bad_text",
        BsonFault::BadBool { .. } => "bad_bool",
        BsonFault::Deep { .. } => "deep",
        BsonFault::Trailing { .. } => "trailing",
        BsonFault::Memory => "memory",
    };
    Ok(format!(in alloc; "{name} {offset}")?)
}

fn bad_type(alloc: Global, offset: usize, byte: u8) -> Result<String, AllocError> {
    format!(in alloc; "bad_type {offset} {byte:02x}")
}
