//! Bytes that encode a record, and bytes that encode none.

use fixtures::{RowFault, Rows, bytes_of, field};
use record_reader::{RecordFault, read_record};
use shard_records::Record;
use std::alloc::Global;

/// `KIND | BYTES`: the bytes are read as a record of that kind. No prefix of them is read, nor they with one byte appended.
#[derive(Drop)]
pub struct Records;

impl Rows for Records {
    fn holds(&mut self, alloc: Global, row: &str) -> Result<bool, RowFault> {
        let (kind, words) = field(row);
        let bytes = bytes_of(alloc, words)?;
        Ok(is_read(alloc, kind, &bytes)? && alone_is_read(alloc, bytes)?)
    }
}

/// `BYTES`: they are read as no record.
#[derive(Drop)]
pub struct Others;

impl Rows for Others {
    fn holds(&mut self, alloc: Global, row: &str) -> Result<bool, RowFault> {
        let bytes = bytes_of(alloc, row)?;
        is_none(alloc, &bytes)
    }
}

/// A value of one of several kinds, each with a name.
trait Kind {
    /// Returns the name of its kind.
    fn kind(&self) -> &'static str;
}

impl Kind for Record {
    fn kind(&self) -> &'static str {
        match self {
            Record::Table(_) => "table",
            Record::Entry { .. } => "entry",
            Record::Ceiling(_) => "ceiling",
            Record::Floor(_) => "floor",
            Record::MoveStart(_) => "move-start",
            Record::Section(_) => "section",
            Record::MoveEnd(_) => "move-end",
            Record::Released(_) => "released",
            Record::ReceiveStart(_) => "receive-start",
            Record::Batch(_) => "batch",
            Record::ReceiveDone(_) => "receive-done",
            Record::ReceiveEnd(_) => "receive-end",
            Record::Deleted(_) => "deleted",
            Record::Create { .. } => "create",
            Record::Split(_) => "split",
            Record::Commit(_) => "commit",
            Record::Resolve(_) => "resolve",
            Record::Purge(_) => "purge",
            Record::CatalogueCeiling(_) => "catalogue-ceiling",
            Record::Life(_) => "life",
            Record::Block(_) => "block",
        }
    }
}

// Returns the name of the kind of what was read, if something was. It is let go here, in a function of any type: the drop of a record is long to prove.
fn kind_in<T: Kind + Drop>(
    found: Result<T, RecordFault>,
) -> Result<Option<&'static str>, RowFault> {
    match found {
        Ok(found) => Ok(Some(found.kind())),
        Err(RecordFault::NoRecord) => Ok(None),
        Err(RecordFault::Memory) => Err(RowFault::Memory),
    }
}

fn is_none(alloc: Global, bytes: &[u8]) -> Result<bool, RowFault> {
    let kind = kind_in(read_record(alloc, bytes))?;
    Ok(kind.is_none())
}

// Returns whether the bytes are a record of that kind.
fn is_read(alloc: Global, kind: &str, bytes: &[u8]) -> Result<bool, RowFault> {
    match kind_in(read_record(alloc, bytes))? {
        Some(found) => Ok(found == kind),
        None => Ok(false),
    }
}

// Returns whether no prefix of the bytes is read, nor they with a byte appended.
fn alone_is_read(alloc: Global, bytes: Vec<u8>) -> Result<bool, RowFault> {
    let mut bytes = bytes;
    for i in 0..bytes.len() {
        if !is_none(alloc, &bytes[..i])? {
            return Ok(false);
        }
    }
    bytes.push(0)?;
    is_none(alloc, &bytes)
}
