//! Tables and their chunks.

use crate::words::{read_range, read_version};
use chunk_table::{Chunk, Owned, Table};
use cluster_base::{NodeId, Time};
use fixtures::{RowFault, field, number};
use std::cmp::Ordering;

/// `CHANGES | COUNT`: how many changes the table has seen, and how many chunks it has; `none` for no table.
pub fn table_holds(table: Option<&Table>, row: &str) -> Result<bool, RowFault> {
    let Some(table) = table else {
        return Ok(row == "none");
    };
    let (changes, count) = field(row);
    let changes: u64 = number(changes)?;
    let count: usize = number(count)?;
    Ok(table.epoch() == 1 && table.changes() == changes && table.chunks().len() == count)
}

/// `INDEX | MIN, MAX | VERSION | OWNERS`: the chunk at the index. An owner is the time since when, and the shard; the newest is first, with
/// a comma between.
pub fn chunk_holds(table: Option<&Table>, row: &str) -> Result<bool, RowFault> {
    let (index, rest) = field(row);
    let index: usize = number(index)?;
    let Some(table) = table else {
        return Ok(false);
    };
    match table.chunks().get(index) {
        Some(chunk) => is_chunk(chunk, rest),
        None => Ok(false),
    }
}

fn is_chunk(chunk: &Chunk, row: &str) -> Result<bool, RowFault> {
    let (range, rest) = field(row);
    let (version, owners) = field(rest);
    let range = read_range(range)?;
    let version = read_version(version)?;
    let is_range = chunk.range.min().compare(range.min()) == Ordering::Equal
        && chunk.range.max().compare(range.max()) == Ordering::Equal;
    Ok(is_range && chunk.version == version && are_owners(chunk.history.as_slice(), owners)?)
}

fn are_owners(owners: &[Owned], words: &str) -> Result<bool, RowFault> {
    let mut wanted = words.split(", ");
    for owned in owners {
        let Some(words) = wanted.next() else {
            return Ok(false);
        };
        if read_owned(words)? != *owned {
            return Ok(false);
        }
    }
    Ok(wanted.next().is_none())
}

/// Returns an owner: the time since when, and the shard.
pub fn read_owned(words: &str) -> Result<Owned, RowFault> {
    let Some((since, shard)) = words.split_once(' ') else {
        return Err(RowFault::Form);
    };
    Ok(Owned {
        valid_after: Time(number(since)?),
        shard: NodeId(number(shard)?),
    })
}
