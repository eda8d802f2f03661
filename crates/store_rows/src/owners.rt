//! Who has which keys, and the versions of tables.

use crate::tables::table_of;
use bson_values::Value;
use chunk_table::{Table, Version};
use cluster_base::{NodeId, Time};
use fixtures::{RowFault, Rows, field, number};
use std::alloc::Global;
use value_compare::Key;

/// `TABLE | KEY | SHARD | TIME | SHARD or none`: who has the key now, and who had it at the time; read from a copy of the table.
#[derive(Drop)]
pub struct Owners;

impl Rows for Owners {
    fn holds(&mut self, alloc: Global, row: &str) -> Result<bool, RowFault> {
        let (name, rest) = field(row);
        let (key, rest) = field(rest);
        let table = table_of(alloc, name)?.copy(alloc)?;
        let Ok(key) = Key::of(Value::Int64(number(key)?)) else {
            return Err(RowFault::Form);
        };
        owners_hold(&table, &key, rest)
    }
}

fn owners_hold(table: &Table, key: &Key, row: &str) -> Result<bool, RowFault> {
    let (now, rest) = field(row);
    let (time, before) = field(rest);
    let now = NodeId(number(now)?);
    let before = match before {
        "none" => None,
        _ => Some(NodeId(number(before)?)),
    };
    let time = Time(number(time)?);
    Ok(table.owner_now(key) == now && table.owner_at(key, time) == before)
}

/// `TABLE | SHARD | VERSION | VERSION | longer or not`: the versions of the shard and of the whole, and whether the table is longer
/// than the first one. A version is an epoch, moves and splits.
#[derive(Drop)]
pub struct Versions;

impl Rows for Versions {
    fn holds(&mut self, alloc: Global, row: &str) -> Result<bool, RowFault> {
        let (name, rest) = field(row);
        let table = table_of(alloc, name)?;
        let first = table_of(alloc, "first")?;
        versions_hold(&table, &first, rest)
    }
}

fn versions_hold(table: &Table, first: &Table, row: &str) -> Result<bool, RowFault> {
    let (shard, rest) = field(row);
    let (of_shard, rest) = field(rest);
    let (whole, longer) = field(rest);
    let shard = NodeId(number(shard)?);
    let of_shard = read_version(of_shard)?;
    let whole = read_version(whole)?;
    let is_longer = table.longer_than(first) == (longer == "longer");
    Ok(
        is_longer
            && table.namespace().as_str() == "d.c"
            && table.shard_version(shard) == of_shard
            && table.version() == whole,
    )
}

/// Returns a version in three numbers.
pub fn read_version(words: &str) -> Result<Version, RowFault> {
    let Some((epoch, rest)) = words.split_once(' ') else {
        return Err(RowFault::Form);
    };
    let Some((major, minor)) = rest.split_once(' ') else {
        return Err(RowFault::Form);
    };
    Ok(Version {
        epoch: number(epoch)?,
        major: number(major)?,
        minor: number(minor)?,
    })
}
