//! Tables, and which chunks make one.

ghost use Rattle.std.specs.Prelude.{◌≡◌, ◌<◌, ◌^◌, IfOk, length};
ghost use Rattle.chunk_table.specs.Meanings.{chunk_view};
ghost use Rattle.chunk_table.specs.Whole.{IsWritableBound, IsWritableChunk};
ghost use Rattle.value_compare.specs.Bounds.{bound_of};

use bson_values::{Aligned, Value};
use chunk_table::{Chunk, Owned, OwnedList, Table, Version};
use cluster_base::{NameFault, Namespace, NodeId, Time};
use fixtures::{RowFault, Rows, field, number};
use std::alloc::Global;
use value_compare::{Bound, Key, KeyRange};

/// `MIN MAX | MIN MAX | table or none`: two chunks of these bounds, which are `min`, `max` or a number, are a table or not.
#[derive(Drop)]
pub struct Bounds;

impl Rows for Bounds {
    fn holds(&mut self, alloc: Global, row: &str) -> Result<bool, RowFault> {
        let (lower, rest) = field(row);
        let (upper, wanted) = field(rest);
        let lower = chunk_between(alloc, lower)?;
        let upper = chunk_between(alloc, upper)?;
        let made = two_chunks(alloc, lower, upper)?.is_some();
        match wanted {
            "table" => Ok(made),
            "none" => Ok(!made),
            _ => Err(RowFault::Form),
        }
    }
}

/// Returns the table of that name: `first` begins at 10; `moved` is it after the keys from 5 on went to shard 2 at 20.
pub fn table_of(alloc: Global, name: &str) -> Result<Table, RowFault> {
    match name {
        "first" => Ok(Table::first(alloc, namespace(alloc)?, 1, Time(10))?),
        "moved" => moved(alloc),
        _ => Err(RowFault::Form),
    }
}

fn namespace(alloc: Global) -> Result<Namespace, RowFault> {
    match Namespace::read(alloc, "d.c") {
        Ok(namespace) => Ok(namespace),
        Err(NameFault::Form) => Err(RowFault::Form),
        Err(NameFault::Memory) => Err(RowFault::Memory),
    }
}

fn moved(alloc: Global) -> Result<Table, RowFault> {
    let lower = lower(alloc)?;
    let upper = upper(alloc)?;
    match two_chunks(alloc, lower, upper)? {
        Some(table) => Ok(table),
        None => Err(RowFault::Form),
    }
}

// Returns the keys below 5: shard 1's since 10.
fn lower(alloc: Global) -> Result<Chunk, RowFault>
    ensures { IfOk result (λ c. IsWritableChunk (chunk_view c)) }
{
    let owners = Vec::from_slice(alloc, &[owned(10, 1)])?;
    chunk_of(Bound::MinKey, at(5)?, version(2, 1), owners)
}

// Returns the keys from 5 on: shard 2's since 20, and shard 1's since 10.
fn upper(alloc: Global) -> Result<Chunk, RowFault>
    ensures { IfOk result (λ c. IsWritableChunk (chunk_view c)) }
{
    let owners = Vec::from_slice(alloc, &[owned(20, 2), owned(10, 1)])?;
    chunk_of(at(5)?, Bound::MaxKey, version(2, 0), owners)
}

fn owned(since: u64, shard: u32) -> Owned {
    Owned {
        valid_after: Time(since),
        shard: NodeId(shard),
    }
}

fn version(major: u64, minor: u64) -> Version {
    Version {
        epoch: 1,
        major,
        minor,
    }
}

// Returns a chunk of two bounds, which is shard 1's since 10.
fn chunk_between(alloc: Global, bounds: &str) -> Result<Chunk, RowFault>
    ensures { IfOk result (λ c. IsWritableChunk (chunk_view c)) }
{
    let Some((min, max)) = bounds.split_once(' ') else {
        return Err(RowFault::Form);
    };
    let owners = Vec::from_slice(alloc, &[owned(10, 1)])?;
    let min = read_bound(min)?;
    chunk_of(min, read_bound(max)?, version(1, 0), owners)
}

fn read_bound(word: &str) -> Result<Bound, RowFault>
    ensures { IfOk result (λ b. IsWritableBound (bound_of b)) }
{
    match word {
        "min" => Ok(Bound::MinKey),
        "max" => Ok(Bound::MaxKey),
        _ => at(number(word)?),
    }
}

fn at(n: i32) -> Result<Bound, RowFault>
    ensures { IfOk result (λ b. IsWritableBound (bound_of b)) }
{
    match Key::of(Value::Int32(Aligned::of(n))) {
        Ok(key) => Ok(Bound::At(key)),
        Err(_value) => Err(RowFault::Form),
    }
}

fn chunk_of(min: Bound, max: Bound, version: Version, owners: Vec<Owned>) -> Result<Chunk, RowFault>
    requires min { IsWritableBound (bound_of min) }
    requires max { IsWritableBound (bound_of max) }
    requires count { length owners.items < 2 ^ 32 }
    ensures { IfOk result (λ c. IsWritableChunk (chunk_view c)) }
{
    match KeyRange::new(min, max) {
        Some(range) => Ok(Chunk {
            range,
            version,
            history: OwnedList::of(owners),
        }),
        None => Err(RowFault::Form),
    }
}

// Returns the table of two chunks after three changes, if they make one.
fn two_chunks(alloc: Global, lower: Chunk, upper: Chunk) -> Result<Option<Table>, RowFault>
    requires lower { IsWritableChunk (chunk_view lower) }
    requires upper { IsWritableChunk (chunk_view upper) }
{
    let mut chunks = Vec::new(alloc);
    chunks.push(lower)?;
    chunks.push(upper)?;
    let namespace = namespace(alloc)?;
    Ok(Table::of(namespace, 1, 3, Time(0), chunks))
}
