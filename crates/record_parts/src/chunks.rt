//! Reading the record of a table.

ghost use Rattle.std.specs.Prelude.{◌≡◌, ◌<◌, ◌^◌, length, map, IfOk};
ghost use Rattle.std.specs.List.{AllByRecursion};
ghost use Rattle.chunk_table.specs.Meanings.{chunk_view, owned_view, version_view};
ghost use Rattle.chunk_table.specs.Whole.{IsWritableBound, IsWritableChunk};
ghost use Rattle.std.specs.Str.{IsUtf8};
ghost use Rattle.shard_records.specs.Readable.{IsHeldChunk, IsHeldTable};
ghost use Rattle.record_parts.specs.Finds.{Finds};
ghost use Rattle.record_parts.specs.Readers.{bound_at, chunk_at, items_at, key_bound_at, list_at, owned_at, range_at, range_in, table_at, table_in, version_at};
ghost use Rattle.value_compare.specs.Bounds.{bound_of};
ghost use Rattle.value_model.specs.Keys.{IsRange};

use crate::fault::RecordFault;
use crate::parts::{read_byte, read_key, read_namespace, read_u32, read_u64};
use chunk_table::{Chunk, Owned, OwnedList, Table, Version};
use cluster_base::{Namespace, NodeId, Time};
use std::alloc::Global;
use value_compare::{Bound, KeyRange};

/// Reads a bound that is a key.
#[tactic(auto, unfolding(crate::specs::Readers::key_bound_at))]
fn read_key_bound(alloc: Global, bytes: &[u8]) -> Result<(Bound, &[u8]), RecordFault>
    ensures found { Finds (λ x. (bound_of x.0, x.1.now)) result (key_bound_at bytes.now) }
    ensures fits { IfOk result (λ x. IsWritableBound (bound_of x.0)) }
{
    let (key, rest) = read_key(alloc, bytes)?;
    Ok((Bound::At(key), rest))
}

/// Reads where a range begins or ends.
#[tactic(auto, unfolding(crate::specs::Readers::bound_at))]
pub fn read_bound(alloc: Global, bytes: &[u8]) -> Result<(Bound, &[u8]), RecordFault>
    ensures found { Finds (λ x. (bound_of x.0, x.1.now)) result (bound_at bytes.now) }
    ensures fits { IfOk result (λ x. IsWritableBound (bound_of x.0)) }
{
    let (kind, rest) = read_byte(bytes)?;
    match kind {
        0x00 => Ok((Bound::MinKey, rest)),
        0x01 => read_key_bound(alloc, rest),
        0x02 => Ok((Bound::MaxKey, rest)),
        _ => Err(RecordFault::NoRecord),
    }
}

/// Returns the range between two bounds.
#[tactic(auto, using(crate::proofs::Tests::order_tests))]
fn range_between(min: Bound, max: Bound) -> Result<KeyRange, RecordFault>
    requires min { IsWritableBound (bound_of min) }
    requires max { IsWritableBound (bound_of max) }
    ensures found { Finds (λ r. r) result (range_in (bound_of min) (bound_of max)) }
    ensures fits { IfOk result (λ r. IsWritableBound r.min × IsWritableBound r.max × IsRange r) }
{
    match KeyRange::new(min, max) {
        Some(range) => {
            let _min = range.min();
            Ok(range)
        }
        None => Err(RecordFault::NoRecord),
    }
}

/// Reads a range.
#[tactic(auto, unfolding(crate::specs::Readers::range_at))]
pub fn read_range(alloc: Global, bytes: &[u8]) -> Result<(KeyRange, &[u8]), RecordFault>
    ensures found { Finds (λ x. (x.0, x.1.now)) result (range_at bytes.now) }
    ensures fits { IfOk result (λ x. IsWritableBound x.0.min × IsWritableBound x.0.max × IsRange x.0) }
{
    let (min, rest) = read_bound(alloc, bytes)?;
    let (max, rest) = read_bound(alloc, rest)?;
    let range = range_between(min, max)?;
    Ok((range, rest))
}

/// Reads a version.
#[tactic(auto, unfolding(crate::specs::Readers::version_at))]
pub fn read_version(bytes: &[u8]) -> Result<(Version, &[u8]), RecordFault>
    ensures { Finds (λ x. (version_view x.0, x.1.now)) result (version_at bytes.now) }
{
    let (epoch, rest) = read_u64(bytes)?;
    let (major, rest) = read_u64(rest)?;
    let (minor, rest) = read_u64(rest)?;
    let version = Version {
        epoch,
        major,
        minor,
    };
    Ok((version, rest))
}

/// Reads one owner of a chunk.
#[tactic(auto, unfolding(crate::specs::Readers::owned_at))]
fn read_owned(bytes: &[u8]) -> Result<(Owned, &[u8]), RecordFault>
    ensures { Finds (λ x. (owned_view x.0, x.1.now)) result (owned_at bytes.now) }
{
    let (since, rest) = read_u64(bytes)?;
    let (shard, rest) = read_u32(rest)?;
    let owned = Owned {
        valid_after: Time(since),
        shard: NodeId(shard),
    };
    Ok((owned, rest))
}

/// Reads so many owners of a chunk.
#[tactic(auto, using(crate::proofs::Items::begins_empty))]
fn read_each_owned(
    alloc: Global,
    count: u32,
    bytes: &[u8],
) -> Result<(Vec<Owned>, &[u8]), RecordFault>
    ensures found { Finds (λ x. (map owned_view x.0.items, x.1.now)) result (items_at owned_at count bytes.now) }
    ensures count { IfOk result (λ x. length x.0.items ≡ count) }
{
    let mut owners = Vec::new(alloc);
    let mut left = bytes;
    for _ in 0..count {
        let (owned, rest) = read_owned(left)?;
        owners.push(owned)?;
        left = rest;
    }
    Ok((owners, left))
}

/// Reads the owners of a chunk: how many, and each.
#[tactic(auto, unfolding(crate::specs::Readers::list_at))]
fn read_owners(alloc: Global, bytes: &[u8]) -> Result<(OwnedList, &[u8]), RecordFault>
    ensures found { Finds (λ x. (x.0, x.1.now)) result (list_at owned_at bytes.now) }
    ensures count { IfOk result (λ x. length x.0 < 2 ^ 32) }
{
    let (count, rest) = read_u32(bytes)?;
    let (owners, rest) = read_each_owned(alloc, count, rest)?;
    Ok((OwnedList::of(owners), rest))
}

/// Reads a chunk.
#[tactic(auto, unfolding(crate::specs::Readers::chunk_at), using(crate::proofs::Held::chunk_held))]
fn read_chunk(alloc: Global, bytes: &[u8]) -> Result<(Chunk, &[u8]), RecordFault>
    ensures found { Finds (λ x. (chunk_view x.0, x.1.now)) result (chunk_at bytes.now) }
    ensures held { IfOk result (λ x. IsHeldChunk (chunk_view x.0)) }
{
    let (range, rest) = read_range(alloc, bytes)?;
    let (version, rest) = read_version(rest)?;
    let (history, rest) = read_owners(alloc, rest)?;
    let chunk = Chunk {
        range,
        version,
        history,
    };
    Ok((chunk, rest))
}

/// Reads so many chunks.
#[tactic(auto, using(crate::proofs::Items::begins_empty, crate::proofs::Items::none_held))]
fn read_each_chunk(
    alloc: Global,
    count: u32,
    bytes: &[u8],
) -> Result<(Vec<Chunk>, &[u8]), RecordFault>
    ensures found { Finds (λ x. (map chunk_view x.0.items, x.1.now)) result (items_at chunk_at count bytes.now) }
    ensures count { IfOk result (λ x. length x.0.items ≡ count) }
    ensures held { IfOk result (λ x. AllByRecursion IsHeldChunk (map chunk_view x.0.items)) }
{
    let mut chunks = Vec::new(alloc);
    let mut left = bytes;
    for _ in 0..count {
        let (chunk, rest) = read_chunk(alloc, left)?;
        chunks.push(chunk)?;
        left = rest;
    }
    Ok((chunks, left))
}

/// Reads the chunks of a table: how many, and each.
#[tactic(auto, unfolding(crate::specs::Readers::list_at))]
fn read_chunks(alloc: Global, bytes: &[u8]) -> Result<(Vec<Chunk>, &[u8]), RecordFault>
    ensures found { Finds (λ x. (map chunk_view x.0.items, x.1.now)) result (list_at chunk_at bytes.now) }
    ensures count { IfOk result (λ x. length x.0.items < 2 ^ 32) }
    ensures held { IfOk result (λ x. AllByRecursion IsHeldChunk (map chunk_view x.0.items)) }
{
    let (count, rest) = read_u32(bytes)?;
    read_each_chunk(alloc, count, rest)
}

/// Returns the table of these chunks.
#[tactic(auto, using(crate::proofs::Held::table_held, crate::proofs::Held::chunks_writable, crate::proofs::Tests::some_true))]
fn table_of(
    namespace: Namespace,
    epoch: u64,
    changes: u64,
    oldest: Time,
    chunks: Vec<Chunk>,
) -> Result<Table, RecordFault>
    requires name { IsUtf8 namespace }
    requires count { length chunks.items < 2 ^ 32 }
    requires held { AllByRecursion IsHeldChunk (map chunk_view chunks.items) }
    ensures found { Finds (λ t. t) result (table_in namespace epoch changes oldest.0 (map chunk_view chunks.items)) }
    ensures held { IfOk result (λ t. IsHeldTable t) }
{
    match Table::of(namespace, epoch, changes, oldest, chunks) {
        Some(table) => Ok(table),
        None => Err(RecordFault::NoRecord),
    }
}

/// Reads a table.
#[tactic(auto, unfolding(crate::specs::Readers::table_at))]
pub fn read_table(alloc: Global, bytes: &[u8]) -> Result<(Table, &[u8]), RecordFault>
    ensures found { Finds (λ x. (x.0, x.1.now)) result (table_at bytes.now) }
    ensures held { IfOk result (λ x. IsHeldTable x.0) }
{
    let (namespace, rest) = read_namespace(alloc, bytes)?;
    let (epoch, rest) = read_u64(rest)?;
    let (changes, rest) = read_u64(rest)?;
    let (oldest, rest) = read_u64(rest)?;
    let (chunks, rest) = read_chunks(alloc, rest)?;
    let table = table_of(namespace, epoch, changes, Time(oldest), chunks)?;
    Ok((table, rest))
}
