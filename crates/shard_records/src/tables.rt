//! Writing a table as bytes.
//!
//! What is written comes after the bytes that were there. After an `Err` a part may be there too.

ghost use Rattle.std.specs.Prelude.{◌≡◌, ◌<◌, ◌^◌, ◌++◌, length, map, take, OnErr, OnOk};
ghost use Rattle.std.specs.List.{AllByRecursion, flat_map};
ghost use Rattle.chunk_table.specs.Meanings.{chunk_view, owned_view, version_view};
ghost use Rattle.chunk_table.specs.Whole.{IsWritableBound, IsWritableChunk};
ghost use Rattle.record_model.specs.Records.{table_record};
ghost use Rattle.record_model.specs.RecordFormat.{IsSoundBound, IsSoundChunk, IsSoundOwned, IsSoundTable, IsSoundVersion, spelled, spelled_table, spelled_bound, spelled_chunk, spelled_list, spelled_owned, spelled_version};
ghost use Rattle.shard_records.specs.Readable.{IsHeldTable, IsReadable};
ghost use Rattle.value_compare.specs.Bounds.{bound_of};

use crate::writer::{cut_after_err, put, put_head, put_namespace, put_some_key, put_u32, put_u64};
use bson_values::Memory;
use chunk_table::{Chunk, Owned, Table, Version};
use value_compare::Bound;

/// Writes the one encoding, in the newest format, of the record of a table after the bytes.
///
/// # Errors
/// `Memory` if memory runs out, and then the bytes are as they were.
pub fn write_table(table: &Table, out: &mut Vec<u8>) -> Result<(), Memory>
    ensures ok { OnOk result (out.new.items ≡ out.old.items ++ spelled 1 (table_record table.now)) }
    ensures readable { OnOk result (IsReadable (table_record table.now)) }
    ensures err { OnErr result (out.new.items ≡ out.old.items) }
{
    let len = out.len();
    let done = put_table_record(table, out);
    cut_after_err(done, len, out)
}

/// Writes where a range begins or ends.
pub(crate) fn put_bound(bound: &Bound, out: &mut Vec<u8>) -> Result<(), Memory>
    requires { IsWritableBound (bound_of bound.now) }
    ensures ok { OnOk result (out.new.items ≡ out.old.items ++ spelled_bound (bound_of bound.now)) }
    ensures sound { OnOk result (IsSoundBound (bound_of bound.now)) }
    ensures kept { take (length out.old.items) out.new.items ≡ out.old.items }
{
    match bound {
        Bound::MinKey => put(&[0x00], out),
        Bound::At(key) => {
            put(&[0x01], out)?;
            put_some_key(key, out)
        }
        Bound::MaxKey => put(&[0x02], out),
    }
}

/// Writes a version.
pub(crate) fn put_version(version: &Version, out: &mut Vec<u8>) -> Result<(), Memory>
    ensures ok { OnOk result (out.new.items ≡ out.old.items ++ spelled_version (version_view version.now)) }
    ensures sound { OnOk result (IsSoundVersion (version_view version.now)) }
    ensures kept { take (length out.old.items) out.new.items ≡ out.old.items }
{
    put_u64(version.epoch, out)?;
    put_u64(version.major, out)?;
    put_u64(version.minor, out)
}

/// Writes one owner of a chunk.
fn put_owned(owned: &Owned, out: &mut Vec<u8>) -> Result<(), Memory>
    ensures ok { OnOk result (out.new.items ≡ out.old.items ++ spelled_owned (owned_view owned.now)) }
    ensures sound { OnOk result (IsSoundOwned (owned_view owned.now)) }
    ensures kept { take (length out.old.items) out.new.items ≡ out.old.items }
{
    put_u64(owned.valid_after.0, out)?;
    put_u32(owned.shard.0, out)
}

/// Writes these owners of a chunk, one after another.
fn put_each_owned(owners: &[Owned], out: &mut Vec<u8>) -> Result<(), Memory>
    ensures ok { OnOk result (out.new.items ≡ out.old.items ++ flat_map spelled_owned (map owned_view owners.now)) }
    ensures sound { OnOk result (AllByRecursion IsSoundOwned (map owned_view owners.now)) }
    ensures kept { take (length out.old.items) out.new.items ≡ out.old.items }
{
    for owned in owners {
        put_owned(owned, out)?;
    }
    Ok(())
}

/// Writes the owners of a chunk: how many, and each.
fn put_owners(owners: &[Owned], out: &mut Vec<u8>) -> Result<(), Memory>
    requires { length owners.now < 2 ^ 32 }
    ensures ok { OnOk result (out.new.items ≡ out.old.items ++ spelled_list spelled_owned (map owned_view owners.now)) }
    ensures sound { OnOk result (AllByRecursion IsSoundOwned (map owned_view owners.now)) }
    ensures kept { take (length out.old.items) out.new.items ≡ out.old.items }
{
    put_u32(owners.len() as u32, out)?;
    put_each_owned(owners, out)
}

/// Writes a chunk.
fn put_chunk(chunk: &Chunk, out: &mut Vec<u8>) -> Result<(), Memory>
    requires { IsWritableChunk (chunk_view chunk.now) }
    ensures ok { OnOk result (out.new.items ≡ out.old.items ++ spelled_chunk (chunk_view chunk.now)) }
    ensures sound { OnOk result (IsSoundChunk (chunk_view chunk.now)) }
    ensures kept { take (length out.old.items) out.new.items ≡ out.old.items }
{
    put_bound(chunk.range.min(), out)?;
    put_bound(chunk.range.max(), out)?;
    put_version(&chunk.version, out)?;
    put_owners(chunk.history.as_slice(), out)
}

/// Writes these chunks, one after another.
fn put_each_chunk(chunks: &[Chunk], out: &mut Vec<u8>) -> Result<(), Memory>
    requires { AllByRecursion IsWritableChunk (map chunk_view chunks.now) }
    ensures ok { OnOk result (out.new.items ≡ out.old.items ++ flat_map spelled_chunk (map chunk_view chunks.now)) }
    ensures sound { OnOk result (AllByRecursion IsSoundChunk (map chunk_view chunks.now)) }
    ensures kept { take (length out.old.items) out.new.items ≡ out.old.items }
{
    for chunk in chunks {
        put_chunk(chunk, out)?;
    }
    Ok(())
}

/// Writes the chunks of a table: how many, and each.
fn put_chunks(chunks: &[Chunk], out: &mut Vec<u8>) -> Result<(), Memory>
    requires count { length chunks.now < 2 ^ 32 }
    requires writable { AllByRecursion IsWritableChunk (map chunk_view chunks.now) }
    ensures ok { OnOk result (out.new.items ≡ out.old.items ++ spelled_list spelled_chunk (map chunk_view chunks.now)) }
    ensures sound { OnOk result (AllByRecursion IsSoundChunk (map chunk_view chunks.now)) }
    ensures kept { take (length out.old.items) out.new.items ≡ out.old.items }
{
    put_u32(chunks.len() as u32, out)?;
    put_each_chunk(chunks, out)
}

/// Writes the fields of a table.
pub(crate) fn put_table(table: &Table, out: &mut Vec<u8>) -> Result<(), Memory>
    ensures ok { OnOk result (out.new.items ≡ out.old.items ++ spelled_table table.now) }
    ensures sound { OnOk result (IsSoundTable table.now) }
    ensures held { OnOk result (IsHeldTable table.now) }
    ensures kept { take (length out.old.items) out.new.items ≡ out.old.items }
{
    put_namespace(table.namespace(), out)?;
    put_u64(table.epoch(), out)?;
    put_u64(table.changes(), out)?;
    put_u64(table.oldest().0, out)?;
    put_chunks(table.chunks(), out)
}

/// Writes the record of a table.
fn put_table_record(table: &Table, out: &mut Vec<u8>) -> Result<(), Memory>
    ensures ok { OnOk result (out.new.items ≡ out.old.items ++ spelled 1 (table_record table.now)) }
    ensures readable { OnOk result (IsReadable (table_record table.now)) }
    ensures kept { take (length out.old.items) out.new.items ≡ out.old.items }
{
    put_head(0x01, out)?;
    put_table(table, out)
}
