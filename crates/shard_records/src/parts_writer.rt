//! Writing records of few parts as bytes, from the parts.

ghost use Rattle.std.specs.Prelude.{◌≡◌, ◌++◌, length, take, OnErr, OnOk};
ghost use Rattle.bson_model.specs.Limits.{IsWritable};
ghost use Rattle.record_model.specs.Records.{block_record, catalogue_ceiling_record, ceiling_record, commit_record, create_record, life_record, split_record};
ghost use Rattle.record_model.specs.RecordFormat.{key_document, spelled};
ghost use Rattle.shard_records.specs.MoveViews.{commit_view, split_view};
ghost use Rattle.shard_records.specs.Readable.{IsReadable};
ghost use Rattle.shard_records.specs.Sizes.{IsWritableRange};

use crate::change_writer::{put_commit, put_split};
use crate::changes::{CommitChange, SplitChange};
use crate::writer::{cut_after_err, put_creation, put_head, put_u64};
use bson_values::Memory;
use cluster_base::{Namespace, Time};

/// Writes the record of a collection that is created.
fn put_creation_record(
    namespace: &Namespace,
    epoch: u64,
    at: Time,
    out: &mut Vec<u8>,
) -> Result<(), Memory>
    ensures ok { OnOk result (out.new.items ≡ out.old.items ++ spelled 1 (create_record (record { namespace = namespace.now; epoch = epoch; at = at.0 }))) }
    ensures readable { OnOk result (IsReadable (create_record (record { namespace = namespace.now; epoch = epoch; at = at.0 }))) }
    ensures kept { take (length out.old.items) out.new.items ≡ out.old.items }
{
    put_head(0x20, out)?;
    put_creation(namespace, epoch, at, out)
}

/// Writes the one encoding, in the newest format, of the record of a collection that is created after the bytes.
///
/// # Errors
/// `Memory` if memory runs out, and then the bytes are as they were.
pub fn write_creation(
    namespace: &Namespace,
    epoch: u64,
    at: Time,
    out: &mut Vec<u8>,
) -> Result<(), Memory>
    ensures ok { OnOk result (out.new.items ≡ out.old.items ++ spelled 1 (create_record (record { namespace = namespace.now; epoch = epoch; at = at.0 }))) }
    ensures readable { OnOk result (IsReadable (create_record (record { namespace = namespace.now; epoch = epoch; at = at.0 }))) }
    ensures err { OnErr result (out.new.items ≡ out.old.items) }
{
    let len = out.len();
    let done = put_creation_record(namespace, epoch, at, out);
    cut_after_err(done, len, out)
}

/// Writes the record of a split.
fn put_split_record(split: &SplitChange, out: &mut Vec<u8>) -> Result<(), Memory>
    requires { IsWritable (key_document split.now.middle) }
    ensures ok { OnOk result (out.new.items ≡ out.old.items ++ spelled 1 (split_record (split_view split.now))) }
    ensures readable { OnOk result (IsReadable (split_record (split_view split.now))) }
    ensures kept { take (length out.old.items) out.new.items ≡ out.old.items }
{
    put_head(0x21, out)?;
    put_split(split, out)
}

/// Writes the one encoding, in the newest format, of the record of a split after the bytes. The document of its key can be written.
///
/// # Errors
/// `Memory` if memory runs out, and then the bytes are as they were.
pub fn write_split(split: &SplitChange, out: &mut Vec<u8>) -> Result<(), Memory>
    requires { IsWritable (key_document split.now.middle) }
    ensures ok { OnOk result (out.new.items ≡ out.old.items ++ spelled 1 (split_record (split_view split.now))) }
    ensures readable { OnOk result (IsReadable (split_record (split_view split.now))) }
    ensures err { OnErr result (out.new.items ≡ out.old.items) }
{
    let len = out.len();
    let done = put_split_record(split, out);
    cut_after_err(done, len, out)
}

/// Writes the record of a commit.
fn put_commit_record(commit: &CommitChange, out: &mut Vec<u8>) -> Result<(), Memory>
    requires { IsWritableRange commit.now.range }
    ensures ok { OnOk result (out.new.items ≡ out.old.items ++ spelled 1 (commit_record (commit_view commit.now))) }
    ensures readable { OnOk result (IsReadable (commit_record (commit_view commit.now))) }
    ensures kept { take (length out.old.items) out.new.items ≡ out.old.items }
{
    put_head(0x22, out)?;
    put_commit(commit, out)
}

/// Writes the one encoding, in the newest format, of the record of a commit after the bytes. The documents of the keys at its bounds can be written.
///
/// # Errors
/// `Memory` if memory runs out, and then the bytes are as they were.
pub fn write_commit(commit: &CommitChange, out: &mut Vec<u8>) -> Result<(), Memory>
    requires { IsWritableRange commit.now.range }
    ensures ok { OnOk result (out.new.items ≡ out.old.items ++ spelled 1 (commit_record (commit_view commit.now))) }
    ensures readable { OnOk result (IsReadable (commit_record (commit_view commit.now))) }
    ensures err { OnErr result (out.new.items ≡ out.old.items) }
{
    let len = out.len();
    let done = put_commit_record(commit, out);
    cut_after_err(done, len, out)
}

/// Writes the record of a life.
fn put_life_record(life: u64, out: &mut Vec<u8>) -> Result<(), Memory>
    ensures ok { OnOk result (out.new.items ≡ out.old.items ++ spelled 1 (life_record life)) }
    ensures readable { OnOk result (IsReadable (life_record life)) }
    ensures kept { take (length out.old.items) out.new.items ≡ out.old.items }
{
    put_head(0x30, out)?;
    put_u64(life, out)
}

/// Writes the one encoding, in the newest format, of the record of a router's life after the bytes.
///
/// # Errors
/// `Memory` if memory runs out, and then the bytes are as they were.
pub fn write_life(life: u64, out: &mut Vec<u8>) -> Result<(), Memory>
    ensures ok { OnOk result (out.new.items ≡ out.old.items ++ spelled 1 (life_record life)) }
    ensures readable { OnOk result (IsReadable (life_record life)) }
    ensures err { OnErr result (out.new.items ≡ out.old.items) }
{
    let len = out.len();
    let done = put_life_record(life, out);
    cut_after_err(done, len, out)
}

/// Writes the record of a block of cursor numbers.
fn put_block_record(block: u64, out: &mut Vec<u8>) -> Result<(), Memory>
    ensures ok { OnOk result (out.new.items ≡ out.old.items ++ spelled 1 (block_record block)) }
    ensures readable { OnOk result (IsReadable (block_record block)) }
    ensures kept { take (length out.old.items) out.new.items ≡ out.old.items }
{
    put_head(0x31, out)?;
    put_u64(block, out)
}

/// Writes the one encoding, in the newest format, of the record of a block of cursor numbers after the bytes.
///
/// # Errors
/// `Memory` if memory runs out, and then the bytes are as they were.
pub fn write_block(block: u64, out: &mut Vec<u8>) -> Result<(), Memory>
    ensures ok { OnOk result (out.new.items ≡ out.old.items ++ spelled 1 (block_record block)) }
    ensures readable { OnOk result (IsReadable (block_record block)) }
    ensures err { OnErr result (out.new.items ≡ out.old.items) }
{
    let len = out.len();
    let done = put_block_record(block, out);
    cut_after_err(done, len, out)
}

/// Writes the record of a ceiling of a shard.
fn put_ceiling_record(time: Time, out: &mut Vec<u8>) -> Result<(), Memory>
    ensures ok { OnOk result (out.new.items ≡ out.old.items ++ spelled 1 (ceiling_record time.0)) }
    ensures readable { OnOk result (IsReadable (ceiling_record time.0)) }
    ensures kept { take (length out.old.items) out.new.items ≡ out.old.items }
{
    put_head(0x03, out)?;
    put_u64(time.0, out)
}

/// Writes the one encoding, in the newest format, of the record of a shard's ceiling after the bytes.
///
/// # Errors
/// `Memory` if memory runs out, and then the bytes are as they were.
pub fn write_ceiling(time: Time, out: &mut Vec<u8>) -> Result<(), Memory>
    ensures ok { OnOk result (out.new.items ≡ out.old.items ++ spelled 1 (ceiling_record time.0)) }
    ensures readable { OnOk result (IsReadable (ceiling_record time.0)) }
    ensures err { OnErr result (out.new.items ≡ out.old.items) }
{
    let len = out.len();
    let done = put_ceiling_record(time, out);
    cut_after_err(done, len, out)
}

/// Writes the record of a ceiling of the catalogue.
fn put_catalogue_ceiling_record(time: Time, out: &mut Vec<u8>) -> Result<(), Memory>
    ensures ok { OnOk result (out.new.items ≡ out.old.items ++ spelled 1 (catalogue_ceiling_record time.0)) }
    ensures readable { OnOk result (IsReadable (catalogue_ceiling_record time.0)) }
    ensures kept { take (length out.old.items) out.new.items ≡ out.old.items }
{
    put_head(0x25, out)?;
    put_u64(time.0, out)
}

/// Writes the one encoding, in the newest format, of the record of a ceiling of the catalogue after the bytes.
///
/// # Errors
/// `Memory` if memory runs out, and then the bytes are as they were.
pub fn write_catalogue_ceiling(time: Time, out: &mut Vec<u8>) -> Result<(), Memory>
    ensures ok { OnOk result (out.new.items ≡ out.old.items ++ spelled 1 (catalogue_ceiling_record time.0)) }
    ensures readable { OnOk result (IsReadable (catalogue_ceiling_record time.0)) }
    ensures err { OnErr result (out.new.items ≡ out.old.items) }
{
    let len = out.len();
    let done = put_catalogue_ceiling_record(time, out);
    cut_after_err(done, len, out)
}
