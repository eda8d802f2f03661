//! Writing what the catalogue stores of its changes as bytes.
//!
//! What is written comes after the bytes that were there. After an `Err` a part may be there too.

ghost use Rattle.std.specs.Prelude.{◌≡◌, ◌++◌, length, take, OnOk};
ghost use Rattle.std.specs.Str.{IsUtf8};
ghost use Rattle.bson_model.specs.Limits.{IsWritable};
ghost use Rattle.record_model.specs.RecordFormat.{key_document};
ghost use Rattle.record_model.specs.MoveFormat.{IsSoundCommit, IsSoundPurge, IsSoundResolve, IsSoundSplit, spelled_commit, spelled_purge, spelled_resolve, spelled_split};
ghost use Rattle.shard_records.specs.MoveViews.{commit_view, purge_view, resolve_view, split_view};
ghost use Rattle.shard_records.specs.Readable.{IsHeldRange};
ghost use Rattle.shard_records.specs.Sizes.{IsWritableRange};

use crate::changes::{CommitChange, PurgeChange, ResolveChange, SplitChange};
use crate::move_writer::{put_range, put_request};
use crate::writer::{put_namespace, put_some_key, put_u32, put_u64};
use bson_values::Memory;

/// Writes a split.
pub(crate) fn put_split(kept: &SplitChange, out: &mut Vec<u8>) -> Result<(), Memory>
    requires { IsWritable (key_document kept.now.middle) }
    ensures ok { OnOk result (out.new.items ≡ out.old.items ++ spelled_split (split_view kept.now)) }
    ensures sound { OnOk result (IsSoundSplit (split_view kept.now)) }
    ensures text { IsUtf8 kept.now.namespace }
    ensures kept { take (length out.old.items) out.new.items ≡ out.old.items }
{
    put_namespace(&kept.namespace, out)?;
    put_some_key(&kept.middle, out)?;
    put_u64(kept.at.0, out)
}

/// Writes a commit.
pub(crate) fn put_commit(kept: &CommitChange, out: &mut Vec<u8>) -> Result<(), Memory>
    requires { IsWritableRange kept.now.range }
    ensures ok { OnOk result (out.new.items ≡ out.old.items ++ spelled_commit (commit_view kept.now)) }
    ensures sound { OnOk result (IsSoundCommit (commit_view kept.now)) }
    ensures held { OnOk result (IsUtf8 kept.now.namespace × IsHeldRange kept.now.range) }
    ensures kept { take (length out.old.items) out.new.items ≡ out.old.items }
{
    put_request(&kept.id, out)?;
    put_namespace(&kept.namespace, out)?;
    put_range(&kept.range, out)?;
    put_u32(kept.from.0, out)?;
    put_u32(kept.to.0, out)?;
    put_u64(kept.at.0, out)
}

/// Writes the end of a move that is not committed.
pub(crate) fn put_resolve(kept: &ResolveChange, out: &mut Vec<u8>) -> Result<(), Memory>
    requires { IsWritableRange kept.now.range }
    ensures ok { OnOk result (out.new.items ≡ out.old.items ++ spelled_resolve (resolve_view kept.now)) }
    ensures sound { OnOk result (IsSoundResolve (resolve_view kept.now)) }
    ensures kept { take (length out.old.items) out.new.items ≡ out.old.items }
{
    put_request(&kept.id, out)?;
    put_namespace(&kept.namespace, out)?;
    put_range(&kept.range, out)?;
    put_u64(kept.at.0, out)
}

/// Writes a purge.
pub(crate) fn put_purge(kept: &PurgeChange, out: &mut Vec<u8>) -> Result<(), Memory>
    ensures ok { OnOk result (out.new.items ≡ out.old.items ++ spelled_purge (purge_view kept.now)) }
    ensures sound { OnOk result (IsSoundPurge (purge_view kept.now)) }
    ensures kept { take (length out.old.items) out.new.items ≡ out.old.items }
{
    put_namespace(&kept.namespace, out)?;
    put_u64(kept.below.0, out)?;
    put_u64(kept.at.0, out)
}
