//! Writing what the shards of a move store as bytes.
//!
//! What is written comes after the bytes that were there. After an `Err` a part may be there too.

ghost use Rattle.std.specs.Prelude.{◌≡◌, ◌<◌, ◌^◌, ◌++◌, length, map, take, OnOk};
ghost use Rattle.std.specs.Arc.{arc_value};
ghost use Rattle.std.specs.List.{AllByRecursion, flat_map};
ghost use Rattle.std.specs.Option.{option_map};
ghost use Rattle.record_model.specs.RecordFormat.{spelled_list};
ghost use Rattle.record_model.specs.MoveFormat.{IsSoundDeletion, IsSoundMoveEnd, IsSoundMoveStart, IsSoundMoved, IsSoundOption, IsSoundRange, IsSoundReceiveDone, IsSoundReceiveStart, IsSoundReceived, IsSoundRequest, IsSoundSection, spelled_deletion, spelled_document, spelled_flag, spelled_move_end, spelled_move_start, spelled_moved, spelled_range, spelled_receive_done, spelled_receive_start, spelled_received, spelled_request, spelled_section};
ghost use Rattle.shard_records.specs.Batches.{moved_view};
ghost use Rattle.shard_records.specs.MoveViews.{deletion_view, move_end_view, move_start_view, receive_done_view, receive_start_view, received_view, request_view, section_view};
ghost use Rattle.shard_records.specs.Readable.{IsHeldRange};
ghost use Rattle.shard_records.specs.Sizes.{IsWritableDone, IsWritableMoved, IsWritableOption, IsWritableRange, IsWritableReceived};

use crate::batch::MovedDocument;
use crate::moves::{
    Deletion, MoveEnd, MoveStart, ReceiveDone, ReceiveStart, ReceivedBatch, SectionStart,
};
use crate::session_writer::put_sessions;
use crate::tables::{put_bound, put_table, put_version};
use crate::writer::{put, put_document, put_namespace, put_some_key, put_u32, put_u64};
use bson_values::{Document, Memory};
use cluster_base::RequestId;
use std::alloc::Global;
use std::sync::Arc;
use value_compare::KeyRange;

/// Writes a range.
pub(crate) fn put_range(range: &KeyRange, out: &mut Vec<u8>) -> Result<(), Memory>
    requires { IsWritableRange range.now }
    ensures ok { OnOk result (out.new.items ≡ out.old.items ++ spelled_range range.now) }
    ensures sound { OnOk result (IsSoundRange range.now) }
    ensures held { IsHeldRange range.now }
    ensures kept { take (length out.old.items) out.new.items ≡ out.old.items }
{
    put_bound(range.min(), out)?;
    put_bound(range.max(), out)
}

/// Writes whether something holds.
fn put_flag(holds: bool, out: &mut Vec<u8>) -> Result<(), Memory>
    ensures ok { OnOk result (out.new.items ≡ out.old.items ++ spelled_flag holds) }
    ensures kept { take (length out.old.items) out.new.items ≡ out.old.items }
{
    put(&[u8::from(holds)], out)
}

/// Writes a document, if there is one.
fn put_option(document: &Option<Arc<Document, Global>>, out: &mut Vec<u8>) -> Result<(), Memory>
    requires { IsWritableOption (option_map arc_value document.now) }
    ensures ok { OnOk result (out.new.items ≡ out.old.items ++ spelled_document (option_map arc_value document.now)) }
    ensures sound { OnOk result (IsSoundOption (option_map arc_value document.now)) }
    ensures kept { take (length out.old.items) out.new.items ≡ out.old.items }
{
    match document {
        None => put(&[0x00], out),
        Some(document) => {
            put(&[0x01], out)?;
            put_document(document, out)
        }
    }
}

/// Writes these documents of a batch, one after another.
fn put_each_moved(docs: &[MovedDocument], out: &mut Vec<u8>) -> Result<(), Memory>
    requires { AllByRecursion IsWritableMoved (map moved_view docs.now) }
    ensures ok { OnOk result (out.new.items ≡ out.old.items ++ flat_map spelled_moved (map moved_view docs.now)) }
    ensures sound { OnOk result (AllByRecursion IsSoundMoved (map moved_view docs.now)) }
    ensures kept { take (length out.old.items) out.new.items ≡ out.old.items }
{
    for moved in docs {
        put_moved(moved, out)?;
    }
    Ok(())
}

/// Writes the documents of a batch: how many, and each.
fn put_docs(docs: &[MovedDocument], out: &mut Vec<u8>) -> Result<(), Memory>
    requires count { length docs.now < 2 ^ 32 }
    requires writable { AllByRecursion IsWritableMoved (map moved_view docs.now) }
    ensures ok { OnOk result (out.new.items ≡ out.old.items ++ spelled_list spelled_moved (map moved_view docs.now)) }
    ensures sound { OnOk result (AllByRecursion IsSoundMoved (map moved_view docs.now)) }
    ensures kept { take (length out.old.items) out.new.items ≡ out.old.items }
{
    put_u32(docs.len() as u32, out)?;
    put_each_moved(docs, out)
}

/// Writes the number of a request.
pub(crate) fn put_request(id: &RequestId, out: &mut Vec<u8>) -> Result<(), Memory>
    ensures ok { OnOk result (out.new.items ≡ out.old.items ++ spelled_request (request_view id.now)) }
    ensures sound { OnOk result (IsSoundRequest (request_view id.now)) }
    ensures kept { take (length out.old.items) out.new.items ≡ out.old.items }
{
    put_u32(id.router.0, out)?;
    put_u64(id.life, out)?;
    put_u64(id.count, out)
}

/// Writes a key with its document.
pub(crate) fn put_moved(moved: &MovedDocument, out: &mut Vec<u8>) -> Result<(), Memory>
    requires { IsWritableMoved (moved_view moved.now) }
    ensures ok { OnOk result (out.new.items ≡ out.old.items ++ spelled_moved (moved_view moved.now)) }
    ensures sound { OnOk result (IsSoundMoved (moved_view moved.now)) }
    ensures kept { take (length out.old.items) out.new.items ≡ out.old.items }
{
    put_some_key(&moved.key, out)?;
    put_option(&moved.document, out)
}

/// Writes the begin of a move.
pub(crate) fn put_move_start(kept: &MoveStart, out: &mut Vec<u8>) -> Result<(), Memory>
    requires { IsWritableRange kept.now.range }
    ensures ok { OnOk result (out.new.items ≡ out.old.items ++ spelled_move_start (move_start_view kept.now)) }
    ensures sound { OnOk result (IsSoundMoveStart (move_start_view kept.now)) }
    ensures kept { take (length out.old.items) out.new.items ≡ out.old.items }
{
    put_request(&kept.id, out)?;
    put_namespace(&kept.namespace, out)?;
    put_range(&kept.range, out)?;
    put_u32(kept.to.0, out)?;
    put_version(&kept.version, out)?;
    put_u64(kept.time.0, out)
}

/// Writes the begin of a section.
pub(crate) fn put_section(kept: &SectionStart, out: &mut Vec<u8>) -> Result<(), Memory>
    ensures ok { OnOk result (out.new.items ≡ out.old.items ++ spelled_section (section_view kept.now)) }
    ensures sound { OnOk result (IsSoundSection (section_view kept.now)) }
    ensures kept { take (length out.old.items) out.new.items ≡ out.old.items }
{
    put_request(&kept.id, out)?;
    put_u64(kept.time.0, out)
}

/// Writes the end of a part in a move.
pub(crate) fn put_move_end(kept: &MoveEnd, out: &mut Vec<u8>) -> Result<(), Memory>
    ensures ok { OnOk result (out.new.items ≡ out.old.items ++ spelled_move_end (move_end_view kept.now)) }
    ensures sound { OnOk result (IsSoundMoveEnd (move_end_view kept.now)) }
    ensures kept { take (length out.old.items) out.new.items ≡ out.old.items }
{
    put_request(&kept.id, out)?;
    put_flag(kept.committed, out)?;
    put_table(&kept.table, out)?;
    put_u64(kept.time.0, out)?;
    put_u64(kept.due, out)
}

/// Writes the begin of a recipient's part.
pub(crate) fn put_receive_start(kept: &ReceiveStart, out: &mut Vec<u8>) -> Result<(), Memory>
    requires { IsWritableRange kept.now.range }
    ensures ok { OnOk result (out.new.items ≡ out.old.items ++ spelled_receive_start (receive_start_view kept.now)) }
    ensures sound { OnOk result (IsSoundReceiveStart (receive_start_view kept.now)) }
    ensures kept { take (length out.old.items) out.new.items ≡ out.old.items }
{
    put_request(&kept.id, out)?;
    put_namespace(&kept.namespace, out)?;
    put_range(&kept.range, out)?;
    put_u32(kept.from.0, out)?;
    put_table(&kept.table, out)?;
    put_u64(kept.time.0, out)
}

/// Writes a batch that is stored.
pub(crate) fn put_received(kept: &ReceivedBatch, out: &mut Vec<u8>) -> Result<(), Memory>
    requires { IsWritableReceived (received_view kept.now) }
    ensures ok { OnOk result (out.new.items ≡ out.old.items ++ spelled_received (received_view kept.now)) }
    ensures sound { OnOk result (IsSoundReceived (received_view kept.now)) }
    ensures kept { take (length out.old.items) out.new.items ≡ out.old.items }
{
    put_request(&kept.id, out)?;
    put_u64(kept.batch.number, out)?;
    put_u64(kept.time.0, out)?;
    put_bound(&kept.batch.upto, out)?;
    put_docs(kept.batch.docs.as_slice(), out)
}

/// Writes the end of a copy.
pub(crate) fn put_receive_done(kept: &ReceiveDone, out: &mut Vec<u8>) -> Result<(), Memory>
    requires { IsWritableDone (receive_done_view kept.now) }
    ensures ok { OnOk result (out.new.items ≡ out.old.items ++ spelled_receive_done (receive_done_view kept.now)) }
    ensures sound { OnOk result (IsSoundReceiveDone (receive_done_view kept.now)) }
    ensures kept { take (length out.old.items) out.new.items ≡ out.old.items }
{
    put_request(&kept.id, out)?;
    put_sessions(&kept.sessions.sessions, out)
}

/// Writes a deletion.
pub(crate) fn put_deletion(kept: &Deletion, out: &mut Vec<u8>) -> Result<(), Memory>
    requires { IsWritableRange kept.now.range }
    ensures ok { OnOk result (out.new.items ≡ out.old.items ++ spelled_deletion (deletion_view kept.now)) }
    ensures sound { OnOk result (IsSoundDeletion (deletion_view kept.now)) }
    ensures kept { take (length out.old.items) out.new.items ≡ out.old.items }
{
    put_namespace(&kept.namespace, out)?;
    put_range(&kept.range, out)?;
    put_u64(kept.until.0, out)
}
