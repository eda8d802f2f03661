//! Reading a batch of documents of a range that moves.

ghost use Rattle.std.specs.Prelude.{◌≡◌, ◌<◌, ◌^◌, length, map, IfOk};
ghost use Rattle.std.specs.Arc.{arc_value};
ghost use Rattle.std.specs.List.{AllByRecursion};
ghost use Rattle.std.specs.Option.{option_map};
ghost use Rattle.shard_records.specs.Batches.{moved_view};
ghost use Rattle.shard_records.specs.Meanings.{record_view};
ghost use Rattle.shard_records.specs.Sizes.{IsStored, IsWritableMoved, IsWritableOption};
ghost use Rattle.record_parts.specs.Readers.{items_at, list_at};
ghost use Rattle.record_reader.specs.RecordReaders.{moved_at, option_document_at, received_at, some_document_at, stored_at};
ghost use Rattle.record_parts.specs.Finds.{Finds};
ghost use Rattle.shard_records.specs.Readable.{IsHeld};

use crate::moves::read_request;
use bson_values::{Document, MOST_BYTES_KEPT};
use cluster_base::Time;
use record_parts::{
    RecordFault, read_bound, read_byte, read_document, read_key, read_u32, read_u64,
};
use shard_records::{MoveBatch, MovedDocument, MovedList, ReceivedBatch, Record};
use std::alloc::Global;
use std::sync::Arc;

/// Reads a document that a shard stores.
#[tactic(auto, unfolding(crate::specs::RecordReaders::stored_at))]
fn read_stored(alloc: Global, bytes: &[u8]) -> Result<(Document, &[u8]), RecordFault>
    ensures found { Finds (λ x. (x.0, x.1.now)) result (stored_at bytes.now) }
    ensures fits { IfOk result (λ x. IsStored x.0) }
{
    let (document, rest) = read_document(alloc, bytes)?;
    if document.size() > MOST_BYTES_KEPT {
        return Err(RecordFault::NoRecord);
    }
    Ok((document, rest))
}

/// Reads the document that a key has.
#[tactic(auto, unfolding(crate::specs::RecordReaders::some_document_at))]
fn read_some_document(
    alloc: Global,
    bytes: &[u8],
) -> Result<(Option<Arc<Document, Global>>, &[u8]), RecordFault>
    ensures found { Finds (λ x. (option_map arc_value x.0, x.1.now)) result (some_document_at bytes.now) }
    ensures fits { IfOk result (λ x. IsWritableOption (option_map arc_value x.0)) }
{
    let (document, rest) = read_stored(alloc, bytes)?;
    let shared = Arc::new(alloc, document)?;
    Ok((Some(shared), rest))
}

/// Reads the document that a key has, if it has one.
#[tactic(auto, unfolding(crate::specs::RecordReaders::option_document_at))]
fn read_option_document(
    alloc: Global,
    bytes: &[u8],
) -> Result<(Option<Arc<Document, Global>>, &[u8]), RecordFault>
    ensures found { Finds (λ x. (option_map arc_value x.0, x.1.now)) result (option_document_at bytes.now) }
    ensures fits { IfOk result (λ x. IsWritableOption (option_map arc_value x.0)) }
{
    let (kind, rest) = read_byte(bytes)?;
    match kind {
        0x00 => Ok((None, rest)),
        0x01 => read_some_document(alloc, rest),
        _ => Err(RecordFault::NoRecord),
    }
}

/// Reads a key with its document.
#[tactic(auto, unfolding(crate::specs::RecordReaders::moved_at), using(crate::proofs::Held::moved_held))]
fn read_moved(alloc: Global, bytes: &[u8]) -> Result<(MovedDocument, &[u8]), RecordFault>
    ensures found { Finds (λ x. (moved_view x.0, x.1.now)) result (moved_at bytes.now) }
    ensures fits { IfOk result (λ x. IsWritableMoved (moved_view x.0)) }
{
    let (key, rest) = read_key(alloc, bytes)?;
    let (document, rest) = read_option_document(alloc, rest)?;
    Ok((MovedDocument { key, document }, rest))
}

/// Reads so many keys with their documents.
#[tactic(auto, using(record_parts::proofs::Items::begins_empty, record_parts::proofs::Items::none_held))]
fn read_each_moved(
    alloc: Global,
    count: u32,
    bytes: &[u8],
) -> Result<(Vec<MovedDocument>, &[u8]), RecordFault>
    ensures found { Finds (λ x. (map moved_view x.0.items, x.1.now)) result (items_at moved_at count bytes.now) }
    ensures count { IfOk result (λ x. length x.0.items ≡ count) }
    ensures held { IfOk result (λ x. AllByRecursion IsWritableMoved (map moved_view x.0.items)) }
{
    let mut docs = Vec::new(alloc);
    let mut left = bytes;
    for _ in 0..count {
        let (moved, rest) = read_moved(alloc, left)?;
        docs.push(moved)?;
        left = rest;
    }
    Ok((docs, left))
}

/// Reads the documents of a batch: how many, and each.
#[tactic(auto, unfolding(record_parts::specs::Readers::list_at))]
fn read_docs(alloc: Global, bytes: &[u8]) -> Result<(Vec<MovedDocument>, &[u8]), RecordFault>
    ensures found { Finds (λ x. (map moved_view x.0.items, x.1.now)) result (list_at moved_at bytes.now) }
    ensures count { IfOk result (λ x. length x.0.items < 2 ^ 32) }
    ensures held { IfOk result (λ x. AllByRecursion IsWritableMoved (map moved_view x.0.items)) }
{
    let (count, rest) = read_u32(bytes)?;
    read_each_moved(alloc, count, rest)
}

/// Reads a batch that is stored.
#[tactic(auto, unfolding(crate::specs::RecordReaders::received_at), using(crate::proofs::Held::received_held))]
pub(crate) fn read_received(alloc: Global, bytes: &[u8]) -> Result<Record, RecordFault>
    ensures found { Finds (λ r. record_view r) result (received_at bytes.now) }
    ensures held { IfOk result (λ r. IsHeld (record_view r)) }
{
    let (id, rest) = read_request(bytes)?;
    let (number, rest) = read_u64(rest)?;
    let (time, rest) = read_u64(rest)?;
    let (upto, rest) = read_bound(alloc, rest)?;
    let (docs, _rest) = read_docs(alloc, rest)?;
    let batch = MoveBatch {
        number,
        upto,
        docs: MovedList::of(docs),
    };
    Ok(Record::Batch(ReceivedBatch {
        id,
        time: Time(time),
        batch,
    }))
}
