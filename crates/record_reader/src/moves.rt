//! Reading what the shards of a move of a chunk keep.

ghost use Rattle.std.specs.Prelude.{IfOk};
ghost use Rattle.shard_records.specs.Meanings.{record_view};
ghost use Rattle.shard_records.specs.MoveViews.{move_end_view, request_view};
ghost use Rattle.record_reader.specs.RecordReaders.{deletion_at, flag_at, given_end_at, move_end_at, move_start_at, receive_end_at, receive_start_at, released_at, request_at, section_at};
ghost use Rattle.shard_records.specs.Readable.{IsHeld, IsHeldTable};
ghost use Rattle.record_parts.specs.Finds.{Finds};

use cluster_base::{NodeId, RequestId, Time};
use record_parts::{
    RecordFault, read_byte, read_namespace, read_range, read_table, read_u32, read_u64,
    read_version,
};
use shard_records::{Deletion, MoveEnd, MoveStart, ReceiveStart, Record, SectionStart};
use std::alloc::Global;

/// Reads the number of a request.
#[tactic(auto, unfolding(crate::specs::RecordReaders::request_at))]
pub(crate) fn read_request(bytes: &[u8]) -> Result<(RequestId, &[u8]), RecordFault>
    ensures { Finds (λ x. (request_view x.0, x.1.now)) result (request_at bytes.now) }
{
    let (router, rest) = read_u32(bytes)?;
    let (life, rest) = read_u64(rest)?;
    let (count, rest) = read_u64(rest)?;
    let id = RequestId {
        router: NodeId(router),
        life,
        count,
    };
    Ok((id, rest))
}

/// Reads whether something holds.
#[tactic(auto, unfolding(crate::specs::RecordReaders::flag_at))]
fn read_flag(bytes: &[u8]) -> Result<(bool, &[u8]), RecordFault>
    ensures { Finds (λ x. (x.0, x.1.now)) result (flag_at bytes.now) }
{
    let (byte, rest) = read_byte(bytes)?;
    Ok((byte == 0x01, rest))
}

/// Reads the begin of a move.
#[tactic(auto, unfolding(crate::specs::RecordReaders::move_start_at))]
pub(crate) fn read_move_start(alloc: Global, bytes: &[u8]) -> Result<Record, RecordFault>
    ensures found { Finds (λ r. record_view r) result (move_start_at bytes.now) }
    ensures held { IfOk result (λ r. IsHeld (record_view r)) }
{
    let (id, rest) = read_request(bytes)?;
    let (namespace, rest) = read_namespace(alloc, rest)?;
    let (range, rest) = read_range(alloc, rest)?;
    let (to, rest) = read_u32(rest)?;
    let (version, rest) = read_version(rest)?;
    let (time, _rest) = read_u64(rest)?;
    Ok(Record::MoveStart(MoveStart {
        id,
        namespace,
        range,
        to: NodeId(to),
        version,
        time: Time(time),
    }))
}

/// Reads the begin of a section.
#[tactic(auto, unfolding(crate::specs::RecordReaders::section_at))]
pub(crate) fn read_section(bytes: &[u8]) -> Result<Record, RecordFault>
    ensures found { Finds (λ r. record_view r) result (section_at bytes.now) }
    ensures held { IfOk result (λ r. IsHeld (record_view r)) }
{
    let (id, rest) = read_request(bytes)?;
    let (time, _rest) = read_u64(rest)?;
    Ok(Record::Section(SectionStart {
        id,
        time: Time(time),
    }))
}

/// Reads the end of a part in a move.
#[tactic(auto, unfolding(crate::specs::RecordReaders::move_end_at))]
fn read_move_end(alloc: Global, bytes: &[u8]) -> Result<MoveEnd, RecordFault>
    ensures found { Finds (λ m. move_end_view m) result (move_end_at bytes.now) }
    ensures held { IfOk result (λ m. IsHeldTable m.table) }
{
    let (id, rest) = read_request(bytes)?;
    let (committed, rest) = read_flag(rest)?;
    let (table, rest) = read_table(alloc, rest)?;
    let (time, rest) = read_u64(rest)?;
    let (due, _rest) = read_u64(rest)?;
    Ok(MoveEnd {
        id,
        committed,
        table,
        time: Time(time),
        due,
    })
}

/// Reads the end of the donor's part.
#[tactic(auto, unfolding(crate::specs::RecordReaders::given_end_at))]
pub(crate) fn read_given_end(alloc: Global, bytes: &[u8]) -> Result<Record, RecordFault>
    ensures found { Finds (λ r. record_view r) result (given_end_at bytes.now) }
    ensures held { IfOk result (λ r. IsHeld (record_view r)) }
{
    let kept = read_move_end(alloc, bytes)?;
    Ok(Record::MoveEnd(kept))
}

/// Reads the end of the recipient's part.
#[tactic(auto, unfolding(crate::specs::RecordReaders::receive_end_at))]
pub(crate) fn read_receive_end(alloc: Global, bytes: &[u8]) -> Result<Record, RecordFault>
    ensures found { Finds (λ r. record_view r) result (receive_end_at bytes.now) }
    ensures held { IfOk result (λ r. IsHeld (record_view r)) }
{
    let kept = read_move_end(alloc, bytes)?;
    Ok(Record::ReceiveEnd(kept))
}

/// Reads that the donor's part ended.
#[tactic(auto, unfolding(crate::specs::RecordReaders::released_at))]
pub(crate) fn read_released(bytes: &[u8]) -> Result<Record, RecordFault>
    ensures found { Finds (λ r. record_view r) result (released_at bytes.now) }
    ensures held { IfOk result (λ r. IsHeld (record_view r)) }
{
    let (id, _rest) = read_request(bytes)?;
    Ok(Record::Released(id))
}

/// Reads the begin of the recipient's part.
#[tactic(auto, unfolding(crate::specs::RecordReaders::receive_start_at))]
pub(crate) fn read_receive_start(alloc: Global, bytes: &[u8]) -> Result<Record, RecordFault>
    ensures found { Finds (λ r. record_view r) result (receive_start_at bytes.now) }
    ensures held { IfOk result (λ r. IsHeld (record_view r)) }
{
    let (id, rest) = read_request(bytes)?;
    let (namespace, rest) = read_namespace(alloc, rest)?;
    let (range, rest) = read_range(alloc, rest)?;
    let (from, rest) = read_u32(rest)?;
    let (table, rest) = read_table(alloc, rest)?;
    let (time, _rest) = read_u64(rest)?;
    Ok(Record::ReceiveStart(ReceiveStart {
        id,
        namespace,
        range,
        from: NodeId(from),
        table,
        time: Time(time),
    }))
}

/// Reads a deletion.
#[tactic(auto, unfolding(crate::specs::RecordReaders::deletion_at))]
pub(crate) fn read_deletion(alloc: Global, bytes: &[u8]) -> Result<Record, RecordFault>
    ensures found { Finds (λ r. record_view r) result (deletion_at bytes.now) }
    ensures held { IfOk result (λ r. IsHeld (record_view r)) }
{
    let (namespace, rest) = read_namespace(alloc, bytes)?;
    let (range, rest) = read_range(alloc, rest)?;
    let (until, _rest) = read_u64(rest)?;
    Ok(Record::Deleted(Deletion {
        namespace,
        range,
        until: Time(until),
    }))
}
