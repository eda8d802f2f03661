//! Reading the record of an entry.

ghost use Rattle.std.specs.Prelude.{IfOk};
ghost use Rattle.shard_records.specs.Meanings.{record_view};
ghost use Rattle.record_parts.specs.Finds.{Finds};
ghost use Rattle.record_reader.specs.RecordReaders.{entry_at};
ghost use Rattle.shard_records.specs.Readable.{IsHeld};

use cluster_base::Time;
use record_parts::{
    RecordFault, read_namespace, read_operation, read_reply, read_statement, read_u64,
};
use shard_records::Record;
use std::alloc::Global;

/// Reads an entry.
#[tactic(auto, unfolding(crate::specs::RecordReaders::entry_at))]
pub(crate) fn read_entry(alloc: Global, bytes: &[u8]) -> Result<Record, RecordFault>
    ensures found { Finds (λ r. record_view r) result (entry_at bytes.now) }
    ensures held { IfOk result (λ r. IsHeld (record_view r)) }
{
    let (time, rest) = read_u64(bytes)?;
    let (namespace, rest) = read_namespace(alloc, rest)?;
    let (statement, rest) = read_statement(rest)?;
    let (op, rest) = read_operation(alloc, rest)?;
    let (reply, _rest) = read_reply(alloc, rest)?;
    Ok(Record::Entry {
        time: Time(time),
        namespace,
        statement,
        op,
        reply,
    })
}
