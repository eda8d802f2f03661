//! Records are read one by one, and taken into the durable part of a node.

ghost use Rattle.std.specs.Prelude.{◌≡◌, ℕ, IfErr, IfOk};
ghost use Rattle.node_replay.specs.Durable.{DurableState};
ghost use Rattle.record_model.specs.RecordFormat.{IsSound};
ghost use Rattle.shard_records.specs.Readable.{IsHeld};
ghost use Rattle.shard_records.specs.Meanings.{record_view};
ghost use Rattle.journal_replay.specs.Replayed.{IsFault, IsReplayed, IsTaken, WasFollowed};

use crate::fault::OpenFault;
use bson_values::{Blob, Memory};
use record_reader::{RecordFault, read_record};
use shard_records::Record;
use std::alloc::Global;

/// The durable part of a node, to which the records of its journal are added one by one.
pub trait Replays: Sized + Drop {
    /// What it is in the definitions.
    ghost durable: { Self → DurableState };

    /// The greatest time in the records that were added.
    ghost time: { Self → ℕ };

    /// Adds the next record, and returns whether it may follow. Where it may not, what is left is of no use. Returns `Memory` if memory runs out, and where
    /// a number would pass the end of its type.
    fn follow(&mut self, next: Record) -> Result<bool, Memory>
        requires sound { IsSound (record_view next) }
        requires held { IsHeld (record_view next) }
        ensures followed { IfOk result (λ b. WasFollowed (durable self.old) (time self.old) (record_view next) (durable self.new) (time self.new) b) };
}

// Reads the next record from its bytes and adds it, and returns whether they encode a record that may follow. Returns `Memory` if memory runs out.
fn take_in<R: Replays>(alloc: Global, part: &mut R, bytes: &[u8]) -> Result<bool, Memory>
    ensures { IfOk result (λ b. IsTaken (R.durable part.old) (R.time part.old) bytes.now (R.durable part.new) (R.time part.new) b) }
{
    match read_record(alloc, bytes) {
        Ok(record) => part.follow(record),
        Err(RecordFault::NoRecord) => Ok(false),
        Err(RecordFault::Memory) => Err(Memory),
    }
}

/// Returns the durable part of a node after these records, each given by its bytes, from that of an empty journal on.
///
/// # Errors
/// - `Refused` exactly where the record at the index is the first that is no record or may not follow, unless memory runs out.
/// - `Memory` if memory runs out, and where a number would pass the end of its type.
pub fn replay<R: Replays>(alloc: Global, empty: R, records: &[Blob]) -> Result<R, OpenFault>
    requires early { R.time empty ≡ 0 }
    ensures replayed { IfOk result (λ part. IsReplayed (R.durable empty) records.now (R.durable part) (R.time part)) }
    ensures fault { IfErr result (λ fault. IsFault (R.durable empty) records.now fault) }
{
    let mut part = empty;
    let mut index = 0;
    'records: while index < records.len() {
        if !take_in(alloc, &mut part, records[index].as_slice())? {
            return Err(OpenFault::Refused { index });
        }
        index += 1;
    }
    Ok(part)
}
