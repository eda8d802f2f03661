//! Reading a record from its bytes.

ghost use Rattle.std.specs.Prelude.{◌≡◌, ◌↔◌, Some, IfOk, IsTrue};
ghost use Rattle.record_model.specs.Records as records;
ghost use Rattle.record_model.specs.RecordFormat.{IsSound, spelled};
ghost use Rattle.shard_records.specs.Meanings.{record_view};
ghost use Rattle.record_parts.specs.Finds.{Finds};
ghost use Rattle.record_reader.specs.Decided.{IsDecided};
ghost use Rattle.shard_records.specs.Readable.{IsHeld};
ghost use Rattle.record_model.specs.Records.{block_record, catalogue_ceiling_record, ceiling_record, floor_record, life_record};
ghost use Rattle.record_reader.specs.RecordReaders.{catalogue_fields_at, fields_at, move_fields_at, number_at, record_at, router_fields_at, shard_fields_at, table_record_at};

use crate::batches::read_received;
use crate::changes::{read_commit, read_creation, read_purge, read_resolve, read_split};
use crate::entries::read_entry;
use crate::moves::{
    read_deletion, read_given_end, read_move_start, read_receive_end, read_receive_start,
    read_released, read_section,
};
use crate::sessions::read_receive_done;
use bson_values::Memory;
use cluster_base::Time;
use record_parts::{RecordFault, read_byte, read_table, read_u64};
use shard_records::{Record, write_record};
use std::alloc::Global;

/// The format that records are written in.
const FORMAT: u8 = 0x01;

/// Reads the record of a table.
#[tactic(auto, unfolding(crate::specs::RecordReaders::table_record_at))]
fn read_table_record(alloc: Global, bytes: &[u8]) -> Result<Record, RecordFault>
    ensures found { Finds (λ r. record_view r) result (table_record_at bytes.now) }
    ensures held { IfOk result (λ r. IsHeld (record_view r)) }
{
    let (table, _rest) = read_table(alloc, bytes)?;
    Ok(Record::Table(table))
}

/// Reads a ceiling of a shard.
#[tactic(auto, unfolding(crate::specs::RecordReaders::number_at))]
fn read_ceiling(bytes: &[u8]) -> Result<Record, RecordFault>
    ensures found { Finds (λ r. record_view r) result (number_at ceiling_record bytes.now) }
    ensures held { IfOk result (λ r. IsHeld (record_view r)) }
{
    let (number, _rest) = read_u64(bytes)?;
    Ok(Record::Ceiling(Time(number)))
}

/// Reads a floor.
#[tactic(auto, unfolding(crate::specs::RecordReaders::number_at))]
fn read_floor(bytes: &[u8]) -> Result<Record, RecordFault>
    ensures found { Finds (λ r. record_view r) result (number_at floor_record bytes.now) }
    ensures held { IfOk result (λ r. IsHeld (record_view r)) }
{
    let (number, _rest) = read_u64(bytes)?;
    Ok(Record::Floor(Time(number)))
}

/// Reads a ceiling of the catalogue.
#[tactic(auto, unfolding(crate::specs::RecordReaders::number_at))]
fn read_catalogue_ceiling(bytes: &[u8]) -> Result<Record, RecordFault>
    ensures found { Finds (λ r. record_view r) result (number_at catalogue_ceiling_record bytes.now) }
    ensures held { IfOk result (λ r. IsHeld (record_view r)) }
{
    let (number, _rest) = read_u64(bytes)?;
    Ok(Record::CatalogueCeiling(Time(number)))
}

/// Reads a life of a router.
#[tactic(auto, unfolding(crate::specs::RecordReaders::number_at))]
fn read_life(bytes: &[u8]) -> Result<Record, RecordFault>
    ensures found { Finds (λ r. record_view r) result (number_at life_record bytes.now) }
    ensures held { IfOk result (λ r. IsHeld (record_view r)) }
{
    let (number, _rest) = read_u64(bytes)?;
    Ok(Record::Life(number))
}

/// Reads a block of cursor numbers.
#[tactic(auto, unfolding(crate::specs::RecordReaders::number_at))]
fn read_block(bytes: &[u8]) -> Result<Record, RecordFault>
    ensures found { Finds (λ r. record_view r) result (number_at block_record bytes.now) }
    ensures held { IfOk result (λ r. IsHeld (record_view r)) }
{
    let (number, _rest) = read_u64(bytes)?;
    Ok(Record::Block(number))
}

/// Reads the fields of a record of that kind: what a shard stores outside of moves.
#[tactic(auto, unfolding(crate::specs::RecordReaders::shard_fields_at))]
fn read_shard_fields(alloc: Global, kind: u8, bytes: &[u8]) -> Result<Record, RecordFault>
    ensures found { Finds (λ r. record_view r) result (shard_fields_at kind bytes.now) }
    ensures held { IfOk result (λ r. IsHeld (record_view r)) }
{
    match kind {
        0x01 => read_table_record(alloc, bytes),
        0x02 => read_entry(alloc, bytes),
        0x03 => read_ceiling(bytes),
        0x04 => read_floor(bytes),
        _ => Err(RecordFault::NoRecord),
    }
}

/// Reads the fields of a record of that kind: what a shard stores of moves.
#[tactic(auto, unfolding(crate::specs::RecordReaders::move_fields_at))]
fn read_move_fields(alloc: Global, kind: u8, bytes: &[u8]) -> Result<Record, RecordFault>
    ensures found { Finds (λ r. record_view r) result (move_fields_at kind bytes.now) }
    ensures held { IfOk result (λ r. IsHeld (record_view r)) }
{
    match kind {
        0x05 => read_move_start(alloc, bytes),
        0x06 => read_section(bytes),
        0x07 => read_given_end(alloc, bytes),
        0x08 => read_released(bytes),
        0x09 => read_receive_start(alloc, bytes),
        0x0a => read_received(alloc, bytes),
        0x0b => read_receive_done(alloc, bytes),
        0x0c => read_receive_end(alloc, bytes),
        0x0d => read_deletion(alloc, bytes),
        _ => Err(RecordFault::NoRecord),
    }
}

/// Reads the fields of a record of that kind: what the catalogue stores.
#[tactic(auto, unfolding(crate::specs::RecordReaders::catalogue_fields_at))]
fn read_catalogue_fields(alloc: Global, kind: u8, bytes: &[u8]) -> Result<Record, RecordFault>
    ensures found { Finds (λ r. record_view r) result (catalogue_fields_at kind bytes.now) }
    ensures held { IfOk result (λ r. IsHeld (record_view r)) }
{
    match kind {
        0x20 => read_creation(alloc, bytes),
        0x21 => read_split(alloc, bytes),
        0x22 => read_commit(alloc, bytes),
        0x23 => read_resolve(alloc, bytes),
        0x24 => read_purge(alloc, bytes),
        0x25 => read_catalogue_ceiling(bytes),
        _ => Err(RecordFault::NoRecord),
    }
}

/// Reads the fields of a record of that kind: what a router stores.
#[tactic(auto, unfolding(crate::specs::RecordReaders::router_fields_at))]
fn read_router_fields(kind: u8, bytes: &[u8]) -> Result<Record, RecordFault>
    ensures found { Finds (λ r. record_view r) result (router_fields_at kind bytes.now) }
    ensures held { IfOk result (λ r. IsHeld (record_view r)) }
{
    match kind {
        0x30 => read_life(bytes),
        0x31 => read_block(bytes),
        _ => Err(RecordFault::NoRecord),
    }
}

/// Reads the fields of a record of that kind.
#[tactic(auto, unfolding(crate::specs::RecordReaders::fields_at))]
fn read_fields(alloc: Global, kind: u8, bytes: &[u8]) -> Result<Record, RecordFault>
    ensures found { Finds (λ r. record_view r) result (fields_at kind bytes.now) }
    ensures held { IfOk result (λ r. IsHeld (record_view r)) }
{
    if kind < 0x05 {
        read_shard_fields(alloc, kind, bytes)
    } else if kind < 0x0e {
        read_move_fields(alloc, kind, bytes)
    } else if kind < 0x30 {
        read_catalogue_fields(alloc, kind, bytes)
    } else {
        read_router_fields(kind, bytes)
    }
}

/// Reads the record that bytes begin with, if they encode one.
#[tactic(auto, unfolding(crate::specs::RecordReaders::record_at))]
fn record_in(alloc: Global, bytes: &[u8]) -> Result<Record, RecordFault>
    ensures found { Finds (λ r. record_view r) result (record_at bytes.now) }
    ensures held { IfOk result (λ r. IsHeld (record_view r)) }
{
    let (format, rest) = read_byte(bytes)?;
    let (kind, rest) = read_byte(rest)?;
    if format == FORMAT {
        read_fields(alloc, kind, rest)
    } else {
        Err(RecordFault::NoRecord)
    }
}

/// Returns whether the bytes are the record's one encoding, or `Memory` if memory runs out.
#[tactic(auto, using(crate::proofs::Held::held_writable))]
fn is_spelled(alloc: Global, kept: &Record, bytes: &[u8]) -> Result<bool, Memory>
    requires { IsHeld (record_view kept.now) }
    ensures same { IfOk result (λ b. IsTrue b ↔ (spelled 1 (record_view kept.now) ≡ bytes.now)) }
    ensures sound { IfOk result (λ b. IsSound (record_view kept.now)) }
{
    let mut spelling = Vec::with_capacity(alloc, bytes.len())?;
    write_record(kept, &mut spelling)?;
    Ok(spelling.as_slice() == bytes)
}

/// Returns what was read, where it is known to be the same.
fn kept_if<T: Drop>(kept: T, same: Result<bool, Memory>) -> Result<T, RecordFault>
    ensures { IsDecided kept same result }
{
    match same {
        Ok(true) => Ok(kept),
        Ok(false) => Err(RecordFault::NoRecord),
        Err(_) => Err(RecordFault::Memory),
    }
}

/// Reads the record that the bytes, all of them, encode in the newest format.
///
/// # Errors
/// - `NoRecord` exactly where they encode none that the program can hold, unless memory runs out.
/// - `Memory` if memory runs out.
pub fn read_record(alloc: Global, bytes: &[u8]) -> Result<Record, RecordFault>
    // What is read is sound, and is encoded by the bytes.
    ensures spelled { IfOk result (λ r. spelled 1 (record_view r) ≡ bytes.now) }
    ensures sound { IfOk result (λ r. IsSound (record_view r)) }
    ensures held { IfOk result (λ r. IsHeld (record_view r)) }
    // The record that the bytes encode is read, unless memory runs out.
    ensures only { (r : records.Record) → IsSound r → IsHeld r → spelled 1 r ≡ bytes.now → Finds (λ x. record_view x) result (Some r) }
{
    let kept = record_in(alloc, bytes)?;
    let same = is_spelled(alloc, &kept, bytes);
    kept_if(kept, same)
}
