//! Reading the parts that several records have: numbers, names, documents and keys.
//!
//! Each reader returns what is at the beginning of the bytes, and the bytes after it.

ghost use Rattle.std.specs.Prelude.{◌≡◌, ◌≤◌, Ok, length, IfOk};
ghost use Rattle.std.specs.Str.{IsUtf8};
ghost use Rattle.bson_model.specs.Limits.{IsWritable};
ghost use Rattle.bson_values.specs.Readers.{whole_at};
ghost use Rattle.value_model.specs.Keys.{valid_key};
ghost use Rattle.record_model.specs.RecordFormat.{key_document};
ghost use Rattle.record_parts.specs.Finds.{Finds, fault_view};
ghost use Rattle.record_parts.specs.Readers.{byte_at, bytes_at, document_at, eight_at, four_at, key_at, key_in, name_in, namespace_at, whole_in};
ghost use Rattle.shard_records.specs.Sizes.{FitsRecord};
ghost use Rattle.bson_model.specs.Grammar.{IsWithinDepth};

use crate::fault::RecordFault;
use bson_values::{BsonFault, Document, read};
use byteorder::{ByteOrder, LittleEndian};
use cluster_base::{NameFault, Namespace};
use std::alloc::Global;
use std::str;
use value_compare::{Key, KeyFault, key_of};

/// The most bytes of a document that can be written.
const MOST_BYTES_WRITTEN: usize = 400_000_000;

/// Reads one byte.
#[tactic(auto, unfolding(crate::specs::Readers::byte_at))]
pub fn read_byte(bytes: &[u8]) -> Result<(u8, &[u8]), RecordFault>
    ensures { Finds (λ x. (x.0, x.1.now)) result (byte_at bytes.now) }
{
    match bytes {
        [] => Err(RecordFault::NoRecord),
        [byte, rest @ ..] => Ok((*byte, rest)),
    }
}

/// Reads so many bytes.
#[tactic(auto, unfolding(crate::specs::Readers::bytes_at))]
pub(crate) fn read_bytes(count: usize, bytes: &[u8]) -> Result<(&[u8], &[u8]), RecordFault>
    ensures found { Finds (λ x. (x.0.now, x.1.now)) result (bytes_at count bytes.now) }
    ensures count { IfOk result (λ x. length x.0.now ≡ count) }
{
    if bytes.len() < count {
        return Err(RecordFault::NoRecord);
    }
    Ok(bytes.split_at(count))
}

/// Reads a number of four bytes, the lowest first.
#[tactic(auto, unfolding(crate::specs::Readers::four_at))]
pub fn read_u32(bytes: &[u8]) -> Result<(u32, &[u8]), RecordFault>
    ensures { Finds (λ x. (x.0, x.1.now)) result (four_at bytes.now) }
{
    let (number, rest) = read_bytes(4, bytes)?;
    Ok((LittleEndian::read_u32(number), rest))
}

/// Reads a number of eight bytes, the lowest first.
#[tactic(auto, unfolding(crate::specs::Readers::eight_at))]
pub fn read_u64(bytes: &[u8]) -> Result<(u64, &[u8]), RecordFault>
    ensures { Finds (λ x. (x.0, x.1.now)) result (eight_at bytes.now) }
{
    let (number, rest) = read_bytes(8, bytes)?;
    Ok((LittleEndian::read_u64(number), rest))
}

/// Returns the namespace of that full name.
#[tactic(auto, using(crate::proofs::Names::name_tests))]
fn namespace_of(alloc: Global, name: &[u8]) -> Result<Namespace, RecordFault>
    ensures found { Finds (λ n. n) result (name_in name.now) }
    ensures text { IfOk result (λ n. IsUtf8 n) }
{
    let text = match str::from_utf8(name) {
        Ok(text) => text,
        Err(_) => return Err(RecordFault::NoRecord),
    };
    match Namespace::read(alloc, text) {
        Ok(namespace) => Ok(namespace),
        Err(NameFault::Form) => Err(RecordFault::NoRecord),
        Err(NameFault::Memory) => Err(RecordFault::Memory),
    }
}

/// Reads a namespace: the number of its bytes, and its bytes.
#[tactic(auto, unfolding(crate::specs::Readers::namespace_at))]
pub fn read_namespace(alloc: Global, bytes: &[u8]) -> Result<(Namespace, &[u8]), RecordFault>
    ensures found { Finds (λ x. (x.0, x.1.now)) result (namespace_at bytes.now) }
    ensures text { IfOk result (λ x. IsUtf8 x.0) }
{
    let (count, rest) = read_u32(bytes)?;
    let (name, rest) = read_bytes(count as usize, rest)?;
    let namespace = namespace_of(alloc, name)?;
    Ok((namespace, rest))
}

/// Returns the fault of a record whose bytes have that fault.
fn fault_of(fault: BsonFault) -> RecordFault
    ensures { result ≡ fault_view fault }
{
    match fault {
        BsonFault::Memory => RecordFault::Memory,
        BsonFault::Short { .. }
        | BsonFault::BadLength { .. }
        | BsonFault::BadType { .. }
        | BsonFault::BadText { .. }
        | BsonFault::BadBool { .. }
        | BsonFault::Deep { .. }
        | BsonFault::Trailing { .. } => RecordFault::NoRecord,
    }
}

/// Reads a document, and returns how many bytes it has.
fn read_whole(alloc: Global, bytes: &[u8]) -> Result<(Document, usize), RecordFault>
    ensures found { Finds (λ x. x) result (whole_in (whole_at bytes.now)) }
    ensures depth { IfOk result (λ x. IsWithinDepth x.0) }
    ensures length { IfOk result (λ x. x.1 ≤ length bytes.now) }
{
    match read(alloc, bytes) {
        Ok(found) => Ok(found),
        Err(fault) => Err(fault_of(fault)),
    }
}

/// Reads a document.
#[tactic(auto, unfolding(crate::specs::Readers::document_at))]
pub fn read_document(alloc: Global, bytes: &[u8]) -> Result<(Document, &[u8]), RecordFault>
    ensures found { Finds (λ x. (x.0, x.1.now)) result (document_at bytes.now) }
    ensures fits { IfOk result (λ x. FitsRecord x.0) }
{
    let (document, length) = read_whole(alloc, bytes)?;
    if document.size() > MOST_BYTES_WRITTEN {
        return Err(RecordFault::NoRecord);
    }
    Ok((document, &bytes[length..]))
}

/// Returns the key of the document.
fn key_in(alloc: Global, document: &Document) -> Result<Key, RecordFault>
    ensures found { Finds (λ key. key) result (key_in (valid_key document.now)) }
    ensures key { IfOk result (λ key. valid_key document.now ≡ Ok key) }
{
    match key_of(alloc, document) {
        Ok(key) => Ok(key),
        Err(KeyFault::Absent) => Err(RecordFault::NoRecord),
        Err(KeyFault::Kind) => Err(RecordFault::NoRecord),
        Err(KeyFault::Memory) => Err(RecordFault::Memory),
    }
}

/// Reads a key, in the document that has it.
#[tactic(auto, unfolding(crate::specs::Readers::key_at), using(crate::proofs::Documents::key_fits))]
pub fn read_key(alloc: Global, bytes: &[u8]) -> Result<(Key, &[u8]), RecordFault>
    ensures found { Finds (λ x. (x.0, x.1.now)) result (key_at bytes.now) }
    ensures fits { IfOk result (λ x. IsWritable (key_document x.0)) }
{
    let (document, rest) = read_document(alloc, bytes)?;
    let key = key_in(alloc, &document)?;
    Ok((key, rest))
}
