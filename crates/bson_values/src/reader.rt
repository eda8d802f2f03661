//! Reading values, and the document at the beginning of some bytes.
//!
//! `total`, `room` and offsets are as in `scan`; `level` is how many levels may be nested in a value. Functions that are called for each field are inlined,
//! so that their results stay in registers.

ghost use Rattle.std.specs.Prelude.{◌≡◌, ◌≢◌, ◌+◌, ◌<◌, ◌≤◌, ◌++◌, ◌⊎◌, ℕ, List, Ok, Err, IfOk, IfErr, IfNone, IfSome, length, take};
ghost use Rattle.std.specs.Option.{option_map};
ghost use Rattle.bson_model.specs.Faults.{Fault, HasFirstFault};
ghost use Rattle.bson_model.specs.Tree.{Datum, Fields, field, int32_value, joined, no_fields, string_value};
ghost use Rattle.bson_model.specs.Grammar.{AreBytes, BeginsWith, IsWithinDepth, ReadsAs};
ghost use Rattle.bson_values.specs.ReadFaults.{Fails, Gives, fault_from};
ghost use Rattle.bson_values.specs.Readers.{binary_at, boolean_at, deep_at, scalar_at, value_at};
ghost use Rattle.bson_values.specs.Readers.{item_head_at, item_at, document_with, array_with, string_at, whole_at};
ghost use Rattle.bson_values.specs.Rests.{IsRest};
ghost use Rattle.bson_values.specs.View.{datum_of};

use crate::element_type::ElementType;
use crate::fault::BsonFault;
use crate::limits::{LENGTH_LIMIT, MOST_DEPTH_KEPT};
use crate::rooms::{count_elements, usual_room};
use crate::scan::{read_fixed, read_length, read_name, read_text, read_type, skip_name};
use crate::text::{Blob, Name, Text};
use crate::value::{Aligned, Array, Document, Field, Value};
use byteorder::{ByteOrder, LittleEndian};
use std::alloc::Global;

// How many levels may be nested in the outermost document.
const DEPTH: u32 = MOST_DEPTH_KEPT - 1;

// In this many outermost levels room is reserved without counting the elements first.
const FIRST_LEVELS: u32 = 3;

/// The fault of a document or an array where no level is left: its length is checked first.
#[tactic(auto, unfolding(crate::specs::Readers::deep_at, crate::specs::Readers::deep_unless))]
fn deep_fault(total: usize, room: usize, bytes: &[u8]) -> BsonFault
    requires { length bytes.now ≤ total }
    ensures { result ≡ deep_at total room bytes.now }
{
    match read_length(total, 5, 0, room, bytes) {
        Err(BsonFault::BadLength { place: offset }) => BsonFault::BadLength { place: offset },
        _ => {
            if bytes.is_empty() {
                return BsonFault::Short { place: total };
            }
            BsonFault::Deep {
                place: total - bytes.len(),
            }
        }
    }
}

#[tactic(auto, unfolding(crate::specs::Readers::binary_at, crate::specs::Readers::content_at))]
fn read_binary(
    alloc: Global,
    total: usize,
    room: usize,
    bytes: &[u8],
) -> Result<(Value, &[u8]), BsonFault>
    requires total { length bytes.now ≤ total }
    ensures gives { Gives (λ x. (datum_of x.0, x.1.now)) result (binary_at total room bytes.now) }
    ensures rest { IfOk result (λ x. IsRest bytes.now room x.1.now) }
{
    let (count, rest) = read_length(total, 0, 5, room, bytes)?;
    let Some((subtype, rest)) = rest.split_first() else {
        return Err(BsonFault::Short { place: total });
    };
    if rest.len() < count {
        return Err(BsonFault::Short { place: total });
    }
    let (content, rest) = rest.split_at(count);
    let bytes = Blob::of(alloc, content)?;
    Ok((
        Value::Binary {
            subtype: *subtype,
            bytes,
        },
        rest,
    ))
}

#[tactic(auto, unfolding(crate::specs::Readers::boolean_at))]
fn read_boolean(total: usize, room: usize, bytes: &[u8]) -> Result<(Value, &[u8]), BsonFault>
    requires total { length bytes.now ≤ total }
    requires room { 0 < room }
    ensures gives { Gives (λ x. (datum_of x.0, x.1.now)) result (boolean_at total bytes.now) }
    ensures rest { IfOk result (λ x. IsRest bytes.now room x.1.now) }
{
    match bytes {
        [] => Err(BsonFault::Short { place: total }),
        [0, rest @ ..] => Ok((Value::Bool(Aligned::of(false)), rest)),
        [1, rest @ ..] => Ok((Value::Bool(Aligned::of(true)), rest)),
        [_, ..] => Err(BsonFault::BadBool {
            place: total - bytes.len(),
        }),
    }
}

#[tactic(auto, unfolding(crate::specs::Readers::scalar_at))]
fn read_object_id(total: usize, room: usize, bytes: &[u8]) -> Result<(Value, &[u8]), BsonFault>
    requires total { length bytes.now ≤ total }
    requires room { 0 < room }
    ensures gives { Gives (λ x. (datum_of x.0, x.1.now)) result (scalar_at total ElementType.ObjectId room bytes.now) }
    ensures rest { IfOk result (λ x. IsRest bytes.now room x.1.now) }
{
    let (prefix, rest) = read_fixed(total, 12, room, bytes)?;
    let mut id = [0; 12];
    id.copy_from_slice(prefix);
    Ok((Value::ObjectId(Aligned::of(id)), rest))
}

#[tactic(auto, unfolding(crate::specs::Readers::scalar_at))]
fn read_date(total: usize, room: usize, bytes: &[u8]) -> Result<(Value, &[u8]), BsonFault>
    requires total { length bytes.now ≤ total }
    requires room { 0 < room }
    ensures gives { Gives (λ x. (datum_of x.0, x.1.now)) result (scalar_at total ElementType.Date room bytes.now) }
    ensures rest { IfOk result (λ x. IsRest bytes.now room x.1.now) }
{
    let (prefix, rest) = read_fixed(total, 8, room, bytes)?;
    let time = LittleEndian::read_u64(prefix).cast_signed();
    Ok((Value::Date(time), rest))
}

#[tactic(auto, unfolding(crate::specs::Readers::scalar_at))]
#[inline(always)]
fn read_int32(total: usize, room: usize, bytes: &[u8]) -> Result<(i32, &[u8]), BsonFault>
    requires total { length bytes.now ≤ total }
    requires room { 0 < room }
    ensures gives { Gives (λ x. (int32_value x.0, x.1.now)) result (scalar_at total ElementType.Int32 room bytes.now) }
    ensures rest { IfOk result (λ x. IsRest bytes.now room x.1.now) }
{
    let (prefix, rest) = read_fixed(total, 4, room, bytes)?;
    Ok((LittleEndian::read_u32(prefix).cast_signed(), rest))
}

/// Reads a string with its length (BSON 1.1, `string`). Returns its text, the bytes from the text on, and those after it.
#[tactic(auto, unfolding(crate::specs::Readers::string_at))]
#[inline(always)]
fn read_string(total: usize, room: usize, bytes: &[u8]) -> Result<(&str, &[u8], &[u8]), BsonFault>
    requires total { length bytes.now ≤ total }
    ensures gives { Gives (λ x. (x.0.now, x.2.now)) result (string_at total room bytes.now) }
    ensures front { IfOk result (λ x. x.0.now ≡ take (length x.0.now) x.1.now) }
    ensures rest { IfOk result (λ x. IsRest bytes.now room x.2.now) }
{
    let (count, front) = read_length(total, 1, 4, room, bytes)?;
    let (text, rest) = read_text(total, count, front)?;
    Ok((text, front, rest))
}

#[tactic(auto, unfolding(crate::specs::Readers::scalar_at))]
fn read_timestamp(total: usize, room: usize, bytes: &[u8]) -> Result<(Value, &[u8]), BsonFault>
    requires total { length bytes.now ≤ total }
    requires room { 0 < room }
    ensures gives { Gives (λ x. (datum_of x.0, x.1.now)) result (scalar_at total ElementType.Timestamp room bytes.now) }
    ensures rest { IfOk result (λ x. IsRest bytes.now room x.1.now) }
{
    let (prefix, rest) = read_fixed(total, 8, room, bytes)?;
    let time = LittleEndian::read_u64(prefix);
    Ok((Value::Timestamp(time), rest))
}

#[tactic(auto, unfolding(crate::specs::Readers::scalar_at))]
fn read_int64(total: usize, room: usize, bytes: &[u8]) -> Result<(Value, &[u8]), BsonFault>
    requires total { length bytes.now ≤ total }
    requires room { 0 < room }
    ensures gives { Gives (λ x. (datum_of x.0, x.1.now)) result (scalar_at total ElementType.Int64 room bytes.now) }
    ensures rest { IfOk result (λ x. IsRest bytes.now room x.1.now) }
{
    let (prefix, rest) = read_fixed(total, 8, room, bytes)?;
    let number = LittleEndian::read_u64(prefix).cast_signed();
    Ok((Value::Int64(number), rest))
}

/// Reads a value without nested values. A document or an array has no level left.
#[tactic(auto, unfolding(crate::specs::Readers::scalar_at))]
fn read_scalar(
    alloc: Global,
    total: usize,
    type_byte: ElementType,
    room: usize,
    bytes: &[u8],
) -> Result<(Value, &[u8]), BsonFault>
    requires total { length bytes.now ≤ total }
    requires room { 0 < room }
    ensures gives { Gives (λ x. (datum_of x.0, x.1.now)) result (scalar_at total type_byte room bytes.now) }
    ensures rest { IfOk result (λ x. IsRest bytes.now room x.1.now) }
{
    match type_byte {
        ElementType::Text => {
            let (text, _, rest) = read_string(total, room, bytes)?;
            Ok((Value::Text(Text::of(alloc, text)?), rest))
        }
        ElementType::Doc => Err(deep_fault(total, room, bytes)),
        ElementType::Array => Err(deep_fault(total, room, bytes)),
        ElementType::Binary => read_binary(alloc, total, room, bytes),
        ElementType::ObjectId => read_object_id(total, room, bytes),
        ElementType::Bool => read_boolean(total, room, bytes),
        ElementType::Date => read_date(total, room, bytes),
        ElementType::Null => Ok((Value::Null, bytes)),
        ElementType::Int32 => {
            let (number, rest) = read_int32(total, room, bytes)?;
            Ok((Value::Int32(Aligned::of(number)), rest))
        }
        ElementType::Timestamp => read_timestamp(total, room, bytes),
        ElementType::Int64 => read_int64(total, room, bytes),
        ElementType::MinKey => Ok((Value::MinKey, bytes)),
        ElementType::MaxKey => Ok((Value::MaxKey, bytes)),
    }
}

// What precedes a field's value: its type, its name, and the room after the name.
#[derive(Drop)]
struct Head {
    type_byte: ElementType,
    name: Name,
    room: usize,
}

/// Reads what precedes the next value of an array: its type and its name, which is skipped. Returns the type and the room after the name, or none at the end
/// of the array.
#[tactic(auto, unfolding(crate::specs::Readers::item_head_at, crate::specs::Readers::index_behind))]
#[inline(always)]
fn read_item_head(
    total: usize,
    room: usize,
    bytes: &[u8],
) -> Result<(Option<(ElementType, usize)>, &[u8]), BsonFault>
    requires total { length bytes.now < total }
    ensures gives { Gives (λ x. (x.0, x.1.now)) result (item_head_at total room bytes.now) }
    ensures shorter { IfOk result (λ x. length x.1.now < length bytes.now) }
    ensures some { IfOk result (λ x. IfSome x.0 (λ h.
        (0 < h.1) × (length bytes.now + h.1 ≡ length x.1.now + room))) }
    ensures end { IfOk result (λ x. IfNone x.0 (length bytes.now ≡ length x.1.now + room)) }
{
    let (type_byte, rest) = read_type(total, room, bytes)?;
    let Some(type_byte) = type_byte else {
        return Ok((None, rest));
    };
    let (room, rest) = skip_name(total, room - 1, rest)?;
    Ok((Some((type_byte, room)), rest))
}

#[cycle(reader)]
#[tactic(auto, unfolding(crate::specs::Readers::value_at))]
#[inline(always)]
fn read_value(
    alloc: Global,
    total: usize,
    level: u32,
    type_byte: ElementType,
    room: usize,
    bytes: &[u8],
) -> Result<(Value, &[u8]), BsonFault>
    requires total { length bytes.now ≤ total }
    requires room { 0 < room }
    ensures gives { Gives (λ x. (datum_of x.0, x.1.now)) result (value_at total level type_byte room bytes.now) }
    ensures rest { IfOk result (λ x. IsRest bytes.now room x.1.now) }
{
    if level == 0 {
        return read_scalar(alloc, total, type_byte, room, bytes);
    }
    match type_byte {
        ElementType::Doc => {
            let (document, rest) = read_document(alloc, total, level - 1, room, bytes)?;
            Ok((Value::Doc(document), rest))
        }
        ElementType::Array => {
            let (array, rest) = read_array(alloc, total, level - 1, room, bytes)?;
            Ok((Value::Array(array), rest))
        }
        _ => read_scalar(alloc, total, type_byte, room, bytes),
    }
}

/// Reads the value after a head, and appends it under its name to the fields of a document.
#[cycle(reader)]
#[inline(never)]
fn put_value<'a>(
    alloc: Global,
    total: usize,
    level: u32,
    head: Head,
    bytes: &'a [u8],
    document: &mut Document,
) -> Result<&'a [u8], BsonFault>
    requires total { length bytes.now ≤ total }
    requires room { 0 < head.room }
    ensures put { IfOk result (λ x. (d : Datum)
        × (value_at total level head.type_byte head.room bytes.now ≡ Ok (d, x.now))
        × (document.new ≡ joined document.old (field head.name d no_fields))) }
    ensures fails { IfErr result (λ e. Fails e (value_at total level head.type_byte head.room bytes.now)) }
    ensures rest { IfOk result (λ x. IsRest bytes.now head.room x.now) }
{
    let (value, rest) = read_value(alloc, total, level, head.type_byte, head.room, bytes)?;
    document.push(head.name, value)?;
    Ok(rest)
}

/// Reads the value after a head, and appends it under its name to the fields of a document. Values of the most frequent types are appended where they are
/// read, since a value of a known type is not copied through memory.
#[cycle(reader)]
#[inline(always)]
fn put_field<'a>(
    alloc: Global,
    total: usize,
    level: u32,
    head: Head,
    bytes: &'a [u8],
    document: &mut Document,
) -> Result<&'a [u8], BsonFault>
    requires total { length bytes.now ≤ total }
    requires room { 0 < head.room }
    ensures put { IfOk result (λ x. (d : Datum)
        × (value_at total level head.type_byte head.room bytes.now ≡ Ok (d, x.now))
        × (document.new ≡ joined document.old (field head.name d no_fields))) }
    ensures fails { IfErr result (λ e. Fails e (value_at total level head.type_byte head.room bytes.now)) }
    ensures rest { IfOk result (λ x. IsRest bytes.now head.room x.now) }
{
    match head.type_byte {
        ElementType::Int32 => {
            let (number, rest) = read_int32(total, head.room, bytes)?;
            document.push(head.name, Value::Int32(Aligned::of(number)))?;
            Ok(rest)
        }
        ElementType::Text => {
            let (text, front, rest) = read_string(total, head.room, bytes)?;
            if let Some(text) = Text::of_short_front(text, front) {
                document.push(head.name, Value::Text(text))?;
                return Ok(rest);
            }
            let text = Text::of(alloc, text)?;
            document.push(head.name, Value::Text(text))?;
            Ok(rest)
        }
        _ => {
            let rest = put_value(alloc, total, level, head, bytes, document)?;
            Ok(rest)
        }
    }
}

/// Reads the next value of an array; its name may be any. Returns none at the end of the array.
#[cycle(reader)]
#[inline(always)]
fn read_item(
    alloc: Global,
    total: usize,
    level: u32,
    room: usize,
    bytes: &[u8],
) -> Result<(Option<Value>, &[u8]), BsonFault>
    requires total { length bytes.now < total }
    ensures gives { Gives (λ x. (option_map (λ v. datum_of v) x.0, x.1.now)) result
        (item_at total (value_at total level) room bytes.now) }
    ensures rest { IfOk result (λ x.
        (length x.1.now < length bytes.now) × (length bytes.now ≤ length x.1.now + room)) }
    ensures end { IfOk result (λ x. IfNone x.0 (length bytes.now ≡ length x.1.now + room)) }
{
    let (head, rest) = read_item_head(total, room, bytes)?;
    let Some((type_byte, room)) = head else {
        return Ok((None, rest));
    };
    let (value, rest) = read_value(alloc, total, level, type_byte, room, rest)?;
    Ok((Some(value), rest))
}

// Returns for how many elements of a document or an array of `count` bytes room is reserved first. The bytes count those of all nested levels, so where there
// are many levels they say little about the number of its own elements.
fn first_room(level: u32, count: usize, bytes: &[u8]) -> usize {
    if DEPTH - FIRST_LEVELS < level {
        usual_room(count)
    } else {
        count_elements(count, bytes)
    }
}

/// Reads a document: its length, its fields and the 00 after them (BSON 1.1, `document`).
#[cycle(reader)]
#[tactic(auto, unfolding(crate::specs::Readers::document_with))]
fn read_document(
    alloc: Global,
    total: usize,
    level: u32,
    room: usize,
    bytes: &[u8],
) -> Result<(Document, &[u8]), BsonFault>
    requires total { length bytes.now ≤ total }
    ensures gives { Gives (λ x. (x.0, x.1.now)) result
        (document_with total (value_at total level) room bytes.now) }
    ensures rest { IfOk result (λ x. IsRest bytes.now room x.1.now) }
{
    let (count, mut left) = read_length(total, 5, 0, room, bytes)?;
    let mut space = count - 4;
    let mut document = Document::with_room(alloc, first_room(level, count, left))?;
    'fields: loop {
        let (type_byte, rest) = read_type(total, space, left)?;
        let Some(type_byte) = type_byte else {
            document.give_back_room(count);
            return Ok((document, rest));
        };
        let front = rest;
        let (name, room, rest) = read_name(total, space - 1, front)?;
        let name = Name::of_front(alloc, name, front)?;
        let head = Head {
            type_byte,
            name,
            room,
        };
        let rest = put_field(alloc, total, level, head, rest, &mut document)?;
        space -= left.len() - rest.len();
        left = rest;
    }
}

/// Reads an array: its length, its values and the 00 after them.
#[cycle(reader)]
#[tactic(auto, unfolding(crate::specs::Readers::array_with))]
fn read_array(
    alloc: Global,
    total: usize,
    level: u32,
    room: usize,
    bytes: &[u8],
) -> Result<(Array, &[u8]), BsonFault>
    requires total { length bytes.now ≤ total }
    ensures gives { Gives (λ x. (x.0, x.1.now)) result
        (array_with total (value_at total level) room bytes.now) }
    ensures rest { IfOk result (λ x. IsRest bytes.now room x.1.now) }
{
    let (count, mut left) = read_length(total, 5, 0, room, bytes)?;
    let mut space = count - 4;
    let mut array = Array::with_room(alloc, first_room(level, count, left))?;
    'items: loop {
        let (value, rest) = read_item(alloc, total, level, space, left)?;
        let Some(value) = value else {
            array.give_back_room(count);
            return Ok((array, rest));
        };
        array.push(value)?;
        space -= left.len() - rest.len();
        left = rest;
    }
}

// Returns the document with its length, or the fault.
#[tactic(auto, unfolding(crate::specs::Readers::whole_at, crate::specs::Readers::document_at))]
fn read_exactly(alloc: Global, bytes: &[u8]) -> Result<(Document, usize), BsonFault>
    ensures exact { Gives (λ x. x) result (whole_at bytes.now) }
{
    let total = bytes.len();
    let (document, rest) = read_document(alloc, total, DEPTH, LENGTH_LIMIT, bytes)?;
    Ok((document, total - rest.len()))
}

/// Reads the document at the beginning of the bytes, and returns it with its length in bytes; what follows is ignored (BSON 1.1, `document`). Where no prefix
/// of the bytes encodes a document within 100 levels, returns the first fault in the order of the bytes, with its offset. Returns `Memory` if memory runs
/// out.
pub fn read(alloc: Global, bytes: &[u8]) -> Result<(Document, usize), BsonFault>
    // The bytes encode what is read.
    ensures found { IfOk result (λ x.
        (x.1 ≤ length bytes.now) × ReadsAs (take x.1 bytes.now) x.0 × IsWithinDepth x.0) }
    // What some prefix of the bytes encodes is read, unless memory runs out.
    ensures only { (ms : Fields) (n : ℕ) →
        n ≤ length bytes.now → ReadsAs (take n bytes.now) ms → IsWithinDepth ms →
        Gives (λ x. x) result (Ok (ms, n)) }
    // An error is the first fault of the bytes, or `Memory`.
    ensures first { IfErr result (λ e. e ≢ BsonFault.Memory →
        (fault : Fault) × (offset : ℕ) × (e ≡ fault_from fault offset) × HasFirstFault bytes.now fault offset) }
    // The first fault of the bytes is returned, unless memory runs out.
    ensures faulty { (fault : Fault) (offset : ℕ) →
        HasFirstFault bytes.now fault offset → Gives (λ x. x) result (Err (fault_from fault offset)) }
{
    read_exactly(alloc, bytes)
}

/// No encoding of a document is a proper prefix of another, and no bytes encode two documents: what was written is read back, whatever bytes follow it.
pub fn one_spelling()
    ensures { (a b x y : List ℕ) (ms ns : Fields) →
        ReadsAs a ms → ReadsAs b ns → a ++ x ≡ b ++ y → (a ≡ b) × (ms ≡ ns) }
{}

/// Bytes have at most one first fault, at one offset.
pub fn one_fault()
    ensures { (bytes : List ℕ) (f g : Fault) (p q : ℕ) →
        HasFirstFault bytes f p → HasFirstFault bytes g q → (f ≡ g) × (p ≡ q) }
{}

/// Bytes begin with a document within 100 levels or have a first fault, and never both.
pub fn document_or_fault()
    ensures either { (bytes : List ℕ) → AreBytes bytes →
        ((n : ℕ) × (ms : Fields) × BeginsWith bytes n ms)
        ⊎ ((fault : Fault) × (offset : ℕ) × HasFirstFault bytes fault offset) }
    ensures never_both { (bytes : List ℕ) (n : ℕ) (ms : Fields) (fault : Fault) (offset : ℕ) →
        AreBytes bytes → BeginsWith bytes n ms → HasFirstFault bytes fault offset → ⊥ }
{}
