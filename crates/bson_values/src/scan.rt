//! Reading values without nested values: lengths, strings, names and types.
//!
//! `total` is the number of all bytes that were passed in, so the offset of the first of some bytes is total less their number. `room` is how many bytes the
//! document still has by its length, including the last 00. Functions that are called for each field are inlined, so that their results stay in registers.

ghost use Rattle.std.specs.Prelude.{◌≡◌, ◌≢◌, ◌+◌, ◌<◌, ◌≤◌, length, take, IfOk, IfErr, IfNone, IsTrue, Some};
ghost use Rattle.std.specs.Str.{IsAscii};
ghost use Rattle.bson_values.specs.ReadFaults.{Gives};
ghost use Rattle.bson_values.specs.Readers.{length_within, length_at, fixed_at, utf8_at, text_at, name_from, room_at, index_at, name_at, type_at, checked_type};
ghost use Rattle.bson_values.specs.Types.{type_from};
ghost use Rattle.bson_values.specs.Rests.{IsRest};

use crate::element_type::ElementType;
use crate::fault::BsonFault;
use crate::limits::LENGTH_LIMIT;
use byteorder::{ByteOrder, LittleEndian};
use std::str;

/// Checks a length at an offset, and returns it with the bytes after it.
#[tactic(auto, unfolding(crate::specs::Readers::length_within))]
#[inline(always)]
fn check_length(
    least: usize,
    beside: usize,
    room: usize,
    offset: usize,
    count: usize,
    rest: &[u8],
) -> Result<(usize, &[u8]), BsonFault>
    requires { beside ≤ 8 }
    ensures gives { Gives (λ x. (x.0, x.1.now)) result (length_within least beside room offset count rest.now) }
    ensures memory { IfErr result (λ e. e ≢ BsonFault.Memory) }
    ensures fits { IfOk result (λ x.
        (least ≤ x.0) × (x.0 + beside ≤ room) × (length x.1.now ≡ length rest.now)) }
{
    if count < least || count >= LENGTH_LIMIT || room < count + beside {
        return Err(BsonFault::BadLength { place: offset });
    }
    Ok((count, rest))
}

/// Reads a length that is at least `least`; the value has `beside` bytes more than its length counts.
#[tactic(auto, unfolding(crate::specs::Readers::length_at))]
#[inline(always)]
pub fn read_length(
    total: usize,
    least: usize,
    beside: usize,
    room: usize,
    bytes: &[u8],
) -> Result<(usize, &[u8]), BsonFault>
    requires total { length bytes.now ≤ total }
    requires beside { beside ≤ 8 }
    ensures gives { Gives (λ x. (x.0, x.1.now)) result (length_at total least beside room bytes.now) }
    ensures memory { IfErr result (λ e. e ≢ BsonFault.Memory) }
    ensures fits { IfOk result (λ x.
        (least ≤ x.0) × (x.0 + beside ≤ room) × (length x.1.now + 4 ≡ length bytes.now)) }
{
    if bytes.is_empty() {
        return Err(BsonFault::Short { place: total });
    }
    let offset = total - bytes.len();
    if room < 5 {
        return Err(BsonFault::BadLength { place: offset });
    }
    if bytes.len() < 4 {
        return Err(BsonFault::Short { place: total });
    }
    let (prefix, rest) = bytes.split_at(4);
    let count = LittleEndian::read_u32(prefix) as usize;
    check_length(least, beside, room, offset, count, rest)
}

/// Reads `count` bytes.
#[tactic(auto, unfolding(crate::specs::Readers::fixed_at))]
#[inline(always)]
pub fn read_fixed(
    total: usize,
    count: usize,
    room: usize,
    bytes: &[u8],
) -> Result<(&[u8], &[u8]), BsonFault>
    requires total { length bytes.now ≤ total }
    requires room { 0 < room }
    ensures gives { Gives (λ x. (x.0.now, x.1.now)) result (fixed_at total count room bytes.now) }
    ensures rest { IfOk result (λ x. (length x.0.now ≡ count) × IsRest bytes.now room x.1.now) }
{
    if room < count {
        if bytes.len() < room {
            return Err(BsonFault::Short { place: total });
        }
        return Err(BsonFault::Trailing {
            place: total - bytes.len() + (room - 1),
        });
    }
    if bytes.len() < count {
        return Err(BsonFault::Short { place: total });
    }
    Ok(bytes.split_at(count))
}

/// Returns whether the bytes are ASCII, as most texts are. One test of the bitwise or of all bytes costs less than a test of each byte.
#[inline(always)]
fn is_ascii(bytes: &[u8]) -> bool
    ensures { IsTrue result → IsAscii bytes.now }
{
    let mut joined = 0;
    for byte in bytes {
        joined |= *byte;
    }
    joined < 0x80
}

/// Returns the bytes as a text, or the fault that they are not UTF-8.
#[tactic(auto, unfolding(crate::specs::Readers::utf8_at), using(crate::proofs::Utf8Tests::utf8_tests))]
#[inline(always)]
pub fn read_utf8(offset: usize, bytes: &[u8]) -> Result<&str, BsonFault>
    ensures gives { Gives (λ s. s.now) result (utf8_at offset bytes.now) }
    ensures same { IfOk result (λ s. s.now ≡ bytes.now) }
{
    if is_ascii(bytes) {
        // ASCII is UTF-8.
        return Ok(unsafe { str::from_utf8_unchecked(bytes) });
    }
    match str::from_utf8(bytes) {
        Ok(text) => Ok(text),
        Err(_) => Err(BsonFault::BadText { place: offset }),
    }
}

/// Reads a text, given its length including the final 00.
#[tactic(auto, unfolding(crate::specs::Readers::text_at))]
#[inline(always)]
pub fn read_text(total: usize, count: usize, bytes: &[u8]) -> Result<(&str, &[u8]), BsonFault>
    requires total { length bytes.now ≤ total }
    requires count { 0 < count }
    ensures gives { Gives (λ x. (x.0.now, x.1.now)) result (text_at total count bytes.now) }
    ensures rest { IfOk result (λ x. length x.1.now + count ≡ length bytes.now) }
    ensures front { IfOk result (λ x. x.0.now ≡ take (length x.0.now) bytes.now) }
{
    if bytes.len() < count {
        return Err(BsonFault::Short { place: total });
    }
    let offset = total - bytes.len();
    if bytes[count - 1] != 0 {
        return Err(BsonFault::BadText { place: offset });
    }
    let (prefix, _) = bytes.split_at(count - 1);
    let (_, rest) = bytes.split_at(count);
    let text = read_utf8(offset, prefix)?;
    Ok((text, rest))
}

/// Finds the end of a name, and returns the bytes before and after it (BSON 1.1, `cstring`).
#[inline(always)]
pub fn scan_name(
    total: usize,
    offset: usize,
    room: usize,
    bytes: &[u8],
) -> Result<(&[u8], &[u8]), BsonFault>
    ensures gives { Gives (λ x. (x.0.now, x.1.now)) result (name_from total offset room bytes.now) }
    ensures rest { IfOk result (λ x.
        (length x.0.now + (length x.1.now + 1) ≡ length bytes.now) × (length x.0.now < room)) }
    ensures front { IfOk result (λ x. x.0.now ≡ take (length x.0.now) bytes.now) }
{
    let end = bytes.len().min(room);
    for i in 0..end {
        if bytes[i] == 0 {
            return Ok((&bytes[..i], &bytes[i + 1..]));
        }
    }
    if bytes.len() < room {
        return Err(BsonFault::Short { place: total });
    }
    Err(BsonFault::BadText { place: offset })
}

/// Returns the room that is left after a name, which must be some.
#[tactic(auto, unfolding(crate::specs::Readers::room_at))]
#[inline(always)]
pub fn check_room(total: usize, room: usize, rest: &[u8]) -> Result<usize, BsonFault>
    requires total { length rest.now < total }
    ensures gives { Gives (λ x. x) result (room_at total room rest.now) }
    ensures same { IfOk result (λ x. (x ≡ room) × (0 < x)) }
{
    if room == 0 {
        return Err(BsonFault::Trailing {
            place: total - (rest.len() + 1),
        });
    }
    Ok(room)
}

/// Skips a name in an array, and returns the room and the bytes after it.
#[tactic(auto, unfolding(crate::specs::Readers::index_at))]
#[inline(always)]
pub fn skip_name(total: usize, room: usize, bytes: &[u8]) -> Result<(usize, &[u8]), BsonFault>
    requires total { length bytes.now ≤ total }
    ensures gives { Gives (λ x. (x.0, x.1.now)) result (index_at total room bytes.now) }
    ensures rest { IfOk result (λ x. (0 < x.0) × (length x.1.now < length bytes.now)
        × (length bytes.now + x.0 ≡ length x.1.now + room)) }
{
    let (_, rest) = scan_name(total, total - bytes.len(), room, bytes)?;
    let left = check_room(total, room - (bytes.len() - rest.len()), rest)?;
    Ok((left, rest))
}

/// Reads a name in a document, and returns its text, and the room and the bytes after it.
#[tactic(auto, unfolding(crate::specs::Readers::name_at))]
#[inline(always)]
pub fn read_name(total: usize, room: usize, bytes: &[u8]) -> Result<(&str, usize, &[u8]), BsonFault>
    requires total { length bytes.now ≤ total }
    ensures gives { Gives (λ x. (x.0.now, x.1, x.2.now)) result (name_at total room bytes.now) }
    ensures rest { IfOk result (λ x. (0 < x.1) × (length x.2.now < length bytes.now)
        × (length bytes.now + x.1 ≡ length x.2.now + room)) }
    ensures front { IfOk result (λ x. x.0.now ≡ take (length x.0.now) bytes.now) }
{
    let offset = total - bytes.len();
    let (name, rest) = scan_name(total, offset, room, bytes)?;
    let text = read_utf8(offset, name)?;
    let left = check_room(total, room - (bytes.len() - rest.len()), rest)?;
    Ok((text, left, rest))
}

/// Checks the byte of an element's type, which has this room and these bytes after it.
#[tactic(auto, unfolding(crate::specs::Readers::checked_type))]
#[inline(always)]
fn check_type(total: usize, room: usize, byte: u8, rest: &[u8]) -> Result<ElementType, BsonFault>
    requires total { length rest.now < total }
    ensures gives { Gives (λ x. (Some x, rest.now)) result (checked_type total room byte rest.now (type_from byte)) }
{
    let offset = total - (rest.len() + 1);
    match ElementType::from_byte(byte) {
        Some(_) if room == 0 => Err(BsonFault::Trailing { place: offset }),
        Some(type_byte) => Ok(type_byte),
        None => Err(BsonFault::BadType {
            place: offset,
            byte,
        }),
    }
}

/// Reads the type of the next element. Returns none at the 00 that ends the document.
#[tactic(auto, unfolding(crate::specs::Readers::type_at))]
#[inline(always)]
pub fn read_type(
    total: usize,
    room: usize,
    bytes: &[u8],
) -> Result<(Option<ElementType>, &[u8]), BsonFault>
    requires total { length bytes.now < total }
    ensures gives { Gives (λ x. (x.0, x.1.now)) result (type_at total room bytes.now) }
    ensures rest { IfOk result (λ x. (0 < room) × (length x.1.now + 1 ≡ length bytes.now)) }
    ensures end { IfOk result (λ x. IfNone x.0 (room ≡ 1)) }
{
    if room == 0 {
        return Err(BsonFault::Trailing {
            place: total - (bytes.len() + 1),
        });
    }
    let Some((byte, rest)) = bytes.split_first() else {
        return Err(BsonFault::Short { place: total });
    };
    let byte = *byte;
    if byte == 0 {
        if room != 1 {
            return Err(BsonFault::Trailing {
                place: total - bytes.len(),
            });
        }
        return Ok((None, rest));
    }
    let type_byte = check_type(total, room - 1, byte, rest)?;
    Ok((Some(type_byte), rest))
}
