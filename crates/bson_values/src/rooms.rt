//! Room for the fields of a document and the values of an array that are read. A field takes 64 bytes and can be encoded in 2, so where there are many levels
//! the fields are counted before room is reserved, and much unused room is given back.

ghost use Rattle.std.specs.Prelude.{◌≡◌, ◌<◌, ◌≤◌, length, IfSome};

use crate::element_type::ElementType;
use crate::value::{Array, Document};
use byteorder::{ByteOrder, LittleEndian};

// The number of bytes of a document without fields.
const LEAST_DOCUMENT: usize = 5;

// The number of bytes of most elements, and of those of a short document.
const USUAL_ELEMENT: usize = 16;

const SHORT_ELEMENT: usize = 7;

// Returns the bytes after the name at the beginning of the bytes.
#[inline(always)]
fn after_name(bytes: &[u8]) -> Option<&[u8]>
    ensures { IfSome result (λ rest. length rest.now ≤ length bytes.now) }
{
    for i in 0..bytes.len() {
        if bytes[i] == 0 {
            return Some(&bytes[i + 1..]);
        }
    }
    None
}

// Returns the length at the beginning of the bytes, plus `more`.
#[inline(always)]
fn length_and(more: usize, bytes: &[u8]) -> Option<usize> {
    if bytes.len() < 4 {
        return None;
    }
    let (prefix, _) = bytes.split_at(4);
    let count = LittleEndian::read_u32(prefix) as usize;
    Some(count.saturating_add(more))
}

// Returns the number of bytes of the value of that type at the beginning of the bytes.
#[inline(always)]
fn value_bytes(type_byte: ElementType, bytes: &[u8]) -> Option<usize> {
    match type_byte {
        ElementType::Null | ElementType::MinKey | ElementType::MaxKey => Some(0),
        ElementType::Bool => Some(1),
        ElementType::Int32 => Some(4),
        ElementType::Date | ElementType::Timestamp | ElementType::Int64 => Some(8),
        ElementType::ObjectId => Some(12),
        ElementType::Text => length_and(4, bytes),
        ElementType::Binary => length_and(5, bytes),
        ElementType::Doc | ElementType::Array => length_and(0, bytes),
    }
}

// Returns the bytes after the element at the beginning of the bytes, or none at the end of a document.
#[inline(always)]
fn after_element(bytes: &[u8]) -> Option<&[u8]>
    ensures { IfSome result (λ rest. length rest.now < length bytes.now) }
{
    let (byte, rest) = bytes.split_first()?;
    let type_byte = ElementType::from_byte(*byte)?;
    let rest = after_name(rest)?;
    let count = value_bytes(type_byte, rest)?;
    if rest.len() < count {
        return None;
    }
    Some(&rest[count..])
}

/// Returns the number of elements of a document or an array of `count` bytes whose elements begin the bytes. What is nested in an element is skipped by its
/// length.
#[inline(never)]
pub fn count_elements(count: usize, bytes: &[u8]) -> usize {
    let mut elements = 0usize;
    let mut left = &bytes[..count.min(bytes.len())];
    'elements: while let Some(rest) = after_element(left) {
        elements = elements.saturating_add(1);
        left = rest;
    }
    elements
}

/// Returns for how many elements room is reserved first where a document or an array has `count` bytes.
#[inline(always)]
pub fn usual_room(count: usize) -> usize {
    if count <= LEAST_DOCUMENT {
        return 0;
    }
    let short = ((count - LEAST_DOCUMENT) / SHORT_ELEMENT).max(1);
    short.min((count / USUAL_ELEMENT).max(4).min(16))
}

// Returns whether the unused room is much in comparison with the bytes.
#[inline(always)]
fn is_much(room: usize, count: usize) -> bool {
    count / SHORT_ELEMENT < room
}

impl Document {
    // Gives back the room for more fields, where it is much in comparison with the bytes of the document.
    #[inline(always)]
    pub(crate) fn give_back_room(&mut self, count: usize)
        ensures { self.new ≡ self.old }
    {
        let room = self.fields.capacity().saturating_sub(self.fields.len());
        if is_much(room, count) {
            self.give_back_all();
        }
    }

    #[cold]
    #[inline(never)]
    fn give_back_all(&mut self)
        ensures { self.new ≡ self.old }
    {
        self.fields.shrink_to_fit();
    }
}

impl Array {
    // Gives back the room for more values, where it is much in comparison with the bytes of the array.
    #[inline(always)]
    pub(crate) fn give_back_room(&mut self, count: usize)
        ensures { self.new ≡ self.old }
    {
        let room = self.values.capacity().saturating_sub(self.values.len());
        if is_much(room, count) {
            self.give_back_all();
        }
    }

    #[cold]
    #[inline(never)]
    fn give_back_all(&mut self)
        ensures { self.new ≡ self.old }
    {
        self.values.shrink_to_fit();
    }
}
