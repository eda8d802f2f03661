//! What the bytes of a connection begin with.

ghost use Rattle.std.specs.Prelude.{◌≡◌, ◌+◌, ◌<◌, ◌≤◌, None, length};
ghost use Rattle.std.specs.Option.{option_map};
ghost use Rattle.opmsg_model.specs.Messages.{header_length};
ghost use Rattle.opmsg_model.specs.Outline.{greets, header_fault, headed_outline, is_query, message_fault, msg_fault, outline, whole_outline};
ghost use Rattle.opmsg_frames.specs.Outlines.{fault_view, outline_view};

use crate::fault::Malformed;
use crate::sections::{before_zero, number_at, sections_fault};

// Header, flags, collection, two counts and the smallest document.
const LEAST_QUERY: usize = 44;

const HEADER_LENGTH: usize = 16;

/// The bytes of an OP_MSG before its sections: header and flags.
pub(crate) const SECTIONS_OFFSET: usize = 20;

const MOST_BYTES: u32 = 48_000_000;

const OP_MSG: u32 = 2013;

const OP_QUERY: u32 = 2004;

/// What the bytes of a connection begin with (MongoDB Wire Protocol, "Standard Message Header").
#[derive(Clone, Copy, Debug, PartialEq, Eq)]
pub enum Outline {
    /// Less than a whole message.
    Partial,
    /// A whole message of that many bytes.
    Message(usize),
    /// The bytes are not the beginning of a message, whatever bytes follow.
    Faulty(Malformed),
}

/// Returns the fault of a header, if it has one.
fn header_fault(bytes: &[u8]) -> Option<Malformed>
    requires { header_length ≤ length bytes.now }
    ensures { option_map (λ f. fault_view f) result ≡ header_fault bytes.now }
{
    let stated = number_at(bytes, 0);
    if stated < HEADER_LENGTH as u32 || stated >= 0x8000_0000 {
        return Some(Malformed::BadLength);
    }
    if stated > MOST_BYTES {
        return Some(Malformed::TooLong);
    }
    let opcode = number_at(bytes, 12);
    if opcode == OP_MSG || opcode == OP_QUERY {
        return None;
    }
    Some(Malformed::BadOpcode)
}

/// Returns whether this is the first name of a greeting.
fn greets(name: Option<&[u8]>) -> bool
    ensures { result ≡ greets (option_map (λ n. n.now) name.entry) }
{
    match name {
        Some(name) => name == b"isMaster".as_slice()
            || name == b"ismaster".as_slice()
            || name == b"hello".as_slice(),
        None => false,
    }
}

/// Returns whether a whole message of OP_QUERY is a greeting.
fn is_query(bytes: &[u8]) -> bool
    ensures { result ≡ is_query bytes.now }
{
    if bytes.len() < LEAST_QUERY {
        return false;
    }
    let (_, behind_flags) = bytes.split_at(20);
    let (collection, _) = behind_flags.split_at(11);
    let (_, name) = bytes.split_at(44);
    collection == b"admin.$cmd\0".as_slice()
        && number_at(bytes, 39) as usize == bytes.len() - 39
        && bytes[43] > 0
        && greets(before_zero(name))
}

/// Returns the fault of a whole message of OP_MSG, if it has one.
fn msg_fault(bytes: &[u8]) -> Option<Malformed>
    ensures { option_map (λ f. fault_view f) result ≡ msg_fault bytes.now }
{
    if bytes.len() < SECTIONS_OFFSET {
        return Some(Malformed::BadFlags);
    }
    let low = number_at(bytes, 16) % 0x1_0000;
    if low != 0 && low != 2 {
        return Some(Malformed::BadFlags);
    }
    let (_, sections) = bytes.split_at(SECTIONS_OFFSET);
    sections_fault(sections)
}

/// Returns the fault of a whole message that has one of the two opcodes, if it has one.
fn message_fault(bytes: &[u8]) -> Option<Malformed>
    requires { header_length ≤ length bytes.now }
    ensures { option_map (λ f. fault_view f) result ≡ message_fault bytes.now }
{
    if number_at(bytes, 12) == OP_MSG {
        return msg_fault(bytes);
    }
    if is_query(bytes) {
        return None;
    }
    Some(Malformed::BadQuery)
}

/// Returns the outline of a whole message.
fn whole_outline(message: &[u8]) -> Outline
    requires { header_length ≤ length message.now }
    ensures { outline_view result ≡ whole_outline (length message.now) (message_fault message.now) }
{
    match message_fault(message) {
        Some(fault) => Outline::Faulty(fault),
        None => Outline::Message(message.len()),
    }
}

/// Returns the outline of bytes whose header is valid.
fn headed_outline(bytes: &[u8]) -> Outline
    requires least { header_length ≤ length bytes.now }
    requires header { header_fault bytes.now ≡ None }
    ensures { outline_view result ≡ headed_outline bytes.now None }
{
    let stated = number_at(bytes, 0) as usize;
    if bytes.len() < stated {
        return Outline::Partial;
    }
    let (message, _) = bytes.split_at(stated);
    whole_outline(message)
}

/// Returns what the bytes begin with: less than a whole message, a whole one, or a fault. A fault of the header is returned as soon as its 16 bytes are
/// there, any other one once the message is whole.
pub fn outline_of(bytes: &[u8]) -> Outline
    ensures { outline_view result ≡ outline bytes.now }
{
    if bytes.len() < HEADER_LENGTH {
        return Outline::Partial;
    }
    match header_fault(bytes) {
        Some(fault) => Outline::Faulty(fault),
        None => headed_outline(bytes),
    }
}
