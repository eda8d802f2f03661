//! The sections of a message (MongoDB Wire Protocol, "OP_MSG"). Of documents only the stated lengths are read here.

ghost use Rattle.std.specs.Prelude.{◌≡◌, ◌+◌, ◌<◌, ◌≤◌, ℕ, length, IfSome, false};
ghost use Rattle.std.specs.Option.{option_map};
ghost use Rattle.std.specs.Str.{is_utf8};
ghost use Rattle.bson_model.specs.Faults.{before_zero};
ghost use Rattle.opmsg_model.specs.Messages.{number_at};
ghost use Rattle.opmsg_model.specs.Outline.{are_documents, ended_fault, has_stated, is_sequence, next_section, sections_fault};
ghost use Rattle.opmsg_frames.specs.Outlines.{IfBehind, fault_view, next_view, sequence_parts, text_if};

use crate::fault::Malformed;
use byteorder::{ByteOrder, LittleEndian};
use std::str;

// The number of bytes of the smallest document.
const LEAST: usize = 5;

/// What comes next in the sections.
#[derive(Clone, Copy, Debug)]
pub(crate) enum Next<'a> {
    Nothing,
    UnknownKind,
    /// The size does not say where the next section begins.
    BadSize,
    /// A document, and what follows it.
    Body {
        document: &'a [u8],
        behind: &'a [u8],
    },
    /// What follows the size of a document sequence, and what follows the sequence.
    Sequence {
        content: &'a [u8],
        behind: &'a [u8],
    },
}

/// Returns the little-endian number at an offset.
pub(crate) fn number_at(bytes: &[u8], offset: usize) -> u32
    requires { offset + 4 ≤ length bytes.now }
    ensures { result ≡ number_at offset bytes.now }
{
    LittleEndian::read_u32(&bytes[offset..offset + 4])
}

/// Returns whether the length that the bytes begin with is at least 5 and within them.
pub(crate) fn has_stated(bytes: &[u8]) -> bool
    ensures { result ≡ has_stated bytes.now }
{
    if bytes.len() < LEAST {
        return false;
    }
    let stated = number_at(bytes, 0) as usize;
    LEAST <= stated && stated <= bytes.len()
}

/// Returns the section that the bytes begin with.
pub(crate) fn next_section(bytes: &[u8]) -> Next<'_>
    ensures next { next_view result ≡ next_section bytes.now }
    ensures shorter { IfBehind result (λ behind. length behind < length bytes.now) }
{
    let Some((kind, rest)) = bytes.split_first() else {
        return Next::Nothing;
    };
    if *kind > 1 {
        return Next::UnknownKind;
    }
    if !has_stated(rest) {
        return Next::BadSize;
    }
    let (section, behind) = rest.split_at(number_at(rest, 0) as usize);
    if *kind == 0 {
        return Next::Body {
            document: section,
            behind,
        };
    }
    let (_, content) = section.split_at(4);
    Next::Sequence { content, behind }
}

/// Returns the bytes before the first 00, or none if there is no 00.
pub(crate) fn before_zero(bytes: &[u8]) -> Option<&[u8]>
    ensures found { option_map (λ name. name.now) result ≡ before_zero bytes.now }
    ensures shorter { IfSome result (λ name. length name.now < length bytes.now) }
{
    for (i, b) in bytes.iter().enumerate() {
        if *b == 0 {
            return Some(&bytes[..i]);
        }
    }
    None
}

/// Returns whether the bytes are documents, one after the other.
fn are_documents(bytes: &[u8]) -> bool
    ensures { (n : ℕ) → length bytes.now ≤ n → result ≡ are_documents n bytes.now }
{
    let mut rest = bytes;
    while !rest.is_empty() {
        if !has_stated(rest) {
            return false;
        }
        let (_, behind) = rest.split_at(number_at(rest, 0) as usize);
        rest = behind;
    }
    true
}

/// Returns the bytes as a text, or none if they are not UTF-8.
#[tactic(auto, using(bson_values::proofs::Utf8Tests::utf8_tests))]
fn text_of(bytes: &[u8]) -> Option<&str>
    ensures { option_map (λ t. t.now) result ≡ text_if (is_utf8 bytes.now) bytes.now }
{
    match str::from_utf8(bytes) {
        Ok(text) => Some(text),
        Err(_) => None,
    }
}

/// Returns the identifier at the beginning of a document sequence, and what follows it.
pub(crate) fn split_sequence(content: &[u8]) -> Option<(&str, &[u8])>
    ensures parts { option_map (λ x. (x.0.now, x.1.now)) result ≡ sequence_parts content.now }
    ensures shorter { IfSome result (λ x. length x.1.now ≤ length content.now) }
{
    let name = before_zero(content)?;
    let (_, documents) = content.split_at(name.len() + 1);
    let identifier = text_of(name)?;
    Some((identifier, documents))
}

/// Returns whether the bytes are an identifier, 00 and documents.
fn is_sequence(content: &[u8]) -> bool
    ensures { result ≡ is_sequence content.now }
{
    match split_sequence(content) {
        Some((_, documents)) => are_documents(documents),
        None => false,
    }
}

/// Returns the fault at the end of the sections, by the number of bodies and whether another section was bad.
fn ended_fault(bodies: usize, bad: bool) -> Option<Malformed>
    ensures { option_map (λ f. fault_view f) result ≡ ended_fault bodies bad }
{
    if bad {
        return Some(Malformed::BadSection);
    }
    match bodies {
        0 => Some(Malformed::NoBody),
        1 => None,
        _ => Some(Malformed::TwoBodies),
    }
}

/// Returns the fault of the sections, if they have one.
pub(crate) fn sections_fault(bytes: &[u8]) -> Option<Malformed>
    ensures { (n : ℕ) → length bytes.now < n →
        option_map (λ f. fault_view f) result ≡ sections_fault n 0 false bytes.now }
{
    let mut bodies = 0;
    let mut bad = false;
    let mut rest = bytes;
    'sections: loop {
        match next_section(rest) {
            Next::Nothing => return ended_fault(bodies, bad),
            Next::UnknownKind => return Some(Malformed::BadKind),
            Next::BadSize => return Some(Malformed::BadSection),
            Next::Body { behind, .. } => {
                bodies += 1;
                rest = behind;
            }
            Next::Sequence { content, behind } => {
                bad = bad || !is_sequence(content);
                rest = behind;
            }
        }
    }
}
