//! Reading a whole message whose outline is valid.

ghost use Rattle.std.specs.Prelude.{◌≡◌, ◌≢◌, ◌⊎◌, ◌≤◌, ◌∷◌, [], List, None, true, drop, take, length, IfOk};
ghost use Rattle.std.specs.Int.{w32, cast_signed};
ghost use Rattle.std.specs.List.{AllByRecursion, flat_map};
ghost use Rattle.opmsg_model.specs.Frames.{IsFirst};
ghost use Rattle.opmsg_model.specs.Messages.{header_length, most_bytes, number_at, op_msg, op_query, opcode, sections_offset};
ghost use Rattle.opmsg_model.specs.Outline.{is_query, message_fault, message_outline, msg_fault, outline};
ghost use Rattle.opmsg_model.specs.Requests as wire;
ghost use Rattle.opmsg_model.specs.Sections.{IsSection, IsStated, Section, bodies, body_section, section_bytes};
ghost use Rattle.opmsg_frames.specs.RequestMeanings.{IsBody, IsContent};

use crate::documents::{read_sections, read_whole};
use crate::lists::SequenceList;
use crate::outline::SECTIONS_OFFSET;
use crate::request::{Body, Content, Form};
use crate::sections::number_at;
use bson_values::{BsonFault, Memory};
use std::alloc::Global;

const OP_MSG: u32 = 2013;

/// Returns the body with this first fault, or `Memory` if memory ran out.
fn faulty_body(fault: BsonFault) -> Result<Body, Memory>
    ensures { IfOk result (λ body. (fault ≢ BsonFault.Memory) × (body ≡ Body.Faulty fault)) }
{
    match fault {
        BsonFault::Memory => Err(Memory),
        _ => Ok(Body::Faulty(fault)),
    }
}

/// Returns the id of a request.
fn request_id(bytes: &[u8]) -> i32
    requires { 8 ≤ length bytes.now }
    ensures { result ≡ cast_signed w32 (number_at 4 bytes.now) }
{
    number_at(bytes, 4).cast_signed()
}

/// Returns whether a request of OP_MSG requests no reply.
fn is_more(bytes: &[u8]) -> bool
    requires { sections_offset ≤ length bytes.now }
    ensures { result ≡ wire.is_more (number_at 16 bytes.now) }
{
    number_at(bytes, 16) % 0x1_0000 == 2
}

/// Reads the documents of sections, of which exactly one is of kind 0.
fn read_body(alloc: Global, bytes: &[u8]) -> Result<Body, Memory>
    requires { length bytes.now ≤ most_bytes }
    ensures { (sections : List Section) → bytes.now ≡ flat_map section_bytes sections →
        AllByRecursion IsSection sections → bodies sections ≡ 1 →
        IfOk result (λ body. (meant : wire.Body) × IsBody body meant × wire.HasBody sections meant) }
{
    match read_sections(alloc, bytes) {
        Ok((doc, sequences)) => Ok(Body::Read { doc, sequences }),
        Err(fault) => faulty_body(fault),
    }
}

/// Reads a whole message of OP_MSG.
fn read_msg(alloc: Global, bytes: &[u8]) -> Result<Content, Memory>
    requires least { sections_offset ≤ length bytes.now }
    requires most { length bytes.now ≤ most_bytes }
    requires stated { number_at 0 bytes.now ≡ length bytes.now }
    requires opcode { opcode bytes.now ≡ op_msg }
    requires sound { msg_fault bytes.now ≡ None }
    ensures { IfOk result (λ c. (meant : wire.Request) × IsContent c meant × (meant.bytes ≡ bytes.now) × wire.IsRequest meant) }
{
    let (_, sections) = bytes.split_at(SECTIONS_OFFSET);
    let body = read_body(alloc, sections)?;
    Ok(Content {
        id: request_id(bytes),
        more: is_more(bytes),
        form: Form::Msg,
        body,
    })
}

/// Reads the document of a message that has only this one.
fn read_lone(alloc: Global, bytes: &[u8]) -> Result<Body, Memory>
    ensures { IsStated bytes.now →
        IfOk result (λ body. (meant : wire.Body) × IsBody body meant × wire.HasBody (body_section bytes.now ∷ []) meant) }
{
    match read_whole(alloc, bytes) {
        Ok(doc) => Ok(Body::Read {
            doc,
            sequences: SequenceList::new(alloc),
        }),
        Err(fault) => faulty_body(fault),
    }
}

/// Reads a whole message of OP_QUERY.
fn read_query(alloc: Global, bytes: &[u8]) -> Result<Content, Memory>
    requires least { 44 ≤ length bytes.now }
    requires most { length bytes.now ≤ most_bytes }
    requires stated { number_at 0 bytes.now ≡ length bytes.now }
    requires opcode { opcode bytes.now ≡ op_query }
    requires sound { is_query bytes.now ≡ true }
    ensures { IfOk result (λ c. (meant : wire.Request) × IsContent c meant × (meant.bytes ≡ bytes.now) × wire.IsRequest meant) }
{
    let (_, document) = bytes.split_at(39);
    let body = read_lone(alloc, document)?;
    Ok(Content {
        id: request_id(bytes),
        more: false,
        form: Form::Query,
        body,
    })
}

/// Reads a whole message whose outline is valid.
pub(crate) fn read_message(alloc: Global, bytes: &[u8]) -> Result<Content, Memory>
    requires least { header_length ≤ length bytes.now }
    requires most { length bytes.now ≤ most_bytes }
    requires stated { number_at 0 bytes.now ≡ length bytes.now }
    requires opcode { (opcode bytes.now ≡ op_msg) ⊎ (opcode bytes.now ≡ op_query) }
    requires sound { message_fault bytes.now ≡ None }
    ensures { IfOk result (λ c. (meant : wire.Request) × IsContent c meant × (meant.bytes ≡ bytes.now) × wire.IsRequest meant) }
{
    if number_at(bytes, 12) == OP_MSG {
        read_msg(alloc, bytes)
    } else {
        read_query(alloc, bytes)
    }
}

/// Reads the whole message that the first `count` bytes are.
pub(crate) fn read_prefix(alloc: Global, bytes: &[u8], count: usize) -> Result<Content, Memory>
    requires { outline bytes.now ≡ message_outline count }
    ensures { IfOk result (λ c. (meant : wire.Request) × IsContent c meant × IsFirst bytes.now meant (drop count bytes.now)
        × (meant.bytes ≡ take count bytes.now) × (length meant.bytes ≡ count)) }
{
    let (message, _) = bytes.split_at(count);
    read_message(alloc, message)
}
