//! Replies of a negative number.

use bson_values::read;
use opmsg_frames::{Framer, write_reply};
use std::alloc::Global;
use std::test::Fail;

/// `{}` with id 1.
const LEAST: &[u8] = b"\x1a\0\0\0\x01\0\0\0\0\0\0\0\xdd\x07\0\0\0\0\0\0\0\x05\0\0\0\0";

/// `{hello: 1}` with id 10, in an OP_QUERY.
const GREETING: &[u8] =
    b"\x37\0\0\0\x0a\0\0\0\0\0\0\0\xd4\x07\0\0\0\0\0\0admin.$cmd\0\0\0\0\0\xff\xff\xff\xff\x10\0\0\0\x10hello\0\x01\0\0\0\0";

/// `{ok: 1}`.
const OK: &[u8] = b"\x0d\0\0\0\x10ok\0\x01\0\0\0\0";

/// 34 bytes, number -3, to id 1, OP_MSG, flags 0, a section of kind 0 and `{ok: 1}`.
const MESSAGE_REPLY: &[u8] =
    b"\x22\0\0\0\xfd\xff\xff\xff\x01\0\0\0\xdd\x07\0\0\0\0\0\0\0\x0d\0\0\0\x10ok\0\x01\0\0\0\0";

/// 49 bytes, number -3, to id 10, OP_REPLY, flags 8, cursor 0, starting from 0, one document, and `{ok: 1}`.
const QUERY_REPLY: &[u8] =
    b"\x31\0\0\0\xfd\xff\xff\xff\x0a\0\0\0\x01\0\0\0\x08\0\0\0\0\0\0\0\0\0\0\0\0\0\0\0\x01\0\0\0\x0d\0\0\0\x10ok\0\x01\0\0\0\0";

/// Returns whether the reply of number -3 to the request that the bytes are, with `{ok: 1}`, has these bytes.
fn is_reply(alloc: Global, bytes: &[u8], wanted: &[u8]) -> Result<bool, Fail> {
    let mut framer = Framer::new(alloc);
    framer.feed(bytes)?;
    let Some(request) = framer.next()? else {
        return Ok(false);
    };
    let (document, _) = read(alloc, OK)?;
    if document.size() != 13 {
        return Ok(false);
    }
    let mut out = Vec::new(alloc);
    write_reply(request.form, request.id, -3, &document, &mut out)?;
    Ok(out.as_slice() == wanted)
}

#[test]
fn a_reply_to_a_message(rt: HostRuntime) -> Result<(), Fail> {
    assert!(rt; is_reply(rt.alloc(), LEAST, MESSAGE_REPLY)?);
    Ok(())
}

#[test]
fn a_reply_to_a_query(rt: HostRuntime) -> Result<(), Fail> {
    assert!(rt; is_reply(rt.alloc(), GREETING, QUERY_REPLY)?);
    Ok(())
}
