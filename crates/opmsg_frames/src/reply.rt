//! Replies.

ghost use Rattle.std.specs.Prelude.{◌≡◌, ◌≤◌, ◌++◌, length, take, OnErr, OnOk};
ghost use Rattle.std.specs.Int.{w32, cast_unsigned};
ghost use Rattle.bson_model.specs.Spelling.{written};
ghost use Rattle.bson_model.specs.Tree.{document_depth};
ghost use Rattle.opmsg_model.specs.Messages.{header, int32};
ghost use Rattle.opmsg_model.specs.Replies.{reply_bytes, reply_head};
ghost use Rattle.opmsg_model.specs.Requests.{msg_form, query_form};
ghost use Rattle.opmsg_frames.specs.RequestMeanings.{form_view};
ghost use Rattle.bson_model.specs.Limits.{most_bytes_written, most_depth_written};

use crate::request::Form;
use bson_values::{Document, Memory, write};
use byteorder::{ByteOrder, LittleEndian};

const OP_MSG: u32 = 2013;

const OP_REPLY: u32 = 1;

/// The bytes of a reply to OP_MSG before its document: header, flags and the section's kind.
const MSG_HEAD: u32 = 21;

/// The bytes of an OP_REPLY before its document: header, flags, cursor, start and count.
const REPLY_HEAD: u32 = 36;

/// Flags 8, cursor 0, starting from 0, and one document.
const ONE_DOCUMENT: [u8; 20] = [8, 0, 0, 0, 0, 0, 0, 0, 0, 0, 0, 0, 0, 0, 0, 0, 1, 0, 0, 0];

/// Appends a number. An `Err` changes nothing.
fn put_number(number: u32, out: &mut Vec<u8>) -> Result<(), Memory>
    ensures ok { OnOk result (out.new.items ≡ out.old.items ++ int32 number) }
    ensures err { OnErr result (out.new.items ≡ out.old.items) }
{
    let mut buffer = [0; 4];
    LittleEndian::write_u32(&mut buffer, number);
    out.extend_from_slice(&buffer)?;
    Ok(())
}

/// Appends a length and an id. After an error a part of it may have been written.
fn put_length(size: u32, id: i32, out: &mut Vec<u8>) -> Result<(), Memory>
    ensures ok { OnOk result (out.new.items ≡ out.old.items ++ (int32 size ++ int32 (cast_unsigned w32 id))) }
    ensures kept { take (length out.old.items) out.new.items ≡ out.old.items }
{
    put_number(size, out)?;
    put_number(id.cast_unsigned(), out)?;
    Ok(())
}

/// Appends the id of the request and an opcode. After an error a part of it may have been written.
fn put_opcode(answers: i32, code: u32, out: &mut Vec<u8>) -> Result<(), Memory>
    ensures ok { OnOk result (out.new.items ≡ out.old.items ++ (int32 (cast_unsigned w32 answers) ++ int32 code)) }
    ensures kept { take (length out.old.items) out.new.items ≡ out.old.items }
{
    put_number(answers.cast_unsigned(), out)?;
    put_number(code, out)?;
    Ok(())
}

/// Appends a header. After an error a part of it may have been written.
fn put_header(size: u32, id: i32, answers: i32, code: u32, out: &mut Vec<u8>) -> Result<(), Memory>
    ensures ok { OnOk result (out.new.items
        ≡ out.old.items ++ header size (cast_unsigned w32 id) (cast_unsigned w32 answers) code) }
    ensures kept { take (length out.old.items) out.new.items ≡ out.old.items }
{
    put_length(size, id, out)?;
    put_opcode(answers, code, out)?;
    Ok(())
}

/// Appends what precedes the document of a reply to OP_MSG. After an error a part of it may have been written.
fn put_msg_head(id: i32, number: i32, size: u32, out: &mut Vec<u8>) -> Result<(), Memory>
    requires { size ≤ most_bytes_written }
    ensures ok { OnOk result (out.new.items ≡ out.old.items ++ reply_head msg_form id number size) }
    ensures kept { take (length out.old.items) out.new.items ≡ out.old.items }
{
    put_header(size + MSG_HEAD, number, id, OP_MSG, out)?;
    put_number(0, out)?;
    out.push(0)?;
    Ok(())
}

/// Appends what precedes the document of an OP_REPLY. After an error a part of it may have been written.
fn put_query_head(id: i32, number: i32, size: u32, out: &mut Vec<u8>) -> Result<(), Memory>
    requires { size ≤ most_bytes_written }
    ensures ok { OnOk result (out.new.items ≡ out.old.items ++ reply_head query_form id number size) }
    ensures kept { take (length out.old.items) out.new.items ≡ out.old.items }
{
    put_header(size + REPLY_HEAD, number, id, OP_REPLY, out)?;
    out.extend_from_slice(&ONE_DOCUMENT)?;
    Ok(())
}

/// Appends what precedes the document of a reply. After an error a part of it may have been written.
fn put_head(form: Form, id: i32, number: i32, size: u32, out: &mut Vec<u8>) -> Result<(), Memory>
    requires { size ≤ most_bytes_written }
    ensures ok { OnOk result (out.new.items ≡ out.old.items ++ reply_head (form_view form) id number size) }
    ensures kept { take (length out.old.items) out.new.items ≡ out.old.items }
{
    match form {
        Form::Msg => put_msg_head(id, number, size, out),
        Form::Query => put_query_head(id, number, size, out),
    }
}

/// Appends a reply. After an error a part of it may have been written.
fn put_reply(
    form: Form,
    id: i32,
    number: i32,
    doc: &Document,
    out: &mut Vec<u8>,
) -> Result<(), Memory>
    requires depth { document_depth doc.now ≤ most_depth_written }
    requires size { length (written doc.now) ≤ most_bytes_written }
    ensures ok { OnOk result (out.new.items
        ≡ out.old.items ++ reply_bytes (form_view form) id number doc.now) }
    ensures kept { take (length out.old.items) out.new.items ≡ out.old.items }
{
    let size = doc.size() as u32;
    put_head(form, id, number, size, out)?;
    write(doc, out)
}

/// Appends the reply with this number to a request: to OP_MSG an OP_MSG, to OP_QUERY an OP_REPLY (MongoDB Wire Protocol). The document has at most 104 levels
/// and its encoding at most 400,000,000 bytes. Returns `Memory` if memory runs out; then the bytes are as before.
pub fn write_reply(
    form: Form,
    id: i32,
    number: i32,
    doc: &Document,
    out: &mut Vec<u8>,
) -> Result<(), Memory>
    requires depth { document_depth doc.now ≤ most_depth_written }
    requires size { length (written doc.now) ≤ most_bytes_written }
    ensures ok { OnOk result (out.new.items
        ≡ out.old.items ++ reply_bytes (form_view form) id number doc.now) }
    ensures err { OnErr result (out.new.items ≡ out.old.items) }
{
    let len = out.len();
    let done = put_reply(form, id, number, doc, out);
    if done.is_err() {
        out.truncate(len);
    }
    done
}
