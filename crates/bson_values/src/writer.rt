//! Writing a document as bytes.

ghost use Rattle.std.specs.Prelude.{◌≡◌, ◌≤◌, ◌<◌, ◌+◌, ◌-◌, ◌^◌, ◌∷◌, [], ◌++◌, length, take, drop, OnOk, OnErr};
ghost use Rattle.std.specs.Int.{w32, w64, to_le_bytes};
ghost use Rattle.bson_model.specs.Tree.{document_depth, value_depth};
ghost use Rattle.bson_model.specs.Spelling.{type_byte_of, string, framed, written, written_value, written_items};
ghost use Rattle.bson_model.specs.Grammar.{ReadsAs};
ghost use Rattle.bson_model.specs.Limits.{most_bytes_written, most_depth_written};
ghost use Rattle.bson_values.specs.View.{datum_of};

use crate::text::Memory;
use crate::value::{Array, Document, Value};
use byteorder::{ByteOrder, LittleEndian};
use itoa::Buffer;

/// Appends the one encoding of the document to the bytes (BSON 1.1, `document`). The document has at most 104 levels and its encoding at most 400,000,000
/// bytes. Returns `Memory` if memory runs out; then the bytes are as before.
#[tactic(auto, using(crate::proofs::Spells::written_spelled))]
pub fn write(doc: &Document, out: &mut Vec<u8>) -> Result<(), Memory>
    requires depth { document_depth doc.now ≤ most_depth_written }
    requires size { length (written doc.now) ≤ most_bytes_written }
    ensures ok { OnOk result (out.new.items ≡ out.old.items ++ written doc.now) }
    // What was written reads back.
    ensures spells { OnOk result (ReadsAs (written doc.now) doc.now) }
    ensures err { OnErr result (out.new.items ≡ out.old.items) }
{
    let _fields = doc.fields();
    let len = out.len();
    let done = put_document(doc, out);
    if done.is_err() {
        out.truncate(len);
    }
    done
}

/// Returns the byte that encodes the type (BSON 1.1, `element`).
fn type_byte(value: &Value) -> u8
    ensures { result ≡ type_byte_of (datum_of value.now) }
{
    match value {
        Value::Text(_) => 0x02,
        Value::Doc(_) => 0x03,
        Value::Array(_) => 0x04,
        Value::Binary { .. } => 0x05,
        Value::ObjectId(_) => 0x07,
        Value::Bool(_) => 0x08,
        Value::Date(_) => 0x09,
        Value::Null => 0x0a,
        Value::Int32(_) => 0x10,
        Value::Timestamp(_) => 0x11,
        Value::Int64(_) => 0x12,
        Value::MinKey => 0xff,
        Value::MaxKey => 0x7f,
    }
}

/// Appends the bytes.
fn put(bytes: &[u8], out: &mut Vec<u8>) -> Result<(), Memory>
    ensures ok { OnOk result (out.new.items ≡ out.old.items ++ bytes.now) }
    ensures err { OnErr result (out.new.items ≡ out.old.items) }
    ensures kept { take (length out.old.items) out.new.items ≡ out.old.items }
{
    out.extend_from_slice(bytes)?;
    Ok(())
}

/// Appends the number's four bytes, the lowest first.
fn put_u32(n: u32, out: &mut Vec<u8>) -> Result<(), Memory>
    ensures ok { OnOk result (out.new.items ≡ out.old.items ++ to_le_bytes w32 n) }
    ensures err { OnErr result (out.new.items ≡ out.old.items) }
    ensures kept { take (length out.old.items) out.new.items ≡ out.old.items }
{
    let mut bytes = [0; 4];
    LittleEndian::write_u32(&mut bytes, n);
    put(&bytes, out)
}

/// Appends the number's eight bytes, the lowest first.
fn put_u64(n: u64, out: &mut Vec<u8>) -> Result<(), Memory>
    ensures ok { OnOk result (out.new.items ≡ out.old.items ++ to_le_bytes w64 n) }
    ensures err { OnErr result (out.new.items ≡ out.old.items) }
    ensures kept { take (length out.old.items) out.new.items ≡ out.old.items }
{
    let mut bytes = [0; 8];
    LittleEndian::write_u64(&mut bytes, n);
    put(&bytes, out)
}

/// Appends what precedes a value: its type, its name and 00.
fn put_head(type_byte: u8, name: &str, out: &mut Vec<u8>) -> Result<(), Memory>
    ensures ok { OnOk result (out.new.items ≡ out.old.items ++ (type_byte ∷ name.now ++ 0 ∷ [])) }
    ensures kept { take (length out.old.items) out.new.items ≡ out.old.items }
{
    put(&[type_byte], out)?;
    put(name.as_bytes(), out)?;
    put(&[0], out)
}

/// Appends a string: its length including the last 00, its bytes, and 00 (BSON 1.1, `string`).
fn put_text(text: &str, out: &mut Vec<u8>) -> Result<(), Memory>
    requires { length text.now + 1 < 2 ^ 32 }
    ensures ok { OnOk result (out.new.items ≡ out.old.items ++ string text.now) }
    ensures kept { take (length out.old.items) out.new.items ≡ out.old.items }
{
    put_u32(text.len() as u32 + 1, out)?;
    put(text.as_bytes(), out)?;
    put(&[0], out)
}

/// Appends bytes: their number, the subtype, and the bytes (BSON 1.1, `binary`).
fn put_binary(subtype: u8, bytes: &[u8], out: &mut Vec<u8>) -> Result<(), Memory>
    requires { length bytes.now < 2 ^ 32 }
    ensures ok { OnOk result (out.new.items ≡ out.old.items ++ (to_le_bytes w32 (length bytes.now) ++ (subtype ∷ bytes.now))) }
    ensures kept { take (length out.old.items) out.new.items ≡ out.old.items }
{
    put_u32(bytes.len() as u32, out)?;
    put(&[subtype], out)?;
    put(bytes, out)
}

/// Overwrites the four bytes at that offset with the number, the lowest first.
fn set_u32(at: usize, n: u32, bytes: &mut [u8])
    requires { at + 4 ≤ length bytes.old }
    ensures { bytes.new ≡ take at bytes.old ++ (to_le_bytes w32 n ++ drop (at + 4) bytes.old) }
{
    LittleEndian::write_u32(&mut bytes[at..], n);
}

/// Ends a document that begins at `start` with room for its length: appends the last 00, and then writes the length, which is that of all bytes from `start`
/// on (BSON 1.1, `document`).
fn end_document(start: usize, out: &mut Vec<u8>) -> Result<(), Memory>
    requires room { start + 4 ≤ length out.old.items }
    requires short { length out.old.items + 1 - start < 2 ^ 32 }
    ensures ok { OnOk result (out.new.items ≡ take start out.old.items ++ framed (drop (start + 4) out.old.items)) }
    ensures err { OnErr result (out.new.items ≡ out.old.items) }
{
    put(&[0], out)?;
    let len = (out.len() - start) as u32;
    set_u32(start, len, out.as_mut_slice());
    Ok(())
}

/// Appends the bytes of a value without nested values.
#[tactic(auto, using(crate::proofs::Depth::document_depth_some, crate::proofs::Depth::array_depth_some))]
fn put_scalar(value: &Value, out: &mut Vec<u8>) -> Result<(), Memory>
    requires scalar { value_depth (datum_of value.now) ≡ 0 }
    requires size { length (written_value (datum_of value.now)) ≤ most_bytes_written }
    ensures ok { OnOk result (out.new.items ≡ out.old.items ++ written_value (datum_of value.now)) }
    ensures kept { take (length out.old.items) out.new.items ≡ out.old.items }
{
    match value {
        Value::Text(text) => put_text(text.as_str(), out),
        Value::Binary { subtype, bytes } => put_binary(*subtype, bytes.as_slice(), out),
        Value::ObjectId(bytes) => put(&bytes.content, out),
        Value::Bool(b) => put(&[u8::from(b.content)], out),
        Value::Date(n) => put_u64(n.cast_unsigned(), out),
        Value::Int32(n) => put_u32(n.content.cast_unsigned(), out),
        Value::Timestamp(n) => put_u64(*n, out),
        Value::Int64(n) => put_u64(n.cast_unsigned(), out),
        Value::Doc(_) | Value::Array(_) => Ok(()),
        Value::Null | Value::MinKey | Value::MaxKey => Ok(()),
    }
}

/// Appends a value's bytes.
#[cycle(writer)]
fn put_value(value: &Value, out: &mut Vec<u8>) -> Result<(), Memory>
    requires { length (written_value (datum_of value.now)) ≤ most_bytes_written }
    ensures ok { OnOk result (out.new.items ≡ out.old.items ++ written_value (datum_of value.now)) }
    ensures kept { take (length out.old.items) out.new.items ≡ out.old.items }
{
    match value {
        Value::Doc(document) => put_document(document, out),
        Value::Array(array) => put_array(array, out),
        _ => put_scalar(value, out),
    }
}

/// Appends a document. After an error a part of it may have been written.
#[cycle(writer)]
fn put_document(document: &Document, out: &mut Vec<u8>) -> Result<(), Memory>
    requires { length (written document.now) ≤ most_bytes_written }
    ensures ok { OnOk result (out.new.items ≡ out.old.items ++ written document.now) }
    ensures kept { take (length out.old.items) out.new.items ≡ out.old.items }
{
    let start = out.len();
    put_u32(0, out)?;
    for field in &document.fields {
        put_head(type_byte(&field.value), field.name.as_str(), out)?;
        put_value(&field.value, out)?;
    }
    end_document(start, out)
}

/// Appends an array: its values under their indices as names, `0`, `1` and so on. After an error a part of it may have been written.
#[cycle(writer)]
fn put_array(array: &Array, out: &mut Vec<u8>) -> Result<(), Memory>
    requires { length (framed (written_items 0 array.now)) ≤ most_bytes_written }
    ensures ok { OnOk result (out.new.items ≡ out.old.items ++ framed (written_items 0 array.now)) }
    ensures kept { take (length out.old.items) out.new.items ≡ out.old.items }
{
    let start = out.len();
    put_u32(0, out)?;
    let mut offset = Buffer::new();
    for (i, value) in array.values.iter().enumerate() {
        put_head(type_byte(value), offset.format(i), out)?;
        put_value(value, out)?;
    }
    end_document(start, out)
}
