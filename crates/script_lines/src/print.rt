//! What is printed for a line.

ghost use Rattle.std.specs.Prelude.{◌≡◌, ◌++◌, OnOk};
ghost use Rattle.script_lines.specs.Output.{closed_line, reply_line};

use bson_values::Memory;
use itoa::Buffer;
use std::alloc::Global;

/// Appends the line of a router's reply to a text. If out of memory the text may have a part of it.
pub fn put_reply(alloc: Global, router: u64, reply: &[u8], text: &mut Vec<u8>) -> Result<(), Memory>
    ensures { OnOk result (text.new.items ≡ text.old.items ++ reply_line router reply.now) }
{
    let digits = hex::encode(alloc, reply)?;
    let mut number = Buffer::new();
    text.extend_from_slice(b"reply ")?;
    text.extend_from_slice(number.format(router).as_bytes())?;
    text.push(b' ')?;
    text.extend_from_slice(digits.as_bytes())?;
    text.push(b'\n')?;
    Ok(())
}

/// Appends the line of a router's link that was closed to a text. If out of memory the text may have a part of it.
pub fn put_closed(router: u64, text: &mut Vec<u8>) -> Result<(), Memory>
    ensures { OnOk result (text.new.items ≡ text.old.items ++ closed_line router) }
{
    let mut number = Buffer::new();
    text.extend_from_slice(b"closed ")?;
    text.extend_from_slice(number.format(router).as_bytes())?;
    text.push(b'\n')?;
    Ok(())
}
