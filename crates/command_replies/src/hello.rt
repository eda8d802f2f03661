//! The answer to `hello` (MongoDB manual, "hello").

ghost use Rattle.std.specs.Prelude.{◌≡◌, IfOk};
ghost use Rattle.command_model.specs.Hello.{hello_document};

use crate::handshake::handshake_of;
use crate::parts::add_number;
use bson_values::{Document, Memory};
use std::alloc::Global;

/// Returns the answer to `hello` at a moment, or `Memory` if memory runs out.
pub(crate) fn hello_answer(alloc: Global, moment: u64) -> Result<Document, Memory>
    ensures { IfOk result (λ d. d ≡ hello_document moment) }
{
    let mut answer = handshake_of(alloc, "isWritablePrimary", moment)?;
    add_number(&mut answer, alloc, "ok", 1)?;
    Ok(answer)
}
