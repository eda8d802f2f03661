//! The answer to `isMaster`, the older `hello` (MongoDB manual, "hello").

ghost use Rattle.std.specs.Prelude.{◌≡◌, IfOk, true, codes};
ghost use Rattle.bson_model.specs.Tree.{boolean_value, no_fields, field};
ghost use Rattle.command_model.specs.Handshake.{handshake, hello_ok};
ghost use Rattle.command_model.specs.IsMaster.{legacy_document};

use crate::handshake::handshake_of;
use crate::parts::{add_boolean, add_number};
use bson_values::{Document, Memory};
use std::alloc::Global;

// Returns the handshake with the old field names, and `helloOk`, if it is shown.
fn old_handshake(alloc: Global, moment: u64, shown: bool) -> Result<Document, Memory>
    ensures { IfOk result (λ d. d ≡ field (codes "ismaster") (boolean_value true) (handshake moment (hello_ok shown no_fields))) }
{
    let mut answer = handshake_of(alloc, "ismaster", moment)?;
    if shown {
        add_boolean(&mut answer, alloc, "helloOk", true)?;
    }
    Ok(answer)
}

/// Returns the answer to `isMaster` at a moment, or `Memory` if memory runs out.
pub(crate) fn legacy_answer(alloc: Global, moment: u64, shown: bool) -> Result<Document, Memory>
    ensures { IfOk result (λ d. d ≡ legacy_document moment shown) }
{
    let mut answer = old_handshake(alloc, moment, shown)?;
    add_number(&mut answer, alloc, "ok", 1)?;
    Ok(answer)
}
