//! What the answers to `hello` and `isMaster` share, and the answer to `ping` and `endSessions` (MongoDB manual, "hello", "ping", "endSessions").

ghost use Rattle.std.specs.Prelude.{◌≡◌, IfOk, IsTrue, true};
ghost use Rattle.bson_model.specs.Tree.{boolean_value, no_fields, field};
ghost use Rattle.bson_values.specs.Names.{has_no_zero};
ghost use Rattle.bson_values.specs.View.{datum_of};
ghost use Rattle.command_model.specs.Handshake.{done_document, handshake};
ghost use Rattle.command_model.specs.AnswerParts as shown;

use crate::answer;
use crate::parts::{add, add_boolean, add_number, add_text};
use bson_values::{Document, MOST_BYTES_KEPT, Memory, Value};
use std::alloc::Global;

/// The greatest length of a BSON document, in bytes.
const MOST_DOCUMENT_BYTES: i32 = MOST_BYTES_KEPT as i32;

/// The greatest length of a message, in bytes.
const MOST_MESSAGE_BYTES: i32 = 48_000_000;

/// The greatest number of statements of one command.
const MOST_STATEMENTS: i32 = answer::MOST_STATEMENTS as i32;

/// How long a session lives without a request.
const SESSION_MINUTES: i32 = 30;

/// The greatest version of the wire protocol that is supported.
const LAST_WIRE_VERSION: i32 = 17;

// Returns a moment as a date, or the greatest date where that is less.
fn moment_shown(moment: u64) -> Value
    ensures { datum_of result ≡ shown.moment_shown moment }
{
    if moment < 1 << 63 {
        Value::Date(moment as i64)
    } else {
        Value::Date(i64::MAX)
    }
}

/// Returns a handshake, whose first field, which says that writes are accepted, has that name. Returns `Memory` if memory runs out.
pub(crate) fn handshake_of(alloc: Global, writable: &str, moment: u64) -> Result<Document, Memory>
    requires { IsTrue (has_no_zero writable.now) }
    ensures { IfOk result (λ d. d ≡ field writable.now (boolean_value true) (handshake moment no_fields)) }
{
    let mut answer = Document::new(alloc);
    add_boolean(&mut answer, alloc, writable, true)?;
    add_text(&mut answer, alloc, "msg", "isdbgrid")?;
    add_number(&mut answer, alloc, "maxBsonObjectSize", MOST_DOCUMENT_BYTES)?;
    add_number(
        &mut answer,
        alloc,
        "maxMessageSizeBytes",
        MOST_MESSAGE_BYTES,
    )?;
    add_number(&mut answer, alloc, "maxWriteBatchSize", MOST_STATEMENTS)?;
    add(&mut answer, alloc, "localTime", moment_shown(moment))?;
    add_number(
        &mut answer,
        alloc,
        "logicalSessionTimeoutMinutes",
        SESSION_MINUTES,
    )?;
    add_number(&mut answer, alloc, "minWireVersion", 0)?;
    add_number(&mut answer, alloc, "maxWireVersion", LAST_WIRE_VERSION)?;
    add_boolean(&mut answer, alloc, "readOnly", false)?;
    Ok(answer)
}

/// Returns the answer to `ping` and `endSessions`, or `Memory` if memory runs out.
pub(crate) fn done_answer(alloc: Global) -> Result<Document, Memory>
    ensures { IfOk result (λ d. d ≡ done_document) }
{
    let mut answer = Document::new(alloc);
    add_number(&mut answer, alloc, "ok", 1)?;
    Ok(answer)
}
