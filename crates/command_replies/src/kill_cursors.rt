//! The answer to `killCursors` (MongoDB manual, "killCursors").

ghost use Rattle.std.specs.Prelude.{◌≡◌, IfOk};
ghost use Rattle.command_model.specs.KillCursors as model;

use crate::parts::{add, add_number};
use bson_values::{Array, Document, Memory, Value};
use std::alloc::Global;

// Returns cursors, as the values of an array.
fn cursor_array(alloc: Global, cursors: &[i64]) -> Result<Array, Memory>
    ensures { IfOk result (λ a. a ≡ model.number_items cursors.now) }
{
    let mut items = Array::new(alloc);
    for cursor in cursors {
        items.push(Value::Int64(*cursor))?;
    }
    Ok(items)
}

/// Returns the answer to `killCursors`: the cursors that were closed, and those that were not found. Returns `Memory` if memory runs out.
pub(crate) fn killed_document(
    alloc: Global,
    killed: &[i64],
    missing: &[i64],
) -> Result<Document, Memory>
    ensures { IfOk result (λ d. d ≡ model.killed_document killed.now missing.now) }
{
    let killed = cursor_array(alloc, killed)?;
    let missing = cursor_array(alloc, missing)?;
    let none = Array::new(alloc);
    let unknown = Array::new(alloc);
    let mut answer = Document::new(alloc);
    add(&mut answer, alloc, "cursorsKilled", Value::Array(killed))?;
    add(&mut answer, alloc, "cursorsNotFound", Value::Array(missing))?;
    add(&mut answer, alloc, "cursorsAlive", Value::Array(none))?;
    add(&mut answer, alloc, "cursorsUnknown", Value::Array(unknown))?;
    add_number(&mut answer, alloc, "ok", 1)?;
    Ok(answer)
}
