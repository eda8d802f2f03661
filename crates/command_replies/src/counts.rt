//! The answer to `count` (MongoDB manual, "count").

ghost use Rattle.std.specs.Prelude.{◌≡◌, IfOk};
ghost use Rattle.command_model.specs.Count as model;

use crate::parts::{add, add_end, count_shown};
use bson_values::{Document, Memory, Value};
use cluster_base::Time;
use std::alloc::Global;

/// Returns the answer to a count: the number of documents, and the time of the read. Returns `Memory` if memory runs out, and where the number is 2^63 or
/// more.
pub(crate) fn count_document(alloc: Global, count: u64, time: Time) -> Result<Document, Memory>
    ensures { IfOk result (λ d. d ≡ model.count_document count time.0) }
{
    if count >= 1 << 63 {
        return Err(Memory);
    }
    let mut answer = Document::new(alloc);
    add(&mut answer, alloc, "n", count_shown(count))?;
    add(
        &mut answer,
        alloc,
        "atClusterTime",
        Value::Timestamp(time.0),
    )?;
    add_end(&mut answer, alloc, time)?;
    Ok(answer)
}
