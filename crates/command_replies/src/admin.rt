//! The answers to commands that are sent to the database `admin` (MongoDB manual, "shardCollection", "split").

ghost use Rattle.std.specs.Prelude.{◌≡◌, IfOk};
ghost use Rattle.command_model.specs.AdminCommands as admin;
ghost use Rattle.command_model.specs.ShardCollection as model;

use crate::parts::{add_end, add_text};
use bson_values::{Document, Memory};
use cluster_base::{Namespace, Time};
use std::alloc::Global;

/// Returns the answer to `shardCollection`: the collection's full name, and the time. Returns `Memory` if memory runs out.
pub(crate) fn sharded_document(
    alloc: Global,
    namespace: &Namespace,
    time: Time,
) -> Result<Document, Memory>
    ensures { IfOk result (λ d. d ≡ model.sharded_document namespace.now time.0) }
{
    let mut answer = Document::new(alloc);
    add_text(&mut answer, alloc, "collectionsharded", namespace.as_str())?;
    add_end(&mut answer, alloc, time)?;
    Ok(answer)
}

/// Returns the answer to `split`: the time. Returns `Memory` if memory runs out.
pub(crate) fn changed_document(alloc: Global, time: Time) -> Result<Document, Memory>
    ensures { IfOk result (λ d. d ≡ admin.changed_document time.0) }
{
    let mut answer = Document::new(alloc);
    add_end(&mut answer, alloc, time)?;
    Ok(answer)
}
