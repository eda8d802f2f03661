//! At which keys chunks may begin.

ghost use Rattle.std.specs.Prelude.{◌≡◌, IfOk, true};
ghost use Rattle.bson_model.specs.Limits.{IsWritable};
ghost use Rattle.record_model.specs.RecordFormat.{key_document};

use bson_values::{Document, Memory, Name};
use std::alloc::Global;
use value_compare::Key;

/// The greatest depth of the document of a key at which chunks are divided, and its most bytes: no message of a client holds more.
const MOST_LEVELS: usize = 100;

const MOST_BYTES: usize = 240_000_000;

// Returns whether a document is as small as those that are read, and so can be written.
fn is_small(document: &Document) -> bool
    ensures { result ≡ true → IsWritable document.now }
{
    document.levels() <= MOST_LEVELS && document.size() <= MOST_BYTES
}

// Returns the document with the key alone, or `Memory` if memory runs out.
fn key_document(alloc: Global, key: &Key) -> Result<Document, Memory>
    ensures { IfOk result (λ document. document ≡ key_document key.now) }
{
    let mut document = Document::new(alloc);
    let name = Name::of(alloc, "_id")?;
    document.push(name, key.value().copy()?)?;
    Ok(document)
}

/// Returns whether a chunk may begin at a key: the document of the key can be written. Each key of a client's message is such. Returns `Memory` if memory
/// runs out.
pub(crate) fn is_writable(alloc: Global, key: &Key) -> Result<bool, Memory>
    ensures { IfOk result (λ b. b ≡ true → IsWritable (key_document key.now)) }
{
    let document = key_document(alloc, key)?;
    Ok(is_small(&document))
}
