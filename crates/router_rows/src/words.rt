//! What the words of a row are.

ghost use Rattle.std.specs.Prelude.{IfOk};
ghost use Rattle.chunk_table.specs.Whole.{IsWritableBound};
ghost use Rattle.value_compare.specs.Keys.{key_bound};

use bson_values::{Aligned, Document, Value, read};
use cluster_base::{NameFault, Namespace, Time};
use fixtures::{RowFault, bytes_of, number};
use opmsg_frames::{Framer, Request};
use std::alloc::Global;
use std::sync::Arc;
use value_compare::Key;

/// Returns the namespace of that full name.
pub fn read_namespace(alloc: Global, name: &str) -> Result<Namespace, RowFault> {
    match Namespace::read(alloc, name) {
        Ok(namespace) => Ok(namespace),
        Err(NameFault::Form) => Err(RowFault::Form),
        Err(NameFault::Memory) => Err(RowFault::Memory),
    }
}

/// Returns the key that is this int32.
pub fn read_key(words: &str) -> Result<Key, RowFault>
    ensures { IfOk result (λ key. IsWritableBound (key_bound key)) }
{
    let n: i32 = number(words)?;
    Key::of(Value::Int32(Aligned::of(n))).map_err(|_value| RowFault::Form)
}

/// Returns the time that is `SECONDS.COUNTER`.
pub fn read_time(words: &str) -> Result<Time, RowFault> {
    let Some((seconds, counter)) = words.split_once('.') else {
        return Err(RowFault::Form);
    };
    let seconds: u32 = number(seconds)?;
    let counter: u32 = number(counter)?;
    Ok(Time((u64::from(seconds) << 32) | u64::from(counter)))
}

/// Returns the request whose message is these bytes in hexadecimal.
pub fn read_request(alloc: Global, digits: &str) -> Result<Request, RowFault> {
    let bytes = bytes_of(alloc, digits)?;
    let mut framer = Framer::new(alloc);
    framer.feed(&bytes)?;
    match framer.next() {
        Ok(Some(request)) => Ok(request),
        _ => Err(RowFault::Form),
    }
}

fn read_document(alloc: Global, digits: &str) -> Result<Arc<Document, Global>, RowFault> {
    let bytes = bytes_of(alloc, digits)?;
    let (document, _length) = read(alloc, &bytes)?;
    Ok(Arc::new(alloc, document)?)
}

/// Returns the documents that are these bytes in hexadecimal, with commas between.
pub fn read_documents(alloc: Global, words: &str) -> Result<Vec<Arc<Document, Global>>, RowFault> {
    let mut documents = Vec::new(alloc);
    if words.is_empty() {
        return Ok(documents);
    }
    for digits in words.split(", ") {
        documents.push(read_document(alloc, digits)?)?;
    }
    Ok(documents)
}
