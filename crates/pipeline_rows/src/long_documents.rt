//! Documents of a given length.

use bson_values::{Blob, Document, Value};
use fixtures::{RowFault, number, push};
use std::alloc::Global;
use std::sync::Arc;

// The bytes of the document `{b: ..}` with binary data in addition to those of the data: the length, the type, the name with its 00, the length of the data,
// their subtype, and the 00 at the end.
const BESIDE_DATA: usize = 4 + 1 + 2 + 4 + 1 + 1;

const BLOCK: usize = 4096;

/// Returns documents of the lengths in words separated by blanks, in order: a number of bytes, or such a number, `*` and how many documents have it, which
/// are one that is shared. Returns `Form` for any other word and where a length is below 13, and `Memory` if memory runs out.
pub fn long_documents(
    alloc: Global,
    lengths: &str,
) -> Result<Vec<Arc<Document, Global>>, RowFault> {
    let mut documents = Vec::new(alloc);
    for word in lengths.split(' ') {
        put_documents(alloc, word, &mut documents)?;
    }
    Ok(documents)
}

fn put_documents(
    alloc: Global,
    word: &str,
    documents: &mut Vec<Arc<Document, Global>>,
) -> Result<(), RowFault> {
    let (length, times) = word.split_once('*').unwrap_or((word, "1"));
    let document = Arc::new(alloc, long_document(alloc, number(length)?)?)?;
    for _ in 0..number::<u32>(times)? {
        let shared = Arc::try_clone(&document)?;
        documents.push(shared)?;
    }
    Ok(())
}

fn long_document(alloc: Global, length: usize) -> Result<Document, RowFault> {
    if length < BESIDE_DATA {
        return Err(RowFault::Form);
    }
    let data = filled(alloc, length - BESIDE_DATA)?;
    let bytes = Blob::of(alloc, &data)?;
    let mut document = Document::new(alloc);
    push(
        alloc,
        &mut document,
        "b",
        Value::Binary { subtype: 0, bytes },
    )?;
    Ok(document)
}

// Returns this number of bytes, which are written in blocks, since there may be millions.
fn filled(alloc: Global, length: usize) -> Result<Vec<u8>, RowFault> {
    let block = vec![in alloc; 7u8; BLOCK]?;
    let mut data = Vec::with_capacity(alloc, length)?;
    for _ in 0..length / BLOCK {
        data.extend_from_slice(&block)?;
    }
    data.extend_from_slice(&block[..length % BLOCK])?;
    Ok(data)
}
