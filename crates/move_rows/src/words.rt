//! Keys, bounds and documents in few words.

use bson_values::{Aligned, Blob, Document, Value};
use cluster_base::{NameFault, Namespace};
use fixtures::{RowFault, number, push};
use std::alloc::Global;
use std::sync::Arc;
use value_compare::{Bound, Key, KeyRange};

/// Returns the key of the word: an int32, or an int64 where it ends in `L`. Returns `Form` where it is neither.
pub fn key_of(word: &str) -> Result<Key, RowFault> {
    match word.strip_suffix("L") {
        Some(digits) => key_or_form(Key::of(Value::Int64(number(digits)?))),
        None => short_key(number(word)?),
    }
}

/// Returns the key that is this int32.
pub fn short_key(n: i32) -> Result<Key, RowFault> {
    key_or_form(Key::of(Value::Int32(Aligned::of(n))))
}

// A value that is no key is let go here, in a function of any type: the drop of a value is long to prove.
fn key_or_form<T: Drop>(made: Result<Key, T>) -> Result<Key, RowFault> {
    match made {
        Ok(key) => Ok(key),
        Err(_value) => Err(RowFault::Form),
    }
}

/// Returns the bound of the word: `min`, `max` or a key. Returns `Form` where it is none of them.
pub fn bound_of(word: &str) -> Result<Bound, RowFault> {
    match word {
        "min" => Ok(Bound::MinKey),
        "max" => Ok(Bound::MaxKey),
        _ => Ok(Bound::At(key_of(word)?)),
    }
}

/// Returns the range between the bounds. Returns `Form` where there is none.
pub fn range_of(min: &str, max: &str) -> Result<KeyRange, RowFault> {
    let min = bound_of(min)?;
    let max = bound_of(max)?;
    range_or_form(KeyRange::new(min, max))
}

fn range_or_form<T: Drop>(made: Option<T>) -> Result<T, RowFault> {
    match made {
        Some(range) => Ok(range),
        None => Err(RowFault::Form),
    }
}

/// Returns the namespace of the full name. Returns `Form` where it is none, and `Memory` if memory runs out.
pub fn namespace_of(alloc: Global, name: &str) -> Result<Namespace, RowFault> {
    match Namespace::read(alloc, name) {
        Ok(namespace) => Ok(namespace),
        Err(NameFault::Form) => Err(RowFault::Form),
        Err(NameFault::Memory) => Err(RowFault::Memory),
    }
}

/// Returns a document of so many bytes: a field of zeros under a name of one letter. Returns `Form` where there is none so small, and `Memory`
/// if memory runs out.
pub fn document_of(alloc: Global, bytes: usize) -> Result<Arc<Document, Global>, RowFault> {
    let Some(count) = bytes.checked_sub(13) else {
        return Err(RowFault::Form);
    };
    let mut document = Document::new(alloc);
    push_zeros(alloc, &mut document, count)?;
    Ok(Arc::new(alloc, document)?)
}

fn push_zeros(alloc: Global, document: &mut Document, count: usize) -> Result<(), RowFault> {
    let zeros = vec![in alloc; 0u8; count]?;
    let bytes = Blob::of(alloc, &zeros)?;
    push(alloc, document, "p", Value::Binary { subtype: 0, bytes })?;
    Ok(())
}
