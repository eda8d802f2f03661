//! Keys of documents, and values that are keys.

use bson_values::{Document, Value, read};
use fixtures::{RowFault, Rows, bytes_of, field, spelled_value};
use std::alloc::Global;
use std::cmp::Ordering;
use value_compare::{Key, KeyFault, compare, key_of};

/// Returns the key that these words encode.
pub fn spelled_key(alloc: Global, words: &str) -> Result<Key, RowFault> {
    let value = spelled_value(alloc, words)?;
    Key::of(value).map_err(|_value| RowFault::Form)
}

/// `DOCUMENT | KEY`, or in place of the key `absent` or `type` where the document has none.
#[derive(Drop)]
pub struct Keys;

impl Rows for Keys {
    fn holds(&mut self, alloc: Global, row: &str) -> Result<bool, RowFault> {
        let (words, wanted) = field(row);
        let bytes = bytes_of(alloc, words)?;
        let (document, _length) = read(alloc, &bytes)?;
        match wanted {
            "absent" => Ok(is_refused(alloc, &document, KeyFault::Absent)),
            "type" => Ok(is_refused(alloc, &document, KeyFault::Kind)),
            _ => has_key(alloc, &document, wanted),
        }
    }
}

fn is_refused(alloc: Global, document: &Document, wanted: KeyFault) -> bool {
    match key_of(alloc, document) {
        Ok(_key) => false,
        Err(fault) => fault == wanted,
    }
}

fn has_key(alloc: Global, document: &Document, wanted: &str) -> Result<bool, RowFault> {
    let wanted = spelled_key(alloc, wanted)?;
    let Ok(found) = key_of(alloc, document) else {
        return Ok(false);
    };
    let copy = found.copy()?;
    Ok(found == wanted && copy == wanted)
}

/// `VALUE | key` or `VALUE | none`: whether its type is one that keys have.
#[derive(Drop)]
pub struct KeyTypes;

impl Rows for KeyTypes {
    fn holds(&mut self, alloc: Global, row: &str) -> Result<bool, RowFault> {
        let (words, wanted) = field(row);
        let value = spelled_value(alloc, words)?;
        let same = value.copy()?;
        Ok(is_key(value, &same) == (wanted == "key"))
    }
}

// Returns whether the value is accepted as a key; a value that isn't is handed back.
fn is_key(value: Value, same: &Value) -> bool {
    match Key::of(value) {
        Ok(key) => compare(key.value(), same) == Ordering::Equal,
        Err(value) => compare(&value, same) != Ordering::Equal,
    }
}
