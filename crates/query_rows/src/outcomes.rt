//! The effect and the outcome of a statement, compared with a row.

use crate::update_words::document_if_any;
use bson_values::{Document, Value};
use fixtures::{RowFault, field, number, spelled_value};
use std::alloc::Global;
use update_ops::Applied;
use value_compare::Key;

/// Returns whether the outcome is `AFTER | N | MODIFIED | KEY`.
pub fn is_outcome(alloc: Global, applied: &Applied, wanted: &str) -> Result<bool, RowFault> {
    let (after, told) = field(wanted);
    let (n, told) = field(told);
    let (modified, key) = field(told);
    let after = document_if_any(alloc, after)?;
    let n = number::<u32>(n)?;
    let modified = number::<u32>(modified)?;
    Ok(
        applied.reply.n == n
            && applied.reply.modified == modified
            && is_left(&applied.after, &after)
            && is_told(alloc, &applied.reply.upserted, key)?,
    )
}

// Returns whether the document after it is this one.
fn is_left(after: &Option<Document>, wanted: &Option<Document>) -> bool {
    match after {
        Some(document) => match wanted {
            Some(other) => document.same_data(other),
            None => false,
        },
        None => wanted.is_none(),
    }
}

// Returns whether the outcome has this key, in this encoding, or none.
fn is_told(alloc: Global, key: &Option<Key>, wanted: &str) -> Result<bool, RowFault> {
    match key {
        Some(key) => is_spelled(alloc, key.value(), wanted),
        None => Ok(wanted == "none"),
    }
}

// Returns whether a value has this encoding.
fn is_spelled(alloc: Global, value: &Value, wanted: &str) -> Result<bool, RowFault> {
    let other = spelled_value(alloc, wanted)?;
    Ok(value.same_data(&other))
}
