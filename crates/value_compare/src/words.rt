//! The operands of a write: what it does, and its outcome (MongoDB manual, "insert", "update" and "delete").

use crate::key::Key;
use bson_values::Document;

/// What one write statement does.
#[derive(Drop)]
pub enum OpWords {
    /// Inserts a document.
    Insert(Document),
    /// Changes the first document that matches the filter; with `upsert`, inserts one where none does.
    Update {
        filter: Document,
        change: Document,
        upsert: bool,
    },
    /// Deletes the first document that matches the filter.
    Delete {
        filter: Document,
    },
}

/// The outcome of one write statement.
#[derive(Drop)]
pub struct Reply {
    /// How many documents it matched or inserted.
    pub n: u32,
    /// How many documents it changed.
    pub modified: u32,
    /// The key of the document that an upsert inserted.
    pub upserted: Option<Key>,
    /// The number of its error, 0 for none (MongoDB manual, "Error Codes").
    pub code: i32,
}
