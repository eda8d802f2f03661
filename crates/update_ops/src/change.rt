//! Changes: a replacement, or edits at paths.

use bson_values::{Document, Name, Value};

/// A whole number to be added (MongoDB manual, "$inc").
#[derive(Clone, Copy, Debug, PartialEq, Eq)]
pub enum Number {
    Int32(i32),
    Int64(i64),
}

/// What an operator does to the value at its path (MongoDB manual, "Update Operators").
#[derive(Drop)]
pub enum Edit {
    /// Sets the value.
    Set(Value),
    /// Removes the field.
    Unset,
    /// Adds the number.
    Inc(Number),
    /// Sets the value where it is less than the present one, or there is none.
    Min(Value),
    /// Sets the value where it is greater than the present one, or there is none.
    Max(Value),
}

/// An edit at its path.
#[derive(Drop)]
pub struct PathEdit {
    /// The names of the fields from the outermost inwards.
    pub path: Vec<Name>,
    pub edit: Edit,
}

/// A change of a document.
#[derive(Drop)]
pub enum Update {
    /// Replaces all but the key (MongoDB manual, "Replace a Document").
    Replacement(Document),
    /// Edits, applied in this order.
    Edits(Vec<PathEdit>),
}
