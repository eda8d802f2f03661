//! The values at paths in documents.

ghost use Rattle.std.specs.Ordering.{is_eq};
ghost use Rattle.bson_values.specs.View.{datum_of};
ghost use Rattle.value_compare.specs.Order.{order};

use crate::paths::path_of;
use bson_values::{Document, Value, read};
use field_paths::{Path, Visitor, any_at, gap_at, values_at};
use fixtures::{RowFault, Rows, bytes_of, field, spelled_value};
use std::alloc::Global;
use std::cmp::Ordering;
use value_compare::compare;

/// `PATH | DOCUMENT | gap | VALUES`, or `whole` where there is no gap; the values in order, each a field.
#[derive(Drop)]
pub struct Values;

impl Rows for Values {
    fn holds(&mut self, alloc: Global, row: &str) -> Result<bool, RowFault> {
        let (name, rest) = field(row);
        let (words, rest) = field(rest);
        let (gap, wanted) = field(rest);
        let document = document_of(alloc, words)?;
        let path = path_of(alloc, name)?;
        let has_gap = gap_at(&path, &document) == (gap == "gap");
        let has_values = has_values(alloc, &path, &document, wanted)?;
        Ok(has_gap && has_values)
    }
}

fn document_of(alloc: Global, words: &str) -> Result<Document, RowFault> {
    let bytes = bytes_of(alloc, words)?;
    let (document, _length) = read(alloc, &bytes)?;
    Ok(document)
}

// Returns whether these values and no others are at the path, each of them is met, and MaxKey is not.
fn has_values(
    alloc: Global,
    path: &Path,
    document: &Document,
    wanted: &str,
) -> Result<bool, RowFault> {
    let values = values_at(alloc, path, document)?;
    let mut left = wanted;
    for value in &values {
        let (words, rest) = field(left);
        if !is_met(alloc, path, document, value, words)? {
            return Ok(false);
        }
        left = rest;
    }
    Ok(left.is_empty() && !any_at(path, document, &Same(Value::MaxKey)))
}

// Returns whether the value is the one that the words encode, and is met at the path.
fn is_met(
    alloc: Global,
    path: &Path,
    document: &Document,
    value: &Value,
    words: &str,
) -> Result<bool, RowFault> {
    let wanted = spelled_value(alloc, words)?;
    let is_same = compare(&wanted, value) == Ordering::Equal;
    Ok(is_same && any_at(path, document, &Same(wanted)))
}

/// Meets values that compare equal to this one.
#[derive(Drop)]
struct Same(Value);

impl Visitor for Same {
    ghost accepts = { λ s d. is_eq (order (datum_of s.0) d) };

    fn meets(&self, value: &Value) -> bool {
        compare(&self.0, value) == Ordering::Equal
    }
}
