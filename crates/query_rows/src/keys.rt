//! The keys that filters require, and where the keys of their documents are.

use crate::filter_documents::filter_of;
use bson_values::Value;
use fixtures::{RowFault, Rows, field, spelled_value};
use match_expr::{Expr, key_equal, key_span};
use std::alloc::Global;
use std::cmp::Ordering;
use value_compare::{Bound, Span, compare};

/// `FILTER | KEY`, or `none` in place of the key.
#[derive(Drop)]
pub struct Keys;

impl Rows for Keys {
    fn holds(&mut self, alloc: Global, row: &str) -> Result<bool, RowFault> {
        let (words, wanted) = field(row);
        let filter = filter_of(alloc, words)?;
        if wanted == "none" {
            return Ok(key_equal(&filter).is_none());
        }
        let value = spelled_value(alloc, wanted)?;
        Ok(is_key(&filter, &value))
    }
}

// Returns whether the filter requires this key.
fn is_key(filter: &Expr, value: &Value) -> bool {
    match key_equal(filter) {
        Some(key) => compare(key.value(), value) == Ordering::Equal,
        None => false,
    }
}

/// `FILTER | SPAN | SPAN ..`: the ranges and points of the filter, in order. A span is `at | KEY`, or `MIN | MAX` with a key, `min` or `max` for each.
#[derive(Drop)]
pub struct Spans;

impl Rows for Spans {
    fn holds(&mut self, alloc: Global, row: &str) -> Result<bool, RowFault> {
        let (words, mut wanted) = field(row);
        let filter = filter_of(alloc, words)?;
        let list = key_span(alloc, &filter)?;
        for span in list.spans() {
            let (first, rest) = field(wanted);
            let (second, rest) = field(rest);
            if !is_span(alloc, span, first, second)? {
                return Ok(false);
            }
            wanted = rest;
        }
        Ok(wanted.is_empty())
    }
}

// Returns whether a span is the one that two fields encode.
fn is_span(alloc: Global, span: &Span, first: &str, second: &str) -> Result<bool, RowFault> {
    match span {
        Span::Point(point) => {
            if first != "at" {
                return Ok(false);
            }
            let key = spelled_value(alloc, second)?;
            Ok(compare(point.value(), &key) == Ordering::Equal)
        }
        Span::Range(range) => {
            let is_least = is_bound(alloc, range.min(), first)?;
            let is_greatest = is_bound(alloc, range.max(), second)?;
            Ok(is_least && is_greatest)
        }
    }
}

// Returns whether a bound is the one that a field encodes.
fn is_bound(alloc: Global, bound: &Bound, words: &str) -> Result<bool, RowFault> {
    match bound {
        Bound::MinKey => Ok(words == "min"),
        Bound::MaxKey => Ok(words == "max"),
        Bound::At(key) => {
            if words == "min" || words == "max" || words == "at" {
                return Ok(false);
            }
            let value = spelled_value(alloc, words)?;
            Ok(compare(key.value(), &value) == Ordering::Equal)
        }
    }
}
