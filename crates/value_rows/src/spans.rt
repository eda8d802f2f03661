//! Bounds, ranges and spans of keys.

use crate::keys::spelled_key;
use fixtures::{RowFault, Rows, field};
use std::alloc::Global;
use std::cmp::Ordering;
use value_compare::{Bound, KeyRange, Span, inside};

fn spelled_bound(alloc: Global, words: &str) -> Result<Bound, RowFault> {
    match words {
        "min" => Ok(Bound::MinKey),
        "max" => Ok(Bound::MaxKey),
        _ => key_bound(alloc, words),
    }
}

fn key_bound(alloc: Global, words: &str) -> Result<Bound, RowFault> {
    let key = spelled_key(alloc, words)?;
    Ok(Bound::At(key))
}

/// `BOUND`, which is above those of the rows before: a key, `min` or `max`.
#[derive(Drop)]
pub struct Bounds {
    bounds: Vec<Bound>,
}

impl Bounds {
    pub fn new(alloc: Global) -> Bounds {
        Bounds {
            bounds: Vec::new(alloc),
        }
    }

    fn are_below(&self, bound: &Bound) -> Result<bool, RowFault> {
        for other in &self.bounds {
            if !is_below(other, bound)? {
                return Ok(false);
            }
        }
        Ok(true)
    }
}

// Returns whether there is a range between the two in one direction only.
fn is_below(low: &Bound, high: &Bound) -> Result<bool, RowFault> {
    let is_range = has_range(low, high)? && !has_range(high, low)?;
    let is_ordered = low.compare(high) == Ordering::Less && high.compare(low) == Ordering::Greater;
    Ok(is_range && is_ordered)
}

fn has_range(min: &Bound, max: &Bound) -> Result<bool, RowFault> {
    let min = min.copy()?;
    let max = max.copy()?;
    Ok(KeyRange::new(min, max).is_some())
}

impl Rows for Bounds {
    fn holds(&mut self, alloc: Global, row: &str) -> Result<bool, RowFault> {
        let bound = spelled_bound(alloc, row)?;
        let is_equal = bound.compare(&bound) == Ordering::Equal && !has_range(&bound, &bound)?;
        let is_above = self.are_below(&bound)?;
        self.bounds.push(bound)?;
        Ok(is_equal && is_above)
    }
}

/// `MIN | MAX | KEY | inside`, or `outside`: whether the key is between the bounds; `at | KEY | KEY | inside`: whether the second key equals the first.
#[derive(Drop)]
pub struct Spans;

impl Rows for Spans {
    fn holds(&mut self, alloc: Global, row: &str) -> Result<bool, RowFault> {
        let (min, rest) = field(row);
        let (max, rest) = field(rest);
        let (words, wanted) = field(rest);
        let span = spelled_span(alloc, min, max)?;
        let is_inside = stands_inside(alloc, &span, words)?;
        Ok(is_inside == Some(wanted == "inside"))
    }
}

// Returns whether the key is in the span, or `None` where the span's copy differs.
fn stands_inside(alloc: Global, span: &Span, words: &str) -> Result<Option<bool>, RowFault> {
    let key = spelled_key(alloc, words)?;
    let is_inside = inside(span, &key);
    let copy = span.copy()?;
    if inside(&copy, &key) == is_inside {
        Ok(Some(is_inside))
    } else {
        Ok(None)
    }
}

fn spelled_span(alloc: Global, min: &str, max: &str) -> Result<Span, RowFault> {
    if min == "at" {
        let key = spelled_key(alloc, max)?;
        return Ok(Span::Point(key));
    }
    spelled_range(alloc, min, max)
}

fn spelled_range(alloc: Global, min: &str, max: &str) -> Result<Span, RowFault> {
    let min = spelled_bound(alloc, min)?;
    let max = spelled_bound(alloc, max)?;
    match KeyRange::new(min, max) {
        Some(range) => Ok(Span::Range(range)),
        None => Err(RowFault::Form),
    }
}
