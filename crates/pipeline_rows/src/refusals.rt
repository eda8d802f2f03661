//! Arrays that are pipelines, and arrays that are not.

use crate::words::{array_of, parse_word};
use bson_values::{Array, Value};
use fixtures::{RowFault, Rows, field, number, spelled_value};
use pipeline_lang::Pipeline;
use std::alloc::Global;

/// `ARRAY | pipeline`, or in place of `pipeline` its first fault, in a word.
#[derive(Drop)]
pub struct Refusals;

impl Rows for Refusals {
    fn holds(&mut self, alloc: Global, row: &str) -> Result<bool, RowFault> {
        let (words, wanted) = field(row);
        let array = array_of(alloc, words)?;
        Ok(word_of(alloc, &array) == wanted)
    }
}

/// `VALUE | COUNT | pipeline`, or its first fault: the same for the array that has the value this number of times.
#[derive(Drop)]
pub struct LongPipelines;

impl Rows for LongPipelines {
    fn holds(&mut self, alloc: Global, row: &str) -> Result<bool, RowFault> {
        let (words, rest) = field(row);
        let (count, wanted) = field(rest);
        let value = spelled_value(alloc, words)?;
        let array = repeated(alloc, &value, number(count)?)?;
        Ok(word_of(alloc, &array) == wanted)
    }
}

// Returns the array that has the value this number of times.
fn repeated(alloc: Global, value: &Value, count: u32) -> Result<Array, RowFault> {
    let mut array = Array::new(alloc);
    for _ in 0..count {
        array.push(value.copy()?)?;
    }
    Ok(array)
}

// Returns what an array reads as, in a word.
fn word_of(alloc: Global, array: &Array) -> &'static str {
    match Pipeline::parse(alloc, array) {
        Ok(_pipeline) => "pipeline",
        Err(fault) => parse_word(fault),
    }
}
