//! The order of values.

use bson_values::Value;
use fixtures::{RowFault, Rows, field, number, spelled_value};
use std::alloc::Global;
use std::cmp::Ordering;
use value_compare::{class, compare};

/// `VALUE | CLASS`
#[derive(Drop)]
pub struct Classes;

impl Rows for Classes {
    fn holds(&mut self, alloc: Global, row: &str) -> Result<bool, RowFault> {
        let (words, wanted) = field(row);
        let wanted = number(wanted)?;
        let value = spelled_value(alloc, words)?;
        Ok(class(&value) == wanted)
    }
}

// A value, and the row that it is in.
#[derive(Drop)]
struct Placed {
    row: usize,
    value: Value,
}

/// `VALUE = VALUE = ..`: values that compare equal, and are greater than those of the rows above.
#[derive(Drop)]
pub struct Sorted {
    row: usize,
    values: Vec<Placed>,
}

impl Sorted {
    pub fn new(alloc: Global) -> Sorted {
        Sorted {
            row: 0,
            values: Vec::new(alloc),
        }
    }

    // Stores the value of these words. Returns whether it compares with all before as its row says.
    fn place(&mut self, alloc: Global, words: &str) -> Result<bool, RowFault> {
        let value = spelled_value(alloc, words.trim())?;
        let is_placed = self.is_placed(&value);
        self.values.push(Placed {
            row: self.row,
            value,
        })?;
        Ok(is_placed)
    }

    fn is_placed(&self, value: &Value) -> bool {
        for other in &self.values {
            let wanted = other.row.cmp(&self.row);
            if compare(&other.value, value) != wanted
                || compare(value, &other.value) != wanted.reverse()
            {
                return false;
            }
        }
        compare(value, value) == Ordering::Equal
    }
}

impl Rows for Sorted {
    fn holds(&mut self, alloc: Global, row: &str) -> Result<bool, RowFault> {
        self.row = self.row.saturating_add(1);
        for words in row.split('=') {
            if !self.place(alloc, words)? {
                return Ok(false);
            }
        }
        Ok(true)
    }
}
