//! Collections of documents, and which of them match filters.

use crate::filters::Filters;
use fixtures::{RowFault, Rows, field};
use std::alloc::Global;

/// `page | WHAT`: the stored documents are dropped; any other line is a row of [`Filters`].
#[derive(Drop)]
pub struct Pages {
    filters: Filters,
}

impl Pages {
    /// Without documents.
    pub fn new(alloc: Global) -> Pages {
        Pages {
            filters: Filters::new(alloc),
        }
    }
}

impl Rows for Pages {
    fn holds(&mut self, alloc: Global, row: &str) -> Result<bool, RowFault> {
        let (word, _what) = field(row);
        if word == "page" {
            self.filters = Filters::new(alloc);
            return Ok(true);
        }
        self.filters.holds(alloc, row)
    }
}
