//! How many levels documents have.

use crate::equality::spelled_document;
use fixtures::{RowFault, Rows, field, number};
use std::alloc::Global;

/// `DOCUMENT | LEVELS`: the number of levels of the document.
#[derive(Drop)]
pub struct Levels;

impl Rows for Levels {
    fn holds(&mut self, alloc: Global, row: &str) -> Result<bool, RowFault> {
        let (words, wanted) = field(row);
        let wanted: usize = number(wanted)?;
        let document = spelled_document(alloc, words)?;
        Ok(document.levels() == wanted)
    }
}
