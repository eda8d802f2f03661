//! Names of any bytes, 00 among them.

use crate::paths::is_read_so;
use fixtures::{RowFault, Rows, bytes_of, field};
use std::alloc::Global;
use std::str;

/// `WORDS | path`, or the fault in place of `path`: the name is encoded by its bytes.
#[derive(Drop)]
pub struct Bytes;

impl Rows for Bytes {
    fn holds(&mut self, alloc: Global, row: &str) -> Result<bool, RowFault> {
        let (words, wanted) = field(row);
        let bytes = bytes_of(alloc, words)?;
        match str::from_utf8(&bytes) {
            Ok(name) => is_read_so(alloc, name, wanted),
            Err(_e) => Err(RowFault::Form),
        }
    }
}
