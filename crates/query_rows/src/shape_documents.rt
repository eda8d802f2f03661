//! Documents of rows.

use bson_values::{Document, read};
use field_paths::ParseFault;
use fixtures::{RowFault, bytes_of, field};
use std::alloc::Global;

/// Returns the document that the words in a row's first field encode, and the other fields. Returns `Form` where they encode none, and `Memory` if memory
/// runs out.
pub fn first_document(alloc: Global, row: &str) -> Result<(Document, &str), RowFault> {
    let (words, others) = field(row);
    let bytes = bytes_of(alloc, words)?;
    let (document, _length) = read(alloc, &bytes)?;
    Ok((document, others))
}

/// Returns why a row can't be used.
pub fn row_fault(fault: ParseFault) -> RowFault {
    match fault {
        ParseFault::Memory => RowFault::Memory,
        _ => RowFault::Form,
    }
}
