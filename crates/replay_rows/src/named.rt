//! Records by name.

use bson_values::{Blob, Text};
use fixtures::{RowFault, bytes_of, field};
use std::alloc::Global;

/// A record with the name that rows have for it.
#[derive(Drop)]
struct Named {
    name: Text,
    bytes: Vec<u8>,
}

/// The records that rows named.
#[derive(Drop)]
pub struct NamedRecords {
    records: Vec<Named>,
}

impl NamedRecords {
    /// Returns the empty list.
    pub fn new(alloc: Global) -> NamedRecords {
        NamedRecords {
            records: Vec::new(alloc),
        }
    }

    /// Adds the record of a row `NAME | BYTES`.
    pub fn add(&mut self, alloc: Global, row: &str) -> Result<(), RowFault> {
        let (name, bytes) = field(row);
        let name = Text::of(alloc, name)?;
        let bytes = bytes_of(alloc, bytes)?;
        self.records.push(Named { name, bytes })?;
        Ok(())
    }

    // Returns the bytes of the record of that name.
    fn find(&self, name: &str) -> Option<&[u8]> {
        for record in &self.records {
            if record.name.as_str() == name {
                return Some(&record.bytes);
            }
        }
        None
    }

    /// Returns the records of these names, which blanks separate.
    pub fn list(&self, alloc: Global, names: &str) -> Result<Vec<Blob>, RowFault> {
        let mut records = Vec::new(alloc);
        for name in names.split(' ') {
            let Some(bytes) = self.find(name) else {
                return Err(RowFault::Form);
            };
            records.push(Blob::of(alloc, bytes)?)?;
        }
        Ok(records)
    }
}
