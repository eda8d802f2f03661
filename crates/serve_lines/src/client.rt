//! What clients send.

use row_disks::RowFault;
use std::alloc::Global;

/// Bytes that a client sends once so many replies were written, on all links together.
#[derive(Drop)]
pub struct Part {
    pub after: u64,
    pub bytes: Vec<u8>,
}

impl Part {
    /// Returns the same part once more.
    fn again(&self, alloc: Global) -> Result<Part, RowFault> {
        let bytes = Vec::from_slice(alloc, &self.bytes)?;
        let after = self.after;
        Ok(Part { after, bytes })
    }
}

/// What a client sends, in order; then it closes its link.
#[derive(Drop)]
pub struct Client {
    pub parts: Vec<Part>,
}

impl Client {
    /// Returns a client that sends nothing.
    pub fn new(alloc: Global) -> Client {
        Client {
            parts: Vec::new(alloc),
        }
    }

    /// Returns the same parts once more.
    pub fn parts_again(&self, alloc: Global) -> Result<Vec<Part>, RowFault> {
        let mut parts = Vec::new(alloc);
        for part in &self.parts {
            parts.push(part.again(alloc)?)?;
        }
        Ok(parts)
    }

    /// Returns whether the client sent these bytes first.
    pub fn begins_with(&self, alloc: Global, bytes: &[u8]) -> Result<bool, RowFault> {
        let mut all = Vec::new(alloc);
        for part in &self.parts {
            all.extend_from_slice(&part.bytes)?;
        }
        Ok(all.as_slice().starts_with(bytes))
    }
}
