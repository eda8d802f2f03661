//! Bytes of which some may have any value.

use row_disks::{RowFault, bytes_of, number};
use std::alloc::Global;

/// Bytes of which some may have any value.
#[derive(Drop)]
pub struct Pattern {
    bytes: Vec<Option<u8>>,
}

impl Pattern {
    /// Returns the pattern without bytes.
    pub fn new(alloc: Global) -> Pattern {
        Pattern {
            bytes: Vec::new(alloc),
        }
    }

    /// Appends pieces: bytes in hexadecimal, or `?` and a number of bytes of any value.
    pub fn take(&mut self, alloc: Global, pieces: &str) -> Result<(), RowFault> {
        for piece in pieces.split(' ') {
            self.take_piece(alloc, piece)?;
        }
        Ok(())
    }

    fn take_piece(&mut self, alloc: Global, piece: &str) -> Result<(), RowFault> {
        match piece.strip_prefix('?') {
            Some(digits) => self.take_any(digits),
            None => self.take_bytes(alloc, piece),
        }
    }

    fn take_any(&mut self, digits: &str) -> Result<(), RowFault> {
        for _ in 0..number(digits)? {
            self.bytes.push(None)?;
        }
        Ok(())
    }

    fn take_bytes(&mut self, alloc: Global, piece: &str) -> Result<(), RowFault> {
        for byte in &bytes_of(alloc, piece)? {
            self.bytes.push(Some(*byte))?;
        }
        Ok(())
    }

    /// Returns whether these bytes are of the pattern.
    pub fn fits(&self, bytes: &[u8]) -> bool {
        if self.bytes.len() != bytes.len() {
            return false;
        }
        for (wanted, byte) in self.bytes.iter().zip(bytes) {
            if wanted.is_some() && *wanted != Some(*byte) {
                return false;
            }
        }
        true
    }
}
