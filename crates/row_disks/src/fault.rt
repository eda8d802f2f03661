//! Why rows can't be checked.

use hex::FromHexError;
use std::alloc::{AllocError, AllocFailed};
use std::io;

/// Why rows can't be checked.
#[derive(Clone, Copy, Debug, PartialEq, Eq)]
pub enum RowFault {
    /// Out of memory.
    Memory,
    /// A line is not one that a row may have.
    BadLine,
    /// A file can't be read, or nothing can be printed.
    Failed,
}

impl From<AllocError> for RowFault {
    fn from(_e: AllocError) -> RowFault {
        RowFault::Memory
    }
}

impl<T: Drop> From<AllocFailed<T>> for RowFault {
    fn from(_e: AllocFailed<T>) -> RowFault {
        RowFault::Memory
    }
}

impl From<bson_values::Memory> for RowFault {
    fn from(_e: bson_values::Memory) -> RowFault {
        RowFault::Memory
    }
}

impl From<FromHexError> for RowFault {
    fn from(_e: FromHexError) -> RowFault {
        RowFault::BadLine
    }
}

impl From<io::Error> for RowFault {
    fn from(_e: io::Error) -> RowFault {
        RowFault::Failed
    }
}

/// Returns both values, or the first fault. Here, of any type, it costs no proof to let one go where the other is missing.
pub fn both<A: Drop, B: Drop>(
    one: Result<A, RowFault>,
    other: Result<B, RowFault>,
) -> Result<(A, B), RowFault> {
    Ok((one?, other?))
}
