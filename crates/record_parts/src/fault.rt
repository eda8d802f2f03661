//! Why bytes are no record.

ghost use Rattle.std.specs.Prelude.{◌≡◌};
ghost use Rattle.record_parts.specs.declared.fault.RecordFault.TheVariants.{Memory};

use bson_values::Memory;
use std::alloc::{AllocError, AllocFailed};

/// Why bytes were not read as a record.
#[derive(Clone, Copy, Debug, PartialEq, Eq)]
pub enum RecordFault {
    /// No record is encoded so.
    NoRecord,
    /// Out of memory.
    Memory,
}

impl From<Memory> for RecordFault {
    ghost from_gives = { λ _ e. e ≡ Memory };

    fn from(_e: Memory) -> RecordFault {
        RecordFault::Memory
    }
}

impl From<AllocError> for RecordFault {
    ghost from_gives = { λ _ e. e ≡ Memory };

    fn from(_e: AllocError) -> RecordFault {
        RecordFault::Memory
    }
}

impl<T: Drop> From<AllocFailed<T>> for RecordFault {
    ghost from_gives = { λ _ e. e ≡ Memory };

    fn from(_e: AllocFailed<T>) -> RecordFault {
        RecordFault::Memory
    }
}
