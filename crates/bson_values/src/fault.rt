//! Why bytes do not encode a document.

ghost use Rattle.std.specs.Prelude.{◌≡◌};
ghost use Rattle.bson_values.specs.ReadFaults.{fault_offset};
ghost use Rattle.bson_values.specs.declared.fault.BsonFault.TheVariants.{Memory};

use crate::text;
use std::alloc::{AllocError, AllocFailed};

/// Why bytes do not encode a document. Each offset is from the first byte passed in.
#[derive(Clone, Copy, Debug, PartialEq, Eq)]
pub enum BsonFault {
    /// The bytes end first; the offset is their number.
    Short { place: usize },
    /// A length is below the least one, or exceeds the document or array that it is in.
    BadLength { place: usize },
    /// The type of an element is not supported.
    BadType { place: usize, byte: u8 },
    /// A text is not UTF-8 or has no 00 at its end.
    BadText { place: usize },
    /// A boolean is neither 00 nor 01.
    BadBool { place: usize },
    /// A document or an array at depth 101.
    Deep { place: usize },
    /// The 00 of a document is before its stated end, or another byte is there.
    Trailing { place: usize },
    /// Out of memory.
    Memory,
}

impl BsonFault {
    /// Returns the offset of the fault, or none if memory ran out.
    pub fn place(&self) -> Option<usize>
        ensures { result ≡ fault_offset self.now }
    {
        match self {
            BsonFault::Short { place: offset } => Some(*offset),
            BsonFault::BadLength { place: offset } => Some(*offset),
            BsonFault::BadType { place: offset, .. } => Some(*offset),
            BsonFault::BadText { place: offset } => Some(*offset),
            BsonFault::BadBool { place: offset } => Some(*offset),
            BsonFault::Deep { place: offset } => Some(*offset),
            BsonFault::Trailing { place: offset } => Some(*offset),
            BsonFault::Memory => None,
        }
    }
}

impl From<AllocError> for BsonFault {
    ghost from_gives = { λ _ e. e ≡ Memory };

    fn from(_e: AllocError) -> BsonFault {
        BsonFault::Memory
    }
}

impl<T: Drop> From<AllocFailed<T>> for BsonFault {
    ghost from_gives = { λ _ e. e ≡ Memory };

    fn from(_e: AllocFailed<T>) -> BsonFault {
        BsonFault::Memory
    }
}

impl From<text::Memory> for BsonFault {
    ghost from_gives = { λ _ e. e ≡ Memory };

    fn from(_e: text::Memory) -> BsonFault {
        BsonFault::Memory
    }
}
