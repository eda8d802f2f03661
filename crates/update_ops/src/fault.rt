//! Why a statement changes nothing.

ghost use Rattle.std.specs.Prelude.{◌≡◌};

use bson_values::Memory;

/// Why a statement changes nothing (MongoDB manual, "Error Codes").
#[derive(Clone, Copy, Debug, PartialEq, Eq)]
pub enum ApplyFault {
    /// There is a document with this key, and it may not be changed (DuplicateKey, 11000).
    Duplicate,
    /// The key would change (ImmutableField, 66).
    Immutable,
    /// A sum is outside int64 (BadValue, 2).
    Overflow,
    /// The result has more than 16,777,216 bytes or 100 levels (BSONObjectTooLarge, 10334).
    TooLarge,
    /// The value to be added to is not a number (TypeMismatch, 14).
    NotNumber,
    /// A value on the path is not a document (PathNotViable, 28).
    NotDocument,
    /// Out of memory.
    Memory,
}

impl From<Memory> for ApplyFault {
    ghost use Rattle.update_ops.specs.declared.fault.ApplyFault.TheVariants as faults;

    ghost from_gives = { λ _ e. e ≡ faults.Memory };

    fn from(_e: Memory) -> ApplyFault {
        ApplyFault::Memory
    }
}
