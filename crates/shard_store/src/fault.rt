//! Why statements change nothing.

ghost use Rattle.std.specs.Prelude.{◌≡◌, IfOk};
ghost use Rattle.cluster_base.specs.Codes.{meaning_of};
ghost use Rattle.shard_store.specs.Faults.{code_told, error_view, fault_told, IsFault};

use bson_values::Memory;
use cluster_base::Code;
use update_ops::ApplyFault;

/// Why a statement changes nothing (MongoDB manual, "Error Codes").
#[derive(Clone, Copy, Debug, PartialEq, Eq)]
pub enum WriteFault {
    /// There is a document with that key, which may not be changed.
    Duplicate,
    /// The key would be another.
    Immutable,
    /// A sum is past int64.
    Overflow,
    /// The document is too large to be stored.
    TooLarge,
    /// A value to be added to is no number.
    NotNumber,
    /// A value on the way is no document.
    NotDocument,
}

// Returns the number of the error that is returned, or 0.
pub(crate) fn code_of(fault: Option<WriteFault>) -> i32
    ensures { result ≡ code_told fault }
{
    match fault {
        None => 0,
        Some(WriteFault::Duplicate) => 11000,
        Some(WriteFault::Immutable) => 66,
        Some(WriteFault::Overflow) => 2,
        Some(WriteFault::TooLarge) => 10334,
        Some(WriteFault::NotNumber) => 14,
        Some(WriteFault::NotDocument) => 28,
    }
}

impl WriteFault {
    /// Returns the error that is returned.
    pub fn error(self) -> Code
        ensures { meaning_of result ≡ error_view self }
    {
        match self {
            WriteFault::Duplicate => Code::DuplicateKey,
            WriteFault::Immutable => Code::ImmutableField,
            WriteFault::Overflow => Code::BadValue,
            WriteFault::TooLarge => Code::ObjectTooLarge,
            WriteFault::NotNumber => Code::TypeMismatch,
            WriteFault::NotDocument => Code::PathNotViable,
        }
    }

    // Returns the fault whose error has that number, if one has.
    pub(crate) fn told(code: i32) -> Option<WriteFault>
        ensures { result ≡ fault_told code }
    {
        if code == 11000 {
            Some(WriteFault::Duplicate)
        } else if code == 66 {
            Some(WriteFault::Immutable)
        } else if code == 2 {
            Some(WriteFault::Overflow)
        } else if code == 10334 {
            Some(WriteFault::TooLarge)
        } else if code == 14 {
            Some(WriteFault::NotNumber)
        } else if code == 28 {
            Some(WriteFault::NotDocument)
        } else {
            None
        }
    }

    // Returns the fault of a statement that was done; `Memory` is none.
    pub(crate) fn of(fault: ApplyFault) -> Result<WriteFault, Memory>
        ensures { IfOk result (λ f. IsFault f fault) }
    {
        match fault {
            ApplyFault::Duplicate => Ok(WriteFault::Duplicate),
            ApplyFault::Immutable => Ok(WriteFault::Immutable),
            ApplyFault::Overflow => Ok(WriteFault::Overflow),
            ApplyFault::TooLarge => Ok(WriteFault::TooLarge),
            ApplyFault::NotNumber => Ok(WriteFault::NotNumber),
            ApplyFault::NotDocument => Ok(WriteFault::NotDocument),
            ApplyFault::Memory => Err(Memory),
        }
    }
}
