//! Why groups are not returned.

ghost use Rattle.std.specs.Prelude.{◌≡◌};

use bson_values::Memory;
use std::alloc::{AllocError, AllocFailed};

/// Why groups are not returned as documents.
#[derive(Clone, Copy, Debug, PartialEq, Eq)]
pub enum GroupFault {
    /// A sum is outside int64.
    Overflow,
    /// Out of memory.
    Memory,
}

impl From<Memory> for GroupFault {
    ghost use Rattle.group_accum.specs.declared.fault.GroupFault.TheVariants as faults;

    ghost from_gives = { λ _ e. e ≡ faults.Memory };

    fn from(_e: Memory) -> GroupFault {
        GroupFault::Memory
    }
}

impl From<AllocError> for GroupFault {
    ghost use Rattle.group_accum.specs.declared.fault.GroupFault.TheVariants as faults;

    ghost from_gives = { λ _ e. e ≡ faults.Memory };

    fn from(_e: AllocError) -> GroupFault {
        GroupFault::Memory
    }
}

impl<T: Drop> From<AllocFailed<T>> for GroupFault {
    ghost use Rattle.group_accum.specs.declared.fault.GroupFault.TheVariants as faults;

    ghost from_gives = { λ _ e. e ≡ faults.Memory };

    fn from(_e: AllocFailed<T>) -> GroupFault {
        GroupFault::Memory
    }
}
