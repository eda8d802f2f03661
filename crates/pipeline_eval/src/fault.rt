//! Why a pipeline has no result.

ghost use Rattle.std.specs.Prelude.{◌≡◌};

use bson_values::Memory;
use std::alloc::{AllocError, AllocFailed};

/// Why a pipeline has no result.
#[derive(Clone, Copy, Debug, PartialEq, Eq)]
pub enum EvalFault {
    /// A sum is outside int64.
    Overflow,
    /// The documents or rows have this number of bytes, which is too great.
    TooMuch { bytes: u64 },
    /// Out of memory.
    Memory,
}

impl From<Memory> for EvalFault {
    ghost use Rattle.pipeline_eval.specs.declared.fault.EvalFault.TheVariants as faults;

    ghost from_gives = { λ _ e. e ≡ faults.Memory };

    fn from(_e: Memory) -> EvalFault {
        EvalFault::Memory
    }
}

impl From<AllocError> for EvalFault {
    ghost use Rattle.pipeline_eval.specs.declared.fault.EvalFault.TheVariants as faults;

    ghost from_gives = { λ _ e. e ≡ faults.Memory };

    fn from(_e: AllocError) -> EvalFault {
        EvalFault::Memory
    }
}

impl<T: Drop> From<AllocFailed<T>> for EvalFault {
    ghost use Rattle.pipeline_eval.specs.declared.fault.EvalFault.TheVariants as faults;

    ghost from_gives = { λ _ e. e ≡ faults.Memory };

    fn from(_e: AllocFailed<T>) -> EvalFault {
        EvalFault::Memory
    }
}
