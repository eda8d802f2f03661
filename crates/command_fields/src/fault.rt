//! Why a check fails.

ghost use Rattle.std.specs.Prelude.{◌≡◌};
ghost use Rattle.command_fields.specs.Faults.{fault_told};
ghost use Rattle.command_fields.specs.declared.fault.CheckFault.TheVariants.{Memory as out_of_memory};

use bson_values::Memory;
use cluster_base::Code;
use field_paths::ParseFault;
use std::alloc::AllocFailed;

/// Why documents are not a command, or a field is not valid.
#[derive(Clone, Copy, Debug, PartialEq, Eq)]
pub enum CheckFault {
    /// A check returns this error.
    Refused(Code),
    /// Out of memory.
    Memory,
}

impl From<Memory> for CheckFault {
    ghost from_gives = { λ _ e. e ≡ out_of_memory };

    fn from(_e: Memory) -> CheckFault {
        CheckFault::Memory
    }
}

impl<T: Drop> From<AllocFailed<T>> for CheckFault {
    ghost from_gives = { λ _ e. e ≡ out_of_memory };

    fn from(_e: AllocFailed<T>) -> CheckFault {
        CheckFault::Memory
    }
}

impl From<ParseFault> for CheckFault {
    ghost from_gives = { λ fault told. told ≡ fault_told fault };

    fn from(fault: ParseFault) -> CheckFault {
        match fault {
            ParseFault::Memory => CheckFault::Memory,
            _ => CheckFault::Refused(Code::BadValue),
        }
    }
}
