//! Why a node is not opened.

ghost use Rattle.std.specs.Prelude.{◌≡◌};
ghost use Rattle.journal_replay.specs.declared.fault.OpenFault.TheVariants.{Memory};

use bson_values::Memory;

/// Why a node is not opened on the records of its journal.
#[derive(Clone, Copy, Debug, PartialEq, Eq)]
pub enum OpenFault {
    /// The record at this index, counted from 0, is the first that is no record or may not follow.
    Refused { index: usize },
    /// Out of memory.
    Memory,
}

impl From<Memory> for OpenFault {
    ghost from_gives = { λ _ e. e ≡ Memory };

    fn from(_e: Memory) -> OpenFault {
        OpenFault::Memory
    }
}
