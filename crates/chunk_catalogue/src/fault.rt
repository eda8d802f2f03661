//! Why a request makes no change.

ghost use Rattle.std.specs.Prelude.{◌≡◌};
ghost use Rattle.chunk_catalogue.specs.declared.fault.CatFault.TheVariants.{Memory as out_of_memory};

use bson_values::Memory;
use chunk_table::Version;
use std::alloc::{AllocError, AllocFailed};

/// Why a request makes no change.
#[derive(Clone, Copy, Debug, PartialEq, Eq)]
pub enum CatFault {
    /// The move of this id was decided before: whether it is committed.
    Settled(bool),
    /// There is no collection of that name.
    NoCollection,
    /// No chunk has that range.
    NotABound,
    /// The chunk of that range has this version, and not the one requested.
    VersionDiffers(Version),
    /// The chunk is another shard's than the donor's.
    NotOwner,
    /// The donor is the recipient.
    SameShard,
    /// Out of memory, or a number of the table would pass the end of its type.
    Memory,
}

impl From<Memory> for CatFault {
    ghost from_gives = { λ _ e. e ≡ out_of_memory };

    fn from(_e: Memory) -> CatFault {
        CatFault::Memory
    }
}

impl From<AllocError> for CatFault {
    ghost from_gives = { λ _ e. e ≡ out_of_memory };

    fn from(_e: AllocError) -> CatFault {
        CatFault::Memory
    }
}

impl<T: Drop> From<AllocFailed<T>> for CatFault {
    ghost from_gives = { λ _ e. e ≡ out_of_memory };

    fn from(_e: AllocFailed<T>) -> CatFault {
        CatFault::Memory
    }
}
