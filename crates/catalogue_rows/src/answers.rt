//! What was answered.

use crate::words::read_version;
use chunk_catalogue::CatFault;
use fixtures::RowFault;

/// Returns whether a request was refused as is wanted: `settled`, `no collection`, `not a bound`, `version` with the chunk's, `not owner`
/// or `same shard`.
pub fn is_fault(fault: CatFault, wanted: &str) -> Result<bool, RowFault> {
    match fault {
        CatFault::Settled(committed) => Ok(committed && wanted == "settled"),
        CatFault::NoCollection => Ok(wanted == "no collection"),
        CatFault::NotABound => Ok(wanted == "not a bound"),
        CatFault::VersionDiffers(version) => match wanted.split_once(' ') {
            Some(("version", words)) => Ok(read_version(words)? == version),
            _ => Ok(false),
        },
        CatFault::NotOwner => Ok(wanted == "not owner"),
        CatFault::SameShard => Ok(wanted == "same shard"),
        CatFault::Memory => Err(RowFault::Memory),
    }
}
