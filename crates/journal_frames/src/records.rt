//! The records in the bytes of a file.
ghost use Rattle.std.specs.Prelude.{◌≡◌, ◌+◌, ◌<◌, ◌≤◌, ◌++◌, ◌∷◌, ◌⊎◌, [], ℕ, List, length, IfOk, IfErr, IfSome, IfNone};
ghost use Rattle.journal_frames.specs.Files.{BeginsRecord, Stands, blocks};
ghost use Rattle.journal_frames.specs.declared.records.ScanFault.TheVariants.{Memory as WantOfMemory};
ghost use Rattle.journal_frames.specs.Scan.{IsBody, IsNext, IsScanFault};

use bson_values::{Blob, Memory};
use byteorder::{ByteOrder, LittleEndian};
use outside::log::RecordList;
use std::alloc::Global;

/// What the bytes from a gate on begin with.
pub(crate) enum Next<'a> {
    /// A gate that is not open, or nothing.
    Shut,
    /// A record, and the bytes from the next gate on.
    Whole { bytes: &'a [u8], behind: &'a [u8] },
    /// An open gate with no whole record after it.
    Damage,
}

/// Why no records were found.
pub(crate) enum ScanFault {
    /// There is no record after the open gate at this offset.
    Damage { place: usize },
    /// Out of memory.
    Memory,
}

impl From<Memory> for ScanFault {
    ghost from_gives = { λ _ e. e ≡ WantOfMemory };

    fn from(_e: Memory) -> ScanFault {
        ScanFault::Memory
    }
}

/// Returns the record at the beginning of these bytes, which follow an open gate, and the bytes from the next gate on; none if no record ends before the last
/// byte.
#[tactic(auto, using(crate::proofs::Bodies::no_record_short, crate::proofs::Bodies::no_record_long))]
fn split_record(rest: &[u8]) -> Option<(&[u8], &[u8])>
    ensures some { IfSome result (λ x. IsBody rest.now x.0.now x.1.now) }
    ensures none { IfNone result (¬ BeginsRecord rest.now) }
{
    if rest.len() < 9 {
        return None;
    }
    let (length, content) = rest.split_at(8);
    let length = LittleEndian::read_u64(length);
    if length >= content.len() as u64 {
        return None;
    }
    Some(content.split_at(length as usize))
}

/// Reads the bytes from a gate on.
pub(crate) fn next_record(file: &[u8]) -> Next<'_>
    ensures { IsNext file.now result }
{
    match file {
        [1, rest @ ..] if !rest.is_empty() => match split_record(rest) {
            Some((bytes, behind)) => Next::Whole { bytes, behind },
            None => Next::Damage,
        },
        _ => Next::Shut,
    }
}

/// Returns the records in a file, and the offset of the first gate that is not open.
///
/// # Errors
/// - `ScanFault::Damage` exactly if there is an open gate before bytes that are not a whole record.
/// - `ScanFault::Memory` if memory runs out.
pub(crate) fn scan(alloc: Global, file: &[u8]) -> Result<(RecordList, usize), ScanFault>
    ensures found { IfOk result (λ x. Stands file.now x.0 × (x.1 ≡ length (blocks x.0)) × (x.1 ≤ length file.now)) }
    ensures before { IfOk result (λ x. 0 < length file.now → x.1 < length file.now) }
    ensures damage { IfErr result (λ e. IsScanFault file.now e) }
{
    let mut records = RecordList::new(alloc);
    let mut rest = file;
    loop {
        match next_record(rest) {
            Next::Shut => return Ok((records, file.len() - rest.len())),
            Next::Damage => {
                return Err(ScanFault::Damage {
                    place: file.len() - rest.len(),
                });
            }
            Next::Whole { bytes, behind } => {
                records.push(Blob::of(alloc, bytes)?)?;
                rest = behind;
            }
        }
    }
}
