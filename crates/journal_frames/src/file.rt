//! The whole file of a disk.
ghost use Rattle.std.specs.Prelude.{◌≡◌, ℕ, ◌<◌, ◌≤◌, List, length, take, IsTrue, IfOk, IfErr, OnOk, OnErr};
ghost use Rattle.outside.specs.Causes.{Rose};
ghost use Rattle.outside.specs.Disks.{Only};
ghost use Rattle.journal_frames.specs.LoadFaults.{IsLoadFault};
ghost use Rattle.journal_frames.specs.Views.{IsUndisturbed};
ghost use Rattle.journal_frames.specs.declared.file.LoadFault.TheVariants.{Disk as DiskFailed, Memory as WantOfMemory};

use outside::disk::Disk;
use outside::streams::Failed;
use std::alloc::{AllocError, Global};

/// Why a file was not read.
#[derive(Clone, Copy, Debug, PartialEq, Eq)]
pub(crate) enum LoadFault {
    /// The disk met a fault, which is counted.
    Disk,
    /// Out of memory.
    Memory,
}

impl From<Failed> for LoadFault {
    ghost from_gives = { λ _ e. e ≡ DiskFailed };

    fn from(_e: Failed) -> LoadFault {
        LoadFault::Disk
    }
}

impl From<AllocError> for LoadFault {
    ghost from_gives = { λ _ e. e ≡ WantOfMemory };

    fn from(_e: AllocError) -> LoadFault {
        LoadFault::Memory
    }
}

/// Reads from the file's first byte on until the buffer is full or the file ends, and returns the number of bytes read.
///
/// # Errors
/// `Failed` if the disk met a fault, which is counted.
fn fill<D: Disk>(disk: &mut D, buf: &mut [u8]) -> Result<usize, Failed>
    ensures count { IfOk result (λ n. n ≤ length buf.old) }
    ensures len { length buf.new ≡ length buf.old }
    ensures bytes { IfOk result (λ n. IsTrue D.tells → take n buf.new ≡ take n (D.content disk.old)) }
    ensures at_end { IfOk result (λ n. IsTrue D.tells → n < length buf.old → length (D.content disk.old) ≤ n) }
    ensures undisturbed { IsTrue D.tells → IsUndisturbed D.content D.may_leave D.moment D.left_at disk.old disk.new }
    ensures cause { OnErr result (Rose (D.fault_count disk.old) (D.fault_count disk.new)) }
    ensures calm { OnOk result (D.fault_count disk.new ≡ D.fault_count disk.old) }
    ensures later { D.fault_count disk.old ≤ D.fault_count disk.new }
    ensures place { D.place disk.new ≡ D.place disk.old }
{
    let mut at = 0;
    while at < buf.len() {
        let n = disk.read(at as u64, &mut buf[at..])?;
        if n == 0 {
            return Ok(at);
        }
        at += n;
    }
    Ok(at)
}

/// Syncs the disk and reads its whole file: first its length, and then the bytes in as many reads as it takes.
///
/// # Errors
/// - `LoadFault::Disk` only if the disk met a fault.
/// - `LoadFault::Memory` if memory runs out.
pub(crate) fn load<D: Disk>(alloc: Global, disk: &mut D) -> Result<Vec<u8>, LoadFault>
    ensures file { IfOk result (λ file. IsTrue D.tells → file.items ≡ D.content disk.old) }
    ensures durable { OnOk result (IsTrue D.tells → Only (D.content disk.old) (D.may_leave disk.new)) }
    ensures undisturbed { IsTrue D.tells → IsUndisturbed D.content D.may_leave D.moment D.left_at disk.old disk.new }
    ensures cause { IfErr result (λ e. IsLoadFault (D.fault_count disk.old) (D.fault_count disk.new) e) }
    ensures calm { OnOk result (D.fault_count disk.new ≡ D.fault_count disk.old) }
    ensures later { D.fault_count disk.old ≤ D.fault_count disk.new }
    ensures place { D.place disk.new ≡ D.place disk.old }
{
    disk.sync()?;
    let len = disk.len()?;
    let mut file = vec![in alloc; 0; len as usize]?;
    let n = fill(disk, &mut file)?;
    file.truncate(n);
    Ok(file)
}
