//! The writes of opening and appending.
ghost use Rattle.std.specs.Prelude.{◌≡◌, ℕ, ◌+◌, ◌<◌, ◌≤◌, ◌^◌, ◌++◌, [], ◌-◌, List, length, IsTrue, OnOk, OnErr};
ghost use Rattle.outside.specs.Causes.{Rose};
ghost use Rattle.outside.specs.Disks.{LeavesOnly, Only};
ghost use Rattle.journal_frames.specs.Files.{Stands, StandsWithOrWithout, blocks};
ghost use Rattle.journal_frames.specs.Views.{IsAtRest, IsFound, IsReady};

use crate::changes::{cut_synced, write_synced};
use outside::disk::Disk;
use outside::streams::Failed;

/// Writes records after the closed gate at `end`: first all of them without the first gate, and then that gate, which opens it.
///
/// # Errors
/// `Failed` if the disk met a fault, which is counted. Then all of the records are in the file or none is.
pub(crate) fn put_records<D: Disk>(disk: &mut D, end: u64, piece: &[u8]) -> Result<(), Failed>
    requires { end + length piece.now < 2 ^ 64 - 1 }
    ensures put { (records more : List (List ℕ)) →
        IsReady D.tells (D.content disk.old) (D.may_leave disk.old) records end more piece.now →
        OnOk result (IsAtRest D.tells (D.content disk.new) (D.may_leave disk.new) (records ++ more) (end + length piece.now)) }
    ensures held { (records more : List (List ℕ)) →
        IsReady D.tells (D.content disk.old) (D.may_leave disk.old) records end more piece.now →
        IsTrue D.tells → StandsWithOrWithout records more (D.content disk.new) }
    ensures any_moment { (records more : List (List ℕ)) →
        IsReady D.tells (D.content disk.old) (D.may_leave disk.old) records end more piece.now →
        IsTrue D.tells → LeavesOnly D.moment D.left_at disk.old disk.new (StandsWithOrWithout records more) }
    ensures cause { OnErr result (Rose (D.fault_count disk.old) (D.fault_count disk.new)) }
    ensures calm { OnOk result (D.fault_count disk.new ≡ D.fault_count disk.old) }
    ensures later { D.fault_count disk.old ≤ D.fault_count disk.new }
    ensures place { D.place disk.new ≡ D.place disk.old }
{
    write_synced(disk, end + 1, piece)?;
    // The records must be durable first: once the gate is open, whatever bytes follow it count.
    write_synced(disk, end, &[1])?;
    Ok(())
}

/// Writes the first gate to an empty file.
///
/// # Errors
/// `Failed` if the disk met a fault, which is counted. Then too there is no record in the file.
pub(crate) fn write_first_gate<D: Disk>(disk: &mut D) -> Result<(), Failed>
    ensures closed { (records : List (List ℕ)) →
        IsFound D.tells (D.content disk.old) (D.may_leave disk.old) records 0 →
        (IsTrue D.tells → D.content disk.old ≡ []) →
        OnOk result (IsAtRest D.tells (D.content disk.new) (D.may_leave disk.new) records 0) }
    ensures held { (records : List (List ℕ)) →
        IsFound D.tells (D.content disk.old) (D.may_leave disk.old) records 0 →
        (IsTrue D.tells → D.content disk.old ≡ []) →
        IsTrue D.tells → Stands (D.content disk.new) records }
    ensures any_moment { (records : List (List ℕ)) →
        IsFound D.tells (D.content disk.old) (D.may_leave disk.old) records 0 →
        (IsTrue D.tells → D.content disk.old ≡ []) →
        IsTrue D.tells → LeavesOnly D.moment D.left_at disk.old disk.new (λ c. Stands c records) }
    ensures cause { OnErr result (Rose (D.fault_count disk.old) (D.fault_count disk.new)) }
    ensures calm { OnOk result (D.fault_count disk.new ≡ D.fault_count disk.old) }
    ensures later { D.fault_count disk.old ≤ D.fault_count disk.new }
    ensures place { D.place disk.new ≡ D.place disk.old }
{
    write_synced(disk, 0, &[0])?;
    Ok(())
}

/// Closes the gate at `end`, the first that is not open, and removes everything after it.
///
/// # Errors
/// `Failed` if the disk met a fault, which is counted. The file has the same records then.
pub(crate) fn close_end<D: Disk>(disk: &mut D, end: u64) -> Result<(), Failed>
    requires { end < 2 ^ 64 - 1 }
    ensures closed { (records : List (List ℕ)) →
        IsFound D.tells (D.content disk.old) (D.may_leave disk.old) records end →
        (IsTrue D.tells → 0 < length (D.content disk.old)) →
        OnOk result (IsAtRest D.tells (D.content disk.new) (D.may_leave disk.new) records end) }
    ensures held { (records : List (List ℕ)) →
        IsFound D.tells (D.content disk.old) (D.may_leave disk.old) records end →
        (IsTrue D.tells → 0 < length (D.content disk.old)) →
        IsTrue D.tells → Stands (D.content disk.new) records }
    ensures any_moment { (records : List (List ℕ)) →
        IsFound D.tells (D.content disk.old) (D.may_leave disk.old) records end →
        (IsTrue D.tells → 0 < length (D.content disk.old)) →
        IsTrue D.tells → LeavesOnly D.moment D.left_at disk.old disk.new (λ c. Stands c records) }
    ensures cause { OnErr result (Rose (D.fault_count disk.old) (D.fault_count disk.new)) }
    ensures calm { OnOk result (D.fault_count disk.new ≡ D.fault_count disk.old) }
    ensures later { D.fault_count disk.old ≤ D.fault_count disk.new }
    ensures place { D.place disk.new ≡ D.place disk.old }
{
    // The cut must be durable first: if the write of the gate is torn and leaves it open, whatever bytes follow it count.
    cut_synced(disk, end + 1)?;
    write_synced(disk, end, &[0])?;
    Ok(())
}
