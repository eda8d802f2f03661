//! Changes of a disk, each with its sync.
ghost use Rattle.std.specs.Prelude.{◌≡◌, ℕ, ◌≤◌, List, length, take, IsTrue, OnOk, OnErr};
ghost use Rattle.outside.specs.Causes.{Rose};
ghost use Rattle.outside.specs.Disks.{After, Cut, Follows, Holds, LeavesOnly, Only, Torn};

use outside::disk::Disk;
use outside::streams::Failed;

/// Writes the piece from the offset `at` on, and syncs.
///
/// # Errors
/// `Failed` if the disk met a fault, which is counted. A part of the range may be written then.
pub(crate) fn write_synced<D: Disk>(disk: &mut D, at: u64, piece: &[u8]) -> Result<(), Failed>
    ensures wrote { OnOk result (IsTrue D.tells → Holds at piece.now (D.content disk.old) (D.content disk.new)) }
    ensures durable { OnOk result (IsTrue D.tells → Only (D.content disk.new) (D.may_leave disk.new)) }
    ensures torn { IsTrue D.tells → Torn at (length piece.now) (D.content disk.old) (D.content disk.new) }
    ensures crash { IsTrue D.tells → Follows (Torn at (length piece.now)) (D.may_leave disk.old) (D.may_leave disk.new) }
    ensures any_moment { IsTrue D.tells → LeavesOnly D.moment D.left_at disk.old disk.new
        (After (Torn at (length piece.now)) (D.may_leave disk.old)) }
    ensures cause { OnErr result (Rose (D.fault_count disk.old) (D.fault_count disk.new)) }
    ensures calm { OnOk result (D.fault_count disk.new ≡ D.fault_count disk.old) }
    ensures later { D.fault_count disk.old ≤ D.fault_count disk.new }
    ensures place { D.place disk.new ≡ D.place disk.old }
{
    disk.write_at(at, piece)?;
    disk.sync()?;
    Ok(())
}

/// Cuts the file to `len` bytes, if it is longer, and syncs.
///
/// # Errors
/// `Failed` if the disk met a fault, which is counted. A part after `len` may be cut then.
pub(crate) fn cut_synced<D: Disk>(disk: &mut D, len: u64) -> Result<(), Failed>
    ensures cut { OnOk result (IsTrue D.tells → D.content disk.new ≡ take len (D.content disk.old)) }
    ensures durable { OnOk result (IsTrue D.tells → Only (D.content disk.new) (D.may_leave disk.new)) }
    ensures between { IsTrue D.tells → Cut len (D.content disk.old) (D.content disk.new) }
    ensures crash { IsTrue D.tells → Follows (Cut len) (D.may_leave disk.old) (D.may_leave disk.new) }
    ensures any_moment { IsTrue D.tells → LeavesOnly D.moment D.left_at disk.old disk.new
        (After (Cut len) (D.may_leave disk.old)) }
    ensures cause { OnErr result (Rose (D.fault_count disk.old) (D.fault_count disk.new)) }
    ensures calm { OnOk result (D.fault_count disk.new ≡ D.fault_count disk.old) }
    ensures later { D.fault_count disk.old ≤ D.fault_count disk.new }
    ensures place { D.place disk.new ≡ D.place disk.old }
{
    disk.cut(len)?;
    disk.sync()
}
