//! A durable file of bytes.
ghost use Rattle.std.specs.Prelude.{◌≡◌, ℕ, ◌<◌, ◌≤◌, List, [], Bool, IsTrue, length, take, drop, Ok, IfOk, OnOk, OnErr};
ghost use Rattle.outside.specs.Causes.{Rose};
ghost use Rattle.outside.specs.Disks.{Cut, Elapses, Follows, Holds, Only, Torn, Within};

use crate::streams::Failed;

/// A file of bytes, which are read and written at offsets from 0 on. Each error is a fault that is counted, and nothing else is counted. Until a sync, a
/// crash may result in any bytes in a range that was written and past the old end, and may undo a cut.
pub trait Disk: Drop {
    // Whether the file's content is observable. Clauses on the content apply to types whose content is.
    ghost tells: { Bool };

    // The file: the bytes that reads return.
    ghost content: { Self → List ℕ };

    // The files that a crash at this moment may result in.
    ghost may_leave: { Self → List ℕ → Type 0 };

    // The moment, by a clock that only the disk's own calls advance.
    ghost moment: { Self → ℕ };

    // The files that a crash at just that moment, of those up to now, might have resulted in, during a call or between two.
    ghost left_at: { Self → ℕ → List ℕ → Type 0 };

    // How many faults the disk has met.
    ghost fault_count: { Self → ℕ };

    // The place of the disk: for a disk in memory the bytes that it was made of, for a disk over a file the bytes of its path.
    ghost place: { Self → List ℕ };

    /// Returns the file's length in bytes.
    ///
    /// # Errors
    /// `Failed` if the disk met a fault, which is counted.
    fn len(&mut self) -> Result<u64, Failed>
        ensures answer { IfOk result (λ n. IsTrue tells → n ≡ length (content self.old)) }
        ensures same { IsTrue tells → content self.new ≡ content self.old }
        ensures crash { IsTrue tells → Within (may_leave self.old) (may_leave self.new) }
        ensures time { IsTrue tells →
            Elapses (moment self.old) (moment self.new) (left_at self.old) (left_at self.new) (may_leave self.new) }
        ensures cause { OnErr result (Rose (fault_count self.old) (fault_count self.new)) }
        ensures calm { OnOk result (fault_count self.new ≡ fault_count self.old) }
        ensures later { fault_count self.old ≤ fault_count self.new }
        ensures place { place self.new ≡ place self.old };

    /// Reads bytes from the offset `at` on into the front of `buf`, and returns their number. 0, for a `buf` with room, means the end of the file. It may
    /// read fewer bytes than there are.
    ///
    /// # Errors
    /// `Failed` if the disk met a fault, which is counted.
    fn read(&mut self, at: u64, buf: &mut [u8]) -> Result<usize, Failed>
        ensures count { IfOk result (λ n. n ≤ length buf.old) }
        ensures len { length buf.new ≡ length buf.old }
        ensures bytes { IfOk result (λ n. IsTrue tells → take n buf.new ≡ take n (drop at (content self.old))) }
        ensures within { IfOk result (λ n. IsTrue tells → n ≤ length (drop at (content self.old))) }
        ensures at_end { IfOk result (λ n. 0 < length buf.old → n ≡ 0 → IsTrue tells → drop at (content self.old) ≡ []) }
        ensures same { IsTrue tells → content self.new ≡ content self.old }
        ensures crash { IsTrue tells → Within (may_leave self.old) (may_leave self.new) }
        ensures time { IsTrue tells →
            Elapses (moment self.old) (moment self.new) (left_at self.old) (left_at self.new) (may_leave self.new) }
        ensures cause { OnErr result (Rose (fault_count self.old) (fault_count self.new)) }
        ensures calm { OnOk result (fault_count self.new ≡ fault_count self.old) }
        ensures later { fault_count self.old ≤ fault_count self.new }
        ensures place { place self.new ≡ place self.old };

    /// Writes the whole piece from the offset `at` on, over what is there and past the end.
    ///
    /// # Errors
    /// `Failed` if the disk met a fault, which is counted. A part of the range may be written then.
    fn write_at(&mut self, at: u64, piece: &[u8]) -> Result<(), Failed>
        ensures wrote { OnOk result (IsTrue tells → Holds at piece.now (content self.old) (content self.new)) }
        ensures torn { OnErr result (IsTrue tells → Torn at (length piece.now) (content self.old) (content self.new)) }
        ensures crash { IsTrue tells → Follows (Torn at (length piece.now)) (may_leave self.old) (may_leave self.new) }
        ensures time { IsTrue tells →
            Elapses (moment self.old) (moment self.new) (left_at self.old) (left_at self.new) (may_leave self.new) }
        ensures cause { OnErr result (Rose (fault_count self.old) (fault_count self.new)) }
        ensures calm { OnOk result (fault_count self.new ≡ fault_count self.old) }
        ensures later { fault_count self.old ≤ fault_count self.new }
        ensures place { place self.new ≡ place self.old };

    /// Cuts the file to `len` bytes, if it is longer.
    ///
    /// # Errors
    /// `Failed` if the disk met a fault, which is counted. A part after `len` may be cut then.
    fn cut(&mut self, len: u64) -> Result<(), Failed>
        ensures cut { OnOk result (IsTrue tells → content self.new ≡ take len (content self.old)) }
        ensures between { OnErr result (IsTrue tells → Cut len (content self.old) (content self.new)) }
        ensures crash { IsTrue tells → Follows (Cut len) (may_leave self.old) (may_leave self.new) }
        ensures time { IsTrue tells →
            Elapses (moment self.old) (moment self.new) (left_at self.old) (left_at self.new) (may_leave self.new) }
        ensures cause { OnErr result (Rose (fault_count self.old) (fault_count self.new)) }
        ensures calm { OnOk result (fault_count self.new ≡ fault_count self.old) }
        ensures later { fault_count self.old ≤ fault_count self.new }
        ensures place { place self.new ≡ place self.old };

    /// Makes what was written and cut durable: after it a crash results in the bytes that reads return.
    ///
    /// # Errors
    /// `Failed` if the disk met a fault, which is counted. Then a crash may result in no more files than before.
    fn sync(&mut self) -> Result<(), Failed>
        ensures durable { OnOk result (IsTrue tells → Only (content self.new) (may_leave self.new)) }
        ensures stays { OnOk result (IsTrue tells → may_leave self.new (content self.new)) }
        ensures same { IsTrue tells → content self.new ≡ content self.old }
        ensures crash { IsTrue tells → Within (may_leave self.old) (may_leave self.new) }
        ensures time { IsTrue tells →
            Elapses (moment self.old) (moment self.new) (left_at self.old) (left_at self.new) (may_leave self.new) }
        ensures cause { OnErr result (Rose (fault_count self.old) (fault_count self.new)) }
        ensures calm { OnOk result (fault_count self.new ≡ fault_count self.old) }
        ensures later { fault_count self.old ≤ fault_count self.new }
        ensures place { place self.new ≡ place self.old };

    /// Returns how many faults the disk has met, at most 2^64 - 1.
    fn faults(&self) -> u64
        ensures { result ≡ fault_count self.now };

    // A crash at this moment might have resulted in what it may result in now,
    ghost counts_now: { (disk : Self) (c : List ℕ) → may_leave disk c → left_at disk (moment disk) c };

    // and in nothing else.
    ghost only_now: { (disk : Self) (c : List ℕ) → left_at disk (moment disk) c → may_leave disk c };
}
