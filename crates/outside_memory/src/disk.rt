//! A disk in memory.
ghost use Rattle.std.specs.Prelude.{◌≡◌, ◌+◌, ◌-◌, ◌<◌, ◌≤◌, ◌++◌, ◌∷◌, [], ◌⊎◌, length, replicate, take, drop, true, IsTrue, IsErr, IsOk, Ok, IfOk, OnOk, OnErr, if◌then◌else◌, vec_capacity, vec_len};
ghost use Rattle.std.specs.Bool.{MatchBool};
ghost use Rattle.outside.specs.Causes.{Rose};
ghost use Rattle.outside.specs.Disks.{Cut, Elapses, Follows, Holds, Only, Torn, Within};
ghost use Rattle.outside_memory.specs.FaultPlan.{fails_now, after_call, after_fault};
ghost use Rattle.outside_memory.specs.Memory.{written, read_count, fresh_disk, disk_passed, disk_cut, disk_synced, disk_failed};
ghost use Rattle.outside_memory.specs.Calls.{replayed, crash_leaves, crash_left_at};
ghost use Rattle.outside_memory.specs.declared.call.Call.TheVariants.{Write};
ghost use Rattle.outside_memory.specs.Moments.{now_counts, now_only};

use super::call::Call;
use super::calls::CallList;
use super::plan::FaultPlan;
use outside::disk::Disk;
use outside::streams::Failed;
use std::alloc::AllocError;
use std::marker::Model;

/// A disk whose bytes are in memory. It keeps the list of the calls that changed it or made it durable, from which
/// follow the files after a crash at each moment.
#[derive(Drop)]
pub struct MemDisk {
    bytes: Vec<u8>,
    plan: FaultPlan,
    list: CallList,
}

impl Model for MemDisk {
    ghost use Rattle.std.specs.Prelude.{◌≡◌, vec_capacity};
    ghost use Rattle.outside_memory.specs.Memory.{DiskState};
    ghost use Rattle.outside_memory.specs.CallList.{start_of};
    ghost use Rattle.outside_memory.specs.Calls.{replayed};

    ghost Value = { DiskState };

    ghost view = { λ d. record {
      bytes = d.bytes.items;
      room = vec_capacity d.bytes;
      plan = d.plan;
      start = start_of d.list.start d.bytes.items;
      calls = d.list.calls;
      list_room = d.list.room;
    } };

    ghost invariant = { λ d. d.bytes.items ≡ replayed (start_of d.list.start d.bytes.items) d.list.calls };
}

impl MemDisk {
    /// Returns a disk of these bytes. `failing` holds the numbers, from 0, of the calls that fail; every call of a method of
    /// `Disk` but `faults` has a number.
    pub fn new(bytes: Vec<u8>, failing: Vec<u64>) -> MemDisk
        ensures { result ≡ fresh_disk bytes.items (vec_capacity bytes) failing.items }
    {
        let list = CallList::new(*bytes.allocator());
        MemDisk {
            bytes,
            plan: FaultPlan::new(failing),
            list,
        }
    }

    /// Returns the bytes of the disk: those that it was made of, after its calls.
    pub fn bytes(&self) -> &[u8]
        ensures bytes { result.now ≡ self.now.bytes }
        ensures replayed { result.now ≡ replayed self.now.start self.now.calls }
    {
        self.bytes.as_slice()
    }

    /// Returns the calls that changed the disk or made it durable, in order. A call that failed is none of them.
    pub fn calls(&self) -> &[Call]
        ensures { result.now ≡ self.now.calls }
    {
        self.list.as_slice()
    }

    /// Takes memory so that the list of calls has room for one more, with a piece of at most `len` bytes.
    ///
    /// # Errors
    /// `AllocError` if memory runs out.
    pub fn make_room(&mut self, len: usize) -> Result<(), AllocError>
        ensures ok { OnOk result (len < self.new.list_room) }
        ensures only { OnErr result (self.old.list_room ≤ len) }
        ensures same { self.new ≡ record self.old { list_room = self.new.list_room } }
    {
        self.list.make_room(self.bytes.as_slice(), len)
    }
}

/// Writes the piece over the bytes from `at` on, in place. The bytes grow where it goes past their end, with zeros in
/// the gap.
///
/// # Errors
/// `AllocError` if memory runs out: then no byte changed.
fn write_over(bytes: &mut Vec<u8>, at: usize, piece: &[u8]) -> Result<(), AllocError>
    ensures ok { OnOk result (bytes.new.items ≡ written bytes.old.items at piece.now) }
    ensures err { OnErr result (bytes.new.items ≡ bytes.old.items) }
    ensures only { OnErr result (vec_capacity bytes.old < at + length piece.now) }
    ensures room { vec_capacity bytes.old ≤ vec_capacity bytes.new }
{
    if piece.is_empty() {
        return Ok(());
    }
    let Some(end) = at.checked_add(piece.len()) else {
        return Err(AllocError);
    };
    grow_to(bytes, end)?;
    write_within(bytes.as_mut_slice(), at, piece);
    Ok(())
}

/// Fills the bytes up to the length `end` with zeros, if they are shorter.
///
/// # Errors
/// `AllocError` if memory runs out: then no byte changed.
fn grow_to(bytes: &mut Vec<u8>, end: usize) -> Result<(), AllocError>
    ensures ok { OnOk result (bytes.new.items ≡ bytes.old.items ++ replicate (end - vec_len bytes.old) 0) }
    ensures err { OnErr result (bytes.new.items ≡ bytes.old.items) }
    ensures only { OnErr result (vec_capacity bytes.old < end) }
    ensures room { vec_capacity bytes.old ≤ vec_capacity bytes.new }
{
    if bytes.len() < end {
        bytes.resize(end, 0)?;
    }
    Ok(())
}

/// Writes the piece over the bytes from `at` on, which have room for it.
fn write_within(bytes: &mut [u8], at: usize, piece: &[u8])
    requires { at + length piece.now ≤ length bytes.old }
    ensures { bytes.new ≡ take at bytes.old ++ piece.now ++ drop (at + length piece.now) bytes.old }
{
    bytes[at..at + piece.len()].copy_from_slice(piece);
}

impl Disk for MemDisk {
    ghost tells = { true };

    ghost content = { λ d. d.bytes };

    ghost may_leave = { crash_leaves };

    ghost moment = { λ d. length d.calls };

    ghost left_at = { crash_left_at };

    ghost fault_count = { λ d. d.plan.faults };

    ghost place = { λ d. d.start };

    ghost counts_now = { λ disk c now. now_counts disk c now };

    ghost only_now = { λ disk c left. now_only disk c left };

    fn len(&mut self) -> Result<u64, Failed>
        ensures answer { IfOk result (λ n. n ≡ length self.old.bytes) }
        ensures same { self.new.bytes ≡ self.old.bytes }
        ensures crash { Within (crash_leaves self.old) (crash_leaves self.new) }
        ensures time { Elapses (length self.old.calls) (length self.new.calls) (crash_left_at self.old)
            (crash_left_at self.new) (crash_leaves self.new) }
        ensures cause { OnErr result (Rose self.old.plan.faults self.new.plan.faults) }
        ensures calm { OnOk result (self.new.plan.faults ≡ self.old.plan.faults) }
        ensures later { self.old.plan.faults ≤ self.new.plan.faults }
        ensures place { self.new.start ≡ self.old.start }

        // It fails exactly where the plan says so.
        ensures exactly { MatchBool (fails_now self.old.plan) (IsErr result) (result ≡ Ok (length self.old.bytes)) }
        ensures state { self.new ≡ (if fails_now self.old.plan then disk_failed self.old else disk_passed self.old) }
    {
        if self.plan.fails() {
            return Err(Failed);
        }
        Ok(self.bytes.len() as u64)
    }

    fn read(&mut self, at: u64, buf: &mut [u8]) -> Result<usize, Failed>
        ensures count { IfOk result (λ n. n ≤ length buf.old) }
        ensures len { length buf.new ≡ length buf.old }
        ensures bytes { IfOk result (λ n. take n buf.new ≡ take n (drop at self.old.bytes)) }
        ensures within { IfOk result (λ n. n ≤ length (drop at self.old.bytes)) }
        ensures at_end { IfOk result (λ n. 0 < length buf.old → n ≡ 0 → drop at self.old.bytes ≡ []) }
        ensures same { self.new.bytes ≡ self.old.bytes }
        ensures crash { Within (crash_leaves self.old) (crash_leaves self.new) }
        ensures time { Elapses (length self.old.calls) (length self.new.calls) (crash_left_at self.old)
            (crash_left_at self.new) (crash_leaves self.new) }
        ensures cause { OnErr result (Rose self.old.plan.faults self.new.plan.faults) }
        ensures calm { OnOk result (self.new.plan.faults ≡ self.old.plan.faults) }
        ensures later { self.old.plan.faults ≤ self.new.plan.faults }
        ensures place { self.new.start ≡ self.old.start }

        // It fails exactly where the plan says so.
        ensures exactly { MatchBool (fails_now self.old.plan) (IsErr result)
            (result ≡ Ok (read_count self.old at (length buf.old))) }
        ensures state { self.new ≡ (if fails_now self.old.plan then disk_failed self.old else disk_passed self.old) }

        // The bytes come from the offset, and the rest of the buffer stays.
        ensures buffer { IfOk result (λ n. buf.new ≡ take n (drop at self.old.bytes) ++ drop n buf.old) }
        ensures unread { OnErr result (buf.new ≡ buf.old) }
    {
        if self.plan.fails() {
            return Err(Failed);
        }
        let from = self.bytes.len().min(at as usize);
        let rest = &self.bytes[from..];
        let n = rest.len().min(buf.len());
        buf[..n].copy_from_slice(&rest[..n]);
        Ok(n)
    }

    #[tactic(auto, using(crate::proofs::Crashes::torn_self, crate::proofs::Crashes::follows_write, crate::proofs::Crashes::written_holds, crate::proofs::Crashes::replayed_append, crate::proofs::Parts::written_back))]
    fn write_at(&mut self, at: u64, piece: &[u8]) -> Result<(), Failed>
        ensures wrote { OnOk result (Holds at piece.now self.old.bytes self.new.bytes) }
        ensures torn { OnErr result (Torn at (length piece.now) self.old.bytes self.new.bytes) }
        ensures crash { Follows (Torn at (length piece.now)) (crash_leaves self.old) (crash_leaves self.new) }
        ensures time { Elapses (length self.old.calls) (length self.new.calls) (crash_left_at self.old)
            (crash_left_at self.new) (crash_leaves self.new) }
        ensures cause { OnErr result (Rose self.old.plan.faults self.new.plan.faults) }
        ensures calm { OnOk result (self.new.plan.faults ≡ self.old.plan.faults) }
        ensures later { self.old.plan.faults ≤ self.new.plan.faults }
        ensures place { self.new.start ≡ self.old.start }

        // Zeros fill a gap. A write that failed changed nothing.
        ensures exactly { OnOk result (self.new.bytes ≡ written self.old.bytes at piece.now) }
        ensures read_back { OnOk result (take (length piece.now) (drop at self.new.bytes) ≡ piece.now) }
        ensures nothing { OnErr result (self.new.bytes ≡ self.old.bytes) }

        // It fails exactly where the plan says so, or where it has no room for the bytes or in the list of calls, and
        // memory runs out.
        ensures planned { IsTrue (fails_now self.old.plan) → IsErr result }
        ensures only { OnErr result (IsTrue (fails_now self.old.plan) ⊎ (self.old.room < at + length piece.now)
            ⊎ (self.old.list_room ≤ length piece.now)) }
        ensures plan { OnOk result (self.new.plan ≡ after_call self.old.plan) }
        ensures fault { OnErr result (self.new.plan ≡ after_fault self.old.plan) }
        ensures room { self.old.room ≤ self.new.room }

        // It is listed, unless it failed.
        ensures listed { OnOk result (self.new.calls ≡ self.old.calls ++ Write at piece.now ∷ []) }
        ensures unlisted { OnErr result (self.new.calls ≡ self.old.calls) }
    {
        if self.plan.fails() {
            return Err(Failed);
        }
        if self
            .list
            .make_room(self.bytes.as_slice(), piece.len())
            .is_err()
            || write_over(&mut self.bytes, at as usize, piece).is_err()
        {
            self.plan.fault();
            return Err(Failed);
        }
        self.list.push_write(at, piece);
        Ok(())
    }

    #[tactic(auto, using(crate::proofs::Crashes::cut_self, crate::proofs::Crashes::follows_cut, crate::proofs::Crashes::replayed_append))]
    fn cut(&mut self, len: u64) -> Result<(), Failed>
        ensures cut { OnOk result (self.new.bytes ≡ take len self.old.bytes) }
        ensures between { OnErr result (Cut len self.old.bytes self.new.bytes) }
        ensures crash { Follows (Cut len) (crash_leaves self.old) (crash_leaves self.new) }
        ensures time { Elapses (length self.old.calls) (length self.new.calls) (crash_left_at self.old)
            (crash_left_at self.new) (crash_leaves self.new) }
        ensures cause { OnErr result (Rose self.old.plan.faults self.new.plan.faults) }
        ensures calm { OnOk result (self.new.plan.faults ≡ self.old.plan.faults) }
        ensures later { self.old.plan.faults ≤ self.new.plan.faults }
        ensures place { self.new.start ≡ self.old.start }

        // It is listed, unless it failed. Then nothing changed but the counts and the room of the list.
        ensures done { OnOk result (self.new ≡ disk_cut self.old len self.new.list_room) }
        ensures failed { OnErr result (self.new ≡ record (disk_failed self.old) { list_room = self.new.list_room }) }

        // It fails exactly where the plan says so, or where the list of calls has no room and memory runs out.
        ensures planned { IsTrue (fails_now self.old.plan) → IsErr result × (self.new ≡ disk_failed self.old) }
        ensures only { OnErr result (IsTrue (fails_now self.old.plan) ⊎ (self.old.list_room ≡ 0)) }
    {
        if self.plan.fails() {
            return Err(Failed);
        }
        if self.list.make_room(self.bytes.as_slice(), 0).is_err() {
            self.plan.fault();
            return Err(Failed);
        }
        self.bytes.truncate(len as usize);
        self.list.push(Call::Cut { len });
        Ok(())
    }

    #[tactic(auto, using(crate::proofs::Crashes::within_synced, crate::proofs::Crashes::replayed_append))]
    fn sync(&mut self) -> Result<(), Failed>
        ensures durable { OnOk result (Only self.new.bytes (crash_leaves self.new)) }
        ensures stays { OnOk result (crash_leaves self.new self.new.bytes) }
        ensures same { self.new.bytes ≡ self.old.bytes }
        ensures crash { Within (crash_leaves self.old) (crash_leaves self.new) }
        ensures time { Elapses (length self.old.calls) (length self.new.calls) (crash_left_at self.old)
            (crash_left_at self.new) (crash_leaves self.new) }
        ensures cause { OnErr result (Rose self.old.plan.faults self.new.plan.faults) }
        ensures calm { OnOk result (self.new.plan.faults ≡ self.old.plan.faults) }
        ensures later { self.old.plan.faults ≤ self.new.plan.faults }
        ensures place { self.new.start ≡ self.old.start }

        // It is listed, unless it failed. Then nothing changed but the counts and the room of the list.
        ensures done { OnOk result (self.new ≡ disk_synced self.old self.new.list_room) }
        ensures failed { OnErr result (self.new ≡ record (disk_failed self.old) { list_room = self.new.list_room }) }

        // It fails exactly where the plan says so, or where the list of calls has no room and memory runs out.
        ensures planned { IsTrue (fails_now self.old.plan) → IsErr result × (self.new ≡ disk_failed self.old) }
        ensures only { OnErr result (IsTrue (fails_now self.old.plan) ⊎ (self.old.list_room ≡ 0)) }
    {
        if self.plan.fails() {
            return Err(Failed);
        }
        if self.list.make_room(self.bytes.as_slice(), 0).is_err() {
            self.plan.fault();
            return Err(Failed);
        }
        self.list.push(Call::Sync);
        Ok(())
    }

    fn faults(&self) -> u64
        ensures { result ≡ self.now.plan.faults }
    {
        self.plan.faults()
    }
}
