//! A journal: opened, appended to and handed back.
ghost use Rattle.std.specs.Prelude.{◌≡◌, ◌⊎◌, ◌+◌, ◌<◌, ◌≤◌, ◌^◌, ◌++◌, ◌∷◌, [], ℕ, List, length, true, IsTrue, IsErr, IfOk, IfErr, OnOk, OnErr};
ghost use Rattle.outside.specs.Causes.{Rose};
ghost use Rattle.outside.specs.Disks.{LeavesOnly};
ghost use Rattle.outside.specs.Logs.{ByFault, WithOrWithout};
ghost use Rattle.journal_frames.specs.Files.{HaveSameRecords, IsDamaged, Stands, StandsWithOrWithout, body};
ghost use Rattle.journal_frames.specs.Openings.{IfDamaged, IfDiskFailed, UnlessDiskFailed, disk_left};
ghost use Rattle.journal_frames.specs.Views.{IsAtRest, IsFound, IsSettled, at_rest, journal_facts};

use crate::file::{LoadFault, load};
use crate::gates::{close_end, put_records, write_first_gate};
use crate::records::{ScanFault, scan};
use bson_values::{Blob, Memory};
use byteorder::{ByteOrder, LittleEndian};
use outside::disk::Disk;
use outside::log::{Log, LogFault, RecordList};
use outside::streams::Failed;
use std::alloc::{AllocError, Global};
use std::marker::Model;

// A journal does not grow beyond this number of bytes.
const MOST_BYTES: u64 = 1 << 63;

/// A disk with the records in its file, to which more can be appended. It keeps no record in memory.
#[derive(Drop)]
pub struct Journal<D: Disk> {
    alloc: Global,
    disk: D,
    // The offset of the closed gate after the records.
    end: u64,
    is_open: bool,
}

impl<D: Disk> Model for Journal<D> {
    ghost use Rattle.journal_frames.specs.Files.{records_in};
    ghost use Rattle.journal_frames.specs.Views.{IsAtRest, JournalView, journal_code};
    ghost use Rattle.std.specs.Prelude.{IsTrue};

    ghost Value = { JournalView D };

    ghost coded = { journal_code D.code };

    ghost view = { λ j. record { disk = j.disk; records = records_in (D.content j.disk); is_open = j.is_open } };

    ghost invariant = { λ j. IsTrue j.is_open → IsTrue D.tells →
        IsAtRest D.tells (D.content j.disk) (D.may_leave j.disk) (records_in (D.content j.disk)) j.end };
}

/// Why a journal was not opened. Each variant hands the disk back, which has the same records as before.
#[derive(Drop)]
pub enum OpenFault<D: Disk> {
    /// The disk met a fault, which is counted.
    Disk(D),
    /// At the offset `place` there is an open gate, and the bytes after it are not a whole record; the disk's file is as before.
    Damaged { place: u64, disk: D },
    /// Out of memory.
    Memory(D),
}

/// Appends a record with an open gate to others.
fn push_block(blocks: &mut Vec<u8>, bytes: &[u8]) -> Result<(), Memory>
    ensures { OnOk result (blocks.new.items ≡ blocks.old.items ++ 1 ∷ body bytes.now) }
{
    let mut length = [0; 8];
    LittleEndian::write_u64(&mut length, bytes.len() as u64);
    blocks.push(1)?;
    blocks.extend_from_slice(&length)?;
    blocks.extend_from_slice(bytes)?;
    Ok(())
}

/// Returns the bytes of records with open gates, and a closed gate after them.
fn blocks_of(alloc: Global, bodies: &[Blob]) -> Result<Vec<u8>, Memory>
    ensures { IfOk result (λ blocks. blocks.items ≡ at_rest bodies.now) }
{
    let mut blocks = Vec::new(alloc);
    for bytes in bodies {
        push_block(&mut blocks, bytes.as_slice())?;
    }
    blocks.push(0)?;
    Ok(blocks)
}

/// Closes the gate after the records that were found in a file of `len` bytes, and removes everything after it.
///
/// # Errors
/// `Failed` if the disk met a fault, which is counted. The file has the same records then.
fn settle<D: Disk>(disk: &mut D, len: usize, end: usize) -> Result<(), Failed>
    requires within { end ≤ len }
    requires before { 0 < len → end < len }
    ensures closed { (records : List (List ℕ)) →
        IsFound D.tells (D.content disk.old) (D.may_leave disk.old) records end →
        (IsTrue D.tells → len ≡ length (D.content disk.old)) →
        OnOk result (IsAtRest D.tells (D.content disk.new) (D.may_leave disk.new) records end) }
    ensures held { (records : List (List ℕ)) →
        IsFound D.tells (D.content disk.old) (D.may_leave disk.old) records end →
        (IsTrue D.tells → len ≡ length (D.content disk.old)) →
        IsTrue D.tells → Stands (D.content disk.new) records }
    ensures any_moment { (records : List (List ℕ)) →
        IsFound D.tells (D.content disk.old) (D.may_leave disk.old) records end →
        (IsTrue D.tells → len ≡ length (D.content disk.old)) →
        IsTrue D.tells → LeavesOnly D.moment D.left_at disk.old disk.new (λ c. Stands c records) }
    ensures cause { OnErr result (Rose (D.fault_count disk.old) (D.fault_count disk.new)) }
    ensures calm { OnOk result (D.fault_count disk.new ≡ D.fault_count disk.old) }
    ensures later { D.fault_count disk.old ≤ D.fault_count disk.new }
    ensures place { D.place disk.new ≡ D.place disk.old }
{
    if len == 0 {
        write_first_gate(disk)?;
        return Ok(());
    }
    close_end(disk, end as u64)?;
    Ok(())
}

impl<D: Disk> Journal<D> {
    /// Opens the journal on a disk: the records are those from the front of its file whose gates are open. The disk is synced, and its length and its file
    /// are read; then an empty file gets a closed gate, and any other file is cut after the first gate that is not open, which is then closed. Each step is
    /// synced. The records are returned with the journal.
    ///
    /// # Errors
    /// - `OpenFault::Disk` only if the disk met a fault. With each other result it met none.
    /// - `OpenFault::Damaged` if there is an open gate before bytes that are not a whole record, unless the disk met a fault or memory ran out before that
    ///   was found, and only if there is such a gate; the file is as before.
    /// - `OpenFault::Memory` if memory runs out.
    pub fn open(alloc: Global, disk: D) -> Result<(Journal<D>, RecordList), OpenFault<D>>
        ensures found { IfOk result (λ x. IsTrue D.tells → Stands (D.content disk) x.1) }
        ensures list { IfOk result (λ x. IsTrue D.tells → x.0.records ≡ x.1) }
        ensures open { IfOk result (λ x. IsTrue x.0.is_open) }
        ensures kept { IfOk result (λ x. IsTrue D.tells → (c : List ℕ) → D.may_leave x.0.disk c → Stands c x.1) }
        ensures damaged { IfDamaged result (λ offset. IsTrue D.tells →
            IsDamaged (D.content disk) offset × (D.content (disk_left result) ≡ D.content disk)) }
        ensures only { (offset : ℕ) → IsTrue D.tells → IsDamaged (D.content disk) offset → IsErr result }
        ensures as_damaged { (offset : ℕ) → IsTrue D.tells → IsDamaged (D.content disk) offset → D.content (disk_left result) ≡ D.content disk }
        ensures cause { IfDiskFailed result (Rose (D.fault_count disk) (D.fault_count (disk_left result))) }
        ensures calm { UnlessDiskFailed result (D.fault_count (disk_left result) ≡ D.fault_count disk) }
        ensures later { D.fault_count disk ≤ D.fault_count (disk_left result) }
        ensures place { D.place (disk_left result) ≡ D.place disk }

        // Whatever it returns, the disk has the same records, and a crash at any moment results in a file with these records, or in one that was possible
        // before.
        ensures same { (records : List (List ℕ)) → IsTrue D.tells → Stands (D.content disk) records →
            Stands (D.content (disk_left result)) records }
        ensures any_moment { IsTrue D.tells → LeavesOnly D.moment D.left_at disk (disk_left result)
            (λ c. D.may_leave disk c ⊎ HaveSameRecords (D.content disk) c) }
    {
        let mut disk = disk;
        let file = match load(alloc, &mut disk) {
            Ok(file) => file,
            Err(LoadFault::Disk) => return Err(OpenFault::Disk(disk)),
            Err(LoadFault::Memory) => return Err(OpenFault::Memory(disk)),
        };
        let (records, end) = match scan(alloc, &file) {
            Ok(found) => found,
            Err(ScanFault::Damage { place }) => {
                return Err(OpenFault::Damaged {
                    place: place as u64,
                    disk,
                });
            }
            Err(ScanFault::Memory) => return Err(OpenFault::Memory(disk)),
        };
        match settle(&mut disk, file.len(), end) {
            Ok(()) => {
                let journal = Journal {
                    alloc,
                    disk,
                    end: end as u64,
                    is_open: true,
                };
                Ok((journal, records))
            }
            Err(Failed) => Err(OpenFault::Disk(disk)),
        }
    }

    /// Reads the file again: the disk is synced, and its length and its file are read. Returns the records in it, which are those of the journal, and more can be
    /// appended to it as before.
    ///
    /// # Errors
    /// - `LogFault::Disk` only if the disk met a fault: then nothing can be appended any more.
    /// - `LogFault::Memory` if memory runs out, and where the file is no journal of these records any more, which is only possible of a disk without observable
    ///   content.
    pub fn reopen(&mut self) -> Result<RecordList, LogFault>
        requires { IsTrue self.old.is_open }
        ensures found { IfOk result (λ list. IsTrue D.tells → list ≡ self.old.records) }
        ensures records { IsTrue D.tells → self.new.records ≡ self.old.records }
        ensures kept { IsTrue D.tells → Stands (D.content self.new.disk) self.old.records }
        ensures open { OnOk result (IsTrue self.new.is_open) }
        ensures failed { IfErr result (λ e. ByFault e
            (λ faults. (faults ≡ D.fault_count self.new.disk) × Rose (D.fault_count self.old.disk) (D.fault_count self.new.disk))
            (IsTrue self.new.is_open × (D.fault_count self.new.disk ≡ D.fault_count self.old.disk))) }
        ensures calm { OnOk result (D.fault_count self.new.disk ≡ D.fault_count self.old.disk) }
        ensures later { D.fault_count self.old.disk ≤ D.fault_count self.new.disk }
        ensures place { D.place self.new.disk ≡ D.place self.old.disk }

        // A crash at any moment of it results in a file with the same records.
        ensures any_moment { IsTrue D.tells → LeavesOnly (λ j. D.moment j.disk) (λ j t file. D.left_at j.disk t file) self.old self.new
            (λ file. Stands file self.old.records) }
    {
        let file = match load(self.alloc, &mut self.disk) {
            Ok(file) => file,
            Err(LoadFault::Disk) => {
                self.is_open = false;
                return Err(LogFault::Disk {
                    faults: self.disk.faults(),
                });
            }
            Err(LoadFault::Memory) => return Err(LogFault::Memory),
        };
        let (records, end) = match scan(self.alloc, &file) {
            Ok(found) => found,
            Err(ScanFault::Damage { place: _ }) => return Err(LogFault::Memory),
            Err(ScanFault::Memory) => return Err(LogFault::Memory),
        };
        if end as u64 != self.end {
            return Err(LogFault::Memory);
        }
        Ok(records)
    }

    /// Returns the disk. Where the journal was open, its file is the journal of its records, byte for byte, and every crash results in just this file.
    pub fn into_disk(self) -> D
        ensures disk { result ≡ self.disk }
        ensures file { IsTrue self.is_open → IsTrue D.tells → Stands (D.content result) self.records }
        ensures settled { IsTrue self.is_open → IsTrue D.tells → IsSettled (D.content result) (D.may_leave result) self.records }
        ensures durable { IsTrue self.is_open → IsTrue D.tells → (c : List ℕ) → D.may_leave result c → Stands c self.records }
    {
        self.disk
    }
}

impl<D: Disk> Log for Journal<D> {
    type Of = D;

    ghost facts = { journal_facts D.tells D.content D.moment D.left_at D.fault_count D.place };

    fn device(&self) -> &D
        ensures disk { result.now ≡ self.now.disk }
        ensures durable { IsTrue self.now.is_open → IsTrue D.tells → (file : List ℕ) → D.left_at self.now.disk (D.moment self.now.disk) file →
            Stands file self.now.records }
    {
        &self.disk
    }

    /// Appends a record, as `append_all` does.
    fn append(&mut self, bytes: &[u8]) -> Result<(), LogFault>
        requires { IsTrue self.old.is_open }
        ensures appended { OnOk result (IsTrue D.tells → self.new.records ≡ self.old.records ++ bytes.now ∷ []) }
        ensures open { OnOk result (IsTrue self.new.is_open) }
        ensures kept { OnOk result (IsTrue D.tells → Stands (D.content self.new.disk) self.new.records) }
        ensures failed { IfErr result (λ e. ByFault e
            (λ faults. WithOrWithout (λ records. IsTrue D.tells → Stands (D.content self.new.disk) records) self.old.records (bytes.now ∷ []))
            (self.new ≡ self.old)) }
        ensures cause { IfErr result (λ e. ByFault e
            (λ faults. (faults ≡ D.fault_count self.new.disk)
            × Rose (D.fault_count self.old.disk) (D.fault_count self.new.disk))
            (Unit {0})) }
        ensures calm { OnOk result (D.fault_count self.new.disk ≡ D.fault_count self.old.disk) }
        ensures later { D.fault_count self.old.disk ≤ D.fault_count self.new.disk }
        ensures place { D.place self.new.disk ≡ D.place self.old.disk }

        // A crash after it results in a file with all records, and a crash at any moment of it in one with the earlier ones, with the new one or without it.
        ensures durable { OnOk result (IsTrue D.tells →
            (c : List ℕ) → D.may_leave self.new.disk c → Stands c self.new.records) }
        ensures any_moment { IsTrue D.tells → LeavesOnly (λ j. D.moment j.disk) (λ j t file. D.left_at j.disk t file) self.old self.new
            (λ file. WithOrWithout (λ records. Stands file records) self.old.records (bytes.now ∷ [])) }
    {
        let Ok(body) = Blob::of(self.alloc, bytes) else {
            return Err(LogFault::Memory);
        };
        match self.append_all(&[body]) {
            Ok(()) => Ok(()),
            Err(e) => Err(e),
        }
    }

    /// Appends records, in order, all at once: they are written after the closed gate, all with open gates but the first, and synced; and then the first gate
    /// is opened and synced. Where there is none to append the disk is not used.
    fn append_all(&mut self, bodies: &[Blob]) -> Result<(), LogFault>
        requires { IsTrue self.old.is_open }
        ensures appended { OnOk result (IsTrue D.tells → self.new.records ≡ self.old.records ++ bodies.now) }
        ensures nothing { bodies.now ≡ [] → self.new ≡ self.old }
        ensures open { OnOk result (IsTrue self.new.is_open) }
        ensures kept { OnOk result (IsTrue D.tells → Stands (D.content self.new.disk) self.new.records) }
        ensures failed { IfErr result (λ e. ByFault e
            (λ faults. WithOrWithout (λ records. IsTrue D.tells → Stands (D.content self.new.disk) records) self.old.records bodies.now)
            (self.new ≡ self.old)) }
        ensures cause { IfErr result (λ e. ByFault e
            (λ faults. (faults ≡ D.fault_count self.new.disk)
            × Rose (D.fault_count self.old.disk) (D.fault_count self.new.disk))
            (Unit {0})) }
        ensures calm { OnOk result (D.fault_count self.new.disk ≡ D.fault_count self.old.disk) }
        ensures later { D.fault_count self.old.disk ≤ D.fault_count self.new.disk }
        ensures place { D.place self.new.disk ≡ D.place self.old.disk }

        // A crash after it results in a file with all records, and a crash at any moment of it in one with the earlier ones, with all of the new ones or
        // none.
        ensures durable { OnOk result (IsTrue D.tells →
            (c : List ℕ) → D.may_leave self.new.disk c → Stands c self.new.records) }
        ensures any_moment { IsTrue D.tells → LeavesOnly (λ j. D.moment j.disk) (λ j t file. D.left_at j.disk t file) self.old self.new
            (λ file. WithOrWithout (λ records. Stands file records) self.old.records bodies.now) }
    {
        let at = self.end;
        if bodies.is_empty() {
            return Ok(());
        }
        let Ok(blocks) = blocks_of(self.alloc, bodies) else {
            return Err(LogFault::Memory);
        };
        let piece = &blocks[1..];
        let end = at.saturating_add(piece.len() as u64);
        if end >= MOST_BYTES {
            return Err(LogFault::Memory);
        }
        self.is_open = false;
        match put_records(&mut self.disk, at, piece) {
            Ok(()) => {
                self.end = end;
                self.is_open = true;
                Ok(())
            }
            Err(Failed) => Err(LogFault::Disk {
                faults: self.disk.faults(),
            }),
        }
    }
}
