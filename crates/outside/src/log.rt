//! A sequence of records that is found again when it is opened.
ghost use Rattle.std.specs.Prelude.{◌≡◌, ℕ, ◌≤◌, ◌++◌, ◌∷◌, [], List, IsTrue, OnOk, IfErr, OnErr};
ghost use Rattle.outside.specs.Causes.{Rose};
ghost use Rattle.outside.specs.Disks.{LeavesOnly};
ghost use Rattle.outside.specs.Logs.{ByFault, IsDurable, LogFacts, WithOrWithout};

use crate::disk::Disk;
use bson_values::{Blob, Memory};
use std::alloc::Global;
use std::marker::Model;

/// Why records were not appended.
#[derive(Clone, Copy, Debug, PartialEq, Eq)]
pub enum LogFault {
    /// The disk failed; its count of faults is shown. All of the records are stored or none is, and the log must be reopened.
    Disk { faults: u64 },
    /// Out of memory: the log is unchanged.
    Memory,
}

/// A sequence of records, to which records are appended; opening finds them again.
pub trait Log {
    /// The disk on which the records are stored.
    type Of: Disk;

    // What contracts say about the log. `LogFacts` explains each.
    ghost facts: { LogFacts Self };

    /// Returns the disk, which shows its place and the moment of its clock. While records can be appended all of them are durable: a crash at this moment
    /// results in a file in which opening finds just these records.
    fn device(&self) -> &Self::Of
        ensures place { Self.Of.place result.now ≡ facts.place self.now }
        ensures moment { Self.Of.moment result.now ≡ facts.moment self.now }
        ensures durable { IsTrue (facts.is_open self.now) → IsDurable facts self.now };

    /// Appends a record. After it, opening the log finds the records with this one (`kept`), and after a crash at any moment of it the records with this one
    /// or without it (`any_moment`). That a crash after it keeps them all is said by `device`, of an open log.
    ///
    /// # Errors
    /// - `LogFault::Disk` only if the disk met a fault: then the record is stored or it isn't.
    /// - `LogFault::Memory` if memory runs out: nothing is changed, and nothing was written.
    fn append(&mut self, bytes: &[u8]) -> Result<(), LogFault>
        requires { IsTrue (facts.is_open self.old) }
        ensures appended { OnOk result (IsTrue facts.tells → facts.records self.new ≡ facts.records self.old ++ bytes.now ∷ []) }
        ensures open { OnOk result (IsTrue (facts.is_open self.new)) }
        ensures kept { OnOk result (facts.holds self.new (facts.records self.new)) }
        ensures failed { IfErr result (λ e. ByFault e
            (λ faults. WithOrWithout (facts.holds self.new) (facts.records self.old) (bytes.now ∷ []))
            (self.new ≡ self.old)) }
        ensures any_moment { IsTrue facts.tells → LeavesOnly facts.moment facts.left_at self.old self.new
            (λ file. WithOrWithout (facts.finds file) (facts.records self.old) (bytes.now ∷ [])) }
        ensures cause { IfErr result (λ e. ByFault e
            (λ faults. (faults ≡ facts.fault_count self.new) × Rose (facts.fault_count self.old) (facts.fault_count self.new))
            (Unit {0})) }
        ensures calm { OnOk result (facts.fault_count self.new ≡ facts.fault_count self.old) }
        ensures later { facts.fault_count self.old ≤ facts.fault_count self.new }
        ensures place { facts.place self.new ≡ facts.place self.old };

    /// Appends records, in order, all at once: after a crash at any moment of it all of them are stored or none is. Where there is none to append the log is
    /// unchanged.
    ///
    /// # Errors
    /// - `LogFault::Disk` only if the disk met a fault: then all of these records are stored or none is.
    /// - `LogFault::Memory` if memory runs out: nothing is changed, and nothing was written.
    fn append_all(&mut self, bodies: &[Blob]) -> Result<(), LogFault>
        requires { IsTrue (facts.is_open self.old) }
        ensures appended { OnOk result (IsTrue facts.tells → facts.records self.new ≡ facts.records self.old ++ bodies.now) }
        ensures nothing { bodies.now ≡ [] → self.new ≡ self.old }
        ensures open { OnOk result (IsTrue (facts.is_open self.new)) }
        ensures kept { OnOk result (facts.holds self.new (facts.records self.new)) }
        ensures failed { IfErr result (λ e. ByFault e
            (λ faults. WithOrWithout (facts.holds self.new) (facts.records self.old) bodies.now)
            (self.new ≡ self.old)) }
        ensures any_moment { IsTrue facts.tells → LeavesOnly facts.moment facts.left_at self.old self.new
            (λ file. WithOrWithout (facts.finds file) (facts.records self.old) bodies.now) }
        ensures cause { IfErr result (λ e. ByFault e
            (λ faults. (faults ≡ facts.fault_count self.new) × Rose (facts.fault_count self.old) (facts.fault_count self.new))
            (Unit {0})) }
        ensures calm { OnOk result (facts.fault_count self.new ≡ facts.fault_count self.old) }
        ensures later { facts.fault_count self.old ≤ facts.fault_count self.new }
        ensures place { facts.place self.new ≡ facts.place self.old };
}

/// A sequence of records in memory, in order.
#[derive(Drop)]
pub struct RecordList {
    items: Vec<Blob>,
}

impl Model for RecordList {
    ghost use Rattle.std.specs.Prelude.{List, ℕ};

    ghost Value = { List (List ℕ) };

    ghost view = { λ l. l.items.items };
}

impl RecordList {
    /// Returns the empty list.
    pub fn new(alloc: Global) -> RecordList
        ensures { result ≡ [] }
    {
        RecordList {
            items: Vec::new(alloc),
        }
    }

    /// The records, in order.
    pub fn as_slice(&self) -> &[Blob]
        ensures { result.now ≡ self.now }
    {
        self.items.as_slice()
    }

    /// Appends a record. Returns `Memory` if memory runs out, and then changes nothing.
    pub fn push(&mut self, bytes: Blob) -> Result<(), Memory>
        ensures ok { OnOk result (self.new ≡ self.old ++ bytes ∷ []) }
        ensures err { OnErr result (self.new ≡ self.old) }
    {
        self.items.push(bytes)?;
        Ok(())
    }
}
