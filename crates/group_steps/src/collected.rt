//! A log that collects records in memory.

ghost use Rattle.std.specs.Prelude.{◌≡◌, [], ℕ, ◌≤◌, length};
ghost use Rattle.group_steps.specs.Collected.{collected_facts};

use crate::records::Records;
use bson_values::Blob;
use outside::disk::Disk;
use outside::log::{Log, LogFault};
use std::alloc::Global;

/// A log that collects the records of steps in memory, in the place of the one whose disk it shows. Nothing of it survives the program.
#[derive(Drop)]
pub(crate) struct Collected<'d, D> {
    alloc: Global,
    disk: &'d D,
    records: Records,
    // How many bytes the records have, or 2^64 - 1 where they have more.
    bytes: usize,
}

impl<'d, D: Disk> Collected<'d, D> {
    /// Returns a log without records.
    pub(crate) fn new(alloc: Global, disk: &'d D) -> Collected<'d, D>
        ensures { result.records ≡ [] }
    {
        Collected {
            alloc,
            disk,
            records: Records::new(alloc),
            bytes: 0,
        }
    }

    /// How many bytes the records have.
    pub(crate) fn bytes(&self) -> usize {
        self.bytes
    }

    /// Returns the records.
    pub(crate) fn into_records(self) -> Records
        ensures { result ≡ self.entry.records }
    {
        self.records
    }
}

/// How many bytes these records have, at most 2^64 - 1.
fn bytes_of(bodies: &[Blob]) -> usize {
    let mut bytes = 0usize;
    for body in bodies {
        bytes = bytes.saturating_add(body.as_slice().len());
    }
    bytes
}

impl<D: Disk> Log for Collected<'_, D> {
    type Of = D;

    ghost facts = { collected_facts (λ c. c.records) (λ c. D.moment c.disk.now) (λ c. D.place c.disk.now) };

    fn device(&self) -> &D {
        self.disk
    }

    fn append(&mut self, bytes: &[u8]) -> Result<(), LogFault> {
        let Ok(body) = Blob::of(self.alloc, bytes) else {
            return Err(LogFault::Memory);
        };
        match self.append_all(&[body]) {
            Ok(()) => Ok(()),
            Err(e) => Err(e),
        }
    }

    fn append_all(&mut self, bodies: &[Blob]) -> Result<(), LogFault> {
        if bodies.is_empty() {
            return Ok(());
        }
        match self.records.append(self.alloc, bodies) {
            Ok(()) => {
                self.bytes = self.bytes.saturating_add(bytes_of(bodies));
                Ok(())
            }
            Err(_) => Err(LogFault::Memory),
        }
    }
}
