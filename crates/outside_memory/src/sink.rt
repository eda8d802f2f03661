//! A sink in memory.
ghost use Rattle.std.specs.Prelude.{◌≡◌, ◌+◌, ◌<◌, ◌≤◌, ◌++◌, ◌∷◌, ◌⊎◌, [], length, take, true, IsTrue, IsErr, IsOk, IfOk, OnOk, OnErr, if◌then◌else◌};
ghost use Rattle.std.specs.Bool.{OnTrue};
ghost use Rattle.outside.specs.Causes.{Rose};
ghost use Rattle.outside_memory.specs.FaultPlan.{fails_now, after_call, after_fault};
ghost use Rattle.outside_memory.specs.Memory.{fresh_sink, note_of, notes_of};

use super::disk::MemDisk;
use super::plan::FaultPlan;
use ghost_list::GhostList;
use outside::streams::{Failed, Sink};
use outside::witness::Witness;
use std::marker::Model;

/// A sink that holds in memory what is put.
#[derive(Drop)]
pub struct MemSink {
    bytes: Vec<u8>,
    plan: FaultPlan,
    // The disks that were noted, as they were, each with the length of what the sink held.
    noted: GhostList<MemDisk, usize>,
}

impl Model for MemSink {
    ghost use Rattle.std.specs.Prelude.{vec_capacity};
    ghost use Rattle.outside_memory.specs.Memory.{SinkState};

    ghost Value = { SinkState };

    ghost view = { λ s. record { held = s.bytes.items; room = vec_capacity s.bytes; plan = s.plan; noted = s.noted.items } };
}

impl MemSink {
    /// Returns an empty sink. `failing` holds the numbers, from 0, of the calls that fail, and its allocator is the sink's.
    pub fn new(failing: Vec<u64>) -> MemSink
        ensures { result ≡ fresh_sink failing.items }
    {
        let alloc = *failing.allocator();
        MemSink {
            bytes: Vec::new(alloc),
            plan: FaultPlan::new(failing),
            noted: GhostList::new(),
        }
    }

    /// Returns the bytes that were put.
    pub fn bytes(&self) -> &[u8]
        ensures { result.now ≡ self.now.held }
    {
        self.bytes.as_slice()
    }
}

impl Sink for MemSink {
    ghost tells = { true };

    ghost held = { λ s. s.held };

    ghost noted = { notes_of };

    ghost fault_count = { λ s. s.plan.faults };

    fn put(&mut self, piece: &[u8]) -> Result<usize, Failed>
        ensures count { IfOk result (λ n. n ≡ length piece.now) }
        ensures put { OnOk result (self.new.held ≡ self.old.held ++ piece.now) }
        ensures nothing { OnErr result (self.new.held ≡ self.old.held) }
        ensures cause { OnErr result (Rose self.old.plan.faults self.new.plan.faults) }
        ensures calm { OnOk result (self.new.plan.faults ≡ self.old.plan.faults) }
        ensures later { self.old.plan.faults ≤ self.new.plan.faults }

        // It fails exactly where the plan says so, or where it has no room and memory runs out.
        ensures planned { IsTrue (fails_now self.old.plan) → IsErr result }
        ensures only { OnErr result (IsTrue (fails_now self.old.plan)
            ⊎ (self.old.room < length self.old.held + length piece.now)) }
        ensures plan { OnOk result (self.new.plan ≡ after_call self.old.plan) }
        ensures fault { OnErr result (self.new.plan ≡ after_fault self.old.plan) }
        ensures room { self.old.room ≤ self.new.room }
        ensures noted { self.new.noted ≡ self.old.noted }
    {
        if self.plan.fails() {
            return Err(Failed);
        }
        if self.bytes.extend_from_slice(piece).is_err() {
            self.plan.fault();
            return Err(Failed);
        }
        Ok(piece.len())
    }
}

impl Witness<MemDisk> for MemSink {
    /// It keeps the note in a list that only proofs read.
    fn note(&mut self, disk: &MemDisk)
        ensures noted { notes_of self.new ≡ notes_of self.old ++ note_of (disk.now, length self.old.held) ∷ [] }
        ensures held { self.new.held ≡ self.old.held }
        ensures faults { self.new.plan.faults ≡ self.old.plan.faults }

        // Nothing else changes.
        ensures room { self.new.room ≡ self.old.room }
        ensures plan { self.new.plan ≡ self.old.plan }
    {
        self.noted = self.noted.with(disk, &self.bytes.len());
    }
}
