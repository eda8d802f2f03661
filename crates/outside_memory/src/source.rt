//! A source in memory.
ghost use Rattle.std.specs.Prelude.{◌≡◌, ◌<◌, ◌≤◌, ◌++◌, [], length, take, drop, true, IsErr, Ok, IfOk, OnOk, OnErr, if◌then◌else◌};
ghost use Rattle.std.specs.Bool.{MatchBool};
ghost use Rattle.outside.specs.Causes.{Rose};
ghost use Rattle.outside_memory.specs.FaultPlan.{fresh_plan, fails_now};
ghost use Rattle.outside_memory.specs.Memory.{taken_count, source_after, source_failed};

use super::plan::FaultPlan;
use outside::streams::{Failed, Source};
use std::marker::Model;

/// A source of bytes that lie in memory.
#[derive(Drop)]
pub struct MemSource {
    bytes: Vec<u8>,
    at: usize,
    plan: FaultPlan,
}

impl Model for MemSource {
    ghost use Rattle.std.specs.Prelude.{◌≤◌, length, drop};
    ghost use Rattle.outside_memory.specs.Memory.{SourceState};

    ghost Value = { SourceState };

    ghost view = { λ s. record { left = drop s.at s.bytes.items; plan = s.plan } };

    ghost invariant = { λ s. s.at ≤ length s.bytes.items };
}

impl MemSource {
    /// Returns a source of these bytes. `failing` holds the numbers, from 0, of the calls that fail.
    pub fn new(bytes: Vec<u8>, failing: Vec<u64>) -> MemSource
        ensures { result ≡ record { left = bytes.items; plan = fresh_plan failing.items } }
    {
        MemSource {
            bytes,
            at: 0,
            plan: FaultPlan::new(failing),
        }
    }
}

impl Source for MemSource {
    ghost tells = { true };

    ghost left = { λ s. s.left };

    ghost fault_count = { λ s. s.plan.faults };

    fn take(&mut self, buf: &mut [u8]) -> Result<usize, Failed>
        ensures count { IfOk result (λ n. n ≤ length buf.old) }
        ensures len { length buf.new ≡ length buf.old }
        ensures took { IfOk result (λ n. self.old.left ≡ take n buf.new ++ self.new.left) }
        ensures at_end { IfOk result (λ n. 0 < length buf.old → n ≡ 0 → self.new.left ≡ []) }
        ensures nothing { OnErr result (self.old.left ≡ self.new.left) }
        ensures cause { OnErr result (Rose self.old.plan.faults self.new.plan.faults) }
        ensures calm { OnOk result (self.new.plan.faults ≡ self.old.plan.faults) }
        ensures later { self.old.plan.faults ≤ self.new.plan.faults }

        // It fails exactly where the plan says so, and gives as many bytes as there are and have room.
        ensures answer { MatchBool (fails_now self.old.plan) (IsErr result)
            (result ≡ Ok (taken_count self.old (length buf.old))) }
        ensures state { self.new ≡ (if fails_now self.old.plan then source_failed self.old
            else source_after self.old (taken_count self.old (length buf.old))) }
        ensures rest { IfOk result (λ n. drop n buf.new ≡ drop n buf.old) }
        ensures unread { OnErr result (buf.new ≡ buf.old) }
    {
        if self.plan.fails() {
            return Err(Failed);
        }
        let left = &self.bytes[self.at..];
        let n = left.len().min(buf.len());
        buf[..n].copy_from_slice(&left[..n]);
        self.at += n;
        Ok(n)
    }
}
