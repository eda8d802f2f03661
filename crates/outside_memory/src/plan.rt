//! The plan of failing calls that a memory form follows.
ghost use Rattle.std.specs.Prelude.{◌≡◌, ◌≤◌, if◌then◌else◌};
ghost use Rattle.outside.specs.Causes.{next_count};
ghost use Rattle.outside_memory.specs.FaultPlan.{fresh_plan, fails_now, after_call, after_fault};

use std::marker::Model;

/// The numbers of the calls that fail, from 0, with the counts of the calls and of the faults. A count stays at
/// its last value, 2^64 - 1.
#[derive(Drop)]
pub(crate) struct FaultPlan {
    failing: Vec<u64>,
    calls: u64,
    faults: u64,
}

impl Model for FaultPlan {
    ghost use Rattle.outside_memory.specs.FaultPlan.{PlanState};

    ghost Value = { PlanState };

    ghost view = { λ p. record { failing = p.failing.items; calls = p.calls; faults = p.faults } };
}

impl FaultPlan {
    /// Returns the plan before the first call.
    pub(crate) fn new(failing: Vec<u64>) -> FaultPlan
        ensures { result ≡ fresh_plan failing.items }
    {
        FaultPlan {
            failing,
            calls: 0,
            faults: 0,
        }
    }

    /// Counts one call, and says whether it fails, which is a fault.
    pub(crate) fn fails(&mut self) -> bool
        ensures answer { result ≡ fails_now self.old }
        ensures state { self.new ≡ (if result then after_fault self.old else after_call self.old) }
        ensures later { self.old.faults ≤ self.new.faults }
    {
        let fails = self.failing.contains(&self.calls);
        self.calls = self.calls.saturating_add(1);
        if fails {
            self.faults = self.faults.saturating_add(1);
        }
        fails
    }

    /// Counts a fault of the call that was counted last.
    pub(crate) fn fault(&mut self)
        ensures state { self.new ≡ record self.old { faults = next_count self.old.faults } }
        ensures later { self.old.faults ≤ self.new.faults }
    {
        self.faults = self.faults.saturating_add(1);
    }

    /// Returns how many faults there were, at most 2^64 - 1.
    pub(crate) fn faults(&self) -> u64
        ensures { result ≡ self.now.faults }
    {
        self.faults
    }
}
