//! How many steps a node took.

ghost use Rattle.std.specs.Prelude.{◌≡◌, ◌+◌, ◌<◌, ◌^◌, false, true, IfErr, OnErr, OnOk};
ghost use Rattle.node_model.specs.Lacks.{last_time};
ghost use Rattle.node_traits.specs.Effects.{is_at_end};
ghost use Rattle.node_traits.specs.declared.outputs.NotTaken.TheVariants.{Steps};

use crate::outputs::NotTaken;
use cluster_base::Time;
use std::marker::Model;

/// The count of steps at the last one.
const LAST_COUNT: u64 = (1 << 56) - 1;

/// From this time on no step is taken.
const LAST_TIME: u64 = 0xfe00_0000_0000_0000;

/// How many steps a node has taken, below 2^56.
#[derive(Drop)]
pub struct StepCount {
    steps: u64,
}

impl Model for StepCount {
    ghost use Rattle.std.specs.Prelude.{ℕ, ◌<◌, ◌^◌};

    ghost Value = { ℕ };

    ghost view = { λ c. c.steps };

    ghost invariant = { λ c. c.steps < 2 ^ 56 };
}

impl StepCount {
    /// Returns the count of no steps.
    pub fn new() -> StepCount
        ensures { result ≡ 0 }
    {
        StepCount { steps: 0 }
    }

    /// Returns the count.
    pub fn get(&self) -> u64
        ensures { result ≡ self.now }
    {
        self.steps
    }

    /// Goes on with the count of a node that stopped.
    pub fn keep(&mut self, before: &StepCount)
        ensures { self.new ≡ before.now }
    {
        self.steps = before.steps;
    }

    /// Counts one more step, of a node at its own time, on an input with the other.
    ///
    /// # Errors
    /// `NotTaken::Steps` exactly at the last step: where the count, or one of the times, is at its end. Then nothing is counted.
    pub fn count(&mut self, own: Time, brought: Time) -> Result<(), NotTaken>
        ensures counted { OnOk result (self.new ≡ self.old + 1) }
        ensures goes { OnOk result (is_at_end self.old own.0 brought.0 ≡ false) }
        ensures early { OnOk result ((own.0 < last_time) × (brought.0 < last_time)) }
        ensures err { OnErr result (self.new ≡ self.old) }
        ensures last { IfErr result (λ e. (e ≡ Steps) × (is_at_end self.old own.0 brought.0 ≡ true)) }
        ensures below { self.new < 2 ^ 56 }
    {
        if self.steps >= LAST_COUNT || own.0 >= LAST_TIME || brought.0 >= LAST_TIME {
            return Err(NotTaken::Steps);
        }
        self.steps += 1;
        Ok(())
    }
}
