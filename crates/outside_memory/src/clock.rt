//! Clocks in memory: one that always gives one moment, and one that gives a list of moments.
ghost use Rattle.std.specs.Prelude.{◌≡◌};
ghost use Rattle.outside_memory.specs.Clocks.{IsOfList};

use outside::clock::Clock;
use std::marker::Model;
use std::sync::atomic::{AtomicUsize, Ordering};

/// A clock that always gives one moment, in milliseconds since 1970.
#[derive(Clone, Copy, Debug, PartialEq, Eq)]
pub struct FixedClock(pub u64);

impl Clock for FixedClock {
    ghost gives = { λ c n. n ≡ c.0 };

    fn now(&self) -> u64
        ensures { result ≡ self.now.0 }
    {
        self.0
    }
}

/// A clock that gives the moments of a list, in milliseconds since 1970, one at each call, in order. The last one stays; an empty list gives 0.
#[derive(Drop)]
pub struct ListClock {
    moments: Vec<u64>,
    calls: AtomicUsize,
}

impl Model for ListClock {
    ghost use Rattle.std.specs.Prelude.{ℕ, List};

    ghost Value = { List ℕ };

    ghost view = { λ c. c.moments.items };
}

impl ListClock {
    /// Returns a clock that gives these moments.
    pub fn new(moments: Vec<u64>) -> ListClock
        ensures { result ≡ moments.items }
    {
        ListClock {
            moments,
            calls: AtomicUsize::new(0),
        }
    }
}

/// Returns the moment in this place, or the last, or 0 where there is none.
fn moment_at(moments: &[u64], place: usize) -> u64
    ensures { IsOfList moments.now result }
{
    match moments.get(place) {
        Some(moment) => *moment,
        None => match moments.last() {
            Some(last) => *last,
            None => 0,
        },
    }
}

impl Clock for ListClock {
    ghost gives = { λ c n. IsOfList c n };

    fn now(&self) -> u64
        ensures { IsOfList self.now result }
    {
        moment_at(&self.moments, self.calls.fetch_add(1, Ordering::SeqCst))
    }
}
