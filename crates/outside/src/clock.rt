//! The wall clock.
ghost use Rattle.std.specs.Prelude.{ℕ};

/// A wall clock.
pub trait Clock {
    // The moments that the clock may give.
    ghost gives: { Self → ℕ → Type 0 };

    /// Returns the moment in milliseconds since 1970.
    fn now(&self) -> u64
        ensures { gives self.now result };
}
