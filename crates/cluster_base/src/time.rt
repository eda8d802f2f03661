//! Cluster times, and the times that belong to a moment of a clock.
ghost use Rattle.std.specs.Prelude.{◌≡◌};
ghost use Rattle.base_model.specs.Times.{time_of_moment, retained_at};

/// A cluster time (MongoDB manual, "Timestamps"): seconds since 1970 in the high 32 bits, and in the low 32 bits
/// a counter within that second.
#[derive(Clone, Copy, Debug, PartialEq, Eq, PartialOrd, Ord, Hash)]
pub struct Time(pub u64);

/// The last second that a moment gives. Later moments give its time, so that a time always has room to grow.
const LAST_SECOND: u64 = 1 << 31;

/// How many seconds of history are kept.
const KEPT_SECONDS: u64 = 300;

/// Returns the least time of the second of `moment`, which is in milliseconds since 1970; of the second 2^31 at most.
pub fn moment_time(moment: u64) -> Time
    ensures { result.0 ≡ time_of_moment moment }
{
    Time((moment / 1000).min(LAST_SECOND) << 32)
}

/// Returns the oldest time that can still be read at `moment`, in milliseconds since 1970: 300 seconds before the time of
/// that moment, and never below 0.
pub fn retained(moment: u64) -> Time
    ensures { result.0 ≡ retained_at moment }
{
    Time(moment_time(moment).0.saturating_sub(KEPT_SECONDS << 32))
}
