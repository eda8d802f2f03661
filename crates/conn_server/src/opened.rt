//! What a link was when it was opened, for proofs alone.

ghost use Rattle.std.specs.Prelude.{◌≡◌};

use std::snapshot::Snapshot;

/// What shows a value as it was. Types that go to threads name it by a parameter: that they may is not found where they name a snapshot.
pub(crate) trait Opened<S>: Drop {
    // The value as it was.
    ghost shown: { Self → S };

    /// Shows a value as it is.
    fn of(value: &S) -> Self
        ensures { shown result ≡ value.now };

    /// Returns a snapshot of the value as it was.
    fn into_snapshot(self) -> Snapshot<S>
        ensures { result.value ≡ shown self };
}

impl<S> Opened<S> for Snapshot<S> {
    ghost shown = { λ s. s.value };

    fn of(value: &S) -> Snapshot<S> {
        Snapshot::of(value)
    }

    fn into_snapshot(self) -> Snapshot<S> {
        self
    }
}
