//! Versions of chunks, of what a shard has, and of whole tables (MongoDB manual, "Sharded Cluster Balancer").

ghost use Rattle.std.specs.Prelude.{◌≡◌};
ghost use Rattle.chunk_model.specs.Versions.{agrees, greater, is_later, is_greater, no_chunk};
ghost use Rattle.chunk_table.specs.Meanings.{version_view};

/// How much of its collection's changes a chunk has seen.
#[derive(Clone, Copy, Debug, PartialEq, Eq)]
pub struct Version {
    /// Which of the collections of the name it is of, from 1 on.
    pub epoch: u64,
    /// How many moves, from 1 on; 0 for a shard that has no chunk.
    pub major: u64,
    /// How many splits since that move.
    pub minor: u64,
}

impl Version {
    /// Below every version of a chunk of the collection.
    pub(crate) fn no_chunk(epoch: u64) -> Version
        ensures { version_view result ≡ no_chunk epoch }
    {
        Version {
            epoch,
            major: 0,
            minor: 0,
        }
    }

    /// Returns whether both give each shard the same keys.
    pub(crate) fn agrees(self, other: Version) -> bool
        ensures { result ≡ agrees (version_view self) (version_view other) }
    {
        self.epoch == other.epoch && self.major == other.major
    }

    /// Returns whether this one comes after the other: a later collection of the name, or more moves.
    pub(crate) fn is_later(self, other: Version) -> bool
        ensures { result ≡ is_later (version_view self) (version_view other) }
    {
        self.epoch > other.epoch || (self.epoch == other.epoch && self.major > other.major)
    }

    /// Returns whether this one is the greater.
    fn is_greater(self, other: Version) -> bool
        ensures { result ≡ is_greater (version_view self) (version_view other) }
    {
        self.is_later(other) || (self.agrees(other) && self.minor > other.minor)
    }

    /// Returns the greater of the two.
    pub(crate) fn greater(self, other: Version) -> Version
        ensures { version_view result ≡ greater (version_view self) (version_view other) }
    {
        if other.is_greater(self) { other } else { self }
    }
}
