//! Bytes that arrive in pieces.
ghost use Rattle.std.specs.Prelude.{false};

use outside::streams::{Failed, Sink, Source};
use outside::witness::Witness;
use outside_memory::{MemDisk, MemSink, MemSource};

/// The greatest number of bytes that arrive at the first take, and at each later one.
#[derive(Clone, Copy, Debug, PartialEq, Eq)]
pub struct Cutting {
    pub first: usize,
    pub later: usize,
}

impl Cutting {
    /// All bytes at once, as far as there is room.
    pub fn none() -> Cutting {
        Cutting {
            first: usize::MAX,
            later: usize::MAX,
        }
    }

    /// This number of bytes, and then all.
    pub fn at(first: usize) -> Cutting {
        Cutting {
            first,
            later: usize::MAX,
        }
    }

    /// Byte by byte.
    pub fn bytes() -> Cutting {
        Cutting { first: 1, later: 1 }
    }
}

/// A source that gives its bytes in such pieces.
#[derive(Drop)]
pub struct PieceSource {
    pub source: MemSource,
    pub cutting: Cutting,
}

impl Source for PieceSource {
    ghost tells = { false };

    ghost left = { λ s. s.source.left };

    ghost fault_count = { λ s. s.source.plan.faults };

    fn take(&mut self, buf: &mut [u8]) -> Result<usize, Failed> {
        let room = self.cutting.first.min(buf.len());
        self.cutting.first = self.cutting.later;
        self.source.take(&mut buf[..room])
    }
}

/// A sink that takes at most this number of bytes with each write, and at least one.
#[derive(Drop)]
pub struct NarrowSink {
    pub sink: MemSink,
    pub most: usize,
}

impl Sink for NarrowSink {
    ghost tells = { false };

    ghost held = { λ s. s.sink.held };

    ghost fault_count = { λ s. s.sink.plan.faults };

    fn put(&mut self, piece: &[u8]) -> Result<usize, Failed> {
        let count = piece.len().min(self.most.max(1));
        self.sink.put(&piece[..count])
    }
}

impl Witness<MemDisk> for NarrowSink {
    fn note(&mut self, disk: &MemDisk) {
        self.sink.note(disk);
    }
}
