//! The calls of a disk in memory.
ghost use Rattle.std.specs.Prelude.{◌≡◌};

use std::marker::Model;

/// Bytes that were written.
#[derive(Debug, Drop)]
pub struct Piece {
    bytes: Vec<u8>,
}

impl Model for Piece {
    ghost use Rattle.std.specs.Prelude.{List, ℕ};

    ghost Value = { List ℕ };

    ghost view = { λ p. p.bytes.items };
}

impl Piece {
    /// Returns a piece of these bytes.
    pub(crate) fn new(bytes: Vec<u8>) -> Piece
        ensures { result ≡ bytes.items }
    {
        Piece { bytes }
    }

    /// Returns the bytes.
    pub fn as_slice(&self) -> &[u8]
        ensures { result.now ≡ self.now }
    {
        self.bytes.as_slice()
    }
}

/// A call that changed a disk, or made its bytes stay.
#[derive(Debug, Drop)]
pub enum Call {
    /// The piece was written from the offset `at` on.
    Write { at: u64, piece: Piece },
    /// The disk was cut to `len` bytes, if it was longer.
    Cut { len: u64 },
    /// What was written and cut was made to stay.
    Sync,
}
