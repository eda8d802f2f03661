//! The list of the calls of a disk in memory.
ghost use Rattle.std.specs.Prelude.{◌≡◌, ◌<◌, ◌≤◌, ◌++◌, ◌∷◌, [], None, Some, length, OnOk, OnErr};
ghost use Rattle.outside_memory.specs.declared.call.Call.TheVariants.{Write};
ghost use Rattle.outside_memory.specs.CallList.{start_of};

use super::call::{Call, Piece};
use std::alloc::{AllocError, Global};
use std::marker::Model;
use std::mem;

/// The calls in order, with the bytes before the first as soon as there is room for a call, and memory that is ready
/// for the next one.
#[derive(Drop)]
pub(crate) struct CallList {
    start: Option<Piece>,
    calls: Vec<Call>,
    spare: Vec<u8>,
}

impl Model for CallList {
    ghost use Rattle.std.specs.Prelude.{vec_capacity, length};
    ghost use Rattle.outside_memory.specs.CallList.{ListState, list_room};

    ghost Value = { ListState };

    ghost view = { λ l. record {
      start = l.start;
      calls = l.calls.items;
      room = list_room l.start (length l.calls.items) (vec_capacity l.calls) (vec_capacity l.spare);
    } };
}

impl CallList {
    /// Returns a list of no call.
    pub(crate) fn new(alloc: Global) -> CallList
        ensures { result ≡ record { start = None; calls = []; room = 0 } }
    {
        CallList {
            start: None,
            calls: Vec::new(alloc),
            spare: Vec::new(alloc),
        }
    }

    /// Takes memory for one more call, with a piece of at most `len` bytes. `bytes` are those of the disk.
    ///
    /// # Errors
    /// `AllocError` if memory runs out.
    pub(crate) fn make_room(&mut self, bytes: &[u8], len: usize) -> Result<(), AllocError>
        ensures ok { OnOk result (len < self.new.room) }
        ensures only { OnErr result (self.old.room ≤ len) }
        ensures calls { self.new.calls ≡ self.old.calls }
        ensures start { start_of self.new.start bytes.now ≡ start_of self.old.start bytes.now }
        ensures kept { OnOk result (self.new.start ≡ Some (start_of self.old.start bytes.now)) }
    {
        if self.start.is_none() {
            let start = Vec::from_slice(*self.calls.allocator(), bytes)?;
            self.start = Some(Piece::new(start));
        }
        self.calls.reserve(1)?;
        self.spare.clear();
        self.spare.reserve(len)
    }

    /// Appends a write of the piece to the others.
    pub(crate) fn push_write(&mut self, at: u64, piece: &[u8])
        requires { length piece.now < self.old.room }
        ensures calls { self.new.calls ≡ self.old.calls ++ Write at piece.now ∷ [] }
        ensures start { self.new.start ≡ self.old.start }
    {
        self.spare.clear();
        if self.spare.extend_from_slice(piece).is_err() {
            unreachable!();
        }
        let alloc = *self.spare.allocator();
        let bytes = mem::replace(&mut self.spare, Vec::new(alloc));
        let call = Call::Write {
            at,
            piece: Piece::new(bytes),
        };
        if self.calls.push(call).is_err() {
            unreachable!();
        }
    }

    /// Appends a call to the others.
    pub(crate) fn push(&mut self, call: Call)
        requires { 0 < self.old.room }
        ensures calls { self.new.calls ≡ self.old.calls ++ call ∷ [] }
        ensures start { self.new.start ≡ self.old.start }
    {
        if self.calls.push(call).is_err() {
            unreachable!();
        }
    }

    /// Returns the calls, in order.
    pub(crate) fn as_slice(&self) -> &[Call]
        ensures { result.now ≡ self.now.calls }
    {
        self.calls.as_slice()
    }
}
