//! Requests from bytes that come in any pieces.

ghost use Rattle.std.specs.Prelude.{◌≡◌, ◌+◌, ◌-◌, ◌<◌, ◌≤◌, ◌^◌, IsOk, None, OnErr, OnOk, length};
ghost use Rattle.opmsg_model.specs.Outline.{message_outline, outline};
ghost use Rattle.opmsg_frames.specs.Conversations.{IsStep, new_framer, refused, took};
ghost use Rattle.opmsg_frames.specs.Framers.{IsNext};

use crate::fault::{FrameFault, Malformed};
use crate::message::read_prefix;
use crate::outline::{Outline, outline_of};
use crate::request::Request;
use bson_values::Memory;
use bytes::BytesMut;
use std::alloc::Global;
use std::marker::Model;

/// Where a request is returned and the room was wider than this, it is released.
const WIDE: usize = 1_048_576;

/// Room is released only where at most this many bytes are left, since they are copied.
const FEW: usize = 65_536;

/// The bytes of a connection that are not yet returned as requests, and the offset of the first of them.
///
/// Once a request was returned and at most 65,536 bytes are left, the framer holds no block in which it ever had more than 1,048,576 bytes, those left and
/// spare ones together: what is left is copied into a block of its size, and the wide one is released with the last request that came in it. (The block
/// itself may be a few times as large: what was returned before is also in it, and it grows by doubling.) So at most 65,536 bytes are copied for more than
/// 900,000 for which room was made. Where there is no memory for the copy, the wide block is kept. No contract says any of this, except that `let_go` changes
/// nothing else.
#[derive(Drop)]
pub struct Framer {
    alloc: Global,
    bytes: BytesMut,
    // The most bytes, left and spare, since `bytes` was last allocated: returning a request makes them fewer, but the block beneath stays whole.
    widest: usize,
    offset: u64,
    // The fault that was returned.
    fault: Option<Malformed>,
}

impl Model for Framer {
    ghost use Rattle.opmsg_frames.specs.FramerViews.{FramerView, framer_code};

    ghost Value = { FramerView };

    ghost coded = { framer_code };

    ghost use Rattle.std.specs.Prelude.{◌+◌, ◌<◌, ◌^◌, length};
    ghost use Rattle.std.specs.Option.{option_map};
    ghost use Rattle.opmsg_frames.specs.Outlines.{fault_view};

    ghost view = { λ f. record { bytes = f.bytes.items; offset = f.offset; fault = option_map (λ fault. fault_view fault) f.fault; room = f.bytes.spare } };

    ghost invariant = { λ f. f.offset + length f.bytes.items < 2 ^ 64 };
}

impl Framer {
    /// Returns a framer without bytes.
    pub fn new(alloc: Global) -> Framer
        ensures { result ≡ new_framer }
    {
        Framer {
            alloc,
            bytes: BytesMut::new(alloc),
            widest: 0,
            offset: 0,
            fault: None,
        }
    }

    /// Reserves room for `count` more bytes. Returns `Memory` if memory runs out, and then changes nothing.
    pub fn reserve(&mut self, count: usize) -> Result<(), Memory>
        ensures room { OnOk result (count ≤ self.new.room) }
        ensures bytes { self.new.bytes ≡ self.old.bytes }
        ensures offset { self.new.offset ≡ self.old.offset }
        ensures fault { self.new.fault ≡ self.old.fault }
    {
        self.bytes.reserve(count)?;
        self.widest = self.widest.max(self.bytes.capacity());
        Ok(())
    }

    /// Takes the next bytes. Returns `Memory` if memory runs out, and then changes nothing; where there is room it does not fail, below 2^64 - 1 bytes in
    /// all.
    pub fn feed(&mut self, piece: &[u8]) -> Result<(), Memory>
        ensures taken { OnOk result (IsStep self.old (took piece.now) self.new) }
        ensures refused { OnErr result (IsStep self.old refused self.new) }
        ensures room { length piece.now ≤ self.old.room → self.old.offset + length self.old.bytes + length piece.now < 2 ^ 64 - 1 → IsOk result }
    {
        let end = self.offset + self.bytes.len() as u64;
        if piece.len() as u64 >= u64::MAX - end {
            return Err(Memory);
        }
        self.bytes.extend_from_slice(piece)?;
        self.widest = self.widest.max(self.bytes.capacity());
        Ok(())
    }

    /// Returns the bytes that are not yet returned as requests.
    pub fn rest(&self) -> &[u8]
        ensures { result.now ≡ self.now.bytes }
    {
        self.bytes.as_slice()
    }

    /// Returns the next request, or none if its bytes are incomplete.
    ///
    /// # Errors
    /// - `FrameFault::Malformed` exactly if the bytes do not begin with a message; each later call returns it again.
    /// - `FrameFault::Memory` if memory runs out; nothing is changed.
    pub fn next(&mut self) -> Result<Option<Request>, FrameFault>
        ensures { IsNext self.old self.new result }
    {
        let offset = self.offset;
        if let Some(fault) = self.fault {
            return Err(FrameFault::Malformed {
                fault,
                place: offset,
            });
        }
        match outline_of(self.bytes.as_slice()) {
            Outline::Partial => Ok(None),
            Outline::Faulty(fault) => {
                self.fault = Some(fault);
                Err(FrameFault::Malformed {
                    fault,
                    place: offset,
                })
            }
            Outline::Message(count) => self.take_message(count),
        }
    }

    /// Returns the request that the first `count` bytes are, and moves these bytes into it.
    fn take_message(&mut self, count: usize) -> Result<Option<Request>, FrameFault>
        requires whole { outline self.old.bytes ≡ message_outline count }
        requires fault { self.old.fault ≡ None }
        ensures { IsNext self.old self.new result }
    {
        let Ok(content) = read_prefix(self.alloc, self.bytes.as_slice(), count) else {
            return Err(FrameFault::Memory);
        };
        let Ok(bytes) = self.bytes.freeze_to(count) else {
            return Err(FrameFault::Memory);
        };
        self.offset += count as u64;
        self.let_go();
        Ok(Some(content.with_bytes(bytes)))
    }

    /// Releases a wide block where few bytes are left. Where there is no memory for their copy, nothing changes.
    fn let_go(&mut self)
        ensures bytes { self.new.bytes ≡ self.old.bytes }
        ensures offset { self.new.offset ≡ self.old.offset }
        ensures fault { self.new.fault ≡ self.old.fault }
    {
        if self.widest <= WIDE || self.bytes.len() > FEW {
            return;
        }
        if let Ok(bytes) = BytesMut::copy_from_slice(self.alloc, self.bytes.as_slice()) {
            self.widest = bytes.capacity();
            self.bytes = bytes;
        }
    }
}
