//! Mailboxes by numbers.

ghost use Rattle.std.specs.Prelude.{◌≡◌, IfOk, vec_len};

use bson_values::Memory;
use crossbeam_channel::{Receiver, Sender, TryRecvError, bounded};
use std::alloc::Global;
use std::sync::Wait;
use std::sync::atomic::{AtomicU64, Ordering};

/// How many letters a box holds.
const ROOM: usize = 1024;

/// What became of a letter.
#[derive(Clone, Copy, Debug, PartialEq, Eq)]
pub enum Posted {
    /// It is in the box.
    Kept,
    /// The box was full, there is none with this number, or memory ran out for it: the letter is lost.
    Dropped,
}

/// What waits in a box.
#[derive(Drop)]
pub enum Waiting<T> {
    /// A letter, which was taken out.
    Letter(T),
    /// The end mark, which was taken out; or there is no such box.
    End,
    /// Nothing.
    Nothing,
}

/// A box of letters. `None` is the mark at its end.
#[derive(Drop)]
struct Mailbox<T: Drop> {
    to: Sender<Option<T>>,
    from: Receiver<Option<T>>,
}

/// Boxes with numbers from 0, which any threads post letters to and take letters from.
#[derive(Drop)]
pub struct Routes<T: Drop> {
    boxes: Vec<Mailbox<T>>,
    dropped: AtomicU64,
}

impl<T: Drop> Routes<T> {
    /// Returns so many empty boxes, or `Memory` if memory runs out.
    pub fn new(alloc: Global, count: u32) -> Result<Routes<T>, Memory> {
        let mut boxes = Vec::new(alloc);
        for _ in 0..count {
            let (to, from) = bounded(alloc, ROOM)?;
            boxes.push(Mailbox { to, from })?;
        }
        Ok(Routes {
            boxes,
            dropped: AtomicU64::new(0),
        })
    }

    /// Puts a letter into a box, if it has room. It does not wait for room.
    pub fn send<R: Wait>(&self, rt: &R, to: usize, letter: T) -> Posted {
        if let Some(mailbox) = self.boxes.get(to) {
            if mailbox.to.try_send(rt, Some(letter)).is_ok() {
                return Posted::Kept;
            }
        }
        self.dropped.fetch_add(1, Ordering::SeqCst);
        Posted::Dropped
    }

    /// Puts a letter into a box, and waits until it has room.
    pub fn post<R: Wait>(&self, rt: &R, to: usize, letter: T) -> Posted {
        if let Some(mailbox) = self.boxes.get(to) {
            if mailbox.to.send(rt, Some(letter)).is_ok() {
                return Posted::Kept;
            }
        }
        self.dropped.fetch_add(1, Ordering::SeqCst);
        Posted::Dropped
    }

    /// Takes the next letter out of a box, and waits for one; `None` at an end mark, or if there is no such box.
    pub fn take<R: Wait>(&self, rt: &R, me: usize) -> Option<T> {
        let mailbox = self.boxes.get(me)?;
        match mailbox.from.recv(rt) {
            Ok(letter) => letter,
            Err(_) => None,
        }
    }

    /// Takes the next letter out of a box, if one waits there. It does not wait for one.
    pub fn try_take<R: Wait>(&self, rt: &R, me: usize) -> Waiting<T> {
        let Some(mailbox) = self.boxes.get(me) else {
            return Waiting::End;
        };
        match mailbox.from.try_recv(rt) {
            Ok(Some(letter)) => Waiting::Letter(letter),
            Ok(None) | Err(TryRecvError::Disconnected) => Waiting::End,
            Err(TryRecvError::Empty) => Waiting::Nothing,
        }
    }

    /// Puts one end mark into each box, and waits for room.
    pub fn close<R: Wait>(&self, rt: &R) {
        for mailbox in &self.boxes {
            let _ = mailbox.to.send(rt, None);
        }
    }

    /// Returns how many letters were dropped.
    pub fn dropped(&self) -> u64 {
        self.dropped.load(Ordering::SeqCst)
    }
}
