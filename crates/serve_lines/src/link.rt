//! Links whose clients send when it is their turn.

ghost use Rattle.std.specs.Prelude.{refl, ◌≡◌, ◌≤◌, [], length, false, OnOk, OnErr};
ghost use Rattle.outside.specs.Causes.{Rose, next_count};

use crate::client::Part;
use crate::turns::Turns;
use outside::streams::{Acceptor, Failed, Link, Sink, Source, Stream};
use outside::witness::{DiskLink, SeenDisk};
use outside_memory::{MemDisk, MemSink, MemSource};
use std::alloc::Global;
use std::collections::VecDeque;
use std::sync::Wait;

/// Takes bytes of a part, and returns their number, which is 0 at its end.
fn take_of(part: &mut MemSource, buf: &mut [u8]) -> usize
    ensures count { result ≤ length buf.old }
    ensures len { length buf.new ≡ length buf.old }
{
    match part.take(buf) {
        Ok(count) => count,
        Err(_) => 0,
    }
}

/// A link in memory, whose client sends each part when it is its turn.
#[derive(Drop)]
pub struct TurnLink<'a, R: Wait> {
    rt: &'a R,
    turns: &'a Turns,
    parts: VecDeque<Part>,
    part: MemSource,
    sink: MemSink,
    closed: bool,
}

impl<'a, R: Wait> TurnLink<'a, R> {
    /// Returns a link whose client sends these parts.
    pub fn new(rt: &'a R, alloc: Global, turns: &'a Turns, parts: Vec<Part>) -> TurnLink<'a, R> {
        TurnLink {
            rt,
            turns,
            parts: VecDeque::from_vec(parts),
            part: MemSource::new(Vec::new(alloc), Vec::new(alloc)),
            sink: MemSink::new(Vec::new(alloc)),
            closed: false,
        }
    }

    /// Returns what was written to it.
    pub fn bytes(&self) -> &[u8] {
        self.sink.bytes()
    }

    /// Begins the next part, if there is one, when it is its turn.
    fn begin(&mut self)
        ensures { self.new.sink ≡ self.old.sink }
    {
        if let Some(part) = self.parts.pop_front() {
            let Part { after, bytes } = part;
            self.turns.wait(self.rt, after);
            let alloc = *bytes.allocator();
            self.part = MemSource::new(bytes, Vec::new(alloc));
        }
    }
}

impl<R: Wait> Source for TurnLink<'_, R> {
    ghost tells = { false };

    ghost left = { λ _. [] };

    ghost fault_count = { λ _. 0 };

    ghost beside = { λ l. ([], l.sink.plan.faults) };

    fn take(&mut self, buf: &mut [u8]) -> Result<usize, Failed> {
        let count = take_of(&mut self.part, buf);
        if count > 0 {
            return Ok(count);
        }
        self.begin();
        Ok(take_of(&mut self.part, buf))
    }
}

impl<R: Wait> Sink for TurnLink<'_, R> {
    ghost tells = { false };

    ghost held = { λ _. [] };

    ghost fault_count = { λ l. l.sink.plan.faults };

    ghost beside = { λ _. ([], 0) };

    fn put(&mut self, piece: &[u8]) -> Result<usize, Failed> {
        let put = self.sink.put(piece);
        if put.is_ok() {
            self.turns.count(self.rt);
        }
        put
    }
}

impl<R: Wait> Stream for TurnLink<'_, R> {
    ghost take_is_apart = { λ l. refl };

    ghost take_keeps_notes = { λ l. refl };

    ghost put_is_apart = { λ l. refl };
}

impl<R: Wait> Link for TurnLink<'_, R> {
    ghost is_closed = { λ l. l.closed };

    fn close(&mut self) {
        self.closed = true;
    }
}

impl<R: Wait> DiskLink<MemDisk> for TurnLink<'_, R> {
    fn note(&mut self, _seen: &SeenDisk<MemDisk>) {}
}

/// An acceptor of these links, in order. To accept one more is a fault, and so is to listen where it is refused.
#[derive(Drop)]
pub struct TurnAcceptor<'a, R: Wait> {
    links: VecDeque<TurnLink<'a, R>>,
    is_refused: bool,
    faults: u64,
}

impl<'a, R: Wait> TurnAcceptor<'a, R> {
    /// Returns an acceptor of these links, that may listen or not.
    pub fn new(links: Vec<TurnLink<'a, R>>, is_refused: bool) -> TurnAcceptor<'a, R> {
        TurnAcceptor {
            links: VecDeque::from_vec(links),
            is_refused,
            faults: 0,
        }
    }
}

impl<'a, R: Wait> Acceptor for TurnAcceptor<'a, R> {
    type Link = TurnLink<'a, R>;

    ghost tells = { false };

    ghost left = { λ _. [] };

    ghost fault_count = { λ a. a.faults };

    fn listen(&mut self, _port: u16) -> Result<(), Failed>
        ensures cause { OnErr result (Rose self.old.faults self.new.faults) }
        ensures calm { OnOk result (self.new.faults ≡ self.old.faults) }
        ensures later { self.old.faults ≤ self.new.faults }
        ensures fault { OnErr result (self.new.faults ≡ next_count self.old.faults) }
    {
        if self.is_refused {
            self.faults = self.faults.saturating_add(1);
            return Err(Failed);
        }
        Ok(())
    }

    fn next(&mut self) -> Result<Option<TurnLink<'a, R>>, Failed> {
        match self.links.pop_front() {
            Some(link) => Ok(Some(link)),
            None => {
                self.faults = self.faults.saturating_add(1);
                Err(Failed)
            }
        }
    }
}
