//! A client's link in memory.
ghost use Rattle.std.specs.Prelude.{refl, ◌≡◌, ◌+◌, ◌<◌, ◌≤◌, ◌++◌, ◌∷◌, ◌⊎◌, [], length, take, drop, true, false, IsTrue, IsErr, Ok, IfOk, OnOk, OnErr, if◌then◌else◌};
ghost use Rattle.std.specs.Bool.{MatchBool};
ghost use Rattle.outside.specs.Causes.{Rose};
ghost use Rattle.outside_memory.specs.FaultPlan.{fresh_plan, fails_now, after_call, after_fault};
ghost use Rattle.outside_memory.specs.Memory.{fresh_sink, link_notes, sight_note, taken_count, source_after, source_failed};

use super::disk::MemDisk;
use super::sink::MemSink;
use super::source::MemSource;
use ghost_list::GhostList;
use outside::streams::{Failed, Link, Sink, Source, Stream};
use outside::witness::{DiskLink, SeenDisk};
use std::marker::Model;

/// A link whose bytes come from memory, and that holds in memory what is put into it.
#[derive(Drop)]
pub struct MemLink {
    source: MemSource,
    sink: MemSink,
    closed: bool,
    // The disks that were noted, as they were seen, each with the length of what the link held.
    seen: GhostList<SeenDisk<MemDisk>, usize>,
}

impl Model for MemLink {
    ghost use Rattle.outside_memory.specs.Memory.{LinkState};

    ghost Value = { LinkState };

    ghost view = { λ l. record { source = l.source; sink = l.sink; closed = l.closed; seen = l.seen.items } };
}

impl MemLink {
    /// Returns a link of these bytes. The lists hold the numbers, from 0, of the calls of `take` and of `put` that fail. The
    /// allocator of `failing_puts` is the one for what is put.
    pub fn new(bytes: Vec<u8>, failing_takes: Vec<u64>, failing_puts: Vec<u64>) -> MemLink
        ensures source { result.source ≡ record { left = bytes.items; plan = fresh_plan failing_takes.items } }
        ensures sink { result.sink ≡ fresh_sink failing_puts.items }
        ensures open { result.closed ≡ false }
        ensures seen { result.seen ≡ [] }
    {
        MemLink {
            source: MemSource::new(bytes, failing_takes),
            sink: MemSink::new(failing_puts),
            closed: false,
            seen: GhostList::new(),
        }
    }

    /// Returns the bytes that were put.
    pub fn bytes(&self) -> &[u8]
        ensures { result.now ≡ self.now.sink.held }
    {
        self.sink.bytes()
    }
}

impl Source for MemLink {
    ghost tells = { true };

    ghost left = { λ l. l.source.left };

    ghost fault_count = { λ l. l.source.plan.faults };

    ghost beside = { λ l. (l.sink.held, l.sink.plan.faults) };

    ghost beside_notes = { link_notes };

    fn take(&mut self, buf: &mut [u8]) -> Result<usize, Failed>
        ensures count { IfOk result (λ n. n ≤ length buf.old) }
        ensures len { length buf.new ≡ length buf.old }
        ensures took { IfOk result (λ n. self.old.source.left ≡ take n buf.new ++ self.new.source.left) }
        ensures at_end { IfOk result (λ n. 0 < length buf.old → n ≡ 0 → self.new.source.left ≡ []) }
        ensures nothing { OnErr result (self.old.source.left ≡ self.new.source.left) }
        ensures cause { OnErr result (Rose self.old.source.plan.faults self.new.source.plan.faults) }
        ensures calm { OnOk result (self.new.source.plan.faults ≡ self.old.source.plan.faults) }
        ensures later { self.old.source.plan.faults ≤ self.new.source.plan.faults }

        // It does what its source does, and leaves its sink alone.
        ensures answer { MatchBool (fails_now self.old.source.plan) (IsErr result)
            (result ≡ Ok (taken_count self.old.source (length buf.old))) }
        ensures state { self.new.source ≡ (if fails_now self.old.source.plan then source_failed self.old.source
            else source_after self.old.source (taken_count self.old.source (length buf.old))) }
        ensures rest { IfOk result (λ n. drop n buf.new ≡ drop n buf.old) }
        ensures unread { OnErr result (buf.new ≡ buf.old) }
        ensures sink { self.new.sink ≡ self.old.sink }
        ensures seen { self.new.seen ≡ self.old.seen }
    {
        self.source.take(buf)
    }
}

impl Sink for MemLink {
    ghost tells = { true };

    ghost held = { λ l. l.sink.held };

    ghost noted = { link_notes };

    ghost fault_count = { λ l. l.sink.plan.faults };

    ghost beside = { λ l. (l.source.left, l.source.plan.faults) };

    fn put(&mut self, piece: &[u8]) -> Result<usize, Failed>
        ensures count { IfOk result (λ n. n ≡ length piece.now) }
        ensures put { OnOk result (self.new.sink.held ≡ self.old.sink.held ++ piece.now) }
        ensures nothing { OnErr result (self.new.sink.held ≡ self.old.sink.held) }
        ensures cause { OnErr result (Rose self.old.sink.plan.faults self.new.sink.plan.faults) }
        ensures calm { OnOk result (self.new.sink.plan.faults ≡ self.old.sink.plan.faults) }
        ensures later { self.old.sink.plan.faults ≤ self.new.sink.plan.faults }

        // It does what its sink does, and leaves its source alone.
        ensures planned { IsTrue (fails_now self.old.sink.plan) → IsErr result }
        ensures only { OnErr result (IsTrue (fails_now self.old.sink.plan)
            ⊎ (self.old.sink.room < length self.old.sink.held + length piece.now)) }
        ensures plan { OnOk result (self.new.sink.plan ≡ after_call self.old.sink.plan) }
        ensures fault { OnErr result (self.new.sink.plan ≡ after_fault self.old.sink.plan) }
        ensures room { self.old.sink.room ≤ self.new.sink.room }
        ensures source { self.new.source ≡ self.old.source }
        ensures seen { self.new.seen ≡ self.old.seen }
    {
        self.sink.put(piece)
    }
}

impl Stream for MemLink {
    ghost take_is_apart = { λ _. refl };

    ghost take_keeps_notes = { λ _. refl };

    ghost put_is_apart = { λ _. refl };
}

impl Link for MemLink {
    ghost is_closed = { λ l. l.closed };

    fn close(&mut self)
        ensures closed { self.new.closed ≡ true }

        // It only notes that it was closed: what is left can still be taken.
        ensures source { self.new.source ≡ self.old.source }
        ensures sink { self.new.sink ≡ self.old.sink }
        ensures seen { self.new.seen ≡ self.old.seen }
    {
        self.closed = true;
    }
}

impl DiskLink<MemDisk> for MemLink {
    /// It keeps the note in a list that only proofs read.
    fn note(&mut self, seen: &SeenDisk<MemDisk>)
        ensures noted { link_notes self.new ≡ link_notes self.old ++ sight_note (seen.now, length self.old.sink.held) ∷ [] }

        // Nothing else changes.
        ensures source { self.new.source ≡ self.old.source }
        ensures sink { self.new.sink ≡ self.old.sink }
        ensures open { self.new.closed ≡ self.old.closed }
    {
        self.seen = self.seen.with(seen, &self.sink.bytes().len());
    }
}
