//! The section.

ghost use Rattle.std.specs.Prelude.{◌≡◌, [], OnErr, OnOk};
ghost use Rattle.value_compare.specs.Spans.{span_of};
ghost use Rattle.critical_section.specs.Sections.{covers, covers_one_of, must_wait, overlap, section_view};
ghost use Rattle.critical_section.specs.Waiting.{parked_with};

use crate::parked::{Parked, ParkedList, is_parked};
use bson_values::Memory;
use cluster_base::{Namespace, Time};
use std::alloc::Global;
use value_compare::{KeyRange, Span};

/// What a command does with the keys that it names.
#[derive(Clone, Copy, Debug, PartialEq, Eq)]
pub enum Want {
    /// It writes.
    Write,
    /// It reads at a time.
    Read(Time),
}

impl Want {
    // Whether it waits for the end of a section with that time.
    fn must_wait(self, time: Time) -> bool
        ensures { result ≡ must_wait time.0 self }
    {
        match self {
            Want::Write => true,
            Want::Read(at) => time < at,
        }
    }
}

// Whether a range and a span overlap by their bounds.
fn overlap(range: &KeyRange, span: &Span) -> bool
    ensures { result ≡ overlap range.now (span_of span.now) }
{
    match span {
        Span::Point(key) => range.contains(key),
        Span::Range(other) => {
            range.min().compare(other.max()).is_lt() && other.min().compare(range.max()).is_lt()
        }
    }
}

/// A range of keys whose shard changes, and the commands that wait for the end of that.
#[derive(Drop)]
pub struct Section<C> {
    namespace: Namespace,
    range: KeyRange,
    time: Time,
    parked: ParkedList<C>,
}

impl<C> Section<C> {
    /// A section in which nothing waits. Takes no memory.
    pub fn enter(alloc: Global, namespace: Namespace, range: KeyRange, time: Time) -> Section<C>
        ensures { section_view result ≡ record { namespace = namespace; range = range; time = time.0; parked = [] } }
    {
        Section {
            namespace,
            range,
            time,
            parked: Vec::new(alloc),
        }
    }

    /// Whether a command of that namespace, which reads or writes keys of the span, has to wait. Takes no memory.
    pub fn covers(&self, namespace: &Namespace, span: &Span, want: Want) -> bool
        ensures { result ≡ covers (section_view self.now) namespace.now (span_of span.now) want }
    {
        self.namespace.as_str() == namespace.as_str()
            && overlap(&self.range, span)
            && want.must_wait(self.time)
    }

    /// Whether a command has to wait that reads or writes keys of these spans, as one of them is covered. Takes no memory.
    pub fn covers_any(&self, namespace: &Namespace, spans: &[Span], want: Want) -> bool
        ensures { result ≡ covers_one_of (section_view self.now) namespace.now spans.now want }
    {
        spans.iter().any(|span| self.covers(namespace, span, want))
    }
}

impl<C: Drop> Section<C> {
    /// Parks a command after the others. One whose request, turn and index are those of one that waits changes nothing, and is
    /// dropped.
    ///
    /// # Errors
    /// `Memory` when out of memory. Nothing is parked then, and the command is dropped: its sender sends it again.
    pub fn park(&mut self, parked: Parked<C>) -> Result<(), Memory>
        ensures ok { OnOk result (section_view self.new ≡ record { namespace = (section_view self.old).namespace; range = (section_view self.old).range; time = (section_view self.old).time; parked = parked_with (section_view self.old).parked parked }) }
        ensures err { OnErr result (section_view self.new ≡ section_view self.old) }
    {
        if !is_parked(&self.parked, &parked) {
            self.parked.push(parked)?;
        }
        Ok(())
    }

    /// Ends the section, and gives all that waits, in the order in which it was parked. Takes no memory.
    pub fn leave(self) -> ParkedList<C>
        ensures { result.items ≡ (section_view self).parked }
    {
        self.parked
    }
}
