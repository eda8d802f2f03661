//! A collection: keys in order, each with its chain of versions.
#![tactic(auto, unfolding(crate::specs::Collections::at_in, crate::specs::Collections::last_in, crate::specs::Collections::room_in))]

ghost use Rattle.std.specs.Prelude.{◌≡◌, ◌+◌, ◌<◌, ◌≤◌, ◌∷◌, ◌++◌, [], ℕ, List, Some, None, IfOk, IfSome, OnOk, map, if◌then◌else◌};
ghost use Rattle.std.specs.Arc.{arc_value};
ghost use Rattle.std.specs.Option.{option_map};
ghost use Rattle.std.specs.Bound.{bound_map};
ghost use Rattle.bson_values.specs.Tree.{Datum, Fields};
ghost use Rattle.value_compare.specs.Keys.{inside, inside_some};
ghost use Rattle.value_compare.specs.Order.{same_value};
ghost use Rattle.value_compare.specs.Bounds.{bound_of};
ghost use Rattle.value_compare.specs.Spans.{span_of};
ghost use Rattle.history_model.specs.Documents.{ListsDocuments};
ghost use Rattle.history_model.specs.Versions.{Put, one_more};
ghost use Rattle.mvcc_collection.specs.Places.{AreApart};
ghost use Rattle.mvcc_collection.specs.Edges.{IsSpan, first_edge, last_edge, lower_edge, upper_edge};

mod walk;

use crate::chain::Chain;
use bson_values::{Document, Memory};
use cluster_base::Time;
use std::alloc::Global;
use std::collections::BTreeMap;
use std::ops;
use std::sync::Arc;
use value_compare::{Bound, Key, Span, SpanList};

/// The documents of a collection under their keys, each key with its versions. The map has the places of the chains and not the chains,
/// so that what a search goes through is small.
#[derive(Drop)]
pub struct Collection {
    alloc: Global,
    places: BTreeMap<Key, u32>,
    chains: Vec<Chain>,
    ghost apart: { AreApart places chains.items },
}

impl Collection {
    ghost use Rattle.mvcc_collection.specs.Collections.{PutsAre, at_in, document_in, last_in, put_view, room_in};
    ghost use Rattle.std.specs.List.{slice_get};

    /// Returns a collection of no documents.
    pub fn new(alloc: Global) -> Collection
        ensures empty { PutsAre result [] }
        ensures last { (k : Datum) → last_in result k ≡ None }
    {
        Collection {
            alloc,
            places: BTreeMap::new(alloc),
            chains: Vec::new(alloc),
        }
    }

    /// Makes room for one version more under the key. Returns `Memory` if memory runs out, and at a new key where 2^32 have a chain. Either way
    /// nothing else is to be seen of it.
    pub fn reserve(&mut self, key: &Key) -> Result<(), Memory>
        ensures room { OnOk result (1 ≤ room_in self.new key.now) }
        ensures rooms { (k : Datum) → room_in self.old k ≤ room_in self.new k }
        ensures same { (k : Datum) (t : ℕ) → at_in self.new k t ≡ at_in self.old k t }
        ensures last { (k : Datum) → last_in self.new k ≡ last_in self.old k }
    {
        if let Some(place) = self.places.get(key) {
            let chain = &mut self.chains[*place as usize];
            return chain.reserve();
        }
        let Ok(place) = u32::try_from(self.chains.len()) else {
            return Err(Memory);
        };
        self.chains.reserve(1)?;
        self.places.insert(key.copy()?, place)?;
        self.chains.push_reserved(Chain::new(self.alloc));
        Ok(())
    }

    /// From this time on this document, or none, is stored under the key, for which there is room. Each version that was stored under the key
    /// before is earlier. Takes no memory.
    pub fn put(&mut self, key: &Key, time: Time, document: Option<Arc<Document, Global>>)
        requires room { 1 ≤ room_in self.old key.now }
        requires later { IfSome (last_in self.old key.now) (λ t. t < time.0) }
        ensures put { (k : Datum) (t : ℕ) → at_in self.new k t ≡ one_more (put_view key.now time document) k t (at_in self.old k t) }
        ensures so_far { (puts : List Put) → PutsAre self.old puts → PutsAre self.new (puts ++ put_view key.now time document ∷ []) }
        ensures last { (k : Datum) → last_in self.new k ≡ (if same_value key.now k then Some time.0 else last_in self.old k) }
        ensures rooms { (k : Datum) → room_in self.old k ≤ room_in self.new k + (if same_value key.now k then 1 else 0) }
    {
        if let Some(place) = self.places.get(key) {
            let chain = &mut self.chains[*place as usize];
            chain.push(time, document);
        }
    }

    /// Returns the document that is stored under the key at the time, if there is one.
    pub fn get_at(&self, key: &Key, time: Time) -> Option<&Arc<Document, Global>>
        ensures { option_map (λ d. arc_value d.now) result ≡ at_in self.now key.now time.0 }
    {
        let place = self.places.get(key)?;
        self.document_at(*place as usize, time)
    }

    /// Returns the documents with keys in the ranges and points at the time, in key order. Returns `Memory` if memory runs out.
    pub fn scan_at<'a>(
        &'a self,
        spans: &SpanList,
        time: Time,
    ) -> Result<Vec<&'a Arc<Document, Global>>, Memory>
        ensures { IfOk result (λ ds. ListsDocuments (λ k. if inside_some spans.now k then at_in self.now k time.0 else None)
            (map (λ d. arc_value d.now) ds.items)) }
    {
        let mut documents = Vec::new(self.alloc);
        for span in spans.spans() {
            self.scan_span(span, time, &mut documents)?;
        }
        Ok(documents)
    }

    // Appends the documents with keys in one range or point at the time, in key order. Returns `Memory` if memory runs out.
    fn scan_span<'a>(
        &'a self,
        span: &Span,
        time: Time,
        documents: &mut Vec<&'a Arc<Document, Global>>,
    ) -> Result<(), Memory>
        ensures { OnOk result ((found : List Fields) × ListsDocuments (λ k. if inside (span_of span.now) k then at_in self.now k time.0 else None) found
            × (map (λ d. arc_value d.now) documents.new.items ≡ map (λ d. arc_value d.now) documents.old.items ++ found)) }
    {
        for (key, place) in self.places.range(edges(span)) {
            let _value = key.value();
            if let Some(document) = self.document_at(*place as usize, time) {
                documents.push(document)?;
            }
        }
        Ok(())
    }

    // Returns the document of the chain at the place at the time, if there is one.
    fn document_at(&self, place: usize, time: Time) -> Option<&Arc<Document, Global>>
        ensures { option_map (λ d. arc_value d.now) result ≡ document_in (slice_get self.now.chains.items place) time.0 }
    {
        self.chains.get(place)?.document_at(time)
    }
}

// Returns the edges of the span among keys.
fn edges(span: &Span) -> (ops::Bound<&Key>, ops::Bound<&Key>)
    ensures first { bound_map (λ x. x.now) result.0 ≡ first_edge (span_of span.now) }
    ensures last { bound_map (λ x. x.now) result.1 ≡ last_edge (span_of span.now) }
    ensures span { IsSpan (span_of span.now) }
{
    match span {
        Span::Range(range) => (lower_edge(range.min()), upper_edge(range.max())),
        Span::Point(key) => (ops::Bound::Included(key), ops::Bound::Included(key)),
    }
}

fn lower_edge(bound: &Bound) -> ops::Bound<&Key>
    ensures { bound_map (λ x. x.now) result ≡ lower_edge (bound_of bound.now) }
{
    match bound {
        Bound::MinKey | Bound::MaxKey => ops::Bound::Unbounded,
        Bound::At(key) => ops::Bound::Included(key),
    }
}

fn upper_edge(bound: &Bound) -> ops::Bound<&Key>
    ensures { bound_map (λ x. x.now) result ≡ upper_edge (bound_of bound.now) }
{
    match bound {
        Bound::MinKey | Bound::MaxKey => ops::Bound::Unbounded,
        Bound::At(key) => ops::Bound::Excluded(key),
    }
}
