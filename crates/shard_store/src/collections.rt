//! The collections of a shard, each by its namespace.
#![tactic(auto, unfolding(crate::specs::Collections::shown_in, crate::specs::Collections::last_under, crate::specs::Collections::room_under))]

ghost use Rattle.std.specs.Prelude.{◌≡◌, ◌≤◌, ◌<◌, ◌+◌, ◌&&◌, ◌⊎◌, ℕ, List, Some, None, if◌then◌else◌, IfOk, IfSome, OnOk, map};
ghost use Rattle.std.specs.Arc.{arc_value};
ghost use Rattle.std.specs.List.{AllByRecursion};
ghost use Rattle.std.specs.Option.{option_map};
ghost use Rattle.std.specs.Str.{bytes_eq};
ghost use Rattle.value_compare.specs.Keys.{inside_some};
ghost use Rattle.value_compare.specs.Order.{same_value};
ghost use Rattle.bson_values.specs.Tree.{Datum};
ghost use Rattle.history_model.specs.Documents.{ListsDocuments};
ghost use Rattle.history_model.specs.Versions.{one_more};
ghost use Rattle.mvcc_collection.specs.Collections.{put_view};

use crate::entry::{Left, Planned};
use bson_values::{Document, Memory};
use cluster_base::Time;
use mvcc_collection::Collection;
use std::alloc::Global;
use std::collections::BTreeMap;
use std::sync::Arc;
use value_compare::{Key, SpanList};

/// The collections of a shard, each by its namespace, with the versions of their documents.
#[derive(Drop)]
pub struct Collections {
    alloc: Global,
    by_name: BTreeMap<String, Collection>,
}

impl Collections {
    ghost use Rattle.shard_store.specs.Collections.{last_under, room_under, shown_in};
    ghost use Rattle.shard_store.specs.Entries.{is_other, put_of};

    /// Returns a list of no collections.
    pub fn new(alloc: Global) -> Collections
        ensures shown { (n : List ℕ) (k : Datum) (t : ℕ) → shown_in result n k t ≡ None }
        ensures last { (n : List ℕ) (k : Datum) → last_under result n k ≡ None }
    {
        Collections {
            alloc,
            by_name: BTreeMap::new(alloc),
        }
    }

    /// Returns the document that is stored in the namespace under the key at the time, if there is one.
    pub fn get_at(&self, namespace: &str, key: &Key, time: Time) -> Option<&Arc<Document, Global>>
        ensures { option_map (λ d. arc_value d.now) result ≡ shown_in self.now namespace.now key.now time.0 }
    {
        self.by_name.get(namespace)?.get_at(key, time)
    }

    /// Returns the documents in the namespace with keys in the ranges and points at the time, in key order. Returns `Memory` if memory runs out.
    pub fn scan_at<'a>(
        &'a self,
        namespace: &str,
        span: &SpanList,
        time: Time,
    ) -> Result<Vec<&'a Arc<Document, Global>>, Memory>
        ensures { IfOk result (λ ds. ListsDocuments (λ k. if inside_some span.now k then shown_in self.now namespace.now k time.0 else None)
            (map (λ d. arc_value d.now) ds.items)) }
    {
        match self.by_name.get(namespace) {
            Some(collection) => collection.scan_at(span, time),
            None => Ok(Vec::new(self.alloc)),
        }
    }

    /// Makes room for one version more in the namespace under the key. Returns `Memory` if memory runs out. In both cases nothing else
    /// changes that can be observed.
    pub fn reserve(&mut self, namespace: &str, key: &Key) -> Result<(), Memory>
        ensures room { OnOk result (1 ≤ room_under self.new namespace.now key.now) }
        ensures rooms { (n : List ℕ) (k : Datum) → room_under self.old n k ≤ room_under self.new n k }
        ensures shown { (n : List ℕ) (k : Datum) (t : ℕ) → shown_in self.new n k t ≡ shown_in self.old n k t }
        ensures last { (n : List ℕ) (k : Datum) → last_under self.new n k ≡ last_under self.old n k }
    {
        if let Some(collection) = self.by_name.get_mut(namespace) {
            return collection.reserve(key);
        }
        let name = String::from_str(self.alloc, namespace)?;
        let mut collection = Collection::new(self.alloc);
        collection.reserve(key)?;
        self.by_name.insert(name, collection)?;
        Ok(())
    }

    /// Makes room for one version more in the namespace under each key that is planned. Returns `Memory` if memory runs out. In both cases nothing
    /// else changes that can be observed.
    pub fn reserve_all(&mut self, namespace: &str, planned: &[Planned]) -> Result<(), Memory>
        ensures room { OnOk result (AllByRecursion (λ p. 1 ≤ room_under self.new namespace.now p.key) planned.now) }
        ensures rooms { (n : List ℕ) (k : Datum) → room_under self.old n k ≤ room_under self.new n k }
        ensures shown { (n : List ℕ) (k : Datum) (t : ℕ) → shown_in self.new n k t ≡ shown_in self.old n k t }
        ensures last { (n : List ℕ) (k : Datum) → last_under self.new n k ≡ last_under self.old n k }
    {
        for entry in planned {
            self.reserve(namespace, &entry.key)?;
        }
        Ok(())
    }

    // From this time on this document, or none, is stored in the namespace under the key.
    fn put(
        &mut self,
        namespace: &str,
        key: &Key,
        time: Time,
        document: Option<Arc<Document, Global>>,
    )
        requires room { 1 ≤ room_under self.old namespace.now key.now }
        requires later { IfSome (last_under self.old namespace.now key.now) (λ t. t < time.0) }
        ensures shown { (n : List ℕ) (k : Datum) (t : ℕ) → shown_in self.new n k t
            ≡ (if bytes_eq namespace.now n then one_more (put_view key.now time document) k t (shown_in self.old n k t) else shown_in self.old n k t) }
        ensures last { (n : List ℕ) (k : Datum) → last_under self.new n k
            ≡ (if bytes_eq namespace.now n && same_value key.now k then Some time.0 else last_under self.old n k) }
        ensures rooms { (n : List ℕ) (k : Datum) → room_under self.old n k
            ≤ room_under self.new n k + (if bytes_eq namespace.now n && same_value key.now k then 1 else 0) }
    {
        if let Some(collection) = self.by_name.get_mut(namespace) {
            collection.put(key, time, document);
        }
    }

    /// From this time on the result of a statement is stored in the namespace under the key. There is room for it, and each version under
    /// the key is earlier. Takes no memory.
    pub fn enter(&mut self, namespace: &str, key: &Key, time: Time, left: Left)
        requires room { 1 ≤ room_under self.old namespace.now key.now }
        requires later { IfSome (last_under self.old namespace.now key.now) (λ t. t < time.0) }
        ensures shown { (n : List ℕ) (k : Datum) (t : ℕ) → shown_in self.new n k t
            ≡ (if is_other left && bytes_eq namespace.now n then one_more (put_of key.now time left) k t (shown_in self.old n k t)
            else shown_in self.old n k t) }
        ensures last { (n : List ℕ) (k : Datum) (t : ℕ) → last_under self.new n k ≡ Some t → (t ≡ time.0) ⊎ (last_under self.old n k ≡ Some t) }
        ensures rooms { (n : List ℕ) (k : Datum) → room_under self.old n k
            ≤ room_under self.new n k + (if bytes_eq namespace.now n && same_value key.now k then 1 else 0) }
    {
        if let Left::Other(document) = left {
            self.put(namespace, key, time, document);
        }
    }
}
