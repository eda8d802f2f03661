//! A collection from one document to the next, and the time of a key's last version.
#![tactic(auto, unfolding(crate::specs::Collections::at_in, crate::specs::Collections::last_in, crate::specs::Present::rows_of))]

ghost use Rattle.std.specs.Prelude.{◌≡◌, MatchOption, None, Some};
ghost use Rattle.std.specs.Arc.{arc_value};
ghost use Rattle.std.specs.Bound.{bound_map};
ghost use Rattle.std.specs.Option.{option_map};
ghost use Rattle.bson_values.specs.Tree.{Datum};
ghost use Rattle.history_model.specs.Documents.{AreInOrder, document_under};
ghost use Rattle.mvcc_collection.specs.Edges.{least_edge};

use super::{Collection, lower_edge, upper_edge};
use bson_values::Document;
use cluster_base::Time;
use std::alloc::Global;
use std::ops;
use std::sync::Arc;
use value_compare::{Key, KeyRange};

// No version is later.
const NEWEST: Time = Time(u64::MAX);

impl Collection {
    ghost use Rattle.mvcc_collection.specs.Collections.{at_in, last_in};
    ghost use Rattle.mvcc_collection.specs.Present.{first_row, newest, rows_after, rows_of};

    /// Returns the time of the key's last version, which may be of no document; `None` where it has none.
    pub fn last_at(&self, key: &Key) -> Option<Time>
        ensures { option_map (λ t. t.0) result ≡ last_in self.now key.now }
    {
        let place = self.places.get(key)?;
        self.chains.get(*place as usize)?.latest()
    }

    /// Returns the document that is stored under the key at present, if there is one.
    pub fn get(&self, key: &Key) -> Option<&Arc<Document, Global>>
        ensures { option_map (λ d. arc_value d.now) result ≡ document_under key.now (rows_of self.now) }
    {
        let _places = self.places.len();
        self.get_at(key, NEWEST)
    }

    /// Returns the first document of the range at present in the order of keys, with its key: of all, or of those after a key; `None` where
    /// there is none. Takes no memory, and the logarithm of the keys in time, and one step for each key without a document on the way.
    pub fn next_document(
        &self,
        range: &KeyRange,
        after: Option<&Key>,
    ) -> Option<(&Key, &Arc<Document, Global>)>
        ensures next { MatchOption result (first_row (rows_after range.now (option_map (λ k. k.now) after.entry) (rows_of self.now)) ≡ None)
            (λ r. first_row (rows_after range.now (option_map (λ k. k.now) after.entry) (rows_of self.now)) ≡ Some (r.0.now, arc_value r.1.now)) }
        ensures ordered { AreInOrder (rows_of self.now) }
        ensures present { (k : Datum) → document_under k (rows_of self.now) ≡ at_in self.now k newest }
    {
        let _places = self.places.len();
        let greatest = upper_edge(range.max());
        let least = least_edge(range, after)?;
        for (key, place) in self.places.range((least, greatest)) {
            let _value = key.value();
            if let Some(document) = self.document_at(*place as usize, NEWEST) {
                return Some((key, document));
            }
        }
        None
    }
}

// Returns where a search for the keys of the range begins, or for those after a key; `None` where the key is above the range.
fn least_edge<'a>(range: &'a KeyRange, after: Option<&'a Key>) -> Option<ops::Bound<&'a Key>>
    ensures { option_map (bound_map (λ x. x.now)) result ≡ least_edge range.now (option_map (λ k. k.now) after.entry) }
{
    match after {
        None => Some(lower_edge(range.min())),
        Some(key) if range.contains(key) => Some(ops::Bound::Excluded(key)),
        Some(key) if range.min().compare_to_key(key).is_gt() => Some(lower_edge(range.min())),
        Some(_) => None,
    }
}
